//! How the box of a region looks, by its part and by the faults that name it.
ghost use Rattle.std.specs.Prelude.{◌≡◌, ◌++◌, IfOk, OnOk};
ghost use Rattle.pci_picture.specs.Lines.{words_in_line};
ghost use Rattle.pci_picture.specs.Looks.{class_with};
ghost use Rattle.pci_picture.specs.Marks.{has_naming, key_of_region, look_with, word_of_part};
ghost use Rattle.pci_picture.specs.RegionWords.{any_number, numbers_naming, words_of_numbers};

use super::faults::Faults;
use super::memory::OutOfMemory;
use super::region::{Part, Region};
use super::words::Words;
use std::alloc::Allocator;

/// The class of the box of a part, with its marks.
fn marked(part: Part, clashes: bool, is_lost: bool) -> &'static str
    ensures { result.now ≡ look_with clashes is_lost (word_of_part part) }
{
    let [plain, clash, lost, both] = match part {
        Part::Bar => ["bar", "bar clash", "bar lost", "bar clash lost"],
        Part::Prefetchable => ["pref", "pref clash", "pref lost", "pref clash lost"],
        Part::Rom => ["rom", "rom clash", "rom lost", "rom clash lost"],
        Part::Window => ["window", "window clash", "window lost", "window clash lost"],
        Part::Told => ["told", "told clash", "told lost", "told clash lost"],
        Part::Held => ["held", "held clash", "held lost", "held clash lost"],
        Part::Free => ["free", "free clash", "free lost", "free clash lost"],
    };
    match (clashes, is_lost) {
        (false, false) => plain,
        (true, false) => clash,
        (false, true) => lost,
        (true, true) => both,
    }
}

/// The class of a region's box. It is marked where it is out of place, and where a fault names it.
pub fn class_of<A: Allocator + Copy>(
    faults: &Faults<'_, A>,
    region: &Region<'_>,
    is_lost: bool,
) -> &'static str
    ensures { result.now ≡ class_with (has_naming faults.entry.now.faults.items faults.entry.now.namings.items) is_lost
        region.entry.now.line.now }
{
    let clashes = faults.has(region.key, 61, 62);
    let is_unreached = faults.has(region.key, 60, 63);
    marked(region.part, clashes, is_lost || is_unreached)
}

/// Appends the numbers of a region's faults, each once, with a colon behind them. Its answer is whether there is one.
pub fn put_marks<A: Allocator + Copy>(
    words: &mut Words<A>,
    faults: &Faults<'_, A>,
    region: &Region<'_>,
) -> Result<bool, OutOfMemory>
    ensures puts { OnOk result (words.new.bytes.items ≡ words.old.bytes.items ++ words_of_numbers
        (numbers_naming (has_naming faults.now.faults.items faults.now.namings.items) (key_of_region (words_in_line region.now.line.now)))) }
    ensures marked { IfOk result (λ is_marked. is_marked ≡ any_number (numbers_naming
        (has_naming faults.entry.now.faults.items faults.entry.now.namings.items) (key_of_region (words_in_line region.entry.now.line.now)))) }
{
    let mut is_marked = false;
    for number in 60..64u8 {
        if faults.has(region.key, number, number) {
            if is_marked {
                words.put(b" ")?;
            }
            words.put(&[b'0' + number / 10, b'0' + number % 10])?;
            is_marked = true;
        }
    }
    if is_marked {
        words.put(b": ")?;
    }
    Ok(is_marked)
}
