//! Which functions of a dump are taken as asleep.
ghost use Rattle.std.specs.Prelude.{◌≡◌, ◌↔◌, IfOk, IsTrue};
ghost use Rattle.pci_spec.specs.System.{system_of};
ghost use Rattle.pci_spec.specs.Text.{slots_of};
ghost use Rattle.judge_spec.specs.Asleep.{AreAsleepBy};
ghost use Rattle.judge_spec.specs.Taken.{IsAsleepBy};
ghost use Rattle.pci_model.specs.WordsValue.{words_value};

use super::aside::first_aside;
use super::power::is_asleep;
use super::words::Words;
use pci_base::image::Image;
use pci_base::memory::OutOfMemory;
use pci_base::slot::Slot;
use pci_dump::dump::Dump;
use std::alloc::Allocator;

/// Whether a function is taken as asleep, where that counts.
fn is_taken_asleep(slot: Slot, image: &Image, probe: &Image, words: Words) -> bool
    // the caller asks no function where it doesn't
    requires { IsTrue words.power }
    ensures { IsTrue result ↔ IsAsleepBy (words_value words) record
        { slot = slot; image = image.now.0; probe = probe.now.0 } }
{
    let mut image = *image;
    let mut probe = *probe;
    first_aside(&mut image, &mut probe, words);
    is_asleep(slot, &image, &probe)
}

/// The slots of the functions of a dump that are taken as asleep, in its order: none where the word for it doesn't count.
///
/// # Errors
///
/// 2 where a growth was refused.
pub fn asleep<A: Allocator, B: Allocator, C: Allocator>(
    alloc: A,
    dump: &Dump<B>,
    probe: &Dump<C>,
    words: Words,
) -> Result<Vec<Slot, A>, OutOfMemory>
    // else no two blocks make a function
    requires { slots_of dump.now ≡ slots_of probe.now }
    ensures { IfOk result
        (λ slots. AreAsleepBy (words_value words) (system_of dump.now probe.now) slots.items) }
{
    let mut slots = Vec::new(alloc);
    if !words.power {
        return Ok(slots);
    }
    let blocks = dump.blocks();
    let probes = probe.blocks();
    for i in 0..blocks.len() {
        let block = &blocks[i];
        let read_backs = &probes[i];
        if is_taken_asleep(block.slot, &block.image, &read_backs.image, words) {
            slots.push(block.slot)?;
        }
    }
    Ok(slots)
}
