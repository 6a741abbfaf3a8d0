//! What is there, found from the leaves up: rows of parts as they fall, and in a row parts by rising addresses.
ghost use Rattle.std.specs.Prelude.{◌≡◌, ℕ, ◌+◌, ◌<◌, ◌^◌, IfSome, IfOk, OnOk, length, take};
ghost use Rattle.std.specs.List.Sorted.{IsNonDecreasingBy};
ghost use Rattle.settle_spec.specs.Lists.{Request};
ghost use Rattle.pci_base.specs.WindowKinds.{kind_value};
ghost use Rattle.pci_place.specs.Above.{AreAboves, system_in};
ghost use Rattle.pci_place.specs.Items.{function_in};
ghost use Rattle.pci_first_fit.specs.declared.kept.Part.TheVariants.{Window};
ghost use Rattle.pci_kept.specs.Windows.{AreAllLawful};
ghost use Rattle.pci_grow.specs.Rows.{region_row_number};
ghost use Rattle.pci_grow.specs.There.{tables_of, in_row, there_told};
ghost use Rattle.pci_grow.specs.Telling.{setting_value, IsGrowing, IsComing, IsNext, IsNextOfSome, IsRowOfSome, IsBegunOfSome, IsLatest, there_among, AreToldTo, AreToldFrom, IsNothingGrown, AreThere};

use crate::around::Around;
use crate::coming::{Coming, Setting, comes_to, note_coming};
use crate::there::{There, in_row, is_past, later};
use pci_base::memory::OutOfMemory;
use pci_base::slot::BUSES;
use pci_base::window_kind::WindowKind;
use pci_first_fit::kept::Part;
use pci_first_fit::table::told_of;
use pci_kept::region::Region;
use std::alloc::Allocator;

/// What the next part of a row comes to, which is a window of a bridge.
fn coming_of<A: Allocator + Copy, B: Allocator>(
    alloc: A,
    setting: &Setting<B>,
    there: &There<A>,
    region: &Region,
    class: WindowKind,
) -> Result<Option<Coming<A>>, OutOfMemory>
    requires above { AreAboves (system_in setting.now.classing.now.admitted.now)
        setting.now.classing.now.aboves.now }
    requires lawful { AreAllLawful setting.now.windows.now }
    requires order { IsNonDecreasingBy region_row_number setting.now.rows.now }
    requires function { region.now.function < length (system_in setting.now.classing.now.admitted.now) }
    requires window { region.now.part ≡ Window class }
    // what is there behind it is told, and lies in order
    requires next { IsNextOfSome (setting_value setting.now) (tables_of there.now) region.now }
    ensures comes { IfOk result (λ coming. (q : Request) → (number count : ℕ)
        → IsNext q (setting_value setting.now) number count (tables_of there.now) region.now
        → IsComing q (system_in setting.now.classing.now.admitted.now)
        (there_told (system_in setting.now.classing.now.admitted.now) (tables_of there.now)) (kind_value class)
        (function_in (system_in setting.now.classing.now.admitted.now) region.now.function) coming) }
    // an item's place stands at its index
    ensures count { IfOk result (λ coming. IfSome coming (λ x. length x.places.items
        ≡ length x.items.items)) }
{
    let records = setting.classing.admitted.outline().records();
    let Some(bridge) = &records[region.function].bridge else {
        return Ok(None);
    };
    let Some(reach) = told_of(setting.reaches, region.function, class) else {
        return Ok(None);
    };
    let around = Around {
        window: region.range,
        reach,
    };
    let coming = comes_to(alloc, setting, there, bridge, class, &around)?;
    Ok(coming)
}

/// Notes a window that takes, if what it comes to is off all that is there before it, which ends with `end`.
fn take<A: Allocator + Copy, B: Allocator>(
    alloc: A,
    setting: &Setting<B>,
    there: &mut There<A>,
    region: &Region,
    class: WindowKind,
    end: Option<u64>,
) -> Result<(), OutOfMemory>
    requires above { AreAboves (system_in setting.now.classing.now.admitted.now)
        setting.now.classing.now.aboves.now }
    requires lawful { AreAllLawful setting.now.windows.now }
    requires order { IsNonDecreasingBy region_row_number setting.now.rows.now }
    requires function { region.now.function < length (system_in setting.now.classing.now.admitted.now) }
    requires window { region.now.part ≡ Window class }
    requires next { IsNextOfSome (setting_value setting.now) (tables_of there.old) region.now }
    ensures { OnOk result ((q : Request) → (number count : ℕ)
        → IsNext q (setting_value setting.now) number count (tables_of there.old) region.now
        → IsLatest (there_among q (system_in setting.now.classing.now.admitted.now)
        (take count (in_row number setting.now.rows.now))) end
        → AreToldTo q (system_in setting.now.classing.now.admitted.now) setting.now.rows.now number (count + 1)
        (tables_of there.new)) }
{
    let Some(coming) = coming_of(alloc, setting, there, region, class)? else {
        return Ok(());
    };
    if !is_past(end, coming.range) {
        return Ok(());
    }
    note_coming(there, region.function, class, &coming);
    Ok(())
}

/// Notes whether the next part of a row takes.
fn note_one<A: Allocator + Copy, B: Allocator>(
    alloc: A,
    setting: &Setting<B>,
    there: &mut There<A>,
    region: &Region,
    end: Option<u64>,
) -> Result<(), OutOfMemory>
    requires above { AreAboves (system_in setting.now.classing.now.admitted.now)
        setting.now.classing.now.aboves.now }
    requires lawful { AreAllLawful setting.now.windows.now }
    requires order { IsNonDecreasingBy region_row_number setting.now.rows.now }
    requires function { region.now.function < length (system_in setting.now.classing.now.admitted.now) }
    requires next { IsNextOfSome (setting_value setting.now) (tables_of there.old) region.now }
    ensures { OnOk result ((q : Request) → (number count : ℕ)
        → IsNext q (setting_value setting.now) number count (tables_of there.old) region.now
        → IsLatest (there_among q (system_in setting.now.classing.now.admitted.now)
        (take count (in_row number setting.now.rows.now))) end
        → AreToldTo q (system_in setting.now.classing.now.admitted.now) setting.now.rows.now number (count + 1)
        (tables_of there.new)) }
{
    let Part::Window(class) = region.part else {
        return Ok(());
    };
    take(alloc, setting, there, region, class, end)
}

/// Notes what is there in a row, by rising addresses.
fn find_in_row<A: Allocator + Copy, B: Allocator>(
    alloc: A,
    setting: &Setting<B>,
    there: &mut There<A>,
    number: u32,
) -> Result<(), OutOfMemory>
    requires above { AreAboves (system_in setting.now.classing.now.admitted.now)
        setting.now.classing.now.aboves.now }
    requires lawful { AreAllLawful setting.now.windows.now }
    requires order { IsNonDecreasingBy region_row_number setting.now.rows.now }
    // another row is behind it
    requires number { number + 1 < 2 ^ 32 }
    // what is there in the rows behind it is told
    requires behind { IsRowOfSome (setting_value setting.now) number (tables_of there.old) }
    ensures { OnOk result ((q : Request) → IsGrowing q (setting_value setting.now)
        → AreToldFrom q (system_in setting.now.classing.now.admitted.now) (number + 1) (tables_of there.old)
        → AreToldFrom q (system_in setting.now.classing.now.admitted.now) number (tables_of there.new)) }
{
    let row = in_row(setting.rows, number);
    let mut end = None;
    for region in row {
        note_one(alloc, setting, there, region, end)?;
        end = later(end, there.range_of(region));
    }
    Ok(())
}

/// So many rows there are: of I/O and of memory on the roots, which are one bus, and on each bus.
const ROWS: u32 = 2 * (BUSES as u32 + 1);

/// Notes what is there in a table of what holds. A bridge stands on a lower bus than what is behind it, so as rows fall what
/// is behind a window comes first.
pub fn find_there<A: Allocator + Copy, B: Allocator>(
    alloc: A,
    setting: &Setting<B>,
    there: &mut There<A>,
) -> Result<(), OutOfMemory>
    // which windows lead to a BAR decides its class
    requires above { AreAboves (system_in setting.now.classing.now.admitted.now)
        setting.now.classing.now.aboves.now }
    // places are looked for by sizes and alignments
    requires lawful { AreAllLawful setting.now.windows.now }
    // rows are found by halves
    requires order { IsNonDecreasingBy region_row_number setting.now.rows.now }
    // in a lawful system what is there lies in order, as looking for places asks
    requires begun { IsBegunOfSome (setting_value setting.now) (tables_of there.old) }
    ensures { OnOk result ((q : Request) → IsGrowing q (setting_value setting.now)
        → IsNothingGrown q (system_in setting.now.classing.now.admitted.now) (tables_of there.old)
        → AreThere q (system_in setting.now.classing.now.admitted.now) (tables_of there.new)) }
{
    for done in 0..ROWS {
        find_in_row(alloc, setting, there, ROWS - 1 - done)?;
    }
    Ok(())
}
