//! Settling where room is kept free in windows.
ghost use Rattle.std.specs.Prelude.{◌≡◌, [], IfOk, length, map};
ghost use Rattle.settle_spec.specs.Lists.{Request};
ghost use Rattle.settle_spec.specs.Kept.{Kept as Keeping, unwished};
ghost use Rattle.pci_place.specs.Above.{system_in};
ghost use Rattle.pci_plan.specs.Writes.{write_value};
ghost use Rattle.pci_first_fit.specs.Slots.{demand_value};
ghost use Rattle.pci_first_fit.specs.Over.{AreOpenOver};
ghost use Rattle.pci_settle_places.specs.Live.{HasAllPlaces};
ghost use Rattle.pci_settle_places.specs.Answers.{AreFlagsOfTold};
ghost use Rattle.pci_settle.specs.Requests.{IsAskedOf};
ghost use Rattle.pci_settle.specs.Told.{TellsKeeping};
ghost use Rattle.pci_settle.specs.Wished.{TellsWishes};
ghost use Rattle.pci_settle.specs.Dumps.{IsSettledDump, IsSettledByWrites};

use crate::dump::{Images, settled_dump};
use crate::settle::Settled;
use crate::shut::all_closings;
use crate::tables::Tables;
use crate::writes::writes_to;
use pci_base::memory::OutOfMemory;
use pci_dump::block::Block;
use pci_first_fit::list::Lists;
use pci_first_fit::over::OpenWindows;
use pci_first_fit::table::WindowRanges;
use pci_tree::admitted::Admitted;
use std::alloc::Allocator;

/// The windows in which room is kept free, and the settled dump without that room.
#[derive(Clone, Copy)]
pub struct Wished<'a> {
    /// Their addresses, by function in slot order; None of windows that show their places.
    pub windows: &'a [WindowRanges],
    pub plain: &'a [Block],
}

/// What settling comes to where room is kept free in windows. `overs` has the open windows over each bus, which are none where
/// all is placed anew, and `tables` what is known without that room. No spare is told as denied.
///
/// Errors: 2 `OutOfMemory` where a growth was refused.
pub fn settled_wished<'a, A: Allocator + Copy, B: Allocator>(
    alloc: A,
    admitted: &Admitted<B>,
    lists: &Lists,
    overs: &[OpenWindows],
    tables: &Tables<'a>,
    wished: &Wished<'a>,
) -> Result<Settled<A>, OutOfMemory>
    // a function's places stand where its record does
    requires places { length tables.now.places.now ≡ length (system_in admitted.now) }
    // what stays of a function stands where its record does
    requires staying { length tables.now.staying.now ≡ length (system_in admitted.now) }
    // a told range has its flag by its index
    requires told { length tables.now.standing.now ≡ length lists.now.told.ranges.now }
    // old and new of a function have one index
    requires plain { length wished.now.plain.now ≡ length admitted.now.dump }
    // a title is the caller's own text, and no register
    ensures titles { IfOk result
        (λ x. map (λ b. b.title) x.dump ≡ map (λ b. b.title) admitted.now.dump) }
    ensures denied { IfOk result (λ x. x.denied.items ≡ []) }
    ensures settled { IfOk result (λ x. (q : Request) (keep : Keeping)
        → IsAskedOf q admitted.now.roots (demand_value lists.now)
        → AreFlagsOfTold q (system_in admitted.now) tables.now.standing.now
        → AreOpenOver q (system_in admitted.now) overs.now
        → HasAllPlaces q (system_in admitted.now) keep tables.now.places.now
        → TellsKeeping q (system_in admitted.now) keep tables.now.grown.now tables.now.staying.now
        → TellsWishes (system_in admitted.now) keep wished.now.windows.now
        → IsSettledDump q (unwished keep) admitted.now wished.now.plain.now
        → IsSettledByWrites q keep admitted.now x.dump (map write_value x.writes.all.items)
        x.writes.closings) }
{
    let dump = settled_dump(alloc, admitted, lists, tables, wished.windows)?;
    let images = Images {
        plain: wished.plain,
        settled: dump.blocks(),
    };
    let closings = all_closings(alloc, admitted, lists, overs, &images, tables)?;
    let writes = writes_to(alloc, admitted, images.settled, closings.each.as_slice())?;
    let denied = Vec::new(alloc);
    Ok(Settled {
        dump,
        writes,
        denied,
    })
}
