//! All faults of judging.
ghost use Rattle.std.specs.Prelude.{IfOk};
ghost use Rattle.pci_faults.specs.Lines.{AreAllListed};

use super::board::Board;
use super::clashes::{add_clashes, add_splits};
use super::order::sort;
use super::unreached::add_unreached;
use pci_base::memory::OutOfMemory;
use pci_check::judge::judge;
use pci_check::reached::Reached;
use pci_function::fault::Fault;
use pci_tree::outline::Outline;
use std::alloc::Allocator;

/// All faults of judging of the systems with these records and root buses: 60 of each BAR or ROM that isn't home, with
/// the first bridge that doesn't pass all of it; 61 of each region that claims an address with one before it on its bus,
/// with the least such address and the least region that claims it; 62 likewise over the root buses. They stand in the
/// order in which judging looks for them, so the first is the one that [`judge`] answers.
///
/// Where there is none it costs what [`judge`] does.
pub fn all_of_judging<A: Allocator + Copy>(
    alloc: A,
    outline: &Outline<A>,
) -> Result<Vec<Fault, A>, OutOfMemory>
    ensures { IfOk result (λ faults. AreAllListed outline.now faults.items) }
{
    let mut faults = Vec::new(alloc);
    match judge(alloc, outline)? {
        None => return Ok(faults),
        Some(_) => {}
    }
    let reached = Reached::of(outline)?;
    let board = Board {
        outline,
        reached: &reached,
    };
    add_unreached(&mut faults, &board)?;
    add_clashes(alloc, &mut faults, &board)?;
    add_splits(alloc, &mut faults, outline)?;
    sort(&mut faults)?;
    Ok(faults)
}
