//! The judgement of an outline.
ghost use Rattle.std.specs.Prelude.{IfOk, MatchOption};
ghost use Rattle.pci_check.specs.Stops.{AreReachesOf, AlwaysNested};
ghost use Rattle.pci_check.specs.Clashes.{NoneClash};
ghost use Rattle.pci_check.specs.Judgement.{AreHome, IsFirstInEach, IsJudgement};

use super::clash::first_clash;
use super::reached::Reached;
use super::split::first_split;
use super::unreached::first_unreached;
use pci_base::memory::OutOfMemory;
use pci_base::slot::BUSES;
use pci_base::space::Space;
use pci_function::fault::Fault;
use pci_tree::outline::Outline;
use std::alloc::Allocator;

/// The first unreached region or, where there is none, the first clash.
///
/// The regions of a bus are listed once for both, so the first clash is kept until no higher bus has an unreached region.
fn first_on_buses<A: Allocator + Copy>(
    outline: &Outline<A>,
    reached: &Reached<A>,
) -> Result<Option<Fault>, OutOfMemory>
    requires reached { AreReachesOf outline.now reached.now }
    requires nested { AlwaysNested outline.now }
    ensures { IfOk result (λ o. MatchOption o (AreHome outline.now × NoneClash outline.now)
        (λ fault. IsFirstInEach outline.now fault)) }
{
    let mut clash = None;
    for bus in 0..BUSES {
        let mut io = outline.regions(bus as u8, Space::Io)?;
        let mut memory = outline.regions(bus as u8, Space::Mem)?;
        if let Some(fault) = first_unreached(outline, reached, bus as u8, &io, &memory) {
            return Ok(Some(fault));
        }
        if clash.is_none() {
            clash = first_clash(reached, bus as u8, &mut io, &mut memory);
        }
    }
    Ok(clash)
}

/// The first fault of judging in the systems with these records and root buses, or None where they have
/// none: then each access is claimed by at most one region on every bus that it gets to, and over all root
/// buses, and each address of an enabled BAR or ROM gets to its function.
///
/// 60 Unreached is looked for first, then 61 Clash, then 62 Split.
pub fn judge<A: Allocator + Copy>(
    alloc: A,
    outline: &Outline<A>,
) -> Result<Option<Fault>, OutOfMemory>
    ensures judgement { IfOk result (λ o. IsJudgement outline.now o) }
    // so a caller who is told None knows at once that a list of all faults is empty
    ensures nested { IfOk result (λ o. AlwaysNested outline.now) }
{
    let roots = outline.roots();
    let reached = Reached::of(outline)?;
    if let Some(fault) = first_on_buses(outline, &reached)? {
        return Ok(Some(fault));
    }
    first_split(alloc, outline, &roots)
}
