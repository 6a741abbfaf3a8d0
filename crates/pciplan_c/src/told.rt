//! The ranges that a third text tells of, beside a dump and its probe.
ghost use Rattle.std.specs.Prelude.{◌≡◌, ℕ, List, map, IfOk, IfErr, MatchOption};
ghost use Rattle.judge_spec.specs.ToldText.{IsToldTextOf};
ghost use Rattle.pci_faults.specs.AllLines.{any_fault_value};
ghost use Rattle.pci_faults.specs.Every.{AreReadyForJudging};
ghost use Rattle.pci_dump.specs.ToldFaults.{IsToldTextFault};
ghost use Rattle.pci_tree.specs.Roots.{IsRootList, buses_of};
ghost use Rattle.pciplan_c.specs.ToldTexts.{AreRangesTold, IsEarlyFirst, IsFirstUnready, IsNotTold, IsUnready, told_ranges};

use crate::admitting::read;
use crate::held::Bytes;
use crate::no_writes::NoWrites;
use crate::refusal::Refusal;
use crate::unread::Unread;
use crate::unready::Unready;
use pci_base::memory::{OutOfMemory, Refused};
use pci_claims::told::Told;
use pci_dump::dump::Dump;
use pci_dump::read_fault::ReadFault;
use pci_dump::told_list::ToldList;
use pci_dump::told_reader::read_told;
use pci_faults::any_fault::AnyFault;
use pci_faults::every::{BeforeJudging, before_judging};
use pci_tree::roots::Roots;
use std::alloc::Allocator;

/// The ranges of a text.
fn ranges_of<A: Allocator>(alloc: A, also: &[u8]) -> Result<ToldList<A>, Refused<ReadFault>>
    ensures ok { IfOk result (IsToldTextOf also.now) }
    ensures fault { IfErr result (λ why. (fault : ReadFault) → why ≡ Refused.Fault fault
        → IsToldTextFault also.now fault) }
{
    match read_told(alloc, &mut Bytes::of(also)) {
        Ok(list) => Ok(list),
        Err(ReadFault::Memory) => Err(Refused::Memory),
        Err(fault) => Err(Refused::Fault(fault)),
    }
}

/// The first of some faults, which is looked for before judging.
fn first_of(faults: &[AnyFault]) -> Unready
    requires { IsEarlyFirst (map any_fault_value faults.now) }
    ensures { IsFirstUnready (map any_fault_value faults.now) result }
{
    match faults.first() {
        Some(AnyFault::NotListed(slot)) => Unready::NotListed(*slot),
        Some(AnyFault::Early(fault)) => Unready::Early(*fault),
        _ => unreachable!(),
    }
}

/// What stands in the way of judging two dumps with what is told, where something does.
fn unready_of<A: Allocator + Copy>(
    alloc: A,
    dump: &Dump<A>,
    probe: &Dump<A>,
    roots: Roots,
    list: &ToldList<A>,
) -> Result<Option<Unready>, OutOfMemory>
    ensures { IfOk result (λ found. MatchOption found
        (AreReadyForJudging (told_ranges list.now) (buses_of roots) dump.now probe.now)
        (IsUnready list.now (buses_of roots) dump.now probe.now)) }
{
    // slots rise in both, so a list of 30 is none of judging
    let _ = (dump.blocks(), probe.blocks());
    let told = Told {
        ranges: list.as_slice(),
        asleep: &[],
    };
    let found = before_judging(alloc, dump, probe, roots, &told)?;
    match found {
        BeforeJudging::Refused(faults) => Ok(Some(first_of(faults.as_slice()))),
        BeforeJudging::Admitted(_outline) => Ok(None),
    }
}

/// The ranges that a third text tells of, none where it is empty. Else the dump's text is looked at first, then the probe's, then
/// this one, and then what stands in the way of judging the two with what is told: all this in a frame that is let go.
///
/// # Errors
///
/// `Memory` where a growth was refused, else the first of these that has a fault.
#[inline(never)]
pub fn told_of<A: Allocator + Copy>(
    alloc: A,
    dump: &[u8],
    probe: &[u8],
    roots: Roots,
    also: &[u8],
) -> Result<ToldList<A>, Refused<NoWrites>>
    // of the list of which the roots were made
    ensures told { IfOk result (λ told. (buses : List ℕ) → buses_of roots ≡ buses
        → AreRangesTold buses dump.now probe.now also.now told) }
    ensures why { IfErr result (λ why. (buses : List ℕ) → buses_of roots ≡ buses
        → IsRootList buses → IsNotTold buses dump.now probe.now also.now why) }
{
    if also.is_empty() {
        return Ok(ToldList::empty(alloc));
    }
    let dump = match read(alloc, dump) {
        Ok(dump) => dump,
        Err(Refused::Fault(fault)) => {
            return Err(Refused::Fault(NoWrites::Unread(Unread::Refused(Refusal::Dump(fault)))));
        }
        Err(Refused::Memory) => return Err(Refused::Memory),
    };
    let probe = match read(alloc, probe) {
        Ok(probe) => probe,
        Err(Refused::Fault(fault)) => {
            return Err(Refused::Fault(NoWrites::Unread(Unread::Refused(Refusal::Probe(fault)))));
        }
        Err(Refused::Memory) => return Err(Refused::Memory),
    };
    let list = match ranges_of(alloc, also) {
        Ok(list) => list,
        Err(Refused::Fault(fault)) => return Err(Refused::Fault(NoWrites::Also(fault))),
        Err(Refused::Memory) => return Err(Refused::Memory),
    };
    match unready_of(alloc, &dump, &probe, roots, &list) {
        Ok(None) => Ok(list),
        Ok(Some(why)) => Err(Refused::Fault(NoWrites::NotReady(why))),
        Err(OutOfMemory) => Err(Refused::Memory),
    }
}
