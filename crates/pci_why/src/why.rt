//! The lines behind a fault of judging.
ghost use Rattle.std.specs.Prelude.{OnOk, MatchOption};
ghost use Rattle.std.specs.String.{string_bytes};
ghost use Rattle.pci_spec.specs.Text.{IsDump};
ghost use Rattle.pci_spec.specs.Mark.{all_named};
ghost use Rattle.pci_spec.specs.Fault.{named_region};
ghost use Rattle.judge_spec.specs.Told.{IsTold};
ghost use Rattle.pci_base.specs.Space.{space_of};
ghost use Rattle.pci_claims.specs.Values.{code_given_value, told_value};
ghost use Rattle.pci_faults.specs.AllLines.{any_fault_value, IsResolved};
ghost use Rattle.pci_why.specs.Rooms.{AreRoomsKept};
ghost use Rattle.pci_why.specs.Whys.{IsEvidenceTold, IsAdvisedBy, NoneAdvised, IsAdviceTold, IsWhyTold};

use super::bridge::push_unreached;
use super::fits::push_fits;
use super::host::push_outside;
use super::judged::{Judged, RegionName, region_name, two_names};
use super::room::Rooms;
use super::two::push_two;
use pci_base::memory::OutOfMemory;
use pci_claims::given::Given;
use pci_claims::sent::ranges_said;
use pci_faults::any_fault::{AnyFault, resolved};
use std::alloc::Allocator;

/// Appends the lines that tell with what ranges a fault is there, each with two spaces before it: after a 63 the region that
/// it names, and what the host sends to the root above it; after a 60 the region, the bridge, and each run of its addresses
/// that this doesn't pass; after a 61 and a 62 the two regions, and each run of addresses that are of both. Other faults
/// have none.
fn push_evidence<A: Allocator + Copy, B: Allocator>(
    alloc: A,
    text: &mut String<B>,
    judged: &Judged<'_, A>,
    fault: &AnyFault,
) -> Result<(), OutOfMemory>
    // so that the addresses of each told range can be counted
    requires told { IsTold judged.now.told.now.ranges.now }
    requires resolved { IsResolved fault.now }
    ensures { OnOk result (IsEvidenceTold (told_value judged.now.told.now)
        (code_given_value judged.now.given.now) judged.now.outline.now
        (any_fault_value fault.now) (string_bytes text.old) (string_bytes text.new)) }
{
    match *fault {
        AnyFault::OutsideHost(o) => push_outside(
            alloc,
            text,
            judged,
            region_name(o.region, o.space),
        ),
        AnyFault::Unreached(u) => {
            let name = region_name(u.region, u.space);
            push_unreached(alloc, text, judged, name, u.bridge)
        }
        AnyFault::Clash(c) => {
            let two = two_names(c.space, c.first, c.second);
            push_two(alloc, text, judged, &two)
        }
        AnyFault::Split(s) => {
            let two = two_names(s.space, s.first, s.second);
            push_two(alloc, text, judged, &two)
        }
        AnyFault::Early(_) | AnyFault::NotListed(_) => Ok(()),
    }
}

/// The region that could be moved: the one that isn't sent or isn't reached, or of two the second, or the first where the
/// second is a told range.
fn to_move(given: &Given<'_>, fault: &AnyFault) -> Option<RegionName>
    requires { IsResolved fault.now }
    ensures { MatchOption result (NoneAdvised (code_given_value given.now) (any_fault_value fault.now))
        (λ name. IsAdvisedBy (code_given_value given.now) (any_fault_value fault.now)
        (named_region name.slot name.register) (space_of name.space)) }
{
    match *fault {
        AnyFault::OutsideHost(o) => Some(region_name(o.region, o.space)),
        AnyFault::Unreached(u) => Some(region_name(u.region, u.space)),
        AnyFault::Clash(c) => Some(two_names(c.space, c.first, c.second).to_move()),
        AnyFault::Split(s) => match ranges_said(given, s.space) {
            Some(_) => Some(two_names(s.space, s.first, s.second).to_move()),
            // both regions stand on root buses, to which all of the space is sent
            None => None,
        },
        AnyFault::Early(_) | AnyFault::NotListed(_) => None,
    }
}

/// Appends where the region that could be moved would fit.
fn push_advice<A: Allocator + Copy, B: Allocator>(
    alloc: A,
    text: &mut String<B>,
    rooms: &mut Rooms<'_, A>,
    judged: &Judged<'_, A>,
    fault: &AnyFault,
) -> Result<(), OutOfMemory>
    requires resolved { IsResolved fault.now }
    // its slots rise, so a block is found by halving
    requires rising { IsDump judged.now.probe.now }
    requires kept { AreRoomsKept (told_value judged.now.told.now)
        (code_given_value judged.now.given.now) judged.now.outline.now rooms.old.on.now rooms.old.io
        rooms.old.mem rooms.old.pref }
    ensures kept { OnOk result (AreRoomsKept (told_value judged.now.told.now)
        (code_given_value judged.now.given.now) judged.now.outline.now rooms.new.on.now rooms.new.io
        rooms.new.mem rooms.new.pref) }
    ensures told { OnOk result (IsAdviceTold (all_named judged.now.probe.now)
        (told_value judged.now.told.now) (code_given_value judged.now.given.now) judged.now.outline.now
        (any_fault_value fault.now) (string_bytes text.old) (string_bytes text.new)) }
{
    match to_move(judged.given, fault) {
        Some(name) => push_fits(alloc, text, rooms, judged, name),
        None => Ok(()),
    }
}

/// Appends the lines behind a fault of judging, each with two spaces before it: those that tell with what ranges it is
/// there, and where the region would fit that isn't sent or reached, or is the second of two, or the first where the second is
/// a told range. Other faults have none. The titles of the probe's blocks tell of which regions the size isn't known. What
/// there is on a bus is kept for the next fault.
///
/// At want of memory some of the lines may stand in the text.
pub fn push_why<A: Allocator + Copy, B: Allocator>(
    alloc: A,
    text: &mut String<B>,
    rooms: &mut Rooms<'_, A>,
    judged: &Judged<'_, A>,
    fault: &AnyFault,
) -> Result<(), OutOfMemory>
    // its slots rise, so a block is found by halving
    requires rising { IsDump judged.now.probe.now }
    requires kept { AreRoomsKept (told_value judged.now.told.now)
        (code_given_value judged.now.given.now) judged.now.outline.now rooms.old.on.now rooms.old.io
        rooms.old.mem rooms.old.pref }
    ensures kept { OnOk result (AreRoomsKept (told_value judged.now.told.now)
        (code_given_value judged.now.given.now) judged.now.outline.now rooms.new.on.now rooms.new.io
        rooms.new.mem rooms.new.pref) }
    ensures told { OnOk result (IsWhyTold (all_named judged.now.probe.now)
        (told_value judged.now.told.now) (code_given_value judged.now.given.now) judged.now.outline.now
        (any_fault_value fault.now) (string_bytes text.old) (string_bytes text.new)) }
{
    let fault = resolved(fault);
    push_evidence(alloc, text, judged, &fault)?;
    push_advice(alloc, text, rooms, judged, &fault)
}
