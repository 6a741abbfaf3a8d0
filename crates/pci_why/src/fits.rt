//! Where a region that isn't sent or reached, or is the second of two, would fit on its bus.
ghost use Rattle.std.specs.Prelude.{◌≡◌, ◌<◌, ◌≤◌, ◌^◌, ◌++◌, ◌&&◌, not, IfOk, IfSome, OnOk};
ghost use Rattle.std.specs.Option.{option_map};
ghost use Rattle.std.specs.String.{string_bytes};
ghost use Rattle.pci_spec.specs.Text.{IsDump};
ghost use Rattle.pci_spec.specs.Mark.{all_named};
ghost use Rattle.pci_spec.specs.Bus.{is_root};
ghost use Rattle.pci_spec.specs.Why.{place_end, fits_line};
ghost use Rattle.pci_spec.specs.Fault.{named_region};
ghost use Rattle.judge_spec.specs.Told.{IsTold};
ghost use Rattle.judge_spec.specs.Why.{is_said};
ghost use Rattle.pci_base.specs.Ranges.{decoded_range_of};
ghost use Rattle.pci_base.specs.Space.{space_of, kind_in};
ghost use Rattle.pci_claims.specs.Values.{code_given_value, told_value};
ghost use Rattle.pci_claims.specs.ToldOn.{AreOnIn};
ghost use Rattle.pci_why.specs.Fits.{IsFitIn, IsFitFor, IsFitTold};
ghost use Rattle.pci_why.specs.Rooms.{IsRoomKept, AreRoomsKept};

use super::free::free_in;
use super::judged::{Judged, RegionName, TOLD_FROM};
use super::place::least_from;
use super::region_line::{RegionPlace, push_range_line};
use super::room::{Moving, Room, Rooms, make_ready};
use super::wide::is_wide;
use pci_base::memory::OutOfMemory;
use pci_base::range::Range;
use pci_base::space::Space;
use pci_base::window_kind::WindowKind;
use pci_claims::find::region_at;
use pci_claims::given::Given;
use pci_claims::sent::ranges_said;
use pci_dump::mark::is_size_assumed;
use pci_tree::bus::record_at;
use pci_tree::outline::Outline;
use pci_tree::region::Part;
use std::alloc::{AllocError, Allocator};

/// Whether a bus is a root bus to which all of a space is sent.
fn is_sent_all<A: Allocator>(given: &Given<'_>, outline: &Outline<A>, bus: u8, space: Space) -> bool
    ensures { result ≡ (is_root outline.now.roots bus
        && not (is_said (code_given_value given.now) (space_of space))) }
{
    outline.roots().has(bus) && ranges_said(given, space).is_none()
}

/// The number below which a region has to stand.
fn end_of_places(space: Space, wide: bool) -> u128
    ensures number { result ≡ place_end (space_of space) wide }
    // so the sum of an address and a size fits 128 bits
    ensures small { result ≤ 2 ^ 64 }
{
    match (space, wide) {
        (Space::Io, _) => 1 << 16,
        (Space::Mem, false) => 1 << 32,
        (Space::Mem, true) => 1 << 64,
    }
}

/// The least place at which accesses to a region would get to its bus, and no other region would claim one of them that
/// can clash with it, by what there is on the bus.
fn fit_in<A: Allocator + Copy>(
    alloc: A,
    room: &Option<Room<A>>,
    moving: &Moving,
) -> Result<Option<Range>, OutOfMemory>
    requires { moving.now.region.first ≤ moving.now.region.last }
    ensures some { IfOk result (λ o. IfSome o (λ r. r.first ≤ r.last)) }
    ensures exact { IfOk result (λ o. IsFitIn room.now (space_of moving.now.space)
        moving.now.region moving.now.wide o) }
{
    let Some(room) = room else {
        return Ok(None);
    };
    let free = free_in(alloc, room, moving)?;
    let more = u128::from(moving.region.last - moving.region.first);
    let end = end_of_places(moving.space, moving.wide);
    match least_from(&free, 0, more + 1, end) {
        None => Ok(None),
        Some(first) => Ok(Some(Range {
            first: first as u64,
            last: (first + more) as u64,
        })),
    }
}

/// The same, where the bus is looked at first.
fn fit_by<A: Allocator + Copy>(
    alloc: A,
    kept: &mut Option<Room<A>>,
    on: &[bool],
    judged: &Judged<'_, A>,
    moving: &Moving,
) -> Result<Option<Range>, OutOfMemory>
    requires told { IsTold judged.now.told.now.ranges.now }
    requires on { AreOnIn (told_value judged.now.told.now) judged.now.outline.now on.now }
    requires some { moving.now.region.first ≤ moving.now.region.last }
    // else it would be of another kind, or of other functions
    requires kept { IsRoomKept (told_value judged.now.told.now)
        (code_given_value judged.now.given.now) judged.now.outline.now
        (kind_in (space_of moving.now.space) moving.now.region.prefetch) kept.old }
    ensures kept { OnOk result (IsRoomKept (told_value judged.now.told.now)
        (code_given_value judged.now.given.now) judged.now.outline.now
        (kind_in (space_of moving.now.space) moving.now.region.prefetch) kept.new) }
    ensures some { IfOk result (λ o. IfSome o (λ r. r.first ≤ r.last)) }
    ensures exact { IfOk result (λ o. IsFitFor (told_value judged.now.told.now)
        (code_given_value judged.now.given.now) judged.now.outline.now (space_of moving.now.space)
        moving.now.region moving.now.wide o) }
{
    make_ready(alloc, kept, on, judged, moving)?;
    fit_in(alloc, kept, moving)
}

/// The same, by what was looked at last for the kind of access.
fn fit_of<A: Allocator + Copy>(
    alloc: A,
    rooms: &mut Rooms<'_, A>,
    judged: &Judged<'_, A>,
    moving: &Moving,
) -> Result<Option<Range>, OutOfMemory>
    requires some { moving.now.region.first ≤ moving.now.region.last }
    requires kept { AreRoomsKept (told_value judged.now.told.now)
        (code_given_value judged.now.given.now) judged.now.outline.now rooms.old.on.now rooms.old.io
        rooms.old.mem rooms.old.pref }
    ensures kept { OnOk result (AreRoomsKept (told_value judged.now.told.now)
        (code_given_value judged.now.given.now) judged.now.outline.now rooms.new.on.now rooms.new.io
        rooms.new.mem rooms.new.pref) }
    ensures some { IfOk result (λ o. IfSome o (λ r. r.first ≤ r.last)) }
    ensures exact { IfOk result (λ o. IsFitFor (told_value judged.now.told.now)
        (code_given_value judged.now.given.now) judged.now.outline.now (space_of moving.now.space)
        moving.now.region moving.now.wide o) }
{
    let on = rooms.on;
    match moving.space.kind(moving.region.prefetch) {
        WindowKind::Io => fit_by(alloc, &mut rooms.io, on, judged, moving),
        WindowKind::Memory => fit_by(alloc, &mut rooms.mem, on, judged, moving),
        WindowKind::Prefetchable => fit_by(alloc, &mut rooms.pref, on, judged, moving),
    }
}

/// Appends the line of a place, as `fits 00000000e0010000-00000000e001ffff 64K`, or `fits none`.
fn push_fit<A: Allocator>(
    text: &mut String<A>,
    space: Space,
    fit: Option<Range>,
) -> Result<(), AllocError>
    // the line of a place tells how many addresses it has
    requires { IfSome fit (λ r. r.first ≤ r.last) }
    ensures { OnOk result (string_bytes text.new
        ≡ string_bytes text.old ++ fits_line (space_of space) (option_map decoded_range_of fit)) }
{
    match fit {
        None => text.push_str("  fits none\n"),
        Some(range) => push_range_line(text, "fits", space, range),
    }
}

/// Appends where the region of a function at a register would fit.
fn push_own_fits<A: Allocator + Copy, B: Allocator>(
    alloc: A,
    text: &mut String<B>,
    rooms: &mut Rooms<'_, A>,
    judged: &Judged<'_, A>,
    place: RegionPlace,
) -> Result<(), OutOfMemory>
    // its slots rise, so a block is found by halving
    requires rising { IsDump judged.now.probe.now }
    // those from here on name told ranges
    requires low { place.reg < 256 }
    requires kept { AreRoomsKept (told_value judged.now.told.now)
        (code_given_value judged.now.given.now) judged.now.outline.now rooms.old.on.now rooms.old.io
        rooms.old.mem rooms.old.pref }
    ensures kept { OnOk result (AreRoomsKept (told_value judged.now.told.now)
        (code_given_value judged.now.given.now) judged.now.outline.now rooms.new.on.now rooms.new.io
        rooms.new.mem rooms.new.pref) }
    ensures told { OnOk result (IsFitTold (all_named judged.now.probe.now)
        (told_value judged.now.told.now) (code_given_value judged.now.given.now) judged.now.outline.now
        (named_region place.slot place.reg) (space_of place.space)
        (string_bytes text.old) (string_bytes text.new)) }
{
    let RegionPlace { slot, reg, space } = place;
    let Some(region) = region_at(alloc, judged.outline, slot, reg, space)? else {
        return Ok(());
    };
    if region.part == Part::Window {
        return Ok(());
    }
    if is_sent_all(judged.given, judged.outline, slot.bus(), space) {
        return Ok(());
    }
    if is_size_assumed(judged.probe, slot, reg) {
        text.push_str("  fits unknown\n")?;
        return Ok(());
    }
    let Some(function) = record_at(judged.outline.records(), slot) else {
        return Ok(());
    };
    let wide = is_wide(function, &region);
    let moving = Moving {
        region,
        space,
        wide,
    };
    let fit = fit_of(alloc, rooms, judged, &moving)?;
    push_fit(text, space, fit)?;
    Ok(())
}

/// Appends where the region that is named would fit: the least range of its size whose first address is a multiple of
/// that, below 4 GB where it is no BAR of 64 bits (of I/O below 64 KB), to which accesses start on the root bus above,
/// that each bridge on the way passes, and that no other region claims which can clash with it. Where the read back of
/// the register is assumed, as the titles of the probe's blocks tell it, that isn't known: `fits unknown`. There is no
/// such line of a window, since what is behind its bridge would have to move with it, nor of a legacy part, a palette part
/// or a told range, which can't be moved, and none on a root bus to which all of the space is sent.
pub fn push_fits<A: Allocator + Copy, B: Allocator>(
    alloc: A,
    text: &mut String<B>,
    rooms: &mut Rooms<'_, A>,
    judged: &Judged<'_, A>,
    name: RegionName,
) -> Result<(), OutOfMemory>
    // its slots rise, so a block is found by halving
    requires rising { IsDump judged.now.probe.now }
    requires kept { AreRoomsKept (told_value judged.now.told.now)
        (code_given_value judged.now.given.now) judged.now.outline.now rooms.old.on.now rooms.old.io
        rooms.old.mem rooms.old.pref }
    ensures kept { OnOk result (AreRoomsKept (told_value judged.now.told.now)
        (code_given_value judged.now.given.now) judged.now.outline.now rooms.new.on.now rooms.new.io
        rooms.new.mem rooms.new.pref) }
    ensures told { OnOk result (IsFitTold (all_named judged.now.probe.now)
        (told_value judged.now.told.now) (code_given_value judged.now.given.now) judged.now.outline.now
        (named_region name.slot name.register) (space_of name.space)
        (string_bytes text.old) (string_bytes text.new)) }
{
    if name.register >= TOLD_FROM {
        return Ok(());
    }
    let place = RegionPlace {
        slot: name.slot,
        reg: name.register as u8,
        space: name.space,
    };
    push_own_fits(alloc, text, rooms, judged, place)
}
