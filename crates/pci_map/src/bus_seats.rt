//! The regions of a bus and a space: its BARs, ROMs and windows, and told ranges that are on.
ghost use Rattle.std.specs.Prelude.{◌≡◌, ◌≤◌, length, map, IfOk, OnOk};
ghost use Rattle.std.specs.List.Sorted.{IsNonDecreasingBy, IsPermutation};
ghost use Rattle.pci_spec.specs.System.{System};
ghost use Rattle.pci_base.specs.Space.{space_of};
ghost use Rattle.pci_tree.specs.Trees.{HasTree};
ghost use Rattle.judge_spec.specs.Told.{IsTold};
ghost use Rattle.pci_claims.specs.Values.{told_value};
ghost use Rattle.pci_map.specs.declared.seat.Seat.TheVariants.{Own};
ghost use Rattle.pci_map.specs.Seats.{AreSortedSeatsOf};
ghost use Rattle.pci_map.specs.Mapped.{AreToldOn};
ghost use Rattle.pci_map.specs.BusSeats.{seat_number, AreMoreSeats, AreToldSeats};

use super::mapped::Mapped;
use super::seat::{Seat, ToldRegion, add_seat};
use pci_base::memory::OutOfMemory;
use pci_base::space::Space;
use pci_claims::all_claims::{Stretch, ranges_of};
use pci_dump::told_range::ToldRange;
use pci_tree::region::Region;
use std::alloc::Allocator;

/// BARs, ROMs and windows, as regions of a bus.
fn own_seats<'g, A: Allocator>(
    alloc: A,
    regions: &[Region],
) -> Result<Vec<Seat<'g>, A>, OutOfMemory>
    ensures { IfOk result (λ v. v.items ≡ map Own regions.now) }
{
    let Ok(mut seats) = Vec::with_capacity(alloc, regions.len()) else {
        return Err(OutOfMemory);
    };
    for region in regions {
        add_seat(&mut seats, &Seat::Own(*region))?;
    }
    Ok(seats)
}

/// Adds the told ranges of a part of their list that are of a space and on.
fn add_told<'g, A: Allocator>(
    seats: &mut Vec<Seat<'g>, A>,
    ranges: &'g [ToldRange],
    on: &[bool],
    stretch: Stretch,
    space: Space,
) -> Result<(), OutOfMemory>
    requires told { IsTold ranges.now }
    requires on { length on.now ≡ length ranges.now }
    requires low { stretch.first ≤ stretch.end }
    requires high { stretch.end ≤ length ranges.now }
    ensures { OnOk result (AreMoreSeats (AreToldSeats ranges.now on.now
        stretch.first stretch.end (space_of space)) seats.old.items seats.new.items) }
{
    for i in stretch.first..stretch.end {
        let told = &ranges[i];
        if on[i] && told.is_in(space) {
            let register = 256 + i as u16;
            add_seat(seats, &Seat::OfLine(ToldRegion { register, told }))?;
        }
    }
    Ok(())
}

/// Sorts regions of a bus by first address, then by slot and register.
fn sort<A: Allocator>(seats: &mut Vec<Seat<'_>, A>) -> Result<(), OutOfMemory>
    ensures permutation { IsPermutation seats.old.items seats.new.items }
    ensures sorted { OnOk result (IsNonDecreasingBy seat_number seats.new.items) }
{
    match seats.sort_by_key(|seat| seat.place()) {
        Ok(()) => Ok(()),
        Err(_) => Err(OutOfMemory),
    }
}

/// The regions of a bus and a space by first address, then by slot and register.
pub fn seats_on<'g, A: Allocator + Copy>(
    alloc: A,
    mapped: &Mapped<'_, 'g, A>,
    bus: u8,
    space: Space,
) -> Result<Vec<Seat<'g>, A>, OutOfMemory>
    requires { AreToldOn (told_value mapped.now.told) mapped.now.outline.now mapped.now.on.now }
    ensures { IfOk result (λ v. (s : System) → HasTree mapped.now.outline.now s
        → AreSortedSeatsOf (told_value mapped.now.told) s bus (space_of space) v.items) }
{
    let regions = mapped.outline.sorted(bus, space)?;
    let mut seats = own_seats(alloc, &regions)?;
    let ranges = mapped.told.ranges;
    let stretch = ranges_of(ranges, bus);
    if stretch.is_empty() {
        return Ok(seats);
    }
    add_told(&mut seats, ranges, mapped.on, stretch, space)?;
    sort(&mut seats)?;
    Ok(seats)
}
