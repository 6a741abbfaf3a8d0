//! What has a line of its own in a map: a BAR, a ROM or a window, or a told range.
ghost use Rattle.std.specs.Prelude.{◌≡◌, ◌≤◌, ◌<◌, ◌++◌, ◌∷◌, [], IsAscii, OnOk};

use pci_base::memory::OutOfMemory;
use pci_base::range::Range;
use pci_base::slot::Slot;
use pci_base::space::Space;
use pci_claims::claim::number_of;
use pci_dump::told_range::ToldRange;
use pci_tree::region::Region;
use std::alloc::Allocator;
use std::slice;

/// A told range, with the register of its line.
#[derive(Clone, Copy)]
pub struct ToldRegion<'a> {
    pub register: u16,
    pub told: &'a ToldRange,
    ghost behind_registers: { 256 ≤ register },
    ghost below_limit: { register < 8192 },
    ghost is_forward: { told.now.first ≤ told.now.last },
    ghost name_is_ascii: { IsAscii told.now.name },
}

/// How far the places of regions with consecutive first addresses are apart.
const FIRST_PLACE: u128 = 0x1_0000_0000;

/// A region of a bus.
#[derive(Clone, Copy)]
pub enum Seat<'a> {
    /// A BAR, a ROM or a window.
    Own(Region),
    OfLine(ToldRegion<'a>),
}

/// Adds a region to a list.
pub fn add_seat<'g, A: Allocator>(
    seats: &mut Vec<Seat<'g>, A>,
    seat: &Seat<'g>,
) -> Result<(), OutOfMemory>
    ensures { OnOk result (seats.new.items ≡ seats.old.items ++ seat.now ∷ []) }
{
    // the borrow checker has no rule for a push by value of what holds a slot beside a reference
    seats.extend_from_slice(slice::from_ref(seat))?;
    Ok(())
}

impl ToldRegion<'_> {
    ghost use Rattle.judge_spec.specs.ToldClaims.{is_marked_held};
    ghost use Rattle.pci_base.specs.Space.{space_of};
    ghost use Rattle.pci_map.specs.Seats.{told_range};

    pub fn slot(&self) -> Slot
        ensures { result ≡ self.now.told.now.slot }
    {
        let told = self.told;
        told.slot
    }

    pub fn space(&self) -> Space
        ensures { space_of result ≡ self.now.told.now.space }
    {
        let told = self.told;
        told.space
    }

    /// Its addresses.
    pub fn range(&self) -> Range
        ensures { result ≡ told_range self.now.told.now }
    {
        let told = self.told;
        Range {
            first: told.first,
            last: told.last,
        }
    }

    /// Whether somebody at its slot answers it, and nothing else is known of whom.
    pub fn is_held(&self) -> bool
        ensures { result ≡ is_marked_held self.now.told.now.mark }
    {
        let told = self.told;
        told.is_held()
    }
}

impl Seat<'_> {
    ghost use Rattle.pci_map.specs.Seats.{seat_first, seat_range};
    ghost use Rattle.pci_map.specs.BusSeats.{seat_number, slot_place};

    /// Its addresses.
    pub fn range(&self) -> Range
        ensures { result ≡ seat_range self.now }
    {
        match self {
            Seat::Own(region) => Range {
                first: region.first,
                last: region.last,
            },
            Seat::OfLine(line) => line.range(),
        }
    }

    /// Its first address.
    pub fn first(&self) -> u64
        ensures { result ≡ seat_first self.now }
    {
        match self {
            Seat::Own(region) => region.first,
            Seat::OfLine(line) => line.range().first,
        }
    }

    /// Its place in the order of slots and registers.
    fn number(&self) -> u32
        ensures { result ≡ slot_place self.now }
    {
        match self {
            Seat::Own(region) => number_of(region.slot, u16::from(region.reg)),
            Seat::OfLine(line) => number_of(line.slot(), line.register),
        }
    }

    /// Its place in the order of first addresses, slots and registers.
    pub fn place(&self) -> u128
        ensures { result ≡ seat_number self.now }
    {
        u128::from(self.first()) * FIRST_PLACE + u128::from(self.number())
    }
}
