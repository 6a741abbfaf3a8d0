//! The order in which judging looks for clashes and splits.
ghost use Rattle.std.specs.Prelude.{◌≡◌, ◌<◌, ◌^◌, OnOk};
ghost use Rattle.std.specs.List.Sorted.{IsNonDecreasingBy, IsPermutation};
ghost use Rattle.pci_base.specs.Space.{space_of};
ghost use Rattle.pci_faults.specs.Order.{space_address_key};
ghost use Rattle.judge_spec.specs.ToldAllFaults.{region_number};
ghost use Rattle.pci_faults.specs.RegionOrder.{number_on_bus, clash_place, split_place};

use super::named::{Clash, Split};
use pci_base::memory::OutOfMemory;
use pci_base::slot::Slot;
use pci_base::space::Space;
use std::alloc::Allocator;

/// The place of a region among those of its bus.
fn number_on_bus(slot: Slot, register: u16) -> u128
    ensures place { result ≡ number_on_bus slot register }
    ensures small { result < 2 ^ 22 }
{
    let function = slot.number() % 256;
    u128::from(function) * 8192 + u128::from(register)
}

/// The place of a region by slot and register.
fn number_of(slot: Slot, register: u16) -> u128
    ensures place { result ≡ region_number slot register }
    ensures small { result < 2 ^ 30 }
{
    u128::from(slot.number()) * 8192 + u128::from(register)
}

/// The place of a space and an address, below 2^65.
fn address_in(space: Space, address: u64) -> u128
    ensures place { result ≡ space_address_key (space_of space) address }
    ensures small { result < 2 ^ 65 }
{
    let address = u128::from(address);
    match space {
        Space::Io => address,
        Space::Mem => (1 << 64) + address,
    }
}

/// The place of a clash: one that is looked for before another has a lesser place.
fn place_of_clash(clash: &Clash) -> u128
    ensures { result ≡ clash_place clash.now }
{
    let address = u128::from(clash.bus) * (1 << 65) + address_in(clash.space, clash.address);
    let first = number_on_bus(clash.first.slot, clash.first.register);
    let second = number_on_bus(clash.second.slot, clash.second.register);
    (address * (1 << 21) + first) * (1 << 21) + second
}

/// The place of a split: one that is looked for before another has a lesser place.
fn place_of_split(split: &Split) -> u128
    ensures { result ≡ split_place split.now }
{
    let address = address_in(split.space, split.address);
    let first = number_of(split.first.slot, split.first.register);
    let second = number_of(split.second.slot, split.second.register);
    (address * (1 << 29) + first) * (1 << 29) + second
}

/// Sorts clashes by the order in which judging looks for them.
pub fn sort_clashes<A: Allocator>(clashes: &mut Vec<Clash, A>) -> Result<(), OutOfMemory>
    ensures permutation { IsPermutation clashes.old.items clashes.new.items }
    ensures sorted { OnOk result (IsNonDecreasingBy clash_place clashes.new.items) }
{
    match clashes.sort_by_key(place_of_clash) {
        Ok(()) => Ok(()),
        Err(_) => Err(OutOfMemory),
    }
}

/// Sorts splits by the order in which judging looks for them.
pub fn sort_splits<A: Allocator>(splits: &mut Vec<Split, A>) -> Result<(), OutOfMemory>
    ensures permutation { IsPermutation splits.old.items splits.new.items }
    ensures sorted { OnOk result (IsNonDecreasingBy split_place splits.new.items) }
{
    match splits.sort_by_key(place_of_split) {
        Ok(()) => Ok(()),
        Err(_) => Err(OutOfMemory),
    }
}
