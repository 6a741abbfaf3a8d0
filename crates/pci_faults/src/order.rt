//! The order in which judging looks for faults.
ghost use Rattle.std.specs.Prelude.{◌≡◌, ◌<◌, ◌^◌, OnOk};
ghost use Rattle.std.specs.List.Sorted.{IsNonDecreasingBy, IsPermutation};
ghost use Rattle.pci_spec.specs.JudgingLaws.{region_number};
ghost use Rattle.pci_base.specs.Space.{space_of};
ghost use Rattle.pci_function.specs.Fault.{fault_of};
ghost use Rattle.pci_faults.specs.Order.{space_address_key, judging_place};

use pci_base::memory::OutOfMemory;
use pci_base::slot::Slot;
use pci_base::space::Space;
use pci_function::fault::Fault;
use std::alloc::Allocator;

/// The place of a region by slot and register, below 2^24.
fn region(slot: Slot, reg: u8) -> u128
    ensures place { result ≡ region_number slot reg }
    ensures small { result < 2 ^ 24 }
{
    u128::from(slot.number()) * 256 + u128::from(reg)
}

/// The place of a space and an address, below 2^65.
fn address_in(space: Space, address: u64) -> u128
    ensures place { result ≡ space_address_key (space_of space) address }
    ensures small { result < 2 ^ 65 }
{
    let address = u128::from(address);
    match space {
        Space::Io => address,
        Space::Mem => (1 << 64) + address,
    }
}

/// The place of a fault of judging: one that is looked for before another has a lesser place.
fn place(fault: &Fault) -> u128
    ensures { result ≡ judging_place (fault_of fault.now) }
{
    match fault {
        Fault::Unreached {
            slot,
            reg,
            address,
            bridge,
            ..
        } => (region(*slot, *reg) * (1 << 16) + u128::from(bridge.number())) * (1 << 64)
            + u128::from(*address),
        Fault::Clash {
            bus,
            space,
            address,
            first,
            first_reg,
            second,
            second_reg,
        } => (1 << 126)
            + ((u128::from(*bus) * (1 << 65) + address_in(*space, *address)) * (1 << 24)
                + region(*first, *first_reg))
                * (1 << 24)
            + region(*second, *second_reg),
        Fault::Split {
            space,
            address,
            first,
            first_reg,
            second,
            second_reg,
        } => (1 << 127)
            + (address_in(*space, *address) * (1 << 24) + region(*first, *first_reg)) * (1 << 24)
            + region(*second, *second_reg),
        _ => 0,
    }
}

/// Sorts faults by the order in which judging looks for them.
pub fn sort<A: Allocator>(faults: &mut Vec<Fault, A>) -> Result<(), OutOfMemory>
    ensures permutation { IsPermutation faults.old.items faults.new.items }
    ensures sorted { OnOk result
        (IsNonDecreasingBy (λ f. judging_place (fault_of f)) faults.new.items) }
{
    match faults.sort_by_key(place) {
        Ok(()) => Ok(()),
        Err(_) => Err(OutOfMemory),
    }
}
