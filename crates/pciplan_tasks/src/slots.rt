//! The bridges with a hot-plug slot behind which room is wanted.
ghost use Rattle.std.specs.Prelude.{◌≡◌, IfOk};
ghost use Rattle.std.specs.Option.{option_map};
ghost use Rattle.pci_number.specs.SpareBuses.{has_hot_plug_slot};
ghost use Rattle.pci_first_fit.specs.Slots.{spares_value};
ghost use Rattle.pciplan_tasks.specs.Slots.{is_room_wanted, slots_shown, slots_for, spares_said};

use pci_base::memory::OutOfMemory;
use pci_base::slot::Slot;
use pci_base::window_kind::ByKind;
use pci_dump::block::Block;
use pci_first_fit::slots::Slots;
use pci_number::hot_plug::has_hot_plug_slot;
use std::alloc::Allocator;

/// Whether room of some class is wanted.
fn is_room_wanted(spares: &ByKind<u64>) -> bool
    ensures { result ≡ is_room_wanted spares.now }
{
    spares.io != 0 || spares.memory != 0 || spares.prefetchable != 0
}

/// Whether the registers of a function say that it has a hot-plug slot.
fn shows_slot(block: &Block) -> bool
    ensures { result ≡ has_hot_plug_slot block.now.image }
{
    has_hot_plug_slot(&block.image)
}

/// The slots of the functions of a dump whose registers say that they have a hot-plug slot.
fn slots_shown<A: Allocator>(alloc: A, dump: &[Block]) -> Result<Vec<Slot, A>, OutOfMemory>
    ensures { IfOk result (λ slots. slots.items ≡ slots_shown dump.now) }
{
    let mut slots = Vec::new(alloc);
    for block in dump {
        if shows_slot(block) {
            slots.push(block.slot)?;
        }
    }
    Ok(slots)
}

/// The same slots.
fn copied<A: Allocator>(alloc: A, slots: &[Slot]) -> Result<Vec<Slot, A>, OutOfMemory>
    ensures { IfOk result (λ all. all.items ≡ slots.now) }
{
    let mut all = Vec::new(alloc);
    all.extend_from_slice(slots)?;
    Ok(all)
}

/// The bridges behind whose slots room is wanted: those that are named, else those that the dump shows; none where no room is
/// wanted.
///
/// Errors: 2 `OutOfMemory` where a growth was refused.
pub fn slots_for<A: Allocator, B: Allocator>(
    alloc: A,
    dump: &[Block],
    spares: &ByKind<u64>,
    named: &Option<Vec<Slot, B>>,
) -> Result<Vec<Slot, A>, OutOfMemory>
    ensures { IfOk result (λ slots. slots.items
        ≡ slots_for spares.now (option_map (λ s. s.items) named.now) dump.now) }
{
    if !is_room_wanted(spares) {
        return Ok(Vec::new(alloc));
    }
    match named {
        None => slots_shown(alloc, dump),
        Some(slots) => copied(alloc, slots.as_slice()),
    }
}

/// These bridges, with so much room wanted behind the slot of each.
pub fn slots_of<'a>(bridges: &'a [Slot], spares: &ByKind<u64>) -> Slots<'a>
    ensures bridges { result.bridges.now ≡ bridges.now }
    ensures spares { spares_value result ≡ spares_said spares.now }
{
    Slots {
        bridges,
        io: spares.io,
        mem: spares.memory,
        pref: spares.prefetchable,
    }
}
