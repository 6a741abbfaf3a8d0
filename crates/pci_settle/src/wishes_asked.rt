//! What is asked of a board: which functions are fixed or have a slot, and how large spares are.
ghost use Rattle.std.specs.Prelude.{◌≡◌, ℕ, List, IfOk, IfSome, length};
ghost use Rattle.std.specs.Option.{option_map};
ghost use Rattle.pci_spec.specs.Slot.{Slot as SlotValue};
ghost use Rattle.pci_base.specs.declared.window_kind.WindowKind.{WindowKind as CodeKind};
ghost use Rattle.pci_base.specs.WindowKinds.{kind_value, by_kind};
ghost use Rattle.pci_first_fit.specs.Slots.{wanted_of, spare_by};
ghost use Rattle.pci_first_fit.specs.Spots.{IsExtent};
ghost use Rattle.pci_kept.specs.Flags.{AreFlags};
ghost use Rattle.pci_grow.specs.Granting.{spare_up_to, AreExtents};
ghost use Rattle.pci_settle.specs.Before.{AreFlagsOf};

use pci_base::memory::OutOfMemory;
use pci_base::window_kind::{ByKind, WindowKind};
use pci_first_fit::extent::Extent;
use pci_first_fit::slots::Slots;
use pci_first_fit::window::spare_extent;
use pci_function::record::Record;
use std::alloc::Allocator;

/// A flag for each function in slot order, by flags by slot number.
pub fn flags_by_function<A: Allocator>(
    alloc: A,
    records: &[Record],
    flags: &[bool],
) -> Result<Vec<bool, A>, OutOfMemory>
    // one for each slot number
    requires { length flags.now ≡ 65536 }
    ensures { IfOk result (λ own. (slots : List SlotValue) → AreFlags slots flags.now
        → AreFlagsOf records.now slots own.items) }
{
    let mut own = Vec::new(alloc);
    for k in 0..records.len() {
        own.push(flags[usize::from(records[k].slot.number())])?;
    }
    Ok(own)
}

/// The spare behind each slot where addresses of a class are wanted, whatever the highest address is that a window can hold.
fn spare(slots: &Slots, class: WindowKind) -> Option<Extent>
    ensures told { (highest : ℕ) → option_map (spare_up_to highest) result
        ≡ spare_by (kind_value class) (wanted_of slots.now (kind_value class)) highest }
    ensures some { IfSome result IsExtent }
{
    let wanted = slots.of_class(class);
    if wanted == 0 {
        return None;
    }
    spare_extent(class, wanted, u64::MAX)
}

/// The spares behind each slot by class; None where no addresses are wanted.
pub fn spares(slots: &Slots) -> ByKind<Option<Extent>>
    ensures told { (class : CodeKind) → (highest : ℕ) → option_map (spare_up_to highest) (by_kind result class)
        ≡ spare_by (kind_value class) (wanted_of slots.now (kind_value class)) highest }
    ensures some { AreExtents result }
{
    ByKind {
        io: spare(slots, WindowKind::Io),
        memory: spare(slots, WindowKind::Memory),
        prefetchable: spare(slots, WindowKind::Prefetchable),
    }
}
