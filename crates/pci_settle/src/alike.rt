//! Whether the same parts stay by two tables.
ghost use Rattle.std.specs.Prelude.{◌≡◌, ◌≤◌, length};
ghost use Rattle.pci_image.specs.Layouts.{is_of_bridge};
ghost use Rattle.pci_place.specs.Above.{system_in};
ghost use Rattle.settle_spec.specs.Kept.{Kept as Keeping};
ghost use Rattle.settle_spec.specs.Lists.{Request};
ghost use Rattle.settle_spec.specs.Sparing.{keep_alike};
ghost use Rattle.pci_settle.specs.Told.{IsTableOf};
ghost use Rattle.pci_settle.specs.Alike.{bars_alike, windows_alike, parts_alike, PassesPartsOnly};

use pci_first_fit::kept::Kept;
use pci_image::layout::Layout;
use pci_tree::admitted::Admitted;
use std::alloc::Allocator;

/// Whether the same BARs stay, of those that the first `count` Base Address registers start.
fn bars_alike(count: u8, one: &Kept, other: &Kept) -> bool
    requires { count ≤ 6 }
    ensures { result ≡ bars_alike count one.now other.now }
{
    for n in 0..usize::from(count) {
        if one.bars[n] != other.bars[n] {
            return false;
        }
    }
    true
}

/// Whether the same windows stay.
fn windows_alike(one: &Kept, other: &Kept) -> bool
    ensures { result ≡ windows_alike one.now other.now }
{
    one.windows.io == other.windows.io
        && one.windows.memory == other.windows.memory
        && one.windows.prefetchable == other.windows.prefetchable
}

/// Whether the same parts of a function stay. Flags of parts that its header doesn't have are not compared.
fn parts_alike(layout: Layout, one: &Kept, other: &Kept) -> bool
    ensures { result ≡ parts_alike (is_of_bridge layout) one.now other.now }
{
    bars_alike(layout.bar_count(), one, other)
        && (layout == Layout::Device || windows_alike(one, other))
        && one.rom == other.rom
}

/// Whether the same parts stay by two tables, each by function in slot order.
pub fn keep_alike<A: Allocator>(admitted: &Admitted<A>, one: &[Kept], other: &[Kept]) -> bool
    // a function's entry stands where its record does
    requires one { length one.now ≡ length (system_in admitted.now) }
    requires other { length other.now ≡ length (system_in admitted.now) }
    ensures { (q : Request) (k j : Keeping)
        → IsTableOf (system_in admitted.now) k.stays one.now
        → IsTableOf (system_in admitted.now) j.stays other.now
        → PassesPartsOnly q (system_in admitted.now) k.stays
        → PassesPartsOnly q (system_in admitted.now) j.stays
        → result ≡ keep_alike q (system_in admitted.now) k j }
{
    let outline = admitted.outline();
    let records = outline.records();
    for k in 0..records.len() {
        if !parts_alike(records[k].layout(), &one[k], &other[k]) {
            return false;
        }
    }
    true
}
