//! The halves of a window's limit (Bridge 1.2, 3.2.5): a window ends later where its lower half is no less than it was, so that
//! each register can be written by itself.
ghost use Rattle.std.specs.Prelude.{◌≡◌, ◌+◌, ◌-◌};
ghost use Rattle.pci_spec.specs.Window.{page_size};
ghost use Rattle.plan_spec.specs.Plan.{raised_to};
ghost use Rattle.settle_spec.specs.Reach.{half_size, raised_last};
ghost use Rattle.settle_spec.specs.Wishes.{end_over};
ghost use Rattle.pci_base.specs.Ranges.{decoded_range_of};
ghost use Rattle.pci_base.specs.WindowKinds.{kind_value};

use pci_base::range::Range;
use pci_base::window_kind::WindowKind;

/// So many addresses have one upper half of a limit.
fn half_size(class: WindowKind) -> u64
    ensures { result ≡ half_size (kind_value class) }
{
    match class {
        WindowKind::Io => 1 << 16,
        WindowKind::Memory | WindowKind::Prefetchable => 1 << 32,
    }
}

/// A greater last address: its lower half is no less than it was.
fn raised_last(class: WindowKind, old: u64, last: u64) -> u64
    ensures { result ≡ raised_last (kind_value class) old last }
{
    let half = half_size(class);
    last - last % half + (old % half).max(last % half)
}

/// The last address of the page of an address.
fn page_end(class: WindowKind, last: u64) -> u64
    ensures { result ≡ raised_to (page_size (kind_value class)) (last + 1) - 1 }
{
    let page = class.page_size();
    last - last % page + (page - 1)
}

/// The end of a window that holds an address behind it: that of a page, its lower half no less than it was.
pub fn end_over(class: WindowKind, window: Range, last: u64) -> u64
    ensures { result ≡ end_over (kind_value class) (decoded_range_of window) last }
{
    raised_last(class, window.last, page_end(class, last))
}
