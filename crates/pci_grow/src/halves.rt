//! The halves of a window's bounds (Bridge 1.2, 3.2.5): a window grows where no half of a bound moves inward, so that each
//! register can be written by itself.
ghost use Rattle.std.specs.Prelude.{◌≡◌, ◌≤◌, ◌+◌, ◌-◌, ◌*◌, ◌/◌, ◌^◌, min, max, List, map, IfSome, IfNone};
ghost use Rattle.std.specs.List.{fold};
ghost use Rattle.pci_spec.specs.Decoded.{Range as DecodedRange};
ghost use Rattle.pci_spec.specs.Window.{page_size};
ghost use Rattle.plan_spec.specs.Plan.{raised_to};
ghost use Rattle.settle_spec.specs.Reach.{half_size, raised_last, lowered_first, cut_last, cut_first, cut_to_halves, whole_pages};
ghost use Rattle.settle_spec.specs.Growth.{grown_to};
ghost use Rattle.pci_base.specs.Ranges.{decoded_range_of};
ghost use Rattle.pci_base.specs.WindowKinds.{kind_value};

use pci_base::range::Range;
use pci_base::window_kind::WindowKind;
use pci_first_fit::spot::raised;

/// So many addresses have one upper half of a base or a limit.
fn half_size(class: WindowKind) -> u64
    ensures { result ≡ half_size (kind_value class) }
{
    match class {
        WindowKind::Io => 1 << 16,
        WindowKind::Memory | WindowKind::Prefetchable => 1 << 32,
    }
}

/// A greater last address: its lower half is no less than it was.
fn raised_last(class: WindowKind, old: u64, last: u64) -> u64
    ensures { result ≡ raised_last (kind_value class) old last }
{
    let half = half_size(class);
    last - last % half + (old % half).max(last % half)
}

/// A smaller first address: its lower half is no greater than it was.
fn lowered_first(class: WindowKind, old: u64, first: u64) -> u64
    ensures { result ≡ lowered_first (kind_value class) old first }
{
    let half = half_size(class);
    first - first % half + (old % half).min(first % half)
}

/// An end up to which last addresses can be raised: where its lower half is less than it was, it is before that upper half.
fn cut_last(class: WindowKind, old: u64, last: u64) -> u64
    ensures { result ≡ cut_last (kind_value class) old last }
{
    let half = half_size(class);
    if last % half < old % half {
        (last - last % half).saturating_sub(1)
    } else {
        last
    }
}

/// The same at the beginning: where its lower half is greater than it was, it is behind that upper half.
fn cut_first(class: WindowKind, old: u64, first: u64) -> u64
    requires { first ≤ old }
    ensures { result ≡ cut_first (kind_value class) old first }
{
    let half = half_size(class);
    if old % half < first % half {
        first - first % half + half
    } else {
        first
    }
}

/// The part of a room to which a window can grow so.
pub fn cut_to_halves(class: WindowKind, window: Range, room: Range) -> Range
    // behind an upper half that is above the window's own there may be no address
    requires { room.first ≤ window.first }
    ensures { decoded_range_of result
        ≡ cut_to_halves (kind_value class) (decoded_range_of window) (decoded_range_of room) }
{
    Range {
        first: cut_first(class, window.first, room.first),
        last: cut_last(class, window.last, room.last),
    }
}

/// The last address of the page of an address.
fn page_end(class: WindowKind, last: u64) -> u64
    ensures { result ≡ raised_to (page_size (kind_value class)) (last + 1) - 1 }
{
    let page = class.page_size();
    last - last % page + (page - 1)
}

/// The least pages that hold a window and others, where no half of a bound moves inward. `held` goes from the least address
/// of all of them to the greatest.
pub fn grown_to(class: WindowKind, window: Range, held: Range) -> Range
    ensures { (others : List DecodedRange)
        → held.first ≡ fold min window.first (map (λ (r : DecodedRange). r.first) others)
        → held.last ≡ fold max window.last (map (λ (r : DecodedRange). r.last) others)
        → decoded_range_of result ≡ grown_to (kind_value class) (decoded_range_of window) others }
{
    let page = class.page_size();
    let first = held.first - held.first % page;
    let last = page_end(class, held.last);
    Range {
        first: lowered_first(class, window.first, first),
        last: raised_last(class, window.last, last),
    }
}

/// The last address of the pages that end by an address.
fn pages_end(class: WindowKind, last: u64) -> u64
    ensures { result ≡ (last + 1) / page_size (kind_value class) * page_size (kind_value class) - 1 }
{
    let page = class.page_size();
    let over = last % page;
    if over == page - 1 {
        last
    } else {
        (last - over).saturating_sub(1)
    }
}

/// The whole pages of a room; None where the first of them would begin above all addresses of 64 bits.
pub fn whole_pages(class: WindowKind, room: Range) -> Option<Range>
    ensures some { IfSome result (λ pages. decoded_range_of pages
        ≡ whole_pages (page_size (kind_value class)) (decoded_range_of room)) }
    ensures none { IfNone result (2 ^ 64 ≤ raised_to (page_size (kind_value class)) room.first) }
{
    let first = raised(room.first, class.page_size())?;
    let last = pages_end(class, room.last);
    Some(Range { first, last })
}
