//! The room around a window: the range of its root in which it stands, and what of a room is free beside it.
ghost use Rattle.std.specs.Prelude.{◌≡◌, ◌<◌, IfSome, List, map};
ghost use Rattle.std.specs.Option.{option_map};
ghost use Rattle.std.specs.List.{find, fold};
ghost use Rattle.pci_spec.specs.Decoded.{Range as DecodedRange};
ghost use Rattle.settle_spec.specs.Lists.{Request};
ghost use Rattle.settle_spec.specs.Parts.{lies_within};
ghost use Rattle.settle_spec.specs.Reach.{clear_of, no_higher, root_window_ranges};
ghost use Rattle.pci_base.specs.Ranges.{decoded_range_of};
ghost use Rattle.pci_base.specs.WindowKinds.{kind_value};
ghost use Rattle.pci_first_fit.specs.Lists.{lists_value};
ghost use Rattle.pci_grow.specs.Rooms.{had_ranges, find_in_either, first_behind, last_before, IsNearestBelow, IsNearestAbove};

use pci_base::range::{Range, RootRange};
use pci_base::window_kind::WindowKind;
use pci_first_fit::list::{Lists, has_range};

/// The first range of a list that a root has and that holds another range.
fn range_with(list: &[RootRange], bus: u8, range: Range) -> Option<Range>
    ensures { option_map decoded_range_of result
        ≡ find (lies_within (decoded_range_of range)) (had_ranges bus list.now) }
{
    for one in list {
        if has_range(*one, bus, range) {
            return Some(one.range);
        }
    }
    None
}

/// The first range of two lists that a root has and that holds another range.
fn range_of_either(list: &[RootRange], other: &[RootRange], bus: u8, range: Range) -> Option<Range>
    ensures { option_map decoded_range_of result ≡ find_in_either (lies_within (decoded_range_of range))
        (had_ranges bus list.now) (had_ranges bus other.now) }
{
    match range_with(list, bus, range) {
        Some(found) => Some(found),
        None => range_with(other, bus, range),
    }
}

/// The range in which a window on a root stands: of its class, or else of other memory.
pub fn room_on_root(lists: &Lists, bus: u8, class: WindowKind, range: Range) -> Option<Range>
    ensures { (q : Request) → q.lists ≡ lists_value lists.now → option_map decoded_range_of result
        ≡ find (lies_within (decoded_range_of range)) (root_window_ranges q (kind_value class) bus) }
{
    match class {
        WindowKind::Io => range_with(lists.io, bus, range),
        WindowKind::Memory => range_of_either(lists.mem, lists.pref, bus, range),
        WindowKind::Prefetchable => range_of_either(lists.pref, lists.mem, bus, range),
    }
}

/// A room up to the highest address that a window can hold.
pub fn no_higher(highest: u64, room: Range) -> Range
    ensures { decoded_range_of result ≡ no_higher highest (decoded_range_of room) }
{
    Range {
        first: room.first,
        last: room.last.min(highest),
    }
}

/// The first address of what of a room is free behind the part before a window.
fn first_free(window: Range, room: Range, before: Option<Range>) -> u64
    // what ends before a window isn't at the end of 64 bits
    requires apart { IfSome before (λ other. other.last < window.first) }
    ensures { result ≡ first_behind room.first (option_map decoded_range_of before) }
{
    match before {
        Some(other) => room.first.max(other.last + 1),
        None => room.first,
    }
}

/// The last address of what of a room is free before the part behind a window.
fn last_free(room: Range, behind: Option<Range>) -> u64
    ensures { result ≡ last_before room.last (option_map decoded_range_of behind) }
{
    match behind {
        Some(other) => room.last.min(other.first.saturating_sub(1)),
        None => room.last,
    }
}

/// What of a room is on a window's side of all that is beside it: it lies between the window's neighbours.
pub fn between(window: Range, room: Range, before: Option<Range>, behind: Option<Range>) -> Range
    // what ends before a window isn't at the end of 64 bits
    requires apart { IfSome before (λ other. other.last < window.first) }
    ensures first { result.first ≡ first_behind room.first (option_map decoded_range_of before) }
    ensures clear { (beside : List DecodedRange)
        → IsNearestBelow (decoded_range_of window) beside (option_map decoded_range_of before)
        → IsNearestAbove (decoded_range_of window) beside (option_map decoded_range_of behind)
        → decoded_range_of result
        ≡ fold (clear_of (decoded_range_of window)) (decoded_range_of room) beside }
{
    Range {
        first: first_free(window, room, before),
        last: last_free(room, behind),
    }
}
