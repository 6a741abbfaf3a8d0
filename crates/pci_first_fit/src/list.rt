//! Lists of ranges: what a root has of them, and which lists are refused. Room behind slots stands beside them.
ghost use Rattle.std.specs.Prelude.{◌≡◌, ◌≤◌, ◌||◌, IfOk, drop, length, map, not};
ghost use Rattle.std.specs.List.{filter, list_any};
ghost use Rattle.pci_spec.specs.Bus.{is_root};
ghost use Rattle.plan_spec.specs.Plan.{is_backward};
ghost use Rattle.settle_spec.specs.Lists as lists;
ghost use Rattle.settle_spec.specs.FirstPlace.{ranges_are_apart as are_ranges_apart};
ghost use Rattle.settle_spec.specs.Stands.{is_in_lists as lists_hold};
ghost use Rattle.pci_tree.specs.Roots.{buses_of};
ghost use Rattle.pci_base.specs.Ranges.{decoded_range_of};
ghost use Rattle.pci_base.specs.Space.{space_of};
ghost use Rattle.pci_base.specs.WindowKinds.{kind_value};
ghost use Rattle.pci_first_fit.specs.Lists.{root_range_value, lists_value, root_range_holds};
ghost use Rattle.pci_first_fit.specs.Slots.{demand_value, demand_in_io};

use crate::over::is_within;
use crate::slots::Slots;
use crate::told::ToldRanges;
use pci_base::memory::OutOfMemory;
use pci_base::range::{Range, RootRange};
use pci_base::space::Space;
use pci_base::window_kind::WindowKind;
use pci_tree::roots::Roots;
use std::alloc::Allocator;

/// The highest address of a range of I/O, and of one of memory that isn't prefetchable.
const LAST_OF_32_BITS: u64 = 0xffff_ffff;

/// A list of ranges for each class: what comes earlier is taken first. Beside them the room that new windows get behind slots,
/// and the ranges that a text tells of.
#[derive(Clone, Copy)]
pub struct Lists<'a> {
    pub io: &'a [RootRange],
    pub mem: &'a [RootRange],
    pub pref: &'a [RootRange],
    pub slots: Slots<'a>,
    pub told: ToldRanges<'a>,
}

/// Whether a range of this root is had by a root bus.
pub fn is_had_by(root: Option<u8>, bus: u8) -> bool
    ensures { result ≡ lists.is_had_by root bus }
{
    match root {
        None => true,
        Some(root) => root == bus,
    }
}

/// The ranges of a list that a root has, in their order.
pub fn ranges_of<A: Allocator>(
    alloc: A,
    list: &[RootRange],
    bus: u8,
) -> Result<Vec<Range, A>, OutOfMemory>
    ensures { IfOk result (λ ranges. map decoded_range_of ranges.items
        ≡ map (λ r. r.range)
        (filter (λ r. lists.is_had_by r.root bus) (map root_range_value list.now))) }
{
    let mut ranges = Vec::new(alloc);
    for one in list {
        if is_had_by(one.root, bus) {
            ranges.push(one.range)?;
        }
    }
    Ok(ranges)
}

/// Whether a root has a range that holds another.
pub fn has_range(one: RootRange, bus: u8, range: Range) -> bool
    ensures { result ≡ root_range_holds bus (decoded_range_of range) (root_range_value one) }
{
    is_had_by(one.root, bus) && is_within(range, one.range)
}

/// Whether a root has a range in a list that holds another.
fn is_listed(list: &[RootRange], bus: u8, range: Range) -> bool
    ensures { result ≡ list_any (root_range_holds bus (decoded_range_of range))
        (map root_range_value list.now) }
{
    for one in list {
        if has_range(*one, bus, range) {
            return true;
        }
    }
    false
}

/// Whether a bus is a root.
pub fn is_root(roots: &Roots, bus: u8) -> bool
    ensures { result ≡ is_root (buses_of roots.now) bus }
{
    roots.has(bus)
}

/// Whether a range is of a bus that is no root.
fn has_no_root(roots: &Roots, root: Option<u8>) -> bool
    ensures { result ≡ lists.has_no_root (buses_of roots.now) root }
{
    match root {
        None => false,
        Some(bus) => !is_root(roots, bus),
    }
}

/// Whether a range is backward, or of a bus that is no root.
fn is_bad_range(roots: &Roots, one: RootRange) -> bool
    ensures { result ≡ (is_backward (decoded_range_of one.range)
        || lists.has_no_root (buses_of roots.now) one.root) }
{
    one.range.last < one.range.first || has_no_root(roots, one.root)
}

/// Whether a range of a list is backward, or of a bus that is no root.
fn has_bad_range(roots: &Roots, list: &[RootRange]) -> bool
    ensures { result ≡ list_any
        (λ r. is_backward r.range || lists.has_no_root (buses_of roots.now) r.root)
        (map root_range_value list.now) }
{
    for one in list {
        if is_bad_range(roots, *one) {
            return true;
        }
    }
    false
}

/// Whether two ranges share no address.
pub fn are_apart(one: Range, other: Range) -> bool
    ensures { result ≡ are_ranges_apart (decoded_range_of one) (decoded_range_of other) }
{
    one.last < other.first || other.last < one.first
}

/// Whether a range shares an address with one of those from an index on.
fn shares_from(list: &[RootRange], from: usize, range: Range) -> bool
    requires { from ≤ length list.now }
    ensures { result ≡ list_any (λ q. not (are_ranges_apart (decoded_range_of range) q.range))
        (drop from (map root_range_value list.now)) }
{
    for k in from..list.len() {
        if !are_apart(range, list[k].range) {
            return true;
        }
    }
    false
}

/// Whether two ranges of a list share an address.
fn share_address(list: &[RootRange]) -> bool
    ensures { result ≡ lists.share_address (map root_range_value list.now) }
{
    for k in 0..list.len() {
        if shares_from(list, k + 1, list[k].range) {
            return true;
        }
    }
    false
}

/// Whether a range of a list ends above an address.
fn ends_above(last: u64, list: &[RootRange]) -> bool
    ensures { result ≡ lists.end_above last (map root_range_value list.now) }
{
    for one in list {
        if last < one.range.last {
            return true;
        }
    }
    false
}

/// Whether a range of a list is backward or of a bus that is no root, or two share an address.
fn is_bad_list(roots: &Roots, list: &[RootRange]) -> bool
    ensures { result ≡ lists.is_bad_list (buses_of roots.now) (map root_range_value list.now) }
{
    has_bad_range(roots, list) || share_address(list)
}

impl<'a> Lists<'a> {
    /// The list of I/O alone, with the same room behind slots and the same told ranges.
    pub fn io_alone(&self) -> Lists<'a>
        ensures { demand_value result ≡ demand_in_io (demand_value self.now) }
    {
        Lists {
            io: self.io,
            mem: &[],
            pref: &[],
            slots: self.slots,
            told: self.told,
        }
    }

    /// The list of a class.
    pub fn of(&self, class: WindowKind) -> &[RootRange]
        ensures { map root_range_value result.now ≡ lists.list_of (lists_value self.now) (kind_value class) }
    {
        match class {
            WindowKind::Io => self.io,
            WindowKind::Memory => self.mem,
            WindowKind::Prefetchable => self.pref,
        }
    }

    /// Whether a root has a range of a space that holds another.
    pub fn hold(&self, bus: u8, space: Space, range: Range) -> bool
        ensures { (q : lists.Request) → q.lists ≡ lists_value self.now
            → result ≡ lists_hold q bus (decoded_range_of range) (space_of space) }
    {
        match space {
            Space::Io => is_listed(self.io, bus, range),
            Space::Mem => is_listed(self.mem, bus, range) || is_listed(self.pref, bus, range),
        }
    }

    /// Whether the lists are refused: a range is backward or of a bus that is no root, two ranges of one list share an
    /// address, or I/O or memory ends above FFFFFFFFh. Ranges of two lists may share addresses.
    pub fn are_bad(&self, roots: &Roots) -> bool
        ensures { result ≡ lists.are_bad_lists (buses_of roots.now) (lists_value self.now) }
    {
        is_bad_list(roots, self.io)
            || is_bad_list(roots, self.mem)
            || is_bad_list(roots, self.pref)
            || ends_above(LAST_OF_32_BITS, self.io)
            || ends_above(LAST_OF_32_BITS, self.mem)
    }
}
