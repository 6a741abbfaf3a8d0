//! Boards, and the places that their parts get where nothing stands.
ghost use Rattle.std.specs.Prelude.{◌≡◌, []};

use pci_base::memory::Refused;
use pci_base::range::{Range, RootRange};
use pci_base::window_kind::WindowKind;
use pci_first_fit::list::Lists;
use pci_first_fit::slots::Slots;
use pci_first_fit::told::ToldRanges;
use pci_settle_places::anew::{Unplaced, place_anew};
use pci_settle_places::places::Places;
use pci_tree::admit_with;
use pci_tree::admitted::Admitted;
use pci_tree::roots::Roots;
use std::alloc::Global;
use test_support::row::Row::{Bridge, Device};
use test_support::row::{Row, dumps_of_rows};

/// A range of a list: the root that it is of, or None where it is of all, and its ends.
pub(crate) type Listed = (Option<u8>, u64, u64);

/// A BAR of 1 MB on each of two root buses.
pub(crate) const TWO_ROOTS: &[Row] = &[
    Device("00:01.0", 0, &[(0x10, 0, 0xfff0_0000)]),
    Device("40:01.0", 0, &[(0x10, 0, 0xfff0_0000)]),
];

/// 1 MB of memory for each of them.
pub(crate) const RANGE_OF_EACH: &[Listed] = &[
    (Some(0x40), 0xe010_0000, 0xe01f_ffff),
    (Some(0), 0xe000_0000, 0xe00f_ffff),
];

/// A board with these roots.
pub(crate) fn admitted(alloc: Global, roots: &[u8], board: &[Row]) -> Option<Admitted> {
    let roots = Roots::of(roots)?;
    match dumps_of_rows(alloc, board) {
        Some((dump, probe)) => admit_with(alloc, dump, probe, roots).ok(),
        None => None,
    }
}

/// A list of ranges.
pub(crate) fn list_of(alloc: Global, ranges: &[Listed]) -> Option<Vec<RootRange>> {
    let mut list = Vec::new(alloc);
    for (root, first, last) in ranges {
        let range = Range {
            first: *first,
            last: *last,
        };
        list.push(RootRange { root: *root, range }).ok()?;
    }
    Some(list)
}

/// Lists of memory alone, with no room behind slots and nothing told.
pub(crate) fn in_memory(mem: &[RootRange]) -> Lists<'_>
    ensures { result.told.ranges.now ≡ [] }
{
    Lists {
        io: &[],
        mem,
        pref: &[],
        slots: Slots::none(),
        told: ToldRanges::none(),
    }
}

/// The ends of what is there.
type Ends = Option<(u64, u64)>;

/// Whether a part has just these addresses.
fn is_at(range: Option<Range>, ends: Ends) -> bool {
    match (range, ends) {
        (Some(range), Some(ends)) => (range.first, range.last) == ends,
        (None, None) => true,
        _ => false,
    }
}

/// The places of a bridge's window of memory, and of the first two BARs.
type Wanted = (Ends, Ends, Ends);

fn is_placed(places: &Places, wanted: &Wanted) -> bool {
    let (window, first, second) = *wanted;
    is_at(places.windows.memory, window)
        && is_at(places.bars[0], first)
        && is_at(places.bars[1], second)
}

/// Whether a board has just these places of memory.
fn are_placed(table: &[Places], wanted: &[Wanted]) -> bool {
    table.len() == wanted.len()
        && table
            .iter()
            .zip(wanted)
            .all(|(places, one)| is_placed(places, one))
}

const IO: [RootRange; 1] = [RootRange {
    root: None,
    range: Range {
        first: 0x1000,
        last: 0xffff,
    },
}];

const PREFETCH: [RootRange; 1] = [RootRange {
    root: None,
    range: Range {
        first: 0x1_0000_0000,
        last: 0x1_ffff_ffff,
    },
}];

/// Whether all parts of a board get just these places in a list of memory.
fn get(alloc: Global, admitted: &Admitted, mem: &[RootRange], wanted: &[Wanted]) -> bool {
    let slots = Slots::none();
    let lists = Lists {
        io: &IO,
        mem,
        pref: &PREFETCH,
        slots,
        told: ToldRanges::none(),
    };
    match place_anew(alloc, admitted, &lists) {
        Ok(table) => are_placed(table.as_slice(), wanted),
        Err(_) => false,
    }
}

/// The same of a board below these roots.
fn gets(alloc: Global, roots: &[u8], board: &[Row], mem: &[Listed], wanted: &[Wanted]) -> bool {
    match (admitted(alloc, roots, board), list_of(alloc, mem)) {
        (Some(admitted), Some(mem)) => get(alloc, &admitted, mem.as_slice(), wanted),
        _ => false,
    }
}

#[test]
fn a_window_is_as_large_as_what_is_behind(rt: HostRuntime) {
    const BOARD: &[Row] = &[
        Bridge("00:01.0", 0, (0, 1, 2), &[]),
        Bridge("01:00.0", 0, (1, 2, 2), &[]),
        Device(
            "02:00.0",
            0,
            &[(0x10, 0, 0xfff0_0000), (0x14, 0, 0xffe0_0000)],
        ),
    ];
    const MEM: &[Listed] = &[(None, 0xe000_0000, 0xe02f_ffff)];
    const WANTED: &[Wanted] = &[
        (Some((0xe000_0000, 0xe02f_ffff)), None, None),
        (Some((0xe000_0000, 0xe02f_ffff)), None, None),
        (
            None,
            Some((0xe020_0000, 0xe02f_ffff)),
            Some((0xe000_0000, 0xe01f_ffff)),
        ),
    ];
    assert!(rt; gets(rt.alloc(), &[0], BOARD, MEM, WANTED));
}

#[test]
fn a_wide_bar_goes_on_in_prefetchable_memory(rt: HostRuntime) {
    const BOARD: &[Row] = &[
        Device("00:01.0", 0, &[(0x10, 0, 0xfff0_0000)]),
        Device(
            "00:02.0",
            0,
            &[(0x10, 0x4, 0xfff0_0004), (0x14, 0, 0xffff_ffff)],
        ),
    ];
    const MEM: &[Listed] = &[(None, 0xe000_0000, 0xe00f_ffff)];
    const WANTED: &[Wanted] = &[
        (None, Some((0xe000_0000, 0xe00f_ffff)), None),
        (None, Some((0x1_0000_0000, 0x1_000f_ffff)), None),
    ];
    assert!(rt; gets(rt.alloc(), &[0], BOARD, MEM, WANTED));
}

#[test]
fn a_root_has_ranges_of_its_own(rt: HostRuntime) {
    const WANTED: &[Wanted] = &[
        (None, Some((0xe000_0000, 0xe00f_ffff)), None),
        (None, Some((0xe010_0000, 0xe01f_ffff)), None),
    ];
    assert!(rt; gets(rt.alloc(), &[0, 0x40], TWO_ROOTS, RANGE_OF_EACH, WANTED));
}

/// What of a board below root 00 has no place where there is nothing but a list of memory: its class, function and size.
fn unplaced(alloc: Global, board: &[Row], mem: &[Listed]) -> Option<(WindowKind, usize, u64)> {
    let admitted = admitted(alloc, &[0], board)?;
    let mem = list_of(alloc, mem)?;
    let lists = in_memory(mem.as_slice());
    match place_anew(alloc, &admitted, &lists) {
        Err(Refused::Fault(Unplaced::Lacks(lack))) => {
            Some((lack.class, lack.item.function, lack.item.extent.size))
        }
        _ => None,
    }
}

#[test]
fn what_lacks_a_place_is_named(rt: HostRuntime) {
    const BOARD: &[Row] = &[
        Device("00:01.0", 0, &[(0x10, 0, 0xfff0_0000)]),
        Device("00:02.0", 0, &[(0x10, 0, 0xffff_f000)]),
    ];
    const MEM: &[Listed] = &[(None, 0xe000_0000, 0xe00f_ffff)];
    let lack = Some((WindowKind::Memory, 1, 0x1000));
    assert!(rt; unplaced(rt.alloc(), BOARD, MEM) == lack);
}
