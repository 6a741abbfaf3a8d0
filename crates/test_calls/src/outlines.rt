//! Who gets where in a tree of buses.
use pci_base::slot::Slot;
use pci_tree::admit::admit;
use pci_tree::admitted::Admitted;
use pci_tree::outline::Outline;
use pci_tree::space::Space;
use std::alloc::Global;
use std::test::Fail;
use test_support::row::Row::Bridge;
use test_support::row::{Row, dumps_of_rows};

/// A bus, whether prefetchable memory is asked for, and what reaches it.
type Reached = (u8, bool, Option<(u64, u64)>);

static ROWS: [Reached; 6] = [
    (0, false, Some((0, u64::MAX))),
    (1, false, Some((0xe000_0000, 0xe01f_ffff))),
    (1, true, Some((0xe000_0000, 0xe02f_ffff))),
    (2, false, Some((0xe010_0000, 0xe01f_ffff))),
    (2, true, Some((0xe010_0000, 0xe02f_ffff))),
    (3, true, None),
];

/// Whether just the range of a row, or nothing, reaches its bus.
fn is_reached(outline: &Outline, row: &Reached) -> bool {
    let (bus, prefetch, wanted) = *row;
    let Ok(reach) = outline.reach(bus, Space::Mem, prefetch) else {
        return false;
    };
    match (reach.as_slice(), wanted) {
        ([], None) => true,
        ([range], Some(ends)) => (range.first, range.last) == ends,
        _ => false,
    }
}

/// Whether a tree has two bridges, and no way to a slot that it hasn't.
fn has_two_bridges(outline: &Outline) -> bool {
    matches!(outline.bridges(), Ok(bridges) if bridges.len() == 2)
        && matches!(Slot::new(3, 1, 0), Some(absent) if outline.path(absent).is_none())
}

/// Two bridges in a row.
const TWO: &[Row] = &[
    Bridge(
        "00:01.0",
        2,
        (0, 1, 2),
        &[
            (0x20, 0xe010_e000, 0xfff0_fff0),
            (0x24, 0xe020_e020, 0xfff0_fff0),
        ],
    ),
    Bridge("01:00.0", 2, (1, 2, 2), &[(0x20, 0xe020_e010, 0xfff0_fff0)]),
];

fn two(alloc: Global) -> Option<Admitted> {
    match dumps_of_rows(alloc, TWO) {
        Some((dump, probe)) => admit(alloc, dump, probe).ok(),
        None => None,
    }
}

#[test]
fn reach_follows_the_windows_down(rt: HostRuntime) -> Result<(), Fail> {
    let board = two(rt.alloc()).ok_or("no board")?;
    for row in &ROWS {
        assert!(rt; is_reached(board.outline(), row), "bus {}", row.0);
    }
    assert!(rt; has_two_bridges(board.outline()));
    Ok(())
}
