use pci_base::slot::Slot;
use pci_tree::decode::decode;
use pci_tree::region::{Part, Region, add_regions};
use pci_tree::space::Space;
use std::test::Fail;
use test_support::registers::{Registers, bridge, device};

/// A device with one BAR of each kind and a ROM, by its Command and whether the ROM is on.
fn full(command: u8, rom: u32) -> Registers {
    device()
        .byte(0x04, command)
        .register(0x10, 0x0000_e001, 0xffff_ff01)
        .register(0x14, 0xfebf_f008, 0xffff_f008)
        .register(0x30, 0xfea0_0000 + (rom % 2), 0xfffe_0000)
}

/// A bridge with an open I/O window, by the base and limit of its memory window.
fn windows(command: u8, memory: u32) -> Registers {
    bridge()
        .byte(0x04, command)
        .half(0x1c, 0x2010, 0xf0f0)
        .register(0x20, memory, 0xfff0_fff0)
}

/// A region's register, part, whether it is prefetchable, and range.
type Row = (u8, Part, bool, u64, u64);

/// Whether a region is of this slot and as its row says.
fn is_region(region: &Region, slot: Slot, row: &Row) -> bool {
    region.slot == slot
        && region.reg == row.0
        && region.part == row.1
        && region.prefetch == row.2
        && (region.first, region.last) == (row.3, row.4)
}

/// Whether regions are of this slot and as their rows say.
fn are_regions(found: &[Region], slot: Slot, wanted: &[Row]) -> bool {
    for (region, row) in found.iter().zip(wanted) {
        if !is_region(region, slot, row) {
            return false;
        }
    }
    found.len() == wanted.len()
}

/// Whether the regions that a function has in a space are these.
fn has_regions(
    rt: &HostRuntime,
    slot: Slot,
    function: &Registers,
    space: Space,
    wanted: &[Row],
) -> bool {
    let Some(record) = decode(slot, &function.image, &function.probe).ok() else {
        return false;
    };
    let mut found = Vec::new(rt.alloc());
    add_regions(&mut found, &record, space) == Ok(()) && are_regions(&found, slot, wanted)
}

#[test]
fn enabled_parts_are_listed_by_register(rt: HostRuntime) -> Result<(), Fail> {
    let slot = Slot::new(0, 3, 0).ok_or("a slot")?;
    let rows: [(Registers, Space, &[Row]); 9] = [
        (
            full(3, 1),
            Space::Io,
            &[(0x10, Part::Bar, false, 0xe000, 0xe0ff)],
        ),
        (
            full(3, 1),
            Space::Mem,
            &[
                (0x14, Part::Bar, true, 0xfebf_f000, 0xfebf_ffff),
                (0x30, Part::Rom, false, 0xfea0_0000, 0xfea1_ffff),
            ],
        ),
        // a ROM that is off, and spaces that are
        (
            full(3, 0),
            Space::Mem,
            &[(0x14, Part::Bar, true, 0xfebf_f000, 0xfebf_ffff)],
        ),
        (full(2, 1), Space::Io, &[]),
        (full(1, 1), Space::Mem, &[]),
        // windows, open and closed
        (
            windows(3, 0xe010_e000),
            Space::Io,
            &[(0x1c, Part::Window, false, 0x1000, 0x2fff)],
        ),
        (
            windows(3, 0xe010_e000),
            Space::Mem,
            &[(0x20, Part::Window, false, 0xe000_0000, 0xe01f_ffff)],
        ),
        (windows(3, 0xe000_e010), Space::Mem, &[]),
        (windows(1, 0xe010_e000), Space::Mem, &[]),
    ];
    for (function, space, wanted) in rows {
        assert!(rt; has_regions(&rt, slot, &function, space, wanted));
    }
    Ok(())
}
