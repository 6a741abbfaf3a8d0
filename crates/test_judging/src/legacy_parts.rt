//! Boards with bridges that have VGA Enable (Bridge 1.2, 3.2.5.18).
use crate::judged::{NOTHING, Said, has_lines};
use pci_model::words::VgaWord;
use std::alloc::Global;
use test_support::board::Register;
use test_support::row::Row;
use test_support::row::Row::{Bridge, Device};

/// Bridge Control with VGA Enable, alone and with VGA 16-bit Decode, among the four bytes from 3Ch on.
const VGA_ENABLE: Register = (0x3c, 0x0008_0000, 0);

const VGA_16_BIT: Register = (0x3c, 0x0018_0000, 0);

/// A window that is closed, at 20h.
const CLOSED: Register = (0x20, 0x0000_fff0, 0xfff0_fff0);

/// Whether a board with bus 00 as its root has these lines by a word.
fn has(alloc: Global, board: &[Row], word: VgaWord, wanted: &str) -> bool {
    let said = Said {
        vga: Some(word),
        ..NOTHING
    };
    has_lines(alloc, board, &[0], said, wanted)
}

static IN_A_WINDOW: [Row; 2] = [
    Device("00:01.0", 1, &[(0x20, 0x0000_c201, 0xffff_fff1)]),
    Bridge(
        "00:04.0",
        1,
        (0, 1, 1),
        &[CLOSED, (0x1c, 0x0000_c0c0, 0x0000_f0f0), VGA_16_BIT],
    ),
];

#[test]
fn a_bar_inside_a_window_clashes_beside_a_display_adapter(rt: HostRuntime) {
    let line = "61 Clash bus 00 io 0000c200 00:01.0 20 00:04.0 1c\n";
    assert!(rt; has(rt.alloc(), &IN_A_WINDOW, VgaWord::Vga, line));
}

static TWO_BRIDGES: [Row; 2] = [
    Bridge("00:01.0", 3, (0, 1, 1), &[CLOSED, VGA_ENABLE]),
    Bridge("00:02.0", 3, (0, 2, 2), &[CLOSED, VGA_16_BIT]),
];

#[test]
fn two_bridges_with_vga_enable_clash_in_both_spaces(rt: HostRuntime) {
    let lines = "61 Clash bus 00 io 000003b0 00:01.0 3e 00:02.0 3e\n\
         61 Clash bus 00 mem 00000000000a0000 00:01.0 3e 00:02.0 3e\n";
    assert!(rt; has(rt.alloc(), &TWO_BRIDGES, VgaWord::Vga, lines));
}

/// A bridge with legacy parts beside a BAR of 16 ports at 13B0h: it decodes 10 bits, or 16.
static BESIDE_PORTS: [Row; 2] = [
    Bridge("00:01.0", 1, (0, 1, 1), &[CLOSED, VGA_ENABLE]),
    Device("00:02.0", 1, &[(0x10, 0x0000_13b1, 0xffff_fff1)]),
];

static BESIDE_PORTS_WIDE: [Row; 2] = [
    Bridge("00:01.0", 1, (0, 1, 1), &[CLOSED, VGA_16_BIT]),
    Device("00:02.0", 1, &[(0x10, 0x0000_13b1, 0xffff_fff1)]),
];

#[test]
fn ten_bits_are_decoded_in_each_kb(rt: HostRuntime) {
    let line = "61 Clash bus 00 io 000013b0 00:01.0 3e 00:02.0 10\n";
    assert!(rt; has(rt.alloc(), &BESIDE_PORTS, VgaWord::Vga, line));
}

#[test]
fn sixteen_bits_are_decoded_where_bridge_control_says_so(rt: HostRuntime) {
    assert!(rt; has(rt.alloc(), &BESIDE_PORTS_WIDE, VgaWord::Vga, ""));
}

#[test]
fn sixteen_bits_are_decoded_where_the_word_says_so(rt: HostRuntime) {
    assert!(rt; has(rt.alloc(), &BESIDE_PORTS, VgaWord::Vga16, ""));
}

static SHARED_PORTS: [Row; 1] = [Bridge(
    "00:01.0",
    1,
    (0, 1, 1),
    &[CLOSED, (0x1c, 0x0000_1010, 0x0000_f0f0), VGA_ENABLE],
)];

#[test]
fn a_window_and_a_legacy_part_of_one_bridge_may_share_ports(rt: HostRuntime) {
    assert!(rt; has(rt.alloc(), &SHARED_PORTS, VgaWord::Vga, ""));
}

/// A bridge with legacy parts, and a BAR of 64 KB behind it: in the frame buffer, and above it.
static FRAME_BUFFER: [Row; 2] = [
    Bridge("00:01.0", 2, (0, 1, 1), &[CLOSED, VGA_ENABLE]),
    Device("01:00.0", 2, &[(0x10, 0x000a_0000, 0xffff_0000)]),
];

static ABOVE_FRAME_BUFFER: [Row; 2] = [
    Bridge("00:01.0", 2, (0, 1, 1), &[CLOSED, VGA_ENABLE]),
    Device("01:00.0", 2, &[(0x10, 0x000c_0000, 0xffff_0000)]),
];

#[test]
fn a_legacy_part_passes_its_frame_buffer(rt: HostRuntime) {
    assert!(rt; has(rt.alloc(), &FRAME_BUFFER, VgaWord::Vga, ""));
}

#[test]
fn a_legacy_part_passes_nothing_else(rt: HostRuntime) {
    let line = "60 Unreached 01:00.0 10 mem 00000000000c0000 bridge 00:01.0\n";
    assert!(rt; has(rt.alloc(), &ABOVE_FRAME_BUFFER, VgaWord::Vga, line));
}
