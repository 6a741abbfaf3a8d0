//! Where a region would fit, beside the ranges that the host sends and bridges with legacy parts.
ghost use Rattle.judge_spec.specs.Told.{IsTold};

use pci_base::memory::OutOfMemory;
use pci_base::range::{Range, RootRange};
use pci_base::slot::Slot;
use pci_base::space::Space;
use pci_claims::given::{Given, LegacyBridge};
use pci_claims::told::{Told, ranges_on};
use pci_dump::dump::Dump;
use pci_tree::admit::outline_of;
use pci_tree::outline::Outline;
use pci_tree::roots::Roots;
use pci_why::fits::push_fits;
use pci_why::judged::{Judged, RegionName};
use pci_why::room::no_rooms;
use std::alloc::Global;
use test_support::row::Row::{Bridge, Device};
use test_support::row::{Row, dumps_of_rows};

/// A region of a board and what is given beside the board, with the text of where the region would fit.
struct Asked {
    io: Option<&'static [RootRange]>,
    memory: Option<&'static [RootRange]>,
    /// Whether the legacy part of 00:01.0 decodes 16 bits of I/O addresses, where the bridge has one.
    legacy: Option<bool>,
    region: Region,
    text: &'static str,
}

/// Bus and device of a region's function, the register, and the space.
type Region = (u8, u8, u16, Space);

/// Nothing is told.
#[tactic(auto, using(crate::proofs::Nothing::nothing_told))]
fn nothing_told() -> Told<'static>
    ensures { IsTold result.ranges.now }
{
    Told {
        ranges: &[],
        asleep: &[],
    }
}

/// Where a region of functions, with their probe and what is given, would fit.
fn text_of(
    alloc: Global,
    outline: &Outline,
    probe: &Dump,
    given: &Given<'_>,
    name: RegionName,
) -> Result<String, OutOfMemory> {
    let told = nothing_told();
    let judged = Judged {
        given,
        told: &told,
        outline,
        probe: probe.blocks(),
    };
    let mut text = String::new(alloc);
    let on = ranges_on(alloc, &told, outline)?;
    let mut rooms = no_rooms(&on);
    push_fits(alloc, &mut text, &mut rooms, &judged, name)?;
    Ok(text)
}

/// The name of a region.
fn name_of(region: Region) -> Option<RegionName> {
    let (bus, device, register, space) = region;
    Some(RegionName {
        slot: Slot::new(bus, device, 0)?,
        register,
        space,
    })
}

/// The text of a region that is asked for, beside a bridge that may have a legacy part.
fn text_beside(
    alloc: Global,
    outline: &Outline,
    probe: &Dump,
    asked: &Asked,
    legacy: &[LegacyBridge],
) -> Option<String> {
    let given = Given {
        io: asked.io,
        memory: asked.memory,
        legacy,
        isa: &[],
        palette: &[],
        unclaimed: &[],
    };
    text_of(alloc, outline, probe, &given, name_of(asked.region)?).ok()
}

/// The text of a region that is asked for.
fn text_asked(alloc: Global, outline: &Outline, probe: &Dump, asked: &Asked) -> Option<String> {
    match asked.legacy {
        Some(is_wide) => {
            let slot = Slot::new(0, 1, 0)?;
            let legacy = [LegacyBridge { slot, is_wide }];
            text_beside(alloc, outline, probe, asked, &legacy)
        }
        None => text_beside(alloc, outline, probe, asked, &[]),
    }
}

/// Whether regions of functions with their probe are told to fit as their rows say.
fn are_told(alloc: Global, outline: &Outline, probe: &Dump, rows: &[Asked]) -> bool {
    for asked in rows {
        match text_asked(alloc, outline, probe, asked) {
            Some(text) if text.as_str() == asked.text => {}
            _ => return false,
        }
    }
    true
}

/// Whether regions of a board, with bus 00 and bus 40 as roots, are told to fit as their rows say.
fn fit(alloc: Global, board: &[Row], rows: &[Asked]) -> bool {
    match (dumps_of_rows(alloc, board), Roots::of(&[0, 0x40])) {
        (Some((dump, probe)), Some(roots)) => match outline_of(alloc, &dump, &probe, roots) {
            Ok(outline) => are_told(alloc, &outline, &probe, rows),
            Err(_) => false,
        },
        _ => false,
    }
}

/// The first BAR of 01:00.0, of 00:02.0 and of 40:01.0, and the windows of 00:01.0 and 01:00.0, all of memory.
const BAR_BEHIND: Region = (1, 0, 0x10, Space::Mem);

const BAR_BESIDE: Region = (0, 2, 0x10, Space::Mem);

const BAR_OF_40: Region = (0x40, 1, 0x10, Space::Mem);

const OUTER_WINDOW: Region = (0, 1, 0x20, Space::Mem);

const INNER_WINDOW: Region = (1, 0, 0x20, Space::Mem);

static BEHIND_A_BRIDGE: [Row; 3] = [
    Bridge("00:01.0", 2, (0, 1, 1), &[(0x20, 0xe010_e000, 0xfff0_fff0)]),
    Device("01:00.0", 2, &[(0x10, 0xf000_0000, 0xffff_0000)]),
    Device("01:01.0", 2, &[(0x10, 0xe010_0000, 0xffff_f000)]),
];

static SENT_BEHIND: [Asked; 3] = [
    Asked {
        io: None,
        memory: None,
        legacy: None,
        region: BAR_BEHIND,
        text: "  fits 00000000e0000000-00000000e000ffff 64K\n",
    },
    Asked {
        io: None,
        memory: Some(&[RootRange {
            root: None,
            range: Range {
                first: 0xe010_0000,
                last: 0xefff_ffff,
            },
        }]),
        legacy: None,
        region: BAR_BEHIND,
        text: "  fits 00000000e0110000-00000000e011ffff 64K\n",
    },
    Asked {
        io: None,
        memory: Some(&[RootRange {
            root: None,
            range: Range {
                first: 0xe010_0000,
                last: 0xe011_fffe,
            },
        }]),
        legacy: None,
        region: BAR_BEHIND,
        text: "  fits none\n",
    },
];

#[test]
fn a_bar_fits_where_it_is_sent_and_its_bridge_passes_it(rt: HostRuntime) {
    assert!(rt; fit(rt.alloc(), &BEHIND_A_BRIDGE, &SENT_BEHIND));
}

static ON_A_ROOT_BUS: [Row; 2] = [
    Device("00:01.0", 2, &[(0x10, 0xe000_0000, 0xfff0_0000)]),
    Device("00:02.0", 2, &[(0x10, 0xe000_0000, 0xfff0_0000)]),
];

static SENT_TO_ROOTS: [Asked; 2] = [
    Asked {
        io: None,
        memory: None,
        legacy: None,
        region: BAR_BESIDE,
        text: "",
    },
    Asked {
        io: None,
        memory: Some(&[RootRange {
            root: None,
            range: Range {
                first: 0xe000_0000,
                last: 0xefff_ffff,
            },
        }]),
        legacy: None,
        region: BAR_BESIDE,
        text: "  fits 00000000e0100000-00000000e01fffff 1M\n",
    },
];

#[test]
fn on_a_root_bus_to_which_all_is_sent_nothing_is_told(rt: HostRuntime) {
    assert!(rt; fit(rt.alloc(), &ON_A_ROOT_BUS, &SENT_TO_ROOTS));
}

static ON_TWO_ROOT_BUSES: [Row; 2] = [
    Device("00:01.0", 2, &[(0x10, 0xe000_0000, 0xfff0_0000)]),
    Device("40:01.0", 2, &[(0x10, 0xe000_0000, 0xfff0_0000)]),
];

static SENT_TO_BOTH_OR_ONE: [Asked; 2] = [
    Asked {
        io: None,
        memory: Some(&[
            RootRange {
                root: Some(0),
                range: Range {
                    first: 0xe000_0000,
                    last: 0xe00f_ffff,
                },
            },
            RootRange {
                root: Some(0x40),
                range: Range {
                    first: 0xe000_0000,
                    last: 0xefff_ffff,
                },
            },
        ]),
        legacy: None,
        region: BAR_OF_40,
        text: "  fits 00000000e0100000-00000000e01fffff 1M\n",
    },
    Asked {
        io: None,
        memory: Some(&[
            RootRange {
                root: Some(0),
                range: Range {
                    first: 0xd000_0000,
                    last: 0xdfff_ffff,
                },
            },
            RootRange {
                root: Some(0x40),
                range: Range {
                    first: 0xe000_0000,
                    last: 0xefff_ffff,
                },
            },
        ]),
        legacy: None,
        region: BAR_OF_40,
        text: "  fits 00000000e0000000-00000000e00fffff 1M\n",
    },
];

#[test]
fn a_bar_of_another_root_bus_is_in_the_way_where_accesses_to_it_start(rt: HostRuntime) {
    assert!(rt; fit(rt.alloc(), &ON_TWO_ROOT_BUSES, &SENT_TO_BOTH_OR_ONE));
}

static BEHIND_A_LEGACY_PART: [Row; 3] = [
    Bridge("00:01.0", 2, (0, 1, 1), &[(0x20, 0x0000_fff0, 0xfff0_fff0)]),
    Device("01:00.0", 2, &[(0x10, 0xe000_0000, 0xffff_0000)]),
    Device("01:01.0", 2, &[(0x10, 0x000a_0000, 0xffff_f000)]),
];

static PASSED_BY_A_LEGACY_PART: [Asked; 2] = [
    Asked {
        io: None,
        memory: None,
        legacy: None,
        region: BAR_BEHIND,
        text: "  fits none\n",
    },
    Asked {
        io: None,
        memory: None,
        legacy: Some(false),
        region: BAR_BEHIND,
        text: "  fits 00000000000b0000-00000000000bffff 64K\n",
    },
];

#[test]
fn a_bar_fits_in_what_a_legacy_part_passes(rt: HostRuntime) {
    assert!(rt; fit(rt.alloc(), &BEHIND_A_LEGACY_PART, &PASSED_BY_A_LEGACY_PART));
}

static BESIDE_A_LEGACY_PART: [Row; 2] = [
    Bridge("00:01.0", 2, (0, 1, 1), &[(0x20, 0xe000_e000, 0xfff0_fff0)]),
    Device("00:02.0", 2, &[(0x10, 0xe000_0000, 0xffff_0000)]),
];

static OF_LEGACY_MEMORY: [Asked; 2] = [
    Asked {
        io: None,
        memory: Some(&[RootRange {
            root: None,
            range: Range {
                first: 0xa_0000,
                last: 0xf_ffff,
            },
        }]),
        legacy: Some(false),
        region: BAR_BESIDE,
        text: "  fits 00000000000c0000-00000000000cffff 64K\n",
    },
    Asked {
        io: None,
        memory: Some(&[RootRange {
            root: None,
            range: Range {
                first: 0xa_0000,
                last: 0xf_ffff,
            },
        }]),
        legacy: Some(false),
        region: (0, 1, 0x3e, Space::Mem),
        text: "",
    },
];

#[test]
fn a_legacy_part_is_in_the_way_and_has_no_place_of_its_own(rt: HostRuntime) {
    assert!(rt; fit(rt.alloc(), &BESIDE_A_LEGACY_PART, &OF_LEGACY_MEMORY));
}

static BEHIND_TWO_BRIDGES: [Row; 3] = [
    Bridge("00:01.0", 2, (0, 1, 2), &[(0x20, 0xe010_e000, 0xfff0_fff0)]),
    Bridge("01:00.0", 2, (1, 2, 2), &[(0x20, 0xe000_e000, 0xfff0_fff0)]),
    Device("01:01.0", 2, &[(0x10, 0xe000_0000, 0xfff0_0000)]),
];

static OF_WINDOWS: [Asked; 4] = [
    Asked {
        io: None,
        memory: Some(&[RootRange {
            root: None,
            range: Range {
                first: 0,
                last: 0xffff_ffff,
            },
        }]),
        legacy: None,
        region: OUTER_WINDOW,
        text: "",
    },
    Asked {
        io: None,
        memory: None,
        legacy: None,
        region: INNER_WINDOW,
        text: "",
    },
    Asked {
        io: None,
        memory: Some(&[RootRange {
            root: None,
            range: Range {
                first: 0,
                last: 0xffff_ffff,
            },
        }]),
        legacy: None,
        region: INNER_WINDOW,
        text: "",
    },
    // the BAR of the same addresses has a line
    Asked {
        io: None,
        memory: None,
        legacy: None,
        region: (1, 1, 0x10, Space::Mem),
        text: "  fits 00000000e0100000-00000000e01fffff 1M\n",
    },
];

#[test]
fn of_a_window_nothing_is_told(rt: HostRuntime) {
    assert!(rt; fit(rt.alloc(), &BEHIND_TWO_BRIDGES, &OF_WINDOWS));
}

static PORTS_BESIDE_A_BRIDGE: [Row; 2] = [
    Bridge("00:01.0", 1, (0, 1, 1), &[(0x20, 0x0000_fff0, 0xfff0_fff0)]),
    Device("00:02.0", 1, &[(0x10, 0x0000_c201, 0xffff_fff1)]),
];

static OF_10_AND_16_BITS: [Asked; 2] = [
    Asked {
        io: Some(&[RootRange {
            root: None,
            range: Range {
                first: 0x7b0,
                last: 0x7ff,
            },
        }]),
        memory: None,
        legacy: Some(false),
        region: (0, 2, 0x10, Space::Io),
        text: "  fits 000007e0-000007ef 16\n",
    },
    Asked {
        io: Some(&[RootRange {
            root: None,
            range: Range {
                first: 0x7b0,
                last: 0x7ff,
            },
        }]),
        memory: None,
        legacy: Some(true),
        region: (0, 2, 0x10, Space::Io),
        text: "  fits 000007b0-000007bf 16\n",
    },
];

#[test]
fn ports_of_each_1k_are_in_the_way_where_10_bits_are_decoded(rt: HostRuntime) {
    assert!(rt; fit(rt.alloc(), &PORTS_BESIDE_A_BRIDGE, &OF_10_AND_16_BITS));
}
