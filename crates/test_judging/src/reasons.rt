//! What is told behind faults.
use crate::boards::{BEHIND_ONE_THAT_IS_OFF, PASSED_IN_TWO_PARTS};
use pci_base::slot::Slot;
use pci_base::space::Space;
use pci_claims::given::Given;
use pci_claims::told::{Told, ranges_on};
use pci_dump::dump::Dump;
use pci_faults::any_fault::without_told;
use pci_function::fault::Fault;
use pci_tree::admit::outline_of;
use pci_tree::outline::Outline;
use pci_tree::roots::Roots;
use pci_why::judged::Judged;
use pci_why::off::push_off;
use pci_why::room::no_rooms;
use pci_why::why::push_why;
use std::alloc::Global;
use std::test::Fail;
use test_support::row::Row::{Bridge, Device};
use test_support::row::{Row, dumps_of_rows};

/// A fault by the devices that it names.
enum Named {
    /// A BAR or ROM of memory of a device on bus 01 that the bridge 00:01.0 doesn't pass: its register and the address.
    Unreached(u8, u8, u64),
    /// The first BARs of two devices of one bus: the bus, the address and the devices.
    Clash(u8, u64, u8, u8),
}

use Named::{Clash, Unreached};

fn unreached(device: u8, reg: u8, address: u64) -> Option<Fault> {
    Some(Fault::Unreached {
        slot: Slot::new(1, device, 0)?,
        reg,
        space: Space::Mem,
        address,
        bridge: Slot::new(0, 1, 0)?,
    })
}

fn clash(bus: u8, address: u64, first: u8, second: u8) -> Option<Fault> {
    Some(Fault::Clash {
        bus,
        space: Space::Mem,
        address,
        first: Slot::new(bus, first, 0)?,
        first_reg: 0x10,
        second: Slot::new(bus, second, 0)?,
        second_reg: 0x10,
    })
}

/// The fault itself.
fn fault_of(named: &Named) -> Option<Fault> {
    match named {
        Unreached(device, reg, address) => unreached(*device, *reg, *address),
        Clash(bus, address, first, second) => clash(*bus, *address, *first, *second),
    }
}

/// What is told behind some faults where nothing is given or told, and the lines of the BARs that are off.
#[tactic(auto, using(crate::proofs::Nothing::nothing_told))]
fn told(alloc: Global, outline: &Outline, probe: &Dump, faults: &[Named]) -> Option<String> {
    let nothing = Given {
        io: None,
        memory: None,
        legacy: &[],
        isa: &[],
        palette: &[],
        unclaimed: &[],
    };
    let untold = Told {
        ranges: &[],
        asleep: &[],
    };
    let judged = Judged {
        given: &nothing,
        told: &untold,
        outline,
        probe: probe.blocks(),
    };
    let Ok(on) = ranges_on(alloc, &untold, outline) else {
        return None;
    };
    let mut rooms = no_rooms(&on);
    let mut text = String::new(alloc);
    for named in faults {
        let fault = without_told(&fault_of(named)?);
        push_why(alloc, &mut text, &mut rooms, &judged, &fault).ok()?;
    }
    push_off(alloc, &mut text, outline, &untold, &on).ok()?;
    Some(text)
}

/// The same of a board.
fn told_of(alloc: Global, board: &[Row], faults: &[Named]) -> Option<String> {
    let (dump, probe) = dumps_of_rows(alloc, board)?;
    match outline_of(alloc, &dump, &probe, Roots::host()) {
        Ok(outline) => told(alloc, &outline, &probe, faults),
        Err(_) => None,
    }
}

/// Fails where what is told isn't these lines.
fn is_told(rt: &HostRuntime, board: &[Row], faults: &[Named], wanted: &[&str]) -> Result<(), Fail> {
    let text = told_of(rt.alloc(), board, faults).ok_or("nothing told")?;
    let mut lines = String::new(rt.alloc());
    for line in wanted {
        lines.push_str(line)?;
    }
    if text.as_str() == lines.as_str() {
        Ok(())
    } else {
        Err(Fail::new(format_args!("told:\n{text}")))
    }
}

#[test]
fn two_clashes_with_one_bar(rt: HostRuntime) -> Result<(), Fail> {
    const BOARD: &[Row] = &[
        Device("00:01.0", 2, &[(0x10, 0xe000_0000, 0xf000_0000)]),
        Device("00:02.0", 2, &[(0x10, 0xe100_0000, 0xfff0_0000)]),
        Device("00:03.0", 2, &[(0x10, 0xe080_0000, 0xfff0_0000)]),
    ];
    const FAULTS: &[Named] = &[Clash(0, 0xe080_0000, 1, 3), Clash(0, 0xe100_0000, 1, 2)];
    const WANTED: &[&str] = &[
        "  first 00:01.0 10 bar mem 00000000e0000000-00000000efffffff 256M\n",
        "  second 00:03.0 10 bar mem 00000000e0800000-00000000e08fffff 1M\n",
        "  shared 00000000e0800000-00000000e08fffff 1M\n",
        "  first 00:01.0 10 bar mem 00000000e0000000-00000000efffffff 256M\n",
        "  second 00:02.0 10 bar mem 00000000e1000000-00000000e10fffff 1M\n",
        "  shared 00000000e1000000-00000000e10fffff 1M\n",
    ];
    is_told(&rt, BOARD, FAULTS, WANTED)
}

#[test]
fn behind_a_bridge_that_is_off(rt: HostRuntime) -> Result<(), Fail> {
    const FAULTS: &[Named] = &[
        Unreached(0, 0x10, 0xe000_0000),
        Unreached(1, 0x10, 0xe001_0000),
        Unreached(1, 0x30, 0xe002_0000),
    ];
    const WANTED: &[&str] = &[
        "  needs 01:00.0 10 bar mem 00000000e0000000-00000000e0000fff 4K\n",
        "  bridge 00:01.0 off mem 00000000e0000000-00000000e00fffff\n",
        "  missed 00000000e0000000-00000000e0000fff 4K\n",
        "  fits none\n",
        "  needs 01:01.0 10 bar mem 00000000e0010000-00000000e001ffff 64K\n",
        "  bridge 00:01.0 off mem 00000000e0000000-00000000e00fffff\n",
        "  missed 00000000e0010000-00000000e001ffff 64K\n",
        "  fits none\n",
        "  needs 01:01.0 30 rom mem 00000000e0020000-00000000e00207ff 2K\n",
        "  bridge 00:01.0 off mem 00000000e0000000-00000000e00fffff\n",
        "  missed 00000000e0020000-00000000e00207ff 2K\n",
        "  fits none\n",
    ];
    is_told(&rt, BEHIND_ONE_THAT_IS_OFF, FAULTS, WANTED)
}

#[test]
fn two_runs_beside_a_prefetchable_window(rt: HostRuntime) -> Result<(), Fail> {
    const FAULTS: &[Named] = &[Unreached(0, 0x10, 0xe010_0000)];
    const WANTED: &[&str] = &[
        "  needs 01:00.0 10 bar mem pref 00000000e0000000-00000000e03fffff 4M\n",
        "  bridge 00:01.0 on mem 00000000e0000000-00000000e00fffff pref 00000000e0200000-00000000e02fffff\n",
        "  missed 00000000e0100000-00000000e01fffff 1M\n",
        "  missed 00000000e0300000-00000000e03fffff 1M\n",
        "  fits none\n",
    ];
    is_told(&rt, PASSED_IN_TWO_PARTS, FAULTS, WANTED)
}

#[test]
fn a_clash_behind_a_bridge_and_a_bar_that_is_off(rt: HostRuntime) -> Result<(), Fail> {
    const BOARD: &[Row] = &[
        Bridge("00:01.0", 2, (0, 1, 1), &[(0x20, 0xe000_e000, 0xfff0_fff0)]),
        Device("01:00.0", 2, &[(0x10, 0xe000_0000, 0xffff_f000)]),
        Device("01:01.0", 2, &[(0x10, 0xe000_0000, 0xffff_0000)]),
        Device("01:02.0", 0, &[(0x10, 0, 0xffff_ff00)]),
    ];
    const FAULTS: &[Named] = &[Clash(1, 0xe000_0000, 0, 1)];
    const WANTED: &[&str] = &[
        "  first 01:00.0 10 bar mem 00000000e0000000-00000000e0000fff 4K\n",
        "  second 01:01.0 10 bar mem 00000000e0000000-00000000e000ffff 64K\n",
        "  shared 00000000e0000000-00000000e0000fff 4K\n",
        "  fits 00000000e0010000-00000000e001ffff 64K\n",
        "off 01:02.0 10 bar mem 0000000000000000-00000000000000ff 256\n",
    ];
    is_told(&rt, BOARD, FAULTS, WANTED)
}
