//! Lists of all faults, by rows of functions.

use pci_base::image::{IMAGE_LEN, Image};
use pci_base::memory::Refused;
use pci_base::slot::Slot;
use pci_dump::block::Block;
use pci_dump::dump::Dump;
use pci_faults::early::faults_from;
use pci_tree::admit::outline_of;
use pci_tree::roots::Roots;
use std::alloc::Global;
use std::test::Fail;

/// Registers of four bytes, by their offsets; all else is 0.
type Registers = &'static [(u8, u32)];

/// A function on bus, device and function, with its registers and their read backs.
type Placed = (u8, u8, u8, Registers, Registers);

/// Vendor and device, the Header Type of a bridge, and its bus numbers where it leads from bus 0 to bus 1.
const DEVICE: (u8, u32) = (0x00, 0x5678_1234);

const BRIDGE: (u8, u32) = (0x0c, 0x0001_0000);

const TO_BUS_1: (u8, u32) = (0x18, 0x0001_0100);

/// Read backs of a bridge's memory window.
const WINDOW: (u8, u32) = (0x20, 0xfff0_fff0);

/// Where no function answers.
const NOTHING: (u8, u32) = (0x00, 0xffff_ffff);

/// Status says that there is a capabilities list.
const LISTED: (u8, u32) = (0x04, 0x0010_0000);

/// It begins at 40h.
const LIST: (u8, u32) = (0x34, 0x40);

fn image(registers: Registers) -> Image {
    let mut image = Image([0; IMAGE_LEN]);
    for &(off, value) in registers {
        for (i, byte) in value.to_le_bytes().into_iter().enumerate() {
            let at = usize::from(off) + i;
            if at < IMAGE_LEN {
                image.0[at] = byte;
            }
        }
    }
    image
}

/// Appends a function to a dump.
fn add(dump: &mut Dump, slot: Slot, registers: Registers) -> bool {
    let block = Block {
        slot,
        title: None,
        image: image(registers),
    };
    dump.push(block).is_ok()
}

/// All faults of a dump and its probe, in one text.
fn list_of(alloc: Global, dump: &Dump, probe: &Dump, roots: Roots) -> Result<String, Fail> {
    let mut text = String::new(alloc);
    match outline_of(alloc, dump, probe, roots) {
        Ok(_) => Ok(text),
        Err(Refused::Memory) => Err("no memory".into()),
        Err(Refused::Fault(first)) => {
            for fault in &faults_from(alloc, dump, probe, &roots, first)? {
                text.push_str(format!(in alloc; "{fault}\n")?.as_str())?;
            }
            Ok(text)
        }
    }
}

/// The same of some functions.
fn list_for(alloc: Global, roots: Roots, functions: &[Placed]) -> Result<String, Fail> {
    let mut dump = Dump::empty(alloc);
    let mut probe = Dump::empty(alloc);
    for (bus, device, function, registers, read_backs) in functions {
        let slot = Slot::new(*bus, *device, *function).ok_or("a slot")?;
        if !add(&mut dump, slot, registers) || !add(&mut probe, slot, read_backs) {
            return Err("no dump".into());
        }
    }
    list_of(alloc, &dump, &probe, roots)
}

/// Fails where the list of some functions isn't that.
fn is_listed(
    rt: &HostRuntime,
    roots: &[u8],
    functions: &[Placed],
    wanted: &str,
) -> Result<(), Fail> {
    let roots = Roots::of(roots).ok_or("no roots")?;
    let list = list_for(rt.alloc(), roots, functions)?;
    if list.as_str() == wanted {
        Ok(())
    } else {
        Err(Fail::new(format_args!("listed:\n{list}")))
    }
}

/// A text of some devices of bus 00, all with these registers.
fn devices(alloc: Global, devices: &[u8], registers: Registers) -> Option<Dump> {
    let mut dump = Dump::empty(alloc);
    for device in devices {
        if !add(&mut dump, Slot::new(0, *device, 0)?, registers) {
            return None;
        }
    }
    Some(dump)
}

/// All faults of a dump of some devices of bus 00, at which nothing answers, and of a probe of others.
fn list_of_devices(alloc: Global, dumped: &[u8], probed: &[u8]) -> Result<String, Fail> {
    match (
        devices(alloc, dumped, &[NOTHING]),
        devices(alloc, probed, &[]),
    ) {
        (Some(dump), Some(probe)) => list_of(alloc, &dump, &probe, Roots::host()),
        _ => Err("no dump".into()),
    }
}

#[test]
fn each_slot_of_one_text_alone_has_a_line(rt: HostRuntime) -> Result<(), Fail> {
    let list = list_of_devices(rt.alloc(), &[1, 2, 5, 6], &[2, 3, 5, 7])?;
    assert!(rt;
        list.as_str()
            == "30 SlotsDiffer 00:01.0\n30 SlotsDiffer 00:03.0\n30 SlotsDiffer 00:06.0\n30 SlotsDiffer 00:07.0\n"
    );
    Ok(())
}

#[test]
fn each_function_has_one_line_of_identity(rt: HostRuntime) -> Result<(), Fail> {
    const FUNCTIONS: &[Placed] = &[
        (0, 1, 0, &[NOTHING], &[(0x3c, 1)]),
        (
            0,
            2,
            0,
            &[DEVICE, (0x04, 0x20)],
            &[(0x3c, 0x0100), (0x40, 1)],
        ),
        (0, 3, 0, &[DEVICE, (0x04, 0x20)], &[]),
        (0, 4, 0, &[DEVICE, (0x0c, 0x0002_0000)], &[(0x3c, 1)]),
    ];
    const LINES: &str = "20 NoVendor 00:01.0\n31 StrayProbe 00:02.0 3d\n21 HeaderKind 00:04.0\n";
    is_listed(&rt, &[0], FUNCTIONS, LINES)
}

#[test]
fn each_register_has_one_line(rt: HostRuntime) -> Result<(), Fail> {
    const FUNCTIONS: &[Placed] = &[
        (
            0,
            1,
            0,
            &[
                DEVICE,
                LISTED,
                (0x34, 0x10),
                (0x10, 2),
                (0x18, 4),
                (0x24, 0x0c),
            ],
            &[
                (0x10, 0xfff0_0002),
                (0x14, 0xfff0_f000),
                (0x18, 0xfff0_0004),
                (0x1c, 0xffff_ffff),
                (0x24, 0xff00_000c),
                (0x30, 0xfe00_0000),
            ],
        ),
        (0, 2, 0, &[DEVICE, (0x04, 0x20)], &[]),
        (
            0,
            3,
            0,
            &[DEVICE, BRIDGE, TO_BUS_1, (0x10, 1)],
            &[(0x14, 0xf), (0x1c, 0xf1f0), (0x20, 0xfff0_fff1), (0x24, 1)],
        ),
        (0, 4, 0, &[DEVICE, LISTED, LIST, (0x40, 0x4000)], &[]),
    ];
    const LINES: &str =
        "22 BarType 00:01.0 10\n23 BarMask 00:01.0 14\n24 BarPair 00:01.0 24\n25 RomMask 00:01.0 30\n\
        27 CapRange 00:01.0 10\n23 BarMask 00:03.0 10\n23 BarMask 00:03.0 14\n26 WindowMask 00:03.0 1c\n\
        26 WindowMask 00:03.0 20\n26 WindowMask 00:03.0 24\n28 CapLoop 00:04.0 40\n";
    is_listed(&rt, &[0], FUNCTIONS, LINES)
}

#[test]
fn each_fault_of_a_profile_has_a_line(rt: HostRuntime) -> Result<(), Fail> {
    const FUNCTIONS: &[Placed] = &[
        (
            0,
            1,
            0,
            &[
                DEVICE,
                (0x04, 0x0010_0020),
                (0x08, 0x0604_0100),
                BRIDGE,
                TO_BUS_1,
                LIST,
                (0x3c, 0x004c_0000),
                (0x40, 1),
                (0x44, 3),
            ],
            &[WINDOW],
        ),
        (0, 2, 1, &[DEVICE], &[]),
        (0, 3, 0, &[DEVICE, (0x04, 0x20)], &[]),
    ];
    const LINES: &str =
        "51 PaletteSnoop 00:01.0\n52 VgaEnable 00:01.0\n53 IsaEnable 00:01.0\n54 Subtractive 00:01.0\n\
        55 InReset 00:01.0\n56 PowerState 00:01.0\n51 PaletteSnoop 00:03.0\n";
    is_listed(&rt, &[0], FUNCTIONS, LINES)
}

#[test]
fn each_fault_of_a_place_has_a_line(rt: HostRuntime) -> Result<(), Fail> {
    const FUNCTIONS: &[Placed] = &[
        (0, 1, 1, &[DEVICE], &[]),
        (1, 0, 0, &[DEVICE], &[]),
        (2, 3, 4, &[DEVICE, BRIDGE, TO_BUS_1], &[WINDOW]),
        (3, 0, 0, &[DEVICE], &[]),
    ];
    const LINES: &str =
        "50 LoneFunction 00:01.1\n50 LoneFunction 02:03.4\n58 Orphan 02:03.4\n57 BusRange 02:03.4\n\
        58 Orphan 03:00.0\n";
    is_listed(&rt, &[0], FUNCTIONS, LINES)?;
    const OF_THREE: &str =
        "50 LoneFunction 00:01.1\n50 LoneFunction 02:03.4\n57 BusRange 02:03.4\n";
    is_listed(&rt, &[0, 2, 3], FUNCTIONS, OF_THREE)
}
