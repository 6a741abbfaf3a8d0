use crate::probes::{shown, told, with_registers};
use crate::rows::{Line, Registers};
use pci_base::memory::Refused;
use pci_base::slot::Slot;
use pci_dump::block::{Block, Title};
use pci_dump::dump::{Dump, PushFault};
use pci_dump::mark::AssumedRegister;
use pci_machine::assuming::Assuming;
use pci_machine::probe::probe_of;
use pci_machine::probe_fault::ProbeFault;
use pci_machine::sizes::{Sizes, SizesBlock};

/// Functions of bus 00 by their device numbers: what they show, what is told of them, of
/// which registers a size may be assumed, and their read backs with the remarks, or the fault.
struct System(
    &'static [(u8, Registers)],
    &'static [(u8, &'static [Line])],
    Assuming,
    Result<(&'static [Registers], &'static [&'static str]), &'static str>,
);

/// A device whose memory BAR shows an address: enabled, and not.
const ENABLED: Registers = &[(0x04, 2), (0x10, 0xe000_0000)];

const DISABLED: Registers = &[(0x10, 0xe000_0000)];

/// The same with a ROM.
const WITH_ROM: Registers = &[(0x10, 0xe000_0000), (0x30, 0xfebe_0000)];

/// A bridge on which all is enabled, with a memory window alone, and a ROM that is off.
const BRIDGE: Registers = &[
    (0x04, 7),
    (0x0c, 0x0001_0000),
    (0x20, 0xfff0),
    (0x38, 0xfebe_0000),
];

/// What reads FFFFh as its vendor, and a header of type 2.
const SILENT: Registers = &[(0x00, 0xffff)];

const CARD: Registers = &[(0x0c, 0x0002_0000)];

/// What is told of 4 KB of memory, of 4 KB of 64-bit memory, and of nothing.
const SIZED: &[Line] = &[(0, 0xe000_0000, 0xe000_0fff, 0x4_0200)];

const WIDE: &[Line] = &[(0, 0, 0xfff, 0x14_0204)];

const UNTOLD: &[Line] = &[];

static SYSTEMS: [System; 17] = [
    System(&[], &[], Assuming::Nothing, Ok((&[], &[]))),
    System(
        &[(1, ENABLED), (2, ENABLED)],
        &[(1, SIZED), (2, SIZED)],
        Assuming::Nothing,
        Ok((&[&[(0x10, 0xffff_f000)], &[(0x10, 0xffff_f000)]], &[])),
    ),
    // remarks by slot and register
    System(
        &[(1, WITH_ROM), (2, BRIDGE)],
        &[(1, SIZED), (2, UNTOLD)],
        Assuming::Disabled,
        Ok((
            &[
                &[(0x10, 0xffff_f000), (0x30, 0xffff_f800)],
                &[(0x20, 0xfff0_fff0), (0x38, 0xffff_f800)],
            ],
            &[
                "assumed 00:01.0 30",
                "assumed 00:02.0 1c",
                "assumed 00:02.0 24",
                "assumed 00:02.0 38",
            ],
        )),
    ),
    System(
        &[(1, ENABLED), (2, WITH_ROM)],
        &[(1, SIZED), (2, SIZED)],
        Assuming::Nothing,
        Err("32 NoSize 00:02.0 30"),
    ),
    // slots that differ, the least of them, before all else
    System(
        &[(1, ENABLED)],
        &[],
        Assuming::Disabled,
        Err("30 SlotsDiffer 00:01.0"),
    ),
    System(
        &[],
        &[(3, UNTOLD)],
        Assuming::Disabled,
        Err("30 SlotsDiffer 00:03.0"),
    ),
    System(
        &[(1, SILENT), (2, ENABLED)],
        &[(1, UNTOLD), (3, UNTOLD)],
        Assuming::Disabled,
        Err("30 SlotsDiffer 00:02.0"),
    ),
    System(
        &[(1, ENABLED), (3, ENABLED)],
        &[(1, UNTOLD), (2, UNTOLD)],
        Assuming::Disabled,
        Err("30 SlotsDiffer 00:02.0"),
    ),
    System(
        &[(1, ENABLED)],
        &[(1, UNTOLD), (2, UNTOLD)],
        Assuming::Disabled,
        Err("30 SlotsDiffer 00:02.0"),
    ),
    // headers, of all functions before any register
    System(
        &[(1, CARD), (2, SILENT)],
        &[(1, UNTOLD), (2, UNTOLD)],
        Assuming::Disabled,
        Err("21 HeaderKind 00:01.0"),
    ),
    System(
        &[(1, SILENT), (2, CARD)],
        &[(1, UNTOLD), (2, UNTOLD)],
        Assuming::Disabled,
        Err("20 NoVendor 00:01.0"),
    ),
    System(
        &[(1, ENABLED), (2, SILENT)],
        &[(1, UNTOLD), (2, UNTOLD)],
        Assuming::Disabled,
        Err("20 NoVendor 00:02.0"),
    ),
    // registers, by slot; whether a BAR is enabled doesn't count
    System(
        &[(1, DISABLED), (2, ENABLED)],
        &[(1, UNTOLD), (2, UNTOLD)],
        Assuming::Disabled,
        Err("32 NoSize 00:01.0 10"),
    ),
    System(
        &[(1, &[(0x04, 2)]), (2, ENABLED)],
        &[(1, WIDE), (2, UNTOLD)],
        Assuming::Disabled,
        Err("33 OtherSize 00:01.0 10"),
    ),
    System(
        &[(1, ENABLED), (2, &[])],
        &[(1, UNTOLD), (2, WIDE)],
        Assuming::Disabled,
        Err("32 NoSize 00:01.0 10"),
    ),
    // the least size of what is enabled, too
    System(
        &[(1, ENABLED), (2, ENABLED)],
        &[(1, UNTOLD), (2, SIZED)],
        Assuming::Any,
        Ok((
            &[&[(0x10, 0xffff_fff0)], &[(0x10, 0xffff_f000)]],
            &["assumed 00:01.0 10"],
        )),
    ),
    System(
        &[(1, ENABLED), (2, &[(0x04, 2)])],
        &[(1, UNTOLD), (2, WIDE)],
        Assuming::Any,
        Err("33 OtherSize 00:02.0 10"),
    ),
];

/// Functions of bus 00 by their device numbers: what they show, what is told of them, and their titles in a probe.
struct Titled(
    &'static [(u8, Registers)],
    &'static [(u8, &'static [Line])],
    &'static [&'static [u8]],
);

static TITLED: Titled = Titled(
    &[(1, ENABLED), (2, WITH_ROM), (3, BRIDGE)],
    &[(1, SIZED), (2, SIZED), (3, UNTOLD)],
    &[b"", b"assumed 30", b"assumed 1c,24,38"],
);

/// The slot of a device of bus 00.
fn slot(device: u8) -> Slot {
    Slot::new(0, device, 0).unwrap_or_default()
}

/// The dump of these functions, each with a title, where their slots rise.
fn dump_of(rt: &HostRuntime, functions: &[(u8, Registers)]) -> Option<Dump> {
    let mut dump = Dump::empty(rt.alloc());
    for (device, registers) in functions {
        let pushed = dump.push(Block {
            slot: slot(*device),
            title: Title::of(b"Device"),
            image: shown(registers),
        });
        if pushed.is_err() {
            return None;
        }
    }
    Some(dump)
}

/// The sizes of functions of which these lines are told.
fn sizes_of(rt: &HostRuntime, functions: &[(u8, &[Line])]) -> Option<Sizes> {
    let mut sizes = Sizes::empty(rt.alloc());
    for (device, lines) in functions {
        let pushed = sizes.push(SizesBlock {
            slot: slot(*device),
            lines: told(lines),
        });
        if pushed.is_err() {
            return None;
        }
    }
    Some(sizes)
}

/// Whether a block of a probe is of this device, and holds these read backs.
fn is_block(block: &Block, device: u8, registers: Registers) -> bool {
    block.slot == slot(device) && block.image == with_registers([0; 256], registers)
}

/// Whether a probe has a system's functions with these read backs.
fn has_blocks(blocks: &[Block], system: &System, read_backs: &[Registers]) -> bool {
    for (i, block) in blocks.iter().enumerate() {
        match (system.0.get(i), read_backs.get(i)) {
            (Some((device, _)), Some(registers)) if is_block(block, *device, registers) => {}
            _ => return false,
        }
    }
    blocks.len() == read_backs.len()
}

/// Whether a remark on a register that is assumed has this text.
fn is_remark(rt: &HostRuntime, register: &AssumedRegister, text: &str) -> bool {
    match format!(in rt.alloc(); "{register}") {
        Ok(remark) => remark.as_str() == text,
        Err(_) => false,
    }
}

/// Whether these are the remarks on registers that are assumed.
fn has_remarks(rt: &HostRuntime, assumed: &[AssumedRegister], remarks: &[&str]) -> bool {
    for (register, text) in assumed.iter().zip(remarks) {
        if !is_remark(rt, register, text) {
            return false;
        }
    }
    assumed.len() == remarks.len()
}

/// Whether a probe is refused with a fault of this text.
fn is_refused(rt: &HostRuntime, refused: &Refused<ProbeFault>, text: &str) -> bool {
    let Refused::Fault(fault) = refused else {
        return false;
    };
    match format!(in rt.alloc(); "{fault}") {
        Ok(shown) => shown.as_str() == text,
        Err(_) => false,
    }
}

/// Whether what is derived of a dump and sizes is what a system's row says.
fn is_derived_as_said(rt: &HostRuntime, dump: &Dump, sizes: &Sizes, system: &System) -> bool {
    match (probe_of(rt.alloc(), dump, sizes, system.2), system.3) {
        (Ok(derivation), Ok((read_backs, remarks))) => {
            has_blocks(derivation.probe.blocks(), system, read_backs)
                && has_remarks(rt, &derivation.assumed, remarks)
        }
        (Err(refused), Err(text)) => is_refused(rt, &refused, text),
        _ => false,
    }
}

/// Whether a system's probe is derived, or refused, as its row says.
fn is_as_its_row_says(rt: &HostRuntime, system: &System) -> bool {
    match (dump_of(rt, system.0), sizes_of(rt, system.1)) {
        (Some(dump), Some(sizes)) => is_derived_as_said(rt, &dump, &sizes, system),
        _ => false,
    }
}

#[test]
fn systems_have_these_probes(rt: HostRuntime) {
    for (row, system) in SYSTEMS.iter().enumerate() {
        assert!(rt; is_as_its_row_says(&rt, system), "{row}");
    }
}

/// Whether a block is refused because it isn't above the one before.
fn is_not_above(sizes: &mut Sizes, block: SizesBlock) -> bool {
    sizes.push(block) == Err(Refused::Fault(PushFault::NotAbove))
}

#[test]
fn blocks_of_sizes_rise(rt: HostRuntime) {
    let mut sizes = Sizes::empty(rt.alloc());
    let above = SizesBlock {
        slot: slot(2),
        lines: told(SIZED),
    };
    assert!(rt; sizes.push(above).is_ok());
    assert!(rt; is_not_above(&mut sizes, above));
    assert!(rt; is_not_above(&mut sizes, SizesBlock::default()));
    assert!(rt; sizes.blocks().len() == 1);
}

#[test]
fn faults_of_a_probe_have_these_numbers(rt: HostRuntime) {
    assert!(rt; ProbeFault::SlotsDiffer(slot(1)).number() == 30);
    assert!(rt; ProbeFault::OtherSize(slot(1), 0x10).number() == 33);
}

/// Whether a block has a title of this text; an empty text is that of none.
fn has_title(block: &Block, text: &[u8]) -> bool {
    match &block.title {
        None => text.is_empty(),
        Some(title) => title.bytes() == text,
    }
}

/// Whether blocks have titles of these texts.
fn have_titles(blocks: &[Block], texts: &[&[u8]]) -> bool {
    for (block, text) in blocks.iter().zip(texts) {
        if !has_title(block, text) {
            return false;
        }
    }
    blocks.len() == texts.len()
}

/// Whether a probe that is derived with what is disabled assumed has titles of these texts.
fn is_titled(rt: &HostRuntime, dump: &Dump, sizes: &Sizes, texts: &[&[u8]]) -> bool {
    match probe_of(rt.alloc(), dump, sizes, Assuming::Disabled) {
        Ok(derived) => have_titles(derived.probe.blocks(), texts),
        Err(_) => false,
    }
}

/// Whether the probe of these functions has their titles.
fn has_its_titles(rt: &HostRuntime, titled: &Titled) -> bool {
    match (dump_of(rt, titled.0), sizes_of(rt, titled.1)) {
        (Some(dump), Some(sizes)) => is_titled(rt, &dump, &sizes, titled.2),
        _ => false,
    }
}

#[test]
fn titles_name_what_is_assumed(rt: HostRuntime) {
    assert!(rt; has_its_titles(&rt, &TITLED));
}
