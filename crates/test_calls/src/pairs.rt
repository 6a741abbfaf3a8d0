use crate::texts::block;
use pci_base::image::Image;
use pci_base::slot::Slot;
use pci_dump::block::Block;
use pci_dump::dump::Dump;
use pci_dump::reader::read_dump;
use pci_function::fault::PairFault;
use pci_tree::pair::pair;
use std::test::Fail;
use test_support::fakes::Pieces;

/// An image of these bytes.
fn image_of(bytes: Bytes) -> Image {
    let mut image = [0; 256];
    for &(at, byte) in bytes {
        if let Some(place) = image.get_mut(at) {
            *place = byte;
        }
    }
    Image(image)
}

/// A dump of functions on bus 00, each a device and the bytes that aren't 00.
fn dump_of(rt: &HostRuntime, functions: &[(u8, Bytes)]) -> Dump {
    let mut dump = Dump::empty(rt.alloc());
    for (device, bytes) in functions {
        if let Some(slot) = Slot::new(0, *device, 0) {
            let _ = dump.push(Block {
                slot,
                title: None,
                image: image_of(bytes),
            });
        }
    }
    dump
}

/// Bytes of an image that aren't 00.
type Bytes = &'static [(usize, u8)];

const NONE: Bytes = &[];

const DEAD: Bytes = &[(0, 0xff), (1, 0xff), (0x0e, 0x02)];

const HALF: Bytes = &[(0, 0xff), (1, 0xfe)];

const CARD: Bytes = &[(0x0e, 0x82)];

const BRIDGE: Bytes = &[(0x0e, 0x81)];

const BARS: Bytes = &[(0x10, 1), (0x27, 1), (0x30, 1), (0x33, 1)];

const WINDOWS: Bytes = &[
    (0x17, 1),
    (0x1c, 1),
    (0x1d, 1),
    (0x20, 1),
    (0x33, 1),
    (0x38, 1),
    (0x3b, 1),
];

const STRAY: Bytes = &[(0x3d, 1), (0x28, 1), (0xff, 1)];

/// Whether a fault is shown so.
fn is_shown(rt: &HostRuntime, fault: PairFault, text: &str) -> bool {
    match format!(in rt.alloc(); "{fault}") {
        Ok(shown) => shown.as_str() == text,
        Err(_) => false,
    }
}

/// Whether a row's pair is refused with its text, or accepted where there is none.
fn is_as_its_row_says(rt: &HostRuntime, row: &Row) -> bool {
    let (dump, probe, wanted) = *row;
    match pair(&dump_of(rt, dump), &dump_of(rt, probe)) {
        Ok(()) => wanted.is_empty(),
        Err(fault) => is_shown(rt, fault, wanted),
    }
}

/// The functions of a dump, those of a probe, and the text of the fault that the pair is refused by.
type Row = (&'static [(u8, Bytes)], &'static [(u8, Bytes)], &'static str);

static ROWS: [Row; 16] = [
    (&[], &[], ""),
    (&[(1, NONE), (2, HALF)], &[(1, BARS), (2, NONE)], ""),
    (&[(1, BRIDGE)], &[(1, WINDOWS)], ""),
    (&[(0, DEAD)], &[(0, NONE)], "20 NoVendor 00:00.0"),
    (&[(0, DEAD)], &[], "30 SlotsDiffer 00:00.0"),
    (&[], &[(3, NONE)], "30 SlotsDiffer 00:03.0"),
    (
        &[(1, DEAD), (2, NONE)],
        &[(1, NONE), (3, NONE)],
        "30 SlotsDiffer 00:02.0",
    ),
    (
        &[(1, NONE), (3, NONE)],
        &[(1, NONE), (2, NONE)],
        "30 SlotsDiffer 00:02.0",
    ),
    (
        &[(1, NONE), (2, NONE)],
        &[(1, NONE)],
        "30 SlotsDiffer 00:02.0",
    ),
    (&[(1, CARD)], &[(1, STRAY)], "21 HeaderKind 00:01.0"),
    (
        &[(1, NONE), (2, DEAD)],
        &[(1, STRAY), (2, NONE)],
        "31 StrayProbe 00:01.0 28",
    ),
    (&[(1, NONE)], &[(1, WINDOWS)], "31 StrayProbe 00:01.0 38"),
    (
        &[(1, BRIDGE)],
        &[(1, &[(0x18, 1)])],
        "31 StrayProbe 00:01.0 18",
    ),
    (
        &[(1, BRIDGE)],
        &[(1, &[(0x1e, 1)])],
        "31 StrayProbe 00:01.0 1e",
    ),
    (
        &[(1, BRIDGE)],
        &[(1, &[(0x34, 1)])],
        "31 StrayProbe 00:01.0 34",
    ),
    (
        &[(1, BRIDGE)],
        &[(1, &[(0x3c, 1)])],
        "31 StrayProbe 00:01.0 3c",
    ),
];

#[test]
fn a_pair_is_refused_by_the_first_fault(rt: HostRuntime) {
    for row in &ROWS {
        assert!(rt; is_as_its_row_says(&rt, row), "{}", row.2);
    }
}

/// The dump of a block of zeros with this slot line.
fn read_block(rt: &HostRuntime, line: &[u8]) -> Option<Dump> {
    match block(rt, line) {
        Ok(text) => read_dump(rt.alloc(), &mut Pieces::new(&text, 4096, 0)).ok(),
        Err(_) => None,
    }
}

#[test]
fn titles_of_a_pair_need_not_agree(rt: HostRuntime) -> Result<(), Fail> {
    let dump = read_block(&rt, b"00:01.0 a title\n").ok_or("no dump")?;
    let probe = read_block(&rt, b"00:01.0\n").ok_or("no probe")?;
    assert!(rt; pair(&dump, &probe).is_ok());
    Ok(())
}

#[test]
fn faults_are_numbered(rt: HostRuntime) {
    let Some(slot) = Slot::new(0, 1, 0) else {
        return;
    };
    let cases = [
        (PairFault::BarType(slot, 0x10), 22),
        (PairFault::BarMask(slot, 0x10), 23),
        (PairFault::BarPair(slot, 0x10), 24),
        (PairFault::RomMask(slot, 0x30), 25),
        (PairFault::WindowMask(slot, 0x1c), 26),
    ];
    for (fault, number) in cases {
        assert!(rt; fault.number() == number, "{number}");
    }
}
