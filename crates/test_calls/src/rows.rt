use pci_image::fault::ImageFault;
use pci_machine::derive_fault::DeriveFault;

/// Registers of four bytes, by their offsets; all else is 0.
pub type Registers = &'static [(u8, u32)];

/// A line's number, first and last address, and flags; all others are zeros.
pub type Line = (usize, u64, u64, u64);

/// What a function of vendor 1234h shows, what is told of it, and its read backs with the registers
/// that are assumed, or its fault.
pub struct Row(
    pub Registers,
    pub &'static [Line],
    pub Result<(Registers, &'static [u8]), DeriveFault>,
);

/// Header Type of a bridge, among the four bytes from 0Ch on.
const BRIDGE: u32 = 0x0001_0000;

static ROWS: [Row; 31] = [
    // BARs: 128 KB of memory, 64 bytes of I/O, 64 MB and 512 KB of 64 bits
    Row(
        &[(0x04, 2), (0x10, 0xfebc_0000)],
        &[(0, 0xfebc_0000, 0xfebd_ffff, 0x4_0200)],
        Ok((&[(0x10, 0xfffe_0000)], &[])),
    ),
    Row(
        &[(0x04, 1), (0x14, 0xc001)],
        &[(1, 0xc000, 0xc03f, 0x4_0101)],
        Ok((&[(0x14, 0xffff_ffc1)], &[])),
    ),
    Row(
        &[(0x04, 2), (0x18, 0xf400_000c)],
        &[(2, 0xf400_0000, 0xf7ff_ffff, 0x14_220c)],
        Ok((&[(0x18, 0xfc00_000c), (0x1c, 0xffff_ffff)], &[])),
    ),
    Row(
        &[(0x04, 2), (0x10, 4), (0x14, 0x40)],
        &[(0, 0x40_0000_0000, 0x40_0007_ffff, 0x14_0204)],
        Ok((&[(0x10, 0xfff8_0004), (0x14, 0xffff_ffff)], &[])),
    ),
    // one that was never placed, and one whose host shifts addresses
    Row(
        &[],
        &[(0, 0, 0xfff, 0x2004_0200)],
        Ok((&[(0x10, 0xffff_f000)], &[])),
    ),
    Row(
        &[(0x04, 2), (0x10, 0xe000_0000)],
        &[(0, 0x4_e000_0000, 0x4_e000_0fff, 0x4_0200)],
        Ok((&[(0x10, 0xffff_f000)], &[])),
    ),
    // an enabled one, of which nothing is told, no power of two, another space, or a size that its
    // address is no multiple of
    Row(
        &[(0x04, 2), (0x10, 0xe000_0000)],
        &[],
        Err(DeriveFault::NoSize(0x10)),
    ),
    Row(
        &[(0x04, 2), (0x10, 0xe000_0000)],
        &[(0, 0xe000_0000, 0xe001_7fff, 0x4_0200)],
        Err(DeriveFault::NoSize(0x10)),
    ),
    Row(
        &[(0x04, 2), (0x10, 0xe000_0000)],
        &[(0, 0xc000, 0xc03f, 0x4_0101)],
        Err(DeriveFault::NoSize(0x10)),
    ),
    Row(
        &[(0x04, 2), (0x10, 0xe000_1000)],
        &[(0, 0xe000_0000, 0xe000_ffff, 0x4_0200)],
        Err(DeriveFault::NoSize(0x10)),
    ),
    // nothing is told of one that isn't enabled: memory, I/O, 64 bits, and 64 bits in the last register
    Row(&[(0x10, 0xe000_0000)], &[], Err(DeriveFault::NoSize(0x10))),
    Row(&[(0x10, 0xc001)], &[], Err(DeriveFault::NoSize(0x10))),
    Row(
        &[(0x14, 0xc), (0x18, 1)],
        &[],
        Err(DeriveFault::NoSize(0x14)),
    ),
    Row(&[(0x24, 4)], &[], Err(DeriveFault::NoSize(0x24))),
    // one that shows 0, and a line of another type
    Row(
        &[],
        &[(0, 0xe000_0000, 0xe000_0fff, 0x14_0204)],
        Err(DeriveFault::OtherSize(0x10)),
    ),
    // fixed ports of an IDE channel, which registers show as 0, or one that shows that it is of I/O
    Row(
        &[(0x04, 1)],
        &[(0, 0x1f0, 0x1f7, 0x110), (1, 0x3f6, 0x3f6, 0x110)],
        Ok((&[], &[])),
    ),
    Row(
        &[(0x04, 1), (0x10, 1)],
        &[(0, 0x1f0, 0x1f7, 0x110)],
        Err(DeriveFault::NoSize(0x10)),
    ),
    // 1 KB of I/O, which no lawful BAR has
    Row(
        &[(0x04, 1), (0x10, 0xc001)],
        &[(0, 0xc000, 0xc3ff, 0x4_0101)],
        Ok((&[(0x10, 0xffff_fc01)], &[])),
    ),
    // ROMs: one with a shadow copy, off and on, and 64 KB of a device and of a bridge
    Row(
        &[(0x04, 2), (0x30, 0xfebe_0000)],
        &[(6, 0xc_0000, 0xd_ffff, 0x212)],
        Ok((&[(0x30, 0xffff_f800)], &[0x30])),
    ),
    Row(
        &[(0x04, 2), (0x30, 0xfebe_0001)],
        &[(6, 0xc_0000, 0xd_ffff, 0x212)],
        Err(DeriveFault::NoSize(0x30)),
    ),
    Row(
        &[(0x04, 2), (0x30, 0xfebe_0001)],
        &[(6, 0xfebe_0000, 0xfebe_ffff, 0x4_6200)],
        Ok((&[(0x30, 0xffff_0000)], &[])),
    ),
    Row(
        &[(0x0c, BRIDGE), (0x38, 0xfebe_0000)],
        &[(6, 0xfebe_0000, 0xfebe_ffff, 0x4_6200)],
        Ok((&[(0x20, 0xfff0_fff0), (0x38, 0xffff_0000)], &[])),
    ),
    // a bridge whose I/O and prefetchable windows show 0, with Command's enables and without
    Row(
        &[(0x04, 7), (0x0c, BRIDGE), (0x20, 0xfff0)],
        &[],
        Ok((&[(0x20, 0xfff0_fff0)], &[0x1c, 0x24])),
    ),
    Row(
        &[(0x0c, BRIDGE), (0x20, 0xfff0)],
        &[],
        Ok((&[(0x20, 0xfff0_fff0)], &[])),
    ),
    // windows of 32 bits of I/O and 64 bits of memory, and of 16 and 64
    Row(
        &[
            (0x04, 7),
            (0x0c, BRIDGE),
            (0x1c, 0x01f1),
            (0x20, 0xfff0),
            (0x24, 0x0001_fff1),
        ],
        &[],
        Ok((
            &[
                (0x1c, 0xf1f1),
                (0x20, 0xfff0_fff0),
                (0x24, 0xfff1_fff1),
                (0x28, 0xffff_ffff),
                (0x2c, 0xffff_ffff),
                (0x30, 0xffff_ffff),
            ],
            &[],
        )),
    ),
    Row(
        &[
            (0x04, 7),
            (0x0c, BRIDGE),
            (0x1c, 0xe0c0),
            (0x20, 0xfe90_fe40),
            (0x24, 0xfbf1_f401),
        ],
        &[],
        Ok((
            &[
                (0x1c, 0xf0f0),
                (0x20, 0xfff0_fff0),
                (0x24, 0xfff1_fff1),
                (0x28, 0xffff_ffff),
                (0x2c, 0xffff_ffff),
            ],
            &[],
        )),
    ),
    // a bridge has two BARs: the line of a third one is of none
    Row(
        &[(0x0c, BRIDGE)],
        &[(2, 0xe000_0000, 0xe000_0fff, 0x4_0200)],
        Ok((&[(0x20, 0xfff0_fff0)], &[])),
    ),
    // of two faults the lower register's
    Row(
        &[(0x04, 2), (0x18, 0xe000_0000), (0x30, 0xfebe_0001)],
        &[(1, 0, 0xff, 0x4_0101)],
        Err(DeriveFault::OtherSize(0x14)),
    ),
    Row(
        &[(0x04, 2), (0x18, 0xe000_0000), (0x30, 0xfebe_0001)],
        &[(3, 0, 0xff, 0x4_0101)],
        Err(DeriveFault::NoSize(0x18)),
    ),
    // headers that aren't decoded
    Row(
        &[(0x00, 0xffff), (0x0c, 0x0002_0000)],
        &[],
        Err(DeriveFault::Header(ImageFault::NoVendor)),
    ),
    Row(
        &[(0x04, 2), (0x0c, 0x0002_0000), (0x10, 0xe000_0000)],
        &[],
        Err(DeriveFault::Header(ImageFault::HeaderKind)),
    ),
];

/// The rows. A function that names the table itself is proved over all of it once more.
pub fn rows() -> &'static [Row] {
    &ROWS
}
