//! Base Address registers (PCI 3.0, 6.2.5.1).
ghost use Rattle.std.specs.Prelude.{◌≡◌, ◌+◌, ◌*◌, ◌%◌, ◌^◌, ◌<◌, ◌≤◌, ◌↔◌, false, IsTrue, MatchResult, MatchOption, IsOk, IfOk, OnOk, IfErr, None, map, All};
ghost use Rattle.pci_spec.specs.Decoded.{decoded_bars};
ghost use Rattle.pci_spec.specs.Number.{number_at};
ghost use Rattle.pci_spec.specs.Bar as bar;
ghost use Rattle.pci_spec.specs.Bar.{bar_fault, bar_kind, bar_reading, first_broken, is_prefetchable, has_lawful_size, is_lawful, first_bit};
ghost use Rattle.pci_spec.specs.Header.{bar_count, bar_register, layout};
ghost use Rattle.pci_spec.specs.Listing.{kind_space};
ghost use Rattle.pci_base.specs.Space.{space_of};
ghost use Rattle.pci_image.specs.Bars.{decoded_kind_of, decoded_bar_of, HasLawfulBars, IsBarFault, IsLowestBarFault, IsComparedBar, IsDecodedAt, IsPlaced, broken_encoding, broken_size};
ghost use Rattle.pci_image.specs.Faults.{IsImageFaultIn, HasNoHeaderFaultBefore, image_fault_number};

use super::comparator::{aligned, fits_within, run_start};
use super::fault::ImageFault;
use super::header::Header;
use arrayvec::ArrayVec;
use pci_base::image::Image;
use pci_base::offset::BASE_ADDRESS;
use pci_base::range::Range;
use pci_base::space::Space;

/// What a BAR maps into, and how wide its register is.
#[derive(Clone, Copy, Debug, PartialEq, Eq)]
pub enum BarKind {
    /// I/O space.
    Io,
    /// Memory space, by a 32-bit register.
    Mem32,
    /// Memory space, by two registers; the second one is the upper half.
    Mem64,
}

/// An implemented BAR: the addresses from `first` to `last`, both of them too, are those that it
/// answers.
#[derive(Clone, Copy, Debug, PartialEq, Eq)]
pub struct Bar {
    /// The byte offset of its register; of a 64-bit BAR, that of its lower half.
    pub reg: u8,
    pub kind: BarKind,
    /// Whether it maps prefetchable memory.
    pub prefetch: bool,
    pub first: u64,
    pub last: u64,
}

/// Fills the places of a list that no BAR takes yet.
impl Default for Bar {
    fn default() -> Bar {
        Bar {
            reg: BASE_ADDRESS,
            kind: BarKind::Mem32,
            prefetch: false,
            first: 0,
            last: 0,
        }
    }
}

impl BarKind {
    /// The space that it maps into.
    pub fn space(self) -> Space
        ensures { space_of result ≡ kind_space (decoded_kind_of self) }
    {
        match self {
            BarKind::Io => Space::Io,
            BarKind::Mem32 | BarKind::Mem64 => Space::Mem,
        }
    }

    /// How many encodings the low bits of a BAR's register have: bits 1:0 for I/O, bits 3:0 for
    /// memory (6.2.5.1).
    fn encodings(self) -> u32
        ensures { result ≡ 2 ^ first_bit (decoded_kind_of self) }
    {
        match self {
            BarKind::Io => 4,
            BarKind::Mem32 | BarKind::Mem64 => 16,
        }
    }
}

impl Bar {
    /// What the BAR's registers hold, both together where it has two, to answer addresses from a
    /// first one on: that address, over the encoding that stands in its register.
    pub fn value_from(&self, register: u32, first: u64) -> u64
        // the registers hold no more; a multiple of the BAR's size leaves room for the encoding
        requires { first + register % 2 ^ first_bit (decoded_kind_of self.now.kind) < 2 ^ 64 }
        ensures { result ≡ first + register % 2 ^ first_bit (decoded_kind_of self.now.kind) }
    {
        first + u64::from(register % self.kind.encodings())
    }
}

/// Bit 1 of an I/O register, which is reserved.
const IO_RESERVED: u32 = 0b10;

/// Bits 2:1 of a memory register: its type. Two types are reserved.
const MEMORY_TYPE: u32 = 0b110;

/// The type of a 32-bit memory BAR.
const MEMORY_32: u32 = 0b000;

/// The type of a 64-bit memory BAR.
const MEMORY_64: u32 = 0b100;

/// Bit 3 of a memory register: the memory is prefetchable.
const PREFETCHABLE: u32 = 0b1000;

/// The bits of an I/O register that hold no address.
const IO_ENCODING: u32 = 0b11;

/// The bits of a memory register that hold no address.
const MEMORY_ENCODING: u32 = 0b1111;

/// The binary logarithm of the largest size of an I/O BAR, 256 addresses (6.2.5.1).
const IO_LARGEST: u32 = 8;

/// Whether a BAR maps into I/O space, by bit 0 of its register; of two registers together it is that of the lower one
/// (6.2.5.1).
pub fn is_io(register: u64) -> bool
    ensures { result ≡ bar.is_io register }
{
    register % 2 == 1
}

/// Whether a register is the lower half of a 64-bit memory BAR: bit 0 is clear, bits 2:1 are 10b (6.2.5.1).
pub fn is_wide(register: u32) -> bool
    ensures { result ≡ bar.is_wide register }
{
    !is_io(u64::from(register)) && register / 2 % 4 == 2
}

/// The kind of an implemented BAR, by its value and its read back.
fn kind_of(reg: u8, value: u32, mask: u32) -> Result<BarKind, ImageFault>
    ensures { MatchResult result
        (λ kind. (broken_encoding value mask ≡ None) × (decoded_kind_of kind ≡ bar_kind mask))
        (IsBarFault reg (broken_encoding value mask)) }
{
    if is_io(u64::from(mask)) {
        return if value & IO_ENCODING == mask & IO_ENCODING && mask & IO_RESERVED == 0 {
            Ok(BarKind::Io)
        } else {
            Err(ImageFault::BarMask(reg))
        };
    }
    if value & MEMORY_ENCODING != mask & MEMORY_ENCODING {
        return Err(ImageFault::BarMask(reg));
    }
    match mask & MEMORY_TYPE {
        MEMORY_32 => Ok(BarKind::Mem32),
        MEMORY_64 => Ok(BarKind::Mem64),
        _ => Err(ImageFault::BarType(reg)),
    }
}

/// Whether BAR register n starts a BAR, and is not the upper half of one, by what registers read
/// back.
pub fn starts_bar(probe: &Image, n: u8) -> bool
    // no header has more BAR registers, and all below n are looked at
    requires { n < 6 }
    ensures { result ≡ bar.starts_bar probe.now.0 n }
{
    let mut starts = true;
    for i in 0..n {
        let before = probe.u32(BASE_ADDRESS + 4 * i);
        starts = !(starts && is_wide(before));
    }
    starts
}

/// Whether a register is of a prefetchable memory BAR.
fn is_prefetchable(mask: u32) -> bool
    ensures { result ≡ is_prefetchable mask }
{
    !is_io(u64::from(mask)) && mask & PREFETCHABLE != 0
}

/// The binary logarithm k of a BAR's size, by its read back: it has 2 ^ k addresses.
///
/// An I/O BAR may leave bits 31:16 out (6.2.5.1).
fn size_log2(kind: BarKind, mask: u64) -> Option<u32>
    ensures { MatchOption result (has_lawful_size (decoded_kind_of kind) mask ≡ false)
        (λ k. IsTrue (is_lawful (decoded_kind_of kind) mask k)) }
{
    match kind {
        BarKind::Io => {
            let start = run_start(mask, 2, 31).or(run_start(mask, 2, 15))?;
            if start <= IO_LARGEST {
                Some(start)
            } else {
                None
            }
        }
        BarKind::Mem32 => run_start(mask, 4, 31),
        BarKind::Mem64 => run_start(mask, 4, 63),
    }
}

/// The 64 bits of two registers, the first one being the lower half.
fn pair_at(image: &Image, reg: u8) -> u64
    requires aligned { reg % 4 ≡ 0 }
    requires room { reg < 252 }
    ensures { result ≡ number_at image.now.0 reg 4 + 2 ^ 32 * number_at image.now.0 (reg + 4) 4 }
{
    u64::from(image.u32(reg + 4)) << 32 | u64::from(image.u32(reg))
}

/// The BAR with this value and read back, both halves of a 64-bit one.
fn placed(reg: u8, kind: BarKind, prefetch: bool, value: u64, mask: u64) -> Result<Bar, ImageFault>
    ensures { MatchResult result
        (λ bar. (broken_size (decoded_kind_of kind) value mask ≡ None)
        × IsPlaced reg (decoded_kind_of kind) prefetch value mask bar)
        (IsBarFault reg (broken_size (decoded_kind_of kind) value mask)) }
{
    let Some(log2) = size_log2(kind, mask) else {
        return Err(ImageFault::BarMask(reg));
    };
    if !fits_within(value, mask) {
        return Err(ImageFault::BarMask(reg));
    }
    let Range { first, last } = aligned(value, log2);
    Ok(Bar {
        reg,
        kind,
        prefetch,
        first,
        last,
    })
}

/// What BAR register `n` decodes to, where it starts a BAR; `last` says that no register follows.
fn decode_register(
    image: &Image,
    probe: &Image,
    n: u8,
    last: bool,
) -> Result<Option<Bar>, ImageFault>
    requires { n < 6 }
    ensures { MatchResult result
        (λ found. (first_broken (bar_reading last image.now.0 probe.now.0 n) ≡ None)
        × IsDecodedAt image.now.0 probe.now.0 n found)
        (IsBarFault (bar_register n) (first_broken (bar_reading last image.now.0 probe.now.0 n))) }
{
    let reg = BASE_ADDRESS + 4 * n;
    let value = image.u32(reg);
    let mask = probe.u32(reg);
    if mask == 0 {
        return if value == 0 {
            Ok(None)
        } else {
            Err(ImageFault::BarMask(reg))
        };
    }
    let kind = kind_of(reg, value, mask)?;
    let prefetch = is_prefetchable(mask);
    let bar = match kind {
        BarKind::Io | BarKind::Mem32 => placed(reg, kind, prefetch, value.into(), mask.into())?,
        BarKind::Mem64 if last => return Err(ImageFault::BarPair(reg)),
        BarKind::Mem64 => placed(
            reg,
            kind,
            prefetch,
            pair_at(image, reg),
            pair_at(probe, reg),
        )?,
    };
    Ok(Some(bar))
}

/// The first rule that the BAR of register `n` breaks, where it starts one: 22 `BarType`, 23 `BarMask` or 24 `BarPair`.
/// `count` is how many BAR registers the header has.
pub fn bar_fault(image: &Image, probe: &Image, n: u8, count: u8) -> Option<ImageFault>
    // no header has more BAR registers, and a 64-bit BAR takes the next one too
    requires register { n < 6 }
    // only the last register has none after it
    requires count { count ≡ bar_count (layout image.now.0) }
    ensures { MatchOption result (bar_fault image.now.0 probe.now.0 n ≡ None)
        (IsBarFault (bar_register n) (bar_fault image.now.0 probe.now.0 n)) }
{
    if !starts_bar(probe, n) {
        return None;
    }
    match decode_register(image, probe, n, n + 1 == count) {
        Ok(_) => None,
        Err(fault) => Some(fault),
    }
}

/// Fills a list with the implemented BARs of a function, in the order of their registers. What the list held before is
/// let go.
///
/// A 64-bit BAR takes the register after its own as its upper half. `probe` holds what the registers
/// read back after all ones were written to them.
///
/// # Errors
///
/// 20 `NoVendor` and 21 `HeaderKind` as [`Header::of`]; then the first rule that the lowest faulty
/// register breaks: 22 `BarType`, 23 `BarMask` or 24 `BarPair`.
pub fn bars_into(
    image: &Image,
    probe: &Image,
    found: &mut ArrayVec<Bar, 6>,
) -> Result<(), ImageFault>
    // both ways: BARs that keep the rules are never refused
    ensures lawful { IsOk result ↔ HasLawfulBars image.now.0 probe.now.0 }
    ensures decoded { OnOk result
        (map decoded_bar_of found.new.items ≡ decoded_bars image.now.0 probe.now.0) }
    // said of single addresses, as the rules know no ranges: the two are joined here
    ensures compared { OnOk result (All (IsComparedBar image.now.0 probe.now.0) found.new.items) }
    ensures fault { IfErr result
        (λ f. IsImageFaultIn image.now.0 probe.now.0 f × (image_fault_number f ≤ 24)) }
    // decoding names the first fault of all its parts by the next two
    ensures header { IfErr result (HasNoHeaderFaultBefore image.now.0) }
    ensures lowest { IfErr result (IsLowestBarFault image.now.0 probe.now.0) }
{
    let count = Header::of(image)?.bar_count();
    found.clear();
    let mut is_upper_half = false;
    for n in 0..count {
        if is_upper_half {
            is_upper_half = false;
        } else if let Some(bar) = decode_register(image, probe, n, n + 1 == count)? {
            is_upper_half = bar.kind == BarKind::Mem64;
            found.push(bar);
        }
    }
    Ok(())
}

/// The implemented BARs of a function, as [`bars_into`] gives them.
///
/// # Errors
///
/// As of [`bars_into`].
pub fn bars(image: &Image, probe: &Image) -> Result<ArrayVec<Bar, 6>, ImageFault>
    ensures lawful { IsOk result ↔ HasLawfulBars image.now.0 probe.now.0 }
    ensures decoded { IfOk result
        (λ v. map decoded_bar_of v.items ≡ decoded_bars image.now.0 probe.now.0) }
    ensures compared { IfOk result (λ v. All (IsComparedBar image.now.0 probe.now.0) v.items) }
    ensures fault { IfErr result
        (λ f. IsImageFaultIn image.now.0 probe.now.0 f × (image_fault_number f ≤ 24)) }
    // so 20 comes before 21, and both before what registers have
    ensures header { IfErr result (HasNoHeaderFaultBefore image.now.0) }
    ensures lowest { IfErr result (IsLowestBarFault image.now.0 probe.now.0) }
{
    let mut found = ArrayVec::new();
    bars_into(image, probe, &mut found)?;
    Ok(found)
}
