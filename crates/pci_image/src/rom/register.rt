//! The Expansion ROM Base Address register (PCI 3.0, 6.2.5.2; Bridge 1.2, 3.2.5).
ghost use Rattle.std.specs.Prelude.{◌≡◌, ◌^◌, ◌↔◌, false, IsTrue, MatchOption, IsOk, IfOk, IfErr};
ghost use Rattle.std.specs.Option.{option_map};
ghost use Rattle.pci_spec.specs.Number.{some_from, lowest_one};
ghost use Rattle.pci_spec.specs.Rom.{is_rom_size};
ghost use Rattle.pci_spec.specs.Decoded.{aligned_range, decoded_rom};
ghost use Rattle.pci_image.specs.Faults.{IsImageFaultIn, HasNoHeaderFaultBefore};
ghost use Rattle.pci_image.specs.Roms.{decoded_rom_of, HasLawfulRom, IsComparedRom, is_lawful_rom, is_rom_fault};
ghost use Rattle.pci_base.specs.Ranges.{decoded_range_of};

use super::Rom;
use crate::comparator::{aligned, fits_within, run_start};
use crate::fault::ImageFault;
use crate::header::Header;
use pci_base::image::Image;
use pci_base::range::Range;

/// Bit 0 enables the ROM, and is no part of its address.
const ENABLE: u64 = 0b1;

/// The binary logarithm of the smallest size, 2 KB: the register has no lower address bits (6.2.5.2).
const SMALLEST: u32 = 11;

/// The binary logarithm of the largest size, 16 MB (6.2.5.2).
const LARGEST: u32 = 24;

/// The binary logarithm k of a ROM's size, by its read back: it has 2 ^ k addresses.
fn size_log2(mask: u64) -> Option<u32>
    ensures { MatchOption result (some_from 0 64 (is_rom_size mask) ≡ false)
        (λ k. IsTrue (is_rom_size mask k)) }
{
    let start = run_start(mask, 0, 31)?;
    if start < SMALLEST || LARGEST < start {
        None
    } else {
        Some(start)
    }
}

/// The addresses that a ROM with this value and read back answers, where they are lawful.
fn placed(value: u64, mask: u64) -> Option<Range>
    ensures { MatchOption result (is_lawful_rom value mask ≡ false)
        (λ range. IsTrue (is_lawful_rom value mask)
        × (decoded_range_of range ≡ aligned_range value (2 ^ lowest_one 0 mask))) }
{
    let log2 = size_log2(mask)?;
    if fits_within(value & !ENABLE, mask) {
        Some(aligned(value, log2))
    } else {
        None
    }
}

/// The expansion ROM of a function, where it is implemented.
///
/// `probe` holds what the register reads back after ones were written to its address bits.
///
/// # Errors
///
/// 20 `NoVendor` and 21 `HeaderKind` as [`Header::of`]; 25 `RomMask` where the read back is of no
/// size, or the value has a one outside it other than the enable bit.
pub fn rom(image: &Image, probe: &Image) -> Result<Option<Rom>, ImageFault>
    ensures lawful { IsOk result ↔ HasLawfulRom image.now.0 probe.now.0 }
    ensures decoded { IfOk result
        (λ found. option_map decoded_rom_of found ≡ decoded_rom image.now.0 probe.now.0) }
    // of no ROM it says that no address is answered
    ensures compared { IfOk result (IsComparedRom image.now.0 probe.now.0) }
    // no fault of a BAR: these were looked at before
    ensures fault { IfErr result
        (λ f. IsImageFaultIn image.now.0 probe.now.0 f × IsTrue (is_rom_fault f)) }
    // so 20 comes before 21, and both before what the register has
    ensures header { IfErr result (HasNoHeaderFaultBefore image.now.0) }
{
    let reg = Header::of(image)?.rom_register();
    let value = u64::from(image.u32(reg));
    let mask = u64::from(probe.u32(reg));
    if value == 0 && mask == 0 {
        return Ok(None);
    }
    let Some(Range { first, last }) = placed(value, mask) else {
        return Err(ImageFault::RomMask(reg));
    };
    Ok(Some(Rom {
        reg,
        on: value & ENABLE != 0,
        first,
        last,
    }))
}
