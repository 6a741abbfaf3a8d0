//! What the registers of one function decode to: its record, from its image and its read backs.
ghost use Rattle.std.specs.Prelude.{◌≤◌, IfErr, MatchResult};
ghost use Rattle.pci_spec.specs.Order.{phase_key, Decoding};
ghost use Rattle.pci_image.specs.Faults.{IsImageFaultIn, image_fault_number};
ghost use Rattle.pci_image.specs.Windows.{IsLowestWindowFault};
ghost use Rattle.pci_function.specs.Fault.{image_fault_at};
ghost use Rattle.pci_function.specs.Profile.{IsFirstOf};
ghost use Rattle.pci_function.specs.Decoding.{IsBridgeAt, IsRecordOf};

use super::record::{Bridge, Record};
use pci_base::image::Image;
use pci_base::offset::{COMMAND, PRIMARY_BUS, SECONDARY_BUS, SUBORDINATE_BUS};
use pci_base::slot::Slot;
use pci_image::bar::bars_into;
use pci_image::fault::ImageFault;
use pci_image::header::Header;
use pci_image::rom::register::rom;
use pci_image::window::Windows;

/// Fills in the bus numbers and windows of a function, where it is a bridge.
fn bridge_into(image: &Image, probe: &Image, bridge: &mut Option<Bridge>) -> Result<(), ImageFault>
    ensures bridge { MatchResult result (λ _. IsBridgeAt image.now.0 probe.now.0 bridge.new)
        (IsImageFaultIn image.now.0 probe.now.0) }
    ensures lowest { IfErr result (IsLowestWindowFault image.now.0 probe.now.0) }
{
    match Header::of(image)? {
        Header::Type0(_) => *bridge = None,
        Header::Type1(_) => {
            let windows = Windows::of(image, probe)?;
            *bridge = Some(Bridge {
                primary: image.u8(PRIMARY_BUS),
                secondary: image.u8(SECONDARY_BUS),
                subordinate: image.u8(SUBORDINATE_BUS),
                windows,
            });
        }
    }
    Ok(())
}

/// Fills a record with what a function decodes to. What the record held before is let go.
///
/// # Errors
///
/// 20 `NoVendor` and 21 `HeaderKind` where it isn't a function that decodes; else the first fault of its registers, in
/// the order of BARs (22 to 24), ROM (25) and windows (26).
pub fn decode_into(
    slot: Slot,
    image: &Image,
    probe: &Image,
    decoded: &mut Record,
) -> Result<(), ImageFault>
    // judging keeps no image, so all that it asks of a function later stands in the record
    ensures decoded { MatchResult result (λ _. IsRecordOf record {
      slot = slot;
      image = image.now.0;
      probe = probe.now.0;
    } decoded.new) (IsImageFaultIn image.now.0 probe.now.0) }
    // never 27 to 29: a machine in memory has the header alone, and refuses no list
    ensures number { IfErr result (λ e. image_fault_number e ≤ 26) }
    // whoever decodes all functions in turn so comes to the first fault of all
    ensures first { IfErr result (λ e. IsFirstOf (phase_key Decoding) record {
      slot = slot;
      image = image.now.0;
      probe = probe.now.0;
    } (image_fault_at slot e)) }
{
    bars_into(image, probe, &mut decoded.bars)?;
    decoded.rom = rom(image, probe)?;
    bridge_into(image, probe, &mut decoded.bridge)?;
    decoded.slot = slot;
    decoded.command = image.u16(COMMAND);
    Ok(())
}

/// The record of a function, as [`decode_into`] fills it in.
///
/// # Errors
///
/// As of [`decode_into`].
pub fn decode(slot: Slot, image: &Image, probe: &Image) -> Result<Record, ImageFault>
    ensures decoded { MatchResult result (IsRecordOf record {
      slot = slot;
      image = image.now.0;
      probe = probe.now.0;
    }) (IsImageFaultIn image.now.0 probe.now.0) }
    ensures number { IfErr result (λ e. image_fault_number e ≤ 26) }
    ensures first { IfErr result (λ e. IsFirstOf (phase_key Decoding) record {
      slot = slot;
      image = image.now.0;
      probe = probe.now.0;
    } (image_fault_at slot e)) }
{
    let mut decoded = Record::blank(slot);
    decode_into(slot, image, probe, &mut decoded)?;
    Ok(decoded)
}
