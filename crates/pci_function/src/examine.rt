//! What is wrong with one function by itself, in the order in which it is looked for: its identity and its probe, its
//! registers and capabilities list, its profile.
ghost use Rattle.std.specs.Prelude.{MatchResult};
ghost use Rattle.pci_function.specs.Fault.{fault_of};
ghost use Rattle.pci_function.specs.Profile.{IsExamined, IsFirstFault};

use super::decode::decode_into;
use super::fault::Fault;
use super::profile::{identity_fault, profile_fault};
use super::record::Record;
use arrayvec::ArrayVec;
use pci_base::image::Image;
use pci_base::slot::Slot;
use pci_image::capability::add_places;

/// Fills a record with what a function decodes to. What the record held before is let go.
///
/// # Errors
///
/// Its first fault: 20 `NoVendor`, 21 `HeaderKind`, 31 `StrayProbe`; then 22 to 26 of its registers and 27 to 29 of its
/// capabilities list; then 51 to 56 of its profile.
pub fn examine_into(
    slot: Slot,
    image: &Image,
    probe: &Image,
    decoded: &mut Record,
) -> Result<(), Fault>
    // a function with a record has no fault by itself, so only places and regions are left
    ensures { MatchResult result (λ _. IsExamined record {
      slot = slot;
      image = image.now.0;
      probe = probe.now.0;
    } decoded.new)
        (λ e. IsFirstFault record { slot = slot; image = image.now.0; probe = probe.now.0 }
        (fault_of e)) }
{
    match identity_fault(slot, image, probe) {
        Some(fault) => return Err(fault),
        None => {}
    }
    match decode_into(slot, image, probe, decoded) {
        Ok(()) => {}
        Err(fault) => return Err(Fault::of_image(slot, fault)),
    }
    let mut places = ArrayVec::new();
    match add_places(image, &mut places) {
        Ok(()) => {}
        Err(fault) => return Err(Fault::of_image(slot, fault)),
    }
    match profile_fault(slot, image, probe, &places) {
        Some(fault) => Err(fault),
        None => Ok(()),
    }
}

/// The record of a function, as [`examine_into`] fills it in.
///
/// # Errors
///
/// As of [`examine_into`].
pub fn examine(slot: Slot, image: &Image, probe: &Image) -> Result<Record, Fault>
    ensures { MatchResult result (IsExamined record {
      slot = slot;
      image = image.now.0;
      probe = probe.now.0;
    })
        (λ e. IsFirstFault record { slot = slot; image = image.now.0; probe = probe.now.0 }
        (fault_of e)) }
{
    let mut decoded = Record::blank(slot);
    examine_into(slot, image, probe, &mut decoded)?;
    Ok(decoded)
}
