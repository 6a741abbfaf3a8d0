//! Sizing: what the address registers of a function read back after ones were written to them
//! (PCI 3.0, 6.2.5.1).
//!
//! Ones in an address register would let the function decode addresses that belong to others. So
//! its decode bits are cleared first, and put back at the end.
ghost use Rattle.std.specs.Prelude.{◌≡◌, ◌≢◌, ◌+◌, ◌%◌, ℕ, List, None, IsTrue, IsFalse, IsOk, IfOk, IfErr, OnOk, OnErr, IfSome, MatchOption};
ghost use Rattle.pci_spec.specs.Registers as table;
ghost use Rattle.pci_spec.specs.Header.{command};
ghost use Rattle.pci_spec.specs.Header as header;
ghost use Rattle.pci_spec.specs.Machine.{sized};
ghost use Rattle.pci_spec.specs.Fault.{has_no_vendor, has_other_layout};
ghost use Rattle.pci_spec.specs.Port as ports;
ghost use Rattle.pci_spec.specs.Sizing.{function_at, DiffersInRegisters, IsSizable, IsStuck, is_written_to};
ghost use Rattle.pci_image.specs.Layouts.{layout_number};
ghost use Rattle.pci_machine.specs.Failing.{Fails, FirstFailed};
ghost use Rattle.pci_machine.specs.Outcome.{failures_of_stop};
ghost use Rattle.pci_machine.specs.SizeOutcome.{SizingLeaves, TellsOffset, failures_of_size};

use crate::access_at::{AccessFault, read_at};
use crate::port::{ConfigPort, PortError};
use crate::quiet::{COMMAND_WIDTH, DECODE_BITS, Quiet};
use crate::read_backs::read_backs;
use crate::size_fault::SizeFault;
use pci_base::image::Image;
use pci_base::offset::{COMMAND, HEADER_TYPE, VENDOR_ID};
use pci_base::slot::Slot;
use pci_image::fault::ImageFault;
use pci_image::header::NO_VENDOR;
use pci_image::layout::Layout;

/// What the address registers of the function at a slot read back, in an image that has 0
/// elsewhere. No memory is taken, and all functions are as they were.
///
/// # Errors
///
/// 20 and 21 (`Header`): the function doesn't answer, or its layout isn't decoded; nothing was
/// written. 44 (`Stuck`): a decode bit can't be cleared; all is as it was. 43 (`Port`): an access
/// failed, or there is no function; without a `command` it was to Vendor ID, Header Type or Command
/// and nothing was written, with one to Command or an address register.
pub fn size<P: ConfigPort>(port: &mut P, slot: Slot) -> Result<Image, SizeFault>
    ensures read_backs { IfOk result
        (λ image. image.0 ≡ sized (function_at (P.targets port.old) slot)) }
    ensures unchanged { OnOk result (P.targets port.new ≡ P.targets port.old) }
    // this and the next three are what `succeeds` asks for, so an Ok tells it all
    ensures there { OnOk result (IsTrue (ports.has_function (P.targets port.old) slot)) }
    ensures vendor { OnOk result
        (IsFalse (has_no_vendor (function_at (P.targets port.old) slot).image)) }
    // of another layout it isn't known where address registers are
    ensures header { OnOk result
        (IsFalse (has_other_layout (function_at (P.targets port.old) slot).image)) }
    ensures not_stuck { OnOk result (IsStuck (function_at (P.targets port.old) slot) → ⊥) }
    // a machine in memory never fails, so its functions are sized without an error to handle
    ensures succeeds { IsSizable (P.targets port.old) slot
        → P.failures port.new ≡ P.failures port.old → IsOk result }
    ensures fault { IfErr result (SizingLeaves (P.targets port.old) slot (P.targets port.new)) }
    // the offset is that of the access that failed, which was the first to fail, and the last one
    ensures failed { IfErr result (TellsOffset (λ offset.
        FirstFailed P.failures (Fails P.reads P.writes slot offset) port.old port.new)) }
    // told by the first read, before anything is written
    ensures missing { IsFalse (ports.has_function (P.targets port.old) slot)
        → result ≡ Err (SizeFault.Port table.VENDOR_ID PortError.NoFunction None) }
    ensures counted { P.failures port.new ≡ P.failures port.old + failures_of_size result }
{
    let layout = layout_at(port, slot)?;
    let quiet = match Quiet::begin(port, slot) {
        Ok(quiet) => quiet,
        Err(stop) => return Err(stopped(stop, None)),
    };
    let found = match read_when_quiet(port, slot, layout) {
        Ok(found) => found,
        Err(stop) => return Err(stopped(stop, Some(quiet.give_up()))),
    };
    match quiet.end(port, slot) {
        Ok(()) => match found {
            Some(image) => Ok(image),
            None => Err(SizeFault::Stuck),
        },
        Err((stop, command)) => Err(stopped(stop, Some(command))),
    }
}

/// The layout of the header of the function at a slot.
fn layout_at<P: ConfigPort>(port: &mut P, slot: Slot) -> Result<Layout, SizeFault>
    ensures there { OnOk result (IsTrue (ports.has_function (P.targets port.old) slot)) }
    ensures vendor { OnOk result
        (IsFalse (has_no_vendor (function_at (P.targets port.old) slot).image)) }
    ensures header { OnOk result
        (IsFalse (has_other_layout (function_at (P.targets port.old) slot).image)) }
    ensures layout { IfOk result (λ known. header.layout (function_at (P.targets port.old) slot).image
        ≡ layout_number known) }
    ensures fault { IfErr result (SizingLeaves (P.targets port.old) slot (P.targets port.new)) }
    ensures failed { IfErr result (TellsOffset (λ offset.
        FirstFailed P.failures (Fails P.reads P.writes slot offset) port.old port.new)) }
    ensures missing { IsFalse (ports.has_function (P.targets port.old) slot)
        → result ≡ Err (SizeFault.Port table.VENDOR_ID PortError.NoFunction None) }
    ensures same { P.targets port.new ≡ P.targets port.old }
    ensures counted { P.failures port.new ≡ P.failures port.old + failures_of_size result }
    ensures lawful { ports.IsLawful (P.targets port.new) }
{
    let vendor = match port.read(slot, VENDOR_ID, 2) {
        Ok(vendor) => vendor,
        Err(fault) => {
            return Err(SizeFault::Port {
                offset: VENDOR_ID,
                fault,
                command: None,
            });
        }
    };
    if vendor == u32::from(NO_VENDOR) {
        return Err(SizeFault::Header(ImageFault::NoVendor));
    }
    let header = match read_at(port, slot, HEADER_TYPE, 1) {
        Ok(header) => header,
        Err(stop) => return Err(stopped(stop, None)),
    };
    match Layout::of_header_type(header as u8) {
        Some(layout) => Ok(layout),
        None => Err(SizeFault::Header(ImageFault::HeaderKind)),
    }
}

/// The fault of an access that failed.
fn stopped(stop: AccessFault, command: Option<u16>) -> SizeFault
    ensures { result ≡ SizeFault.Port stop.offset stop.fault command }
{
    SizeFault::Port {
        offset: stop.offset,
        fault: stop.fault,
        command,
    }
}

/// What the address registers read back, if Command shows no decode bit.
fn read_when_quiet<P: ConfigPort>(
    port: &mut P,
    slot: Slot,
    layout: Layout,
) -> Result<Option<Image>, AccessFault>
    requires there { IsTrue (ports.has_function (P.targets port.old) slot) }
    requires lawful { ports.IsLawful (P.targets port.old) }
    requires header { header.layout (function_at (P.targets port.old) slot).image
        ≡ layout_number layout }
    ensures read_backs { IfOk result
        (λ found. IfSome found (λ image. image.0 ≡ sized (function_at (P.targets port.old) slot))) }
    ensures quiet { IfOk result
        (λ found. MatchOption found (command (function_at (P.targets port.old) slot).image % 4 ≢ 0)
        (λ _. command (function_at (P.targets port.old) slot).image % 4 ≡ 0)) }
    ensures kept { OnOk result (P.targets port.new ≡ P.targets port.old) }
    ensures stop { IfErr result (λ stop. (stop.fault ≡ PortError.Failed)
        × IsTrue
        (is_written_to (header.layout (function_at (P.targets port.old) slot).image) stop.offset)) }
    ensures failed { IfErr result (λ stop.
        FirstFailed P.failures (Fails P.reads P.writes slot stop.offset) port.old port.new) }
    ensures left { OnErr result
        ((image : List ℕ) × (P.targets port.new ≡ ports.with_image (P.targets port.old) slot image)
        × DiffersInRegisters (function_at (P.targets port.old) slot).image image) }
    ensures counted { P.failures port.new ≡ P.failures port.old + failures_of_stop result }
    ensures there { IsTrue (ports.has_function (P.targets port.new) slot) }
    ensures lawful { ports.IsLawful (P.targets port.new) }
{
    let command = read_at(port, slot, COMMAND, COMMAND_WIDTH)?;
    if command & u32::from(DECODE_BITS) != 0 {
        return Ok(None);
    }
    let image = read_backs(port, slot, layout)?;
    Ok(Some(image))
}
