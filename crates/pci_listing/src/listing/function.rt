//! The lines of one function, appended to a text.
ghost use Rattle.std.specs.Prelude.{◌≡◌, ◌++◌, map, OnOk, IfErr, option_map};
ghost use Rattle.std.specs.List.{flat_map, All};
ghost use Rattle.std.specs.String.{string_bytes};
ghost use Rattle.pci_spec.specs.Listing.{bar_line, rom_lines, bridge_lines, capability_line, function_listing};
ghost use Rattle.pci_image.specs.Bars.{decoded_bar_of};
ghost use Rattle.pci_image.specs.Caps.{place_of};
ghost use Rattle.pci_image.specs.Roms.{decoded_rom_of};
ghost use Rattle.pci_function.specs.Values.{bridge_value, record_value};
ghost use Rattle.pci_listing.specs.CapabilityLines.{IsListed};
ghost use Rattle.pci_listing.specs.FunctionLines.{record_lines};
ghost use Rattle.pci_listing.specs.Shows.{IsListable, IsRefusedFor};

use super::bridge::{BusLine, push_window};
use super::capability::CapabilityLine;
use super::header::HeaderLine;
use super::region::{BarLine, RomLine};
use pci_base::image::Image;
use pci_base::memory::Refused;
use pci_base::slot::Slot;
use pci_base::window_kind::WindowKind;
use pci_function::decode::decode;
use pci_function::fault::Fault;
use pci_function::record::{Bridge, Record};
use pci_image::bar::Bar;
use pci_image::capability::{Cap, chain};
use pci_image::layout::Layout;
use pci_image::rom::Rom;
use std::alloc::{AllocError, Allocator};

/// Appends a line for each BAR.
fn push_bars<A: Allocator>(text: &mut String<A>, bars: &[Bar]) -> Result<(), AllocError>
    ensures { OnOk result (string_bytes text.new
        ≡ string_bytes text.old ++ flat_map bar_line (map decoded_bar_of bars.now)) }
{
    for bar in bars {
        BarLine::of(*bar).push_to(text)?;
    }
    Ok(())
}

/// Appends the line of a ROM, where there is one.
fn push_rom<A: Allocator>(text: &mut String<A>, rom: Option<Rom>) -> Result<(), AllocError>
    ensures { OnOk result (string_bytes text.new
        ≡ string_bytes text.old ++ rom_lines (option_map decoded_rom_of rom)) }
{
    if let Some(rom) = rom {
        RomLine::of(rom).push_to(text)?;
    }
    Ok(())
}

/// Appends the lines of a bridge: its bus numbers and its windows.
fn push_bridge<A: Allocator>(text: &mut String<A>, bridge: Bridge) -> Result<(), AllocError>
    ensures { OnOk result
        (string_bytes text.new ≡ string_bytes text.old ++ bridge_lines (bridge_value bridge)) }
{
    let Bridge {
        primary,
        secondary,
        subordinate,
        windows,
    } = bridge;
    let buses = BusLine {
        primary,
        secondary,
        subordinate,
    };
    buses.push_to(text)?;
    push_window(text, WindowKind::Io, windows.io)?;
    push_window(text, WindowKind::Memory, Some(windows.mem))?;
    push_window(text, WindowKind::Prefetchable, windows.pref)
}

/// Appends a line for each capability of an image's list.
fn push_capabilities<A: Allocator>(
    text: &mut String<A>,
    image: &Image,
    caps: &[Cap<'_>],
) -> Result<(), AllocError>
    requires { All (IsListed image.now.0) caps.now }
    ensures { OnOk result (string_bytes text.new
        ≡ string_bytes text.old ++ flat_map (capability_line image.now.0) (map place_of caps.now)) }
{
    for cap in caps {
        CapabilityLine::of(image, *cap).push_to(text)?;
    }
    Ok(())
}

/// Appends the lines of a record: its BARs, its ROM, and its bus numbers and windows.
fn push_record<A: Allocator>(text: &mut String<A>, decoded: &Record) -> Result<(), AllocError>
    ensures { OnOk result
        (string_bytes text.new ≡ string_bytes text.old ++ record_lines (record_value decoded.now)) }
{
    push_bars(text, decoded.bars.as_slice())?;
    push_rom(text, decoded.rom)?;
    match decoded.bridge {
        None => Ok(()),
        Some(bridge) => push_bridge(text, bridge),
    }
}

/// Appends the lines of a function.
///
/// Errors: the first fault of its registers, 20 to 26, or of its capabilities list, 27 to 29; or
/// `Memory`. Some of the lines may stand in the text then.
pub fn push_function<A: Allocator>(
    text: &mut String<A>,
    slot: Slot,
    image: &Image,
    probe: &Image,
) -> Result<(), Refused<Fault>>
    ensures ok { OnOk result (string_bytes text.new ≡ string_bytes text.old
        ++ function_listing record { slot = slot; image = image.now.0; probe = probe.now.0 }) }
    // so that who lists each function in turn knows that none has a fault
    ensures listable { OnOk result (IsListable record {
      slot = slot;
      image = image.now.0;
      probe = probe.now.0;
    }) }
    ensures refused { IfErr result (IsRefusedFor record {
      slot = slot;
      image = image.now.0;
      probe = probe.now.0;
    }) }
{
    let record = match decode(slot, image, probe) {
        Ok(record) => record,
        Err(fault) => return Err(Refused::Fault(Fault::of_image(slot, fault))),
    };
    let first = HeaderLine::of(slot, Layout::or_device(image), image);
    first.push_to(text)?;
    push_record(text, &record)?;
    let caps = match chain(image) {
        Ok(caps) => caps,
        Err(fault) => return Err(Refused::Fault(Fault::of_image(slot, fault))),
    };
    push_capabilities(text, image, caps.as_slice())?;
    Ok(())
}
