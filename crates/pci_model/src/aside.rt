//! What is left aside of a function.
ghost use Rattle.std.specs.Prelude.{◌≡◌, ℕ, IsTrue, List, map, if◌then◌else◌};
ghost use Rattle.std.specs.List.{filter};
ghost use Rattle.pci_spec.specs.Slot.{Slot as SlotValue};
ghost use Rattle.pci_spec.specs.Text.{IsDump, slots_of};
ghost use Rattle.pci_spec.specs.Order.{Place};
ghost use Rattle.pci_image.specs.Bars.{decoded_bar_of, decoded_kind_of};
ghost use Rattle.pci_image.specs.Windows.{decoded_windows_of};
ghost use Rattle.pci_function.specs.Values.{bridge_value, record_value};
ghost use Rattle.judge_spec.specs.Bytes.{cleared, width_of, without_bars};
ghost use Rattle.judge_spec.specs.Taken as taken;
ghost use Rattle.pci_model.specs.FixedPartsValue.{fixed_value};
ghost use Rattle.pci_model.specs.WordsValue.{words_value};

use super::bytes::{
    clear, make_device, make_device_read_backs, make_positive, set_isa_aside, set_snoop_aside,
    set_vga_aside, take_out_of_reset,
};
use super::fixed_parts::{FixedParts, has_open_part};
use super::listed_behind::is_anyone_behind;
use super::windows::windows_aside;
use super::words::Words;
use pci_base::image::Image;
use pci_base::offset::INTERFACE;
use pci_base::slot::Slot;
use pci_base::space::Space;
use pci_dump::block::Block;
use pci_function::examine::examine;
use pci_function::profile::{SECONDARY_BUS_RESET, controls_bridge, is_subtractive_bridge};
use pci_function::record::{Bridge, Record};
use pci_image::bar::{Bar, BarKind};
use pci_image::header::class_code;
use pci_image::layout::Layout;
use pci_image::window::{Window, Windows};

/// Class 01, sub-class 01: an IDE controller (PCI IDE Controller 1.0, 2.1).
const IDE_CONTROLLER: u32 = 0x0101;

/// The first registers of the primary and of the secondary channel, and the one behind them.
const PRIMARY_CHANNEL_END: u8 = 0x18;

const CHANNELS_END: u8 = 0x20;

/// Leaves VGA Enable aside, where a word for legacy parts counts.
fn vga_aside(image: &mut Image, words: Words)
    ensures { (slot : SlotValue) (probe : List ℕ)
        → record { slot = slot; image = image.new.0; probe = probe }
        ≡ taken.vga_aside_by (words_value words) record
        { slot = slot; image = image.old.0; probe = probe } }
{
    if words.vga.is_some() {
        set_vga_aside(image);
    }
}

/// Leaves ISA Enable aside, where the word for it counts.
fn isa_aside(image: &mut Image, words: Words)
    ensures { (slot : SlotValue) (probe : List ℕ)
        → record { slot = slot; image = image.new.0; probe = probe }
        ≡ taken.isa_aside_by (words_value words) record
        { slot = slot; image = image.old.0; probe = probe } }
{
    if words.isa {
        set_isa_aside(image);
    }
}

/// Leaves VGA Palette Snoop aside, where the word for it counts.
fn snoop_aside(image: &mut Image, words: Words)
    ensures { (slot : SlotValue) (probe : List ℕ)
        → record { slot = slot; image = image.new.0; probe = probe }
        ≡ taken.snoop_aside_by (words_value words) record
        { slot = slot; image = image.old.0; probe = probe } }
{
    if words.snoop {
        set_snoop_aside(image);
    }
}

/// Leaves aside what is left aside before anything is asked of a function: the read backs of windows, VGA Enable, ISA
/// Enable and VGA Palette Snoop.
pub fn first_aside(image: &mut Image, probe: &mut Image, words: Words)
    ensures { (slot : SlotValue) → record { slot = slot; image = image.new.0; probe = probe.new.0 }
        ≡ taken.first_aside (words_value words) record
        { slot = slot; image = image.old.0; probe = probe.old.0 } }
{
    windows_aside(image, probe, words);
    vga_aside(image, words);
    isa_aside(image, words);
    snoop_aside(image, words);
}

/// Leaves a bridge's reset and its subtractive decoding aside, where these count and nothing is listed behind it.
pub fn bridge_aside(image: &mut Image, blocks: &[Block], words: Words)
    // the functions of a bus stand together, and are found by halving
    requires { IsDump blocks.now }
    ensures { (slot : SlotValue) (probe : List ℕ)
        → record { slot = slot; image = image.new.0; probe = probe }
        ≡ taken.bridge_aside (words_value words) (slots_of blocks.now) record
        { slot = slot; image = image.old.0; probe = probe } }
{
    // What is behind is looked for only where it counts: that is a search in the dump.
    if words.reset
        && controls_bridge(image, SECONDARY_BUS_RESET)
        && !is_anyone_behind(blocks, image)
    {
        take_out_of_reset(image);
    }
    if words.subtractive && is_subtractive_bridge(image) && !is_anyone_behind(blocks, image) {
        make_positive(image);
    }
}

/// Whether it is an IDE controller.
fn is_ide(image: &Image) -> bool
    ensures { result ≡ taken.is_ide image.now.0 }
{
    Layout::of(image) == Some(Layout::Device) && class_code(image) / 0x100 == IDE_CONTROLLER
}

/// Whether a BAR's register is of a channel in compatibility mode, by the programming interface.
fn is_compatible(interface: u8, reg: u8) -> bool
    ensures { result ≡ taken.is_compatible interface reg }
{
    if reg < PRIMARY_CHANNEL_END {
        interface & 1 == 0
    } else {
        reg < CHANNELS_END && interface >> 2 & 1 == 0
    }
}

/// The bytes of a BAR's registers.
fn width_of(kind: BarKind) -> u8
    ensures { result ≡ width_of (decoded_kind_of kind) }
{
    match kind {
        BarKind::Io | BarKind::Mem32 => 4,
        BarKind::Mem64 => 8,
    }
}

/// Leaves a BAR out, where it is of a channel in compatibility mode.
fn leave_out(bar: &Bar, interface: u8, image: &mut Image)
    ensures { image.new.0 ≡ (if taken.is_compatible interface bar.now.reg
        then cleared bar.now.reg (width_of (decoded_kind_of bar.now.kind)) image.old.0
        else image.old.0) }
{
    if is_compatible(interface, bar.reg) {
        clear(image, bar.reg, width_of(bar.kind));
    }
}

/// Leaves all such BARs out.
fn leave_channels_out(bars: &[Bar], interface: u8, image: &mut Image)
    ensures { image.new.0 ≡ without_bars
        (filter (λ bar. taken.is_compatible interface bar.register) (map decoded_bar_of bars.now))
        image.old.0 }
{
    for bar in bars {
        leave_out(bar, interface, image);
    }
}

/// Whether a window is there and open.
fn is_open(window: Option<Window>) -> bool
    ensures { result ≡ taken.is_open_window window }
{
    match window {
        None => false,
        Some(window) => window.range().is_some(),
    }
}

/// Whether a window claims an address, by Command.
fn has_open_window(command: u16, windows: &Windows) -> bool
    ensures { result ≡ taken.has_open_window command (decoded_windows_of windows.now) }
{
    (Space::Io.is_on(command) && is_open(windows.io))
        || (Space::Mem.is_on(command) && (windows.mem.range().is_some() || is_open(windows.pref)))
}

/// Whether a bridge has bus numbers.
fn has_numbers(bridge: &Bridge) -> bool
    ensures { result ≡ taken.has_numbers (bridge_value bridge.now) }
{
    !(bridge.primary == 0 && bridge.secondary == 0 && bridge.subordinate == 0)
}

/// Whether a record is of a bridge that nobody gave bus numbers, of which neither a window nor a part with fixed addresses
/// that it has claims an address, and whose ROM is off.
fn is_unnumbered(function: &Record, fixed: FixedParts) -> bool
    ensures { result ≡ taken.is_unnumbered_bridge (fixed_value fixed) (record_value function.now)
        (record_value function.now).bridge }
{
    let is_rom_on = match function.rom {
        None => false,
        Some(rom) => rom.on,
    };
    match function.bridge {
        None => false,
        Some(bridge) => !has_numbers(&bridge)
            && !has_open_window(function.command, &bridge.windows)
            && !has_open_part(fixed, function.command)
            && !is_rom_on,
    }
}

/// Whether a word counts for parts that a function can have by its header.
fn may_have_parts(image: &Image, words: Words) -> bool
    ensures { (slot : SlotValue) (probe : List ℕ) → result ≡ taken.may_have_parts_by (words_value words) record
        { slot = slot; image = image.now.0; probe = probe } }
{
    (words.ide && is_ide(image)) || (words.unnumbered && Layout::of(image) == Some(Layout::Bridge))
}

/// Leaves the channels of an IDE controller and an unnumbered bridge's buses aside, where these count, of a function with
/// some parts with fixed addresses.
pub fn parts_aside(
    slot: Slot,
    image: &mut Image,
    probe: &mut Image,
    fixed: FixedParts,
    words: Words,
)
    ensures { taken.IsWhere
        (IsTrue (taken.may_have_parts_by (words_value words) record
        { slot = slot; image = image.old.0; probe = probe.old.0 })
        × taken.HasNoOwnFaultBefore Place record
        { slot = slot; image = image.old.0; probe = probe.old.0 })
        record { slot = slot; image = image.old.0; probe = probe.old.0 }
        (taken.parts_aside (words_value words) (fixed_value fixed) record
        { slot = slot; image = image.old.0; probe = probe.old.0 })
        record { slot = slot; image = image.new.0; probe = probe.new.0 } }
{
    // Most functions have no such parts, and aren't decoded.
    if !may_have_parts(image, words) {
        return;
    }
    let decoded = match examine(slot, image, probe) {
        Err(_) => return,
        Ok(decoded) => decoded,
    };
    if words.ide && is_ide(image) {
        let interface = image.u8(INTERFACE);
        leave_channels_out(&decoded.bars, interface, image);
        leave_channels_out(&decoded.bars, interface, probe);
    } else if words.unnumbered && is_unnumbered(&decoded, fixed) {
        make_device(image);
        make_device_read_backs(probe);
    }
}
