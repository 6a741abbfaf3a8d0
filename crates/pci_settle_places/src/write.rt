//! What the registers of a function show of a place. What a register can't hold of it is cut.
ghost use Rattle.std.specs.Prelude.{◌≡◌, ◌%◌, ◌/◌, ◌^◌, ◌<◌, IsTrue, List, ℕ};
ghost use Rattle.pci_spec.specs.Port as port;
ghost use Rattle.pci_spec.specs.Window.{bounds_for};
ghost use Rattle.judge_spec.specs.Windows.{with_number, with_bounds};
ghost use Rattle.pci_base.specs.WindowKinds.{kind_value};
ghost use Rattle.pci_base.specs.Bounds.{spec_bounds_of};
ghost use Rattle.pci_settle_places.specs.Shown.{HasRegister, with_bar, with_rom, with_closed, with_window_range, with_grown, with_optional, with_wished};

use pci_base::bounds::Bounds;
use pci_base::image::{IMAGE_LEN, put};
use pci_base::offset::{
    IO_BASE, IO_BASE_UPPER, IO_LIMIT, IO_LIMIT_UPPER, MEMORY_BASE, MEMORY_LIMIT, PREFETCHABLE_BASE,
    PREFETCHABLE_BASE_UPPER, PREFETCHABLE_LIMIT, PREFETCHABLE_LIMIT_UPPER,
};
use pci_base::range::Range;
use pci_base::window_kind::WindowKind;
use pci_image::bar::{Bar, BarKind};
use pci_image::window::Window;

/// The lower half of a number.
fn lower_half(number: u64) -> u32
    ensures { result ≡ number % 2 ^ 32 }
{
    (number & 0xffff_ffff) as u32
}

/// The upper half of a number.
fn upper_half(number: u64) -> u32
    ensures { result ≡ number / 2 ^ 32 }
{
    (number >> 32) as u32
}

/// Writes a number of 1, 2 or 4 bytes.
pub fn write(bytes: &mut [u8; IMAGE_LEN], offset: u8, width: u8, number: u32)
    // an access lies within one doubleword, so all its bytes are there
    requires { IsTrue (port.is_access offset width) }
    ensures { bytes.new ≡ with_number width offset number bytes.old }
{
    put(bytes, offset, width, number);
}

/// Writes a BAR at its place; its register held `old` before.
pub fn write_bar(bytes: &mut [u8; IMAGE_LEN], old: u32, bar: &Bar, place: Range)
    // the register after it is there
    requires { HasRegister bar.now }
    ensures { bytes.new ≡ with_bar old bar.now place bytes.old }
{
    let value = bar.value_from(old, lower_half(place.first).into());
    write(bytes, bar.reg, 4, lower_half(value));
    if bar.kind == BarKind::Mem64 {
        let upper = u64::from(upper_half(place.first)) + u64::from(upper_half(value));
        write(bytes, bar.reg + 4, 4, lower_half(upper));
    }
}

/// Writes a ROM at its place; its register held `old` before.
pub fn write_rom(bytes: &mut [u8; IMAGE_LEN], old: u32, register: u8, place: Range)
    // a register begins at a doubleword
    requires { register % 4 ≡ 0 }
    ensures { bytes.new ≡ with_rom old register place bytes.old }
{
    let value = u64::from(lower_half(place.first)) + u64::from(old % 2);
    write(bytes, register, 4, lower_half(value));
}

/// Writes the registers of a window.
pub fn write_bounds(bytes: &mut [u8; IMAGE_LEN], class: WindowKind, bounds: Bounds)
    ensures { bytes.new ≡ with_bounds (kind_value class) (spec_bounds_of bounds) bytes.old }
{
    match class {
        WindowKind::Io => {
            write(bytes, IO_BASE, 1, bounds.base.into());
            write(bytes, IO_LIMIT, 1, bounds.limit.into());
            write(bytes, IO_BASE_UPPER, 2, bounds.base_upper);
            write(bytes, IO_LIMIT_UPPER, 2, bounds.limit_upper);
        }
        WindowKind::Memory => {
            write(bytes, MEMORY_BASE, 2, bounds.base.into());
            write(bytes, MEMORY_LIMIT, 2, bounds.limit.into());
        }
        WindowKind::Prefetchable => {
            write(bytes, PREFETCHABLE_BASE, 2, bounds.base.into());
            write(bytes, PREFETCHABLE_LIMIT, 2, bounds.limit.into());
            write(bytes, PREFETCHABLE_BASE_UPPER, 4, bounds.base_upper);
            write(bytes, PREFETCHABLE_LIMIT_UPPER, 4, bounds.limit_upper);
        }
    }
}

/// What the registers of a window hold at its place.
fn bounds_at(class: WindowKind, nibble: u16, place: Range) -> Bounds
    requires { nibble < 16 }
    ensures { (image : List ℕ) → with_bounds (kind_value class) (spec_bounds_of result) image
        ≡ with_bounds (kind_value class)
        (bounds_for (kind_value class) nibble place.first place.last) image }
{
    match class {
        WindowKind::Io => {
            let low = Bounds::open(class, nibble, place.first % 0x1_0000, place.last % 0x1_0000);
            Bounds {
                base: low.base,
                limit: low.limit,
                base_upper: lower_half(place.first / 0x1_0000),
                limit_upper: lower_half(place.last / 0x1_0000),
            }
        }
        WindowKind::Memory => {
            let first = lower_half(place.first);
            let last = lower_half(place.last);
            Bounds::open(class, nibble, first.into(), last.into())
        }
        WindowKind::Prefetchable => Bounds::open(class, nibble, place.first, place.last),
    }
}

/// Writes a window with these addresses.
fn write_range(bytes: &mut [u8; IMAGE_LEN], class: WindowKind, window: Window, range: Range)
    ensures { bytes.new ≡ with_window_range (kind_value class) window range bytes.old }
{
    let nibble = u16::from(window.wide());
    write_bounds(bytes, class, bounds_at(class, nibble, range));
}

/// Writes a window that stays: where it has the addresses to which it grows, or doesn't grow, all bits stay.
fn write_grown(bytes: &mut [u8; IMAGE_LEN], class: WindowKind, window: Window, grown: Option<Range>)
    ensures { bytes.new ≡ with_grown (kind_value class) window grown bytes.old }
{
    if let Some(range) = grown {
        if window.range() != Some(range) {
            write_range(bytes, class, window, range);
        }
    }
}

/// Closes a window, if it was open.
fn write_closed(bytes: &mut [u8; IMAGE_LEN], class: WindowKind, window: Window)
    ensures { bytes.new ≡ with_closed (kind_value class) window bytes.old }
{
    if window.range().is_some() {
        let nibble = u16::from(window.wide());
        write_bounds(bytes, class, Bounds::closed(class, nibble));
    }
}

/// Writes a window at its place; where it has none it is written as it grows if it is kept, and else closed, if it was open.
pub fn write_window(
    bytes: &mut [u8; IMAGE_LEN],
    class: WindowKind,
    window: Option<Window>,
    place: Option<Range>,
    kept: bool,
    grown: Option<Range>,
)
    ensures { bytes.new ≡ with_optional (kind_value class) kept grown window place bytes.old }
{
    let Some(window) = window else {
        return;
    };
    match place {
        Some(place) => write_range(bytes, class, window, place),
        None if kept => write_grown(bytes, class, window, grown),
        None => write_closed(bytes, class, window),
    }
}

/// Writes a window with the addresses that it has to show for room that is kept free in it; where none are given, all bits stay.
pub fn write_wished(
    bytes: &mut [u8; IMAGE_LEN],
    class: WindowKind,
    window: Option<Window>,
    wished: Option<Range>,
)
    ensures { bytes.new ≡ with_wished (kind_value class) wished window bytes.old }
{
    if let Some(window) = window {
        if let Some(range) = wished {
            write_range(bytes, class, window, range);
        }
    }
}
