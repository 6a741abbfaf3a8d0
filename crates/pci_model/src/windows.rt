//! The windows of a bridge, each as the one that it shows.
ghost use Rattle.std.specs.Prelude.{◌≡◌, ◌<◌, ◌==◌, IsTrue};
ghost use Rattle.pci_spec.specs.Port as port;
ghost use Rattle.pci_spec.specs.Slot.{Slot as SlotValue};
ghost use Rattle.pci_spec.specs.Header.{layout};
ghost use Rattle.pci_spec.specs.Derived.{bounds_of_nibble};
ghost use Rattle.pci_base.specs.WindowKinds.{kind_value};
ghost use Rattle.pci_base.specs.Bounds.{spec_bounds_of};
ghost use Rattle.judge_spec.specs.Windows as spec;
ghost use Rattle.judge_spec.specs.Taken as taken;
ghost use Rattle.pci_model.specs.WordsValue.{words_value};

use super::words::Words;
use pci_base::bounds::Bounds;
use pci_base::image::{IMAGE_LEN, Image, put};
use pci_base::offset::{
    IO_BASE, IO_BASE_UPPER, IO_LIMIT, IO_LIMIT_UPPER, MEMORY_BASE, MEMORY_LIMIT, PREFETCHABLE_BASE,
    PREFETCHABLE_BASE_UPPER, PREFETCHABLE_LIMIT, PREFETCHABLE_LIMIT_UPPER,
};
use pci_base::window_kind::WindowKind;
use pci_image::layout::Layout;
use pci_image::window::Window;

/// Writes a number of 1, 2 or 4 bytes.
fn write(bytes: &mut [u8; IMAGE_LEN], offset: u8, width: u8, number: u32)
    // an access lies within one doubleword, so all its bytes are there
    requires { IsTrue (port.is_access offset width) }
    ensures { bytes.new ≡ spec.with_number width offset number bytes.old }
{
    put(bytes, offset, width, number);
}

/// Writes the registers of a window.
fn write_bounds(bytes: &mut [u8; IMAGE_LEN], kind: WindowKind, bounds: Bounds)
    ensures { bytes.new ≡ spec.with_bounds (kind_value kind) (spec_bounds_of bounds) bytes.old }
{
    match kind {
        WindowKind::Io => {
            write(bytes, IO_BASE, 1, bounds.base.into());
            write(bytes, IO_LIMIT, 1, bounds.limit.into());
            write(bytes, IO_BASE_UPPER, 2, bounds.base_upper);
            write(bytes, IO_LIMIT_UPPER, 2, bounds.limit_upper);
        }
        WindowKind::Memory => {
            write(bytes, MEMORY_BASE, 2, bounds.base.into());
            write(bytes, MEMORY_LIMIT, 2, bounds.limit.into());
        }
        WindowKind::Prefetchable => {
            write(bytes, PREFETCHABLE_BASE, 2, bounds.base.into());
            write(bytes, PREFETCHABLE_LIMIT, 2, bounds.limit.into());
            write(bytes, PREFETCHABLE_BASE_UPPER, 4, bounds.base_upper);
            write(bytes, PREFETCHABLE_LIMIT_UPPER, 4, bounds.limit_upper);
        }
    }
}

/// The low nibble of base and limit, where what a window shows goes with one: 0 without upper halves, 1 with them.
fn shown_nibble(kind: WindowKind, shown: Bounds) -> Option<u16>
    ensures { result ≡ spec.shown_nibble (kind_value kind) (spec_bounds_of shown) }
{
    let has_no_upper = shown.base_upper == 0 && shown.limit_upper == 0;
    if shown.base % 16 == 0 && shown.limit % 16 == 0 && has_no_upper {
        Some(0)
    } else if kind.is_optional() && shown.base % 16 == 1 && shown.limit % 16 == 1 {
        Some(1)
    } else {
        None
    }
}

/// What a window with this low nibble reads back.
fn read_back(kind: WindowKind, nibble: u16) -> Bounds
    // above the low nibble stand the bits of the page
    requires { nibble < 16 }
    ensures { spec_bounds_of result ≡ bounds_of_nibble (kind_value kind) nibble }
{
    let (page, upper) = match kind {
        WindowKind::Io => (0xf0, 0xffff),
        WindowKind::Memory => (0xfff0, 0),
        WindowKind::Prefetchable => (0xfff0, 0xffff_ffff),
    };
    let upper = if nibble == 0 { 0 } else { upper };
    Bounds {
        base: page + nibble,
        limit: page + nibble,
        base_upper: upper,
        limit_upper: upper,
    }
}

/// Makes a window one with this low nibble.
fn make_window(kind: WindowKind, nibble: u16, image: &mut Image, probe: &mut Image)
    requires { nibble < 16 }
    ensures image { (slot : SlotValue) → image.new.0
        ≡ spec.image_with_window (kind_value kind) nibble record
        { slot = slot; image = image.old.0; probe = probe.old.0 } }
    ensures probe { probe.new.0 ≡ spec.with_bounds (kind_value kind)
        (bounds_of_nibble (kind_value kind) nibble) probe.old.0 }
{
    if kind.bounds(image).is_zero() && kind.bounds(probe).is_zero() {
        write_bounds(&mut image.0, kind, Bounds::closed(kind, nibble));
    }
    write_bounds(&mut probe.0, kind, read_back(kind, nibble));
}

/// Makes a window the one that it shows, if it breaks its rule and shows one.
fn window_as_shown(kind: WindowKind, image: &mut Image, probe: &mut Image)
    ensures { (slot : SlotValue)
        → record { slot = slot; image = image.new.0; probe = probe.new.0 }
        ≡ spec.window_as_shown (kind_value kind) record
        { slot = slot; image = image.old.0; probe = probe.old.0 } }
{
    if !Window::breaks_rule(kind, image, probe) {
        return;
    }
    if let Some(nibble) = shown_nibble(kind, kind.bounds(image)) {
        make_window(kind, nibble, image, probe);
    }
}

/// Makes each window of a bridge the one that it shows.
fn windows_as_shown(image: &mut Image, probe: &mut Image)
    ensures { (slot : SlotValue)
        → record { slot = slot; image = image.new.0; probe = probe.new.0 }
        ≡ spec.windows_as_shown record
        { slot = slot; image = image.old.0; probe = probe.old.0 } }
{
    window_as_shown(WindowKind::Io, image, probe);
    window_as_shown(WindowKind::Memory, image, probe);
    window_as_shown(WindowKind::Prefetchable, image, probe);
}

/// Whether a function is a bridge.
fn is_bridge(image: &Image) -> bool
    ensures { result ≡ (layout image.now.0 == 1) }
{
    Layout::of(image) == Some(Layout::Bridge)
}

/// Makes each window of a bridge the one that it shows, where that counts.
pub fn windows_aside(image: &mut Image, probe: &mut Image, words: Words)
    ensures { (slot : SlotValue)
        → record { slot = slot; image = image.new.0; probe = probe.new.0 }
        ≡ taken.windows_aside (words_value words) record
        { slot = slot; image = image.old.0; probe = probe.old.0 } }
{
    if words.windows && is_bridge(image) {
        windows_as_shown(image, probe);
    }
}
