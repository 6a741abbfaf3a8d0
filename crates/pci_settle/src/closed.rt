//! A bridge once all is closed: windows that change hold nothing, but for those that stay.
ghost use Rattle.std.specs.Prelude.{◌≡◌, ◌<◌, ◌%◌};
ghost use Rattle.std.specs.Option.{is_some};
ghost use Rattle.pci_base.specs.Bounds.{spec_bounds_of};
ghost use Rattle.pci_base.specs.WindowKinds.{kind_value};
ghost use Rattle.pci_image.specs.Windows.{window_of};
ghost use Rattle.pci_tree.specs.Passes.{range_in};
ghost use Rattle.settle_spec.specs.Writes as writes;
ghost use Rattle.pci_settle.specs.Shut.{differs_in, is_window_changed, is_window_changed_for_more, flags_by_class, changed_window};
ghost use Rattle.pci_settle.specs.Stages.{nibble_in, with_closed_window, closed_image_by};

use crate::way::ByClass;
use pci_base::bounds::Bounds;
use pci_base::image::{IMAGE_LEN, Image};
use pci_base::offset::{
    COMMAND, IO_BASE, IO_BASE_UPPER, MEMORY_BASE, PREFETCHABLE_BASE, PREFETCHABLE_BASE_UPPER,
    PREFETCHABLE_LIMIT_UPPER,
};
use pci_base::window_kind::WindowKind;
use pci_first_fit::over::open_range;
use pci_function::record::Record;
use pci_image::window::Windows;
use pci_settle_places::write::{write, write_bounds};

/// Whether a register of four bytes of a window changes.
fn differs(old: &Image, new: &Image, register: u8) -> bool
    requires { register % 4 ≡ 0 }
    ensures { result ≡ differs_in old.now.0 new.now.0 (register, 4) }
{
    new.u32(register) != old.u32(register)
}

/// Whether the window of a class changes.
fn is_window_changed(class: WindowKind, old: &Image, new: &Image) -> bool
    ensures { result ≡ is_window_changed (kind_value class) old.now.0 new.now.0 }
{
    match class {
        WindowKind::Io => {
            new.u16(IO_BASE) != old.u16(IO_BASE) || differs(old, new, IO_BASE_UPPER)
        }
        WindowKind::Memory => differs(old, new, MEMORY_BASE),
        WindowKind::Prefetchable => {
            differs(old, new, PREFETCHABLE_BASE)
                || differs(old, new, PREFETCHABLE_BASE_UPPER)
                || differs(old, new, PREFETCHABLE_LIMIT_UPPER)
        }
    }
}

/// Whether the window of a class changes, an open one for more than room that is kept free. `plain` shows no such room.
fn is_window_changed_for_more(
    class: WindowKind,
    windows: &Windows,
    old: &Image,
    plain: &Image,
    new: &Image,
) -> bool
    ensures { result ≡ is_window_changed_for_more
        (is_some (range_in (window_of windows.now (kind_value class)))) (kind_value class)
        old.now.0 plain.now.0 new.now.0 }
{
    is_window_changed(class, old, new)
        && (open_range(windows, class).is_none() || is_window_changed(class, old, plain))
}

/// Of which classes the windows of a function change: those of a bridge.
pub fn changed_windows(record: &Record, old: &Image, plain: &Image, new: &Image) -> ByClass
    ensures { result
        ≡ flags_by_class (changed_window «record».now.bridge old.now.0 plain.now.0 new.now.0) }
{
    let Some(bridge) = &record.bridge else {
        return ByClass::NONE;
    };
    let windows = &bridge.windows;
    let (io, memory) = (WindowKind::Io, WindowKind::Memory);
    let prefetchable = WindowKind::Prefetchable;
    ByClass {
        io: is_window_changed_for_more(io, windows, old, plain, new),
        memory: is_window_changed_for_more(memory, windows, old, plain, new),
        prefetchable: is_window_changed_for_more(prefetchable, windows, old, plain, new),
    }
}

/// What closing leaves of a function.
#[derive(Clone, Copy, Debug)]
pub struct Closing {
    /// The value of Command.
    pub command: u16,
    /// The windows that are closed meanwhile.
    pub windows: ByClass,
}

/// The low nibble of base and limit of a window, by its read back (Bridge 1.2, 3.2.5).
fn nibble_of(class: WindowKind, probe: &Image) -> u16
    ensures value { result ≡ nibble_in (kind_value class) probe.now.0 }
    ensures small { result < 16 }
{
    u16::from(class.bounds(probe).base % 16 == 1)
}

/// A window that holds nothing, whatever its upper base: base and limit as of one that is closed, and the upper limit no
/// greater than the upper base.
fn shut_bounds(class: WindowKind, nibble: u16, bounds: Bounds) -> Bounds
    requires { nibble < 16 }
    ensures { spec_bounds_of result
        ≡ writes.shut_bounds (kind_value class) nibble (spec_bounds_of bounds) }
{
    let closed = Bounds::closed(class, nibble);
    Bounds {
        base: closed.base,
        limit: closed.limit,
        base_upper: bounds.base_upper,
        limit_upper: if bounds.base_upper < bounds.limit_upper {
            bounds.base_upper
        } else {
            bounds.limit_upper
        },
    }
}

/// Closes the window of a class, where it is one of those to close.
fn close_window(
    bytes: &mut [u8; IMAGE_LEN],
    class: WindowKind,
    closes: bool,
    old: &Image,
    probe: &Image,
)
    ensures { bytes.new
        ≡ with_closed_window (kind_value class) closes old.now.0 probe.now.0 bytes.old }
{
    if closes {
        let bounds = shut_bounds(class, nibble_of(class, probe), class.bounds(old));
        write_bounds(bytes, class, bounds);
    }
}

/// The image of a bridge once all is closed. `probe` holds what its registers read back.
pub fn closed_image(old: &Image, probe: &Image, closing: Closing) -> Image
    ensures { result.0 ≡ closed_image_by old.now.0 probe.now.0 closing }
{
    let mut closed = *old;
    let bytes = &mut closed.0;
    let windows = closing.windows;
    close_window(bytes, WindowKind::Io, windows.io, old, probe);
    close_window(bytes, WindowKind::Memory, windows.memory, old, probe);
    let class = WindowKind::Prefetchable;
    close_window(bytes, class, windows.prefetchable, old, probe);
    write(&mut closed.0, COMMAND, 2, closing.command.into());
    closed
}
