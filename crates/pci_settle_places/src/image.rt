//! The image of a function with its parts at the places that they get.
ghost use Rattle.std.specs.Prelude.{◌≡◌};
ghost use Rattle.std.specs.List.{All};
ghost use Rattle.pci_spec.specs.System.{System, Function};
ghost use Rattle.settle_spec.specs.Lists.{Request};
ghost use Rattle.settle_spec.specs.Kept.{Kept};
ghost use Rattle.settle_spec.specs.Keeping.Registers.{settled_image};
ghost use Rattle.pci_settle_places.specs.Shown.{HasRegister};
ghost use Rattle.pci_settle_places.specs.Images.{with_placed_bar, with_bars, with_windows, with_parts, HasPlacesAndWindows};

use super::places::Places;
use super::window::BridgeWindows;
use crate::write::{write_bar, write_rom, write_window, write_wished};
use pci_base::image::{IMAGE_LEN, Image};
use pci_base::offset::BASE_ADDRESS;
use pci_base::window_kind::WindowKind;
use pci_first_fit::table::WindowRanges;
use pci_function::record::Record;
use pci_image::bar::Bar;
use pci_image::window::Windows;

/// What the windows of a bridge show where they don't show a new place.
#[derive(Clone, Copy, Debug)]
pub struct ShownWindows<'a> {
    /// How they stay.
    pub staying: BridgeWindows<'a>,
    /// The addresses of those in which room is kept free, whatever their place.
    pub wished: &'a WindowRanges,
}

/// Writes a BAR at its place; where it has none it stays as it is.
fn write_placed(bytes: &mut [u8; IMAGE_LEN], old: &Image, bar: &Bar, places: &Places)
    requires { HasRegister bar.now }
    ensures { bytes.new ≡ with_placed_bar old.now.0 places.now bytes.old bar.now }
{
    if let Some(place) = places.bars[usize::from((bar.reg - BASE_ADDRESS) / 4)] {
        write_bar(bytes, old.u32(bar.reg), bar, place);
    }
}

/// Writes BARs at their places.
fn write_bars(bytes: &mut [u8; IMAGE_LEN], old: &Image, bars: &[Bar], places: &Places)
    requires { All HasRegister bars.now }
    ensures { bytes.new ≡ with_bars old.now.0 places.now bars.now bytes.old }
{
    for bar in bars {
        write_placed(bytes, old, bar, places);
    }
}

/// Writes the windows of a bridge at their places; one that has none is closed, but for those that stay. One in which room is
/// kept free shows that.
fn write_windows(
    bytes: &mut [u8; IMAGE_LEN],
    windows: &Windows,
    places: &Places,
    shown: &ShownWindows,
)
    ensures { bytes.new ≡ with_windows places.now shown.now.staying.kept.now.windows
        shown.now.staying.grown.now shown.now.wished.now windows.now bytes.old }
{
    let (kept, grown) = (&shown.staying.kept.windows, shown.staying.grown);
    let (class, place) = (WindowKind::Io, places.windows.io);
    write_window(bytes, class, windows.io, place, kept.io, grown.io);
    write_wished(bytes, class, windows.io, shown.wished.io);
    let (class, place) = (WindowKind::Memory, places.windows.memory);
    write_window(
        bytes,
        class,
        Some(windows.mem),
        place,
        kept.memory,
        grown.memory,
    );
    write_wished(bytes, class, Some(windows.mem), shown.wished.memory);
    let (class, place) = (WindowKind::Prefetchable, places.windows.prefetchable);
    write_window(
        bytes,
        class,
        windows.pref,
        place,
        kept.prefetchable,
        grown.prefetchable,
    );
    write_wished(bytes, class, windows.pref, shown.wished.prefetchable);
}

/// The image with what is decoded of it at these places.
fn with_parts(record: &Record, image: &Image, places: &Places, shown: &ShownWindows) -> Image
    requires { All HasRegister «record».now.bars.items }
    ensures { result.0 ≡ with_parts image.now.0 places.now shown.now.staying.kept.now.windows
        shown.now.staying.grown.now shown.now.wished.now «record».now }
{
    let mut placed = *image;
    write_bars(&mut placed.0, image, record.bars.as_slice(), places);
    if let Some(bridge) = &record.bridge {
        write_windows(&mut placed.0, &bridge.windows, places, shown);
    }
    if let Some(place) = places.rom {
        let register = record.rom_register();
        write_rom(&mut placed.0, image.u32(register), register, place);
    }
    placed
}

/// The image of a function whose parts get these places: BARs, ROM and windows show their places, a window that stays shows
/// the addresses to which it grows, any other that has no place is closed, one in which room is kept free shows that, and all
/// other bits stay.
pub fn settled_image(record: &Record, image: &Image, places: &Places, shown: &ShownWindows) -> Image
    // places are told by the number of a BAR's register, so each has one
    requires { All HasRegister «record».now.bars.items }
    ensures { (q : Request) (s : System) (keep : Kept) (f : Function)
        → image.now.0 ≡ f.image → HasPlacesAndWindows q s keep f «record».now places.now
        shown.now.staying.kept.now.windows shown.now.staying.grown.now shown.now.wished.now
        → result.0 ≡ settled_image q s keep f }
{
    with_parts(record, image, places, shown)
}
