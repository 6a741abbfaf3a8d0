//! What a function has in a space once all has its place, and whether Command has to enable the space.
ghost use Rattle.std.specs.Prelude.{◌≡◌};
ghost use Rattle.std.specs.List.{All, list_any};
ghost use Rattle.pci_base.specs.Space.{space_of};
ghost use Rattle.pci_settle_places.specs.Shown.{HasRegister};
ghost use Rattle.pci_settle_places.specs.Claims as claims;
ghost use Rattle.pci_settle_places.specs.Claims.{is_bar_in, has_left_bar, is_placed_bar, has_placed_window, is_kept_bar, is_rom_on};

use super::places::Places;
use pci_base::offset::BASE_ADDRESS;
use pci_base::space::Space;
use pci_first_fit::own::{Terms, is_left_bar};
use pci_function::record::{Bridge, Record};
use pci_image::bar::{Bar, BarKind};
use pci_image::rom::Rom;
use pci_place::above::Above;

/// Whether a BAR is of a space.
pub fn is_bar_of(space: Space, bar: &Bar) -> bool
    ensures { result ≡ is_bar_in (space_of space) bar.now }
{
    match space {
        Space::Io => bar.kind == BarKind::Io,
        Space::Mem => bar.kind != BarKind::Io,
    }
}

/// Whether a function has an I/O BAR that is left.
pub fn has_left_bar(record: &Record, above: Above, terms: Terms) -> bool
    ensures { result ≡ has_left_bar «record».now above terms.entry }
{
    for bar in record.bars.as_slice() {
        if is_left_bar(bar, above, terms) {
            return true;
        }
    }
    false
}

/// Whether a BAR of a space got a place.
fn is_placed_bar(space: Space, places: &Places, bar: &Bar) -> bool
    requires { HasRegister bar.now }
    ensures { result ≡ is_placed_bar (space_of space) places.now bar.now }
{
    is_bar_of(space, bar) && places.bars[usize::from((bar.reg - BASE_ADDRESS) / 4)].is_some()
}

/// Whether one of some BARs did.
fn has_placed_bar(space: Space, places: &Places, bars: &[Bar]) -> bool
    requires { All HasRegister bars.now }
    ensures { result ≡ list_any (is_placed_bar (space_of space) places.now) bars.now }
{
    for bar in bars {
        if is_placed_bar(space, places, bar) {
            return true;
        }
    }
    false
}

/// Whether a window of a bridge got a place in a space.
fn has_placed_window(space: Space, places: &Places, bridge: Option<Bridge>) -> bool
    ensures { result ≡ has_placed_window (space_of space) places.now bridge }
{
    let Some(bridge) = bridge else {
        return false;
    };
    let windows = &places.windows;
    match space {
        Space::Io => bridge.windows.io.is_some() && windows.io.is_some(),
        Space::Mem => {
            windows.memory.is_some()
                || bridge.windows.pref.is_some() && windows.prefetchable.is_some()
        }
    }
}

/// Whether something of a function got a place in a space.
fn has_placed(space: Space, places: &Places, record: &Record) -> bool
    requires { All HasRegister «record».now.bars.items }
    ensures { result ≡ claims.has_placed (space_of space) places.now «record».now }
{
    has_placed_bar(space, places, record.bars.as_slice())
        || has_placed_window(space, places, record.bridge)
        || space == Space::Mem && places.rom.is_some()
}

/// Whether one of some BARs is of a space and isn't left.
fn has_kept_bar(space: Space, above: Above, terms: Terms, bars: &[Bar]) -> bool
    ensures { result ≡ list_any (is_kept_bar (space_of space) above terms.entry) bars.now }
{
    for bar in bars {
        if is_bar_of(space, bar) && !is_left_bar(bar, above, terms) {
            return true;
        }
    }
    false
}

/// Whether there is a ROM that is on.
pub fn is_rom_on(rom: Option<Rom>) -> bool
    ensures { result ≡ is_rom_on rom }
{
    match rom {
        None => false,
        Some(rom) => rom.on,
    }
}

/// Whether a function has a BAR of a space that isn't left, or a ROM that is on.
pub fn has_kept(space: Space, above: Above, terms: Terms, record: &Record) -> bool
    ensures { result ≡ claims.has_kept (space_of space) above terms.entry «record».now }
{
    has_kept_bar(space, above, terms, record.bars.as_slice())
        || space == Space::Mem && is_rom_on(record.rom)
}

/// Whether a space of a function is enabled: as it was, for what got a place, or for what is live behind it, but never for an
/// I/O BAR that is left.
pub fn is_enabled(
    space: Space,
    places: &Places,
    above: Above,
    terms: Terms,
    record: &Record,
    behind: bool,
) -> bool
    // places are told by the number of a BAR's register, so each has one
    requires { All HasRegister «record».now.bars.items }
    ensures { result
        ≡ claims.is_enabled_by (space_of space) places.now above terms.entry «record».now behind }
{
    !(space == Space::Io && has_left_bar(record, above, terms))
        && (space.is_on(record.command) || has_placed(space, places, record) || behind)
}
