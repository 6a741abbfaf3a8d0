//! The windows in which places are looked for behind a bridge: each is where it stays, or at its new place. In a window that
//! grows the places are told.
ghost use Rattle.std.specs.Prelude.{◌≡◌};
ghost use Rattle.std.specs.Option.{option_map};
ghost use Rattle.pci_base.specs.Ranges.{decoded_range_of};
ghost use Rattle.pci_base.specs.Space.{space_of};
ghost use Rattle.pci_base.specs.WindowKinds.{kind_value};
ghost use Rattle.pci_settle_places.specs.Windows.{window_range_at, plain_of, prefetch_of};

use crate::places::Places;
use pci_base::range::Range;
use pci_base::space::Space;
use pci_base::window_kind::WindowKind;
use pci_first_fit::kept::Kept;
use pci_first_fit::over::open_range;
use pci_first_fit::table::WindowRanges;
use pci_function::record::Bridge;

/// How the windows of a bridge stay.
#[derive(Clone, Copy, Debug)]
pub struct BridgeWindows<'a> {
    pub kept: &'a Kept,
    /// What those that grow come to.
    pub grown: &'a WindowRanges,
}

/// The addresses of a bridge's window in which places are looked for: those that it keeps, or those that it gets; None
/// where it grows.
fn window_at(
    staying: &BridgeWindows,
    bridge: &Bridge,
    places: &Places,
    kind: WindowKind,
) -> Option<Range>
    ensures { option_map decoded_range_of result ≡ window_range_at staying.now.kept.now
        staying.now.grown.now bridge.now places.now (kind_value kind) }
{
    if !staying.kept.window(kind) {
        *places.windows.get(kind)
    } else if staying.grown.get(kind).is_some() {
        None
    } else {
        open_range(&bridge.windows, kind)
    }
}

/// The window of a bridge in which what is plain is placed: that of I/O, or of memory.
pub fn plain_window(
    staying: &BridgeWindows,
    bridge: &Bridge,
    places: &Places,
    space: Space,
) -> Option<Range>
    ensures { option_map decoded_range_of result ≡ plain_of (space_of space)
        (window_range_at staying.now.kept.now staying.now.grown.now bridge.now places.now) }
{
    match space {
        Space::Io => window_at(staying, bridge, places, WindowKind::Io),
        Space::Mem => window_at(staying, bridge, places, WindowKind::Memory),
    }
}

/// The window of a bridge in which what is prefetchable is placed.
pub fn prefetch_window(
    staying: &BridgeWindows,
    bridge: &Bridge,
    places: &Places,
    space: Space,
) -> Option<Range>
    ensures { option_map decoded_range_of result ≡ prefetch_of (space_of space)
        (window_range_at staying.now.kept.now staying.now.grown.now bridge.now places.now) }
{
    match space {
        Space::Io => None,
        Space::Mem => window_at(staying, bridge, places, WindowKind::Prefetchable),
    }
}
