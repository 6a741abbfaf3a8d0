//! The windows over a bus, which tell the classes of the BARs on it.
ghost use Rattle.std.specs.Prelude.{◌≡◌, slice_index_or};
ghost use Rattle.std.specs.Option.{option_map};
ghost use Rattle.settle_spec.specs.Parts.{lies_within};
ghost use Rattle.pci_base.specs.Ranges.{decoded_range_of};
ghost use Rattle.pci_base.specs.WindowKinds.{kind_value};
ghost use Rattle.pci_image.specs.Windows.{window_of};
ghost use Rattle.pci_tree.specs.Passes.{range_in};
ghost use Rattle.pci_first_fit.specs.Over.{range_holds, no_windows};

use crate::kept::Kept;
use crate::place::Places;
use crate::table::WindowRanges;
use pci_base::range::Range;
use pci_base::window_kind::WindowKind;
use pci_image::window::Windows;
use pci_place::above::Above;

/// The open windows of memory of the bridge over a bus; None on a root.
#[derive(Clone, Copy, Debug, PartialEq, Eq)]
pub struct OpenWindows {
    pub memory: Option<Range>,
    pub prefetch: Option<Range>,
}

impl OpenWindows {
    pub const NONE: OpenWindows = OpenWindows {
        memory: None,
        prefetch: None,
    };
}

/// What is over a bus.
#[derive(Clone, Copy, Debug, PartialEq, Eq)]
pub struct Over {
    /// What all bridges above it have.
    pub above: Above,
    /// What holds BARs that are where they can stay; None where all is placed anew.
    pub windows: OpenWindows,
}

/// What is left where it stands, or grows there.
#[derive(Clone, Copy, Debug)]
pub struct Left<'a> {
    /// The open windows over each bus; empty where all is placed anew.
    pub over: &'a [OpenWindows],
    /// The parts of each function that keep their places, in slot order; empty where none does.
    pub kept: &'a [Kept],
    /// What the windows of each function that grow come to; empty where none grows.
    pub grown: &'a [WindowRanges],
    /// The places of the items in windows that grow; empty where none grows.
    pub places: &'a [Places],
}

/// Whether a range lies in another.
pub fn is_within(inner: Range, outer: Range) -> bool
    ensures { result ≡ lies_within (decoded_range_of inner) (decoded_range_of outer) }
{
    outer.first <= inner.first && inner.last <= outer.last
}

/// Whether there is a range that holds another.
pub fn is_held(outer: Option<Range>, inner: Range) -> bool
    ensures { result ≡ range_holds (option_map decoded_range_of outer) (decoded_range_of inner) }
{
    match outer {
        None => false,
        Some(outer) => is_within(inner, outer),
    }
}

/// The addresses of a window, where it is open.
pub fn open_range(windows: &Windows, kind: WindowKind) -> Option<Range>
    ensures { option_map decoded_range_of result ≡ range_in (window_of windows.now (kind_value kind)) }
{
    match windows.get(kind) {
        Some(window) => window.range(),
        None => None,
    }
}

/// The open windows over a bus.
pub fn open_over(overs: &[OpenWindows], bus: u8) -> OpenWindows
    ensures { result ≡ slice_index_or overs.now bus no_windows }
{
    match overs.get(bus as usize) {
        Some(windows) => *windows,
        None => OpenWindows::NONE,
    }
}
