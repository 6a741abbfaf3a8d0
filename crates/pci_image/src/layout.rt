//! Which of the two layouts a configuration header has (PCI 3.0, 6.1; Bridge 1.2, 3.2).
ghost use Rattle.std.specs.Prelude.{◌≡◌, ◌<◌, ◌≤◌, ◌%◌, ◌==◌, IsTrue, MatchOption};
ghost use Rattle.pci_spec.specs.Header.{bar_count, layout};
ghost use Rattle.pci_spec.specs.Fault.{has_other_layout};
ghost use Rattle.pci_image.specs.Layouts.{is_of_bridge, layout_number};

use pci_base::image::Image;
use pci_base::offset::HEADER_TYPE;

/// The bits of Header Type that give the layout; the other one says multi-function (PCI 3.0, 6.2.1).
const LAYOUT_BITS: u8 = 0x7f;

/// A layout of a configuration header that is decoded, by Header Type without its bit 7 (PCI 3.0, 6.2.1).
#[derive(Clone, Copy, Debug, PartialEq, Eq)]
pub enum Layout {
    /// Type 0, of a device (PCI 3.0, 6.1).
    Device,
    /// Type 1, of a PCI-to-PCI bridge (Bridge 1.2, 3.2).
    Bridge,
}

impl Layout {
    /// The layout that a Header Type tells, where it is one of the two.
    pub fn of_header_type(header_type: u8) -> Option<Layout>
        ensures { MatchOption result (2 ≤ header_type % 128)
            (λ known. header_type % 128 ≡ layout_number known) }
    {
        match header_type & LAYOUT_BITS {
            0 => Some(Layout::Device),
            1 => Some(Layout::Bridge),
            _ => None,
        }
    }

    /// The layout of an image's header, where it is one of the two.
    pub fn of(image: &Image) -> Option<Layout>
        ensures { MatchOption result (IsTrue (has_other_layout image.now.0))
            (λ known. layout image.now.0 ≡ layout_number known) }
    {
        Layout::of_header_type(image.u8(HEADER_TYPE))
    }

    /// The layout of an image's header, where one that isn't decoded is taken for a device's.
    pub fn or_device(image: &Image) -> Layout
        ensures { is_of_bridge result ≡ (layout image.now.0 == 1) }
    {
        match Layout::of(image) {
            Some(layout) => layout,
            None => Layout::Device,
        }
    }

    /// The number in Header Type: 0 or 1.
    pub fn number(self) -> u8
        ensures number { result ≡ layout_number self }
        ensures digit { result < 2 }
    {
        match self {
            Layout::Device => 0,
            Layout::Bridge => 1,
        }
    }

    /// How many Base Address registers the header has (PCI 3.0, 6.2.5.1; Bridge 1.2, 3.2.5).
    pub fn bar_count(self) -> u8
        ensures { result ≡ bar_count (layout_number self) }
    {
        match self {
            Layout::Device => 6,
            Layout::Bridge => 2,
        }
    }
}
