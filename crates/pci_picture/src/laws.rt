//! Laws of pictures. The functions do nothing: their contracts are the laws.

ghost use Rattle.pci_picture.specs.Boxes.{EachRegionOnce};
ghost use Rattle.pci_picture.specs.Siblings.{SiblingsAreApart};
ghost use Rattle.pci_picture.specs.Spots.{BoxesAreApart};

/// Of two boxes of a section, the one whose last address is below the first address of the other ends above it.
pub fn boxes_are_apart()
    ensures { BoxesAreApart }
{}

/// Of two boxes in place that have one parent, one ends above the other or beside it.
pub fn siblings_are_apart()
    ensures { SiblingsAreApart }
{}

/// Each line of the map that is a region is drawn exactly once, as often as it stands in the map. That follows from what
/// stands in the sections and in the list of what is off.
pub fn regions_are_drawn_once()
    ensures { EachRegionOnce }
{}
