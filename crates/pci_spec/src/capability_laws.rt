//! Laws of the capabilities list (PCI 3.0, 6.7). These functions do nothing: each contract is a law.

ghost use Rattle.pci_spec.specs.CapabilityLaws.{WalkStartsAtPointer, NoListHasNoWalk, WalkGoesOnByNextByte, PointerIsAligned, WalkStaysEnded, WalkHasAtMost48Places, ChainHasAtMost48Places, ChainPlacesAreAligned, ImageHasOneChain, MsiLengthByBits};

/// A walk goes from the Capabilities Pointer by the next pointers to its end. Pointers are of
/// doublewords, and a walk that comes to no place behind the header twice has at most 48 of them.
pub fn walks_go_by_pointers()
    ensures start { WalkStartsAtPointer }
    ensures empty { NoListHasNoWalk }
    ensures next { WalkGoesOnByNextByte }
    ensures aligned { PointerIsAligned }
    ensures ended { WalkStaysEnded }
    ensures most { WalkHasAtMost48Places }
{}

/// An image has at most one chain: of 48 doublewords at most, behind the header.
pub fn images_have_one_chain()
    ensures most { ChainHasAtMost48Places }
    ensures aligned { ChainPlacesAreAligned }
    ensures one { ImageHasOneChain }
{}

/// The bytes of an MSI capability, by its Message Control (PCI 3.0, 6.8.1).
pub fn msi_has_its_length()
    ensures { MsiLengthByBits }
{}
