//! What is told of a machine.
ghost use Rattle.std.specs.Prelude.{◌≡◌, Option, Some, IfSome, IfOk, MatchResult, map, string_bytes};
ghost use Rattle.pci_here.specs.Shown.{Shown, IsFileFront, IsText, IsNotHad, IsNoFront};

use crate::log::Registers;
use crate::place::Place;
use crate::trouble::Trouble;
use pci_base::image::Image;
use pci_base::memory::OutOfMemory;
use std::alloc::Global;

/// A machine of which Linux tells.
pub trait Machine {
    // What is told of it, where that is known.
    ghost shown: { Self → Option Shown };

    /// The names of the folders of the functions, in any order. Other names may be among them.
    fn names(&self, alloc: Global) -> Result<Vec<String>, Trouble>
        ensures { IfSome (shown self.now) (λ m. MatchResult result
            (λ names. m.names ≡ Some (map string_bytes names.items)) (IsNotHad m.names)) };

    /// The first 256 bytes of a function's configuration space. `Short` where there are less.
    fn config(&self, alloc: Global, place: Place) -> Result<Image, Trouble>
        ensures { IfSome (shown self.now) (λ m. MatchResult result
            (λ image. IsFileFront (m.config place) image.0) (IsNoFront (m.config place))) };

    /// The text that tells of a function's address registers.
    fn resource(&self, alloc: Global, place: Place) -> Result<String, Trouble>
        ensures { IfSome (shown self.now) (λ m. MatchResult result
            (λ text. m.resource place ≡ Some (string_bytes text)) (IsNotHad (m.resource place))) };

    /// The path that the link of a function's folder leads to.
    fn link(&self, alloc: Global, place: Place) -> Result<String, Trouble>
        ensures { IfSome (shown self.now) (λ m. MatchResult result
            (λ path. m.link place ≡ Some (string_bytes path)) (IsNotHad (m.link place))) };

    /// Whether a function is a virtual one, whose registers are in those of its physical function.
    fn is_virtual(&self, alloc: Global, place: Place) -> Result<bool, Trouble>
        ensures { IfSome (shown self.now) (λ m. MatchResult result
            (λ yes. m.is_virtual place ≡ Some yes) (IsNotHad (m.is_virtual place))) };

    /// The text of `/proc/ioports`, None where it can't be read.
    fn ioports(&self, alloc: Global) -> Result<Option<String>, OutOfMemory>
        ensures { IfSome (shown self.now) (λ m. IfOk result (λ text. IsText m.ioports text)) };

    /// The text of `/proc/iomem`, None where it can't be read.
    fn iomem(&self, alloc: Global) -> Result<Option<String>, OutOfMemory>
        ensures { IfSome (shown self.now) (λ m. IfOk result (λ text. IsText m.iomem text)) };

    /// What the kernel's log tells of a function's registers.
    fn in_log(&self, place: Place) -> Registers
        ensures { IfSome (shown self.now) (λ m. result ≡ m.log place) };
}
