//! The address windows of a bridge (Bridge 1.2, 3.2.5).
ghost use Rattle.std.specs.Prelude.{◌≡◌, ◌↔◌, IsOk, IfOk};

use super::fault::ImageFault;
use super::header::Header;
use pci_base::image::Image;
use pci_base::range::Range;
use pci_base::window_kind::WindowKind;
use std::marker::Model;

/// A window that is implemented: its range, and whether it has upper halves.
#[derive(Clone, Copy, Debug, PartialEq, Eq)]
pub struct Window {
    range: Option<Range>,
    wide: bool,
}

impl Model for Window {
    ghost use Rattle.std.specs.Option.{option_map};
    ghost use Rattle.pci_spec.specs.Decoded.{DecodedWindow};
    ghost use Rattle.pci_base.specs.Ranges.{decoded_range_of, range_of_decoded};

    ghost Value = { DecodedWindow };

    ghost view = { λ w. record { wide = w.wide; range = option_map decoded_range_of w.range } };

    ghost inverse = { λ v. record { range = option_map range_of_decoded v.range; wide = v.wide } };
}

/// The windows of a bridge; each of I/O and prefetchable memory may be unimplemented.
#[derive(Clone, Copy, Debug, PartialEq, Eq)]
pub struct Windows {
    pub io: Option<Window>,
    pub mem: Window,
    pub pref: Option<Window>,
}

impl Window {
    ghost use Rattle.std.specs.Prelude.{MatchResult, IsTrue, IsFalse};
    ghost use Rattle.std.specs.Option.{option_map};
    ghost use Rattle.pci_spec.specs.Window.{bounds_at, breaks_window_rule, is_optional, window_register, shows_window};
    ghost use Rattle.pci_spec.specs.Decoded.{decoded_window, optional_window};
    ghost use Rattle.pci_base.specs.WindowKinds.{kind_value};
    ghost use Rattle.pci_base.specs.Ranges.{decoded_range_of};

    /// The addresses that the window holds; none where it is closed, its base above its limit.
    pub fn range(&self) -> Option<Range>
        ensures { option_map decoded_range_of result ≡ self.now.range }
    {
        self.range
    }

    /// Whether the window has upper halves, for 32-bit I/O or 64-bit prefetchable addresses.
    pub fn wide(&self) -> bool
        ensures { result ≡ self.now.wide }
    {
        self.wide
    }

    /// A window that is implemented.
    fn implemented(kind: WindowKind, image: &Image, probe: &Image) -> Result<Window, ImageFault>
        ensures { MatchResult result
            (λ w. IsTrue (shows_window (kind_value kind) (bounds_at (kind_value kind) image.now.0)
            (bounds_at (kind_value kind) probe.now.0))
            × (w ≡ decoded_window (kind_value kind) image.now.0 probe.now.0))
            (λ f. IsFalse (shows_window (kind_value kind) (bounds_at (kind_value kind) image.now.0)
            (bounds_at (kind_value kind) probe.now.0))
            × (f ≡ ImageFault.WindowMask (window_register (kind_value kind)))) }
    {
        let value = kind.bounds(image);
        let Some(wide) = kind.has_upper(value, kind.bounds(probe)) else {
            return Err(ImageFault::WindowMask(kind.register()));
        };
        Ok(Window {
            range: kind.range(value),
            wide,
        })
    }

    /// A window that a bridge may leave out.
    fn optional(
        kind: WindowKind,
        image: &Image,
        probe: &Image,
    ) -> Result<Option<Window>, ImageFault>
        requires { IsTrue (is_optional (kind_value kind)) }
        ensures { MatchResult result
            (λ w. IsFalse (breaks_window_rule (kind_value kind) image.now.0 probe.now.0)
            × (w ≡ optional_window (kind_value kind) image.now.0 probe.now.0))
            (λ f. IsTrue (breaks_window_rule (kind_value kind) image.now.0 probe.now.0)
            × (f ≡ ImageFault.WindowMask (window_register (kind_value kind)))) }
    {
        if kind.bounds(image).is_zero() && kind.bounds(probe).is_zero() {
            return Ok(None);
        }
        Ok(Some(Window::implemented(kind, image, probe)?))
    }

    /// Whether the window of a kind breaks its rule, in a bridge.
    pub fn breaks_rule(kind: WindowKind, image: &Image, probe: &Image) -> bool
        ensures { result ≡ breaks_window_rule (kind_value kind) image.now.0 probe.now.0 }
    {
        match kind {
            WindowKind::Memory => Window::implemented(kind, image, probe).is_err(),
            WindowKind::Io | WindowKind::Prefetchable => {
                Window::optional(kind, image, probe).is_err()
            }
        }
    }
}

impl Windows {
    ghost use Rattle.std.specs.Prelude.{IfErr};
    ghost use Rattle.pci_spec.specs.Decoded.{decoded_windows};
    ghost use Rattle.pci_base.specs.WindowKinds.{kind_value};
    ghost use Rattle.pci_image.specs.Faults.{HasNoHeaderFaultBefore};
    ghost use Rattle.pci_image.specs.Windows.{decoded_windows_of, window_of, HasLawfulWindows, HoldsAsComparators, IsWindowsFaultIn, IsLowestWindowFault};

    /// The windows of a bridge.
    ///
    /// `probe` holds what the registers read back after all ones were written to them.
    ///
    /// # Errors
    ///
    /// 20 `NoVendor` where no function answers; 21 `HeaderKind` where the header isn't a bridge's;
    /// then 26 `WindowMask` with the register 1Ch, 20h or 24h of the first window whose read backs or
    /// values are none that are decoded.
    pub fn of(image: &Image, probe: &Image) -> Result<Windows, ImageFault>
        ensures lawful { IsOk result ↔ HasLawfulWindows image.now.0 probe.now.0 }
        ensures decoded { IfOk result
            (λ w. decoded_windows_of w ≡ decoded_windows image.now.0 probe.now.0) }
        // a window that is absent or closed holds no address, and above the two are alike
        ensures compared { IfOk result (HoldsAsComparators image.now.0 probe.now.0) }
        // 21 is also what a device gets: its header decodes, but windows are a bridge's
        ensures fault { IfErr result (IsWindowsFaultIn image.now.0 probe.now.0) }
        // so 20 comes before 21, and both before what registers have
        ensures header { IfErr result (HasNoHeaderFaultBefore image.now.0) }
        ensures lowest { IfErr result (IsLowestWindowFault image.now.0 probe.now.0) }
    {
        let Header::Type1(_) = Header::of(image)? else {
            return Err(ImageFault::HeaderKind);
        };
        Ok(Windows {
            io: Window::optional(WindowKind::Io, image, probe)?,
            mem: Window::implemented(WindowKind::Memory, image, probe)?,
            pref: Window::optional(WindowKind::Prefetchable, image, probe)?,
        })
    }

    /// The window of a kind, where it is implemented.
    pub fn get(&self, kind: WindowKind) -> Option<Window>
        ensures { result ≡ window_of self.now (kind_value kind) }
    {
        match kind {
            WindowKind::Io => self.io,
            WindowKind::Memory => Some(self.mem),
            WindowKind::Prefetchable => self.pref,
        }
    }
}
