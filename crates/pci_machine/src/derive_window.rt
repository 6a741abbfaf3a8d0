//! What is derived for the windows of a bridge (Bridge 1.2, 3.2.5).
ghost use Rattle.std.specs.Prelude.{◌≡◌, IsTrue, ◌<◌, ◌==◌, true, false, if◌then◌else◌, MatchOption};
ghost use Rattle.pci_spec.specs.Registers.{IO_BASE_UPPER, PREFETCHABLE_BASE_UPPER, PREFETCHABLE_LIMIT_UPPER};
ghost use Rattle.pci_spec.specs.Window.{is_optional, window_register};
ghost use Rattle.pci_base.specs.WindowKinds.{kind_value};
ghost use Rattle.pci_spec.specs.Derived as spec;
ghost use Rattle.pci_machine.specs.Derived.{derived_of, IsNarrow};

use super::derived::Derived;
use pci_base::image::Image;
use pci_base::offset::COMMAND;
use pci_base::space::Space;
use pci_base::window_kind::WindowKind;

/// The low nibble of a window's base, unless all its registers show 0.
fn nibble(kind: WindowKind, image: &Image) -> Option<u64>
    requires { IsTrue (is_optional (kind_value kind)) }
    ensures { MatchOption result (spec.shows_none (kind_value kind) image.now.0 ≡ true)
        (λ n. (spec.shows_none (kind_value kind) image.now.0 ≡ false)
        × (n ≡ spec.window_nibble (kind_value kind) image.now.0) × (n < 16)) }
{
    let bounds = kind.bounds(image);
    if bounds.is_zero() {
        return None;
    }
    Some(u64::from(bounds.base % 16))
}

/// A window that is taken as absent: where its space is enabled, that is assumed.
fn absent(enabled: bool) -> Derived
    ensures { derived_of result ≡ (if enabled then spec.Assumed 0 else spec.Known 0) }
{
    if enabled {
        Derived::Assumed(0)
    } else {
        Derived::Known(0)
    }
}

/// The read back of upper halves of 32 bits, which are there where the nibble isn't 0.
fn upper(nibble: Option<u64>) -> Derived
    ensures { MatchOption nibble (derived_of result ≡ spec.Known 0)
        (λ n. derived_of result ≡ spec.Known (if n == 0 then 0 else 0xffff_ffff)) }
{
    match nibble {
        None | Some(0) => Derived::Known(0),
        Some(_) => Derived::Known(0xffff_ffff),
    }
}

/// What is derived for the register of a window's base and limit.
#[tactic(auto, unfolding(pci_spec::specs::Derived::window_register_derived, pci_spec::specs::Derived::window_read_back))]
pub fn bounds(image: &Image, kind: WindowKind) -> Derived
    ensures derived { derived_of result
        ≡ spec.window_register_derived image.now.0 (window_register (kind_value kind)) }
    // the probe takes 32 bits of it, and none may be lost
    ensures narrow { IsNarrow result }
{
    let command = image.u16(COMMAND);
    match kind {
        WindowKind::Io => match nibble(WindowKind::Io, image) {
            None => absent(Space::Io.is_on(command)),
            Some(nibble) => Derived::Known(0xf0f0 + 0x101 * nibble),
        },
        WindowKind::Memory => Derived::Known(0xfff0_fff0),
        WindowKind::Prefetchable => match nibble(WindowKind::Prefetchable, image) {
            None => absent(Space::Mem.is_on(command)),
            Some(nibble) => Derived::Known(0xfff0_fff0 + 0x1_0001 * nibble),
        },
    }
}

/// What is derived for the register of the upper halves of I/O.
#[tactic(auto, unfolding(pci_spec::specs::Derived::window_register_derived, pci_spec::specs::Derived::window_read_back))]
pub fn io_upper(image: &Image) -> Derived
    ensures derived { derived_of result
        ≡ spec.window_register_derived image.now.0 IO_BASE_UPPER }
    // the probe takes 32 bits of it, and none may be lost
    ensures narrow { IsNarrow result }
{
    upper(nibble(WindowKind::Io, image))
}

/// What is derived for each of the two registers of the upper halves of the prefetchable window.
#[tactic(auto, unfolding(pci_spec::specs::Derived::window_register_derived, pci_spec::specs::Derived::window_read_back))]
pub fn prefetchable_upper(image: &Image) -> Derived
    ensures base { derived_of result
        ≡ spec.window_register_derived image.now.0 PREFETCHABLE_BASE_UPPER }
    ensures limit { derived_of result
        ≡ spec.window_register_derived image.now.0 PREFETCHABLE_LIMIT_UPPER }
    // the probe takes 32 bits of it, and none may be lost
    ensures narrow { IsNarrow result }
{
    upper(nibble(WindowKind::Prefetchable, image))
}
