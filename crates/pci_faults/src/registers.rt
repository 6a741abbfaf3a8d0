//! Each fault of a function's registers, and that of its capabilities list.
ghost use Rattle.std.specs.Prelude.{◌≡◌, ◌<◌, ◌==◌, ◌&&◌, None, IsFalse, MatchOption};
ghost use Rattle.std.specs.Bool.{then_some};
ghost use Rattle.pci_spec.specs.Header.{bar_count, layout};
ghost use Rattle.pci_spec.specs.Bar as bar;
ghost use Rattle.pci_spec.specs.Rom.{breaks_rom_rule};
ghost use Rattle.pci_spec.specs.Window.{window_register, breaks_window_rule};
ghost use Rattle.pci_spec.specs.Capability.{HasChain};
ghost use Rattle.pci_base.specs.WindowKinds.{kind_value};
ghost use Rattle.pci_function.specs.Fault.{fault_of};
ghost use Rattle.pci_faults.specs.OwnLines.{HasNoneBefore, AreOwnLines};
ghost use Rattle.pci_faults.specs.Registers.{IsBarTold, IsRomTold, IsListTold};

use pci_base::image::Image;
use pci_base::slot::Slot;
use pci_base::window_kind::WindowKind;
use pci_function::fault::Fault;
use pci_image::bar::bar_fault;
use pci_image::capability::places;
use pci_image::layout::Layout;
use pci_image::rom::register::rom;
use pci_image::window::Window;

/// How many Base Address registers the header has.
fn bar_count(image: &Image) -> u8
    ensures { result ≡ bar_count (layout image.now.0) }
{
    Layout::or_device(image).bar_count()
}

/// Of 22 to 24 the first of BAR register `n`, where the header has that register.
fn register_fault(slot: Slot, image: &Image, probe: &Image, count: u8, n: u8) -> Option<Fault>
    requires register { n < 6 }
    requires count { count ≡ bar_count (layout image.now.0) }
    ensures { MatchOption result
        (n < bar_count (layout image.now.0) → bar.bar_fault image.now.0 probe.now.0 n ≡ None)
        (λ e. IsBarTold slot image.now.0 probe.now.0 n (fault_of e)) }
{
    if count <= n {
        return None;
    }
    match bar_fault(image, probe, n, count) {
        None => None,
        Some(fault) => Some(Fault::of_image(slot, fault)),
    }
}

/// 25 of the ROM, where the function has none of identity.
fn rom_fault(slot: Slot, image: &Image, probe: &Image) -> Option<Fault>
    ensures { HasNoneBefore 2 record {
      slot = slot;
      image = image.now.0;
      probe = probe.now.0;
    } → MatchOption result (IsFalse (breaks_rom_rule image.now.0 probe.now.0))
        (λ e. IsRomTold slot image.now.0 probe.now.0 (fault_of e)) }
{
    match rom(image, probe) {
        Ok(_) => None,
        Err(fault) => Some(Fault::of_image(slot, fault)),
    }
}

/// 26 of a bridge's window.
fn window_fault(slot: Slot, image: &Image, probe: &Image, kind: WindowKind) -> Option<Fault>
    ensures { result ≡ then_some
        (layout image.now.0 == 1
        && breaks_window_rule (kind_value kind) image.now.0 probe.now.0)
        (Fault.WindowMask slot (window_register (kind_value kind))) }
{
    let is_bridge = Layout::or_device(image) == Layout::Bridge;
    let breaks = is_bridge && Window::breaks_rule(kind, image, probe);
    breaks.then_some(Fault::WindowMask(slot, kind.register()))
}

/// Of 27 to 29 the first along the capabilities list.
fn list_fault(slot: Slot, image: &Image) -> Option<Fault>
    ensures { MatchOption result (HasChain image.now.0)
        (λ e. IsListTold slot image.now.0 (fault_of e)) }
{
    match places(image) {
        Ok(_) => None,
        Err(fault) => Some(Fault::of_image(slot, fault)),
    }
}

/// Of each register the first of 22 to 26, and of the capabilities list the first of 27 to 29, where the function has
/// none of identity.
pub fn decoding_faults(slot: Slot, image: &Image, probe: &Image) -> [Option<Fault>; 11]
    ensures { HasNoneBefore 2 record {
      slot = slot;
      image = image.now.0;
      probe = probe.now.0;
    } → AreOwnLines 2 record { slot = slot; image = image.now.0; probe = probe.now.0 } result }
{
    let count = bar_count(image);
    [
        register_fault(slot, image, probe, count, 0),
        register_fault(slot, image, probe, count, 1),
        register_fault(slot, image, probe, count, 2),
        register_fault(slot, image, probe, count, 3),
        register_fault(slot, image, probe, count, 4),
        register_fault(slot, image, probe, count, 5),
        rom_fault(slot, image, probe),
        window_fault(slot, image, probe, WindowKind::Io),
        window_fault(slot, image, probe, WindowKind::Memory),
        window_fault(slot, image, probe, WindowKind::Prefetchable),
        list_fault(slot, image),
    ]
}
