//! What is derived for each address register of a function.
ghost use Rattle.std.specs.Prelude.{◌≡◌, ◌<◌, IsTrue};
ghost use Rattle.pci_spec.specs.Header as header;
ghost use Rattle.pci_spec.specs.Derived as spec;
ghost use Rattle.pci_image.specs.Layouts.{layout_number, is_of_bridge};
ghost use Rattle.pci_image.specs.Registers.{has_place};
ghost use Rattle.pci_machine.specs.Derived.{derived_of, IsNarrow};

use super::derive_bar::bar;
use super::derive_rom::rom;
use super::derive_window::{bounds, io_upper, prefetchable_upper};
use super::derived::Derived;
use super::resource_line::ResourceLine;
use pci_base::image::Image;
use pci_base::offset::COMMAND;
use pci_base::space::Space;
use pci_image::bar::starts_bar;
use pci_image::layout::Layout;
use pci_image::register::{Register, Role};

/// What is derived for BAR register `n`: of a BAR, or the upper half of the one before.
#[tactic(auto, unfolding(pci_spec::specs::Derived::bar_register_derived))]
fn bar_register(image: &Image, lines: &[ResourceLine; 7], layout: Layout, n: u8) -> Derived
    requires header { header.layout image.now.0 ≡ layout_number layout }
    requires few { n < 6 }
    ensures derived { derived_of result ≡ spec.bar_register_derived image.now.0 lines.now n }
    ensures narrow { IsNarrow result }
{
    if n == 0 || starts_bar(image, n) {
        bar(image, lines[usize::from(n)], layout, n).lower_half()
    } else {
        Derived::Known(bar(image, lines[usize::from(n - 1)], layout, n - 1).upper_half())
    }
}

/// What is derived for an address register of a header, by what its function shows and what Linux
/// tells: `lines` 0 to 5 are of the BAR registers, line 6 of the ROM.
/// A read back has 32 bits; a 64-bit BAR is derived as a whole, and named by its lower register.
#[tactic(auto, unfolding(pci_spec::specs::Derived::register_derived))]
pub fn register(
    image: &Image,
    lines: &[ResourceLine; 7],
    layout: Layout,
    register: Register,
) -> Derived
    requires header { header.layout image.now.0 ≡ layout_number layout }
    // what is derived is picked by the role, so the register has to stand where that says
    requires place { IsTrue (has_place (is_of_bridge layout) register) }
    ensures derived { derived_of result
        ≡ spec.register_derived image.now.0 lines.now register.offset }
    // the probe takes 32 bits of it, and none may be lost
    ensures narrow { IsNarrow result }
{
    match register.role {
        Role::Bar(n) => bar_register(image, lines, layout, n),
        Role::Rom => {
            let enabled = Space::Mem.is_on(image.u16(COMMAND));
            rom(lines[6], enabled, image.u32(register.offset))
        }
        Role::Bounds(kind) => bounds(image, kind),
        Role::IoUpper => io_upper(image),
        Role::PrefetchableBaseUpper | Role::PrefetchableLimitUpper => prefetchable_upper(image),
        Role::Control(_) | Role::Status(_) => unreachable!(),
    }
}
