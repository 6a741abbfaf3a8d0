//! What is derived for a BAR (PCI 3.0, 6.2.5.1).
ghost use Rattle.std.specs.Prelude.{◌≡◌, ◌+◌, ◌-◌, ◌*◌, ◌%◌, ◌^◌, ◌<◌, ◌≤◌, true, false, ⊤, if◌then◌else◌, MatchOption};
ghost use Rattle.pci_spec.specs.Bar as bars;
ghost use Rattle.pci_spec.specs.Header as header;
ghost use Rattle.pci_spec.specs.Machine.{without_low};
ghost use Rattle.pci_spec.specs.Resource.{address_count, tells_bar};
ghost use Rattle.pci_spec.specs.Derived as spec;
ghost use Rattle.pci_image.specs.Layouts.{layout_number};
ghost use Rattle.pci_machine.specs.Derived.{derived_of};

use super::derived::Derived;
use super::resource_line::ResourceLine;
use pci_base::image::Image;
use pci_base::offset::BASE_ADDRESS;
use pci_image::bar::{is_io, is_wide};
use pci_image::layout::Layout;

/// How many encodings the low bits of a BAR have; it has as many addresses at least.
fn encodings(value: u64) -> u64
    ensures { result ≡ bars.encodings value }
{
    if is_io(value) { 4 } else { 16 }
}

/// A number in place of a BAR's address, with the BAR's encoding.
fn with_encoding(number: u64, value: u64) -> u64
    ensures { result ≡ without_low (bars.encodings value) number + value % bars.encodings value }
{
    if is_io(value) {
        number / 4 * 4 + value % 4
    } else {
        number / 16 * 16 + value % 16
    }
}

/// The address that a BAR shows.
fn address(value: u64) -> u64
    ensures { result ≡ without_low (bars.encodings value) value }
{
    if is_io(value) {
        value / 4 * 4
    } else {
        value / 16 * 16
    }
}

/// The size that a line tells of a BAR that shows a value.
#[tactic(auto, unfolding(pci_spec::specs::Resource::tells_bar))]
fn told_size(line: ResourceLine, wide: bool, value: u64) -> Option<u64>
    ensures told { MatchOption result (tells_bar line (if wide then 64 else 32) value ≡ false)
        (λ size. (tells_bar line (if wide then 64 else 32) value ≡ true)
        × (size ≡ address_count line)) }
    ensures bounds { MatchOption result ⊤
        (λ size. (1 ≤ size) × (size ≤ 2 ^ 63) × (wide ≡ false → size ≤ 2 ^ 31)) }
{
    let step = encodings(value);
    if !line.is_of_register()
        || line.is_of_io() != is_io(value)
        || line.flags % step != value % step
    {
        return None;
    }
    let size = line.size(if wide { 63 } else { 31 })?;
    if address(value) % size == 0 {
        Some(size)
    } else {
        None
    }
}

/// The read back of a BAR of so many addresses.
#[tactic(auto, unfolding(pci_spec::specs::Derived::bar_of_size))]
fn of_size(wide: bool, value: u64, size: u64) -> u64
    requires some { 1 ≤ size }
    requires narrow { wide ≡ false → size ≤ 2 ^ 31 }
    ensures { result ≡ spec.bar_of_size (if wide then 64 else 32) value size }
{
    let ones = if wide { u64::MAX } else { 0xffff_ffff };
    with_encoding(ones - (size - 1), value)
}

/// What is derived for a BAR that shows a value.
#[tactic(auto, unfolding(pci_spec::specs::Derived::derived_bar))]
fn derived(line: ResourceLine, wide: bool, value: u64) -> Derived
    ensures { derived_of result ≡ spec.derived_bar line (if wide then 64 else 32) value }
{
    if let Some(size) = told_size(line, wide, value) {
        return Derived::Known(of_size(wide, value, size));
    }
    if value != 0 {
        return Derived::Untold(of_size(wide, value, encodings(value)));
    }
    if line.is_of_register() {
        Derived::OtherSize
    } else {
        Derived::Known(0)
    }
}

/// What is derived for the BAR at register `n`, of its line.
pub fn bar(image: &Image, line: ResourceLine, layout: Layout, n: u8) -> Derived
    // no 64-bit BAR starts in the last BAR register, and which that is hangs on the layout
    requires header { header.layout image.now.0 ≡ layout_number layout }
    // no header has more BAR registers
    requires few { n < 6 }
    ensures { derived_of result
        ≡ spec.derived_bar line (spec.bar_width image.now.0 n) (spec.shown_bar image.now.0 n) }
{
    let register = BASE_ADDRESS + 4 * n;
    let low = image.u32(register);
    let wide = is_wide(low) && n + 1 < layout.bar_count();
    let value = if wide {
        u64::from(low) + 0x1_0000_0000 * u64::from(image.u32(register + 4))
    } else {
        low.into()
    };
    derived(line, wide, value)
}
