//! What is derived for an expansion ROM (PCI 3.0, 6.2.5.2).
ghost use Rattle.std.specs.Prelude.{◌≡◌, ◌≤◌, ◌^◌, ◌<◌, ⊤, true, false, MatchOption};
ghost use Rattle.pci_spec.specs.Resource.{address_count, tells_rom};
ghost use Rattle.pci_spec.specs.Derived as spec;
ghost use Rattle.pci_machine.specs.Derived.{derived_of, IsNarrow};

use super::derived::Derived;
use super::resource_line::ResourceLine;

/// The least size of a ROM; its address stands in the bits from there upward.
const LEAST: u64 = 2048;

/// The size that a line tells of a ROM whose register shows a value.
#[tactic(auto, unfolding(pci_spec::specs::Resource::tells_rom))]
fn told_size(line: ResourceLine, value: u64) -> Option<u64>
    ensures told { MatchOption result (tells_rom line value ≡ false)
        (λ size. (tells_rom line value ≡ true) × (size ≡ address_count line)) }
    ensures bounds { MatchOption result ⊤ (λ size. (1 ≤ size) × (size ≤ 2 ^ 31)) }
{
    if !line.is_of_memory() || line.is_shadow() {
        return None;
    }
    let size = line.size(31)?;
    if value / LEAST * LEAST % size == 0 {
        Some(size)
    } else {
        None
    }
}

/// What is derived for a ROM whose register shows a value.
#[tactic(auto, unfolding(pci_spec::specs::Derived::derived_rom))]
pub fn rom(line: ResourceLine, enabled: bool, value: u32) -> Derived
    ensures derived { derived_of result ≡ spec.derived_rom line enabled value }
    // the probe takes 32 bits of it, and none may be lost
    ensures narrow { IsNarrow result }
{
    if let Some(size) = told_size(line, value.into()) {
        return Derived::Known((0x1_0000_0000 - size) / LEAST * LEAST);
    }
    if value == 0 {
        return Derived::Known(0);
    }
    let least = 0x1_0000_0000 - LEAST;
    if value % 2 == 1 && enabled {
        Derived::Untold(least)
    } else {
        Derived::Assumed(least)
    }
}
