//! The enabled BARs and ROMs, which have to be sent and reached.
ghost use Rattle.std.specs.Prelude.{◌≡◌, ◌++◌, OnOk};
ghost use Rattle.pci_base.specs.Space.{space_of};
ghost use Rattle.pci_faults.specs.Clashes.{IsOnBusIn};
ghost use Rattle.pci_faults.specs.Needed.{needed_among, AreBarsAdded, AreNeededAppended, IsOfBar};

use super::named::Name;
use super::needed::Needed;
use pci_base::memory::OutOfMemory;
use pci_base::range::Range;
use pci_base::slot::BUSES;
use pci_base::space::Space;
use pci_tree::outline::Outline;
use pci_tree::region::{Part, Region};
use std::alloc::Allocator;

/// Adds the BARs and ROMs among the regions of a space.
fn add_among<A: Allocator>(
    out: &mut Vec<Needed, A>,
    regions: &[Region],
    space: Space,
) -> Result<(), OutOfMemory>
    ensures { OnOk result (out.new.items ≡ out.old.items ++ needed_among space regions.now) }
{
    for region in regions {
        match region.part {
            Part::Bar | Part::Rom => out.push(Needed {
                name: Name {
                    slot: region.slot,
                    register: u16::from(region.reg),
                },
                space,
                prefetch: region.prefetch,
                range: Range {
                    first: region.first,
                    last: region.last,
                },
            })?,
            Part::Window => {}
        }
    }
    Ok(())
}

/// Adds those of a bus in a space.
fn add_in<A: Allocator + Copy>(
    out: &mut Vec<Needed, A>,
    outline: &Outline<A>,
    bus: u8,
    space: Space,
) -> Result<(), OutOfMemory>
    ensures { OnOk result (AreBarsAdded (IsOnBusIn bus (space_of space)) outline.now out.old.items
        out.new.items) }
{
    let regions = outline.regions(bus, space)?;
    add_among(out, &regions, space)
}

/// Adds those of a bus.
fn add_on<A: Allocator + Copy>(
    out: &mut Vec<Needed, A>,
    outline: &Outline<A>,
    bus: u8,
) -> Result<(), OutOfMemory>
    ensures { OnOk result (AreBarsAdded (λ b sp. b ≡ bus) outline.now out.old.items out.new.items) }
{
    add_in(out, outline, bus, Space::Io)?;
    add_in(out, outline, bus, Space::Mem)
}

/// Adds those of all buses.
pub fn add_bars_and_roms<A: Allocator + Copy>(
    out: &mut Vec<Needed, A>,
    outline: &Outline<A>,
) -> Result<(), OutOfMemory>
    ensures { OnOk result (AreNeededAppended IsOfBar outline.now out.old.items out.new.items) }
{
    for bus in 0..BUSES {
        add_on(out, outline, bus as u8)?;
    }
    Ok(())
}
