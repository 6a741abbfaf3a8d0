//! The lines of the root buses.
ghost use Rattle.std.specs.Prelude.{◌≡◌, ◌∷◌, [], length, IfOk, OnOk};
ghost use Rattle.std.specs.String.{string_bytes};
ghost use Rattle.std.specs.List.{Contains, range_with_len};
ghost use Rattle.pci_spec.specs.System.{System};
ghost use Rattle.pci_base.specs.Space.{space_of};
ghost use Rattle.pci_claims.specs.Values.{code_given_value, told_value};
ghost use Rattle.pci_map.specs.Values.{mapped_of};
ghost use Rattle.pci_map.specs.Mapped.{AreToldOn, IsSystemWith};
ghost use Rattle.pci_map.specs.Buses.{AreTakingsTold, IsSpaceTold, AreRootsTold};

use super::above::in_place;
use super::bus_seats::seats_on;
use super::gaps::free_on_root;
use super::inside::Inside;
use super::line::push_heading;
use super::mapped::Mapped;
use super::takings::push_takings;
use super::walk::{Walk, push_place};
use pci_base::memory::OutOfMemory;
use pci_base::slot::BUSES;
use pci_base::space::Space;
use std::alloc::Allocator;

/// The lines of what bridges take on a root bus and below it, of a space.
fn taken_text<A: Allocator + Copy>(
    walk: &Walk<'_, '_, '_, A>,
    root: u8,
) -> Result<String<A>, OutOfMemory>
    requires told { AreToldOn (told_value walk.now.mapped.now.told) walk.now.mapped.now.outline.now walk.now.mapped.now.on.now }
    requires ways { length walk.now.mapped.now.ways.now ≡ 256 }
    ensures { IfOk result (λ text. (s : System)
        → IsSystemWith (told_value walk.now.mapped.now.told) (code_given_value walk.now.mapped.now.given) walk.now.mapped.now.outline.now walk.now.mapped.now.above.now walk.now.mapped.now.ways.now walk.now.mapped.now.takers.now s
        → Contains walk.now.mapped.now.outline.now.roots root
        → AreTakingsTold (mapped_of (told_value walk.now.mapped.now.told) (code_given_value walk.now.mapped.now.given) walk.now.mapped.now.outline.now s (space_of walk.now.space))
        root walk.now.mapped.now.takers.now [] (string_bytes text)) }
{
    let mut text = String::new(walk.alloc);
    push_takings(walk, &mut text, root)?;
    Ok(text)
}

/// Appends the lines of a root bus and a space below their heading, if there are any.
fn push_space<A: Allocator + Copy, B: Allocator>(
    alloc: A,
    text: &mut String<B>,
    mapped: &Mapped<'_, '_, A>,
    bus: u8,
    space: Space,
) -> Result<(), OutOfMemory>
    requires told { AreToldOn (told_value mapped.now.told) mapped.now.outline.now mapped.now.on.now }
    // bus numbers index it
    requires ways { length mapped.now.ways.now ≡ 256 }
    ensures { OnOk result ((s : System)
        → IsSystemWith (told_value mapped.now.told) (code_given_value mapped.now.given) mapped.now.outline.now mapped.now.above.now mapped.now.ways.now mapped.now.takers.now s
        → Contains mapped.now.outline.now.roots bus
        → IsSpaceTold (mapped_of (told_value mapped.now.told) (code_given_value mapped.now.given) mapped.now.outline.now s
        (space_of space)) bus (string_bytes text.old) (string_bytes text.new)) }
{
    let walk = Walk {
        alloc,
        mapped,
        space,
    };
    let all = seats_on(alloc, mapped, bus, space)?;
    let runs = free_on_root(alloc, &mapped.given, space, bus, all.as_slice())?;
    let regions = in_place(alloc, mapped.above, space, bus, all)?;
    let taken = taken_text(&walk, bus)?;
    if regions.is_empty() && runs.is_empty() && taken.is_empty() {
        return Ok(());
    }
    let place = Inside { bus, regions, runs };
    push_heading(text, bus, space)?;
    push_place(&walk, text, 1, &place)?;
    text.push_str(taken.as_str())?;
    Ok(())
}

/// Appends the lines of a bus, if it is a root.
fn push_bus<A: Allocator + Copy, B: Allocator>(
    alloc: A,
    text: &mut String<B>,
    mapped: &Mapped<'_, '_, A>,
    bus: u8,
) -> Result<(), OutOfMemory>
    requires told { AreToldOn (told_value mapped.now.told) mapped.now.outline.now mapped.now.on.now }
    requires ways { length mapped.now.ways.now ≡ 256 }
    ensures { OnOk result ((s : System)
        → IsSystemWith (told_value mapped.now.told) (code_given_value mapped.now.given) mapped.now.outline.now mapped.now.above.now mapped.now.ways.now mapped.now.takers.now s
        → AreRootsTold (told_value mapped.now.told) (code_given_value mapped.now.given) mapped.now.outline.now.roots s (bus ∷ [])
        (string_bytes text.old) (string_bytes text.new)) }
{
    if !mapped.outline.roots().has(bus) {
        return Ok(());
    }
    push_space(alloc, text, mapped, bus, Space::Io)?;
    push_space(alloc, text, mapped, bus, Space::Mem)
}

/// Appends the lines of the root buses, rising, of each the I/O space before memory.
pub fn push_roots<A: Allocator + Copy, B: Allocator>(
    alloc: A,
    text: &mut String<B>,
    mapped: &Mapped<'_, '_, A>,
) -> Result<(), OutOfMemory>
    requires told { AreToldOn (told_value mapped.now.told) mapped.now.outline.now mapped.now.on.now }
    requires ways { length mapped.now.ways.now ≡ 256 }
    ensures { OnOk result ((s : System)
        → IsSystemWith (told_value mapped.now.told) (code_given_value mapped.now.given) mapped.now.outline.now mapped.now.above.now mapped.now.ways.now mapped.now.takers.now s
        → AreRootsTold (told_value mapped.now.told) (code_given_value mapped.now.given) mapped.now.outline.now.roots s
        (range_with_len 0 256)
        (string_bytes text.old) (string_bytes text.new)) }
{
    for bus in 0..BUSES {
        push_bus(alloc, text, mapped, bus as u8)?;
    }
    Ok(())
}
