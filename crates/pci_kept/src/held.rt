//! What is taken on a bus by the parts that stay where they are.
ghost use Rattle.std.specs.Prelude.{◌≡◌, ◌++◌, ◌≤◌, ◌<◌, IfOk, OnOk, length, map};
ghost use Rattle.std.specs.List.{AllWithin, filter};
ghost use Rattle.std.specs.List.Sorted.{IsPermutation, IsNonDecreasingBy};
ghost use Rattle.pci_base.specs.Space.{space_of};
ghost use Rattle.pci_place.specs.Above.{system_in};
ghost use Rattle.pci_first_fit.specs.Lists.{lists_value};
ghost use Rattle.pci_first_fit.specs.Spots.{AreRisingRanges};
ghost use Rattle.pci_first_fit.specs.Tables.{AreForward};
ghost use Rattle.pci_kept.specs.Held.{is_region_kept, kept_range, held_of, held_level, held_range, is_level_on, AreByLevel, AreHeldIn};

use crate::collect::regions;
use crate::region::Region;
use crate::rules::Rules;
use pci_base::memory::OutOfMemory;
use pci_base::range::Range;
use pci_base::space::Space;
use pci_first_fit::bus::kept_by;
use pci_first_fit::kept::{Kept, Part};
use pci_first_fit::list::Lists;
use pci_first_fit::spot::sort_by_first;
use pci_first_fit::table::{WindowRanges, told_of};
use pci_tree::admitted::Admitted;
use std::alloc::Allocator;

/// The addresses of a part that stays.
#[derive(Clone, Copy, Debug)]
pub struct Held {
    /// 0 where the part is on a root, else one more than its bus number: all roots are one bus.
    pub level: u16,
    pub space: Space,
    pub range: Range,
}

/// Whether a part keeps its place.
pub fn is_kept(kept: &[Kept], region: &Region) -> bool
    ensures { result ≡ is_region_kept kept.now region.now }
{
    kept_by(kept, region.function).keeps(region.part)
}

/// The addresses of a part that stays: what it comes to where it grows, or its own.
fn kept_range(grown: &[WindowRanges], region: &Region) -> Range
    ensures { result ≡ kept_range grown.now region.now }
{
    let told = match region.part {
        Part::Window(class) => told_of(grown, region.function, class),
        Part::Bar(_) | Part::Rom => None,
    };
    match told {
        Some(range) => range,
        None => region.range,
    }
}

/// Adds the addresses of the parts that keep their places.
fn add_held<A: Allocator>(
    held: &mut Vec<Held, A>,
    regions: &[Region],
    kept: &[Kept],
    grown: &[WindowRanges],
) -> Result<(), OutOfMemory>
    ensures { OnOk result (held.new.items
        ≡ held.old.items ++ map (held_of grown.now) (filter (is_region_kept kept.now) regions.now)) }
{
    for region in regions {
        if is_kept(kept, region) {
            held.push(Held {
                level: region.level,
                space: region.space,
                range: kept_range(grown, region),
            })?;
        }
    }
    Ok(())
}

/// Sorts parts by rising levels.
fn sort_by_level<A: Allocator>(held: &mut Vec<Held, A>)
    ensures permutation { IsPermutation held.old.items held.new.items }
    ensures order { IsNonDecreasingBy held_level held.new.items }
{
    held.sort_unstable_by_key(|one| one.level);
}

/// The addresses of all parts that keep their places, by rising levels: of a window that grows those to which it does.
pub fn held_parts<A: Allocator + Copy, B: Allocator>(
    alloc: A,
    admitted: &Admitted<B>,
    lists: &Lists,
    kept: &[Kept],
    grown: &[WindowRanges],
) -> Result<Vec<Held, A>, OutOfMemory>
    // what is free lies between two ranges that have addresses
    requires { AreForward grown.now }
    ensures held { IfOk result (λ held. AreHeldIn admitted.now.roots (system_in admitted.now)
        (lists_value lists.now) kept.now grown.now held.items) }
    // those of a bus are found by halving
    ensures order { IfOk result (λ held. AreByLevel held.items) }
{
    let mut held = Vec::new(alloc);
    if kept.is_empty() {
        return Ok(held);
    }
    // where the parts lie is the same whatever may move
    let rules = Rules {
        fixed: &[],
        anew: false,
    };
    let regions = regions(alloc, admitted, lists, &rules)?;
    add_held(&mut held, regions.as_slice(), kept, grown)?;
    sort_by_level(&mut held);
    Ok(held)
}

/// The index of the first part on this level or a higher one.
fn first_from(held: &[Held], level: u32) -> usize
    requires { IsNonDecreasingBy held_level held.now }
    ensures bound { result ≤ length held.now }
    ensures before { AllWithin (λ h. h.level < level) held.now 0 result }
    ensures after { AllWithin (λ h. level ≤ h.level) held.now result (length held.now) }
{
    held.partition_point(|one| u32::from(one.level) < level)
}

/// Whether a part is on a level, in a space.
fn is_on(one: &Held, level: u16, space: Space) -> bool
    ensures { result ≡ is_level_on level (space_of space) one.now }
{
    one.level == level
        && match space {
            Space::Io => one.space == Space::Io,
            Space::Mem => one.space == Space::Mem,
        }
}

/// Adds the addresses of the parts that are on a level, in a space.
fn add_taken<A: Allocator>(
    taken: &mut Vec<Range, A>,
    held: &[Held],
    level: u16,
    space: Space,
) -> Result<(), OutOfMemory>
    ensures { OnOk result (taken.new.items
        ≡ taken.old.items ++ map held_range (filter (is_level_on level (space_of space)) held.now)) }
{
    for one in held {
        if is_on(one, level, space) {
            taken.push(one.range)?;
        }
    }
    Ok(())
}

/// What is taken on a level in a space by the parts that stay there, by rising first addresses.
pub fn taken_on<A: Allocator>(
    alloc: A,
    held: &[Held],
    level: u16,
    space: Space,
) -> Result<Vec<Range, A>, OutOfMemory>
    // those of a level stand in a row, whose ends are found by halving
    requires { AreByLevel held.now }
    ensures taken { IfOk result (λ taken. IsPermutation
        (map held_range (filter (is_level_on level (space_of space)) held.now)) taken.items) }
    // places are looked for between them
    ensures listed { IfOk result (λ taken. AreRisingRanges taken.items) }
{
    let first = first_from(held, level as u32);
    let end = first_from(held, level as u32 + 1);
    let mut taken = Vec::new(alloc);
    add_taken(&mut taken, &held[first..end], level, space)?;
    sort_by_first(&mut taken);
    Ok(taken)
}
