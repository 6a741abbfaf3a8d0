//! The addresses that get to each bus, made from the roots downwards: those of a bus are what the bridge above it
//! passes of those of its own bus.
ghost use Rattle.std.specs.Prelude.{◌≡◌, ◌<◌, ◌↔◌, ℕ, List, length, IfOk, IfSome, IsTrue, slice_index_or};
ghost use Rattle.std.specs.List.{All};
ghost use Rattle.pci_base.specs.declared.range.Range.{Range};
ghost use Rattle.pci_base.specs.WindowKinds.{kind_value};
ghost use Rattle.pci_base.specs.Space.{space_of};
ghost use Rattle.pci_function.specs.Values.{record_value};
ghost use Rattle.pci_tree.specs.Ranges.{Covers, IsCanonical};
ghost use Rattle.pci_tree.specs.Passes.{record_passes};
ghost use Rattle.pci_tree.specs.Roots.{buses_of};
ghost use Rattle.pci_tree.specs.Ways.{IsForest, IsBridgeToBus};
ghost use Rattle.pci_tree.specs.Reaches.{IsReachOf, IsStep, IsWhole, HasSpans, StandsBelow};

use super::forwarded::{Forwarded, passed_on};
use super::roots::Roots;
use super::window::forwarded;
use pci_base::memory::OutOfMemory;
use pci_base::range::Range;
use pci_base::slot::BUSES;
use pci_base::space::Space;
use pci_base::window_kind::WindowKind;
use pci_function::record::Record;
use std::alloc::{Allocator, Global};
use std::marker::Model;

/// The addresses that get to a bus: ranges that rise, with an address between each two.
#[derive(Drop)]
pub struct Reach<A: Allocator = Global> {
    ranges: Vec<Range, A>,
}

impl<A: Allocator> Model for Reach<A> {
    ghost use Rattle.std.specs.Prelude.{List};
    ghost use Rattle.pci_base.specs.declared.range.Range.{Range};

    ghost Value = { List Range };

    ghost view = { λ r. r.ranges.items };
}

impl<A: Allocator> Reach<A> {
    /// Lends the ranges.
    pub fn ranges(&self) -> &[Range]
        ensures { result.now ≡ self.now }
    {
        self.ranges.as_slice()
    }

    /// Gives up the ranges.
    pub fn into_ranges(self) -> Vec<Range, A>
        ensures { result.items ≡ self }
    {
        let Reach { ranges } = self;
        ranges
    }
}

/// The addresses that one bridge passes of accesses of a kind: ranges that rise, with an address between each two.
pub fn passed_by<A: Allocator>(
    alloc: A,
    function: &Record,
    kind: WindowKind,
) -> Result<Vec<Range, A>, OutOfMemory>
    // of an empty window no address could be told
    requires { HasSpans function.now }
    ensures canonical { IfOk result (λ v. IsCanonical v.items) }
    ensures exact { IfOk result (λ v. (a : ℕ) → Covers v.items a
        ↔ IsTrue (record_passes (kind_value kind) a (record_value function.now))) }
{
    let mut ranges = Vec::new(alloc);
    match forwarded(function, kind) {
        Forwarded::Nothing => {}
        Forwarded::One(range) => ranges.push(range)?,
        Forwarded::Two(lower, upper) => {
            ranges.push(lower)?;
            ranges.push(upper)?;
        }
    }
    Ok(ranges)
}

/// All addresses of a space.
fn all_of<A: Allocator>(alloc: A, space: Space) -> Result<Vec<Range, A>, OutOfMemory>
    ensures { IfOk result (λ v. IsWhole (space_of space) v.items) }
{
    let mut ranges = Vec::new(alloc);
    ranges.push(space.whole())?;
    Ok(ranges)
}

/// The addresses that get to a bus, from those of the lower buses and the index of the bridge that leads there.
fn reach_of_bus<A: Allocator>(
    alloc: A,
    above: &[Reach<A>],
    records: &[Record],
    index: Option<usize>,
    kind: WindowKind,
    is_root: bool,
) -> Result<Vec<Range, A>, OutOfMemory>
    requires lower { IfSome index (StandsBelow records.now (length above.now)) }
    requires canonical { All IsCanonical above.now }
    requires spans { All HasSpans records.now }
    ensures { IfOk result
        (λ v. IsStep above.now records.now index (kind_value kind) is_root v.items) }
{
    if is_root {
        return all_of(alloc, Space::of(kind));
    }
    match index {
        None => Ok(Vec::new(alloc)),
        Some(index) => {
            let bridge = &records[index];
            let parent = &above[bridge.slot.bus() as usize];
            passed_on(alloc, parent.ranges(), forwarded(bridge, kind))
        }
    }
}

/// For each bus the addresses of a kind of access that get there from the roots.
pub fn reaches<A: Allocator + Copy>(
    alloc: A,
    records: &[Record],
    bridge_to_bus: &[Option<usize>; BUSES],
    roots: &Roots,
    kind: WindowKind,
) -> Result<Vec<Reach<A>, A>, OutOfMemory>
    // each bridge leads to a higher bus, so the bus above was done when it is met
    requires forest { IsForest records.now }
    // the bus above is found by one look into this table
    requires bridge_to_bus { IsBridgeToBus records.now bridge_to_bus.now }
    // an empty window would pass on an empty range, which no such list has
    requires spans { All HasSpans records.now }
    // bus numbers index it
    ensures size { IfOk result (λ v. length v.items ≡ 256) }
    ensures exact { IfOk result (λ v. (bus : ℕ) (d : List Range) → bus < 256
        → IsReachOf records.now (buses_of roots.now) (kind_value kind) bus
        (slice_index_or v.items bus d)) }
{
    let Ok(mut out) = Vec::with_capacity(alloc, BUSES) else {
        return Err(OutOfMemory);
    };
    for bus in 0..BUSES {
        let ranges = reach_of_bus(
            alloc,
            &out,
            records,
            bridge_to_bus[bus],
            kind,
            roots.has(bus as u8),
        )?;
        out.push(Reach { ranges })?;
    }
    Ok(out)
}
