//! What a bridge passes, by its windows, by its legacy part, and as no region of its bus claims it. ISA Enable takes
//! addresses from the I/O window. What it forwards beside: writes that its palette part listens to.
ghost use Rattle.std.specs.Prelude.{◌≡◌, ◌≤◌, ◌↔◌, ◌&&◌, IsTrue, IfOk, OnOk};
ghost use Rattle.std.specs.Option.{is_some};
ghost use Rattle.pci_base.specs.Space.{space_of, is_on};
ghost use Rattle.pci_base.specs.WindowKinds.{kind_value};
ghost use Rattle.pci_tree.specs.Ranges.{IsCanonical};
ghost use Rattle.pci_tree.specs.Reaches.{HasSpans};
ghost use Rattle.pci_claims.specs.Values.{code_given_value};
ghost use Rattle.pci_claims.specs.Gathered.{AreLawfulBehind};
ghost use Rattle.pci_claims.specs.Passed.{ArePiecesOf, AreTakenPieces, ArePassedElse, ArePassedByWindows, ArePassed, IsPassedBy, AreClaimedByPart, AreForwarded, through_space, AreLet, IsLetOn};

use super::gather::{common, gathered};
use super::given::{Given, LegacyBridge, TakingBridge, ranges_of};
use super::isa::{cuts, kept};
use super::legacy::{FixedPart, bridges_with, part_pieces};
use pci_base::memory::OutOfMemory;
use pci_base::range::Range;
use pci_base::slot::Slot;
use pci_base::space::Space;
use pci_base::window_kind::WindowKind;
use pci_function::record::Record;
use pci_tree::reach::passed_by;
use std::alloc::Allocator;

/// What goes through bridges.
#[derive(Clone, Copy, Debug, PartialEq, Eq)]
pub enum Through {
    /// Addresses of regions of a kind: a bridge passes them.
    Regions(WindowKind),
    /// Addresses of a space at which there is any access, maybe a write alone: a bridge forwards them.
    Accesses(Space),
}

/// The space of its addresses.
pub fn space_through(through: Through) -> Space
    ensures { space_of result ≡ through_space through }
{
    match through {
        Through::Regions(kind) => Space::of(kind),
        Through::Accesses(space) => space,
    }
}

/// The addresses of a space that a part of the bridge at a slot has.
pub fn pieces_of<A: Allocator + Copy>(
    alloc: A,
    part: FixedPart,
    entries: &[LegacyBridge],
    slot: Slot,
    space: Space,
) -> Result<Vec<Range, A>, OutOfMemory>
    ensures { IfOk result (λ v. ArePiecesOf part entries.now slot (space_of space) v.items) }
{
    let mut out = Vec::new(alloc);
    for entry in entries {
        if entry.slot == slot {
            let more = part_pieces(alloc, part, entry.is_wide, space)?;
            out.extend_from_slice(&more)?;
        }
    }
    Ok(out)
}

/// Whether a range has an address.
fn has_address(range: Range) -> bool
    ensures { IsTrue result ↔ (range.first ≤ range.last) }
{
    range.first <= range.last
}

/// Adds those of some ranges that have an address.
fn add_lawful<A: Allocator>(out: &mut Vec<Range, A>, ranges: &[Range]) -> Result<(), OutOfMemory>
    ensures { OnOk result (AreLawfulBehind out.old.items ranges.now out.new.items) }
{
    for range in ranges {
        if has_address(*range) {
            out.push(*range)?;
        }
    }
    Ok(())
}

/// The addresses of a space that the bridge at a slot takes as no region of its bus claims them.
pub fn taken_of<A: Allocator + Copy>(
    alloc: A,
    unclaimed: &[TakingBridge<'_>],
    slot: Slot,
    space: Space,
) -> Result<Vec<Range, A>, OutOfMemory>
    ensures { IfOk result (λ v. AreTakenPieces unclaimed.now slot (space_of space) v.items) }
{
    let mut out = Vec::new(alloc);
    for entry in unclaimed {
        if entry.slot == slot {
            add_lawful(&mut out, ranges_of(entry, space))?;
        }
    }
    Ok(out)
}

/// Whether a function is a bridge that answers accesses of a space.
pub fn is_bridge_on(function: &Record, space: Space) -> bool
    ensures { result ≡ (is_some function.now.bridge && is_on function.now.command (space_of space)) }
{
    function.bridge.is_some() && space.is_on(function.command)
}

/// The addresses that one bridge passes of accesses of a kind by its windows: ranges that rise, with an address between
/// each two.
fn passed_by_windows<A: Allocator + Copy>(
    alloc: A,
    given: &Given<'_>,
    function: &Record,
    kind: WindowKind,
) -> Result<Vec<Range, A>, OutOfMemory>
    requires { HasSpans function.now }
    ensures { IfOk result
        (λ v. ArePassedByWindows (code_given_value given.now) (kind_value kind) function.now v.items) }
{
    let windows = passed_by(alloc, function, kind)?;
    if cuts(given, Space::of(kind), function.slot) {
        kept(alloc, &windows)
    } else {
        Ok(windows)
    }
}

/// The addresses of a space that the bridge at a slot passes by its legacy part, or as no region of its bus claims them.
fn passed_else<A: Allocator + Copy>(
    alloc: A,
    given: &Given<'_>,
    slot: Slot,
    space: Space,
) -> Result<Vec<Range, A>, OutOfMemory>
    ensures { IfOk result
        (λ v. ArePassedElse (code_given_value given.now) slot (space_of space) v.items) }
{
    let mut ranges = pieces_of(alloc, FixedPart::Legacy, given.legacy, slot, space)?;
    let taken = taken_of(alloc, given.unclaimed, slot, space)?;
    ranges.extend_from_slice(&taken)?;
    Ok(ranges)
}

/// The addresses that one bridge passes of accesses of a kind, by its windows, by its legacy part, or as no region of its
/// bus claims them: ranges that rise, with an address between each two.
pub fn passed_with<A: Allocator + Copy>(
    alloc: A,
    given: &Given<'_>,
    function: &Record,
    kind: WindowKind,
) -> Result<Vec<Range, A>, OutOfMemory>
    // of an empty window no address could be told
    requires { HasSpans function.now }
    ensures record { IfOk result
        (λ v. ArePassed (code_given_value given.now) (kind_value kind) function.now v.items) }
    ensures bridge { IfOk result
        (λ v. IsPassedBy (code_given_value given.now) (kind_value kind) function.now v.items) }
{
    let mut ranges = passed_by_windows(alloc, given, function, kind)?;
    let space = Space::of(kind);
    if is_bridge_on(function, space) {
        let more = passed_else(alloc, given, function.slot, space)?;
        ranges.extend_from_slice(&more)?;
    }
    gathered(ranges)
}

/// The addresses of a space that a part of a function claims, which has to be a bridge for that: ranges that rise, with an
/// address between each two.
pub fn claimed_by_part<A: Allocator + Copy>(
    alloc: A,
    given: &Given<'_>,
    part: FixedPart,
    function: &Record,
    space: Space,
) -> Result<Vec<Range, A>, OutOfMemory>
    ensures { IfOk result
        (λ v. AreClaimedByPart (code_given_value given.now) part (space_of space) function.now v.items) }
{
    if is_bridge_on(function, space) {
        let entries = bridges_with(given, part);
        gathered(pieces_of(alloc, part, entries, function.slot, space)?)
    } else {
        Ok(Vec::new(alloc))
    }
}

/// The addresses of a space that one bridge forwards, by what it passes, or by its palette part: ranges that rise, with an
/// address between each two.
fn forwarded_with<A: Allocator + Copy>(
    alloc: A,
    given: &Given<'_>,
    function: &Record,
    space: Space,
) -> Result<Vec<Range, A>, OutOfMemory>
    // as what it passes
    requires { HasSpans function.now }
    ensures { IfOk result
        (λ v. AreForwarded (code_given_value given.now) (space_of space) function.now v.items) }
{
    let mut ranges = passed_with(alloc, given, function, space.furthest())?;
    let palette = claimed_by_part(alloc, given, FixedPart::Palette, function, space)?;
    // so it is for most bridges
    if palette.is_empty() {
        return Ok(ranges);
    }
    ranges.extend_from_slice(&palette)?;
    gathered(ranges)
}

/// The addresses that one bridge lets through.
fn let_by<A: Allocator + Copy>(
    alloc: A,
    given: &Given<'_>,
    function: &Record,
    through: Through,
) -> Result<Vec<Range, A>, OutOfMemory>
    // of an empty window no address could be told
    requires { HasSpans function.now }
    ensures { IfOk result (λ v. AreLet (code_given_value given.now) through function.now v.items) }
{
    match through {
        Through::Regions(kind) => passed_with(alloc, given, function, kind),
        Through::Accesses(space) => forwarded_with(alloc, given, function, space),
    }
}

/// What a bridge lets through of the addresses that get to its own bus: what gets to the bus behind it.
pub fn passed_on<A: Allocator + Copy>(
    alloc: A,
    given: &Given<'_>,
    above: &[Range],
    function: &Record,
    through: Through,
) -> Result<Vec<Range, A>, OutOfMemory>
    // what gets to a bus rises, so what gets behind it does too
    requires canonical { IsCanonical above.now }
    // an empty window would be an empty range, which no such list has
    requires spans { HasSpans function.now }
    ensures { IfOk result (λ v. IsLetOn (code_given_value given.now) through above.now function.now v.items) }
{
    let here = let_by(alloc, given, function, through)?;
    common(alloc, above, &here)
}
