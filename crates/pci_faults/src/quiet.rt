//! Buses on which no two regions can clash: what they claim is apart, whatever of it gets there, and no palette part is
//! there. Beside told ranges no legacy part is there, either.
ghost use Rattle.std.specs.Prelude.{◌≡◌, ◌<◌, IfOk, IsFalse, IsTrue};
ghost use Rattle.std.specs.List.{All, AllPairs, Contains};
ghost use Rattle.std.specs.List.Sorted.{IsPermutation};
ghost use Rattle.pci_base.specs.Space.{space_of};
ghost use Rattle.pci_tree.specs.Ranges.{IsCanonical};
ghost use Rattle.pci_tree.specs.Roots.{buses_of};
ghost use Rattle.judge_spec.specs.Told.{IsTold};
ghost use Rattle.pci_claims.specs.Values.{code_given_value, told_value};
ghost use Rattle.pci_faults.specs.Quiet.{IsOff, IsOffLegacy, HasThoseOn, HoldNothing, AreQuiet, IsQuietInEach, IsQuietWith};

use super::spans::{add_root_spans, add_told_spans, are_spans_apart, spans_of};
use pci_base::memory::OutOfMemory;
use pci_base::offset::BRIDGE_CONTROL;
use pci_base::range::Range;
use pci_base::slot::Slot;
use pci_base::space::Space;
use pci_check::split::of_roots;
use pci_claims::all_claims::ranges_of;
use pci_claims::board::Board;
use pci_claims::claim::may_share;
use pci_claims::given::LegacyBridge;
use pci_claims::legacy::pieces;
use pci_dump::told_range::ToldRange;
use pci_tree::ranges::least_from;
use pci_tree::region::Region;
use pci_tree::roots::Roots;
use std::alloc::Allocator;

/// Whether each of some regions lies above all before it.
fn are_apart(regions: &[Region]) -> bool
    ensures { IsTrue result → AllPairs (λ p q. p.last < q.first) regions.now }
{
    let mut end: u128 = 0;
    for region in regions {
        if u128::from(region.first) < end {
            return false;
        }
        end = end.max(u128::from(region.last) + 1);
    }
    true
}

/// Sorts regions by their first addresses.
fn sort<A: Allocator>(regions: &mut Vec<Region, A>) -> Result<(), OutOfMemory>
    ensures { IsPermutation regions.old.items regions.new.items }
{
    match regions.sort_by_key(|region| region.first) {
        Ok(()) => Ok(()),
        Err(_) => Err(OutOfMemory),
    }
}

/// Whether a region has no address of a legacy part, or may share it.
fn is_off(region: &Region, bridge: Slot, pieces: &[Range]) -> bool
    requires { IsCanonical pieces.now }
    ensures { IsTrue result → IsOff bridge pieces.now region.now }
{
    let register = u16::from(region.reg);
    if may_share(region.slot, register, bridge, u16::from(BRIDGE_CONTROL)) {
        return true;
    }
    match least_from(pieces, region.first) {
        None => true,
        Some(a) => region.last < a,
    }
}

/// Whether each of some regions has no address of a legacy part, or may share it.
fn are_off_pieces(regions: &[Region], bridge: Slot, pieces: &[Range]) -> bool
    requires { IsCanonical pieces.now }
    ensures { IsTrue result → All (IsOff bridge pieces.now) regions.now }
{
    for region in regions {
        if !is_off(region, bridge, pieces) {
            return false;
        }
    }
    true
}

/// The same, of the legacy part of a bridge.
fn are_off<A: Allocator>(
    alloc: A,
    regions: &[Region],
    bridge: LegacyBridge,
    space: Space,
) -> Result<bool, OutOfMemory>
    ensures { IfOk result
        (λ off. IsTrue off → All (IsOffLegacy (space_of space) bridge) regions.now) }
{
    let pieces = pieces(alloc, bridge.is_wide, space)?;
    Ok(are_off_pieces(regions, bridge.slot, &pieces))
}

/// Whether regions and the legacy parts of bridges are seen to be apart, but for what may be shared: regions alone, or with
/// the legacy part of one bridge.
fn are_quiet<A: Allocator + Copy>(
    alloc: A,
    regions: Vec<Region, A>,
    legacy: &[LegacyBridge],
    space: Space,
) -> Result<bool, OutOfMemory>
    ensures { IfOk result
        (λ quiet. IsTrue quiet → AreQuiet (space_of space) regions.items legacy.now) }
{
    let mut regions = regions;
    sort(&mut regions)?;
    if !are_apart(&regions) || 1 < legacy.len() {
        return Ok(false);
    }
    if legacy.is_empty() {
        return Ok(true);
    }
    are_off(alloc, &regions, legacy[0], space)
}

/// The bridges of a bus among those with legacy parts, or with palette parts.
fn bridges_on<A: Allocator>(
    alloc: A,
    bridges: &[LegacyBridge],
    bus: u8,
) -> Result<Vec<LegacyBridge, A>, OutOfMemory>
    ensures { IfOk result (λ v. HasThoseOn (λ b. b ≡ bus) bridges.now v.items) }
{
    let mut out = Vec::new(alloc);
    for bridge in bridges {
        if bridge.slot.bus() == bus {
            out.push(*bridge)?;
        }
    }
    Ok(out)
}

/// The bridges of root buses among them.
fn bridges_on_roots<A: Allocator>(
    alloc: A,
    bridges: &[LegacyBridge],
    roots: &Roots,
) -> Result<Vec<LegacyBridge, A>, OutOfMemory>
    ensures { IfOk result (λ v. HasThoseOn (Contains (buses_of roots.now)) bridges.now v.items) }
{
    let mut out = Vec::new(alloc);
    for bridge in bridges {
        if roots.has(bridge.slot.bus()) {
            out.push(*bridge)?;
        }
    }
    Ok(out)
}

/// Whether the palette parts of bridges have addresses of a space: these are ports.
fn hold_some(palette: &[LegacyBridge], space: Space) -> bool
    ensures { IsFalse result → HoldNothing (space_of space) palette.now }
{
    match space {
        Space::Io => !palette.is_empty(),
        Space::Mem => false,
    }
}

/// Whether the regions of a bus in a space are seen to be apart, so that none clash whatever gets there. Where a palette part
/// is among them they aren't.
fn are_apart_on<A: Allocator + Copy>(
    alloc: A,
    board: &Board<'_, '_, A>,
    bus: u8,
    space: Space,
) -> Result<bool, OutOfMemory>
    ensures { IfOk result (λ quiet. IsTrue quiet
        → IsQuietInEach (code_given_value board.now.given) board.now.outline.now (λ b. b ≡ bus)
        (space_of space)) }
{
    let legacy = bridges_on(alloc, board.given.legacy, bus)?;
    let palette = bridges_on(alloc, board.given.palette, bus)?;
    // whatever the regions are
    if 1 < legacy.len() || hold_some(&palette, space) {
        return Ok(false);
    }
    let regions = board.outline.regions(bus, space)?;
    are_quiet(alloc, regions, &legacy, space)
}

/// The same, of a bus with told ranges. Where a legacy part is among them they aren't.
fn are_told_apart_on<A: Allocator + Copy>(
    alloc: A,
    board: &Board<'_, '_, A>,
    bus: u8,
    space: Space,
) -> Result<bool, OutOfMemory>
    requires { IsTold board.now.told.ranges.now }
    ensures { IfOk result (λ quiet. IsTrue quiet
        → IsQuietWith (told_value board.now.told) (code_given_value board.now.given)
        board.now.outline.now (λ b. b ≡ bus) (space_of space)) }
{
    let legacy = bridges_on(alloc, board.given.legacy, bus)?;
    let palette = bridges_on(alloc, board.given.palette, bus)?;
    if !legacy.is_empty() || hold_some(&palette, space) {
        return Ok(false);
    }
    let regions = board.outline.regions(bus, space)?;
    let mut spans = spans_of(alloc, &regions)?;
    add_told_spans(&mut spans, board.told.ranges, bus, space)?;
    are_spans_apart(spans)
}

/// Whether the regions of a bus in a space are seen to be apart, so that none clash whatever gets there.
pub fn is_bus_quiet<A: Allocator + Copy>(
    alloc: A,
    board: &Board<'_, '_, A>,
    bus: u8,
    space: Space,
) -> Result<bool, OutOfMemory>
    // told ranges stand by slot, so those of a bus are found by halving
    requires { IsTold board.now.told.ranges.now }
    ensures { IfOk result (λ quiet. IsTrue quiet
        → IsQuietWith (told_value board.now.told) (code_given_value board.now.given)
        board.now.outline.now (λ b. b ≡ bus) (space_of space)) }
{
    if ranges_of(board.told.ranges, bus).is_empty() {
        are_apart_on(alloc, board, bus, space)
    } else {
        are_told_apart_on(alloc, board, bus, space)
    }
}

/// Whether no told range is on a root bus.
fn are_roots_untold(ranges: &[ToldRange], roots: &Roots) -> bool
    ensures { IsTrue result
        → All (λ r. Contains (buses_of roots.now) r.slot.bus → ⊥) ranges.now }
{
    for range in ranges {
        if roots.has(range.slot.bus()) {
            return false;
        }
    }
    true
}

/// Whether the regions of all root buses in a space are seen to be apart, where told ranges are there.
fn are_told_roots_apart<A: Allocator + Copy>(
    alloc: A,
    board: &Board<'_, '_, A>,
    roots: &Roots,
    space: Space,
) -> Result<bool, OutOfMemory>
    requires told { IsTold board.now.told.ranges.now }
    requires roots { buses_of roots.now ≡ board.now.outline.now.roots }
    ensures { IfOk result (λ quiet. IsTrue quiet
        → IsQuietWith (told_value board.now.told) (code_given_value board.now.given)
        board.now.outline.now (Contains board.now.outline.now.roots) (space_of space)) }
{
    let legacy = bridges_on_roots(alloc, board.given.legacy, roots)?;
    let palette = bridges_on_roots(alloc, board.given.palette, roots)?;
    if !legacy.is_empty() || hold_some(&palette, space) {
        return Ok(false);
    }
    let regions = of_roots(alloc, board.outline, roots, space)?;
    let mut spans = spans_of(alloc, &regions)?;
    add_root_spans(&mut spans, board.told.ranges, roots, space)?;
    are_spans_apart(spans)
}

/// Whether the regions of all root buses in a space are seen to be apart, where no told range is there.
fn are_untold_roots_apart<A: Allocator + Copy>(
    alloc: A,
    board: &Board<'_, '_, A>,
    roots: &Roots,
    space: Space,
) -> Result<bool, OutOfMemory>
    requires { buses_of roots.now ≡ board.now.outline.now.roots }
    ensures { IfOk result (λ quiet. IsTrue quiet
        → IsQuietInEach (code_given_value board.now.given) board.now.outline.now
        (Contains board.now.outline.now.roots) (space_of space)) }
{
    let palette = bridges_on_roots(alloc, board.given.palette, roots)?;
    if hold_some(&palette, space) {
        return Ok(false);
    }
    let regions = of_roots(alloc, board.outline, roots, space)?;
    let legacy = bridges_on_roots(alloc, board.given.legacy, roots)?;
    are_quiet(alloc, regions, &legacy, space)
}

/// Whether the regions of all root buses in a space are seen to be apart, so that none are split whatever is sent there.
pub fn are_roots_quiet<A: Allocator + Copy>(
    alloc: A,
    board: &Board<'_, '_, A>,
    space: Space,
) -> Result<bool, OutOfMemory>
    requires { IsTold board.now.told.ranges.now }
    ensures { IfOk result (λ quiet. IsTrue quiet
        → IsQuietWith (told_value board.now.told) (code_given_value board.now.given)
        board.now.outline.now (Contains board.now.outline.now.roots) (space_of space)) }
{
    let roots = board.outline.roots();
    if are_roots_untold(board.told.ranges, &roots) {
        are_untold_roots_apart(alloc, board, &roots, space)
    } else {
        are_told_roots_apart(alloc, board, &roots, space)
    }
}
