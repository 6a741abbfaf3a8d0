//! Legacy parts and palette parts of bridges as held ranges among the ranges that a user tells and those of devices, so that
//! settling places nothing on them (Bridge 1.2, 3.2.5.18; PCI 3.0, 6.2.2).
ghost use Rattle.std.specs.Prelude.{◌≡◌, ◌+◌, ◌<◌, ◌≤◌, ◌↔◌, nat_le, ℕ, IsTrue, Option, length, map, Err, IfOk, OnOk, MatchOption};
ghost use Rattle.std.specs.List.{flat_map};
ghost use Rattle.pci_base.specs.declared.memory.Refused.TheVariants as Refused;
ghost use Rattle.pci_base.specs.Space.{space_of};
ghost use Rattle.pci_spec.specs.System.{IsSystem, Space as SpaceValue, System};
ghost use Rattle.judge_spec.specs.Given.{LegacyBridge as BridgeValue};
ghost use Rattle.judge_spec.specs.Told.{IsTold};
ghost use Rattle.judge_spec.specs.Words.{VgaWord as WordValue, legacy_bridges, palette_bridges};
ghost use Rattle.pci_claims.specs.Values.{legacy_value};
ghost use Rattle.pci_claims.specs.declared.legacy.FixedPart.{FixedPart as FixedPartValue};
ghost use Rattle.pci_claims.specs.Legacy.{blocks_of, part_holds};
ghost use Rattle.pci_model_settle.specs.ClaimLines.{AreBySlot, HasRangeWithAddress, claim_line, claim_lines, held, joined, kept_lines, lines_with, merged_by_key, origin_of, own_lines, part_lines, port_lines, told_line_of, told_lines};
ghost use Rattle.pci_model_settle.specs.LineValues.{AddsClaims, AreToldInOrder, is_next, kept_code_lines, key_of, line_value, code_line_ranges};

use arrayvec::ArrayVec;
use pci_base::memory::{OutOfMemory, Refused};
use pci_base::range::Range;
use pci_base::slot::Slot;
use pci_base::space::Space;
use pci_claims::given::LegacyBridge;
use pci_claims::legacy::FixedPart;
use pci_dump::told_list::ToldList;
use pci_dump::told_range::{Mark, ToldRange};
use std::alloc::Allocator;
use std::fmt;
use std::marker::Model;

/// The most lines of a list of told ranges.
const LINES_MAX: usize = 4096;

/// Ports of a VGA adapter, and ports of its palette, counted from the start of a KB.
const VGA_LOW: Range = Range {
    first: 0x3b0,
    last: 0x3bb,
};

const VGA_HIGH: Range = Range {
    first: 0x3c0,
    last: 0x3df,
};

const PALETTE_LOW: Range = Range {
    first: 0x3c6,
    last: 0x3c6,
};

const PALETTE_HIGH: Range = Range {
    first: 0x3c8,
    last: 0x3c9,
};

/// The lines that a user tells and those of the parts of bridges are more than 4,096.
#[derive(Clone, Copy, Debug, PartialEq, Eq)]
pub struct TooManyLines;

/// 77 and its name.
impl fmt::Display for TooManyLines {
    ghost use Rattle.std.specs.Prelude.{Some, codes};

    ghost output = { λ fault. Some (codes "77 TooManyRanges") };

    fn fmt<W: fmt::Write>(&self, f: &mut fmt::Formatter<W>) -> fmt::Result {
        write!(f, "77 TooManyRanges")
    }
}

/// Where a line comes from.
#[derive(Clone, Copy, Debug, PartialEq, Eq)]
pub enum Origin {
    /// A part of a bridge.
    Bridge,
    /// The user's line of this number, counted from 1.
    User(u16),
    /// A device's register at this byte offset.
    Device(u8),
}

/// A told range without a name.
#[derive(Clone, Copy, Debug, PartialEq, Eq)]
pub struct Line {
    pub slot: Slot,
    pub space: Space,
    /// A prefetchable window passes it, too.
    pub prefetchable: bool,
    /// The first address.
    pub first: u64,
    /// The last address.
    pub last: u64,
    pub mark: Mark,
    pub origin: Origin,
}

/// Told ranges with those of devices and of bridges among them, and where each comes from.
#[derive(Drop)]
pub struct KeptLines<A: Allocator> {
    told: ToldList<A>,
    /// By line, counted from 1. Line 0 is none.
    origins: Vec<Origin, A>,
}

impl<A: Allocator> Model for KeptLines<A> {
    ghost use Rattle.pci_model_settle.specs.ClaimLines.{LinesWithOrigins};

    ghost Value = { LinesWithOrigins };

    ghost view = { λ k. record { told = k.told; origins = k.origins.items } };
}

impl<A: Allocator> KeptLines<A> {
    /// The ranges by slot. Of one slot, those of the user stand first, and those of bridges last.
    pub fn told(&self) -> &ToldList<A>
        ensures { result.now ≡ self.now.told }
    {
        &self.told
    }

    /// Where this line of the ranges comes from, counted from 1: `Bridge` where it isn't there.
    pub fn origin(&self, line: u16) -> Origin
        ensures { result ≡ origin_of self.now line }
    {
        match self.origins.get(usize::from(line)) {
            None => Origin::Bridge,
            Some(origin) => *origin,
        }
    }
}

/// A range that a user tells, by its line.
fn told_line_of(range: &ToldRange, number: u16) -> Line
    ensures { line_value result ≡ told_line_of number range.now }
{
    Line {
        slot: range.slot,
        space: range.space,
        prefetchable: range.prefetchable,
        first: range.first,
        last: range.last,
        mark: range.mark,
        origin: Origin::User(number),
    }
}

/// Addresses of a slot, as a held range.
fn held(slot: Slot, space: Space, first: u64, last: u64) -> Line
    ensures { line_value result ≡ claim_line (held slot (space_of space) first last) }
{
    Line {
        slot,
        space,
        prefetchable: false,
        first,
        last,
        mark: Mark::Held,
        origin: Origin::Bridge,
    }
}

/// The range of a line.
fn range_of(line: Line) -> ToldRange
    ensures { result ≡ (line_value line).range }
{
    ToldRange {
        slot: line.slot,
        space: line.space,
        prefetchable: line.prefetchable,
        first: line.first,
        last: line.last,
        mark: line.mark,
        name: ArrayVec::new(),
    }
}

/// The lines that a user tells, with their numbers.
fn told_lines<A: Allocator>(alloc: A, ranges: &[ToldRange]) -> Result<Vec<Line, A>, OutOfMemory>
    requires { length ranges.now ≤ 4096 }
    ensures { IfOk result (λ v. map line_value v.items ≡ told_lines 1 ranges.now) }
{
    let mut out = Vec::new(alloc);
    let mut number = 0;
    for range in ranges {
        number += 1;
        out.push(told_line_of(range, number))?;
    }
    Ok(out)
}

/// In how many KB of the first 64 a part has ports: in each where the bridge decodes 10 bits of their addresses.
fn kb_of(is_wide: bool) -> u64
    ensures value { result ≡ blocks_of is_wide }
    ensures few { result ≤ 64 }
{
    if is_wide { 1 } else { 64 }
}

/// Adds two ranges of ports in each of so many KB: the two count from the start of the KB.
fn add_ports<A: Allocator>(
    out: &mut Vec<Line, A>,
    bridge: &LegacyBridge,
    low: Range,
    high: Range,
) -> Result<(), OutOfMemory>
    requires low { (low.first < 0x400) × (low.last < 0x400) }
    requires high { (high.first < 0x400) × (high.last < 0x400) }
    ensures { OnOk result (AddsClaims out.old.items out.new.items
        (port_lines bridge.now.slot low high (blocks_of bridge.now.is_wide))) }
{
    for kb in 0..kb_of(bridge.is_wide) {
        let base = kb * 0x400;
        out.push(held(bridge.slot, Space::Io, base + low.first, base + low.last))?;
        out.push(held(bridge.slot, Space::Io, base + high.first, base + high.last))?;
    }
    Ok(())
}

/// How many ranges a part of a bridge has.
fn line_count(part: FixedPart, bridge: &LegacyBridge) -> u64
    ensures value { result ≡ length (part_lines part (legacy_value bridge.now)) }
    ensures few { result ≤ 129 }
{
    let ports = 2 * kb_of(bridge.is_wide);
    match part {
        FixedPart::Legacy => ports + 1,
        FixedPart::Palette => ports,
    }
}

/// Adds the ports of a VGA adapter and its frame buffer, or the ports of its palette.
fn add_part<A: Allocator>(
    out: &mut Vec<Line, A>,
    part: FixedPart,
    bridge: &LegacyBridge,
) -> Result<(), OutOfMemory>
    ensures { OnOk result (AddsClaims out.old.items out.new.items (part_lines part (legacy_value bridge.now))) }
{
    match part {
        FixedPart::Legacy => {
            add_ports(out, bridge, VGA_LOW, VGA_HIGH)?;
            out.push(held(bridge.slot, Space::Mem, 0xa_0000, 0xb_ffff))?;
            Ok(())
        }
        FixedPart::Palette => add_ports(out, bridge, PALETTE_LOW, PALETTE_HIGH),
    }
}

/// What the part of each bridge has.
fn claims_of<A: Allocator>(
    alloc: A,
    part: FixedPart,
    bridges: &[LegacyBridge],
) -> Result<Vec<Line, A>, OutOfMemory>
    ensures { IfOk result (λ v. map line_value v.items
        ≡ map claim_line (flat_map (part_lines part) (map legacy_value bridges.now))) }
{
    let mut out = Vec::new(alloc);
    for bridge in bridges {
        add_part(&mut out, part, bridge)?;
    }
    Ok(out)
}

/// Whether the next line of two lists is the first list's: it has one whose slot isn't above the second list's next.
fn is_next(first: &[Line], second: &[Line]) -> bool
    ensures { result ≡ is_next first.now second.now }
{
    match (first.first(), second.first()) {
        (_, None) => true,
        (None, Some(_)) => false,
        (Some(line), Some(other)) => line.slot.number() <= other.slot.number(),
    }
}

/// Two lists by slot as one. Of one slot, the lines of the first list stand first.
fn merged<A: Allocator>(
    alloc: A,
    first: &[Line],
    second: &[Line],
) -> Result<Vec<Line, A>, OutOfMemory>
    requires { length first.now + length second.now ≤ 4096 }
    ensures { IfOk result (λ v. v.items ≡ merged_by_key key_of first.now second.now) }
{
    let mut out = Vec::new(alloc);
    let (mut i, mut j) = (0, 0);
    for _ in 0..first.len() + second.len() {
        if is_next(&first[i..], &second[j..]) {
            out.push(first[i])?;
            i += 1;
        } else {
            out.push(second[j])?;
            j += 1;
        }
    }
    Ok(out)
}

/// How many lines are left of some behind those of each bridge's part: `None` where they don't suffice.
fn lines_left(lines: u64, part: FixedPart, bridges: &[LegacyBridge]) -> Option<u64>
    ensures { MatchOption result
        (lines < length (flat_map (part_lines part) (map legacy_value bridges.now)))
        (λ left. left + length (flat_map (part_lines part) (map legacy_value bridges.now)) ≡ lines) }
{
    let mut left = lines;
    for bridge in bridges {
        let count = line_count(part, bridge);
        if left < count {
            return None;
        }
        left -= count;
    }
    Some(left)
}

/// Whether the lines of bridges' parts are no more than there is room for.
fn is_room(lines: u64, legacy: &[LegacyBridge], palette: &[LegacyBridge]) -> bool
    ensures { result ≡ nat_le (length (claim_lines (map legacy_value legacy.now)
        (map legacy_value palette.now))) lines }
{
    match lines_left(lines, FixedPart::Legacy, legacy) {
        None => false,
        Some(left) => match lines_left(left, FixedPart::Palette, palette) {
            None => false,
            Some(_) => true,
        },
    }
}

/// The ranges of lines, and where they come from.
fn kept<A: Allocator + Copy>(alloc: A, lines: &[Line]) -> Result<KeptLines<A>, OutOfMemory>
    requires { IsTold (code_line_ranges lines.now) }
    ensures { IfOk result (λ k. k ≡ kept_code_lines lines.now) }
{
    let mut ranges = Vec::new(alloc);
    let mut origins = Vec::new(alloc);
    origins.push(Origin::Bridge)?;
    for line in lines {
        ranges.push(range_of(*line))?;
        origins.push(line.origin)?;
    }
    Ok(KeptLines {
        told: ToldList::of(ranges),
        origins,
    })
}

/// Lines with those of bridges' parts among them, where they are no more than a list may have.
fn joined<A: Allocator + Copy>(
    alloc: A,
    lines: &[Line],
    legacy: &[LegacyBridge],
    palette: &[LegacyBridge],
) -> Result<Vec<Line, A>, OutOfMemory>
    requires { length (lines_with (map line_value lines.now) (claim_lines (map legacy_value legacy.now)
        (map legacy_value palette.now))) ≤ 4096 }
    ensures { IfOk result (λ v. map line_value v.items ≡ joined (map line_value lines.now)
        (claim_lines (map legacy_value legacy.now) (map legacy_value palette.now))) }
{
    let legacy = claims_of(alloc, FixedPart::Legacy, legacy)?;
    let palette = claims_of(alloc, FixedPart::Palette, palette)?;
    let claims = merged(alloc, &legacy, &palette)?;
    merged(alloc, lines, &claims)
}

/// The lines that a user tells, with those of devices among them. Of one slot, those of the user stand first.
///
/// # Errors
///
/// 77 `TooManyLines` where they are more than 4,096; `Memory` (2) where a growth was refused.
pub fn lines_with_devices<A: Allocator + Copy>(
    alloc: A,
    ranges: &[ToldRange],
    devices: &[Line],
) -> Result<Vec<Line, A>, Refused<TooManyLines>>
    requires told { IsTold ranges.now }
    // so that the list is in the order of slots, too
    requires devices { AreToldInOrder devices.now }
    ensures lines { IfOk result (λ v. map line_value v.items ≡ own_lines ranges.now (map line_value devices.now)) }
    ensures can_be_told { IfOk result (λ v. IsTold (code_line_ranges v.items)) }
    // both ways: lines that are no more are refused for want of memory alone
    ensures fault { (result ≡ Err (Refused.Fault (record {})))
        ↔ 4096 < length (own_lines ranges.now (map line_value devices.now)) }
{
    if ranges.len() + devices.len() > LINES_MAX {
        return Err(Refused::Fault(TooManyLines));
    }
    let told = match told_lines(alloc, ranges) {
        Ok(told) => told,
        Err(OutOfMemory) => return Err(Refused::Memory),
    };
    match merged(alloc, &told, devices) {
        Ok(lines) => Ok(lines),
        Err(OutOfMemory) => Err(Refused::Memory),
    }
}

/// Lines with those of legacy parts and palette parts among them, which are held.
///
/// # Errors
///
/// 77 `TooManyLines` where they are more than 4,096; `Memory` (2) where a growth was refused.
pub fn lines_with_claims<A: Allocator + Copy>(
    alloc: A,
    lines: &[Line],
    legacy: &[LegacyBridge],
    palette: &[LegacyBridge],
) -> Result<KeptLines<A>, Refused<TooManyLines>>
    requires told { IsTold (code_line_ranges lines.now) }
    // so that the list is in the order of slots, too
    requires legacy { AreBySlot (map legacy_value legacy.now) }
    requires palette { AreBySlot (map legacy_value palette.now) }
    ensures kept { IfOk result (λ k. k ≡ kept_lines (map line_value lines.now)
        (claim_lines (map legacy_value legacy.now) (map legacy_value palette.now))) }
    ensures can_be_told { IfOk result (λ k. IsTold k.told) }
    // both ways: lines that are no more are refused for want of memory alone
    ensures fault { (result ≡ Err (Refused.Fault (record {}))) ↔ 4096 < length (lines_with (map line_value lines.now)
        (claim_lines (map legacy_value legacy.now) (map legacy_value palette.now))) }
{
    if !is_room((LINES_MAX - lines.len()) as u64, legacy, palette) {
        return Err(Refused::Fault(TooManyLines));
    }
    let all = match joined(alloc, lines, legacy, palette) {
        Ok(all) => all,
        Err(OutOfMemory) => return Err(Refused::Memory),
    };
    match kept(alloc, &all) {
        Ok(kept) => Ok(kept),
        Err(OutOfMemory) => Err(Refused::Memory),
    }
}

/// Laws of held ranges: one of a part's has an address just where the part has it; and the bridges of a system stand by slot.
pub fn claim_line_laws()
    ensures addresses { (part : FixedPartValue) (bridge : BridgeValue) (space : SpaceValue) (a : ℕ)
        → HasRangeWithAddress (part_lines part bridge) space a ↔ IsTrue (part_holds part bridge.is_wide space a) }
    ensures legacy { (word : WordValue) (s : System) → IsSystem s → AreBySlot (legacy_bridges word s) }
    ensures palette { (word : Option WordValue) (s : System) → IsSystem s → AreBySlot (palette_bridges word s) }
{}
