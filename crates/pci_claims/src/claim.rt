//! Claims of a bus: what one region answers, and the least address that two of them answer.
ghost use Rattle.std.specs.Prelude.{◌≡◌, ◌≤◌, ◌↔◌, ℕ, IsTrue, MatchOption, IfOk};
ghost use Rattle.pci_base.specs.Space.{space_of};
ghost use Rattle.pci_tree.specs.Ranges.{Covers, IsCanonical};
ghost use Rattle.judge_spec.specs.Claims.{is_window_register, is_fixed_register, are_together, may_share};
ghost use Rattle.judge_spec.specs.ToldAllFaults.{region_number};
ghost use Rattle.pci_claims.specs.Values.{code_given_value};
ghost use Rattle.pci_claims.specs.BusClaims.{claim_number};
ghost use Rattle.pci_claims.specs.AllClaims.{IsClaimOfRange};
ghost use Rattle.pci_claims.specs.Claim.{ShareNoAddress, AreAtOdds, IsLeastAtOdds, IsLeastCommon, AreAddressesOf, IsClaimOfRegion, IsLegacyOf, IsPaletteOf, IsClaimOfPart, is_held_claim_beside, may_both_claim};

use super::gather::common;
use super::given::Given;
use super::isa::{is_cut, kept};
use super::legacy::{FixedPart, register_of};
use super::passed::claimed_by_part;
use pci_base::memory::OutOfMemory;
use pci_base::offset::{BRIDGE_CONTROL, COMMAND, IO_BASE, MEMORY_BASE, PREFETCHABLE_BASE};
use pci_base::range::Range;
use pci_base::slot::Slot;
use pci_base::space::Space;
use pci_dump::told_range::ToldRange;
use pci_function::record::Record;
use pci_tree::ranges::least_from;
use pci_tree::region::Region;
use std::alloc::{Allocator, Global};
use std::marker::Model;

/// What one region of a bus answers of the accesses of a space that get there.
#[derive(Drop)]
pub struct Claim<A: Allocator = Global> {
    slot: Slot,
    /// The register that names the region: legacy parts are named by Bridge Control, and palette parts by Command.
    register: u16,
    /// Whether the region is a held range, which may share its addresses with some others.
    is_held: bool,
    pieces: Vec<Range, A>,
}

impl<A: Allocator> Model for Claim<A> {
    ghost use Rattle.pci_tree.specs.Ranges.{IsCanonical};
    ghost use Rattle.pci_claims.specs.Claim.{Claimed};

    ghost Value = { Claimed };

    ghost view = { λ c. record { slot = c.slot; register = c.register; held = c.is_held; pieces = c.pieces.items } };

    ghost invariant = { λ c. IsCanonical c.pieces.items };
}

impl<A: Allocator> Claim<A> {
    /// The slot of its function.
    pub fn slot(&self) -> Slot
        ensures { result ≡ self.now.slot }
    {
        self.slot
    }

    /// The register that names the region: its byte offset, or 255 + n for the told range of line n.
    pub fn register(&self) -> u16
        ensures { result ≡ self.now.register }
    {
        self.register
    }

    /// Whether the region is a held range.
    pub fn is_held(&self) -> bool
        ensures { result ≡ self.now.held }
    {
        self.is_held
    }

    /// The addresses that it answers: ranges that rise, with an address between each two.
    pub fn pieces(&self) -> &[Range]
        ensures value { result.now ≡ self.now.pieces }
        // least addresses are looked for in them by halving
        ensures canonical { IsCanonical result.now }
    {
        &self.pieces
    }

    /// Its place in the order of slots and registers.
    pub fn number(&self) -> u32
        ensures { result ≡ claim_number self.now }
    {
        number_of(self.slot, self.register)
    }
}

/// The addresses of a space that get to a bus, or others of which claims are asked.
#[derive(Clone, Copy)]
pub(crate) struct Arriving<'a> {
    pub(crate) space: Space,
    pub(crate) reach: &'a [Range],
}

/// The place of a region in the order of slots and registers, told ranges among them.
pub fn number_of(slot: Slot, register: u16) -> u32
    ensures { result ≡ region_number slot register }
{
    u32::from(slot.number()) * 8192 + u32::from(register)
}

/// The addresses from one to another, as a list.
fn addresses<A: Allocator>(alloc: A, first: u64, last: u64) -> Result<Vec<Range, A>, OutOfMemory>
    ensures canonical { IfOk result (λ v. IsCanonical v.items) }
    ensures exact { IfOk result (λ v. (a : ℕ) → Covers v.items a ↔ ((first ≤ a) × (a ≤ last))) }
{
    let mut out = Vec::new(alloc);
    if first <= last {
        out.push(Range { first, last })?;
    }
    Ok(out)
}

/// The addresses of a region of a space that ISA Enable doesn't take, as a list.
pub fn own<A: Allocator + Copy>(
    alloc: A,
    given: &Given<'_>,
    region: &Region,
    space: Space,
) -> Result<Vec<Range, A>, OutOfMemory>
    ensures { IfOk result (λ v. AreAddressesOf (code_given_value given.now) (space_of space) region.now v.items) }
{
    let whole = addresses(alloc, region.first, region.last)?;
    if is_cut(given, space, region) {
        kept(alloc, &whole)
    } else {
        Ok(whole)
    }
}

/// What a BAR, a ROM or a window of a space answers of the addresses that get to its bus.
pub fn claim_of<A: Allocator + Copy>(
    alloc: A,
    given: &Given<'_>,
    region: &Region,
    space: Space,
    reach: &[Range],
) -> Result<Claim<A>, OutOfMemory>
    // two rising lists have in common what one walk along both meets
    requires { IsCanonical reach.now }
    ensures { IfOk result (λ c. IsClaimOfRegion (code_given_value given.now) (space_of space) region.now
        reach.now c) }
{
    let own = own(alloc, given, region, space)?;
    let pieces = common(alloc, &own, reach)?;
    Ok(Claim {
        slot: region.slot,
        register: u16::from(region.reg),
        is_held: false,
        pieces,
    })
}

/// The addresses of a space that the legacy parts of a function answer, which has to be a bridge for that.
pub fn legacy_of<A: Allocator + Copy>(
    alloc: A,
    given: &Given<'_>,
    function: &Record,
    space: Space,
) -> Result<Vec<Range, A>, OutOfMemory>
    ensures { IfOk result (λ v. IsLegacyOf (code_given_value given.now) (space_of space) function.now v.items) }
{
    claimed_by_part(alloc, given, FixedPart::Legacy, function, space)
}

/// The addresses of I/O space that the palette part of a function claims, which has to be a bridge for that.
pub fn palette_of<A: Allocator + Copy>(
    alloc: A,
    given: &Given<'_>,
    function: &Record,
) -> Result<Vec<Range, A>, OutOfMemory>
    ensures { IfOk result (λ v. IsPaletteOf (code_given_value given.now) function.now v.items) }
{
    claimed_by_part(alloc, given, FixedPart::Palette, function, Space::Io)
}

/// What a part of a bridge answers of the addresses of a space that get to its bus.
pub(crate) fn claim_of_part<A: Allocator + Copy>(
    alloc: A,
    given: &Given<'_>,
    part: FixedPart,
    function: &Record,
    arriving: &Arriving,
) -> Result<Claim<A>, OutOfMemory>
    // two rising lists have in common what one walk along both meets
    requires { IsCanonical arriving.now.reach.now }
    ensures { IfOk result (λ c. IsClaimOfPart (code_given_value given.now) part
        (space_of arriving.now.space) function.now arriving.now.reach.now c) }
{
    let own = claimed_by_part(alloc, given, part, function, arriving.space)?;
    let pieces = common(alloc, &own, arriving.reach)?;
    Ok(Claim {
        slot: function.slot,
        register: u16::from(register_of(part)),
        is_held: false,
        pieces,
    })
}

/// What a told range answers of the addresses that get to its bus.
pub fn told_claim_of<A: Allocator + Copy>(
    alloc: A,
    range: &ToldRange,
    register: u16,
    reach: &[Range],
) -> Result<Claim<A>, OutOfMemory>
    // two rising lists have in common what one walk along both meets
    requires { IsCanonical reach.now }
    ensures { IfOk result (λ c. IsClaimOfRange range.now register reach.now c) }
{
    let whole = addresses(alloc, range.first, range.last)?;
    let pieces = common(alloc, &whole, reach)?;
    Ok(Claim {
        slot: range.slot,
        register,
        is_held: range.is_held(),
        pieces,
    })
}

/// Whether one list ends before another begins, or one is empty.
fn is_below(rs: &[Range], ss: &[Range]) -> bool
    requires first { IsCanonical rs.now }
    requires second { IsCanonical ss.now }
    ensures { IsTrue result → ShareNoAddress rs.now ss.now }
{
    if rs.is_empty() || ss.is_empty() {
        return true;
    }
    rs[rs.len() - 1].last < ss[0].first
}

/// The least address that two lists have in common.
pub fn least_common(rs: &[Range], ss: &[Range]) -> Option<u64>
    // both rise, so one walk along the two meets the least first
    requires first { IsCanonical rs.now }
    requires second { IsCanonical ss.now }
    ensures { MatchOption result ((a : ℕ) → Covers rs.now a → Covers ss.now a → ⊥)
        (λ a. IsLeastCommon rs.now ss.now a) }
{
    // so it is for most lists that are compared
    if is_below(rs, ss) || is_below(ss, rs) {
        return None;
    }
    for r in rs {
        if let Some(a) = least_from(ss, r.first) {
            if a <= r.last {
                return Some(a);
            }
        }
    }
    None
}

/// Whether a register of a bridge names a window.
fn is_window_register(register: u16) -> bool
    ensures { result ≡ is_window_register register }
{
    register == u16::from(IO_BASE)
        || register == u16::from(MEMORY_BASE)
        || register == u16::from(PREFETCHABLE_BASE)
}

/// Whether a register names a legacy part or a palette part.
fn is_fixed_register(register: u16) -> bool
    ensures { result ≡ is_fixed_register register }
{
    register == u16::from(BRIDGE_CONTROL) || register == u16::from(COMMAND)
}

/// Whether two registers name a window and such a part, or both of these.
fn are_together(one: u16, other: u16) -> bool
    ensures { result ≡ are_together one other }
{
    (is_window_register(one) && is_fixed_register(other))
        || (one == u16::from(BRIDGE_CONTROL) && other == u16::from(COMMAND))
}

/// Whether two regions may answer one address, none of them a held range: two of a window, the legacy part and the palette
/// part of one bridge, which lead to one bus.
pub fn may_share(first: Slot, first_register: u16, second: Slot, second_register: u16) -> bool
    ensures { result ≡ may_share first first_register second second_register }
{
    first == second
        && (are_together(first_register, second_register)
            || are_together(second_register, first_register))
}

/// Whether two names are of one region.
pub fn is_same(first: Slot, first_register: u16, second: Slot, second_register: u16) -> bool
    ensures { IsTrue result ↔ ((first ≡ second) × (first_register ≡ second_register)) }
{
    first == second && first_register == second_register
}

/// Whether the first of two claims is of a held range, and the second of another one, or of a region of the same function.
fn is_held_beside<A: Allocator>(first: &Claim<A>, second: &Claim<A>) -> bool
    ensures { result ≡ is_held_claim_beside first.now second.now }
{
    first.is_held && (second.is_held || first.slot == second.slot)
}

/// Whether two claims may have one address.
pub fn may_both_claim<A: Allocator>(first: &Claim<A>, second: &Claim<A>) -> bool
    ensures { result ≡ may_both_claim first.now second.now }
{
    may_share(first.slot, first.register, second.slot, second.register)
        || is_held_beside(first, second)
        || is_held_beside(second, first)
}

/// The least address that two claims answer and may not share.
pub fn least_at_odds<A: Allocator>(first: &Claim<A>, second: &Claim<A>) -> Option<u64>
    ensures { MatchOption result ((a : ℕ) → AreAtOdds first.now second.now a → ⊥)
        (λ a. IsLeastAtOdds first.now second.now a) }
{
    if may_both_claim(first, second) {
        return None;
    }
    least_common(first.pieces(), second.pieces())
}
