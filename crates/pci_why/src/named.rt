//! The region that a slot and a register name, with what is given and told.
ghost use Rattle.std.specs.Prelude.{◌≡◌, ◌≢◌, ◌<◌, ◌≤◌, ◌++◌, IfOk, IfSome, MatchOption, OnOk};
ghost use Rattle.std.specs.String.{string_bytes};
ghost use Rattle.pci_spec.specs.Fault.{named_region};
ghost use Rattle.judge_spec.specs.Told.{IsTold};
ghost use Rattle.pci_base.specs.Space.{space_of};
ghost use Rattle.pci_tree.specs.Ranges.{IsCanonical};
ghost use Rattle.pci_claims.specs.Values.{code_given_value, told_value};
ghost use Rattle.pci_why.specs.Named.{shown_line, is_shown_prefetchable, HasOwnAddress, IsNamedInEach, NoneNamed};

use super::judged::{Judged, RegionName, TOLD_FROM};
use super::legacy::{is_narrow, push_legacy_line, push_palette_line};
use super::region_line::push_given_line;
use super::told_at::told_at;
use super::told_line::push_told_line;
use pci_base::memory::OutOfMemory;
use pci_base::offset::{BRIDGE_CONTROL, COMMAND};
use pci_base::range::Range;
use pci_base::slot::Slot;
use pci_base::space::Space;
use pci_claims::claim::{legacy_of, own, palette_of};
use pci_claims::find::region_at;
use pci_claims::given::Given;
use pci_dump::told_range::ToldRange;
use pci_tree::bus::record_at;
use pci_tree::region::Region;
use std::alloc::{AllocError, Allocator, Global};

/// What a line shows of a region.
#[derive(Clone, Copy, Debug)]
pub enum Shown<'a> {
    /// A BAR, a ROM or a window.
    Own(Region),
    /// The legacy part of a bridge.
    Legacy {
        slot: Slot,
        /// Whether it decodes 10 bits of I/O addresses.
        is_narrow: bool,
    },
    /// The palette part of a bridge.
    Palette {
        slot: Slot,
        /// Whether it decodes 10 bits of I/O addresses.
        is_narrow: bool,
    },
    /// A told range.
    OfLine {
        /// 255 + n, where it is that of line n.
        register: u16,
        range: &'a ToldRange,
    },
}

impl Shown<'_> {
    /// Whether it is prefetchable, as a BAR can be.
    pub fn is_prefetchable(&self) -> bool
        ensures { result ≡ is_shown_prefetchable self.now }
    {
        match self {
            Shown::Own(region) => region.prefetch,
            Shown::Legacy { .. } | Shown::Palette { .. } => false,
            Shown::OfLine { range, .. } => range.prefetchable,
        }
    }
}

/// A region that claims an address of a space.
#[derive(Drop)]
pub struct Named<'a, A: Allocator = Global> {
    pub shown: Shown<'a>,
    /// What it claims: ranges that rise, with an address between each two.
    pub addresses: Vec<Range, A>,
}

/// The legacy part of the bridge at a slot, where it claims an address.
fn legacy_named<'a, A: Allocator + Copy>(
    alloc: A,
    judged: &Judged<'a, A>,
    slot: Slot,
    space: Space,
) -> Result<Option<Named<'a, A>>, OutOfMemory>
    ensures canonical { IfOk result (λ o. IfSome o (λ n. IsCanonical n.addresses.items)) }
    ensures some { IfOk result (λ o. IfSome o (λ n. HasOwnAddress n.shown)) }
    ensures exact { IfOk result (λ o. MatchOption o
        (NoneNamed (told_value judged.now.told.now) (code_given_value judged.now.given.now)
        judged.now.outline.now slot BRIDGE_CONTROL (space_of space))
        (λ n. IsNamedInEach (told_value judged.now.told.now) (code_given_value judged.now.given.now)
        judged.now.outline.now (named_region slot BRIDGE_CONTROL) (space_of space) n.shown
        n.addresses.items)) }
{
    let Some(function) = record_at(judged.outline.records(), slot) else {
        return Ok(None);
    };
    let addresses = legacy_of(alloc, judged.given, function, space)?;
    if addresses.is_empty() {
        return Ok(None);
    }
    let is_narrow = is_narrow(judged.given.legacy, slot);
    Ok(Some(Named {
        shown: Shown::Legacy { slot, is_narrow },
        addresses,
    }))
}

/// The palette part of the bridge at a slot, where it claims an address. It claims none in memory space.
fn palette_named<'a, A: Allocator + Copy>(
    alloc: A,
    judged: &Judged<'a, A>,
    slot: Slot,
    space: Space,
) -> Result<Option<Named<'a, A>>, OutOfMemory>
    ensures canonical { IfOk result (λ o. IfSome o (λ n. IsCanonical n.addresses.items)) }
    ensures some { IfOk result (λ o. IfSome o (λ n. HasOwnAddress n.shown)) }
    ensures exact { IfOk result (λ o. MatchOption o
        (NoneNamed (told_value judged.now.told.now) (code_given_value judged.now.given.now)
        judged.now.outline.now slot COMMAND (space_of space))
        (λ n. IsNamedInEach (told_value judged.now.told.now) (code_given_value judged.now.given.now)
        judged.now.outline.now (named_region slot COMMAND) (space_of space) n.shown
        n.addresses.items)) }
{
    if space == Space::Mem {
        return Ok(None);
    }
    let Some(function) = record_at(judged.outline.records(), slot) else {
        return Ok(None);
    };
    let addresses = palette_of(alloc, judged.given, function)?;
    if addresses.is_empty() {
        return Ok(None);
    }
    let is_narrow = is_narrow(judged.given.palette, slot);
    Ok(Some(Named {
        shown: Shown::Palette { slot, is_narrow },
        addresses,
    }))
}

/// The BAR, the ROM or the window of a slot and a register, where it claims an address.
fn own_named<'a, A: Allocator + Copy>(
    alloc: A,
    judged: &Judged<'a, A>,
    slot: Slot,
    reg: u8,
    space: Space,
) -> Result<Option<Named<'a, A>>, OutOfMemory>
    // which names a legacy part
    requires no_control { reg ≢ BRIDGE_CONTROL }
    // which names a palette part
    requires no_command { reg ≢ COMMAND }
    // those from here on name told ranges
    requires low { reg < 256 }
    ensures canonical { IfOk result (λ o. IfSome o (λ n. IsCanonical n.addresses.items)) }
    ensures some { IfOk result (λ o. IfSome o (λ n. HasOwnAddress n.shown)) }
    ensures exact { IfOk result (λ o. MatchOption o
        (NoneNamed (told_value judged.now.told.now) (code_given_value judged.now.given.now)
        judged.now.outline.now slot reg (space_of space))
        (λ n. IsNamedInEach (told_value judged.now.told.now) (code_given_value judged.now.given.now)
        judged.now.outline.now (named_region slot reg) (space_of space) n.shown n.addresses.items)) }
{
    let Some(region) = region_at(alloc, judged.outline, slot, reg, space)? else {
        return Ok(None);
    };
    let addresses = own(alloc, judged.given, &region, space)?;
    Ok(Some(Named {
        shown: Shown::Own(region),
        addresses,
    }))
}

/// The told range of a slot and a register. One that is off claims no address.
fn told_named<'a, A: Allocator + Copy>(
    alloc: A,
    judged: &Judged<'a, A>,
    name: RegionName,
) -> Result<Option<Named<'a, A>>, OutOfMemory>
    requires told { IsTold judged.now.told.now.ranges.now }
    // those below name regions that registers show
    requires high { 256 ≤ name.register }
    ensures canonical { IfOk result (λ o. IfSome o (λ n. IsCanonical n.addresses.items)) }
    ensures some { IfOk result (λ o. IfSome o (λ n. HasOwnAddress n.shown)) }
    ensures exact { IfOk result (λ o. MatchOption o
        (NoneNamed (told_value judged.now.told.now) (code_given_value judged.now.given.now)
        judged.now.outline.now name.slot name.register (space_of name.space))
        (λ n. IsNamedInEach (told_value judged.now.told.now) (code_given_value judged.now.given.now)
        judged.now.outline.now (named_region name.slot name.register) (space_of name.space) n.shown
        n.addresses.items)) }
{
    let register = name.register;
    let Some(range) = told_at(judged.told, name) else {
        return Ok(None);
    };
    let mut addresses = Vec::new(alloc);
    addresses.push(Range {
        first: range.first,
        last: range.last,
    })?;
    let shown = Shown::OfLine { register, range };
    Ok(Some(Named { shown, addresses }))
}

/// The region of a space that a slot and a register name, where there is one that claims an address: Bridge Control names
/// the legacy part of a bridge, Command its palette part, and registers from 256 on name told ranges.
pub fn region_named<'a, A: Allocator + Copy>(
    alloc: A,
    judged: &Judged<'a, A>,
    name: RegionName,
) -> Result<Option<Named<'a, A>>, OutOfMemory>
    // so that the addresses of each told range can be counted
    requires { IsTold judged.now.told.now.ranges.now }
    // what two of them have in common is found range by range
    ensures canonical { IfOk result (λ o. IfSome o (λ n. IsCanonical n.addresses.items)) }
    // so that they can be counted
    ensures some { IfOk result (λ o. IfSome o (λ n. HasOwnAddress n.shown)) }
    ensures exact { IfOk result (λ o. MatchOption o
        (NoneNamed (told_value judged.now.told.now) (code_given_value judged.now.given.now)
        judged.now.outline.now name.slot name.register (space_of name.space))
        (λ n. IsNamedInEach (told_value judged.now.told.now) (code_given_value judged.now.given.now)
        judged.now.outline.now (named_region name.slot name.register) (space_of name.space) n.shown
        n.addresses.items)) }
{
    if name.register >= TOLD_FROM {
        return told_named(alloc, judged, name);
    }
    let reg = name.register as u8;
    if reg == BRIDGE_CONTROL {
        legacy_named(alloc, judged, name.slot, name.space)
    } else if reg == COMMAND {
        palette_named(alloc, judged, name.slot, name.space)
    } else {
        own_named(alloc, judged, name.slot, reg, name.space)
    }
}

/// Appends the line of a region, behind a word.
pub fn push_shown<A: Allocator>(
    text: &mut String<A>,
    given: &Given<'_>,
    word: &'static str,
    space: Space,
    shown: &Shown<'_>,
) -> Result<(), AllocError>
    // the line tells how many addresses the region has
    requires { HasOwnAddress shown.now }
    ensures { OnOk result (string_bytes text.new
        ≡ string_bytes text.old
        ++ shown_line (code_given_value given.now) word.now (space_of space) shown.now) }
{
    match shown {
        Shown::Own(region) => push_given_line(text, given, word, space, region),
        Shown::Legacy { slot, is_narrow } => push_legacy_line(text, word, *slot, *is_narrow, space),
        Shown::Palette { slot, is_narrow } => push_palette_line(text, word, *slot, *is_narrow),
        Shown::OfLine { register, range } => push_told_line(text, word, *register, range),
    }
}
