//! What is said beside a dump and its probe, as judging and mapping take it.
ghost use Rattle.std.specs.Prelude.{◌≡◌, map, option_map, IfOk};
ghost use Rattle.pci_spec.specs.System.{system_of};
ghost use Rattle.judge_spec.specs.Told.{IsTold};
ghost use Rattle.pci_claims.specs.Values.{code_given_value, host_value, legacy_value, told_value};
ghost use Rattle.pciplan_tasks.specs.Also.{ranges_told};
ghost use Rattle.pciplan_tasks.specs.FaultsAnswers.{given_with, isa_by, isa_of, legacy_by, palette_by, snoop_of, taking_of, vga_of};
ghost use Rattle.pciplan_tasks.specs.Saying.{AreBridgesBy};
ghost use Rattle.pciplan_tasks.specs.ToldAnswers.{AreAsleepFor};

use crate::task::Beside;
use pci_base::memory::OutOfMemory;
use pci_base::range::RootRange;
use pci_base::slot::Slot;
use pci_claims::given::{Given, LegacyBridge};
use pci_claims::told::Told;
use pci_claims::vga::{isa_bridges, legacy_bridges, palette_bridges};
use pci_dump::dump::Dump;
use pci_dump::told_range::ToldRange;
use pci_faults::said::Said;
use pci_model::asleep::asleep;
use pci_model::taking::taking;
use pci_model::words::Words;
use pci_tree::pair::first_difference;
use std::alloc::Allocator;

/// The bridges of a dump that are given beside it, by a user's words.
#[derive(Drop)]
pub struct Bridges<A: Allocator> {
    /// Those with legacy parts.
    pub legacy: Vec<LegacyBridge, A>,
    /// Those with ISA Enable.
    pub isa: Vec<Slot, A>,
    /// Those with palette parts.
    pub palette: Vec<LegacyBridge, A>,
    /// Those that take what no region of their bus claims.
    pub taking: Vec<Slot, A>,
}

/// The bridges of a dump with legacy parts, where the words take VGA Enable.
fn legacy_by<A: Allocator, B: Allocator>(
    alloc: A,
    dump: &Dump<B>,
    words: Option<Words>,
) -> Result<Vec<LegacyBridge, A>, OutOfMemory>
    ensures { IfOk result (λ legacy. map legacy_value legacy.items
        ≡ legacy_by (vga_of words) (system_of dump.now dump.now)) }
{
    match words {
        None => Ok(Vec::new(alloc)),
        Some(words) => match words.vga {
            None => Ok(Vec::new(alloc)),
            Some(word) => legacy_bridges(alloc, dump, word),
        },
    }
}

/// The bridges of a dump with ISA Enable, where the words take it.
fn isa_by<A: Allocator, B: Allocator>(
    alloc: A,
    dump: &Dump<B>,
    words: Option<Words>,
) -> Result<Vec<Slot, A>, OutOfMemory>
    ensures { IfOk result (λ isa. isa.items ≡ isa_by (isa_of words) (system_of dump.now dump.now)) }
{
    match words {
        None => Ok(Vec::new(alloc)),
        Some(words) => {
            if words.isa {
                isa_bridges(alloc, dump)
            } else {
                Ok(Vec::new(alloc))
            }
        }
    }
}

/// The bridges of a dump with palette parts, where the words take VGA Palette Snoop.
fn palette_by<A: Allocator, B: Allocator>(
    alloc: A,
    dump: &Dump<B>,
    words: Option<Words>,
) -> Result<Vec<LegacyBridge, A>, OutOfMemory>
    ensures { IfOk result (λ palette. map legacy_value palette.items
        ≡ palette_by (snoop_of words) (vga_of words) (system_of dump.now dump.now)) }
{
    match words {
        None => Ok(Vec::new(alloc)),
        Some(words) => {
            if words.snoop {
                palette_bridges(alloc, dump, words.vga)
            } else {
                Ok(Vec::new(alloc))
            }
        }
    }
}

/// The bridges of a dump that take what no region of their bus claims, by the words.
fn taking_by<A: Allocator, B: Allocator>(
    alloc: A,
    dump: &Dump<B>,
    words: Option<Words>,
) -> Result<Vec<Slot, A>, OutOfMemory>
    ensures { IfOk result (λ slots. slots.items ≡ taking_of words (system_of dump.now dump.now)) }
{
    match words {
        None => Ok(Vec::new(alloc)),
        Some(words) => taking(alloc, dump, words),
    }
}

/// The bridges of a dump that are given beside it, by the words.
pub fn bridges_by<A: Allocator + Copy, B: Allocator>(
    alloc: A,
    dump: &Dump<B>,
    words: Option<Words>,
) -> Result<Bridges<A>, OutOfMemory>
    ensures { IfOk result (AreBridgesBy words dump.now) }
{
    Ok(Bridges {
        legacy: legacy_by(alloc, dump, words)?,
        isa: isa_by(alloc, dump, words)?,
        palette: palette_by(alloc, dump, words)?,
        taking: taking_by(alloc, dump, words)?,
    })
}

/// The ranges that are said of a space.
fn ranges_of(list: &Option<Vec<RootRange>>) -> Option<&[RootRange]>
    ensures { option_map (λ ranges. map host_value ranges.now) result
        ≡ option_map (λ v. map host_value v.items) list.now }
{
    match list {
        None => None,
        Some(list) => Some(list.as_slice()),
    }
}

/// The slots of the functions that words take as asleep, for told ranges: without one of these nobody asks for them. None
/// without words, and where the two list other slots, which is a fault before it counts who is asleep.
pub fn asleep_for<A: Allocator, B: Allocator>(
    alloc: A,
    ranges: &[ToldRange],
    dump: &Dump<B>,
    probe: &Dump<B>,
    words: Option<Words>,
) -> Result<Vec<Slot, A>, OutOfMemory>
    ensures { IfOk result (λ slots. AreAsleepFor ranges.now words dump.now probe.now slots.items) }
{
    let Some(words) = words else {
        return Ok(Vec::new(alloc));
    };
    if ranges.is_empty() || first_difference(dump.blocks(), probe.blocks()).is_some() {
        return Ok(Vec::new(alloc));
    }
    asleep(alloc, dump, probe, words)
}

/// What is said beside a dump and its probe, by the bridges that are given and the functions that are asleep.
pub fn said_by<'a, A: Allocator>(
    beside: &'a Beside,
    bridges: &'a Bridges<A>,
    asleep: &'a [Slot],
) -> Said<'a>
    ensures roots { result.roots ≡ beside.now.roots }
    ensures given { code_given_value result.given ≡ given_with beside.now.host
        (map legacy_value bridges.now.legacy.items) bridges.now.isa.items
        (map legacy_value bridges.now.palette.items) }
    ensures ranges { (told_value result.told).ranges ≡ ranges_told beside.now.also }
    ensures asleep { (told_value result.told).asleep ≡ asleep.now }
    ensures taking { result.taking.now ≡ bridges.now.taking.items }
    // they are read of a text
    ensures lawful { IsTold result.told.ranges.now }
{
    Said {
        roots: beside.roots,
        given: Given {
            io: ranges_of(&beside.host.io),
            memory: ranges_of(&beside.host.mem),
            legacy: &bridges.legacy,
            isa: &bridges.isa,
            palette: &bridges.palette,
            unclaimed: &[],
        },
        told: Told {
            ranges: beside.also.ranges(),
            asleep,
        },
        taking: &bridges.taking,
    }
}
