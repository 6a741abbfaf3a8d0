//! Which buses have a function that is live in a space once all has its place.
ghost use Rattle.std.specs.Prelude.{◌≡◌, length};
ghost use Rattle.std.specs.List.{All};
ghost use Rattle.pci_base.specs.Space.{space_of};
ghost use Rattle.pci_place.specs.Above.{AreAboves, system_in};
ghost use Rattle.pci_settle_places.specs.Shown.{HasRegister};
ghost use Rattle.pci_settle_places.specs.Live as lives;
ghost use Rattle.pci_settle_places.specs.Live.{AreLiveBuses, is_live_behind, is_live_by};

use super::places::Places;
use crate::answering::{Answering, is_answering};
use crate::claim::{has_kept, is_enabled};
use pci_base::slot::BUSES;
use pci_base::space::Space;
use pci_function::record::Record;
use pci_place::above::Above;
use pci_tree::admitted::Admitted;
use std::alloc::Allocator;

/// Whether a function is a bridge to a bus with a live function.
pub fn is_live_behind(live: &[bool; BUSES], record: &Record) -> bool
    ensures { result ≡ is_live_behind live.now «record».now.bridge }
{
    match &record.bridge {
        None => false,
        Some(bridge) => live[usize::from(bridge.secondary)],
    }
}

/// Whether a function has something of its own to answer in a space: a told range that stands, a BAR or a ROM.
fn has_own(space: Space, above: Above, answering: &Answering, record: &Record) -> bool
    requires { length answering.now.standing.now ≡ length answering.now.told.ranges.now }
    ensures { result ≡ lives.has_own_by (space_of space) above answering.now «record».now }
{
    has_kept(space, above, answering.terms, record) || is_answering(answering, record.slot, space)
}

/// Whether a function is live: its space is enabled, and it has something of its own there, or something live behind it.
fn is_live(
    space: Space,
    places: &Places,
    above: Above,
    answering: &Answering,
    record: &Record,
    behind: bool,
) -> bool
    requires registers { All HasRegister «record».now.bars.items }
    requires count { length answering.now.standing.now ≡ length answering.now.told.ranges.now }
    ensures { result
        ≡ is_live_by (space_of space) places.now above answering.now «record».now behind }
{
    is_enabled(space, places, above, answering.terms, record, behind)
        && (has_own(space, above, answering, record) || behind)
}

/// Which buses have a function that is live in a space, at the places that parts get. What is behind a bridge has higher
/// slots than the bridge, so one pass from the highest slot down finds what is behind a bridge before the bridge itself.
pub fn live_buses<A: Allocator>(
    admitted: &Admitted<A>,
    table: &[Places],
    space: Space,
    aboves: &[Above; BUSES],
    answering: &Answering,
) -> [bool; BUSES]
    // which windows lead to a BAR decides whether it is left
    requires above { AreAboves (system_in admitted.now) aboves.now }
    // a function's places stand where its record does
    requires count { length table.now ≡ length (system_in admitted.now) }
    // a told range has its flag by its index
    requires flags { length answering.now.standing.now ≡ length answering.now.told.ranges.now }
    ensures { AreLiveBuses admitted.now.roots (system_in admitted.now) (space_of space) answering.now
        table.now result }
{
    let mut live = [false; BUSES];
    let outline = admitted.outline();
    let records = outline.records();
    for done in 0..records.len() {
        let function = records.len() - 1 - done;
        let record = &records[function];
        let bus = usize::from(record.slot.bus());
        let places = &table[function];
        let above = aboves[bus];
        let behind = is_live_behind(&live, record);
        if is_live(space, places, above, answering, record, behind) {
            live[bus] = true;
        }
    }
    live
}
