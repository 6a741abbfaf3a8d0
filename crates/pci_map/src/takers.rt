//! The bridges that take what no region of their bus claims.
ghost use Rattle.std.specs.Prelude.{◌≡◌, IfOk};
ghost use Rattle.pci_spec.specs.System.{System};
ghost use Rattle.judge_spec.specs.UnclaimedLaws.{is_taking};
ghost use Rattle.pci_claims.specs.Values.{code_given_value};
ghost use Rattle.pci_map.specs.Left.{IsTreeOf};
ghost use Rattle.pci_map.specs.Takers.{AreTakenByBridgeAt, IsTakerOf, AreTakers};

use super::above::root_over;
use super::addresses::Addresses;
use pci_base::memory::OutOfMemory;
use pci_base::slot::Slot;
use pci_claims::given::Given;
use pci_function::record::Record;
use pci_tree::bus::record_at;
use pci_tree::outline::Outline;
use std::alloc::Allocator;

/// A bridge that takes what no region of its bus claims.
#[derive(Clone, Copy)]
pub struct Taker {
    pub slot: Slot,
    /// The root bus above it.
    pub root: u8,
    /// The bus behind it.
    pub bus: u8,
}

/// Whether it is given what the bridge at a slot takes.
fn is_taking(given: &Given<'_>, slot: Slot) -> bool
    ensures { result ≡ is_taking (code_given_value given.now).unclaimed slot }
{
    for entry in given.unclaimed {
        if entry.slot == slot {
            return true;
        }
    }
    false
}

/// What the bridge at a slot takes.
pub fn taken_at<A: Allocator + Copy>(
    alloc: A,
    given: &Given<'_>,
    outline: &Outline<A>,
    slot: Slot,
) -> Result<Addresses<A>, OutOfMemory>
    // an outline has no image, so this is said of every system with its records
    ensures { IfOk result (λ taken. (s : System) → IsTreeOf outline.now s
        → AreTakenByBridgeAt (code_given_value given.now) s slot taken) }
{
    if given.unclaimed.is_empty() {
        return Ok(Addresses::none(alloc));
    }
    match record_at(outline.records(), slot) {
        None => Ok(Addresses::none(alloc)),
        Some(function) => Addresses::taken(alloc, given, function),
    }
}

/// A function as such a bridge, if it may take anything.
fn taker_of<A: Allocator + Copy>(
    given: &Given<'_>,
    outline: &Outline<A>,
    function: &Record,
) -> Option<Taker>
    ensures { (s : System) → IsTreeOf outline.now s
        → IsTakerOf (code_given_value given.now) outline.now.roots s function.now result }
{
    let Some(bridge) = function.bridge else {
        return None;
    };
    let slot = function.slot;
    if !is_taking(given, slot) {
        return None;
    }
    let root = root_over(outline, slot);
    let bus = bridge.secondary;
    Some(Taker { slot, root, bus })
}

/// The bridges of an outline that may take anything, by slot.
pub fn find_takers<A: Allocator + Copy>(
    alloc: A,
    given: &Given<'_>,
    outline: &Outline<A>,
) -> Result<Vec<Taker, A>, OutOfMemory>
    ensures { IfOk result (λ v. (s : System) → IsTreeOf outline.now s
        → AreTakers (code_given_value given.now) outline.now.roots s v.items) }
{
    let mut takers = Vec::new(alloc);
    if given.unclaimed.is_empty() {
        return Ok(takers);
    }
    for function in outline.records() {
        if let Some(taker) = taker_of(given, outline, function) {
            takers.push(taker)?;
        }
    }
    Ok(takers)
}
