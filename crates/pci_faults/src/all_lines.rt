//! All faults of judging, with what is given and told.
ghost use Rattle.std.specs.Prelude.{◌≡◌, ◌++◌, map, List, IfOk, OnOk};
ghost use Rattle.pci_spec.specs.Slot.{Slot};
ghost use Rattle.judge_spec.specs.Given.{nothing_given};
ghost use Rattle.judge_spec.specs.Told.{IsTold};
ghost use Rattle.judge_spec.specs.ToldClaims.{nothing_told};
ghost use Rattle.pci_faults.specs.declared.any_fault.AnyFault.TheVariants as codes;
ghost use Rattle.pci_claims.specs.Values.{code_given_value, told_value};
ghost use Rattle.pci_claims.specs.AllClaims.{IsClaimsBoard};
ghost use Rattle.pci_faults.specs.AllLines.{AreAllLines, any_fault_value, plain_fault, is_given};

use super::any_fault::{AnyFault, without_told};
use super::clash_lines::all_clashes;
use super::named::{Clash, Outside, Split, Unreached};
use super::outside_lines::all_outside;
use super::split_lines::all_splits;
use super::unreached_lines::all_unreached;
use crate::judging;
use pci_base::memory::OutOfMemory;
use pci_claims::board::Board;
use pci_claims::given::Given;
use pci_claims::told::{Told, ranges_on};
use pci_function::fault::Fault;
use pci_tree::outline::Outline;
use std::alloc::Allocator;

/// Adds faults 63.
fn add_outside<A: Allocator>(
    faults: &mut Vec<AnyFault, A>,
    outside: &[Outside],
) -> Result<(), OutOfMemory>
    ensures { OnOk result
        (faults.new.items ≡ faults.old.items ++ map (λ f. codes.OutsideHost f) outside.now) }
{
    for fault in outside {
        faults.push(AnyFault::OutsideHost(*fault))?;
    }
    Ok(())
}

/// Adds faults 60.
fn add_unreached<A: Allocator>(
    faults: &mut Vec<AnyFault, A>,
    unreached: &[Unreached],
) -> Result<(), OutOfMemory>
    ensures { OnOk result
        (faults.new.items ≡ faults.old.items ++ map (λ f. codes.Unreached f) unreached.now) }
{
    for fault in unreached {
        faults.push(AnyFault::Unreached(*fault))?;
    }
    Ok(())
}

/// Adds faults 61.
fn add_clashes<A: Allocator>(
    faults: &mut Vec<AnyFault, A>,
    clashes: &[Clash],
) -> Result<(), OutOfMemory>
    ensures { OnOk result
        (faults.new.items ≡ faults.old.items ++ map (λ f. codes.Clash f) clashes.now) }
{
    for fault in clashes {
        faults.push(AnyFault::Clash(*fault))?;
    }
    Ok(())
}

/// Adds faults 62.
fn add_splits<A: Allocator>(
    faults: &mut Vec<AnyFault, A>,
    splits: &[Split],
) -> Result<(), OutOfMemory>
    ensures { OnOk result
        (faults.new.items ≡ faults.old.items ++ map (λ f. codes.Split f) splits.now) }
{
    for fault in splits {
        faults.push(AnyFault::Split(*fault))?;
    }
    Ok(())
}

/// Adds faults to which no told range belongs.
pub fn add_without_told<A: Allocator>(
    faults: &mut Vec<AnyFault, A>,
    known: &[Fault],
) -> Result<(), OutOfMemory>
    ensures { OnOk result (map any_fault_value faults.new.items ≡ map any_fault_value faults.old.items
        ++ map plain_fault known.now) }
{
    for fault in known {
        faults.push(without_told(fault))?;
    }
    Ok(())
}

/// All faults of judging by number, each with what is given and told.
fn lines_of<A: Allocator + Copy>(
    alloc: A,
    board: &Board<'_, '_, A>,
) -> Result<Vec<AnyFault, A>, OutOfMemory>
    requires { IsClaimsBoard (told_value board.now.told) board.now.outline.now board.now.on.now
        board.now.bridges.now }
    ensures { IfOk result (λ v. AreAllLines (told_value board.now.told)
        (code_given_value board.now.given) board.now.outline.now v.items) }
{
    let outside = all_outside(alloc, board)?;
    let unreached = all_unreached(alloc, board)?;
    let clashes = all_clashes(alloc, board)?;
    let splits = all_splits(alloc, board)?;
    let mut faults = Vec::new(alloc);
    add_outside(&mut faults, &outside)?;
    add_unreached(&mut faults, &unreached)?;
    add_clashes(&mut faults, &clashes)?;
    add_splits(&mut faults, &splits)?;
    Ok(faults)
}

/// The same, of the systems with these records and root buses.
fn all_by_number<A: Allocator + Copy>(
    alloc: A,
    given: &Given<'_>,
    told: &Told<'_>,
    outline: &Outline<A>,
) -> Result<Vec<AnyFault, A>, OutOfMemory>
    requires { IsTold told.now.ranges.now }
    ensures { IfOk result (λ v. AreAllLines (told_value told.now) (code_given_value given.now)
        outline.now v.items) }
{
    let bridges = outline.bridges()?;
    let on = ranges_on(alloc, told, outline)?;
    let board = Board {
        outline,
        given: *given,
        told: *told,
        on: &on,
        bridges: &bridges,
    };
    lines_of(alloc, &board)
}

/// Whether something is given.
fn is_given(given: &Given<'_>) -> bool
    ensures { result ≡ is_given given.now }
{
    given.io.is_some()
        || given.memory.is_some()
        || !given.legacy.is_empty()
        || !given.isa.is_empty()
        || !given.palette.is_empty()
        || !given.unclaimed.is_empty()
}

/// All faults of judging with nothing given and nothing told, whoever is asleep.
fn all_plain<A: Allocator + Copy>(
    alloc: A,
    outline: &Outline<A>,
) -> Result<Vec<AnyFault, A>, OutOfMemory>
    ensures { (asleep : List Slot)
        → IfOk result (λ v. AreAllLines (nothing_told asleep) nothing_given outline.now v.items) }
{
    let known = judging::all_of_judging(alloc, outline)?;
    let mut faults = Vec::new(alloc);
    add_without_told(&mut faults, &known)?;
    Ok(faults)
}

/// All faults of judging of the systems with these records and root buses, with what is given and told: 63, as
/// [`all_outside`] tells them, then 60, 61 and 62, as [`all_unreached`], [`all_clashes`] and [`all_splits`] do. They stand in
/// the order in which judging looks for them.
///
/// Where nothing is given and nothing told it costs what [`judging::all_of_judging`] does.
pub fn all_of_judging<A: Allocator + Copy>(
    alloc: A,
    given: &Given<'_>,
    told: &Told<'_>,
    outline: &Outline<A>,
) -> Result<Vec<AnyFault, A>, OutOfMemory>
    // they are read of a text
    requires { IsTold told.now.ranges.now }
    ensures { IfOk result (λ v. AreAllLines (told_value told.now) (code_given_value given.now)
        outline.now v.items) }
{
    if is_given(given) || !told.ranges.is_empty() {
        all_by_number(alloc, given, told, outline)
    } else {
        all_plain(alloc, outline)
    }
}
