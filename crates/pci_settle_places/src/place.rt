//! The places of all that doesn't stay where it is.
ghost use Rattle.std.specs.Prelude.{◌≡◌, IfOk, IfErr, OnOk, length};
ghost use Rattle.pci_base.specs.Space.{space_of};
ghost use Rattle.pci_base.specs.WindowKinds.{kind_value};
ghost use Rattle.pci_place.specs.Above.{AreAboves, system_in};
ghost use Rattle.pci_first_fit.specs.Lists.{lists_value};
ghost use Rattle.pci_first_fit.specs.Slots.{demand_value};
ghost use Rattle.pci_first_fit.specs.Own.{AreTerms};
ghost use Rattle.pci_first_fit.specs.Buses.{AreWindows};
ghost use Rattle.pci_settle_places.specs.Candidates.{AreSpaceWindows, HasWindowsIn, KnowsRequest};
ghost use Rattle.pci_kept.specs.Held.{AreByLevel};
ghost use Rattle.pci_first_fit.specs.Lines.{AreLineRows};
ghost use Rattle.pci_settle_places.specs.Stretches.{AreStretches};
ghost use Rattle.pci_settle_places.specs.Spaces.{HasNoPlaceInSpace, KeepsOtherSpace};
ghost use Rattle.pci_settle_places.specs.Placed.{HasClassWindows, IsClassTooLarge, IsSpaceTooLarge, IsUnplacedIn, HasPlacesIn, AreAllNone, CanBeLeft, ArePlacesOff, IsUnplacedOff};
ghost use Rattle.pci_settle_places.specs.Staying.{place_setting_value};

use crate::anew::Unplaced;
use crate::candidate::SpaceWindows;
use crate::places::Places;
use crate::setting::{Pass, Setting};
use crate::space::place_space;
use crate::staying::Staying;
use crate::stretch::stretches;
use pci_base::memory::{OutOfMemory, Refused};
use pci_base::slot::BUSES;
use pci_base::space::Space;
use pci_base::window_kind::WindowKind;
use pci_first_fit::extent::Extent;
use pci_first_fit::lines::lines;
use pci_first_fit::list::Lists;
use pci_first_fit::listing::Classing;
use pci_first_fit::new_window::new_windows;
use pci_first_fit::over::Left;
use pci_first_fit::own::Terms;
use pci_kept::held::held_parts;
use pci_place::above::aboves;
use pci_tree::admitted::Admitted;
use std::alloc::Allocator;

/// The new windows of a class, or the function of which that would have 2^64 addresses or more.
fn class_windows<A: Allocator + Copy, B: Allocator>(
    alloc: A,
    setting: &Setting<B>,
    class: WindowKind,
    windows: &mut [Option<Extent>; BUSES],
) -> Result<(), Refused<Unplaced>>
    requires { AreAboves (system_in setting.now.admitted.now) setting.now.aboves.now }
    ensures windows { OnOk result (HasClassWindows (place_setting_value setting.now)
        (kind_value class) windows.new) }
    ensures lawful { AreWindows windows.new }
    ensures fault { IfErr result (IsClassTooLarge (place_setting_value setting.now)
        (kind_value class)) }
{
    let classing = Classing {
        admitted: setting.admitted,
        aboves: setting.aboves,
        terms: setting.terms,
        overs: setting.staying.left.over,
    };
    match new_windows(alloc, &classing, class, windows)? {
        Some(function) => Err(Refused::Fault(Unplaced::TooLarge { class, function })),
        None => Ok(()),
    }
}

/// The new windows of a space.
fn space_windows<A: Allocator + Copy, B: Allocator>(
    alloc: A,
    setting: &Setting<B>,
    space: Space,
) -> Result<SpaceWindows, Refused<Unplaced>>
    requires { AreAboves (system_in setting.now.admitted.now) setting.now.aboves.now }
    ensures windows { IfOk result (λ windows. HasWindowsIn record {
      setting = place_setting_value setting.now;
      space = space_of space;
      windows = windows;
    }) }
    ensures lawful { IfOk result AreSpaceWindows }
    ensures fault { IfErr result (IsSpaceTooLarge (place_setting_value setting.now)
        (space_of space)) }
{
    let mut plain = [None; BUSES];
    let mut prefetch = [None; BUSES];
    match space {
        Space::Io => {
            class_windows(alloc, setting, WindowKind::Io, &mut plain)?;
        }
        Space::Mem => {
            class_windows(alloc, setting, WindowKind::Memory, &mut plain)?;
            class_windows(alloc, setting, WindowKind::Prefetchable, &mut prefetch)?;
        }
    }
    Ok(SpaceWindows { plain, prefetch })
}

/// Places all of a space and notes it in a table that has none of it.
fn place_in<A: Allocator + Copy, B: Allocator>(
    alloc: A,
    setting: &Setting<B>,
    space: Space,
    lists: &Lists,
    table: &mut [Places],
) -> Result<(), Refused<Unplaced>>
    requires above { AreAboves (system_in setting.now.admitted.now) setting.now.aboves.now }
    requires terms { AreTerms (demand_value lists.now) setting.now.terms }
    requires held { AreByLevel setting.now.staying.held.now }
    requires lines { AreLineRows setting.now.staying.lines.now }
    requires stretches { AreStretches setting.now.staying.lines.now setting.now.staying.stretches.now }
    requires known { KnowsRequest (place_setting_value setting.now) (lists_value lists.now) }
    requires count { length table.old ≡ length (system_in setting.now.admitted.now) }
    requires none { HasNoPlaceInSpace (system_in setting.now.admitted.now) (space_of space) table.old }
    ensures placed { OnOk result (HasPlacesIn (place_setting_value setting.now)
        (space_of space) (lists_value lists.now) table.new) }
    ensures others { OnOk result (KeepsOtherSpace (system_in setting.now.admitted.now) (space_of space)
        table.old table.new) }
    ensures fault { IfErr result (IsUnplacedIn (place_setting_value setting.now)
        (space_of space) (lists_value lists.now)) }
{
    let windows = space_windows(alloc, setting, space)?;
    let pass = Pass {
        setting,
        space,
        windows: &windows,
    };
    match place_space(alloc, &pass, lists, table)? {
        Some(candidate) => Err(Refused::Fault(Unplaced::Lacks(candidate))),
        None => Ok(()),
    }
}

/// A table without any place.
fn no_places<A: Allocator>(alloc: A, functions: usize) -> Result<Vec<Places, A>, OutOfMemory>
    ensures count { IfOk result (λ table. length table.items ≡ functions) }
    ensures none { IfOk result (λ table. AreAllNone table.items) }
{
    let mut table = Vec::new(alloc);
    for _ in 0..functions {
        table.push(Places::NONE)?;
    }
    Ok(table)
}

/// The addresses that all parts get that don't stay where they are, by function in slot order, or what can't be placed: in I/O
/// space, or else in memory. `left` is what stays, to what it grows there, and by which windows BARs have their classes.
///
/// A new window of 2^64 addresses or more is told also where its bridge keeps the one that it has.
pub fn place<A: Allocator + Copy, B: Allocator>(
    alloc: A,
    admitted: &Admitted<B>,
    lists: &Lists,
    left: &Left,
) -> Result<Vec<Places, A>, Refused<Unplaced>>
    // it is what stays of something that is asked for
    requires { CanBeLeft admitted.now.roots (system_in admitted.now) (demand_value lists.now) left.now }
    ensures places { IfOk result (λ table. ArePlacesOff admitted.now.roots (system_in admitted.now)
        (demand_value lists.now) left.now table.items) }
    ensures fault { IfErr result (IsUnplacedOff admitted.now.roots (system_in admitted.now)
        (demand_value lists.now) left.now) }
{
    let aboves = aboves(admitted);
    let terms = Terms::of(lists);
    let held = held_parts(alloc, admitted, lists, left.kept, left.grown)?;
    let outline = admitted.outline();
    let rows = lines(alloc, lists.told, &outline.roots())?;
    let stretches = stretches(alloc, rows.as_slice())?;
    let staying = Staying {
        left: *left,
        held: held.as_slice(),
        lines: rows.as_slice(),
        stretches: stretches.as_slice(),
    };
    let setting = Setting {
        admitted,
        aboves: &aboves,
        terms,
        staying,
    };
    let mut table = no_places(alloc, outline.records().len())?;
    let entries = table.as_mut_slice();
    place_in(alloc, &setting, Space::Io, lists, entries)?;
    place_in(alloc, &setting, Space::Mem, lists, entries)?;
    Ok(table)
}
