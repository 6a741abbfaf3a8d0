//! One wish after another, from the highest slot down: I/O first, then memory, then prefetchable memory.
ghost use Rattle.std.specs.Prelude.{◌≡◌, ◌<◌, IfOk, OnOk, Option, length};
ghost use Rattle.std.specs.List.{All};
ghost use Rattle.pci_spec.specs.System.{System, Function};
ghost use Rattle.pci_spec.specs.Window.{WindowKind as KindValue};
ghost use Rattle.settle_spec.specs.FirstPlace.{Extent as ExtentValue};
ghost use Rattle.settle_spec.specs.Lists.{Request};
ghost use Rattle.settle_spec.specs.Kept.{Kept};
ghost use Rattle.settle_spec.specs.Wishes.{Granted, with_spare_of, with_spares_of, granted};
ghost use Rattle.pci_place.specs.Items.{function_in};
ghost use Rattle.pci_first_fit.specs.Lines.{AreLineRows};
ghost use Rattle.pci_tree.specs.Ways.{IsBridgeToBus};
ghost use Rattle.pci_grow.specs.Board.{room_value, window_class, bridge_of_window, IsRoom, IsRoomOfKept};
ghost use Rattle.pci_grow.specs.Granting.{spare_in, AreExtents, AreSpares, AreGranted, SparesAreTold};

use crate::board::{Board, BridgeWindow, flag_of};
use crate::spare_room::Room;
use crate::sparing::{DEPTH, Sought, spared};
use pci_base::memory::OutOfMemory;
use pci_base::window_kind::{ByKind, WindowKind};
use pci_first_fit::extent::Extent;
use std::alloc::Allocator;

/// What is wanted behind slots.
#[derive(Clone, Copy)]
pub struct Wanted<'a> {
    /// Whether each function is a bridge with a slot.
    pub slots: &'a [bool],
    /// How large a spare of each class is, and how it is aligned; None where none is wanted.
    pub spares: &'a ByKind<Option<Extent>>,
}

impl Wanted<'_> {
    /// The spare that is wanted in a window, whatever the highest address is that this can hold.
    fn spare(&self, window: BridgeWindow) -> Option<Extent>
        ensures { result ≡ spare_in self.now.slots.now self.now.spares.now window }
    {
        if flag_of(self.slots, window.bridge) {
            *self.spares.get(window.class)
        } else {
            None
        }
    }
}

/// Grants the wish for a window, or notes it with those that are denied.
fn grant_window<A: Allocator + Copy>(
    board: &Board,
    room: &mut Room<A>,
    wanted: &Wanted,
    window: BridgeWindow,
    denied: &mut Vec<BridgeWindow, A>,
) -> Result<(), OutOfMemory>
    requires over { IsBridgeToBus board.now.records.now board.now.over.now }
    requires lines { AreLineRows board.now.lines.now }
    requires room { IsRoom (length board.now.records.now) (room_value room.old) }
    requires window { window.bridge < length board.now.records.now }
    requires spares { AreExtents wanted.now.spares.now }
    requires within { All (λ w. w.bridge < length board.now.records.now) denied.old.items }
    ensures room { IsRoom (length board.now.records.now) (room_value room.new) }
    ensures within { All (λ w. w.bridge < length board.now.records.now) denied.new.items }
    ensures granted { OnOk result ((q : Request) → (s : System)
        → (spare : KindValue → Function → Option ExtentValue) → (g : Granted)
        → AreSpares s wanted.now.slots.now wanted.now.spares.now spare
        → AreGranted q s board.now g (room_value room.old) denied.old.items
        → AreGranted q s board.now (with_spare_of q s (window_class window) (bridge_of_window s window)
        (spare (window_class window) (bridge_of_window s window)) g) (room_value room.new) denied.new.items) }
{
    let Some(spare) = wanted.spare(window) else {
        return Ok(());
    };
    let Some(facts) = board.facts(window) else {
        return Ok(());
    };
    if !facts.there {
        return Ok(());
    }
    let extent = Extent {
        size: spare.size,
        alignment: spare.alignment,
        highest: facts.highest,
    };
    let sought = Sought {
        extent,
        behind: &[],
    };
    if spared(board, room, window, &sought, DEPTH)?.is_some() {
        return Ok(());
    }
    denied.push(window)?;
    Ok(())
}

/// Grants the wishes of a bridge.
fn grant_bridge<A: Allocator + Copy>(
    board: &Board,
    room: &mut Room<A>,
    wanted: &Wanted,
    bridge: usize,
    denied: &mut Vec<BridgeWindow, A>,
) -> Result<(), OutOfMemory>
    requires over { IsBridgeToBus board.now.records.now board.now.over.now }
    requires lines { AreLineRows board.now.lines.now }
    requires room { IsRoom (length board.now.records.now) (room_value room.old) }
    requires bridge { bridge < length board.now.records.now }
    requires spares { AreExtents wanted.now.spares.now }
    requires within { All (λ w. w.bridge < length board.now.records.now) denied.old.items }
    ensures room { IsRoom (length board.now.records.now) (room_value room.new) }
    ensures within { All (λ w. w.bridge < length board.now.records.now) denied.new.items }
    ensures granted { OnOk result ((q : Request) → (s : System)
        → (spare : KindValue → Function → Option ExtentValue) → (g : Granted)
        → AreSpares s wanted.now.slots.now wanted.now.spares.now spare
        → AreGranted q s board.now g (room_value room.old) denied.old.items
        → AreGranted q s board.now (with_spares_of q s spare (function_in s bridge) g)
        (room_value room.new) denied.new.items) }
{
    let class = WindowKind::Io;
    grant_window(board, room, wanted, BridgeWindow { bridge, class }, denied)?;
    let class = WindowKind::Memory;
    grant_window(board, room, wanted, BridgeWindow { bridge, class }, denied)?;
    let class = WindowKind::Prefetchable;
    grant_window(board, room, wanted, BridgeWindow { bridge, class }, denied)?;
    Ok(())
}

/// Grants all wishes. The answer are the windows whose spares are denied, in the order in which that was found.
pub fn grant<A: Allocator + Copy>(
    alloc: A,
    board: &Board,
    room: &mut Room<A>,
    wanted: &Wanted,
) -> Result<Vec<BridgeWindow, A>, OutOfMemory>
    // the bridge over a bus is one of the functions
    requires over { IsBridgeToBus board.now.records.now board.now.over.now }
    // those of a level are found by halving
    requires lines { AreLineRows board.now.lines.now }
    // each function has its entry, and each bus its rows
    requires room { IsRoom (length board.now.records.now) (room_value room.old) }
    // without an address an extent has no last one, and of 0 there is no multiple
    requires spares { AreExtents wanted.now.spares.now }
    ensures room { IsRoom (length board.now.records.now) (room_value room.new) }
    // so each has a record
    ensures within { IfOk result (λ denied. All (λ w. w.bridge < length board.now.records.now) denied.items) }
    ensures granted { IfOk result (λ denied. (q : Request) → (s : System)
        → (spare : KindValue → Function → Option ExtentValue) → (k : Kept)
        → AreSpares s wanted.now.slots.now wanted.now.spares.now spare
        → IsRoomOfKept q s k board.now (room_value room.old)
        → AreGranted q s board.now (granted q s spare k) (room_value room.new) denied.items) }
{
    let mut denied = Vec::new(alloc);
    let functions = board.records.len();
    for done in 0..functions {
        grant_bridge(board, room, wanted, functions - 1 - done, &mut denied)?;
    }
    Ok(denied)
}

/// A law of spares: where flags tell which bridges have a slot, and extents how large the spares are that are asked for, these
/// are the spares of the definitions.
pub fn spare_laws()
    ensures { SparesAreTold }
{}
