//! Wishes once all has its place: windows that end later, or open, so that there is room behind slots.
ghost use Rattle.std.specs.Prelude.{◌≡◌, ◌<◌, List, IfOk, length};
ghost use Rattle.std.specs.List.{All};
ghost use Rattle.pci_spec.specs.Slot.{Slot as SlotValue};
ghost use Rattle.settle_spec.specs.Lists.{Request};
ghost use Rattle.settle_spec.specs.Kept.{Kept as Keeping};
ghost use Rattle.settle_laws.specs.KeptLaws.{WishesNothing};
ghost use Rattle.pci_place.specs.Above.{system_in};
ghost use Rattle.pci_tree.specs.Roots.{buses_of};
ghost use Rattle.pci_tree.specs.Ways.{IsBridgeToBus};
ghost use Rattle.pci_first_fit.specs.Lines.{AreLineRows, AreLines};
ghost use Rattle.pci_first_fit.specs.Slots.{demand_value};
ghost use Rattle.pci_kept.specs.Flags.{AreFlags};
ghost use Rattle.pci_settle_places.specs.Live.{HasAllPlaces};
ghost use Rattle.pci_grow.specs.Granting.{AreExtents};
ghost use Rattle.pci_settle.specs.Requests.{IsAskedOf};
ghost use Rattle.pci_settle.specs.Told.{TellsKeeping};
ghost use Rattle.pci_settle.specs.Before.{HaveRegisters};
ghost use Rattle.pci_settle.specs.Wishes.{behind_slots, AreDeniedAt, AreWishes, AreGrantedAll, IsBasis, AreGrantedBy};

use crate::settle::Denied;
use crate::tables::Tables;
use crate::wishes_asked::{flags_by_function, spares};
use crate::wishes_before::{own_before, windows_before};
use pci_base::memory::OutOfMemory;
use pci_base::window_kind::ByKind;
use pci_first_fit::extent::Extent;
use pci_first_fit::lines::{Line, lines};
use pci_first_fit::list::Lists;
use pci_first_fit::slots::Slots;
use pci_first_fit::table::WindowRanges;
use pci_function::record::Record;
use pci_grow::board::{Board, BridgeWindow};
use pci_grow::fill::{Located, room_of};
use pci_grow::granting::{Wanted, grant};
use pci_kept::fixed::flags_of;
use pci_kept::place::bridges_over;
use pci_tree::admitted::Admitted;
use pci_tree::roots::Roots;
use std::alloc::{Allocator, Global};

/// What comes of all wishes.
#[derive(Drop)]
pub struct Wishes<A: Allocator = Global> {
    /// The windows of each function in which room is kept free, in slot order; None of those that show their places.
    pub wished: Vec<WindowRanges, A>,
    /// The windows whose spares have no room, the highest slot first, and of a slot by rising register.
    pub denied: Vec<Denied, A>,
}

/// What wishes are granted by, each by function in slot order.
#[derive(Drop)]
struct Basis<A: Allocator> {
    /// Which functions may not be written.
    fixed: Vec<bool, A>,
    /// Which functions are bridges with a slot.
    slots: Vec<bool, A>,
    /// The spares that are wanted behind each slot.
    spares: ByKind<Option<Extent>>,
    /// Where windows are before any wish.
    windows: Vec<WindowRanges, A>,
    /// Where BARs and ROMs are before any wish.
    own: Vec<Located, A>,
}

/// Which buses are roots, and the told ranges by bus.
#[derive(Clone, Copy)]
struct Buses<'a> {
    roots: &'a Roots,
    lines: &'a [Line],
}

/// Collects what wishes are granted by.
fn basis_of<A: Allocator + Copy>(
    alloc: A,
    records: &[Record],
    slots: &Slots,
    fixed: &[bool],
    tables: &Tables,
) -> Result<Basis<A>, OutOfMemory>
    // a flag for each slot number
    requires flags { length fixed.now ≡ 65536 }
    // a function's entries stand where its record does
    requires places { length tables.now.places.now ≡ length records.now }
    requires staying { length tables.now.staying.now ≡ length records.now }
    // places are told by the number of a BAR's register, so each has one
    requires registers { HaveRegisters records.now }
    ensures { IfOk result (IsBasis records.now slots.now fixed.now tables.now) }
{
    let slots_by_number = flags_of(alloc, slots.bridges)?;
    Ok(Basis {
        fixed: flags_by_function(alloc, records, fixed)?,
        slots: flags_by_function(alloc, records, slots_by_number.as_slice())?,
        spares: spares(slots),
        windows: windows_before(alloc, records, tables)?,
        own: own_before(alloc, records, tables)?,
    })
}

/// Windows by their slots and registers.
fn denied_at<A: Allocator>(
    alloc: A,
    records: &[Record],
    windows: &[BridgeWindow],
) -> Result<Vec<Denied, A>, OutOfMemory>
    // the bridge of each is one of the functions
    requires { All (λ w. w.bridge < length records.now) windows.now }
    ensures { IfOk result (λ denied. AreDeniedAt records.now windows.now denied.items) }
{
    let mut denied = Vec::new(alloc);
    for window in windows {
        denied.push(Denied {
            slot: records[window.bridge].slot,
            register: window.class.register(),
        })?;
    }
    Ok(denied)
}

/// What comes of all wishes on a board, where BARs and ROMs are these.
fn grant_all<A: Allocator + Copy>(
    alloc: A,
    board: &Board,
    own: &[Located],
    wanted: &Wanted,
) -> Result<Wishes<A>, OutOfMemory>
    // the bridge over a bus is one of the functions
    requires over { IsBridgeToBus board.now.records.now board.now.over.now }
    // those of a level are found by halving
    requires lines { AreLineRows board.now.lines.now }
    // without an address an extent has no last one, and of 0 there is no multiple
    requires spares { AreExtents wanted.now.spares.now }
    ensures count { IfOk result (λ w. length w.wished.items ≡ length board.now.records.now) }
    ensures granted { IfOk result
        (λ w. AreGrantedAll board.now own.now wanted.now w.wished.items w.denied.items) }
{
    let mut room = room_of(alloc, board, own)?;
    let denied = grant(alloc, board, &mut room, wanted)?;
    let denied = denied_at(alloc, board.records, denied.as_slice())?;
    Ok(Wishes {
        wished: room.wished,
        denied,
    })
}

/// What comes of all wishes by what was collected.
fn grant_by<A: Allocator + Copy>(
    alloc: A,
    records: &[Record],
    buses: &Buses,
    lists: &Lists,
    basis: &Basis<A>,
) -> Result<Wishes<A>, OutOfMemory>
    requires spares { AreExtents basis.now.spares }
    requires rows { AreLineRows buses.now.lines.now }
    requires lines { AreLines (buses_of buses.now.roots.now) lists.now.told.ranges.now
        buses.now.lines.now }
    ensures count { IfOk result (λ w. length w.wished.items ≡ length records.now) }
    ensures granted { IfOk result
        (λ w. AreGrantedBy records.now buses.now.roots.now lists.now basis.now w.wished.items w.denied.items) }
{
    let board = Board {
        records,
        roots: buses.roots,
        over: &bridges_over(records),
        lists,
        lines: buses.lines,
        fixed: basis.fixed.as_slice(),
        windows: basis.windows.as_slice(),
    };
    let wanted = Wanted {
        slots: basis.slots.as_slice(),
        spares: &basis.spares,
    };
    grant_all(alloc, &board, basis.own.as_slice(), &wanted)
}

/// Grants the wishes behind slots once all has its place, one after another from the highest slot down. `tables` tell where all
/// is without wishes.
///
/// Errors: 2 `OutOfMemory` where a growth was refused.
#[inline(never)]
pub fn wishes_of<A: Allocator + Copy, B: Allocator>(
    alloc: A,
    admitted: &Admitted<B>,
    lists: &Lists,
    fixed: &[bool],
    tables: &Tables,
) -> Result<Wishes<A>, OutOfMemory>
    // a flag for each slot number
    requires flags { length fixed.now ≡ 65536 }
    // a function's entries stand where its record does
    requires places { length tables.now.places.now ≡ length (system_in admitted.now) }
    requires staying { length tables.now.staying.now ≡ length (system_in admitted.now) }
    ensures count { IfOk result (λ w. length w.wished.items ≡ length (system_in admitted.now)) }
    ensures granted { IfOk result (λ w. (q : Request) → (slots : List SlotValue) → (keep : Keeping)
        → IsAskedOf q admitted.now.roots (demand_value lists.now) → AreFlags q.fixed fixed.now
        → HasAllPlaces (behind_slots q slots) (system_in admitted.now) keep tables.now.places.now
        → TellsKeeping (behind_slots q slots) (system_in admitted.now) keep tables.now.grown.now
        tables.now.staying.now
        → WishesNothing keep
        → AreWishes q (behind_slots q slots) (system_in admitted.now) keep w.wished.items
        w.denied.items) }
{
    let outline = admitted.outline();
    let records = outline.records();
    let basis = basis_of(alloc, records, &lists.slots, fixed, tables)?;
    let roots = outline.roots();
    let lines = lines(alloc, lists.told, &roots)?;
    let buses = Buses {
        roots: &roots,
        lines: lines.as_slice(),
    };
    grant_by(alloc, records, &buses, lists, &basis)
}
