//! In which spaces functions are shut while registers are set, and what Command holds once all is closed.
ghost use Rattle.std.specs.Prelude.{◌≡◌, ◌==◌, ◌||◌, IfOk, length};
ghost use Rattle.std.specs.List.{All, list_any};
ghost use Rattle.pci_spec.specs.System.{Io, Memory};
ghost use Rattle.settle_spec.specs.Lists.{Request};
ghost use Rattle.settle_spec.specs.Kept.{Kept as Keeping};
ghost use Rattle.pci_base.specs.Space.{space_of};
ghost use Rattle.pci_place.specs.Above.{system_in};
ghost use Rattle.pci_settle_places.specs.Shown.{HasRegister};
ghost use Rattle.pci_settle.specs.Closed.{IsClosedBy};
ghost use Rattle.pci_settle.specs.ToldEndings.{AreClearAbove};
ghost use Rattle.pci_settle.specs.Shut.{is_same_above, is_bar_changed, is_moving_bar, has_moving_rom, has_moving_by, HasEachAnswer, has_own_around, is_cut_off_by, is_shut_by, closing_by, AreClosings};

use crate::closed::{Closing, changed_windows};
use crate::dump::{Images, answering_of};
use crate::tables::Tables;
use crate::way::{BySpace, Way};
use pci_base::image::Image;
use pci_base::memory::OutOfMemory;
use pci_base::offset::BASE_ADDRESS;
use pci_base::slot::BUSES;
use pci_base::space::Space;
use pci_first_fit::kept::Kept;
use pci_first_fit::list::Lists;
use pci_first_fit::over::{OpenWindows, Over, open_over};
use pci_first_fit::own::{class_of, is_left_bar};
use pci_function::record::Record;
use pci_image::bar::{Bar, BarKind};
use pci_place::above::aboves;
use pci_settle_places::answering::{Answering, is_answering};
use pci_settle_places::claim::{has_kept, has_left_bar, is_bar_of, is_rom_on};
use pci_tree::admitted::Admitted;
use std::alloc::{Allocator, Global};

/// What is around a function, and what of it stays.
#[derive(Clone, Copy)]
struct Around<'a> {
    over: Over,
    /// What functions answer beside their BARs and ROMs.
    answering: Answering<'a>,
    way: Way,
    kept: &'a Kept,
}

/// What closing leaves of each function, and what bridges above each bus are.
#[derive(Drop)]
pub struct Closings<A: Allocator = Global> {
    /// In slot order.
    pub each: Vec<Closing, A>,
    /// By bus number.
    pub ways: Vec<Way, A>,
}

impl Around<'_> {
    /// Whether no window of a BAR's class changes of the bridges above it.
    fn is_same_above(&self, bar: &Bar) -> bool
        ensures { result ≡ is_same_above self.now bar.now }
    {
        self.way
            .same
            .get(class_of(bar, &self.over, self.answering.terms))
    }
}

/// Whether the register of a BAR changes, or one of the two of a wide one.
fn is_bar_changed(old: &Image, new: &Image, bar: &Bar) -> bool
    requires { HasRegister bar.now }
    ensures { result ≡ is_bar_changed old.now.0 new.now.0 bar.now }
{
    new.u32(bar.reg) != old.u32(bar.reg)
        || bar.kind == BarKind::Mem64 && new.u32(bar.reg + 4) != old.u32(bar.reg + 4)
}

/// Whether a BAR of a space moves: its register changes, or the window of its class of a bridge above it does. One that is
/// left or stays doesn't.
fn is_moving_bar(space: Space, around: &Around, old: &Image, new: &Image, bar: &Bar) -> bool
    requires { HasRegister bar.now }
    ensures { result ≡ is_moving_bar around.now (space_of space) old.now.0 new.now.0 bar.now }
{
    is_bar_of(space, bar)
        && !is_left_bar(bar, around.over.above, around.answering.terms)
        && !around.kept.bar((bar.reg - BASE_ADDRESS) / 4)
        && (is_bar_changed(old, new, bar) || !around.is_same_above(bar))
}

/// Whether one of some BARs does.
fn has_moving_bar(space: Space, around: &Around, old: &Image, new: &Image, bars: &[Bar]) -> bool
    requires { All HasRegister bars.now }
    ensures { result
        ≡ list_any (is_moving_bar around.now (space_of space) old.now.0 new.now.0) bars.now }
{
    for bar in bars {
        if is_moving_bar(space, around, old, new, bar) {
            return true;
        }
    }
    false
}

/// Whether a ROM that is on moves, which is of the class of memory. One that stays doesn't.
fn has_moving_rom(around: &Around, old: &Image, new: &Image, record: &Record) -> bool
    ensures { result ≡ has_moving_rom around.now old.now.0 new.now.0 «record».now }
{
    let register = record.rom_register();
    is_rom_on(record.rom)
        && !around.kept.rom
        && (new.u32(register) != old.u32(register) || !around.way.same.memory)
}

/// Whether a BAR or ROM of a space moves.
fn has_moving(space: Space, around: &Around, old: &Image, new: &Image, record: &Record) -> bool
    requires { All HasRegister «record».now.bars.items }
    ensures { result
        ≡ has_moving_by around.now (space_of space) old.now.0 new.now.0 «record».now }
{
    has_moving_bar(space, around, old, new, record.bars.as_slice())
        || space == Space::Mem && has_moving_rom(around, old, new, record)
}

/// Whether a function has a BAR, a ROM or a told range to answer in a space.
fn has_own(space: Space, around: &Around, record: &Record) -> bool
    requires { HasEachAnswer around.now.answering }
    ensures { result ≡ has_own_around around.now (space_of space) «record».now }
{
    has_kept(space, around.over.above, around.answering.terms, record)
        || is_answering(&around.answering, record.slot, space)
}

/// Whether a function is on in a space in which it has something to answer, and a bridge above it isn't.
fn is_cut_off(space: Space, around: &Around, record: &Record) -> bool
    requires { HasEachAnswer around.now.answering }
    ensures { result ≡ is_cut_off_by around.now (space_of space) «record».now }
{
    space.is_on(record.command) && has_own(space, around, record) && !around.way.on.get(space)
}

/// In which spaces a function is shut for itself: something of it moves, or it is cut off.
fn shut_itself(around: &Around, old: &Image, new: &Image, record: &Record) -> BySpace
    requires bars { All HasRegister «record».now.bars.items }
    requires told { HasEachAnswer around.now.answering }
    ensures io { result.io ≡ is_shut_by around.now Io old.now.0 new.now.0 «record».now }
    ensures memory { result.memory ≡ is_shut_by around.now Memory old.now.0 new.now.0 «record».now }
{
    BySpace {
        io: has_moving(Space::Io, around, old, new, record)
            || is_cut_off(Space::Io, around, record),
        memory: has_moving(Space::Mem, around, old, new, record)
            || is_cut_off(Space::Mem, around, record),
    }
}

/// What Command holds once a function is closed that is shut in these spaces: the enable of a space stays where the function
/// isn't shut in it, but never for an I/O BAR that is left (PCI 3.0, 6.2.2).
fn closing_command(around: &Around, record: &Record, shut: BySpace) -> u16
    ensures { result ≡ closing_by around.now «record».now shut }
{
    let over = around.over.above;
    let io = !shut.io
        && !has_left_bar(record, over, around.answering.terms)
        && Space::Io.is_on(record.command);
    let memory = !shut.memory && Space::Mem.is_on(record.command);
    let enables = match (io, memory) {
        (false, false) => 0,
        (true, false) => 1,
        (false, true) => 2,
        (true, true) => 3,
    };
    record.command / 4 * 4 + enables
}

/// What closing leaves of each function, and what the bridges above each bus are. `overs` has the open windows over each bus.
/// What is shut and which windows change is known of each bridge above a function before the function itself, as a bridge has a
/// lower slot than what is behind it.
pub fn all_closings<A: Allocator + Copy, B: Allocator>(
    alloc: A,
    admitted: &Admitted<B>,
    lists: &Lists,
    overs: &[OpenWindows],
    images: &Images,
    tables: &Tables,
) -> Result<Closings<A>, OutOfMemory>
    // old and new of a function have one index
    requires plain { length images.now.plain.now ≡ length admitted.now.dump }
    requires settled { length images.now.settled.now ≡ length admitted.now.dump }
    // what stays of a function stands where its record does
    requires staying { length tables.now.staying.now ≡ length (system_in admitted.now) }
    // a told range has its flag by its index
    requires told { length tables.now.standing.now ≡ length lists.now.told.ranges.now }
    // a function's entry stands where its record does
    ensures count { IfOk result
        (λ x. length x.each.items ≡ length (system_in admitted.now)) }
    // bus numbers index it
    ensures buses { IfOk result (λ x. length x.ways.items ≡ 256) }
    ensures closings { IfOk result (λ x. (q : Request) (keep : Keeping)
        → IsClosedBy q keep admitted.now lists.now overs.now images.now tables.now
        → AreClosings q (system_in admitted.now) keep x.each.items) }
    ensures ways { IfOk result (λ x. (q : Request) (keep : Keeping)
        → IsClosedBy q keep admitted.now lists.now overs.now images.now tables.now
        → AreClearAbove q (system_in admitted.now) keep x.ways.items) }
{
    let aboves = aboves(admitted);
    let answering = answering_of(lists, tables.standing);
    let outline = admitted.outline();
    let records = outline.records();
    let start = admitted.dump().blocks();
    let mut ways = vec![in alloc; Way::NONE; BUSES]?;
    let mut each = Vec::new(alloc);
    for k in 0..records.len() {
        let record = &records[k];
        let bus = record.slot.bus();
        let way = ways[usize::from(bus)];
        let over = Over {
            above: aboves[usize::from(bus)],
            windows: open_over(overs, bus),
        };
        let kept = &tables.staying[k];
        let around = Around {
            over,
            answering,
            way,
            kept,
        };
        let old = &start[k];
        let plain = &images.plain[k];
        let new = &images.settled[k];
        let itself = shut_itself(&around, &old.image, &new.image, record);
        let changed = changed_windows(record, &old.image, &plain.image, &new.image);
        each.push(Closing {
            command: closing_command(&around, record, way.shut(itself)),
            windows: changed.without(&kept.windows),
        })?;
        if let Some(bridge) = &record.bridge {
            ways[usize::from(bridge.secondary)] = way.and(record.command, itself, changed);
        }
    }
    Ok(Closings { each, ways })
}
