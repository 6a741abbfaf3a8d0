//! The writes that lead to the settled dump: what is shut is closed, registers are set, and functions are opened.
ghost use Rattle.std.specs.Prelude.{◌≡◌, ◌++◌, IfOk, OnOk, IsTrue, length, map};
ghost use Rattle.std.specs.List.{list_all, flat_map};
ghost use Rattle.pci_spec.specs.System.{System};
ghost use Rattle.plan_spec.specs.Planning.PlanWrites.{register_write};
ghost use Rattle.settle_spec.specs.Lists.{Request};
ghost use Rattle.settle_spec.specs.Kept.{Kept as Keeping};
ghost use Rattle.settle_spec.specs.Keeping.Writes as spec;
ghost use Rattle.settle_spec.specs.Keeping.Writes.{closings, setting_from, opening_from, settle_writes};
ghost use Rattle.pci_place.specs.Above.{system_in};
ghost use Rattle.pci_plan.specs.Writes.{write_value};
ghost use Rattle.pci_settle.specs.Shut.{AreClosings};
ghost use Rattle.pci_settle.specs.Dumps.{IsSettledDump};
ghost use Rattle.pci_settle.specs.Stages.{pair_of, is_access_of, images_change, bridge_closing, bridge_settings, is_bridge_image, HasEachStage, AreStages, command_at, closing_at, setting_at};

use crate::closed::{Closing, closed_image};
use pci_base::image::Image;
use pci_base::memory::OutOfMemory;
use pci_base::offset::{
    BASE_ADDRESS, BRIDGE_EXPANSION_ROM, COMMAND, IO_BASE, IO_BASE_UPPER, MEMORY_BASE,
    PREFETCHABLE_BASE, PREFETCHABLE_BASE_UPPER, PREFETCHABLE_LIMIT_UPPER,
};
use pci_base::slot::Slot;
use pci_dump::block::Block;
use pci_image::layout::Layout;
use pci_plan::write::Write;
use pci_plan::writes::add_registers;
use pci_tree::admitted::Admitted;
use std::alloc::{Allocator, Global};

/// Writes in their order, and how many of them close.
#[derive(Debug, Drop)]
pub struct Writes<A: Allocator = Global> {
    pub all: Vec<Write, A>,
    /// How many of them, at the beginning, close functions and windows.
    pub closings: usize,
}

/// Where a register stands: its byte offset, and its width in bytes.
#[derive(Clone, Copy, Debug)]
struct Span {
    offset: u8,
    width: u8,
}

/// A register of so many bytes.
macro_rules! span {
    ($offset:expr, $width:expr) => {
        Span {
            offset: $offset,
            width: $width,
        }
    };
}

/// The registers of a bridge that closing can change, in the order in which they are closed.
static CLOSING: [Span; 6] = [
    span!(COMMAND, 2),
    span!(IO_BASE, 2),
    span!(IO_BASE_UPPER, 4),
    span!(MEMORY_BASE, 4),
    span!(PREFETCHABLE_BASE, 4),
    span!(PREFETCHABLE_LIMIT_UPPER, 4),
];

/// The address registers of a bridge in the order in which they are set, upper halves of a window before the lower ones.
static BASE_FIRST: [Span; 9] = [
    span!(BASE_ADDRESS, 4),
    span!(BASE_ADDRESS + 4, 4),
    span!(IO_BASE_UPPER, 4),
    span!(IO_BASE, 2),
    span!(MEMORY_BASE, 4),
    span!(PREFETCHABLE_BASE_UPPER, 4),
    span!(PREFETCHABLE_LIMIT_UPPER, 4),
    span!(PREFETCHABLE_BASE, 4),
    span!(BRIDGE_EXPANSION_ROM, 4),
];

/// The same with the upper limit of the prefetchable window before the upper base.
static LIMIT_FIRST: [Span; 9] = [
    span!(BASE_ADDRESS, 4),
    span!(BASE_ADDRESS + 4, 4),
    span!(IO_BASE_UPPER, 4),
    span!(IO_BASE, 2),
    span!(MEMORY_BASE, 4),
    span!(PREFETCHABLE_LIMIT_UPPER, 4),
    span!(PREFETCHABLE_BASE_UPPER, 4),
    span!(PREFETCHABLE_BASE, 4),
    span!(BRIDGE_EXPANSION_ROM, 4),
];

/// The registers of a bridge that closing can change.
fn closing_spans() -> &'static [Span]
    ensures table { map pair_of result.now ≡ bridge_closing }
    ensures lawful { IsTrue (list_all is_access_of result.now) }
{
    &CLOSING
}

/// The address registers of a bridge in the order in which they are set: where the new upper base of the prefetchable window is
/// below the upper limit that is shown by then, the limit comes first, so that the window never holds more on the way.
fn setting_spans(closed: &Image, new: &Image) -> &'static [Span]
    ensures table { map pair_of result.now ≡ bridge_settings closed.now.0 new.now.0 }
    ensures lawful { IsTrue (list_all is_access_of result.now) }
{
    if new.u32(PREFETCHABLE_BASE_UPPER) < closed.u32(PREFETCHABLE_LIMIT_UPPER) {
        &LIMIT_FIRST
    } else {
        &BASE_FIRST
    }
}

/// Adds the writes of those registers that change, in their order.
fn add_changes<A: Allocator>(
    writes: &mut Vec<Write, A>,
    slot: Slot,
    old: &Image,
    new: &Image,
    spans: &[Span],
) -> Result<(), OutOfMemory>
    // an access lies within one doubleword, so all its bytes are there
    requires { IsTrue (list_all is_access_of spans.now) }
    ensures { OnOk result (map write_value writes.new.items ≡ map write_value writes.old.items
        ++ flat_map (register_write (images_change slot old.now.0 new.now.0)) (map pair_of spans.now)) }
{
    for span in spans {
        let value = new.number(span.offset, span.width);
        if value != old.number(span.offset, span.width) {
            writes.push(Write {
                slot,
                off: span.offset,
                width: span.width,
                value,
            })?;
        }
    }
    Ok(())
}

/// Adds a write to Command, where it changes something.
fn add_command<A: Allocator>(
    writes: &mut Vec<Write, A>,
    slot: Slot,
    old: u16,
    new: u16,
) -> Result<(), OutOfMemory>
    ensures { OnOk result (map write_value writes.new.items
        ≡ map write_value writes.old.items ++ command_at slot old new) }
{
    if new != old {
        writes.push(Write {
            slot,
            off: COMMAND,
            width: 2,
            value: new.into(),
        })?;
    }
    Ok(())
}

/// The states of all functions, each in slot order.
#[derive(Drop)]
struct Stages<'a> {
    start: &'a [Block],
    /// What registers read back.
    probe: &'a [Block],
    closings: &'a [Closing],
    settled: &'a [Block],
}

/// Whether a function is a bridge.
fn is_bridge(image: &Image) -> bool
    ensures { result ≡ is_bridge_image image.now.0 }
{
    Layout::or_device(image) == Layout::Bridge
}

/// Closes a function: of a device Command alone, of a bridge windows too.
fn add_closing<A: Allocator>(
    writes: &mut Vec<Write, A>,
    old: &Block,
    probe: &Image,
    closing: Closing,
) -> Result<(), OutOfMemory>
    ensures { OnOk result (map write_value writes.new.items ≡ map write_value writes.old.items
        ++ closing_at old.now.slot old.now.image probe.now.0 closing) }
{
    if is_bridge(&old.image) {
        let closed = closed_image(&old.image, probe, closing);
        add_changes(writes, old.slot, &old.image, &closed, closing_spans())
    } else {
        add_command(writes, old.slot, old.image.u16(COMMAND), closing.command)
    }
}

/// Closes functions, the highest slot first.
fn add_closings<A: Allocator>(
    writes: &mut Vec<Write, A>,
    stages: &Stages,
) -> Result<(), OutOfMemory>
    requires { HasEachStage stages.now }
    ensures { OnOk result ((q : Request) (s : System) (keep : Keeping) → AreStages q s keep stages.now
        → map write_value writes.new.items ≡ map write_value writes.old.items ++ closings q s keep s) }
{
    for done in 0..stages.start.len() {
        let k = stages.start.len() - 1 - done;
        let old = &stages.start[k];
        let probe = &stages.probe[k];
        add_closing(writes, old, &probe.image, stages.closings[k])?;
    }
    Ok(())
}

/// Sets the address registers of a function that change: of a device by rising offset, as closing changes none of them, of a
/// bridge from what closing left.
fn add_setting<A: Allocator>(
    writes: &mut Vec<Write, A>,
    old: &Block,
    probe: &Image,
    new: &Block,
    closing: Closing,
) -> Result<(), OutOfMemory>
    ensures { OnOk result (map write_value writes.new.items ≡ map write_value writes.old.items
        ++ setting_at old.now.slot old.now.image probe.now.0 new.now.image closing) }
{
    if is_bridge(&old.image) {
        let closed = closed_image(&old.image, probe, closing);
        let spans = setting_spans(&closed, &new.image);
        add_changes(writes, old.slot, &closed, &new.image, spans)
    } else {
        add_registers(writes, old, new)
    }
}

/// Sets the address registers that change, the lowest slot first.
fn add_settings<A: Allocator>(
    writes: &mut Vec<Write, A>,
    stages: &Stages,
) -> Result<(), OutOfMemory>
    requires { HasEachStage stages.now }
    ensures { OnOk result ((q : Request) (s : System) (keep : Keeping) → AreStages q s keep stages.now
        → map write_value writes.new.items
        ≡ map write_value writes.old.items ++ flat_map (setting_from q s keep) s) }
{
    for k in 0..stages.start.len() {
        let old = &stages.start[k];
        let probe = &stages.probe[k];
        let new = &stages.settled[k];
        add_setting(writes, old, &probe.image, new, stages.closings[k])?;
    }
    Ok(())
}

/// Opens functions, the lowest slot first.
fn add_openings<A: Allocator>(
    writes: &mut Vec<Write, A>,
    stages: &Stages,
) -> Result<(), OutOfMemory>
    requires { HasEachStage stages.now }
    ensures { OnOk result ((q : Request) (s : System) (keep : Keeping) → AreStages q s keep stages.now
        → map write_value writes.new.items
        ≡ map write_value writes.old.items ++ flat_map (opening_from q s keep) s) }
{
    for k in 0..stages.start.len() {
        let old = &stages.start[k];
        let new = &stages.settled[k];
        let command = new.image.u16(COMMAND);
        add_command(writes, old.slot, stages.closings[k].command, command)?;
    }
    Ok(())
}

/// The writes that lead through the stages.
fn writes_by<A: Allocator>(alloc: A, stages: &Stages) -> Result<Writes<A>, OutOfMemory>
    requires { HasEachStage stages.now }
    ensures writes { IfOk result (λ writes. (q : Request) (s : System) (keep : Keeping) → AreStages q s keep stages.now
        → map write_value writes.all.items ≡ settle_writes q s keep) }
    ensures closings { IfOk result (λ writes. (q : Request) (s : System) (keep : Keeping) → AreStages q s keep stages.now
        → writes.closings ≡ length (closings q s keep s)) }
{
    let mut all = Vec::new(alloc);
    add_closings(&mut all, stages)?;
    let closings = all.len();
    add_settings(&mut all, stages)?;
    add_openings(&mut all, stages)?;
    Ok(Writes { all, closings })
}

/// The writes that lead to the settled dump. First Command is written of functions that are shut in a space or have an I/O BAR
/// that is left, and windows that change and don't stay are closed, the highest slot first. A window that was open and only gets
/// room that is kept free isn't. Then the address registers are set that change, and then functions are opened, both the lowest
/// slot first. None of them would change nothing. `closings` are what closing leaves of each function in slot order, and
/// `settled` has the blocks of the settled dump.
///
/// Errors: 2 `OutOfMemory` where a growth was refused.
pub fn writes_to<A: Allocator + Copy, B: Allocator>(
    alloc: A,
    admitted: &Admitted<B>,
    settled: &[Block],
    closings: &[Closing],
) -> Result<Writes<A>, OutOfMemory>
    // old and new of a function have one index
    requires settled { length settled.now ≡ length admitted.now.dump }
    requires closings { length closings.now ≡ length (system_in admitted.now) }
    ensures writes { IfOk result (λ writes. (q : Request) (keep : Keeping)
        → IsSettledDump q keep admitted.now settled.now
        → AreClosings q (system_in admitted.now) keep closings.now
        → map write_value writes.all.items ≡ settle_writes q (system_in admitted.now) keep) }
    ensures closings { IfOk result (λ writes. (q : Request) (keep : Keeping)
        → IsSettledDump q keep admitted.now settled.now
        → AreClosings q (system_in admitted.now) keep closings.now
        → writes.closings
        ≡ length (spec.closings q (system_in admitted.now) keep (system_in admitted.now))) }
{
    // What the dump was admitted by: the contract speaks of the system that it makes.
    let _outline = admitted.outline();
    let stages = Stages {
        start: admitted.dump().blocks(),
        probe: admitted.probe().blocks(),
        closings,
        settled,
    };
    writes_by(alloc, &stages)
}
