//! Sizes of BARs that the kernel's log tells.
ghost use Rattle.std.specs.Prelude.{◌≡◌, ◌∷◌, ℕ, List, OnOk, IfOk};
ghost use Rattle.pci_here.specs.HostRanges.{file_lines};
ghost use Rattle.pci_here.specs.Log.{Registers, IsLogOf, chosen, completed, log_of, no_register_told, size_line, registers_told, with_line, with_told};
ghost use Rattle.pci_here.specs.LogLine.{AreLogLines, HasTold};
ghost use Rattle.pci_here.specs.Place.{FunctionPlace as PlaceValue};

use crate::log_line::{LogLine, Told, log_line_of};
use crate::part::first_part;
use crate::place::Place;
use pci_base::memory::OutOfMemory;
use pci_machine::resource_line::ResourceLine;
use std::alloc::Global;
use std::collections::BTreeMap;

/// How many registers of a function a file `resource` tells of: six BARs and the ROM.
const REGISTERS: usize = 7;

/// The largest size is 2^63.
const SIZE_MAX: u32 = 63;

/// A line of zeros, which tells nothing.
const ZEROS: ResourceLine = ResourceLine {
    first: 0,
    last: 0,
    flags: 0,
};

/// What is told of a function's registers, as lines of the file `resource`; nothing is ever told of the ROM.
pub type Registers = [ResourceLine; REGISTERS];

/// Nothing is told of any register.
pub const NOTHING: Registers = [ZEROS; REGISTERS];

/// What a log tells of each function, by the number of its place.
#[derive(Drop)]
pub struct Log {
    told: BTreeMap<u64, Registers>,
}

/// Adds what a line tells.
fn add_line(told: &mut Vec<LogLine>, line: &str) -> Result<(), OutOfMemory>
    ensures { OnOk result ((lines rest : List (List ℕ))
        → HasTold lines (line.now ∷ rest) told.old.items → HasTold lines rest told.new.items) }
{
    match log_line_of(line) {
        Some(found) => {
            told.push(found)?;
            Ok(())
        }
        None => Ok(()),
    }
}

/// What the lines of a text tell, in their order.
fn lines_told(alloc: Global, text: &str) -> Result<Vec<LogLine>, OutOfMemory>
    ensures { IfOk result (λ told. AreLogLines (file_lines text.now) told.items) }
{
    let mut told = Vec::new(alloc);
    let mut left = Some(text);
    'lines: while let Some(lines) = left {
        let (line, more) = first_part(lines, '\n');
        add_line(&mut told, line)?;
        left = more;
    }
    Ok(told)
}

/// The line of a file `resource` for a size, from address 0 on; zeros for a size that is no power of two, or above 2^63.
fn size_line(size: u64, flags: u64) -> ResourceLine
    ensures { result ≡ size_line size flags }
{
    if size == 0 {
        return ZEROS;
    }
    let line = ResourceLine {
        first: 0,
        last: size - 1,
        flags,
    };
    match line.size(SIZE_MAX) {
        Some(_) => line,
        None => ZEROS,
    }
}

/// What is told of a function, where a line more tells of it.
#[tactic(auto, using(crate::proofs::Logs::nothing_set))]
fn with_told(before: Registers, told: Told) -> Registers
    ensures { result ≡ with_told before told }
{
    let mut registers = before;
    match told {
        Told::Device => NOTHING,
        Told::Size(size) => {
            if size.bar < REGISTERS {
                registers[size.bar] = size_line(size.told.size, size.told.flags);
            }
            registers
        }
    }
}

impl Log {
    /// A log that tells nothing.
    pub fn none(alloc: Global) -> Log
        ensures { (p : PlaceValue) → log_of result p ≡ no_register_told }
    {
        Log {
            told: BTreeMap::new(alloc),
        }
    }

    /// What is told of the registers of the function at a place.
    pub fn registers(&self, place: Place) -> Registers
        ensures { result ≡ log_of self.now place }
    {
        match self.told.get(&place.number()) {
            Some(registers) => *registers,
            None => NOTHING,
        }
    }

    /// Takes what a line tells behind all that was taken.
    fn take(&mut self, line: &LogLine) -> Result<(), OutOfMemory>
        ensures { OnOk result ((p : PlaceValue) → log_of self.new p ≡ with_line p (log_of self.old p) line.now) }
    {
        let registers = with_told(self.registers(line.place), line.told);
        self.told.insert(line.place.number(), registers)?;
        Ok(())
    }

    /// What some lines tell, one behind the other.
    fn of_lines(alloc: Global, lines: &[LogLine]) -> Result<Log, OutOfMemory>
        ensures { IfOk result (λ log. (p : PlaceValue) → log_of log p ≡ registers_told lines.now p) }
    {
        let mut log = Log::none(alloc);
        for line in lines {
            log.take(line)?;
        }
        Ok(log)
    }

    /// What a text tells, as the kernel's log: of each BAR the last line that names its size, behind the last that names
    /// the device found in its slot.
    ///
    /// Errors: 2 `OutOfMemory` where a growth was refused.
    pub fn of(alloc: Global, text: &str) -> Result<Log, OutOfMemory>
        ensures { IfOk result (λ log. IsLogOf text.now (log_of log)) }
    {
        let told = lines_told(alloc, text)?;
        Log::of_lines(alloc, told.as_slice())
    }
}

/// The log's line in the place of a line of zeros.
fn chosen(line: ResourceLine, told: ResourceLine) -> ResourceLine
    ensures { result ≡ chosen line told }
{
    if line.first == 0 && line.last == 0 && line.flags == 0 {
        told
    } else {
        line
    }
}

/// The lines of a function's registers, with what the log tells of those that have zeros.
pub fn completed(lines: [ResourceLine; REGISTERS], told: Registers) -> [ResourceLine; REGISTERS]
    ensures { result ≡ completed lines told }
{
    [
        chosen(lines[0], told[0]),
        chosen(lines[1], told[1]),
        chosen(lines[2], told[2]),
        chosen(lines[3], told[3]),
        chosen(lines[4], told[4]),
        chosen(lines[5], told[5]),
        chosen(lines[6], told[6]),
    ]
}
