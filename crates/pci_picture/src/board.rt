//! A board, read from the texts of three commands.
ghost use Rattle.std.specs.Prelude.{◌≡◌, ◌≤◌, [], ◌∷◌, ◌++◌, Some, None, drop, length, unwrap_or, slice_index_or, IfOk, IfSome, OnOk};
ghost use Rattle.std.specs.List.{Contains, slice_split};
ghost use Rattle.std.specs.Option.{option_map};
ghost use Rattle.pci_picture.specs.Badges.{AreBadgesOf};
ghost use Rattle.pci_picture.specs.Boxes.{titled_line};
ghost use Rattle.pci_picture.specs.Depths.{AreChained};
ghost use Rattle.pci_picture.specs.Lines.{is_feed, words_in_line};
ghost use Rattle.pci_picture.specs.Named.{AreFunctionsTitled, AreNamedIn, function_listed, name_of_function};
ghost use Rattle.pci_picture.specs.Maps.{IsReadOf};
ghost use Rattle.pci_picture.specs.RegionWords.{called_by, words_called};
ghost use Rattle.pci_picture.specs.Roots.{AreBusesAbove, AreRoots, go_up, listed_function, listed_functions};
ghost use Rattle.pci_picture.specs.Said.{AreFaultsOf, AreSaidOf, faults_said, lines_of_fault, said_by, said_lines};
ghost use Rattle.pci_picture.specs.FaultLines.{faults_read};
ghost use Rattle.pci_picture.specs.Starts.{StandOnBus, AreStarts, FunctionsRise};
ghost use Rattle.pci_picture.specs.Titles.{buses_if_listed, function_of_region, name_if_listed, said_below, said_of_window};

use super::faults::{Fault, Faults};
use super::function::{Buses, Function, Span};
use super::listing::{give_titles, read_functions};
use super::map::Map;
use super::memory::OutOfMemory;
use super::reading::{bus_of, slot_of};
use super::region::{Part, Region};
use super::words::Words;
use std::alloc::Allocator;

/// What three commands print of a board, and its titles.
#[derive(Clone, Copy)]
pub struct Texts<'a> {
    /// What `show` prints.
    pub show: &'a str,
    /// What `map` prints.
    pub map: &'a str,
    /// What `faults --why` prints.
    pub faults: &'a str,
    /// The slot lines of the dump that have a title. Other lines are ignored.
    pub titles: &'a [u8],
}

/// A board.
#[derive(Drop)]
pub struct Board<'a, A: Allocator> {
    pub functions: Vec<Function<'a>, A>,
    /// For each bus how many functions stand on lower buses; the last number counts all functions.
    starts: [usize; 257],
    /// The names of all functions, one behind the other.
    names: Words<A>,
    pub map: Map<'a, A>,
    pub faults: Faults<'a, A>,
    ghost sorted: { FunctionsRise functions.items },
    ghost begins: { AreStarts functions.items starts },
    // each function has its name among them
    ghost named: { AreNamedIn names.bytes.items functions.items },
}

/// For each bus how many functions stand on lower buses. The last number counts all functions.
fn starts_of(functions: &[Function<'_>]) -> [usize; 257]
    ensures { AreStarts functions.now result }
{
    let mut starts = [0usize; 257];
    for function in functions {
        let behind = bus_of(function.number) as usize + 1;
        starts[behind] = starts[behind].saturating_add(1);
    }
    for bus in 1..257usize {
        starts[bus] = starts[bus].saturating_add(starts[bus - 1]);
    }
    starts
}

/// The names of functions one behind the other. Each function gets the place of its own name.
fn names_of<A: Allocator + Copy>(
    alloc: A,
    functions: &mut [Function<'_>],
) -> Result<Words<A>, OutOfMemory>
    ensures same { listed_functions functions.new ≡ listed_functions functions.old }
    ensures named { IfOk result (λ names. AreNamedIn names.bytes.items functions.new) }
{
    let mut names = Words::new(alloc);
    for index in 0..functions.len() {
        let begin = names.bytes.len();
        names.put_name(&functions[index])?;
        functions[index].name = Span {
            begin,
            end: names.bytes.len(),
        };
    }
    Ok(names)
}

/// For each bus the one above it: that of the first bridge listed whose secondary bus it is. Bus 0 has none.
pub fn buses_above(functions: &[Function<'_>]) -> [Option<u8>; 256]
    ensures { AreBusesAbove (listed_functions functions.entry.now) result }
{
    let mut above = [None; 256];
    for function in functions {
        if let Some(buses) = function.buses {
            let bus = buses.secondary as usize;
            above[bus] = earlier(above[bus], bus_of(function.number));
        }
    }
    above[0] = None;
    above
}

/// The bus of an earlier bridge, where there is one, else that of this one.
fn earlier(bus: Option<u8>, other: u8) -> Option<u8>
    ensures { result ≡ Some (unwrap_or bus other) }
{
    match bus {
        Some(bus) => Some(bus),
        None => Some(other),
    }
}

/// The root bus from which a bus is reached, of the bus above each bus.
fn root_from(above: &[Option<u8>; 256], bus: u8) -> u8
    ensures { result ≡ go_up (λ bus. slice_index_or above.now bus None) 256 bus }
{
    let mut root = bus;
    for _ in 0..256usize {
        match above[root as usize] {
            Some(bus) => root = bus,
            None => break,
        }
    }
    root
}

/// The function of a slot's number, of functions by rising slot.
fn find<'f, 'a>(functions: &'f [Function<'a>], number: u32) -> Option<&'f Function<'a>>
    ensures at { FunctionsRise functions.now → option_map (λ function. listed_function function.now) result
        ≡ function_listed (listed_functions functions.now) number }
    ensures own { IfSome result (λ function. Contains functions.now function.now) }
{
    let index = functions.partition_point(|function| function.number < number);
    match functions.get(index) {
        Some(function) if function.number == number => Some(function),
        _ => None,
    }
}

impl<'a, A: Allocator + Copy> Board<'a, A> {
    /// Reads the board from the texts.
    pub fn read(alloc: A, texts: &Texts<'a>) -> Result<Board<'a, A>, OutOfMemory>
        ensures map { IfOk result (λ board. IsReadOf (slice_split is_feed texts.entry.now.map.now) board.map) }
        ensures chained { IfOk result (λ board. AreChained board.map.lines.items) }
        ensures faults { IfOk result (λ board. AreFaultsOf texts.entry.now.faults.now board.faults) }
        ensures said { IfOk result (λ board. AreSaidOf texts.entry.now.faults.now board.faults) }
        ensures badges { IfOk result (λ board. AreBadgesOf texts.entry.now.faults.now board.faults) }
        ensures lines { IfOk result (λ board. faults_read board.faults ≡ faults_said texts.entry.now.faults.now) }
        ensures show { IfOk result (λ board. AreFunctionsTitled texts.entry.now.show.now texts.entry.now.titles.now
            (listed_functions board.functions.items)) }
    {
        let mut functions = read_functions(alloc, texts.show)?;
        give_titles(&mut functions, texts.titles);
        let starts = starts_of(&functions);
        let names = names_of(alloc, &mut functions)?;
        let map = Map::read(alloc, texts.map)?;
        let faults = Faults::read(alloc, texts.faults)?;
        Ok(Board {
            functions,
            starts,
            names,
            map,
            faults,
        })
    }

    /// The index of the first function on a bus, and the one behind its last.
    pub fn on_bus(&self, bus: u8) -> (usize, usize)
        ensures { StandOnBus self.now.functions.items bus result.0 result.1 }
    {
        let index = bus as usize;
        (self.starts[index], self.starts[index + 1])
    }

    /// The function of a region.
    pub fn function(&self, region: &Region<'_>) -> Option<&Function<'a>>
        ensures at { option_map (λ function. listed_function function.now) result
            ≡ function_of_region (listed_functions self.now.functions.items) (words_in_line region.now.line.now) }
        ensures own { IfSome result (λ function. Contains self.now.functions.items function.now) }
    {
        if region.part == Part::Free {
            return None;
        }
        let slot = slot_of(region.key);
        let (begin, end) = self.on_bus(bus_of(slot));
        find(self.functions.as_slice().get(begin..end)?, slot)
    }

    /// The name of a function: its title, else what its class is and its two identifiers.
    pub fn name(&self, function: &Function<'_>) -> &[u8]
        ensures { Contains self.now.functions.items function.now → result.now ≡ name_of_function (listed_function function.now) }
    {
        let names = self.names.bytes.as_slice();
        let name = function.name;
        names.get(name.begin..name.end).unwrap_or(&[])
    }

    /// The name of a region's function, or nothing where it isn't listed.
    fn function_name(&self, region: &Region<'_>) -> &[u8]
        ensures { result.now ≡ name_if_listed (function_of_region (listed_functions self.now.functions.items)
            (words_in_line region.now.line.now)) }
    {
        match self.function(region) {
            Some(function) => self.name(function),
            None => &[],
        }
    }

    /// The buses behind a window.
    pub fn buses(&self, region: &Region<'_>) -> Option<Buses>
        ensures { result ≡ buses_if_listed (function_of_region (listed_functions self.now.functions.items)
            (words_in_line region.now.line.now)) }
    {
        match self.function(region) {
            Some(function) => function.buses,
            None => None,
        }
    }

    /// What a region is called: the name that is told of it, else that of its function.
    #[tactic(auto, unfolding(crate::specs::RegionWords::called_by))]
    fn called<'b>(&'b self, region: &Region<'b>) -> &'b [u8]
        ensures { result.now ≡ called_by (listed_functions self.now.functions.items) (words_in_line region.now.line.now) }
    {
        if region.name.is_empty() {
            self.function_name(region)
        } else {
            region.name
        }
    }

    /// Appends a comma and what a region is called.
    pub fn put_called(&self, words: &mut Words<A>, region: &Region<'_>) -> Result<(), OutOfMemory>
        ensures { OnOk result (words.new.bytes.items ≡ words.old.bytes.items
            ++ words_called (listed_functions self.now.functions.items) (words_in_line region.now.line.now)) }
    {
        let called = self.called(region);
        // somebody may hold a range of a function that isn't listed
        if region.part == Part::Held && called.is_empty() {
            return Ok(());
        }
        words.put(b", ")?;
        words.put(called)
    }

    /// Appends the lines of a fault, with a line feed between two.
    fn put_fault(&self, words: &mut Words<A>, fault: &Fault) -> Result<(), OutOfMemory>
        ensures { OnOk result (fault.now.end ≤ length self.now.faults.lines.items
            → words.new.bytes.items ≡ words.old.bytes.items
            ++ drop 1 (said_lines (lines_of_fault self.now.faults (Some fault.now)))) }
    {
        for index in fault.begin..fault.end {
            if index != fault.begin {
                words.put(b"\n")?;
            }
            words.put(self.faults.line(index))?;
        }
        Ok(())
    }

    /// The title of a box that is about a fault: the lines of the fault, the first of which begins with its number.
    pub fn fault_title(&self, alloc: A, fault: &Fault) -> Result<Words<A>, OutOfMemory>
        ensures { IfOk result (λ title. titled_line title.bytes.items ≡ []) }
    {
        let mut lines = Words::new(alloc);
        self.put_fault(&mut lines, fault)?;
        let tens = b'0' + fault.number / 10 % 10;
        let ones = b'0' + fault.number % 10;
        let mut title = Words::of(alloc, &[tens, ones, b' '])?;
        title.put(lines.bytes.as_slice().get(3..).unwrap_or(&[]))?;
        Ok(title)
    }

    /// Appends the buses behind a window, and the lines of a region's faults.
    fn put_about(&self, words: &mut Words<A>, region: &Region<'_>) -> Result<(), OutOfMemory>
        ensures { OnOk result (words.new.bytes.items ≡ words.old.bytes.items
            ++ (said_of_window (words_in_line region.now.line.now)
            (buses_if_listed (function_of_region (listed_functions self.now.functions.items) (words_in_line region.now.line.now)))
            ++ said_by self.now.faults region.now.key)) }
    {
        if region.part == Part::Window {
            words.put(b"\nto ")?;
            words.put_buses(self.buses(region))?;
        }
        for naming in self.faults.of(region.key) {
            if let Some(fault) = self.faults.faults.get(naming.fault) {
                words.put(b"\n")?;
                self.put_fault(words, fault)?;
            }
        }
        Ok(())
    }

    /// The title of a region's box: its line of the map, and below it what is known of the region.
    pub fn title(&self, alloc: A, region: &Region<'_>) -> Result<Words<A>, OutOfMemory>
        ensures line { IfOk result (λ title. titled_line title.bytes.items ≡ region.entry.now.line.now ∷ []) }
        ensures said { IfOk result (λ title. title.bytes.items ≡ region.entry.now.line.now
            ++ said_below (listed_functions self.entry.now.functions.items) (said_by self.entry.now.faults)
            (words_in_line region.entry.now.line.now)) }
    {
        let mut title = Words::of(alloc, region.line)?;
        if region.part == Part::Free {
            return Ok(title);
        }
        let mut about = Words::new(alloc);
        self.put_about(&mut about, region)?;
        title.put(b"\n")?;
        title.put(self.function_name(region))?;
        title.put(about.bytes.as_slice())?;
        Ok(title)
    }

    /// For each bus the root bus from which it is reached.
    pub fn roots(&self) -> [u8; 256]
        ensures { AreRoots (listed_functions self.entry.now.functions.items) result }
    {
        let above = buses_above(self.functions.as_slice());
        let mut roots = [0u8; 256];
        for bus in 0..256u16 {
            roots[bus as usize] = root_from(&above, bus as u8);
        }
        roots
    }
}
