//! The text of a map.
ghost use Rattle.std.specs.Prelude.{◌≡◌, ◌/◌, [], ◌∷◌, IsTrue, IfOk, OnOk};
ghost use Rattle.std.specs.List.{list_any, slice_split};
ghost use Rattle.pci_picture.specs.Columns.{deepest};
ghost use Rattle.pci_picture.specs.Counts.{count_of_regions, is_counted_region};
ghost use Rattle.pci_picture.specs.Depths.{AreChained, KnowsDepths, StandsWithin, reading_of};
ghost use Rattle.pci_picture.specs.Headings.{Headed, depth_behind, headed, headed_behind, heading_told, is_lost, number_of_section, read_on};
ghost use Rattle.pci_picture.specs.Lines.{is_feed, is_one_line, is_told_line};
ghost use Rattle.pci_picture.specs.Maps.{IsReadOf, TakesUp, headed_line, kept_regions, lines_read};

use super::memory::OutOfMemory;
use super::reading::{hex_byte, indent, stripped, word};
use super::region::{Region, region_of};
use std::alloc::Allocator;

/// A line of a section, or one that is out of place or not reached.
#[derive(Clone, Copy)]
pub struct Line<'a> {
    /// The number of its section; none under `outside` and `unreached`.
    pub section: Option<u16>,
    /// The first address of the line of depth 1 that it is, or stands inside.
    pub top: u64,
    pub region: Region<'a>,
}

/// The lines of a map.
#[derive(Drop)]
pub struct Map<'a, A: Allocator> {
    /// Those of all sections, and those under `outside` and `unreached`.
    pub lines: Vec<Line<'a>, A>,
    /// Those under `off` and under no heading of a map.
    pub off: Vec<Region<'a>, A>,
}

/// Under which heading a line stands.
#[derive(Clone, Copy)]
enum Heading {
    /// `bus bb io` or `bus bb mem`, by the number of the section.
    Section(u16),
    /// `outside` or `unreached`.
    Lost,
    /// `off`, or none of these.
    Off,
}

/// The number of the section of a root bus and a space. The I/O space of a bus stands before its memory space.
pub fn section_number(bus: u8, is_io: bool) -> u16
    ensures { result ≡ number_of_section bus is_io }
{
    if is_io {
        2 * u16::from(bus)
    } else {
        2 * u16::from(bus) + 1
    }
}

/// Which heading a line is.
#[tactic(auto, unfolding(crate::specs::Headings::heading_told))]
fn heading_of(line: &[u8]) -> Heading
    ensures { result ≡ heading_told line.now }
{
    let name = word(line, 0);
    if name == b"bus".as_slice() {
        match hex_byte(word(line, 1)) {
            Some(bus) => {
                let is_io = word(line, 2) == b"io".as_slice();
                Heading::Section(section_number(bus, is_io))
            }
            None => Heading::Off,
        }
    } else if name == b"outside".as_slice() || name == b"unreached".as_slice() {
        Heading::Lost
    } else {
        Heading::Off
    }
}

/// Whether a line is of a section, and of a function.
fn is_counted(line: &Line<'_>) -> bool
    ensures { result ≡ is_counted_region (headed_line line.entry.now) }
{
    line.section.is_some() && line.region.key != 0
}

/// A map whose first lines were read.
#[derive(Drop)]
struct Reader<'a, A: Allocator> {
    map: Map<'a, A>,
    /// The heading of the next line.
    heading: Heading,
    /// Whether it stands below a line `unclaimed S`.
    is_taken: bool,
    /// How deep the line before it stands, and the first address of the last line of depth 1.
    level: usize,
    top: u64,
}

impl<'a, A: Allocator + Copy> Reader<'a, A> {
    /// Adds a region below the heading.
    fn put(&mut self, region: Region<'a>) -> Result<(), OutOfMemory>
        ensures taken { OnOk result (TakesUp (headed self.old.heading region.entry.depth self.old.top region.entry.line.now ∷ []) self.old.map self.new.map) }
        ensures chained { OnOk result (AreChained self.old.map.lines.items → StandsWithin self.old region.entry → KnowsDepths self.new) }
        ensures same { reading_of self.new ≡ reading_of self.old }
    {
        match self.heading {
            Heading::Section(number) => {
                let section = Some(number);
                let top = self.top;
                self.map.lines.push(Line {
                    section,
                    top,
                    region,
                })?;
            }
            Heading::Lost => {
                let section = None;
                let top = self.top;
                self.map.lines.push(Line {
                    section,
                    top,
                    region,
                })?;
            }
            Heading::Off => self.map.off.push(region)?,
        }
        Ok(())
    }

    /// How deep the next line stands, which begins with two blanks for each of these steps. What a bridge takes stands
    /// where regions of its root bus do. A line of a section is at most one step deeper than the one before, and no other
    /// line stands inside another one.
    #[tactic(auto, unfolding(crate::specs::Headings::depth_behind))]
    fn depth(&self, steps: usize) -> usize
        ensures { result ≡ depth_behind (reading_of self.now) steps }
    {
        if !matches!(self.heading, Heading::Section(_)) {
            return 1;
        }
        let steps = if self.is_taken {
            steps.saturating_sub(1).max(1)
        } else {
            steps
        };
        steps.min(self.level.saturating_add(1))
    }

    /// Reads a line.
    #[tactic(auto, unfolding(crate::specs::Headings::read_on))]
    fn take(&mut self, line: &'a [u8]) -> Result<(), OutOfMemory>
        requires { IsTrue (is_one_line line.now) }
        ensures taken { OnOk result (TakesUp (headed_behind (reading_of self.old) line.entry.now) self.old.map self.new.map) }
        ensures read { OnOk result (reading_of self.new ≡ read_on (reading_of self.old) line.entry.now) }
        ensures chained { OnOk result (KnowsDepths self.old → KnowsDepths self.new) }
    {
        let blanks = indent(line);
        if blanks < 2 {
            self.heading = heading_of(line);
            self.is_taken = false;
            self.level = 0;
            return Ok(());
        }
        let depth = self.depth(blanks / 2);
        match region_of(stripped(line), depth) {
            Some(region) => {
                self.top = if depth == 1 { region.first } else { self.top };
                self.level = depth;
                self.put(region)
            }
            None => {
                self.is_taken = word(line, 0) == b"unclaimed".as_slice();
                self.level = 0;
                Ok(())
            }
        }
    }
}

impl<'a, A: Allocator + Copy> Map<'a, A> {
    /// Reads the lines of a map.
    pub fn read(alloc: A, text: &'a str) -> Result<Map<'a, A>, OutOfMemory>
        ensures read { IfOk result (λ read. IsReadOf (slice_split is_feed text.entry.now) read) }
        ensures chained { IfOk result (λ read. AreChained read.lines.items) }
    {
        let mut reader = Reader {
            map: Map {
                lines: Vec::new(alloc),
                off: Vec::new(alloc),
            },
            heading: Heading::Off,
            is_taken: false,
            level: 0,
            top: 0,
        };
        for line in text.split('\n') {
            reader.take(line.as_bytes())?;
        }
        Ok(reader.map)
    }

    /// How deep the deepest line of a section stands.
    pub fn depth(&self) -> usize
        ensures { result ≡ deepest (kept_regions self.entry.now) }
    {
        let mut depth = 1;
        for line in &self.lines {
            if line.section.is_some() {
                depth = line.region.depth.max(depth);
            }
        }
        depth
    }

    /// How many regions of functions the sections have.
    pub fn region_count(&self) -> usize
        ensures { result ≡ count_of_regions (kept_regions self.entry.now) }
    {
        let mut count = 0;
        for line in &self.lines {
            if is_counted(line) {
                count += 1;
            }
        }
        count
    }

    /// Whether a line is of a told range.
    pub fn has_told(&self) -> bool
        ensures { result ≡ list_any is_told_line (lines_read self.entry.now) }
    {
        self.lines.iter().any(|line| line.region.is_told_range())
            || self.off.iter().any(|region| region.is_told_range())
    }

    /// Whether a line is out of place or not reached.
    pub fn has_lost(&self) -> bool
        ensures { result ≡ list_any (λ (region : Headed). is_lost region.heading) (kept_regions self.entry.now) }
    {
        self.lines.iter().any(|line| line.section.is_none())
    }
}
