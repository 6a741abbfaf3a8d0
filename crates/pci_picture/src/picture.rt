//! The picture of a board.
ghost use Rattle.std.specs.Prelude.{◌≡◌, ◌<◌, ◌≤◌, ◌+◌, ◌++◌, ◌-◌, ◌^◌, List, ℕ, [], codes, min, length, IfOk, OnOk, max};
ghost use Rattle.std.specs.List.{All};
ghost use Rattle.std.specs.String.{string_bytes};
ghost use Rattle.pci_picture.specs.BoardLooks.{look_read};
ghost use Rattle.pci_picture.specs.Canvases.{AddsBoxOf, AddsSome, AddsToCanvas, DrawsBytes, WritesBytes};
ghost use Rattle.pci_picture.specs.Columns.{HasColumnsOf};
ghost use Rattle.pci_picture.specs.Counts.{count_of_faults, count_of_regions, counts_text, words_of_counts};
ghost use Rattle.pci_picture.specs.Depths.{AreChained};
ghost use Rattle.pci_picture.specs.Drawings.{AreOffBoxes, AreOfSections, IsRunOfSection};
ghost use Rattle.pci_picture.specs.ByRoots.{IsDrawnByRootsOfShow};
ghost use Rattle.pci_picture.specs.Lines.{words_in_line};
ghost use Rattle.pci_picture.specs.Maps.{AreMembersOf, kept_regions};
ghost use Rattle.pci_picture.specs.Members.{AreIndentedBySection, AreSortedBySection};
ghost use Rattle.pci_picture.specs.OffRows.{top_of_off};
ghost use Rattle.pci_picture.specs.RegionWords.{words_if_off};
ghost use Rattle.pci_picture.specs.Roots.{IsLostByRoot, listed_functions};
ghost use Rattle.pci_picture.specs.Sides.{HasSides};
ghost use Rattle.pci_picture.specs.Spots.{spot_at};
ghost use Rattle.pci_picture.specs.Trees.{down};
ghost use Rattle.pci_picture.specs.Whole.{IsPictureText};

use super::board::{Board, Texts};
use super::canvas::{Canvas, Label, Shape};
use super::elements::Frame;
use super::fault_list::write_faults;
use super::heights::LINE;
use super::legend::draw_legend;
use super::map::{Map, section_number};
use super::memory::OutOfMemory;
use super::plan::{AXIS, LOST, Member, Site};
use super::reading::{bus_of, slot_of, word};
use super::region::Region;
use super::section::draw_section;
use super::tree::{LEFT, TREE, draw_tree};
use super::words::Words;
use std::alloc::Allocator;

/// The width of the text of a window, at most.
const COLUMN: u64 = 126;

/// The width of the innermost lines.
const LEAF: u64 = 330;

/// The margin at the right and at the bottom.
const MARGIN: u64 = 16;

/// How many functions, regions and faults a board has, in words.
fn counts_of<A: Allocator + Copy>(alloc: A, board: &Board<'_, A>) -> Result<Words<A>, OutOfMemory>
    ensures { IfOk result (λ words. words.bytes.items ≡ words_of_counts (length board.entry.now.functions.items)
        (count_of_regions (kept_regions board.entry.now.map)) (length board.entry.now.faults.faults.items)) }
{
    let faults = board.faults.faults.len();
    let mut words = Words::new(alloc);
    words.put_number(alloc, board.functions.len())?;
    words.put(b" functions, ")?;
    words.put_number(alloc, board.map.region_count())?;
    words.put(b" regions; ")?;
    put_faults(alloc, &mut words, faults)?;
    words.put(b". Heights grow with the logarithm of sizes.")?;
    Ok(words)
}

/// Appends a number of faults in words.
fn put_faults<A: Allocator + Copy>(
    alloc: A,
    words: &mut Words<A>,
    faults: usize,
) -> Result<(), OutOfMemory>
    ensures { OnOk result (words.new.bytes.items ≡ words.old.bytes.items ++ count_of_faults faults) }
{
    if faults == 0 {
        return words.put(b"no fault");
    }
    if faults == 1 {
        return words.put(b"1 fault");
    }
    words.put_number(alloc, faults)?;
    words.put(b" faults")
}

/// Writes the title and how many functions, regions and faults there are.
fn write_counts<A: Allocator + Copy>(
    alloc: A,
    canvas: &mut Canvas<A>,
    board: &Board<'_, A>,
) -> Result<(), OutOfMemory>
    ensures adds { OnOk result (AddsToCanvas [] canvas.old canvas.new) }
    ensures draws { OnOk result (DrawsBytes (counts_text (length board.entry.now.functions.items)
        (count_of_regions (kept_regions board.entry.now.map)) (length board.entry.now.faults.faults.items)) canvas.old canvas.new) }
    ensures writes { OnOk result (string_bytes canvas.new.words ≡ string_bytes canvas.old.words) }
{
    let title = Label {
        x: LEFT,
        y: 26,
        class: b"title",
    };
    canvas.add_heading(title, b"pciplan")?;
    let words = counts_of(alloc, board)?;
    let label = Label {
        x: LEFT,
        y: 46,
        class: b"",
    };
    canvas.add_heading(label, words.bytes.as_slice())
}

/// The regions of all sections, by section. One that is out of place or not reached is drawn in the section of its
/// root bus.
fn members<'a, A: Allocator + Copy>(
    alloc: A,
    board: &Board<'a, A>,
) -> Result<Vec<Member<'a>, A>, OutOfMemory>
    requires { AreChained board.now.map.lines.items }
    ensures moved { IfOk result (λ members. AreMembersOf board.entry.now.map.lines.items members.items) }
    ensures indented { IfOk result (λ members. AreIndentedBySection members.items) }
    ensures sorted { IfOk result (λ members. AreSortedBySection board.entry.now.map.lines.items members.items) }
    ensures by_root { IfOk result (λ members. All (IsLostByRoot (listed_functions board.entry.now.functions.items)) members.items) }
{
    let roots = board.roots();
    let mut members = Vec::new(alloc);
    for line in &board.map.lines {
        let region = line.region;
        let root = roots[bus_of(slot_of(region.key)) as usize];
        let section = line
            .section
            .unwrap_or(section_number(root, region.digits == 8));
        members.push(Member {
            section,
            is_lost: line.section.is_none(),
            top: line.top,
            region,
        })?;
    }
    members.sort_by_key(|member| (member.section, member.is_lost, member.rank()))?;
    Ok(members)
}

/// The index behind the members that are drawn in the section of the one at an index.
fn section_end(members: &[Member<'_>], begin: usize) -> usize
    requires { begin < length members.now }
    ensures some { begin < result }
    ensures within { result ≤ length members.now }
    ensures alike { IsRunOfSection members.now begin result }
{
    let section = members[begin].section;
    for index in begin + 1..members.len() {
        if members[index].section != section {
            return index;
        }
    }
    members.len()
}

/// Draws the sections. Its answer is where the last one ends.
fn draw_sections<A: Allocator + Copy>(
    alloc: A,
    canvas: &mut Canvas<A>,
    board: &Board<'_, A>,
    first: &Site,
) -> Result<u64, OutOfMemory>
    requires { AreChained board.now.map.lines.items }
    ensures drawn { IfOk result (λ end. AddsSome (AreOfSections (look_read board.entry.now) first.now
        (listed_functions board.entry.now.functions.items) board.entry.now.map.lines.items end) canvas.old canvas.new) }
    ensures down { IfOk result (λ end. first.now.y ≤ end) }
{
    let sorted = members(alloc, board)?;
    let members = sorted.as_slice();
    let mut y = first.y;
    let mut begin = 0;
    while begin < members.len() {
        let end = section_end(members, begin);
        let site = Site {
            section: members[begin].section,
            y,
            ..*first
        };
        y = draw_section(alloc, canvas, board, &site, &members[begin..end])?;
        begin = end;
    }
    Ok(y)
}

/// Draws the list of what is off. Its answer is where it ends.
fn draw_off<A: Allocator + Copy>(
    alloc: A,
    canvas: &mut Canvas<A>,
    board: &Board<'_, A>,
    site: &Site,
) -> Result<u64, OutOfMemory>
    ensures drawn { IfOk result (λ end. AddsSome (AreOffBoxes (look_read board.entry.now) (down site.now.x 132) site.now.width
        (top_of_off site.now.y board.entry.now.map.off.items) board.entry.now.map.off.items end) canvas.old canvas.new) }
    ensures down { IfOk result (λ end. site.now.y ≤ end) }
{
    let mut y = site.y;
    let off = board.map.off.as_slice();
    if off.is_empty() {
        return Ok(y);
    }
    let heading = Label {
        x: site.x,
        y: y.saturating_add(13),
        class: b"head",
    };
    canvas.add_heading(heading, b"off")?;
    y = y.saturating_add(22);
    for region in off {
        draw_off_row(alloc, canvas, board, region, &Site { y, ..*site })?;
        y = y.saturating_add(LINE);
    }
    Ok(y)
}

/// The words beside the box of a region that is off: what names it, its size, its range, and what it is called.
fn off_words<A: Allocator + Copy>(
    alloc: A,
    board: &Board<'_, A>,
    region: &Region<'_>,
) -> Result<Words<A>, OutOfMemory>
    ensures { IfOk result (λ words. words.bytes.items
        ≡ words_if_off (listed_functions board.entry.now.functions.items) (words_in_line region.entry.now.line.now)) }
{
    let mut words = Words::new(alloc);
    words.put_region(region)?;
    words.put_all(&[b", ".as_slice(), word(region.line, 0)])?;
    board.put_called(&mut words, region)?;
    Ok(words)
}

/// Draws a region that is off.
fn draw_off_row<A: Allocator + Copy>(
    alloc: A,
    canvas: &mut Canvas<A>,
    board: &Board<'_, A>,
    region: &Region<'_>,
    site: &Site,
) -> Result<(), OutOfMemory>
    ensures adds { OnOk result (AddsBoxOf (codes "off") ((look_read board.entry.now).said region.entry.now.line.now)
        region.entry.now.line.now (min (site.now.x + 132) (2 ^ 64 - 1)) site.now.y site.now.width 13 canvas.old canvas.new) }
    ensures words { OnOk result ((title : List ℕ) → WritesBytes ((look_read board.entry.now).off_words (spot_at (min (site.now.x + 132) (2 ^ 64 - 1))
        site.now.y site.now.width 13 (codes "off") title region.entry.now.line.now)) canvas.old canvas.new) }
{
    let x = site.x.saturating_add(AXIS);
    let at = Frame {
        x,
        y: site.y,
        width: site.width,
        height: LINE - 1,
    };
    let title = board.title(alloc, region)?;
    let lines = title.bytes.as_slice();
    let shape = Shape {
        at,
        class: b"off",
        anchor: b"",
    };
    canvas.add_box(shape, lines)?;
    let mut words = off_words(alloc, board, region)?;
    let label = Label {
        x: x.saturating_add(5),
        y: site.y.saturating_add(11),
        class: b"quiet",
    };
    canvas.add_cut(label, &mut words, site.width)
}

/// The height of a picture, of where its sections and lists end and where its tree ends.
fn bottom_of(end: u64, tree_end: u64) -> u64
    ensures least { end ≤ result }
    ensures exact { result ≡ down (max end tree_end) 16 }
{
    end.max(tree_end).saturating_add(MARGIN)
}

/// Where the first section stands: behind the tree, from a height on. Where many levels stand inside each other, the text of
/// each has less width.
fn first_site<A: Allocator + Copy>(map: &Map<'_, A>, y: u64) -> Site
    ensures room { HasSides result }
    ensures columns { HasColumnsOf (kept_regions map.entry.now) result }
    ensures y { result.y ≡ y }
{
    let behind = (map.depth() as u64).saturating_sub(1);
    let column = if behind == 0 {
        COLUMN
    } else {
        COLUMN.min(10 * COLUMN / behind)
    };
    let lost = if map.has_lost() { LOST } else { 0 };
    Site {
        section: 0,
        x: LEFT + TREE + 20,
        y,
        width: column.saturating_mul(behind).saturating_add(LEAF + lost),
        column,
    }
}

/// The picture of a board as SVG, of the texts that `show`, `map` and `faults --why` print of it. Lines that
/// none of these commands prints are left out.
pub fn picture_of<A: Allocator + Copy>(
    alloc: A,
    texts: &Texts<'_>,
) -> Result<String<A>, OutOfMemory>
    // no byte of a title or of another text becomes markup
    ensures closed { IfOk result (λ text. IsPictureText (string_bytes text)) }
    // each line of the map that is a region is the first line of the title of exactly one box. A section has the regions
    // below its headings, and in it the boxes stand at the heights of their addresses. A box is marked where a fault names its
    // region. Its title is the line, what its function is called, the buses behind a window, and all such faults. A region out of
    // place is drawn in the section of the root from which its bus is reached, by the functions that `show` lists, and of its space.
    // Its boxes begin with the title, with how many functions, regions and faults there are, and with the legend.
    // Its words are those of the legend, the lines of the faults, up to 40, below them the tree of the functions, and then those of
    // the boxes, in their order
    ensures drawn { IfOk result (λ text. IsDrawnByRootsOfShow texts.entry.now.show.now texts.entry.now.titles.now
        texts.entry.now.map.now texts.entry.now.faults.now (string_bytes text)) }
{
    let board = Board::read(alloc, texts)?;
    let mut canvas = Canvas::new(alloc);
    write_counts(alloc, &mut canvas, &board)?;
    let is_told = board.map.has_told();
    let legend = draw_legend(&mut canvas, is_told, 66)?;
    let top = write_faults(alloc, &mut canvas, &board)?.saturating_add(22);
    let tree_end = draw_tree(alloc, &mut canvas, &board, top)?;
    let site = first_site(&board.map, top);
    let y = draw_sections(alloc, &mut canvas, &board, &site)?;
    let end = draw_off(alloc, &mut canvas, &board, &Site { y, ..site })?;
    let right = site.x.saturating_add(AXIS + MARGIN);
    let right = right
        .saturating_add(site.width)
        .max(legend.saturating_add(140));
    let bottom = bottom_of(end, tree_end);
    canvas.finish(alloc, is_told, right, bottom)
}
