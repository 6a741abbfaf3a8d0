//! The legend.
ghost use Rattle.std.specs.Prelude.{◌≡◌, ◌+◌, ◌^◌, ◌-◌, [], min, IfOk, OnOk};
ghost use Rattle.pci_picture.specs.Boxes.{titled_line};
ghost use Rattle.pci_picture.specs.Canvases.{AddsToCanvas, DrawsBytes, WritesBytes};
ghost use Rattle.pci_picture.specs.Elements.{box_text};
ghost use Rattle.pci_picture.specs.Labels.{label_text};
ghost use Rattle.pci_picture.specs.Legends.{class_of_mark, last_begins, legend_boxes, legend_text, marks_of_legend, title_of_mark, words_of_mark};

use super::canvas::{Canvas, Label, Shape};
use super::elements::Frame;
use super::memory::OutOfMemory;
use super::tree::LEFT;
use std::alloc::Allocator;

/// What a box of a section can be.
#[derive(Clone, Copy)]
enum Mark {
    Window,
    Bar,
    Prefetchable,
    Rom,
    Free,
    Clash,
    Lost,
    Off,
    Shared,
    Fits,
    Told,
    Held,
}

/// The last two are for told ranges.
static LEGEND: [Mark; 12] = [
    Mark::Window,
    Mark::Bar,
    Mark::Prefetchable,
    Mark::Rom,
    Mark::Free,
    Mark::Clash,
    Mark::Lost,
    Mark::Off,
    Mark::Shared,
    Mark::Fits,
    Mark::Told,
    Mark::Held,
];

impl Mark {
    /// The classes of its box.
    fn class(self) -> &'static str
        ensures { result.now ≡ class_of_mark self }
    {
        match self {
            Mark::Window => "window",
            Mark::Bar => "bar",
            Mark::Prefetchable => "pref",
            Mark::Rom => "rom",
            Mark::Free => "free",
            Mark::Clash => "bar clash",
            Mark::Lost => "bar lost",
            Mark::Off => "off",
            Mark::Shared => "shared",
            Mark::Fits => "fits",
            Mark::Told => "told",
            Mark::Held => "held",
        }
    }

    /// The title of its box.
    #[tactic(auto, unfolding(crate::specs::Lines::is_region_line, crate::specs::Lines::is_range, crate::specs::Lines::words_in_line))]
    fn title(self) -> &'static str
        ensures told { result.now ≡ title_of_mark self }
        // it is no line of a region
        ensures bare { titled_line result.now ≡ [] }
    {
        match self {
            Mark::Window => "window",
            Mark::Bar => "BAR",
            Mark::Prefetchable => "prefetchable",
            Mark::Rom => "ROM",
            Mark::Free => "free",
            Mark::Clash => "clash",
            Mark::Lost => "not reached",
            Mark::Off => "off",
            Mark::Shared => "shared",
            Mark::Fits => "fits",
            Mark::Told => "told",
            Mark::Held => "held",
        }
    }

    /// What stands beside its box.
    fn words(self) -> &'static str
        ensures { result.now ≡ words_of_mark self }
    {
        match self {
            Mark::Window => "window",
            Mark::Bar => "BAR",
            Mark::Prefetchable => "prefetchable",
            Mark::Rom => "ROM",
            Mark::Free => "free",
            Mark::Clash => "clash",
            Mark::Lost => "not reached",
            Mark::Off => "off",
            Mark::Shared => "shared addresses",
            Mark::Fits => "where it would fit",
            Mark::Told => "told",
            Mark::Held => "held",
        }
    }
}

/// Draws an entry of the legend.
fn draw_entry<A: Allocator + Copy>(
    canvas: &mut Canvas<A>,
    mark: Mark,
    x: u64,
    y: u64,
) -> Result<(), OutOfMemory>
    ensures adds { OnOk result (AddsToCanvas [] canvas.old canvas.new) }
    ensures draws { OnOk result (DrawsBytes (box_text x (y - 9) 16 11 (class_of_mark mark) [] (title_of_mark mark)) canvas.old canvas.new) }
    ensures writes { OnOk result (WritesBytes (label_text (min (x + 21) (2 ^ 64 - 1)) y [] (words_of_mark mark)) canvas.old canvas.new) }
{
    let at = Frame {
        x,
        y: y.saturating_sub(9),
        width: 16,
        height: 11,
    };
    let text = mark.title();
    let title = text.as_bytes();
    let shape = Shape {
        at,
        class: mark.class().as_bytes(),
        anchor: b"",
    };
    canvas.add_box(shape, title)?;
    let label = Label {
        x: x.saturating_add(21),
        y,
        class: b"",
    };
    canvas.add_words(label, mark.words().as_bytes())
}

/// The marks of a legend: those of told ranges only where there are any.
#[tactic(auto, unfolding(crate::specs::Legends::marks_of_legend))]
fn marks_of(is_told: bool) -> &'static [Mark]
    ensures { result.now ≡ marks_of_legend is_told }
{
    if is_told { &LEGEND[..] } else { &LEGEND[..10] }
}

/// Draws the legend, where told ranges have entries only if there are any. Its answer is where its last entry begins
/// from the left.
pub fn draw_legend<A: Allocator + Copy>(
    canvas: &mut Canvas<A>,
    is_told: bool,
    y: u64,
) -> Result<u64, OutOfMemory>
    ensures adds { IfOk result (λ _. AddsToCanvas [] canvas.old canvas.new) }
    ensures draws { IfOk result (λ _. DrawsBytes (legend_boxes y 16 (marks_of_legend is_told)) canvas.old canvas.new) }
    ensures writes { IfOk result (λ _. WritesBytes (legend_text y 16 (marks_of_legend is_told)) canvas.old canvas.new) }
    ensures last { IfOk result (λ last. last ≡ last_begins 16 16 (marks_of_legend is_told)) }
{
    let mut x = LEFT;
    let mut last = LEFT;
    for mark in marks_of(is_told) {
        draw_entry(canvas, *mark, x, y)?;
        last = x;
        let room = (mark.words().len() as u64).saturating_mul(7);
        x = x.saturating_add(34).saturating_add(room);
    }
    Ok(last)
}
