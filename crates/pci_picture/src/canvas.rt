//! The elements of a picture that were drawn so far.
ghost use Rattle.std.specs.String.{string_bytes};
ghost use Rattle.std.specs.Prelude.{◌≡◌, ◌++◌, List, ℕ, [], IfOk, OnOk};
ghost use Rattle.pci_picture.specs.Xml.{IsContent};
ghost use Rattle.pci_picture.specs.Whole.{IsPictureText, picture_text};
ghost use Rattle.pci_picture.specs.Boxes.{titled, titled_spot, IsDrawnOf};
ghost use Rattle.pci_picture.specs.Spots.{BoxSpot};

use super::elements::{Frame, push_axis, push_box, push_gap, push_tick, push_words};
use super::memory::OutOfMemory;
use super::style::{HATCH, STYLE, colours_of, push_head, push_start};
use super::words::Words;
use std::alloc::Allocator;

/// Where a line of words begins, and how it looks.
#[derive(Clone, Copy)]
pub struct Label<'a> {
    pub x: u64,
    pub y: u64,
    pub class: &'a [u8],
}

/// A box, its look, and the name by which a link finds it, or nothing.
#[derive(Clone, Copy)]
pub struct Shape<'a> {
    pub at: Frame,
    pub class: &'a [u8],
    pub anchor: &'a [u8],
}

/// The elements of a picture. Words come behind all boxes, so that no box hides them.
#[derive(Drop)]
pub struct Canvas<A: Allocator> {
    boxes: String<A>,
    words: String<A>,
    /// The element that is being written.
    element: String<A>,
    ghost boxes_closed: { ∥ IsContent (string_bytes boxes) ∥₁ },
    ghost words_closed: { ∥ IsContent (string_bytes words) ∥₁ },
}

impl<A: Allocator + Copy> Canvas<A> {
    ghost use Rattle.pci_picture.specs.Canvases.{HasDrawn, AddsToCanvas, DrawsBytes, WritesBytes};
    ghost use Rattle.pci_picture.specs.Elements.{box_text, words_text};
    ghost use Rattle.pci_picture.specs.Labels.{cut_words, label_text};

    /// A canvas with no element.
    pub fn new(alloc: A) -> Canvas<A>
        ensures drawn { HasDrawn [] result }
        ensures empty { string_bytes result.words ≡ [] }
        ensures blank { string_bytes result.boxes ≡ [] }
    {
        Canvas {
            boxes: String::new(alloc),
            words: String::new(alloc),
            element: String::new(alloc),
        }
    }

    /// Appends the finished element to the boxes.
    fn keep_box(&mut self) -> Result<(), OutOfMemory>
        // only whole elements are kept, so that none is left open
        requires { ∥ IsContent (string_bytes self.old.element) ∥₁ }
        ensures { OnOk result
            ((string_bytes self.new.boxes ≡ string_bytes self.old.boxes ++ string_bytes self.old.element)
            × (string_bytes self.new.words ≡ string_bytes self.old.words)) }
    {
        self.boxes.push_str(self.element.as_str())?;
        Ok(())
    }

    /// Appends the finished element to the words.
    fn keep_words(&mut self) -> Result<(), OutOfMemory>
        // only whole elements are kept, so that none is left open
        requires { ∥ IsContent (string_bytes self.old.element) ∥₁ }
        ensures { OnOk result
            ((string_bytes self.new.words ≡ string_bytes self.old.words ++ string_bytes self.old.element)
            × (string_bytes self.new.boxes ≡ string_bytes self.old.boxes)) }
    {
        self.words.push_str(self.element.as_str())?;
        Ok(())
    }

    /// Draws a box with its title.
    pub fn add_box(&mut self, shape: Shape<'_>, title: &[u8]) -> Result<(), OutOfMemory>
        ensures adds { OnOk result (AddsToCanvas (titled_spot (titled shape.entry.at.x shape.entry.at.y shape.entry.at.width
            shape.entry.at.height shape.entry.class.now title.now)) self.old self.new) }
        ensures draws { OnOk result (DrawsBytes (box_text shape.entry.at.x shape.entry.at.y shape.entry.at.width shape.entry.at.height
            shape.entry.class.now shape.entry.anchor.now title.now) self.old self.new) }
        ensures writes { OnOk result (string_bytes self.new.words ≡ string_bytes self.old.words) }
    {
        self.element.clear();
        push_box(
            &mut self.element,
            shape.at,
            shape.class,
            shape.anchor,
            title,
        )?;
        self.keep_box()
    }

    /// Writes a line of words among the boxes.
    pub fn add_heading(&mut self, label: Label<'_>, words: &[u8]) -> Result<(), OutOfMemory>
        ensures adds { OnOk result (AddsToCanvas [] self.old self.new) }
        ensures draws { OnOk result (DrawsBytes (words_text label.entry.x label.entry.y label.entry.class.now words.now) self.old self.new) }
        ensures writes { OnOk result (string_bytes self.new.words ≡ string_bytes self.old.words) }
    {
        self.element.clear();
        push_words(&mut self.element, label.x, label.y, label.class, words)?;
        self.keep_box()
    }

    /// Writes words at the axis, of which the first ones are grey.
    pub fn add_axis(
        &mut self,
        x: u64,
        y: u64,
        faint: &[u8],
        words: &[u8],
    ) -> Result<(), OutOfMemory>
        ensures adds { OnOk result (AddsToCanvas [] self.old self.new) }
        ensures writes { OnOk result (string_bytes self.new.words ≡ string_bytes self.old.words) }
    {
        self.element.clear();
        push_axis(&mut self.element, x, y, faint, words)?;
        self.keep_box()
    }

    /// Draws a short line at the axis.
    pub fn add_tick(&mut self, x: u64, y: u64) -> Result<(), OutOfMemory>
        ensures adds { OnOk result (AddsToCanvas [] self.old self.new) }
        ensures writes { OnOk result (string_bytes self.new.words ≡ string_bytes self.old.words) }
    {
        self.element.clear();
        push_tick(&mut self.element, x, y)?;
        self.keep_box()
    }

    /// Draws a line over a gap, up to `to`.
    pub fn add_gap(&mut self, x: u64, y: u64, to: u64) -> Result<(), OutOfMemory>
        ensures adds { OnOk result (AddsToCanvas [] self.old self.new) }
        ensures writes { OnOk result (string_bytes self.new.words ≡ string_bytes self.old.words) }
    {
        self.element.clear();
        push_gap(&mut self.element, x, y, to)?;
        self.keep_box()
    }

    /// Writes a line of words, where there are any.
    pub fn add_words(&mut self, label: Label<'_>, words: &[u8]) -> Result<(), OutOfMemory>
        ensures adds { OnOk result (AddsToCanvas [] self.old self.new) }
        ensures draws { OnOk result (string_bytes self.new.boxes ≡ string_bytes self.old.boxes) }
        ensures writes { OnOk result (WritesBytes (label_text label.entry.x label.entry.y label.entry.class.now words.entry.now)
            self.old self.new) }
    {
        if words.is_empty() {
            return Ok(());
        }
        self.element.clear();
        push_words(&mut self.element, label.x, label.y, label.class, words)?;
        self.keep_words()
    }

    /// Writes a line of words, cut to a width.
    pub fn add_cut(
        &mut self,
        label: Label<'_>,
        words: &mut Words<A>,
        width: u64,
    ) -> Result<(), OutOfMemory>
        ensures adds { OnOk result (AddsToCanvas [] self.old self.new) }
        ensures draws { OnOk result (string_bytes self.new.boxes ≡ string_bytes self.old.boxes) }
        ensures writes { OnOk result (WritesBytes (label_text label.entry.x label.entry.y label.entry.class.now
            (cut_words width words.old.bytes.items)) self.old self.new) }
    {
        words.cut(width)?;
        self.add_words(label, words.bytes.as_slice())
    }

    /// The text of what was drawn.
    fn text(
        &self,
        alloc: A,
        is_told: bool,
        width: u64,
        height: u64,
    ) -> Result<String<A>, OutOfMemory>
        ensures { IfOk result (λ text. string_bytes text
            ≡ picture_text is_told (string_bytes self.now.boxes) (string_bytes self.now.words) width height) }
    {
        let mut text = String::new(alloc);
        push_start(&mut text, width, height)?;
        push_head(&mut text, STYLE, HATCH, width, height)?;
        text.push_str(colours_of(is_told))?;
        text.push_str(self.boxes.as_str())?;
        text.push_str(self.words.as_str())?;
        text.push_str("</svg>\n")?;
        Ok(text)
    }

    /// The picture of what was drawn: one element of SVG, with every text in it escaped and every element in it closed.
    pub fn finish(
        &self,
        alloc: A,
        is_told: bool,
        width: u64,
        height: u64,
    ) -> Result<String<A>, OutOfMemory>
        ensures closed { IfOk result (λ text. IsPictureText (string_bytes text)) }
        ensures drawn { (spots : List BoxSpot) (head behind : List ℕ) → HasDrawn spots self.now → string_bytes self.now.boxes ≡ head ++ behind
            → IfOk result (λ text. IsDrawnOf is_told spots head (string_bytes self.now.words) width height (string_bytes text)) }
        ensures says { IfOk result (λ text. string_bytes text
            ≡ picture_text is_told (string_bytes self.now.boxes) (string_bytes self.now.words) width height) }
    {
        self.text(alloc, is_told, width, height)
    }
}
