//! Which parts of a function keep their places, as a table has it.
ghost use Rattle.std.specs.Prelude.{◌≡◌, IfOk, length, true, false};
ghost use Rattle.pci_spec.specs.System.{Part as PartValue};
ghost use Rattle.pci_base.specs.WindowKinds.{kind_value};
ghost use Rattle.pci_spec.specs.System as system;
ghost use Rattle.pci_first_fit.specs.Kept.{IsCodePart, spec_part, kept_of, AreNone};

use pci_base::memory::OutOfMemory;
use pci_base::window_kind::{ByKind, WindowKind};
use std::alloc::Allocator;

/// A part of a function that can keep its place.
#[derive(Clone, Copy, Debug, PartialEq, Eq)]
pub enum Part {
    /// The BAR that this Base Address register starts, counted from 0.
    Bar(u8),
    Rom,
    Window(WindowKind),
}

/// Which parts of a function keep their places.
#[derive(Debug, Drop)]
pub struct Kept {
    /// By Base Address register.
    pub bars: [bool; 6],
    pub rom: bool,
    pub windows: ByKind<bool>,
}

impl Kept {
    pub const NONE: Kept = Kept {
        bars: [false; 6],
        rom: false,
        windows: ByKind {
            io: false,
            memory: false,
            prefetchable: false,
        },
    };

    /// Whether the BAR keeps its place that this Base Address register starts, counted from 0.
    pub fn bar(&self, register: u8) -> bool
        ensures { result ≡ kept_of self.now (system.Bar register) }
    {
        match self.bars.get(usize::from(register)) {
            Some(kept) => *kept,
            None => false,
        }
    }

    /// Whether the window of a kind does.
    pub fn window(&self, kind: WindowKind) -> bool
        ensures { result ≡ kept_of self.now (system.Window (kind_value kind)) }
    {
        *self.windows.get(kind)
    }

    /// Whether a part does.
    pub fn keeps(&self, part: Part) -> bool
        ensures { result ≡ kept_of self.now (spec_part part) }
    {
        match part {
            Part::Bar(n) => self.bar(n),
            Part::Rom => self.rom,
            Part::Window(kind) => self.window(kind),
        }
    }

    /// Notes that a part does.
    pub fn note(&mut self, part: Part)
        // no header has more BAR registers, and the table has no entry for more
        requires { IsCodePart part }
        ensures noted { kept_of self.new (spec_part part) ≡ true }
        // the parts of a function are noted one after another
        ensures others { (other : PartValue) → (other ≡ spec_part part → ⊥)
            → kept_of self.new other ≡ kept_of self.old other }
    {
        match part {
            Part::Bar(n) => self.bars[usize::from(n)] = true,
            Part::Rom => self.rom = true,
            Part::Window(WindowKind::Io) => self.windows.io = true,
            Part::Window(WindowKind::Memory) => self.windows.memory = true,
            Part::Window(WindowKind::Prefetchable) => self.windows.prefetchable = true,
        }
    }

    /// Notes that a part doesn't.
    pub fn clear(&mut self, part: Part)
        // no header has more BAR registers, and the table has no entry for more
        requires { IsCodePart part }
        ensures cleared { kept_of self.new (spec_part part) ≡ false }
        // the parts of a function are cleared one after another
        ensures others { (other : PartValue) → (other ≡ spec_part part → ⊥)
            → kept_of self.new other ≡ kept_of self.old other }
    {
        match part {
            Part::Bar(n) => self.bars[usize::from(n)] = false,
            Part::Rom => self.rom = false,
            Part::Window(WindowKind::Io) => self.windows.io = false,
            Part::Window(WindowKind::Memory) => self.windows.memory = false,
            Part::Window(WindowKind::Prefetchable) => self.windows.prefetchable = false,
        }
    }
}

/// A table in which no part of any function keeps its place.
pub fn nothing_kept<A: Allocator>(alloc: A, functions: usize) -> Result<Vec<Kept, A>, OutOfMemory>
    // a function's entry stands where its record does
    ensures count { IfOk result (λ table. length table.items ≡ functions) }
    ensures none { IfOk result (λ table. AreNone table.items) }
{
    let mut table = Vec::new(alloc);
    for _ in 0..functions {
        table.push(Kept::NONE)?;
    }
    Ok(table)
}
