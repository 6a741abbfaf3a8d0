//! Marks of windows of which a table tells something, by function in slot order.
ghost use Rattle.std.specs.Prelude.{◌≡◌, ◌||◌, IfOk, length, map, if◌then◌else◌, None};
ghost use Rattle.pci_spec.specs.System.{Part as PartValue};
ghost use Rattle.pci_first_fit.specs.Kept.{kept_of};
ghost use Rattle.pci_base.specs.WindowKinds.{by_kind};
ghost use Rattle.pci_base.specs.declared.window_kind.WindowKind.{WindowKind as Kind};
ghost use Rattle.pci_grow.specs.Marks.{marks_of, is_window_kept, AreKeptToo, AreLeftToldOf};

use pci_base::memory::OutOfMemory;
use pci_base::range::Range;
use pci_base::window_kind::ByKind;
use pci_first_fit::kept::Kept;
use pci_first_fit::table::WindowRanges;
use std::alloc::Allocator;

/// Marks of the windows of one function of which something is told.
fn marks_of(ranges: &WindowRanges) -> Kept
    ensures { result ≡ marks_of ranges.now }
{
    Kept {
        bars: [false; 6],
        rom: false,
        windows: ByKind {
            io: ranges.io.is_some(),
            memory: ranges.memory.is_some(),
            prefetchable: ranges.prefetchable.is_some(),
        },
    }
}

/// Marks of the windows of which a table tells something.
pub fn marks<A: Allocator>(alloc: A, table: &[WindowRanges]) -> Result<Vec<Kept, A>, OutOfMemory>
    // a function's marks stand where its entry does
    ensures { IfOk result (λ marks. marks.items ≡ map marks_of table.now) }
{
    let mut marks = Vec::new(alloc);
    for ranges in table {
        marks.push(marks_of(ranges))?;
    }
    Ok(marks)
}

/// Keeps also the windows of a function that are marked.
fn keep_also(kept: &mut Kept, marks: &Kept)
    ensures { (part : PartValue)
        → kept_of kept.new part ≡ (kept_of kept.old part || is_window_kept marks.now part) }
{
    kept.windows = ByKind {
        io: kept.windows.io || marks.windows.io,
        memory: kept.windows.memory || marks.windows.memory,
        prefetchable: kept.windows.prefetchable || marks.windows.prefetchable,
    };
}

/// Keeps also the windows that are marked.
pub fn keep_marked(table: &mut [Kept], marks: &[Kept])
    // a function's marks stand where its entry does
    requires { length marks.now ≡ length table.old }
    ensures { AreKeptToo table.old marks.now table.new }
{
    for index in 0..marks.len() {
        keep_also(&mut table[index], &marks[index]);
    }
}

/// A range, where a window is marked.
fn range_if(is_marked: bool, range: Option<Range>) -> Option<Range>
    ensures { result ≡ (if is_marked then range else None) }
{
    if is_marked { range } else { None }
}

/// Leaves of what is told of a function's windows what is told of those that are marked.
fn leave_one(ranges: &mut WindowRanges, marked: &ByKind<bool>)
    ensures { (kind : Kind) → by_kind ranges.new kind
        ≡ (if by_kind marked.now kind then by_kind ranges.old kind else None) }
{
    ranges.io = range_if(marked.io, ranges.io);
    ranges.memory = range_if(marked.memory, ranges.memory);
    ranges.prefetchable = range_if(marked.prefetchable, ranges.prefetchable);
}

/// Leaves of what a table tells what it tells of windows that are marked.
pub fn leave_marked(table: &mut [WindowRanges], marks: &[Kept])
    // a function's marks stand where its entry does
    requires { length marks.now ≡ length table.old }
    ensures { AreLeftToldOf marks.now table.old table.new }
{
    for index in 0..marks.len() {
        leave_one(&mut table[index], &marks[index].windows);
    }
}
