//! What is told of windows, by function in slot order.
ghost use Rattle.std.specs.Prelude.{◌≡◌, ◌<◌, IfOk, length, slice_index_or};
ghost use Rattle.pci_first_fit.specs.Tables.{untold, told, AreUntold, TellsSame};

use pci_base::memory::OutOfMemory;
use pci_base::range::Range;
use pci_base::window_kind::{ByKind, WindowKind};
use std::alloc::Allocator;

/// The addresses that are told of the windows of a function; None of those of which nothing is.
pub type WindowRanges = ByKind<Option<Range>>;

/// Of no window.
pub const UNTOLD: WindowRanges = ByKind {
    io: None,
    memory: None,
    prefetchable: None,
};

/// A table in which nothing is told of any window.
pub fn nothing_told<A: Allocator>(
    alloc: A,
    functions: usize,
) -> Result<Vec<WindowRanges, A>, OutOfMemory>
    // a function's entry stands where its record does
    ensures count { IfOk result (λ table. length table.items ≡ functions) }
    ensures none { IfOk result (λ table. AreUntold table.items) }
{
    let mut table = Vec::new(alloc);
    for _ in 0..functions {
        table.push(UNTOLD)?;
    }
    Ok(table)
}

/// What a table tells of the windows of a function.
pub fn ranges_told(table: &[WindowRanges], function: usize) -> &WindowRanges
    ensures { result.now ≡ slice_index_or table.now function untold }
{
    match table.get(function) {
        Some(ranges) => ranges,
        None => &UNTOLD,
    }
}

/// What a table tells of a window.
pub fn told_of(table: &[WindowRanges], function: usize, class: WindowKind) -> Option<Range>
    ensures { result ≡ told table.now function class }
{
    *ranges_told(table, function).get(class)
}

/// Tells the addresses of a window.
pub fn tell(table: &mut [WindowRanges], function: usize, class: WindowKind, range: Option<Range>)
    // there is an entry for the function
    requires { function < length table.old }
    ensures count { length table.new ≡ length table.old }
    ensures told { told table.new function class ≡ range }
    // windows are told one after another
    ensures others { TellsSame table.old table.new function class }
{
    let ranges = &mut table[function];
    match class {
        WindowKind::Io => ranges.io = range,
        WindowKind::Memory => ranges.memory = range,
        WindowKind::Prefetchable => ranges.prefetchable = range,
    }
}
