//! The new windows of bridges around what is behind them, and open windows of all addresses.
ghost use Rattle.std.specs.Prelude.{◌≡◌, ◌⊎◌, None, Some, IfOk, IfErr, IfSome, OnOk, IsTrue, IsFalse};
ghost use Rattle.std.specs.List.{All};
ghost use Rattle.std.specs.Option.{option_map};
ghost use Rattle.pci_base.specs.Ranges.{decoded_range_of};
ghost use Rattle.pci_base.specs.WindowKinds.{kind_value};
ghost use Rattle.pci_place.specs.Above.{AreAboves, system_in};
ghost use Rattle.pci_first_fit.specs.Buses.{AreWindows, classing_value};
ghost use Rattle.pci_spec.specs.Window.{IoWindow};
ghost use Rattle.pci_kept.specs.Windows.{HasWindowsOf, IsTooLargeOf, first_class_too_large, AreAllNew, AreAllLawful, is_whole_range, opens_whole, has_whole, HasWhole};

use pci_base::memory::{OutOfMemory, Refused};
use pci_base::range::Range;
use pci_base::slot::BUSES;
use pci_base::window_kind::{ByKind, WindowKind};
use pci_first_fit::extent::Extent;
use pci_first_fit::listing::Classing;
use pci_first_fit::new_window::new_windows;
use pci_first_fit::over::open_range;
use pci_function::record::{Bridge, Record};
use std::alloc::Allocator;

/// A bridge whose new window would have 2^64 addresses or more.
#[derive(Clone, Copy, Debug)]
pub struct TooLarge {
    pub class: WindowKind,
    /// Which of the functions, in slot order.
    pub function: usize,
}

/// Puts the new windows of a class into a table, or names the bridge of which that would have 2^64 addresses or more.
fn class_windows<A: Allocator + Copy, B: Allocator>(
    alloc: A,
    classing: &Classing<B>,
    class: WindowKind,
    windows: &mut [Option<Extent>; BUSES],
) -> Result<(), Refused<TooLarge>>
    requires { AreAboves (system_in classing.now.admitted.now) classing.now.aboves.now }
    ensures windows { OnOk result (HasWindowsOf (classing_value classing.now)
        (kind_value class) windows.new) }
    ensures lawful { AreWindows windows.new }
    ensures fault { IfErr result (IsTooLargeOf (classing_value classing.now)
        (kind_value class)) }
{
    match new_windows(alloc, classing, class, windows)? {
        Some(function) => Err(Refused::Fault(TooLarge { class, function })),
        None => Ok(()),
    }
}

/// The new windows over each bus, by class.
#[derive(Drop)]
pub struct NewWindows {
    /// In the place of a window of 2^64 addresses or more stands an extent for which no range has a place.
    pub tables: ByKind<[Option<Extent>; BUSES]>,
    /// Such a window of the first class that has any.
    pub large: Option<TooLarge>,
}

/// The first class of which a bridge is named, and that bridge.
fn first_of(
    io: Option<usize>,
    memory: Option<usize>,
    prefetchable: Option<usize>,
) -> Option<TooLarge>
    ensures { result ≡ first_class_too_large io memory prefetchable }
{
    let (class, function) = match (io, memory, prefetchable) {
        (Some(function), _, _) => (WindowKind::Io, function),
        (None, Some(function), _) => (WindowKind::Memory, function),
        (None, None, Some(function)) => (WindowKind::Prefetchable, function),
        (None, None, None) => return None,
    };
    Some(TooLarge { class, function })
}

/// The new windows over each bus, by class.
pub fn all_windows<A: Allocator + Copy, B: Allocator>(
    alloc: A,
    classing: &Classing<B>,
) -> Result<NewWindows, OutOfMemory>
    // which windows lead to a BAR decides its class
    requires { AreAboves (system_in classing.now.admitted.now) classing.now.aboves.now }
    ensures windows { IfOk result (λ windows. AreAllNew
        (classing_value classing.now) windows.tables windows.large) }
    ensures lawful { IfOk result (λ windows. AreAllLawful windows.tables) }
{
    let mut io = [None; BUSES];
    let mut memory = [None; BUSES];
    let mut prefetchable = [None; BUSES];
    let in_io = new_windows(alloc, classing, WindowKind::Io, &mut io)?;
    let in_memory = new_windows(alloc, classing, WindowKind::Memory, &mut memory)?;
    let class = WindowKind::Prefetchable;
    let in_wide = new_windows(alloc, classing, class, &mut prefetchable)?;
    let large = first_of(in_io, in_memory, in_wide);
    Ok(NewWindows {
        tables: ByKind {
            io,
            memory,
            prefetchable,
        },
        large,
    })
}

/// Whether a range has all addresses of 64 bits.
pub fn is_whole_range(range: Option<Range>) -> bool
    ensures { result ≡ is_whole_range (option_map decoded_range_of range) }
{
    match range {
        Some(range) => range.first == 0 && range.last == u64::MAX,
        None => false,
    }
}

/// Whether an open window of a bridge has all addresses of 64 bits.
fn opens_whole(bridge: &Bridge) -> bool
    ensures { result ≡ opens_whole bridge.now }
{
    is_whole_range(open_range(&bridge.windows, WindowKind::Io))
        || is_whole_range(open_range(&bridge.windows, WindowKind::Memory))
        || is_whole_range(open_range(&bridge.windows, WindowKind::Prefetchable))
}

/// Whether a function is a bridge of which an open window has all addresses of 64 bits.
fn has_whole(record: &Record) -> bool
    ensures { result ≡ has_whole «record».now }
{
    match &record.bridge {
        Some(bridge) => opens_whole(bridge),
        None => false,
    }
}

/// Whether an open window has all addresses of 64 bits.
fn have_whole(records: &[Record]) -> bool
    ensures none { IsFalse result → All (λ r. IsFalse (has_whole r)) records.now }
    ensures some { IsTrue result → HasWhole records.now }
{
    for k in 0..records.len() {
        if has_whole(&records[k]) {
            return true;
        }
    }
    false
}

/// The bridge beside whose new window it isn't known what stays: one is too large, and an open window may have room for it.
pub fn unknown_beside(large: Option<TooLarge>, records: &[Record]) -> Option<TooLarge>
    ensures some { IfSome result (λ window. (large ≡ Some window) × HasWhole records.now) }
    ensures none { result ≡ None
        → (large ≡ None) ⊎ All (λ r. IsFalse (has_whole r)) records.now }
{
    match large {
        Some(window) if have_whole(records) => Some(window),
        _ => None,
    }
}

/// The new windows of I/O over each bus, and none of memory.
pub fn io_windows<A: Allocator + Copy, B: Allocator>(
    alloc: A,
    classing: &Classing<B>,
) -> Result<ByKind<[Option<Extent>; BUSES]>, Refused<TooLarge>>
    // which windows lead to a BAR decides its class
    requires { AreAboves (system_in classing.now.admitted.now) classing.now.aboves.now }
    ensures windows { IfOk result (λ windows. HasWindowsOf
        (classing_value classing.now) IoWindow windows.io) }
    ensures lawful { IfOk result AreAllLawful }
    ensures fault { IfErr result (IsTooLargeOf (classing_value classing.now) IoWindow) }
{
    let mut io = [None; BUSES];
    class_windows(alloc, classing, WindowKind::Io, &mut io)?;
    Ok(ByKind {
        io,
        memory: [None; BUSES],
        prefetchable: [None; BUSES],
    })
}
