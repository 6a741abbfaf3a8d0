//! The new windows of bridges in a class: each is as large as what is on the bus behind where nothing keeps its place, and over
//! a slot has a spare behind that.
ghost use Rattle.std.specs.Prelude.{◌≡◌, IfOk};
ghost use Rattle.pci_base.specs.WindowKinds.{kind_value};
ghost use Rattle.pci_place.specs.Above.{AreAboves, system_in, is_wide_in};
ghost use Rattle.pci_first_fit.specs.Buses.{AreWindows, classing_value};
ghost use Rattle.pci_first_fit.specs.NewWindows.{highest_by, nowhere, IsNewWindowPut, first_large, AreNewWindows, AreMarkedWindows};

use crate::bus::items_on;
use crate::extent::Extent;
use crate::listing::{Classing, Listing};
use crate::window::window_around;
use pci_base::memory::OutOfMemory;
use pci_base::slot::BUSES;
use pci_base::window_kind::WindowKind;
use pci_function::record::Bridge;
use pci_image::window::{Window, Windows};
use std::alloc::Allocator;

/// Whether a window is there and has upper halves.
fn has_upper_halves(window: Option<Window>) -> bool
    ensures { result ≡ is_wide_in window }
{
    match window {
        Some(window) => window.wide(),
        None => false,
    }
}

/// The highest address that the window of a class can hold: one of I/O or prefetchable memory may have upper halves.
pub fn highest_in(class: WindowKind, windows: &Windows) -> u64
    ensures { result ≡ highest_by (kind_value class) windows.now }
{
    match class {
        WindowKind::Io if has_upper_halves(windows.io) => 0xffff_ffff,
        WindowKind::Io => 0xffff,
        WindowKind::Prefetchable if has_upper_halves(windows.pref) => u64::MAX,
        WindowKind::Memory | WindowKind::Prefetchable => 0xffff_ffff,
    }
}

/// What stands in a table for a window of 2^64 addresses or more: no range has a place for it.
fn nowhere() -> Extent
    ensures { result ≡ nowhere }
{
    Extent {
        size: u64::MAX,
        alignment: 1,
        highest: 0,
    }
}

/// A new window that is to be made.
#[derive(Clone, Copy)]
struct Opening<'a> {
    bridge: &'a Bridge,
    class: WindowKind,
    /// How many addresses are wanted behind its items.
    wanted: u64,
}

/// Puts the new window of a bridge into the table, at the bus behind it: None where that has no item. False where the
/// window would have 2^64 addresses or more, which is marked there.
fn put_window<A: Allocator + Copy, B: Allocator>(
    alloc: A,
    classing: &Classing<B>,
    opening: &Opening,
    windows: &mut [Option<Extent>; BUSES],
) -> Result<bool, OutOfMemory>
    requires above { AreAboves (system_in classing.now.admitted.now) classing.now.aboves.now }
    requires lawful { AreWindows windows.old }
    ensures put { IfOk result (IsNewWindowPut (classing_value classing.now)
        (kind_value opening.now.class) opening.now.bridge.now opening.now.wanted
        windows.old windows.new) }
    ensures lawful { AreWindows windows.new }
{
    let Opening {
        bridge,
        class,
        wanted,
    } = *opening;
    let bus = bridge.secondary;
    let listing = Listing {
        classing,
        class,
        windows,
        kept: &[],
    };
    let mut items = items_on(alloc, &listing, bus)?;
    if items.is_empty() {
        windows[bus as usize] = None;
        return Ok(true);
    }
    let highest = highest_in(class, &bridge.windows);
    match window_around(alloc, class, highest, wanted, &mut items)? {
        Some(window) => {
            windows[bus as usize] = Some(window);
            Ok(true)
        }
        None => {
            windows[bus as usize] = Some(nowhere());
            Ok(false)
        }
    }
}

/// The bridge that is named of those whose windows are too large: the one before, or this one where it is the first found.
fn first_large(large: Option<usize>, fits: bool, function: usize) -> Option<usize>
    ensures { result ≡ first_large large fits function }
{
    match large {
        Some(_) => large,
        None if fits => None,
        None => Some(function),
    }
}

/// Puts into `windows` the new window of a class over each bus behind a bridge, None where nothing of the class is
/// behind. One over a slot has the spare that is wanted there. What is behind a bridge has higher slots than the bridge,
/// so one pass from the highest slot down finds the windows on a bus before the one over it.
///
/// The answer is None where all windows have fewer than 2^64 addresses. Else it is the index of a bridge whose window
/// has that many or more: the last such one in slot order. The table then has an extent in the place of each such window
/// for which no range has a place.
pub fn new_windows<A: Allocator + Copy, B: Allocator>(
    alloc: A,
    classing: &Classing<B>,
    class: WindowKind,
    windows: &mut [Option<Extent>; BUSES],
) -> Result<Option<usize>, OutOfMemory>
    // the class of a BAR hangs on the windows of the bridges above it
    requires { AreAboves (system_in classing.now.admitted.now) classing.now.aboves.now }
    ensures windows { IfOk result (AreNewWindows (classing_value classing.now)
        (kind_value class) windows.new) }
    // what is in the table has addresses and an alignment, also where there was no memory for all
    // where one is too large, all others are as they are, and it is marked
    ensures marked { IfOk result (λ _. AreMarkedWindows (classing_value classing.now)
        (kind_value class) windows.new) }
    ensures lawful { AreWindows windows.new }
{
    *windows = [None; BUSES];
    let mut large = None;
    let outline = classing.admitted.outline();
    let records = outline.records();
    let slots = classing.terms.slots;
    for done in 0..records.len() {
        let function = records.len() - 1 - done;
        let record = &records[function];
        if let Some(bridge) = &record.bridge {
            let wanted = slots.wanted(record.slot, class);
            let opening = Opening {
                bridge,
                class,
                wanted,
            };
            let fits = put_window(alloc, classing, &opening, windows)?;
            large = first_large(large, fits, function);
        }
    }
    Ok(large)
}
