//! The board that wishes are granted on: its functions, what is asked of it, and where its windows are before any wish.
ghost use Rattle.std.specs.Prelude.{◌≡◌, ◌<◌, length, false, slice_index_or, IfSome};
ghost use Rattle.pci_spec.specs.System.{System};
ghost use Rattle.settle_spec.specs.Lists.{Request};
ghost use Rattle.pci_tree.specs.Ways.{IsBridgeToBus};
ghost use Rattle.pci_grow.specs.Board.{IsAsked, bridge_of_window, window_class, HasFacts, IsBridgeIndexOver};

use pci_base::slot::BUSES;
use pci_base::window_kind::WindowKind;
use pci_first_fit::lines::Line;
use pci_first_fit::list::Lists;
use pci_first_fit::new_window::highest_in;
use pci_first_fit::table::WindowRanges;
use pci_function::record::Record;
use pci_tree::roots::Roots;

/// The functions of a system, and what is asked of it.
#[derive(Clone, Copy)]
pub struct Board<'a> {
    /// In slot order.
    pub records: &'a [Record],
    pub roots: &'a Roots,
    /// At each bus the index of the bridge that leads there.
    pub over: &'a [Option<usize>; BUSES],
    pub lists: &'a Lists<'a>,
    /// The told ranges of the lists, by their buses.
    pub lines: &'a [Line],
    /// Whether the registers of each function may not be written.
    pub fixed: &'a [bool],
    /// Where the windows of each function are before any wish; None of one that is closed.
    pub windows: &'a [WindowRanges],
}

/// A window of a bridge.
#[derive(Clone, Copy, Debug, PartialEq, Eq)]
pub struct BridgeWindow {
    /// The bridge's index in slot order.
    pub bridge: usize,
    pub class: WindowKind,
}

/// What is known of a window.
#[derive(Clone, Copy, Debug)]
pub struct Facts {
    /// The bus that its bridge is on.
    pub bus: u8,
    /// The bus that its bridge leads to.
    pub behind: u8,
    /// Whether the bridge has such a window.
    pub there: bool,
    /// Whether the bridge's registers may not be written.
    pub fixed: bool,
    /// The highest address that it can hold.
    pub highest: u64,
}

/// The flag of a function; false of one that has none.
pub fn flag_of(flags: &[bool], function: usize) -> bool
    ensures { result ≡ slice_index_or flags.now function false }
{
    match flags.get(function) {
        Some(flag) => *flag,
        None => false,
    }
}

impl Board<'_> {
    /// What is known of a window; None where its function is no bridge.
    pub fn facts(&self, window: BridgeWindow) -> Option<Facts>
        // a window's bridge is one of the functions
        requires { window.bridge < length self.now.records.now }
        ensures { (q : Request) → (s : System) → IsAsked q s self.now
            → HasFacts q (window_class window) (bridge_of_window s window) result }
    {
        let record = &self.records[window.bridge];
        match &record.bridge {
            None => None,
            Some(bridge) => Some(Facts {
                bus: record.slot.bus(),
                behind: bridge.secondary,
                there: bridge.windows.get(window.class).is_some(),
                fixed: flag_of(self.fixed, window.bridge),
                highest: highest_in(window.class, &bridge.windows),
            }),
        }
    }

    /// The index of the bridge over a bus; None where none leads there.
    pub fn bridge_over(&self, bus: u8) -> Option<usize>
        ensures over { (q : Request) → (s : System) → IsAsked q s self.now → IsBridgeIndexOver s bus result }
        // so it has a record
        ensures within { IsBridgeToBus self.now.records.now self.now.over.now
            → IfSome result (λ k. k < length self.now.records.now) }
    {
        self.over[bus as usize]
    }
}
