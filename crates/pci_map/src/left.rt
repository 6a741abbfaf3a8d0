//! Whether a region is left: no windows lead to it from a root bus, or from what a bridge takes.
ghost use Rattle.std.specs.Prelude.{◌≡◌, ℕ, ◌<◌, [], length, None, ◌↔◌, IsTrue, MatchBool};
ghost use Rattle.pci_spec.specs.System.{System, IsAddress};
ghost use Rattle.judge_spec.specs.Given.{Given};
ghost use Rattle.judge_spec.specs.Regions.{MapRegion, slot_of, space_of as region_space, range_of};
ghost use Rattle.pci_base.specs.Space.{space_of};
ghost use Rattle.pci_tree.specs.Outline.{Tree};
ghost use Rattle.pci_tree.specs.Ranges.{Covers};
ghost use Rattle.pci_map.specs.Addresses.{ranges_in};
ghost use Rattle.pci_map.specs.Left.{IsTreeOf, IsLeftIf};
ghost use Rattle.pci_map.specs.Takers.{IsTakenFirst};
ghost use Rattle.pci_map.specs.Ways.{Spot, IsJudgedAt, IsHoldingAt, AreAbove, IsFirstAt, AreWays};

use super::addresses::Addresses;
use super::inside::{has, takes};
use pci_base::space::Space;
use pci_tree::region::Region;
use std::alloc::{Allocator, Global};
use std::marker::Model;

/// A window of a bridge, whether ISA Enable cuts it, and whether it is left.
#[derive(Clone, Copy)]
pub struct Judged {
    pub window: Region,
    pub cut: bool,
    pub left: bool,
}

/// The windows of the bridge that leads to a bus, those that claim an address, and what it takes as no region of its own
/// bus claims it.
#[derive(Drop)]
pub struct Windows<A: Allocator = Global> {
    pub io: Option<Judged>,
    pub memory: Option<Judged>,
    pub prefetchable: Option<Judged>,
    pub takes: Addresses<A>,
}

impl<A: Allocator> Model for Windows<A> {
    ghost use Rattle.pci_map.specs.Windows.{BridgeWindows};

    ghost Value = { BridgeWindows };

    ghost view = { λ w. record { io = w.io; memory = w.memory; prefetchable = w.prefetchable; takes = w.takes } };
}

impl<A: Allocator + Copy> Windows<A> {
    /// No windows, and nothing that is taken.
    pub fn none(alloc: A) -> Windows<A>
        ensures { result ≡ record { io = None; memory = None; prefetchable = None; takes = record { io = []; memory = [] } } }
    {
        Windows {
            io: None,
            memory: None,
            prefetchable: None,
            takes: Addresses::none(alloc),
        }
    }
}

impl<A: Allocator> Windows<A> {
    /// Whether the bridge takes an address.
    fn has_taken(&self, space: Space, address: u64) -> bool
        ensures { IsTrue result ↔ Covers (ranges_in (space_of space) self.now.takes) address }
    {
        self.takes.has(space, address)
    }
}

/// A window, where it claims an address.
fn holding(judged: Option<Judged>, address: u64) -> Option<Judged>
    ensures none { judged ≡ None → result ≡ None }
    ensures first { (given : Given) (t : Tree) (s : System) (spot : Spot) → IsTreeOf t s
        → IsJudgedAt given t.roots s spot judged → IsHoldingAt given t.roots s spot address result }
{
    let Some(judged) = judged else {
        return None;
    };
    if !has(&judged.window, address) {
        return None;
    }
    if takes(judged.cut, address) {
        return None;
    }
    Some(judged)
}

/// The first window of a bridge, by register, that claims an address.
fn first_window<A: Allocator>(windows: &Windows<A>, space: Space, address: u64) -> Option<Judged>
    ensures none { windows.now.io ≡ None → windows.now.memory ≡ None → windows.now.prefetchable ≡ None
        → result ≡ None }
    ensures first { (given : Given) (t : Tree) (s : System) (bus : ℕ) → IsTreeOf t s
        → (above : AreAbove given t.roots s bus windows.now) → IsAddress (space_of space) address
        → IsFirstAt given t.roots s (space_of space) above.bridge.b address result }
{
    match space {
        Space::Io => holding(windows.io, address),
        Space::Mem => {
            let memory = holding(windows.memory, address);
            if memory.is_some() {
                return memory;
            }
            holding(windows.prefetchable, address)
        }
    }
}

/// Whether the bridge takes an address that none of its windows claims.
pub fn is_taken_first<A: Allocator>(windows: &Windows<A>, space: Space, address: u64) -> bool
    ensures { (given : Given) (t : Tree) (s : System) (bus : ℕ) → IsTreeOf t s
        → (above : AreAbove given t.roots s bus windows.now) → IsAddress (space_of space) address
        → MatchBool result (IsTakenFirst given (space_of space) above.bridge.b address)
        (IsTakenFirst given (space_of space) above.bridge.b address → ⊥) }
{
    match first_window(windows, space, address) {
        None => windows.has_taken(space, address),
        Some(_) => false,
    }
}

/// Whether a region of a bus with this first address is left: the bus is no root, no window of the bridge there claims the
/// address and the bridge doesn't take it, or the first window that claims it is left itself. Of each bus that is no root
/// the windows above it are given.
pub fn is_left<A: Allocator>(
    ways: &[Option<Windows<A>>],
    bus: u8,
    space: Space,
    address: u64,
) -> bool
    // bus numbers index it
    requires { bus < length ways.now }
    ensures { (given : Given) (t : Tree) (s : System) (q : MapRegion) → IsTreeOf t s
        → AreWays given t.roots s ways.now
        → (slot_of q).bus ≡ bus → region_space q ≡ space_of space → (range_of q).first ≡ address
        → IsAddress (space_of space) address → IsLeftIf given t.roots s q result }
{
    let way = &ways[bus as usize];
    match way {
        None => false,
        Some(windows) => match first_window(windows, space, address) {
            None => !windows.has_taken(space, address),
            Some(judged) => judged.left,
        },
    }
}
