//! What the windows of a bridge pass (Bridge 1.2, chapter 4).
ghost use Rattle.std.specs.Prelude.{◌≡◌, ◌↔◌, ℕ, IfSome, IsTrue};
ghost use Rattle.std.specs.Option.{option_map};
ghost use Rattle.pci_base.specs.Ranges.{decoded_range_of};
ghost use Rattle.pci_base.specs.WindowKinds.{kind_value};
ghost use Rattle.pci_function.specs.Values.{bridge_value, record_value};
ghost use Rattle.pci_tree.specs.Passing.{Passes, IsPassed};
ghost use Rattle.pci_tree.specs.Passes.{range_in, windows_pass, record_passes, HaveSpans};

use super::forwarded::{Forwarded, union};
use pci_base::range::Range;
use pci_base::space::Space;
use pci_base::window_kind::WindowKind;
use pci_function::record::{Bridge, Record};
use pci_image::window::Window;

/// The range of a window that is there and open.
pub(crate) fn range_of(window: Option<Window>) -> Option<Range>
    ensures { option_map decoded_range_of result ≡ range_in window }
{
    match window {
        None => None,
        Some(w) => w.range(),
    }
}

/// What a bridge passes of accesses of a kind, by its windows: the prefetchable one serves prefetchable BARs alone.
fn windows_passed(bridge: Bridge, kind: WindowKind) -> Forwarded
    requires { HaveSpans (bridge_value bridge).windows }
    ensures lawful { IsPassed result }
    ensures exact { (a : ℕ) → Passes result a
        ↔ IsTrue (windows_pass (kind_value kind) a (bridge_value bridge).windows) }
{
    let windows = bridge.windows;
    match kind {
        WindowKind::Io => union(range_of(windows.io), None),
        WindowKind::Memory => union(windows.mem.range(), None),
        WindowKind::Prefetchable => union(windows.mem.range(), range_of(windows.pref)),
    }
}

/// The addresses that a bridge passes of accesses of a kind. A function that is no bridge passes none.
pub fn forwarded(function: &Record, kind: WindowKind) -> Forwarded
    // a window that is open has an address: a closed one has no range at all
    requires { IfSome function.now.bridge (λ b. HaveSpans (bridge_value b).windows) }
    ensures lawful { IsPassed result }
    ensures exact { (a : ℕ) → Passes result a
        ↔ IsTrue (record_passes (kind_value kind) a (record_value function.now)) }
{
    if !Space::of(kind).is_on(function.command) {
        return Forwarded::Nothing;
    }
    match function.bridge {
        None => Forwarded::Nothing,
        Some(bridge) => windows_passed(bridge, kind),
    }
}
