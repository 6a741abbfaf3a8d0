//! Whether a part lies where it can stand: in a range of its root, or in the window over it.
ghost use Rattle.std.specs.Prelude.{◌≡◌, length};
ghost use Rattle.pci_spec.specs.System.{System};
ghost use Rattle.settle_spec.specs.Lists.{Request};
ghost use Rattle.settle_spec.specs.Stands.{is_in_place};
ghost use Rattle.pci_base.specs.Ranges.{decoded_range_of};
ghost use Rattle.pci_base.specs.WindowKinds.{kind_value};
ghost use Rattle.pci_image.specs.Windows.{window_of};
ghost use Rattle.pci_tree.specs.Passes.{range_in};
ghost use Rattle.pci_tree.specs.Ways.{IsBridgeToBus};
ghost use Rattle.pci_first_fit.specs.Over.{range_holds};
ghost use Rattle.pci_first_fit.specs.Lists.{lists_value};
ghost use Rattle.pci_kept.specs.Boards.{IsBoard, IsKnown, AreOpen};
ghost use Rattle.pci_kept.specs.Known.{region_value};
ghost use Rattle.pci_kept.specs.Tables.{stands_in};
ghost use Rattle.pci_kept.specs.Places.{is_in_windows};

use crate::region::Region;
use pci_base::range::Range;
use pci_base::slot::BUSES;
use pci_base::window_kind::WindowKind;
use pci_first_fit::kept::Kept;
use pci_first_fit::list::Lists;
use pci_first_fit::over::is_within;
use pci_function::record::Record;
use pci_image::window::Windows;

/// Whether a window of a bridge is there and open, and holds a range.
pub fn is_held(windows: &Windows, kind: WindowKind, range: Range) -> bool
    ensures { result ≡ range_holds (range_in (window_of windows.now (kind_value kind)))
        (decoded_range_of range) }
{
    let Some(window) = windows.get(kind) else {
        return false;
    };
    match window.range() {
        None => false,
        Some(outer) => is_within(range, outer),
    }
}

/// Whether the window over a part holds it, and stands.
fn is_in_windows(region: &Region, windows: &Windows, over: &Kept) -> bool
    ensures { result ≡ is_in_windows windows.now over.now region.now }
{
    is_held(windows, region.class, region.range) && over.window(region.class)
}

/// At each bus the index of the bridge that leads there.
pub fn bridges_over(records: &[Record]) -> [Option<usize>; BUSES]
    ensures { IsBridgeToBus records.now result }
{
    let mut over = [None; BUSES];
    for (index, function) in records.iter().enumerate() {
        if let Some(bridge) = function.bridge {
            over[bridge.secondary as usize] = Some(index);
        }
    }
    over
}

/// Whether a part is where it can stand, `table` saying which windows do.
pub fn is_in_place(
    records: &[Record],
    over: &[Option<usize>; BUSES],
    lists: &Lists,
    region: &Region,
    table: &[Kept],
) -> bool
    // the bridge to its bus is found by one look into this table
    requires over { IsBridgeToBus records.now over.now }
    // a bridge's entry stands where its record does
    requires count { length table.now ≡ length records.now }
    ensures { (q : Request) → (s : System) → IsBoard q s records.now (lists_value lists.now)
        → IsKnown q s region.now → AreOpen s table.now
        → result ≡ is_in_place q s (stands_in s table.now) (region_value s region.now) }
{
    if region.level == 0 {
        return lists.hold(region.bus, region.space, region.range);
    }
    let Some(index) = over[region.bus as usize] else {
        return false;
    };
    match &records[index].bridge {
        None => false,
        Some(bridge) => is_in_windows(region, &bridge.windows, &table[index]),
    }
}
