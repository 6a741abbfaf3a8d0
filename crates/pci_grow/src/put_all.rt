//! The places of items that are placed one after another, put into a table.
ghost use Rattle.std.specs.Prelude.{◌≡◌, ◌<◌, length, map};
ghost use Rattle.std.specs.List.{All};
ghost use Rattle.pci_spec.specs.System.{System, IsSystem};
ghost use Rattle.pci_base.specs.WindowKinds.{kind_value};
ghost use Rattle.pci_first_fit.specs.Own.{asked_item_value};
ghost use Rattle.pci_first_fit.specs.Placings.{at_places};
ghost use Rattle.pci_first_fit.specs.PlaceTables.{IsItemPart};
ghost use Rattle.pci_grow.specs.Putting.{ArePutOver, HasItemPart};

use pci_base::window_kind::WindowKind;
use pci_first_fit::item::Item;
use pci_first_fit::place::{Places, put};

/// Puts the places of items of a class into a table. What is listed first counts, so it is put last.
pub fn put_all(table: &mut [Places], class: WindowKind, items: &[Item], places: &[u64])
    // there is an entry for the function of each
    requires functions { All (λ i. i.function < length table.old) items.now }
    // no header has more BAR registers, and an entry has no place for more
    requires parts { All (λ i. IsItemPart i.part) items.now }
    // an item's place stands at its index
    requires count { length places.now ≡ length items.now }
    ensures count { length table.new ≡ length table.old }
    ensures put { (s : System) → IsSystem s → length s ≡ length table.old
        → All (HasItemPart s (kind_value class)) items.now
        → ArePutOver s (at_places (map (asked_item_value s (kind_value class)) items.now) places.now)
        table.old table.new }
{
    for done in 0..items.len() {
        let index = items.len() - 1 - done;
        put(table, class, &items[index], places[index]);
    }
}
