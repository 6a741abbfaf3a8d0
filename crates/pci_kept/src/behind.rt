//! What told ranges hold behind new windows.
ghost use Rattle.std.specs.Prelude.{IfOk, OnOk, map};
ghost use Rattle.pci_base.specs.WindowKinds.{kind_value};
ghost use Rattle.pci_first_fit.specs.Lines.{AreLineRows};
ghost use Rattle.pci_kept.specs.Behind.{AreAddedBehind, AreBehindEach};

use pci_base::memory::OutOfMemory;
use pci_base::range::Range;
use pci_base::space::Space;
use pci_base::window_kind::WindowKind;
use pci_first_fit::item::{Item, Part};
use pci_first_fit::lines::{Line, add_lines_behind};
use pci_function::record::Record;
use std::alloc::Allocator;

/// Adds what told ranges hold behind an item of a class: nothing where it is no new window.
fn add_behind<A: Allocator>(
    behind: &mut Vec<Range, A>,
    records: &[Record],
    lines: &[Line],
    class: WindowKind,
    item: &Item,
) -> Result<(), OutOfMemory>
    requires lines { AreLineRows lines.now }
    ensures { OnOk result (AreAddedBehind records.now lines.now (kind_value class) item.now
        behind.old.items behind.new.items) }
{
    match item.part {
        Part::Bar(_) | Part::Rom => Ok(()),
        Part::Window => {
            let Some(record) = records.get(item.function) else {
                return Ok(());
            };
            let Some(bridge) = &record.bridge else {
                return Ok(());
            };
            add_lines_behind(behind, lines, bridge, Space::of(class))?;
            Ok(())
        }
    }
}

/// What told ranges hold behind each of some items of a class, by index: nothing where it is no new window. Where nothing is
/// told the table is empty.
pub fn behind_each<A: Allocator + Copy>(
    alloc: A,
    records: &[Record],
    lines: &[Line],
    class: WindowKind,
    items: &[Item],
) -> Result<Vec<Vec<Range, A>, A>, OutOfMemory>
    // those behind a bridge are found by halving
    requires lines { AreLineRows lines.now }
    ensures { IfOk result (λ behind. AreBehindEach records.now lines.now (kind_value class) items.now
        (map (λ list. list.items) behind.items)) }
{
    let mut all = Vec::new(alloc);
    if lines.is_empty() {
        return Ok(all);
    }
    for item in items {
        let mut behind = Vec::new(alloc);
        add_behind(&mut behind, records, lines, class, item)?;
        all.push(behind)?;
    }
    Ok(all)
}
