//! What is taken on a bus: by the parts that stay there, and by lines.
ghost use Rattle.std.specs.Prelude.{IfOk};
ghost use Rattle.pci_base.specs.Space.{space_of};
ghost use Rattle.pci_first_fit.specs.Lines.{AreLineRows};
ghost use Rattle.pci_first_fit.specs.Spots.{AreRisingRanges};
ghost use Rattle.pci_kept.specs.Held.{AreByLevel};
ghost use Rattle.pci_settle_places.specs.Taken.{AreTakenAt};

use crate::staying::Staying;
use pci_base::memory::OutOfMemory;
use pci_base::range::Range;
use pci_base::space::Space;
use pci_first_fit::lines::add_lines_on;
use pci_first_fit::spot::sort_by_first;
use pci_kept::held::taken_on;
use std::alloc::Allocator;

/// What is taken on a level in a space, by rising first addresses: by the parts that stay there, and by lines.
pub fn taken_at<A: Allocator>(
    alloc: A,
    staying: &Staying,
    level: u16,
    space: Space,
) -> Result<Vec<Range, A>, OutOfMemory>
    // those of a level are found by halving
    requires held { AreByLevel staying.now.held.now }
    requires lines { AreLineRows staying.now.lines.now }
    ensures taken { IfOk result (λ taken. AreTakenAt staying.now level (space_of space) taken.items) }
    // places are looked for between them
    ensures listed { IfOk result (λ taken. AreRisingRanges taken.items) }
{
    let mut taken = taken_on(alloc, staying.held, level, space)?;
    if staying.lines.is_empty() {
        return Ok(taken);
    }
    add_lines_on(&mut taken, staying.lines, level, space)?;
    sort_by_first(&mut taken);
    Ok(taken)
}
