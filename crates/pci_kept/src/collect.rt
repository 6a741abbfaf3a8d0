//! All parts of a system that can stand.
ghost use Rattle.std.specs.Prelude.{◌≡◌, ◌+◌, IfOk, List, if◌then◌else◌, length};
ghost use Rattle.pci_spec.specs.Slot.{Slot as SlotValue};
ghost use Rattle.pci_spec.specs.Bus.{is_root};
ghost use Rattle.pci_tree.specs.Roots.{buses_of};
ghost use Rattle.pci_place.specs.Above.{system_in};
ghost use Rattle.pci_first_fit.specs.Slots.{demand_value};
ghost use Rattle.pci_kept.specs.Flags.{AreFlags};
ghost use Rattle.pci_kept.specs.Known.{asked, asked_by_rules, AreParts};

use crate::fixed::flags_of;
use crate::open_windows::open_windows;
use crate::region::{Owner, Region, add_regions};
use crate::rules::Rules;
use pci_base::memory::OutOfMemory;
use pci_first_fit::list::{Lists, is_root};
use pci_first_fit::over::{Over, open_over};
use pci_first_fit::own::Terms;
use pci_place::above::aboves;
use pci_tree::admitted::Admitted;
use pci_tree::roots::Roots;
use std::alloc::Allocator;

/// 0 for a root, else one more than the bus number.
pub fn level(roots: &Roots, bus: u8) -> u16
    ensures { result ≡ (if is_root (buses_of roots.now) bus then 0 else bus + 1) }
{
    if is_root(roots, bus) {
        0
    } else {
        u16::from(bus) + 1
    }
}

/// All parts of a system, `fixed` having a flag for each slot number.
fn collect<A: Allocator, B: Allocator>(
    alloc: A,
    admitted: &Admitted<B>,
    lists: &Lists,
    fixed: &[bool],
    anew: bool,
) -> Result<Vec<Region, A>, OutOfMemory>
    requires { length fixed.now ≡ 65536 }
    ensures { IfOk result (λ regions. (slots : List SlotValue) → AreFlags slots fixed.now
        → AreParts (asked admitted.now.roots (demand_value lists.now) slots anew) (system_in admitted.now)
        regions.items) }
{
    let aboves = aboves(admitted);
    let terms = Terms::of(lists);
    let outline = admitted.outline();
    let roots = outline.roots();
    let overs = open_windows(outline.records(), anew);
    let mut regions = Vec::new(alloc);
    for (function, record) in outline.records().iter().enumerate() {
        let bus = record.slot.bus();
        let owner = Owner {
            function,
            bus,
            level: level(&roots, bus),
            fixed: fixed[usize::from(record.slot.number())],
            command: record.command,
        };
        let over = Over {
            above: aboves[bus as usize],
            windows: open_over(&overs, bus),
        };
        add_regions(&mut regions, owner, record, &over, terms)?;
    }
    Ok(regions)
}

/// All parts of a system, in the order of slots and registers.
pub fn regions<A: Allocator + Copy, B: Allocator>(
    alloc: A,
    admitted: &Admitted<B>,
    lists: &Lists,
    rules: &Rules,
) -> Result<Vec<Region, A>, OutOfMemory>
    ensures { IfOk result (λ regions. AreParts
        (asked_by_rules admitted.now.roots (demand_value lists.now) rules.now) (system_in admitted.now)
        regions.items) }
{
    let flags = flags_of(alloc, rules.fixed)?;
    let regions = collect(alloc, admitted, lists, flags.as_slice(), rules.anew)?;
    Ok(regions)
}
