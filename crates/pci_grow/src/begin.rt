//! What is there before any window is found to take: what holds as it stands.
ghost use Rattle.std.specs.Prelude.{◌≡◌, IfOk, length};
ghost use Rattle.pci_first_fit.specs.PlaceTables.{ArePlaceless};
ghost use Rattle.pci_first_fit.specs.Tables.{AreUntold};

use crate::there::There;
use pci_base::memory::OutOfMemory;
use pci_base::window_kind::ByKind;
use pci_first_fit::kept::Kept;
use pci_first_fit::place::no_places;
use pci_first_fit::table::nothing_told;
use std::alloc::Allocator;

/// Marks of a function as another one has them.
fn copy_of(kept: &Kept) -> Kept
    ensures { result ≡ kept.now }
{
    Kept {
        bars: kept.bars,
        rom: kept.rom,
        windows: ByKind {
            io: kept.windows.io,
            memory: kept.windows.memory,
            prefetchable: kept.windows.prefetchable,
        },
    }
}

/// A table as another one is.
fn copy_all<A: Allocator>(alloc: A, table: &[Kept]) -> Result<Vec<Kept, A>, OutOfMemory>
    ensures { IfOk result (λ copy. copy.items ≡ table.now) }
{
    let mut copy = Vec::new(alloc);
    for kept in table {
        copy.push(copy_of(kept))?;
    }
    Ok(copy)
}

/// What holds, and of no window that it takes.
pub fn begin<A: Allocator + Copy>(alloc: A, holding: &[Kept]) -> Result<There<A>, OutOfMemory>
    ensures kept { IfOk result (λ there. there.kept.items ≡ holding.now) }
    ensures grown { IfOk result (λ there. AreUntold there.grown.items) }
    ensures places { IfOk result (λ there. ArePlaceless there.places.items) }
    // a function's entries stand where its marks do
    ensures grown_count { IfOk result (λ there. length there.grown.items ≡ length holding.now) }
    ensures places_count { IfOk result (λ there. length there.places.items ≡ length holding.now) }
{
    Ok(There {
        kept: copy_all(alloc, holding)?,
        grown: nothing_told(alloc, holding.len())?,
        places: no_places(alloc, holding.len())?,
    })
}
