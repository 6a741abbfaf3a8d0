//! The lists of ranges in which the items of a bus are placed: three of them make a column. The roots, which are placed as one
//! bus, have a column for each bus number; a bus behind a bridge has one alone.
ghost use Rattle.std.specs.Prelude.{◌≡◌, [], ◌∷◌, ◌++◌, IfOk, OnOk, map};
ghost use Rattle.settle_spec.specs.Lists as lists;
ghost use Rattle.pci_base.specs.Space.{space_of};
ghost use Rattle.pci_base.specs.Ranges.{decoded_range_of};
ghost use Rattle.pci_first_fit.specs.Lists.{lists_value, root_range_value};
ghost use Rattle.pci_tree.specs.Roots.{buses_of};
ghost use Rattle.pci_settle_places.specs.Columns.{had, AreColumn, window_range_list, HasRootColumns};

use pci_base::memory::OutOfMemory;
use pci_base::range::{Range, RootRange};
use pci_base::slot::BUSES;
use pci_base::space::Space;
use pci_first_fit::list::{Lists, is_root, ranges_of};
use pci_tree::roots::Roots;
use std::alloc::Allocator;

/// The ranges of a space that the items of a bus can have.
#[derive(Drop)]
pub struct Column<A: Allocator> {
    /// Of I/O, or of memory that isn't prefetchable.
    pub plain: Vec<Range, A>,
    /// The same for what can lie above 4 GB, which can have prefetchable memory too.
    pub wide: Vec<Range, A>,
    /// Of prefetchable memory; I/O has none.
    pub prefetch: Vec<Range, A>,
}

impl<A: Allocator + Copy> Column<A> {
    /// Without any range.
    pub fn empty(alloc: A) -> Column<A> {
        Column {
            plain: Vec::new(alloc),
            wide: Vec::new(alloc),
            prefetch: Vec::new(alloc),
        }
    }
}

/// The ranges of two lists that a root has, those of the first before those of the second.
fn joined<A: Allocator + Copy>(
    alloc: A,
    list: &[RootRange],
    more: &[RootRange],
    bus: u8,
) -> Result<Vec<Range, A>, OutOfMemory>
    ensures { IfOk result (λ ranges. map decoded_range_of ranges.items
        ≡ had bus (map root_range_value list.now) ++ had bus (map root_range_value more.now)) }
{
    let mut ranges = ranges_of(alloc, list, bus)?;
    let further = ranges_of(alloc, more, bus)?;
    ranges.extend_from_slice(further.as_slice())?;
    Ok(ranges)
}

/// The ranges of a root in a space.
pub fn column_of<A: Allocator + Copy>(
    alloc: A,
    space: Space,
    lists: &Lists,
    bus: u8,
) -> Result<Column<A>, OutOfMemory>
    ensures { IfOk result (λ column. AreColumn (lists_value lists.now) (space_of space) bus
        column.plain.items column.wide.items column.prefetch.items) }
{
    match space {
        Space::Io => {
            let plain = ranges_of(alloc, lists.io, bus)?;
            let wide = Vec::new(alloc);
            let prefetch = Vec::new(alloc);
            Ok(Column {
                plain,
                wide,
                prefetch,
            })
        }
        Space::Mem => {
            let plain = ranges_of(alloc, lists.mem, bus)?;
            let wide = joined(alloc, lists.mem, lists.pref, bus)?;
            let prefetch = ranges_of(alloc, lists.pref, bus)?;
            Ok(Column {
                plain,
                wide,
                prefetch,
            })
        }
    }
}

/// A list of one range, or of none.
fn range_list<A: Allocator>(alloc: A, range: Option<Range>) -> Result<Vec<Range, A>, OutOfMemory>
    ensures { IfOk result (λ list. list.items ≡ window_range_list range) }
{
    let mut list = Vec::new(alloc);
    if let Some(range) = range {
        list.push(range)?;
    }
    Ok(list)
}

/// What is behind a bridge can have its windows alone, also where it may lie above 4 GB.
pub fn column_behind<A: Allocator + Copy>(
    alloc: A,
    plain: Option<Range>,
    prefetch: Option<Range>,
) -> Result<Column<A>, OutOfMemory>
    ensures plain { IfOk result (λ column. column.plain.items ≡ window_range_list plain) }
    ensures wide { IfOk result (λ column. column.wide.items ≡ window_range_list plain) }
    ensures prefetch { IfOk result (λ column. column.prefetch.items ≡ window_range_list prefetch) }
{
    let narrow = range_list(alloc, plain)?;
    let wide = range_list(alloc, plain)?;
    let prefetch = range_list(alloc, prefetch)?;
    Ok(Column {
        plain: narrow,
        wide,
        prefetch,
    })
}

/// Adds the lists of a column.
pub fn add_column<A: Allocator>(
    lists: &mut Vec<Vec<Range, A>, A>,
    column: Column<A>,
) -> Result<(), OutOfMemory>
    ensures { OnOk result (map (λ list. list.items) lists.new.items
        ≡ map (λ list. list.items) lists.old.items
        ++ column.plain.items ∷ column.wide.items ∷ column.prefetch.items ∷ []) }
{
    let Column {
        plain,
        wide,
        prefetch,
    } = column;
    lists.push(plain)?;
    lists.push(wide)?;
    lists.push(prefetch)?;
    Ok(())
}

/// A column for each bus: the ranges that it has where it is a root, else none.
pub fn root_lists<A: Allocator + Copy>(
    alloc: A,
    roots: &Roots,
    space: Space,
    lists: &Lists,
) -> Result<Vec<Vec<Range, A>, A>, OutOfMemory>
    ensures { IfOk result (λ all. HasRootColumns (buses_of roots.now) (lists_value lists.now)
        (space_of space) 256 (map (λ list. list.items) all.items)) }
{
    let mut all = Vec::new(alloc);
    for bus in 0..BUSES {
        let bus = bus as u8;
        let column = if is_root(roots, bus) {
            column_of(alloc, space, lists, bus)?
        } else {
            Column::empty(alloc)
        };
        add_column(&mut all, column)?;
    }
    Ok(all)
}
