//! Ranges as rows by bus and space, among which those are found by halving that keep a range off.
ghost use Rattle.std.specs.Prelude.{◌≡◌, ◌≤◌, ◌<◌, ◌⊎◌, IfOk, length};
ghost use Rattle.std.specs.List.{AllWithin};
ghost use Rattle.pci_kept.specs.Rows.{AreRows, rows_keep_off, AreReaches, later, row_reach, reach_with, reaches_to};

use pci_base::memory::OutOfMemory;
use pci_base::range::Range;
use std::alloc::Allocator;

/// A range by its bus and space.
#[derive(Clone, Copy, Debug)]
pub struct Row {
    /// Twice the level of the bus, and one more in memory.
    pub key: u32,
    /// The number of a slot, of which the row keeps nothing off; 65536 where it is nobody's.
    pub owner: u32,
    pub range: Range,
}

/// How far the rows up to one reach that are of its key.
#[derive(Clone, Copy, Debug)]
pub struct Reach {
    /// The owner of a row that ends last.
    pub owner: u32,
    /// Where it ends.
    pub last: u64,
    /// Where the last of all others ends.
    pub others: Option<u64>,
}

/// Rows by rising keys and first addresses, with how far those up to each reach.
#[derive(Clone, Copy)]
pub struct Rows<'a> {
    pub rows: &'a [Row],
    pub reaches: &'a [Reach],
}

/// How many rows are of a lower key, or of this one and begin up to an address.
pub fn rows_up_to(rows: &[Row], key: u32, address: u64) -> usize
    requires { AreRows rows.now }
    ensures bound { result ≤ length rows.now }
    ensures before { AllWithin (λ r. (r.key < key) ⊎ ((r.key ≡ key) × (r.range.first ≤ address))) rows.now 0 result }
    ensures after { AllWithin (λ r. (key < r.key) ⊎ ((r.key ≡ key) × (address < r.range.first))) rows.now result (length rows.now) }
{
    rows.partition_point(|r| r.key < key || (r.key == key && r.range.first <= address))
}

/// The greater one.
fn later(one: u64, other: u64) -> u64
    ensures { result ≡ later one other }
{
    if one < other { other } else { one }
}

impl Reach {
    /// That of one row.
    fn of(row: &Row) -> Reach
        ensures { result ≡ row_reach row.now }
    {
        Reach {
            owner: row.owner,
            last: row.range.last,
            others: None,
        }
    }

    /// With one more row.
    fn with(self, row: &Row) -> Reach
        ensures { result ≡ reach_with self row.now }
    {
        let last = row.range.last;
        if row.owner == self.owner {
            Reach {
                last: later(self.last, last),
                ..self
            }
        } else if self.last < last {
            Reach {
                owner: row.owner,
                last,
                others: Some(self.last),
            }
        } else {
            let others = match self.others {
                None => last,
                Some(other) => later(other, last),
            };
            Reach {
                others: Some(others),
                ..self
            }
        }
    }

    /// Whether a row that isn't of an owner ends at an address or above it.
    fn is_up_to(self, owner: u32, address: u64) -> bool
        ensures { result ≡ reaches_to self owner address }
    {
        if self.owner != owner {
            return address <= self.last;
        }
        match self.others {
            None => false,
            Some(other) => address <= other,
        }
    }
}

/// How far the rows up to each one reach.
pub fn reaches<A: Allocator>(alloc: A, rows: &[Row]) -> Result<Vec<Reach, A>, OutOfMemory>
    ensures { IfOk result (λ reaches. AreRows rows.now → AreReaches rows.now reaches.items) }
{
    let mut reaches: Vec<Reach, A> = Vec::new(alloc);
    for index in 0..rows.len() {
        let row = &rows[index];
        let reach = if 0 < index && rows[index - 1].key == row.key {
            reaches[index - 1].with(row)
        } else {
            Reach::of(row)
        };
        reaches.push(reach)?;
    }
    Ok(reaches)
}

/// Whether a row of a key keeps off a range, and isn't of an owner.
pub fn keep_off(rows: &Rows, key: u32, owner: u32, range: Range) -> bool
    requires order { AreRows rows.now.rows.now }
    requires reach { AreReaches rows.now.rows.now rows.now.reaches.now }
    ensures { result ≡ rows_keep_off rows.now.rows.now key owner range }
{
    let count = rows_up_to(rows.rows, key, range.last);
    if count == 0 || rows.rows[count - 1].key != key {
        return false;
    }
    rows.reaches[count - 1].is_up_to(owner, range.first)
}
