//! Rows that share no address with each other, into which one more is put where it shares none with them.
ghost use Rattle.std.specs.Prelude.{◌≡◌, ◌≤◌, ◌<◌, IfOk, IfSome, IfNone, false};
ghost use Rattle.pci_kept.specs.ApartRows.{AreApartRows, is_row_free, IsRowGap, IsWithRow};

use crate::rows::{Row, rows_up_to};
use pci_base::memory::OutOfMemory;
use std::alloc::Allocator;

/// Where a row belongs, if it shares no address with one of its key.
fn gap_for(rows: &[Row], row: Row) -> Option<usize>
    requires { AreApartRows rows.now }
    ensures some { IfSome result (IsRowGap rows.now row) }
    ensures none { IfNone result (is_row_free row rows.now ≡ false) }
{
    let index = rows_up_to(rows, row.key, row.range.last);
    if index == 0 {
        return Some(0);
    }
    let before = &rows[index - 1];
    if before.key == row.key && row.range.first <= before.range.last {
        return None;
    }
    Some(index)
}

/// Puts a row where it shares no address with one of its key. The answer is whether that is so.
pub fn put_row<A: Allocator>(rows: &mut Vec<Row, A>, row: Row) -> Result<bool, OutOfMemory>
    // so the one before it alone can share an address with it, which is found by halving
    requires order { AreApartRows rows.old.items }
    // a row without an address would have no place
    requires forward { row.range.first ≤ row.range.last }
    ensures free { IfOk result (λ free. free ≡ is_row_free row rows.old.items) }
    ensures put { IfOk result (λ free. IsWithRow free row rows.old.items rows.new.items) }
    ensures order { AreApartRows rows.new.items }
{
    let Some(index) = gap_for(rows.as_slice(), row) else {
        return Ok(false);
    };
    rows.insert(index, row)?;
    Ok(true)
}
