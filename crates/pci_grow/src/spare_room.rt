//! What is there with the room that is kept free so far.
ghost use Rattle.std.specs.Prelude.{◌≡◌, ◌<◌, ℕ, false, OnOk, length, slice_index_or};
ghost use Rattle.pci_grow.specs.Board.{room_value, told_then, IsRoom, IsEnded, IsWindowOpened};
ghost use Rattle.pci_grow.specs.RoomRows.{row_at};
ghost use Rattle.pci_first_fit.specs.Spots.{FirstsRise};

use crate::board::BridgeWindow;
use crate::row::{add, end_later, lasts_rise, note};
use pci_base::memory::OutOfMemory;
use pci_base::range::Range;
use pci_first_fit::table::{WindowRanges, tell, told_of};
use std::alloc::Allocator;

/// What is there, and the windows in which room is kept free.
#[derive(Drop)]
pub struct Room<A: Allocator> {
    /// What lists are allocated by where room is looked for.
    pub alloc: A,
    /// By function, what each window has by a wish; None of one that no wish changed.
    pub wished: Vec<WindowRanges, A>,
    /// Row by row the addresses of what is there, by rising first addresses.
    pub rows: Vec<Vec<Range, A>, A>,
    /// Of which rows it is known that last addresses rise, too.
    pub rising: Vec<bool, A>,
}

impl<A: Allocator> Room<A> {
    /// The addresses of a window; None of one that is closed. `windows` tells them by function without any wish.
    pub fn range_of(&self, windows: &[WindowRanges], window: BridgeWindow) -> Option<Range>
        ensures { result ≡ told_then windows.now (room_value self.now) window }
    {
        match told_of(self.wished.as_slice(), window.bridge, window.class) {
            Some(range) => Some(range),
            None => told_of(windows, window.bridge, window.class),
        }
    }

    /// The addresses of what is there in a row.
    pub fn row(&self, row: usize) -> &[Range]
        requires { row < length (room_value self.now).rows }
        ensures { result.now ≡ row_at (room_value self.now).rows row }
    {
        self.rows[row].as_slice()
    }

    /// Whether last addresses are known to rise in a row.
    pub fn lasts_rise(&self, row: usize) -> bool
        ensures { result ≡ slice_index_or (room_value self.now).rising row false }
    {
        match self.rising.get(row) {
            Some(rising) => *rising,
            None => false,
        }
    }

    /// Lets a window end later, which is in a row.
    pub fn end_later(&mut self, window: BridgeWindow, row: usize, range: Range, last: u64)
        requires window { window.bridge < length (room_value self.old).wished }
        requires row { row < length (room_value self.old).rows }
        ensures ended { IsEnded (room_value self.old) (room_value self.new) window row range last }
        ensures room { (functions : ℕ) → IsRoom functions (room_value self.old) → IsRoom functions (room_value self.new) }
    {
        let rising = end_later(self.rows[row].as_mut_slice(), range, last);
        note(&mut self.rising, row, rising);
        let first = range.first;
        tell(
            self.wished.as_mut_slice(),
            window.bridge,
            window.class,
            Some(Range { first, last }),
        );
    }

    /// Opens a window, which comes to a row.
    pub fn open(
        &mut self,
        window: BridgeWindow,
        row: usize,
        range: Range,
    ) -> Result<(), OutOfMemory>
        requires order { (row : ℕ) → FirstsRise (row_at (room_value self.old).rows row) }
        requires window { window.bridge < length (room_value self.old).wished }
        requires row { row < length (room_value self.old).rows }
        ensures opened { OnOk result (IsWindowOpened (room_value self.old) (room_value self.new) window row range) }
        ensures room { (functions : ℕ) → IsRoom functions (room_value self.old) → IsRoom functions (room_value self.new) }
    {
        add(&mut self.rows[row], range)?;
        let rising = lasts_rise(self.rows[row].as_slice());
        note(&mut self.rising, row, rising);
        tell(
            self.wished.as_mut_slice(),
            window.bridge,
            window.class,
            Some(range),
        );
        Ok(())
    }
}
