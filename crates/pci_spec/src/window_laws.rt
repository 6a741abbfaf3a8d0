//! Laws of the address windows of a bridge (Bridge 1.2, 3.2.5, and chapter 4). These functions do nothing: each contract is a law.

ghost use Rattle.pci_spec.specs.WindowLaws.{WindowHoldsItsPages, WindowHoldsWholePages, OpenWindowHoldsItsEnds, ClosedWindowHoldsNothing, AbsentWindowHoldsNothing, IoWindowEnds, MemoryWindowEnds, PrefetchWindowEnds, WindowStaysInSpace, NarrowWindowStaysLow, MemoryWindowIsThere};

/// A window holds whole pages, from the first address of its base's page to the last of its limit's,
/// and nothing where its base is above its limit or where it isn't there.
pub fn windows_hold_pages()
    ensures pages { WindowHoldsItsPages }
    ensures whole { WindowHoldsWholePages }
    ensures ends { OpenWindowHoldsItsEnds }
    ensures closed { ClosedWindowHoldsNothing }
    ensures absent { AbsentWindowHoldsNothing }
{}

/// The first and the last address of each window, by its registers.
pub fn windows_end_by_their_registers()
    ensures io { IoWindowEnds }
    ensures memory { MemoryWindowEnds }
    ensures prefetch { PrefetchWindowEnds }
{}

/// A window holds no address that its registers cannot show, and only low ones where it has no upper
/// halves. A memory window has none, and is always there.
pub fn windows_stay_in_space()
    ensures space { WindowStaysInSpace }
    ensures narrow { NarrowWindowStaysLow }
    ensures memory { MemoryWindowIsThere }
{}
