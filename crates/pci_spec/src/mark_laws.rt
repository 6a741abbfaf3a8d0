//! Laws of titles that name assumed registers. This function does nothing: its contract is a law.

ghost use Rattle.pci_spec.specs.MarkLaws.{MarkNames, NamedIsMark, MarkIsTitle};

/// A title that is written for registers names just these, and no other title names them.
pub fn titles_name_registers()
    ensures names { MarkNames }
    ensures only { NamedIsMark }
    ensures title { MarkIsTitle }
{}
