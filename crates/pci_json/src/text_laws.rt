//! Laws of the lines that stand in a document as they are. These functions do nothing: each contract is a law.

ghost use Rattle.pci_json.specs.TextLaws.{EachFaultHasItsLine, EachOffIsOneObject, RefusalHasItsLine, EachCapabilityHasItsText};

/// Each line of a list of faults is the `text` of one object, in the order of the lines, and no object has another.
pub fn fault_lines_are_texts()
    ensures { EachFaultHasItsLine }
{}

/// Each line of a BAR that is off is one object, in the order of the lines.
pub fn off_lines_are_objects()
    ensures { EachOffIsOneObject }
{}

/// The fault behind `no` is the `text` of its object.
pub fn refusals_are_texts()
    ensures { RefusalHasItsLine }
{}

/// What a capability's line says is the `text` of one object, in the order of the lines, and no object has another.
pub fn capabilities_are_texts()
    ensures { EachCapabilityHasItsText }
{}
