//! Laws of a region that is moved to where it fits. These functions do nothing: each contract is a law.

ghost use Rattle.judge_spec.specs.Moved.{NoFaultWhereItFits, NoFaultOfOthers, NoPlainFaultWhereItFits, WrittenIsMoved};

/// A BAR or an expansion ROM that is moved to where it fits has no fault of its own any more, and other regions have no
/// new one.
pub fn what_fits_has_no_fault()
    ensures given { NoFaultWhereItFits }
    ensures others { NoFaultOfOthers }
    ensures plain { NoPlainFaultWhereItFits }
{}

/// Writes of the register of a BAR or an expansion ROM move it, and change nothing else.
pub fn what_is_written_is_moved()
    ensures { WrittenIsMoved }
{}
