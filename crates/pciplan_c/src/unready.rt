//! What stands in the way of judging two texts with what is told.
ghost use Rattle.std.specs.Prelude.{Some};
ghost use Rattle.pciplan_c.specs.ToldTexts.{unready_text};

use pci_base::slot::Slot;
use pci_function::fault::Fault;
use std::fmt;

/// A fault that is looked for before judging, with what is told.
#[derive(Clone, Copy, Debug, PartialEq, Eq)]
pub enum Unready {
    /// 34: a `command` or an `always` range names a slot that isn't listed.
    NotListed(Slot),
    /// 20 to 31, and 50 to 58, of which 58 counts the slots of held ranges.
    Early(Fault),
}

/// The fault's number, name and fields.
impl fmt::Display for Unready {
    ghost output = { λ u. Some (unready_text u) };

    fn fmt<W: fmt::Write>(&self, f: &mut fmt::Formatter<W>) -> fmt::Result {
        match *self {
            Unready::NotListed(slot) => write!(f, "34 NotListed {slot}"),
            Unready::Early(fault) => write!(f, "{fault}"),
        }
    }
}
