//! Why nothing is planned.
ghost use Rattle.std.specs.Prelude.{◌≡◌, Some};
ghost use Rattle.plan_spec.specs.Plan.{plan_fault_number};
ghost use Rattle.plan_spec.specs.PlanLine.{plan_fault_text};

use pci_base::slot::Slot;
use pci_base::window_kind::WindowKind;
use pci_function::fault::Fault;
use std::fmt;

/// Why nothing is planned.
#[derive(Clone, Copy, Debug, PartialEq, Eq)]
pub enum PlanFault {
    /// 70: a pool is backward or too high, or a memory address is in two pools.
    BadPools,
    /// 71: an I/O BAR of the function at the slot is behind a bridge without an I/O window.
    NoWindow(Slot),
    /// 72: what is of the class doesn't fit its pool.
    NoRoom(WindowKind),
    /// 73: the plan itself isn't sound. It never comes, as a law says that each is.
    NotAccepted(Fault),
}

impl PlanFault {
    ghost use Rattle.pci_plan.specs.Plans.{plan_fault_of};

    /// The fault's number, 70 to 73.
    pub fn number(&self) -> u8
        ensures { result ≡ plan_fault_number (plan_fault_of self.now) }
    {
        match self {
            PlanFault::BadPools => 70,
            PlanFault::NoWindow(_) => 71,
            PlanFault::NoRoom(_) => 72,
            PlanFault::NotAccepted(_) => 73,
        }
    }
}

/// The fault's number, its name and what it names.
impl fmt::Display for PlanFault {
    ghost use Rattle.pci_plan.specs.Plans.{plan_fault_of};

    ghost output = { λ f. Some (plan_fault_text (plan_fault_of f)) };

    fn fmt<W: fmt::Write>(&self, f: &mut fmt::Formatter<W>) -> fmt::Result {
        match *self {
            PlanFault::BadPools => write!(f, "70 BadPools"),
            PlanFault::NoWindow(slot) => write!(f, "71 NoWindow {slot}"),
            PlanFault::NoRoom(class) => {
                let name = class.name();
                write!(f, "72 NoRoom {name}")
            }
            PlanFault::NotAccepted(fault) => write!(f, "73 NotAccepted {fault}"),
        }
    }
}
