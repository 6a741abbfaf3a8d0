//! The accesses by which a plan is put onto a machine, as C makes them.
ghost use Rattle.std.specs.Prelude.{◌≡◌, map};
ghost use Rattle.std.specs.List.{slice_get};
ghost use Rattle.std.specs.Option.{option_map};
ghost use Rattle.pci_plan.specs.Steps.{judged, steps_of};
ghost use Rattle.pciplan_c.specs.RegisterWrites.{write_value_of};
ghost use Rattle.pciplan_c.specs.Stepping.{answer_number, answer_by_number, c_step_value};

use crate::register_write::RegisterWrite;
use pci_plan::step::{Place, place_at};

/// A register is read, and is to show its value.
pub const COMPARE: u8 = 0;
/// A register is written.
pub const MAKE: u8 = 1;
/// A register that was just written is read, and is to show what was written.
pub const READ_BACK: u8 = 2;

/// An access: its kind, the register with the value that it is to show or to take, and how many writes stand where it is
/// the last one.
#[repr(C)]
#[derive(Clone, Copy, Debug, PartialEq, Eq)]
pub struct RegisterStep {
    pub register: RegisterWrite,
    pub done: usize,
    pub kind: u8,
}

/// The n-th access, from 0 on: each register is compared, then each write is made and read back. `None` where there are
/// no more.
pub fn step_at(
    compares: &[RegisterWrite],
    writes: &[RegisterWrite],
    n: usize,
) -> Option<RegisterStep>
    ensures { option_map c_step_value result
        ≡ slice_get (steps_of (map write_value_of compares.now) (map write_value_of writes.now)) n }
{
    match place_at(compares.len(), writes.len(), n) {
        None => None,
        Some(Place::Compare(index)) => Some(RegisterStep {
            register: compares[index],
            done: 0,
            kind: COMPARE,
        }),
        Some(Place::Make(index)) => Some(RegisterStep {
            register: writes[index],
            done: index,
            kind: MAKE,
        }),
        Some(Place::ReadBack(index)) => Some(RegisterStep {
            register: writes[index],
            done: index + 1,
            kind: READ_BACK,
        }),
    }
}

/// What follows from an access that showed a value, or failed: 0 where the next one is to be made, else the number of
/// the fault that ends it, 80 to 82.
pub fn judge(step: &RegisterStep, shown: Option<u32>) -> u8
    ensures number { result ≡ answer_number (judged (c_step_value step.now) shown) }
    ensures says { answer_by_number (c_step_value step.now) result ≡ judged (c_step_value step.now) shown }
{
    let Some(shown) = shown else {
        return 81;
    };
    if step.kind == MAKE || shown == step.register.value {
        0
    } else if step.kind == COMPARE {
        80
    } else {
        82
    }
}
