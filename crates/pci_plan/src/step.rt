//! The accesses by which a plan is put onto a machine.
ghost use Rattle.std.specs.Prelude.{◌≡◌, ◌≤◌, ◌+◌, map, length, slice_get, IfSome, IfNone};
ghost use Rattle.std.specs.Option.{option_map};
ghost use Rattle.pci_plan.specs.Writes.{write_value};
ghost use Rattle.pci_plan.specs.Steps.{steps_of};
ghost use Rattle.pci_plan.specs.Places.{IsPlaceOfStep};
ghost use Rattle.pci_plan.specs.Going.{code_step};

use super::write::Write;

/// What an access is for.
#[derive(Clone, Copy, Debug, PartialEq, Eq)]
pub enum Kind {
    /// A register is read, and is to show its number.
    Compare,
    /// A register is written.
    Make,
    /// A register that was just written is read, and is to show what was written.
    ReadBack,
}

/// An access: what it is for, the register with the number that it is to show or to take, and how many writes stand where
/// it is the last one.
#[derive(Clone, Copy, Debug, PartialEq, Eq)]
pub struct Step {
    pub kind: Kind,
    pub register: Write,
    pub done: usize,
}

/// Which register of those that are compared, or which write, an access is for.
#[derive(Clone, Copy, Debug, PartialEq, Eq)]
pub enum Place {
    Compare(usize),
    Make(usize),
    ReadBack(usize),
}

/// What the n-th access, from 0 on, is for, of so many registers and so many writes: each register is compared, then
/// each write is made and read back. `None` where there are no more.
pub fn place_at(compares: usize, writes: usize, n: usize) -> Option<Place>
    ensures some { IfSome result (IsPlaceOfStep compares writes n) }
    ensures none { IfNone result (compares + (writes + writes) ≤ n) }
{
    if n < compares {
        return Some(Place::Compare(n));
    }
    let past = n - compares;
    let index = past / 2;
    if writes <= index {
        None
    } else if past % 2 == 0 {
        Some(Place::Make(index))
    } else {
        Some(Place::ReadBack(index))
    }
}

/// The n-th access, from 0 on. `None` where there are no more.
pub fn step_at(compares: &[Write], writes: &[Write], n: usize) -> Option<Step>
    ensures { option_map code_step result
        ≡ slice_get (steps_of (map write_value compares.now) (map write_value writes.now)) n }
{
    match place_at(compares.len(), writes.len(), n) {
        None => None,
        Some(Place::Compare(index)) => Some(Step {
            kind: Kind::Compare,
            register: compares[index],
            done: 0,
        }),
        Some(Place::Make(index)) => Some(Step {
            kind: Kind::Make,
            register: writes[index],
            done: index,
        }),
        Some(Place::ReadBack(index)) => Some(Step {
            kind: Kind::ReadBack,
            register: writes[index],
            done: index + 1,
        }),
    }
}

/// How many accesses there are.
pub fn count(compares: &[Write], writes: &[Write]) -> usize
    ensures { result
        ≡ length (steps_of (map write_value compares.now) (map write_value writes.now)) }
{
    compares.len() + 2 * writes.len()
}
