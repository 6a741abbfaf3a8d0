//! The functions of a domain, taken one after the other.
ghost use Rattle.std.specs.Prelude.{◌≡◌, ◌+◌, ◌^◌, ◌<◌, ◌≤◌, ◌++◌, ◌∷◌, [], List, true, cond, length, OnOk, IfErr, IfSome, MatchOption, slice_set};
ghost use Rattle.arrayvec.specs.ArrayVec.{array_vec_len};
ghost use Rattle.pci_spec.specs.Stops.{IsAboveLast, last_slot};
ghost use Rattle.pci_tree.specs.Roots.{buses_of, set_in};
ghost use Rattle.pci_here.specs.Place.{FunctionPlace as PlaceValue};
ghost use Rattle.pci_here.specs.Functions.{IsFunctionReadable, IsNotPut, IsNotTaken};
ghost use Rattle.pci_here.specs.Taken.{AreFunctionsTaken, IsNoneTaken};

use crate::function::{Function, read_function};
use crate::machine::Machine;
use crate::place::Place;
use crate::trouble::Trouble;
use arrayvec::ArrayVec;
use pci_base::slot::BUSES;
use pci_dump::dump::Dump;
use pci_machine::sizes::Sizes;
use pci_tree::roots::Roots;
use std::alloc::Global;

/// What was taken of the functions so far, which rise by slot.
#[derive(Drop)]
pub(crate) struct Functions {
    pub(crate) dump: Dump,
    pub(crate) sizes: Sizes,
    /// Which buses are host buses of them.
    is_root: [bool; BUSES],
    /// How many virtual functions there were.
    pub(crate) left_out: usize,
}

/// Puts a bus behind all that are there, where it is a root bus.
fn add_bus(buses: &mut ArrayVec<u8, BUSES>, bus: usize, is_root: bool)
    requires bus { bus < BUSES }
    requires room { array_vec_len buses.old < BUSES }
    ensures { buses.new.items ≡ buses.old.items ++ cond is_root (bus ∷ []) [] }
{
    if is_root {
        buses.push(bus as u8);
    }
}

impl Functions {
    /// No functions.
    pub(crate) fn none(alloc: Global) -> Functions
        ensures { IsNoneTaken result }
    {
        Functions {
            dump: Dump::empty(alloc),
            sizes: Sizes::empty(alloc),
            is_root: [false; BUSES],
            left_out: 0,
        }
    }

    /// Puts a function behind all that are there.
    fn push(&mut self, function: Function) -> Result<(), Trouble>
        ensures dump { OnOk result (self.new.dump ≡ self.old.dump ++ function.block ∷ []) }
        ensures sizes { OnOk result (self.new.sizes ≡ self.old.sizes ++ function.sizes ∷ []) }
        ensures root { OnOk result (self.new.is_root ≡ slice_set self.old.is_root function.root true) }
        ensures left_out { OnOk result (self.new.left_out ≡ self.old.left_out) }
        ensures above { OnOk result (IsAboveLast (last_slot self.old.dump) function.block.slot) }
        ensures err { IfErr result (IsNotPut self.old.dump self.old.sizes function) }
        // each bus has a flag
        ensures flags { length self.old.is_root ≡ BUSES }
        ensures bus { function.root < BUSES }
    {
        self.dump.push(function.block)?;
        self.sizes.push(function.sizes)?;
        self.is_root[usize::from(function.root)] = true;
        Ok(())
    }

    /// Takes the function at a place, which stands behind all that are there.
    pub(crate) fn take<M: Machine>(
        &mut self,
        alloc: Global,
        machine: &M,
        place: Place,
    ) -> Result<(), Trouble>
        // there are no more virtual functions than places
        requires { self.old.left_out < 2 ^ 63 }
        ensures few { OnOk result (self.new.left_out ≤ self.old.left_out + 1) }
        ensures read { OnOk result (IfSome (M.shown machine.now) (λ m. IsFunctionReadable m place)) }
        ensures err { IfErr result (λ t. IfSome (M.shown machine.now) (λ m. (places : List PlaceValue)
            → AreFunctionsTaken m places self.old → IsNotTaken m places place t)) }
        ensures taken { OnOk result (IfSome (M.shown machine.now) (λ m. (places : List PlaceValue)
            → AreFunctionsTaken m places self.old → AreFunctionsTaken m (places ++ place ∷ []) self.new)) }
    {
        match read_function(alloc, machine, place)? {
            Some(function) => {
                self.push(function)?;
                Ok(())
            }
            None => {
                self.left_out += 1;
                Ok(())
            }
        }
    }

    /// The root buses: the host buses of all functions. There are none where there is no function.
    pub(crate) fn roots(&self) -> Option<Roots>
        ensures { MatchOption result (set_in self.now.is_root ≡ [])
            (λ roots. buses_of roots ≡ set_in self.now.is_root) }
    {
        let mut buses: ArrayVec<u8, BUSES> = ArrayVec::new();
        for bus in 0..BUSES {
            add_bus(&mut buses, bus, self.is_root[bus]);
        }
        Roots::of(buses.as_slice())
    }
}
