//! A machine in memory: functions whose registers are read and written as hardware would.
ghost use Rattle.std.specs.Prelude.{◌≡◌, ◌<◌, ℕ, List, map, All, IsTrue, IsFalse, IfSome, IfOk, OnOk, IfErr, MatchOption, MatchResult, Some, slice_get, length};
ghost use Rattle.pci_spec.specs.System.{system_of};
ghost use Rattle.pci_spec.specs.Decoded.{IsDecodable};
ghost use Rattle.pci_tree.specs.Pair.{IsPair};
ghost use Rattle.pci_machine.specs.Made.{IsOfMachine, IsMachineFaultThere, IsMachineFaultFirst};
ghost use Rattle.pci_spec.specs.Sizing.{function_at, IsSizable};
ghost use Rattle.pci_spec.specs.Machine.{Target, target_of, sized, write_targets};
ghost use Rattle.std.specs.Option.{option_map};
ghost use Rattle.pci_machine.specs.Memory.{pin_targets};
ghost use Rattle.pci_spec.specs.Port.{has_function, target_at, IsLawful};

use crate::access::{fits, is_access};
use crate::function::registers_of;
use crate::port::{ConfigPort, PortError};
use crate::registers::ConfigSpace;
use pci_base::image::Image;
use pci_base::memory::Refused;
use pci_base::slot::Slot;
use pci_dump::dump::Dump;
use pci_function::fault::{Fault, PairFault};
use pci_tree::pair::pair;
use std::alloc::{Allocator, Global};
use std::marker::Model;

/// Functions in memory.
#[derive(Drop)]
pub struct Machine<A: Allocator = Global> {
    functions: Vec<ConfigSpace, A>,
    // The index of the function of the last access: mostly the next access is to it too.
    last: usize,
}

impl<A: Allocator> Model for Machine<A> {
    ghost use Rattle.std.specs.Prelude.{List};
    ghost use Rattle.pci_spec.specs.Machine.{Target};
    ghost use Rattle.pci_machine.specs.Memory.{IsMachine};

    ghost Value = { List Target };

    ghost view = { λ m. m.functions.items };

    ghost invariant = { λ m. IsMachine m.functions.items };
}

impl<A: Allocator> Machine<A> {
    /// The machine of a dump, whose registers read back as the probe has it. It takes memory from
    /// `alloc` for its functions.
    ///
    /// # Errors
    ///
    /// 30, then by function 20, 21 and 31, as [`pair`]; then by function 22 to 26: the first that is
    /// there. `Memory` where a growth was refused.
    pub fn of<B: Allocator, C: Allocator>(
        alloc: A,
        dump: &Dump<B>,
        probe: &Dump<C>,
    ) -> Result<Machine<A>, Refused<PairFault>>
        ensures machine { IfOk result
            (λ machine. machine ≡ map target_of (system_of dump.now probe.now)) }
        // so that a caller need not look at both texts again
        ensures pair { OnOk result ((roots : List ℕ) → IsPair roots dump.now probe.now) }
        ensures decodable { OnOk result (All IsDecodable (system_of dump.now probe.now)) }
        // sizing finds the probe again that the machine was made of
        ensures read_backs { IfOk result (λ machine. All
            (λ f. sized (function_at machine f.slot) ≡ f.probe) (system_of dump.now probe.now)) }
        ensures sizable { IfOk result
            (λ machine. All (λ f. IsSizable machine f.slot) (system_of dump.now probe.now)) }
        // never 27 to 29: a machine is made of the header's registers alone
        ensures kind { IfErr result IsOfMachine }
        ensures fault { IfErr result (IsMachineFaultThere dump.now probe.now) }
        // but for faults of capabilities lists, which aren't looked for here
        ensures first { IfErr result (IsMachineFaultFirst dump.now probe.now) }
    {
        match pair(dump, probe) {
            Ok(()) => {}
            Err(fault) => return Err(Refused::Fault(fault)),
        }
        let blocks = dump.blocks();
        let probes = probe.blocks();
        let mut functions = Vec::new(alloc);
        for i in 0..blocks.len() {
            let block = &blocks[i];
            let read_backs = &probes[i];
            match registers_of(block.slot, &block.image, &read_backs.image) {
                Ok(registers) => functions.push(registers)?,
                Err(fault) => {
                    return Err(Refused::Fault(Fault::of_image(block.slot, fault)));
                }
            }
        }
        Ok(Machine { functions, last: 0 })
    }

    /// The configuration space of the function at a slot, as it is now.
    pub fn image(&self, slot: Slot) -> Option<&Image>
        ensures { option_map (λ image. image.now.0) result
            ≡ option_map (λ t. t.image) (target_at self.now slot) }
    {
        match self.index_of(slot) {
            Some(index) => Some(&self.functions[index].image),
            None => None,
        }
    }

    /// Makes the bits of a mask, in the byte at an offset of the function at a slot, unwritable.
    /// Whether there is such a function.
    pub fn pin(&mut self, slot: Slot, off: u8, mask: u8) -> bool
        ensures there { result ≡ has_function self.old slot }
        ensures pinned { self.new ≡ pin_targets self.old slot off mask }
    {
        match self.index_of(slot) {
            Some(index) => {
                let registers = &mut self.functions[index];
                registers.pin(off, mask);
                true
            }
            None => false,
        }
    }

    /// The index of the function at a slot.
    fn index_of(&self, slot: Slot) -> Option<usize>
        ensures there { MatchOption result (IsFalse (has_function self.now slot))
            (λ _. IsTrue (has_function self.now slot)) }
        ensures within { IfSome result (λ i. i < length self.now) }
        ensures lawful { IsLawful self.now }
        ensures found { IfSome result (λ i. (t : Target) × (slice_get self.now i ≡ Some t)
            × (target_at self.now slot ≡ Some t)) }
    {
        let last = self.last;
        if last < self.functions.len() && self.functions[last].is_at(slot) {
            return Some(last);
        }
        let number = slot.number();
        let index = self
            .functions
            .partition_point(|function| function.is_below(number));
        if index < self.functions.len() && self.functions[index].is_at(slot) {
            Some(index)
        } else {
            None
        }
    }
}

impl<A: Allocator> ConfigPort for Machine<A> {
    ghost targets = { λ m. m };

    ghost failures = { λ _. 0 };

    ghost reads = { λ before _ _ _ _ after. after ≡ before };

    ghost writes = { λ before write answer after. MatchResult answer
        (λ _. after ≡ write_targets before write) (λ _. after ≡ before) };

    fn read(&mut self, slot: Slot, off: u8, width: u8) -> Result<u32, PortError> {
        let Some(index) = self.index_of(slot) else {
            return Err(PortError::NoFunction);
        };
        if !is_access(off, width) {
            return Err(PortError::BadAccess);
        }
        self.last = index;
        let registers = &self.functions[index];
        Ok(registers.number(off, width))
    }

    fn write(&mut self, slot: Slot, off: u8, width: u8, value: u32) -> Result<(), PortError> {
        let Some(index) = self.index_of(slot) else {
            return Err(PortError::NoFunction);
        };
        if !is_access(off, width) || !fits(width, value) {
            return Err(PortError::BadAccess);
        }
        self.last = index;
        let registers = &mut self.functions[index];
        registers.write(off, width, value);
        Ok(())
    }
}
