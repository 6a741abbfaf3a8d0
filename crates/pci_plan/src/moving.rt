//! What can be put onto a machine: writes that lead from what it holds to a sound dump.
ghost use Rattle.std.specs.Prelude.{◌≡◌, map};
ghost use Rattle.pci_plan.specs.Writes.{write_value};

use super::write::Write;
use pci_dump::block::Block;
use pci_tree::admitted::Admitted;
use std::alloc::{Allocator, Global};
use std::marker::Model;

/// Writes of Command and address registers, with the admitted dump that they start from and the dump that they lead to.
#[derive(Drop)]
pub struct Move<'a, A: Allocator = Global> {
    start: &'a Admitted<A>,
    dump: &'a [Block],
    writes: &'a [Write],
    safe_from: usize,
}

impl<'a, A: Allocator> Model for Move<'a, A> {
    ghost use Rattle.std.specs.Prelude.{map};
    ghost use Rattle.pci_plan.specs.Plans.{PlanValue};
    ghost use Rattle.pci_plan.specs.Moves.{IsMove};
    ghost use Rattle.pci_plan.specs.Writes.{write_value};

    ghost Value = { PlanValue };

    ghost view = { λ m. record {
      start = m.start.now;
      dump = m.dump.now;
      writes = map write_value m.writes.now;
      safe_from = m.safe_from;
    } };

    ghost invariant = { λ m. IsMove record {
      start = m.start.now;
      dump = m.dump.now;
      writes = map write_value m.writes.now;
      safe_from = m.safe_from;
    } };
}

impl<'a, A: Allocator> Move<'a, A> {
    ghost use Rattle.std.specs.Prelude.{map};
    ghost use Rattle.pci_spec.specs.Sound.{IsSound};
    ghost use Rattle.pci_spec.specs.Machine.{system_after};
    ghost use Rattle.pci_place.specs.Above.{system_in};
    ghost use Rattle.pci_plan.specs.Plans.{PlanValue, final_of};
    ghost use Rattle.pci_plan.specs.Moves.{IsMove};

    /// The move of these parts.
    pub fn of(
        start: &'a Admitted<A>,
        dump: &'a [Block],
        writes: &'a [Write],
        safe_from: usize,
    ) -> Move<'a, A>
        requires { IsMove record {
          start = start.now;
          dump = dump.now;
          writes = map write_value writes.now;
          safe_from = safe_from;
        } }
        ensures { result ≡ record {
          start = start.entry.now;
          dump = dump.entry.now;
          writes = map write_value writes.entry.now;
          safe_from = safe_from;
        } }
    {
        Move {
            start,
            dump,
            writes,
            safe_from,
        }
    }

    /// The dump and the probe that the writes start from.
    pub fn start(&self) -> &'a Admitted<A>
        ensures value { result.now ≡ self.now.start }
        // all that holds of each move, for whoever puts it onto a machine
        ensures moves { IsMove self.now }
    {
        self.start
    }

    /// The dump after all writes: with the probe it makes a sound system.
    pub fn dump(&self) -> &'a [Block]
        ensures value { result.now ≡ self.now.dump }
        ensures sound { IsSound self.now.start.roots (final_of self.now) }
    {
        self.dump
    }

    /// The writes in order.
    pub fn writes(&self) -> &'a [Write]
        ensures value { map write_value result.now ≡ self.now.writes }
        // what the writes make and what `dump` shows is one and the same
        ensures reached { system_after (system_in self.now.start) self.now.writes
            ≡ final_of self.now }
    {
        self.writes
    }

    /// From how many writes on a stop leaves a sound system, whatever the start. From a sound start each stop does.
    pub fn safe_from(&self) -> usize
        ensures { result ≡ self.now.safe_from }
    {
        self.safe_from
    }
}
