//! A plan: the planned dump, and the writes that lead there.
ghost use Rattle.std.specs.Prelude.{◌≡◌, map};
ghost use Rattle.pci_plan.specs.Writes.{write_value};

use super::moving::Move;
use super::write::Write;
use pci_dump::dump::Dump;
use pci_tree::admitted::Admitted;
use std::alloc::{Allocator, Global};
use std::marker::Model;

/// A plan of an admitted dump.
#[derive(Drop)]
pub struct Plan<'a, A: Allocator = Global> {
    start: &'a Admitted<A>,
    dump: Dump<A>,
    writes: Vec<Write, A>,
    safe_from: usize,
}

impl<'a, A: Allocator> Model for Plan<'a, A> {
    ghost use Rattle.std.specs.Prelude.{map};
    ghost use Rattle.pci_plan.specs.Plans.{PlanValue, IsPlanValue};
    ghost use Rattle.pci_plan.specs.Writes.{write_value};

    ghost Value = { PlanValue };

    ghost view = { λ p. record {
      start = p.start.now;
      dump = p.dump;
      writes = map write_value p.writes.items;
      safe_from = p.safe_from;
    } };

    ghost invariant = { λ p. IsPlanValue record {
      start = p.start.now;
      dump = p.dump;
      writes = map write_value p.writes.items;
      safe_from = p.safe_from;
    } };
}

impl<'a, A: Allocator> Plan<'a, A> {
    ghost use Rattle.std.specs.Prelude.{◌≤◌, length, map};
    ghost use Rattle.std.specs.List.{sum};
    ghost use Rattle.pci_spec.specs.Sound.{IsSound};
    ghost use Rattle.pci_spec.specs.System.{IsSystem};
    ghost use Rattle.pci_spec.specs.Machine.{system_after};
    ghost use Rattle.plan_spec.specs.PlanPromise.{changes_between, IsSafeFrom, StopsSafely, EachWriteChanges, with_rom_on};
    ghost use Rattle.plan_spec.specs.Planning.PlanWrites.{closing_writes, plan_writes, most_writes};
    ghost use Rattle.pci_spec.specs.Text.{slots_of};
    ghost use Rattle.pci_place.specs.Above.{system_in};
    ghost use Rattle.pci_plan.specs.Plans.{PlanValue, IsPlanValue, final_of};

    /// The plan of these parts.
    pub(crate) fn of(
        start: &'a Admitted<A>,
        dump: Dump<A>,
        writes: Vec<Write, A>,
        safe_from: usize,
    ) -> Plan<'a, A>
        requires { IsPlanValue record {
          start = start.now;
          dump = dump;
          writes = map write_value writes.items;
          safe_from = safe_from;
        } }
        ensures { result ≡ record {
          start = start.entry.now;
          dump = dump;
          writes = map write_value writes.items;
          safe_from = safe_from;
        } }
    {
        Plan {
            start,
            dump,
            writes,
            safe_from,
        }
    }

    /// The dump and the probe that were planned for.
    pub fn start(&self) -> &'a Admitted<A>
        ensures value { result.now ≡ self.now.start }
        // all that holds of each plan, for whoever hasn't the pools that it was made in
        ensures plan { IsPlanValue self.now }
    {
        self.start
    }

    /// The plan as `apply` takes it.
    pub fn as_move(&self) -> Move<'_, A>
        ensures { result ≡ self.now }
    {
        Move::of(
            self.start(),
            self.dump().blocks(),
            self.writes(),
            self.safe_from(),
        )
    }

    /// The dump after all writes: with the probe it makes a sound system, also where ROMs are switched on.
    pub fn dump(&self) -> &Dump<A>
        ensures value { result.now ≡ self.now.dump }
        // by it the planned dump goes with the old probe
        ensures slots { slots_of self.now.dump ≡ slots_of self.now.start.dump }
        ensures system { IsSystem (final_of self.now) }
        ensures sound { IsSound self.now.start.roots (final_of self.now) }
        // a ROM is switched on when it is read, perhaps long after, and mustn't clash then
        ensures roms { IsSound self.now.start.roots (map with_rom_on (final_of self.now)) }
    {
        &self.dump
    }

    /// Gives up the plan for the dump after all writes.
    pub fn into_dump(self) -> Dump<A>
        ensures { result ≡ self.entry.dump }
    {
        self.dump
    }

    /// The register writes in order: everything that is on is closed from the highest slot down, then registers are set,
    /// then functions are opened from the lowest slot up. They may stop anywhere from `safe_from` on.
    pub fn writes(&self) -> &[Write]
        ensures value { map write_value result.now ≡ self.now.writes }
        // from it printing learns that each write is of a whole register, of 2 or 4 bytes
        ensures exact { self.now.writes
            ≡ plan_writes (changes_between (system_in self.now.start) (final_of self.now)) }
        // a machine may lose its port half way, and is to work on all the same
        ensures stops { StopsSafely self.now.start.roots
            (system_in self.now.start) self.now.writes self.now.safe_from }
        // what the writes make and what `dump` shows is one and the same
        ensures reached { system_after (system_in self.now.start) self.now.writes
            ≡ final_of self.now }
        // each access may fail, so none is made for nothing
        ensures changes { EachWriteChanges (system_in self.now.start) self.now.writes }
        // 9 for a device and 11 for a bridge at most: how long a plan may get is known before
        ensures few { length self.now.writes
            ≤ sum
            (map most_writes (changes_between (system_in self.now.start) (final_of self.now))) }
    {
        self.writes.as_slice()
    }

    /// From how many writes on a stop leaves a sound system: 0 exactly where the start is sound, else the number of
    /// closing writes.
    pub fn safe_from(&self) -> usize
        ensures value { result ≡ self.now.safe_from }
        ensures safe { IsSafeFrom self.now.start.roots (system_in self.now.start) (length
            (closing_writes (changes_between (system_in self.now.start) (final_of self.now))))
            self.now.safe_from }
    {
        self.safe_from
    }
}
