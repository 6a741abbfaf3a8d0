//! The tasks.
ghost use Rattle.std.specs.Prelude.{◌≡◌, [], MatchOption};
ghost use Rattle.judge_spec.specs.Told.{IsTold as AreRanges};
ghost use Rattle.pciplan_tasks.specs.Also.{IsAlsoTold, ranges_told};
ghost use Rattle.pciplan_tasks.specs.declared.task.Also.{Also};

use pci_base::range::RootRange;
use pci_base::slot::Slot;
use pci_base::window_kind::ByKind;
use pci_dump::read_fault::ReadFault;
use pci_dump::told_list::ToldList;
use pci_dump::told_range::ToldRange;
use pci_first_fit::told::ToldRanges;
use pci_machine::assuming::Assuming;
use pci_model::words::Words;
use pci_place::pools::Pools;
use pci_script::form::Form;
use pci_tree::roots::Roots;
use std::alloc::Global;

/// The ranges that the host sends to its root buses, of I/O and of memory; None of a space of which nothing is said: it
/// sends all of it to each.
#[derive(Drop)]
pub struct HostLists {
    pub io: Option<Vec<RootRange>>,
    pub mem: Option<Vec<RootRange>>,
}

/// What a third text tells of ranges that no BAR shows.
#[derive(Drop)]
pub enum Also {
    /// These ranges; none where there is no such text.
    Told(ToldList),
    /// The text has a fault, or can't be read.
    Refused(ReadFault),
}

impl Also {
    /// Nothing is told.
    pub fn nothing(alloc: Global) -> Also
        ensures { result ≡ Also.Told [] }
    {
        Also::Told(ToldList::empty(alloc))
    }

    /// The fault of the text, where it has one or can't be read.
    pub fn fault(&self) -> Option<ReadFault>
        ensures { MatchOption result (IsAlsoTold self.now) (λ fault. self.now ≡ Also.Refused fault) }
    {
        match self {
            Also::Told(_) => None,
            Also::Refused(fault) => Some(*fault),
        }
    }

    /// The ranges that the text tells; none where it isn't read.
    pub fn ranges(&self) -> &[ToldRange]
        ensures value { result.now ≡ ranges_told self.now }
        // judging finds those of a slot by halving
        ensures lawful { AreRanges result.now }
    {
        match self {
            Also::Told(list) => list.as_slice(),
            Also::Refused(_) => &[],
        }
    }

    /// The same, as settling takes them.
    pub fn told(&self) -> ToldRanges<'_>
        ensures { result.ranges.now ≡ ranges_told self.now }
    {
        match self {
            Also::Told(list) => ToldRanges::of(list),
            Also::Refused(_) => ToldRanges::none(),
        }
    }
}

/// What is said beside the two texts.
#[derive(Drop)]
pub struct Beside {
    pub roots: Roots,
    /// The words by which functions are taken, where there are any.
    pub words: Option<Words>,
    /// What the host sends to its root buses.
    pub host: HostLists,
    /// What a third text tells.
    pub also: Also,
}

/// The ranges that may be settled in, of I/O, of memory and of prefetchable memory.
#[derive(Drop)]
pub struct SettleLists {
    pub io: Vec<RootRange>,
    pub mem: Vec<RootRange>,
    pub pref: Vec<RootRange>,
}

/// What is to be settled, and how.
#[derive(Drop)]
pub struct SettleRequest {
    pub roots: Roots,
    pub lists: SettleLists,
    /// The slots whose functions may not be written. One that the dump doesn't have says nothing.
    pub fixed: Vec<Slot>,
    /// Whether nothing is left where it stands, but for told ranges and what leads to them.
    pub anew: bool,
    /// What a third text tells. Nothing is placed on its ranges.
    pub also: Also,
    /// The words by which functions are taken, where there are any.
    pub words: Option<Words>,
    /// How many addresses of each class are wanted behind each hot-plug slot: 0 where none are.
    pub spares: ByKind<u64>,
    /// The bridges that have such a slot; None: those of the dump whose registers say so. One that the dump doesn't have says
    /// nothing.
    pub slots: Option<Vec<Slot>>,
}

/// What is printed of a settling.
#[derive(Clone, Copy)]
pub enum Printed {
    /// The settled dump.
    Dump,
    /// The writes that lead there, a line for each.
    Writes,
    /// The same writes as a script.
    Script(Form),
}

/// What is to be done with a dump and its probe.
#[derive(Drop)]
pub enum Task {
    /// Lists what the functions decode to.
    Show,
    /// Judges them as a system with these root buses.
    Check {
        roots: Roots,
    },
    /// Lists all faults of a system with what is said beside it: its functions are taken by the words, bridges have legacy
    /// parts where these take VGA Enable, and the host sends what it is said to send. What stands behind each fault is told
    /// where that is asked for.
    Faults {
        beside: Beside,
        why: bool,
    },
    /// Prints the map of the same system.
    Map {
        beside: Beside,
    },
    /// Sizes every function of a machine of the two texts.
    Size,
    /// Plans them in these pools, with these root buses: the planned dump, or the writes that lead there. Where a class
    /// has no room it may be asked for what it lacks.
    Plan {
        pools: Pools,
        writes: bool,
        why: bool,
        roots: Roots,
    },
    /// Settles them as it is asked for: the settled dump, or the writes that lead there.
    Settle {
        request: SettleRequest,
        printed: Printed,
    },
    /// Derives the probe from the dump and the sizes that Linux tells, which are the second text, assuming the least size of
    /// these registers where none is told.
    Probe {
        assuming: Assuming,
    },
}
