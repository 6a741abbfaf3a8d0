//! A survey: functions are taken one by one, each with its image and its probe, and what is decoded of them is kept.
ghost use Rattle.std.specs.Prelude.{◌≡◌, ◌≢◌, ◌<◌, [], ◌∷◌, ◌++◌, None, Some, OnOk, OnErr, IfSome, MatchResult};
ghost use Rattle.std.specs.Option.{option_map};
ghost use Rattle.pci_spec.specs.Number.{IsImage};
ghost use Rattle.pci_spec.specs.Stops.{IsAboveLast};
ghost use Rattle.pci_spec.specs.System.{System};
ghost use Rattle.pci_spec.specs.Fault.{SlotsDiffer};
ghost use Rattle.pci_function.specs.Fault.{fault_of};
ghost use Rattle.pci_tree.specs.Roots.{buses_of};
ghost use Rattle.pci_spec.specs.Order.{phase_of};
ghost use Rattle.pci_tree.specs.Survey.{earlier, lesser_slot, IsSurveyOf, IsAdded, IsOutlineOf};

use super::outline::Outline;
use super::roots::Roots;
use pci_base::image::IMAGE_LEN;
use pci_base::memory::{OutOfMemory, Refused};
use pci_base::slot::Slot;
use pci_dump::block::Block;
use pci_function::examine::examine_into;
use pci_function::fault::Fault;
use pci_function::record::Record;
use std::alloc::{Allocator, Global};
use std::marker::Model;

/// The fault of the earlier phase; of two of one phase, the one that is noted.
fn earlier(noted: Option<Fault>, fault: Fault) -> Fault
    ensures { fault_of result ≡ earlier (option_map fault_of noted) (fault_of fault) }
{
    match noted {
        None => fault,
        Some(noted) => {
            if fault.phase() < noted.phase() {
                fault
            } else {
                noted
            }
        }
    }
}

/// The bytes of an image.
fn bytes_of(bytes: &[u8; IMAGE_LEN]) -> &[u8]
    ensures { IsImage bytes.entry.now }
{
    bytes.as_slice()
}

/// What is decoded of the functions taken so far, or the fault that is noted of them. It holds no image.
#[derive(Drop)]
pub struct Survey<A: Allocator = Global> {
    records: Vec<Record, A>,
    roots: Roots,
    noted: Option<Fault>,
    last: Option<Slot>,
}

impl<A: Allocator> Model for Survey<A> {
    ghost use Rattle.std.specs.Prelude.{map};
    ghost use Rattle.std.specs.Option.{option_map};
    ghost use Rattle.pci_function.specs.Fault.{fault_of};
    ghost use Rattle.pci_tree.specs.Roots.{buses_of};
    ghost use Rattle.pci_function.specs.Values.{record_value};
    ghost use Rattle.pci_tree.specs.Survey.{Surveyed, AreKept};

    ghost Value = { Surveyed };

    ghost view = { λ s. record {
      roots = buses_of s.roots;
      records = map record_value s.records.items;
      fault = option_map fault_of s.noted;
      last = s.last;
    } };

    ghost invariant = { λ s. AreKept s.records.items s.last };
}

impl<A: Allocator> Survey<A> {
    ghost use Rattle.pci_tree.specs.Refusals.{IsRefusalOf};

    /// The survey of no functions, with the one root bus 00. It grows by `alloc`.
    pub fn new(alloc: A) -> Survey<A>
        ensures value { result ≡ record { roots = 0 ∷ []; records = []; fault = None; last = None } }
        ensures none { IsSurveyOf result [] }
    {
        Survey::with(alloc, Roots::host())
    }

    /// The survey of no functions, with these root buses.
    pub fn with(alloc: A, roots: Roots) -> Survey<A>
        ensures value { result ≡ record {
          roots = buses_of roots;
          records = [];
          fault = None;
          last = None;
        } }
        ensures none { IsSurveyOf result [] }
    {
        Survey {
            records: Vec::new(alloc),
            roots,
            noted: None,
            last: None,
        }
    }

    /// Takes one more function, by its block in the dump and in the probe. Its record is appended, or its first fault, 20
    /// to 29, 31 or 51 to 56, is noted where none of an earlier or the same phase is. From the first noted fault on no
    /// record is appended. Where the two blocks have different slots, 30 `SlotsDiffer` of the lesser is noted.
    ///
    /// # Errors
    ///
    /// 2 where a growth was refused. The survey is then as it was.
    pub fn add(&mut self, block: &Block, probe: &Block) -> Result<(), OutOfMemory>
        // records rise by slot, as an outline asks of them
        requires above { IsAboveLast self.old.last block.now.slot }
        // a probe that falls back would have a slot named that both sides list
        requires probe_above { IsAboveLast self.old.last probe.now.slot }
        // after 30 the two sides don't go together any more
        requires open { IfSome self.old.fault (λ e. phase_of e ≢ 0) }
        ensures added { OnOk result (probe.now.slot ≡ block.now.slot
            → IsAdded self.old self.new record
            { slot = block.now.slot; image = block.now.image; probe = probe.now.image }) }
        // of whole systems, so that a caller that adds all functions has one fact of all of them
        ensures taken { OnOk result
            (probe.now.slot ≡ block.now.slot → (s : System) → IsSurveyOf self.old s
            → IsSurveyOf self.new (s
            ++ record
            { slot = block.now.slot; image = block.now.image; probe = probe.now.image }
            ∷ [])) }
        ensures differ { OnOk result (probe.now.slot ≢ block.now.slot → self.new ≡ record {
          roots = self.old.roots;
          records = self.old.records;
          fault = Some (SlotsDiffer (lesser_slot block.now.slot probe.now.slot));
          last = self.old.last;
        }) }
        // what memory refused can be added again
        ensures err { OnErr result (self.new ≡ self.old) }
    {
        let ours = block.slot.number();
        let theirs = probe.slot.number();
        if ours < theirs {
            self.only(block.slot);
            return Ok(());
        }
        if theirs < ours {
            self.only(probe.slot);
            return Ok(());
        }
        self.add_function(block, probe)
    }

    /// Takes one more function, whose two blocks have the same slot.
    fn add_function(&mut self, block: &Block, probe: &Block) -> Result<(), OutOfMemory>
        requires slots { probe.now.slot ≡ block.now.slot }
        requires above { IsAboveLast self.old.last block.now.slot }
        requires open { IfSome self.old.fault (λ e. phase_of e ≢ 0) }
        ensures added { OnOk result (IsAdded self.old self.new record {
          slot = block.now.slot;
          image = block.now.image;
          probe = probe.now.image;
        }) }
        ensures taken { OnOk result ((s : System) → IsSurveyOf self.old s
            → IsSurveyOf self.new (s
            ++ record
            { slot = block.now.slot; image = block.now.image; probe = probe.now.image }
            ∷ [])) }
        ensures err { OnErr result (self.new ≡ self.old) }
    {
        let slot = block.slot;
        // Both are read for what their types say of them.
        let _number = slot.number();
        let _bytes = bytes_of(&block.image.0);
        let mut decoded = Record::blank(slot);
        match examine_into(slot, &block.image, &probe.image, &mut decoded) {
            Err(fault) => {
                self.noted = Some(earlier(self.noted, fault));
                self.last = Some(slot);
                Ok(())
            }
            Ok(()) => {
                if self.noted.is_some() {
                    self.last = Some(slot);
                    return Ok(());
                }
                self.records.reserve(1)?;
                self.records.push_reserved(decoded);
                self.last = Some(slot);
                Ok(())
            }
        }
    }

    /// Notes 30 `SlotsDiffer` for a slot that one side alone has. No other fault comes before it.
    pub fn only(&mut self, slot: Slot)
        // of slots that differ the first one is told
        requires { IfSome self.old.fault (λ e. phase_of e ≢ 0) }
        ensures { self.new ≡ record {
          roots = self.old.roots;
          records = self.old.records;
          fault = Some (SlotsDiffer slot);
          last = self.old.last;
        } }
    {
        self.noted = Some(Fault::SlotsDiffer(slot));
    }

    /// The outline of the survey's records.
    ///
    /// # Errors
    ///
    /// The noted fault, else 50 `LoneFunction`, 58 `Orphan` or 57 `BusRange` of the first function that has one.
    pub fn finish(self) -> Result<Outline<A>, Refused<Fault>>
        // said of every system whose functions it took, since it kept none of their images
        ensures { MatchResult result (IsOutlineOf self) (IsRefusalOf self) }
    {
        let Survey {
            records,
            roots,
            noted,
            last: _,
        } = self;
        match noted {
            Some(fault) => Err(Refused::Fault(fault)),
            None => match Outline::placed(records, roots) {
                Err(fault) => Err(Refused::Fault(fault)),
                Ok(outline) => Ok(outline),
            },
        }
    }
}
