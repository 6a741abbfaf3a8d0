//! Admission of a dump and its probe: a survey of their blocks side by side.
ghost use Rattle.std.specs.Prelude.{◌≡◌, ◌≢◌, ◌∷◌, [], None, IfSome, OnOk, MatchResult};
ghost use Rattle.pci_spec.specs.Slot.{IsRising};
ghost use Rattle.pci_spec.specs.Text.{slots_of};
ghost use Rattle.pci_spec.specs.System.{system_of};
ghost use Rattle.pci_tree.specs.Roots.{buses_of};
ghost use Rattle.pci_spec.specs.Order.{phase_of};
ghost use Rattle.pci_tree.specs.Survey.{IsSurveyOf};
ghost use Rattle.pci_tree.specs.Refusals.{IsPairRefusal};
ghost use Rattle.pci_tree.specs.Admission.{IsOutlineFor};

use super::admitted::Admitted;
use super::outline::Outline;
use super::roots::Roots;
use super::survey::Survey;
use crate::pair::first_difference;
use pci_base::memory::{OutOfMemory, Refused};
use pci_dump::block::Block;
use pci_dump::dump::Dump;
use pci_function::fault::Fault;
use std::alloc::Allocator;

/// Adds all functions of a dump and a probe that list the same slots to a survey of none.
fn add_all<A: Allocator>(
    survey: &mut Survey<A>,
    dump: &[Block],
    probe: &[Block],
) -> Result<(), OutOfMemory>
    requires same { slots_of dump.now ≡ slots_of probe.now }
    requires rising { IsRising (slots_of dump.now) }
    requires none { IsSurveyOf survey.old [] }
    requires first { survey.old.last ≡ None }
    requires open { survey.old.fault ≡ None }
    ensures taken { OnOk result (IsSurveyOf survey.new (system_of dump.now probe.now)) }
    ensures roots { OnOk result (survey.new.roots ≡ survey.old.roots) }
    ensures open { OnOk result (IfSome survey.new.fault (λ e. phase_of e ≢ 0)) }
{
    for i in 0..dump.len() {
        survey.add(&dump[i], &probe[i])?;
    }
    Ok(())
}

/// The outline of a dump and its probe with these root buses.
///
/// # Errors
///
/// As of `admit_with`.
pub fn outline_of<A: Allocator, B: Allocator, C: Allocator>(
    alloc: A,
    dump: &Dump<B>,
    probe: &Dump<C>,
    roots: Roots,
) -> Result<Outline<A>, Refused<Fault>>
    // of dumps that are lent, as planning looks at its own dump with the probe it was given
    ensures { MatchResult result (IsOutlineFor record {
      roots = buses_of roots;
      dump = dump.now;
      probe = probe.now;
    }) (IsPairRefusal (buses_of roots) dump.now probe.now) }
{
    match first_difference(dump.blocks(), probe.blocks()) {
        Some(slot) => return Err(Refused::Fault(Fault::SlotsDiffer(slot))),
        None => {}
    }
    let mut survey = Survey::with(alloc, roots);
    add_all(&mut survey, dump.blocks(), probe.blocks())?;
    survey.finish()
}

/// Admits a dump and its probe with the one root bus 00.
///
/// # Errors
///
/// As of `admit_with`.
pub fn admit<A: Allocator>(
    alloc: A,
    dump: Dump<A>,
    probe: Dump<A>,
) -> Result<Admitted<A>, Refused<Fault>>
    ensures { MatchResult result (λ a. (a.roots ≡ 0 ∷ []) × (a.dump ≡ dump) × (a.probe ≡ probe))
        (IsPairRefusal (0 ∷ []) dump probe) }
{
    admit_with(alloc, dump, probe, Roots::host())
}

/// Admits a dump and its probe with these root buses. Both are dropped where they are refused.
///
/// # Errors
///
/// 30 `SlotsDiffer`, else the first fault of the earliest phase: 20, 21 and 31 of identities and probes, 22 to 29 of
/// registers and capabilities lists, 51 to 56 of profiles, 50, 57 and 58 of places; 2 where a growth was refused.
pub fn admit_with<A: Allocator>(
    alloc: A,
    dump: Dump<A>,
    probe: Dump<A>,
    roots: Roots,
) -> Result<Admitted<A>, Refused<Fault>>
    ensures { MatchResult result
        (λ a. (a.roots ≡ buses_of roots) × (a.dump ≡ dump) × (a.probe ≡ probe))
        (IsPairRefusal (buses_of roots) dump probe) }
{
    match outline_of(alloc, &dump, &probe, roots) {
        Err(refused) => Err(refused),
        Ok(outline) => Ok(Admitted::of(dump, probe, outline)),
    }
}
