//! Two texts are read, and admitted as a dump and its probe.
ghost use Rattle.std.specs.Prelude.{◌≡◌, ℕ, List, None, IfOk, IfErr, OnOk, MatchOption, MatchResult};
ghost use Rattle.pci_spec.specs.Text.{IsTextOf};
ghost use Rattle.pci_dump.specs.ReadFault.{IsTextFault};
ghost use Rattle.pci_tree.specs.Refusals.{IsPairRefusal};
ghost use Rattle.pci_tree.specs.Roots.{IsRootList, buses_of};
ghost use Rattle.pciplan_c.specs.Texts.{AreTexts, AreNotAdmitted};

use crate::held::Bytes;
use crate::refusal::Refusal;
use crate::unread::Unread;
use pci_base::memory::{OutOfMemory, Refused};
use pci_dump::dump::Dump;
use pci_dump::read_fault::ReadFault;
use pci_dump::reader::read_dump;
use pci_function::fault::Fault;
use pci_tree::admit::admit_with;
use pci_tree::admitted::Admitted;
use pci_tree::roots::Roots;
use std::alloc::Allocator;

/// The dump of a text.
pub fn read<A: Allocator>(alloc: A, text: &[u8]) -> Result<Dump<A>, Refused<ReadFault>>
    ensures ok { IfOk result (IsTextOf text.now) }
    ensures fault { IfErr result
        (λ why. (fault : ReadFault) → why ≡ Refused.Fault fault → IsTextFault text.now fault) }
{
    match read_dump(alloc, &mut Bytes::of(text)) {
        Ok(dump) => Ok(dump),
        Err(ReadFault::Memory) => Err(Refused::Memory),
        Err(fault) => Err(Refused::Fault(fault)),
    }
}

/// A place for what is admitted: it has a table of 4 KB, which would stand on the stack twice while planning.
#[inline(never)]
pub fn empty_place<A: Allocator + Copy>(
    alloc: A,
) -> Result<Box<Option<Admitted<A>>, A>, OutOfMemory>
    ensures { IfOk result (λ place. place.value ≡ None) }
{
    match Box::new(alloc, None) {
        Ok(place) => Ok(place),
        Err(_) => Err(OutOfMemory),
    }
}

/// Admits two dumps. What makes the outline moves its table several times, in a frame of its own.
#[inline(never)]
fn admitted<A: Allocator>(
    alloc: A,
    dump: Dump<A>,
    probe: Dump<A>,
    roots: Roots,
) -> Result<Admitted<A>, Refused<Fault>>
    ensures { MatchResult result
        (λ a. (a.roots ≡ buses_of roots) × (a.dump ≡ dump) × (a.probe ≡ probe))
        (IsPairRefusal (buses_of roots) dump probe) }
{
    admit_with(alloc, dump, probe, roots)
}

/// Reads two texts, and puts them, admitted with these roots, into a place.
///
/// # Errors
///
/// `Memory` where a growth was refused, else why they aren't admitted: the dump's text is looked at first, then the
/// probe's, then both.
#[inline(never)]
pub fn admit_texts<A: Allocator + Copy>(
    alloc: A,
    dump: &[u8],
    probe: &[u8],
    roots: Roots,
    place: &mut Option<Admitted<A>>,
) -> Result<(), Refused<Unread>>
    // of the list of which the roots were made
    ensures texts { OnOk result (MatchOption place.new ⊥ (λ a. (buses : List ℕ)
        → buses_of roots ≡ buses → IsRootList buses → AreTexts buses dump.now probe.now a)) }
    ensures why { IfErr result (λ why. (buses : List ℕ) → buses_of roots ≡ buses → IsRootList buses
        → AreNotAdmitted buses dump.now probe.now why) }
{
    let dump = match read(alloc, dump) {
        Ok(dump) => dump,
        Err(Refused::Fault(fault)) => {
            return Err(Refused::Fault(Unread::Refused(Refusal::Dump(fault))));
        }
        Err(Refused::Memory) => return Err(Refused::Memory),
    };
    let probe = match read(alloc, probe) {
        Ok(probe) => probe,
        Err(Refused::Fault(fault)) => {
            return Err(Refused::Fault(Unread::Refused(Refusal::Probe(fault))));
        }
        Err(Refused::Memory) => return Err(Refused::Memory),
    };
    match admitted(alloc, dump, probe, roots) {
        Ok(admitted) => {
            *place = Some(admitted);
            Ok(())
        }
        Err(Refused::Fault(fault)) => Err(Refused::Fault(Unread::NotAdmitted(fault))),
        Err(Refused::Memory) => Err(Refused::Memory),
    }
}
