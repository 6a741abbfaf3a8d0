//! The verdict on an admitted dump and its probe: yes, with the evidence, or no, with the first fault.
use pci_function::fault::Fault;
use pci_tree::admitted::Admitted;
use std::alloc::{Allocator, Global};
use std::marker::Model;

/// Evidence that the system of a dump and its probe is sound: each access is claimed by at most one region
/// on every bus that it gets to, and over all root buses; each address of an enabled BAR or ROM gets to its
/// own function; bus ranges nest; nothing is set that changes what is decoded; and each capabilities list
/// ends within the image and comes to no place twice.
#[derive(Drop)]
pub struct Sound<'a, A: Allocator = Global> {
    admitted: &'a Admitted<A>,
}

impl<'a, A: Allocator> Model for Sound<'a, A> {
    ghost use Rattle.pci_spec.specs.System.{system_of};
    ghost use Rattle.pci_spec.specs.Sound.{IsSound};
    ghost use Rattle.pci_tree.specs.Admission.{Admission};

    ghost Value = { Admission };

    ghost view = { λ s. s.admitted.now };

    ghost invariant = { λ s. IsSound s.admitted.now.roots
        (system_of s.admitted.now.dump s.admitted.now.probe) };
}

impl<'a, A: Allocator> Sound<'a, A> {
    ghost use Rattle.std.specs.Prelude.{◌≡◌};
    ghost use Rattle.pci_spec.specs.System.{system_of};
    ghost use Rattle.pci_spec.specs.Sound.{IsSound};

    /// The evidence, where the system is sound.
    pub(crate) fn of(admitted: &'a Admitted<A>) -> Sound<'a, A>
        requires { IsSound admitted.now.roots (system_of admitted.now.dump admitted.now.probe) }
        ensures { result ≡ admitted.entry.now }
    {
        Sound { admitted }
    }

    /// Lends the dump and the probe that are sound.
    pub fn admitted(&self) -> &'a Admitted<A>
        ensures same { result.now ≡ self.now }
        // who is handed this evidence need not judge again
        ensures sound { IsSound self.now.roots (system_of self.now.dump self.now.probe) }
    {
        self.admitted
    }
}

/// Whether a system is sound.
#[derive(Drop)]
pub enum Verdict<'a, A: Allocator = Global> {
    Yes(Sound<'a, A>),
    /// The first fault: 60 Unreached, 61 Clash or 62 Split.
    No(Fault),
}
