//! Addresses of both spaces: those that the host sends to a root bus, or those that a bridge takes as no region of its bus
//! claims them.
ghost use Rattle.std.specs.Prelude.{◌≡◌, ℕ, ◌↔◌, [], IsTrue, IfOk, MatchBool};
ghost use Rattle.pci_base.specs.Space.{space_of};
ghost use Rattle.pci_tree.specs.Ranges.{Holds, Covers, IsCanonical};
ghost use Rattle.pci_claims.specs.Values.{code_given_value};
ghost use Rattle.pci_map.specs.Addresses.{ranges_in, HasUnsent, AreSent, AreTakenIn, AreTakenBy};

use pci_base::memory::OutOfMemory;
use pci_base::range::Range;
use pci_base::space::Space;
use pci_claims::gather::gathered;
use pci_claims::given::Given;
use pci_claims::passed::{is_bridge_on, taken_of};
use pci_claims::sent::sent_to;
use pci_function::record::Record;
use pci_tree::ranges::least_outside;
use std::alloc::{Allocator, Global};
use std::marker::Model;

/// Addresses of both spaces: of each space ranges that rise, with an address between each two.
#[derive(Drop)]
pub struct Addresses<A: Allocator = Global> {
    io: Vec<Range, A>,
    memory: Vec<Range, A>,
}

impl<A: Allocator> Model for Addresses<A> {
    ghost use Rattle.pci_tree.specs.Ranges.{IsCanonical};
    ghost use Rattle.pci_map.specs.Addresses.{SpaceRanges};

    ghost Value = { SpaceRanges };

    ghost view = { λ s. record { io = s.io.items; memory = s.memory.items } };

    ghost invariant = { λ s. IsCanonical s.io.items × IsCanonical s.memory.items };
}

/// What a bridge takes of a space as no region of its bus claims it.
fn taken_in<A: Allocator + Copy>(
    alloc: A,
    given: &Given<'_>,
    function: &Record,
    space: Space,
) -> Result<Vec<Range, A>, OutOfMemory>
    ensures { IfOk result
        (λ v. AreTakenIn (code_given_value given.now) (space_of space) function.now v.items) }
{
    if !is_bridge_on(function, space) {
        return Ok(Vec::new(alloc));
    }
    let taken = taken_of(alloc, given.unclaimed, function.slot, space)?;
    gathered(taken)
}

impl<A: Allocator + Copy> Addresses<A> {
    /// No addresses.
    pub fn none(alloc: A) -> Addresses<A>
        ensures { result ≡ record { io = []; memory = [] } }
    {
        Addresses {
            io: Vec::new(alloc),
            memory: Vec::new(alloc),
        }
    }

    /// What the host sends to a root bus.
    pub fn sent(alloc: A, given: &Given<'_>, root: u8) -> Result<Addresses<A>, OutOfMemory>
        ensures { IfOk result (λ sent. AreSent (code_given_value given.now) root sent) }
    {
        let io = sent_to(alloc, given, Space::Io, root)?;
        let memory = sent_to(alloc, given, Space::Mem, root)?;
        Ok(Addresses { io, memory })
    }

    /// What a bridge takes as no region of its bus claims it.
    pub fn taken(
        alloc: A,
        given: &Given<'_>,
        function: &Record,
    ) -> Result<Addresses<A>, OutOfMemory>
        ensures { IfOk result (λ taken. AreTakenBy (code_given_value given.now) function.now taken) }
    {
        let io = taken_in(alloc, given, function, Space::Io)?;
        let memory = taken_in(alloc, given, function, Space::Mem)?;
        Ok(Addresses { io, memory })
    }
}

impl<A: Allocator> Addresses<A> {
    /// The ranges of a space.
    fn ranges(&self, space: Space) -> &[Range]
        ensures value { result.now ≡ ranges_in (space_of space) self.now }
        // an address between them is looked for by halving
        ensures canonical { IsCanonical result.now }
    {
        match space {
            Space::Io => &self.io,
            Space::Mem => &self.memory,
        }
    }

    /// Whether an address is one of them.
    pub fn has(&self, space: Space, address: u64) -> bool
        ensures { IsTrue result ↔ Covers (ranges_in (space_of space) self.now) address }
    {
        self.has_all(
            space,
            Range {
                first: address,
                last: address,
            },
        )
    }

    /// Whether each address of a range is.
    pub fn has_all(&self, space: Space, range: Range) -> bool
        ensures { MatchBool result
            ((a : ℕ) → Holds range a → Covers (ranges_in (space_of space) self.now) a)
            (HasUnsent (ranges_in (space_of space) self.now) range) }
    {
        if range.last < range.first {
            return true;
        }
        least_outside(range, self.ranges(space)).is_none()
    }
}
