//! What is taken on a bus by parts that stand: ranges that share no address, by rising addresses.
ghost use Rattle.std.specs.Prelude.{◌≡◌, ◌<◌, ◌≤◌, IfOk, IfSome, IfNone, [], false, length};
ghost use Rattle.std.specs.List.{AllWithin};
ghost use Rattle.pci_base.specs.Space.{space_of};
ghost use Rattle.pci_kept.specs.Taken.{AreApartInOrder, is_free, IsGap, IsWithTaken, in_space, in_other, taken_with, IsGoneTo};

use pci_base::memory::OutOfMemory;
use pci_base::range::Range;
use pci_base::space::Space;
use std::alloc::Allocator;

/// How many of the ranges end before an address.
fn ends_before(taken: &[Range], address: u64) -> usize
    requires { AreApartInOrder taken.now }
    ensures bound { result ≤ length taken.now }
    ensures before { AllWithin (λ r. r.last < address) taken.now 0 result }
    ensures after { AllWithin (λ r. address ≤ r.last) taken.now result (length taken.now) }
{
    taken.partition_point(|r| r.last < address)
}

/// Where a range belongs, if none of its addresses is taken.
fn gap_for(taken: &[Range], range: Range) -> Option<usize>
    requires { AreApartInOrder taken.now }
    ensures some { IfSome result (IsGap taken.now range) }
    ensures none { IfNone result (is_free range taken.now ≡ false) }
{
    let index = ends_before(taken, range.first);
    if index < taken.len() && taken[index].first <= range.last {
        return None;
    }
    Some(index)
}

/// Takes a range in a list where none of its addresses is taken. The answer is whether that is so.
fn take_in<A: Allocator>(taken: &mut Vec<Range, A>, range: Range) -> Result<bool, OutOfMemory>
    requires order { AreApartInOrder taken.old.items }
    requires forward { range.first ≤ range.last }
    ensures free { IfOk result (λ free. free ≡ is_free range taken.old.items) }
    ensures taken { IfOk result (λ free. IsWithTaken free range taken.old.items taken.new.items) }
    ensures order { AreApartInOrder taken.new.items }
{
    let Some(index) = gap_for(taken.as_slice(), range) else {
        return Ok(false);
    };
    taken.insert(index, range)?;
    Ok(true)
}

/// What is taken on one bus, in both spaces. All roots are one bus.
#[derive(Drop)]
pub struct Taken<A: Allocator> {
    /// 0 for the roots, else one more than the bus number.
    pub level: u16,
    pub io: Vec<Range, A>,
    pub mem: Vec<Range, A>,
}

impl<A: Allocator + Copy> Taken<A> {
    /// Nothing on the roots.
    pub fn none(alloc: A) -> Taken<A>
        ensures level { result.level ≡ 0 }
        ensures io { result.io.items ≡ [] }
        ensures mem { result.mem.items ≡ [] }
    {
        Taken {
            level: 0,
            io: Vec::new(alloc),
            mem: Vec::new(alloc),
        }
    }

    /// Goes to a bus: on another one than before nothing is taken yet.
    pub fn go_to(&mut self, level: u16)
        ensures { IsGoneTo level (taken_with self.old.level self.old.io.items self.old.mem.items)
            (taken_with self.new.level self.new.io.items self.new.mem.items) }
    {
        if self.level != level {
            self.level = level;
            self.io.clear();
            self.mem.clear();
        }
    }

    /// Takes a range where none of its addresses is taken. The answer is whether that is so.
    pub fn take(&mut self, space: Space, range: Range) -> Result<bool, OutOfMemory>
        // so one look, found by halving, tells whether the range is free
        requires io { AreApartInOrder self.old.io.items }
        requires mem { AreApartInOrder self.old.mem.items }
        // an empty range takes nothing
        requires forward { range.first ≤ range.last }
        // both spaces are of one bus
        ensures level { self.new.level ≡ self.old.level }
        ensures free { IfOk result (λ free. free
            ≡ is_free range (in_space (space_of space) self.old.io.items self.old.mem.items)) }
        ensures taken { IfOk result (λ free. IsWithTaken free range
            (in_space (space_of space) self.old.io.items self.old.mem.items)
            (in_space (space_of space) self.new.io.items self.new.mem.items)) }
        ensures other { in_other (space_of space) self.new.io.items self.new.mem.items
            ≡ in_other (space_of space) self.old.io.items self.old.mem.items }
        ensures io { AreApartInOrder self.new.io.items }
        ensures mem { AreApartInOrder self.new.mem.items }
    {
        match space {
            Space::Io => take_in(&mut self.io, range),
            Space::Mem => take_in(&mut self.mem, range),
        }
    }
}
