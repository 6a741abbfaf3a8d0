//! What bridges take as no region of their bus claims it.
ghost use Rattle.std.specs.Prelude.{IfOk};
ghost use Rattle.pci_spec.specs.System.{System};
ghost use Rattle.pci_tree.specs.Trees.{HasTree};
ghost use Rattle.judge_spec.specs.Told.{IsTold};
ghost use Rattle.judge_spec.specs.Unclaimed.{AreTaking};
ghost use Rattle.pci_claims.specs.Values.{code_given_value, told_value};

use super::said::Said;
use pci_base::memory::OutOfMemory;
use pci_claims::board::Board;
use pci_claims::taking::{Taking, taking_bridges};
use pci_claims::told::ranges_on;
use pci_tree::outline::Outline;
use std::alloc::Allocator;

/// What the bridges that are said take of each space, in their order: the greatest runs of addresses that no region of
/// their bus claims, told ranges among these (PCI 3.0, 3.6.1).
pub fn taken<A: Allocator + Copy>(
    alloc: A,
    said: &Said<'_>,
    outline: &Outline<A>,
) -> Result<Vec<Taking<A>, A>, OutOfMemory>
    // they are read of a text
    requires { IsTold said.now.told.ranges.now }
    ensures { IfOk result (λ v. (s : System) → HasTree outline.now s
        → AreTaking (told_value said.now.told) (code_given_value said.now.given) s said.now.taking.now
        v.items) }
{
    // so it is where no word asks for them
    if said.taking.is_empty() {
        return Ok(Vec::new(alloc));
    }
    let bridges = outline.bridges()?;
    let on = ranges_on(alloc, &said.told, outline)?;
    let board = Board {
        outline,
        given: said.given,
        told: said.told,
        on: &on,
        bridges: &bridges,
    };
    taking_bridges(alloc, &board, said.taking)
}
