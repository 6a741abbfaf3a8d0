//! The text of a map.
ghost use Rattle.std.specs.Prelude.{IfOk};
ghost use Rattle.std.specs.String.{string_bytes};
ghost use Rattle.pci_spec.specs.System.{System};
ghost use Rattle.pci_tree.specs.Trees.{HasTree};
ghost use Rattle.judge_spec.specs.Told.{IsTold};
ghost use Rattle.judge_spec.specs.ToldNumbered.{AreListedIn};
ghost use Rattle.judge_spec.specs.MapText.{IsMapText};
ghost use Rattle.pci_claims.specs.Values.{code_given_value, told_value};

use super::above::sent_above;
use super::asides::push_asides;
use super::buses::push_roots;
use super::mapped::Mapped;
use super::off::push_off;
use super::takers::find_takers;
use super::ways::find_ways;
use pci_base::memory::OutOfMemory;
use pci_claims::given::Given;
use pci_claims::told::{Told, ranges_on};
use pci_tree::outline::Outline;
use std::alloc::Allocator;

/// The map of an outline, with what is given and told: the lines of each root bus and of what bridges take, the regions that
/// are out of place, those that no way leads to, and the BARs and told ranges that are off.
pub fn map_text<A: Allocator + Copy>(
    alloc: A,
    outline: &Outline<A>,
    given: &Given<'_>,
    told: &Told<'_>,
) -> Result<String<A>, OutOfMemory>
    // they are read of a text
    requires { IsTold told.now.ranges.now }
    // an outline has no image, so this is said of every system with its records
    ensures { IfOk result (λ text. (s : System) → HasTree outline.now s → AreListedIn (told_value told.now) s
        → IsMapText (told_value told.now) (code_given_value given.now) outline.now.roots s (string_bytes text)) }
{
    let above = sent_above(alloc, given, outline)?;
    let ways = find_ways(alloc, given, outline)?;
    let takers = find_takers(alloc, given, outline)?;
    let on = ranges_on(alloc, told, outline)?;
    let mut text = String::new(alloc);
    let mapped = Mapped {
        outline,
        given: *given,
        told: *told,
        on: on.as_slice(),
        above: above.as_slice(),
        ways: ways.as_slice(),
        takers: takers.as_slice(),
    };
    push_roots(alloc, &mut text, &mapped)?;
    push_asides(alloc, &mut text, &mapped)?;
    push_off(alloc, &mut text, &mapped)?;
    Ok(text)
}
