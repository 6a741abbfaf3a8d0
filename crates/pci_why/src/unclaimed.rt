//! How lines tell that a bridge takes what no region of its bus claims.
ghost use Rattle.std.specs.Prelude.{◌≡◌, ◌++◌, OnOk};
ghost use Rattle.std.specs.String.{string_bytes};
ghost use Rattle.pci_spec.specs.Slot.{same_slot};
ghost use Rattle.judge_spec.specs.Why.{unclaimed_words};
ghost use Rattle.pci_claims.specs.Values.{code_given_value};
ghost use Rattle.pci_why.specs.Lines.{spaced, is_taking_unclaimed};

use pci_base::slot::Slot;
use pci_claims::given::{Given, TakingBridge};
use std::alloc::{AllocError, Allocator};

/// Whether a bridge that takes what is unclaimed is that at a slot.
fn is_at(entry: &TakingBridge<'_>, slot: Slot) -> bool
    ensures { result ≡ same_slot entry.now.slot slot }
{
    entry.slot == slot
}

/// Whether the bridge at a slot is among those that take what no region of their bus claims.
fn is_taking(given: &Given<'_>, slot: Slot) -> bool
    ensures { result ≡ is_taking_unclaimed (code_given_value given.now) slot }
{
    for entry in given.unclaimed {
        if is_at(entry, slot) {
            return true;
        }
    }
    false
}

/// ` unclaimed`, where the bridge at a slot takes what no region of its bus claims.
fn unclaimed_word(given: &Given<'_>, slot: Slot) -> &'static str
    ensures { result.now ≡ spaced (unclaimed_words (code_given_value given.now) slot) }
{
    if is_taking(given, slot) {
        " unclaimed"
    } else {
        ""
    }
}

/// Appends that word.
pub fn push_unclaimed_word<A: Allocator>(
    text: &mut String<A>,
    given: &Given<'_>,
    slot: Slot,
) -> Result<(), AllocError>
    ensures { OnOk result (string_bytes text.new
        ≡ string_bytes text.old ++ spaced (unclaimed_words (code_given_value given.now) slot)) }
{
    text.push_str(unclaimed_word(given, slot))
}
