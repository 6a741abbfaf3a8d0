//! How lines tell of ISA Enable.
ghost use Rattle.std.specs.Prelude.{◌≡◌, ◌++◌, OnOk};
ghost use Rattle.std.specs.String.{string_bytes};
ghost use Rattle.pci_spec.specs.Listing.{words};
ghost use Rattle.pci_base.specs.Space.{space_of};
ghost use Rattle.judge_spec.specs.Why.{isa_words};
ghost use Rattle.pci_claims.specs.Values.{code_given_value};
ghost use Rattle.pci_why.specs.Lines.{spaced};

use pci_base::slot::Slot;
use pci_base::space::Space;
use pci_claims::given::Given;
use pci_claims::isa::has_isa;
use std::alloc::{AllocError, Allocator};

/// The word behind the window of a space of the bridge at a slot, behind a space.
fn isa_word(given: &Given<'_>, space: Space, slot: Slot) -> &'static str
    ensures { result.now ≡ spaced (isa_words (code_given_value given.now) (space_of space) slot) }
{
    match space {
        Space::Io => { if has_isa(given, slot) { " isa" } else { "" } }
        Space::Mem => "",
    }
}

/// The same, with the end of the line.
pub fn window_end(given: &Given<'_>, space: Space, slot: Slot) -> &'static str
    ensures { result.now ≡ words (isa_words (code_given_value given.now) (space_of space) slot) }
{
    match space {
        Space::Io => { if has_isa(given, slot) { " isa\n" } else { "\n" } }
        Space::Mem => "\n",
    }
}

/// Appends ` isa` behind the I/O window of a bridge with ISA Enable.
pub fn push_isa_word<A: Allocator>(
    text: &mut String<A>,
    given: &Given<'_>,
    space: Space,
    slot: Slot,
) -> Result<(), AllocError>
    ensures { OnOk result (string_bytes text.new
        ≡ string_bytes text.old ++ spaced (isa_words (code_given_value given.now) (space_of space) slot)) }
{
    text.push_str(isa_word(given, space, slot))
}
