//! How lines tell of the legacy part and of the palette part of a bridge.
ghost use Rattle.std.specs.Prelude.{◌≡◌, ◌&&◌, ◌++◌, map, not, OnOk};
ghost use Rattle.std.specs.String.{string_bytes};
ghost use Rattle.pci_spec.specs.Slot.{same_slot};
ghost use Rattle.pci_base.specs.Space.{space_of};
ghost use Rattle.judge_spec.specs.Why.{is_narrow_among, has_legacy_part, legacy_words, legacy_text, palette_text};
ghost use Rattle.pci_claims.specs.Values.{code_given_value, legacy_value};
ghost use Rattle.pci_why.specs.Lines.{spaced, fixed_line, legacy_line, palette_line};

use pci_base::offset::{BRIDGE_CONTROL, COMMAND};
use pci_base::slot::Slot;
use pci_base::space::Space;
use pci_claims::given::{Given, LegacyBridge};
use pci_listing::hex_text::{end_line, push_byte, push_slot};
use std::alloc::{AllocError, Allocator};

/// Whether a legacy part or a palette part is of the bridge at a slot.
fn is_at(entry: &LegacyBridge, slot: Slot) -> bool
    ensures { result ≡ same_slot entry.now.slot slot }
{
    entry.slot == slot
}

/// Whether it is, and decodes 10 bits of I/O addresses.
fn is_narrow_at(entry: &LegacyBridge, slot: Slot) -> bool
    ensures { result ≡ (same_slot entry.now.slot slot && not entry.now.is_wide) }
{
    is_at(entry, slot) && !entry.is_wide
}

/// Whether a part of the bridge at a slot decodes 10 bits of I/O addresses, by the list of such parts.
pub fn is_narrow(bridges: &[LegacyBridge], slot: Slot) -> bool
    ensures { result ≡ is_narrow_among (map legacy_value bridges.now) slot }
{
    for entry in bridges {
        if is_narrow_at(entry, slot) {
            return true;
        }
    }
    false
}

/// Whether the bridge at a slot has a legacy part.
fn has_legacy_part(given: &Given<'_>, slot: Slot) -> bool
    ensures { result ≡ has_legacy_part (code_given_value given.now) slot }
{
    for entry in given.legacy {
        if is_at(entry, slot) {
            return true;
        }
    }
    false
}

/// The word by which the legacy part of the bridge at a slot decodes I/O addresses, behind a space.
fn legacy_word(given: &Given<'_>, slot: Slot) -> &'static str
    ensures { result.now ≡ spaced (legacy_words (code_given_value given.now) slot) }
{
    if is_narrow(given.legacy, slot) {
        " vga"
    } else if has_legacy_part(given, slot) {
        " vga16"
    } else {
        ""
    }
}

/// Appends ` vga` or ` vga16`, where the bridge at a slot has a legacy part.
pub fn push_legacy_word<A: Allocator>(
    text: &mut String<A>,
    given: &Given<'_>,
    slot: Slot,
) -> Result<(), AllocError>
    ensures { OnOk result (string_bytes text.new
        ≡ string_bytes text.old ++ spaced (legacy_words (code_given_value given.now) slot)) }
{
    text.push_str(legacy_word(given, slot))
}

/// What a legacy part has of a space.
fn legacy_name(is_narrow: bool, space: Space) -> &'static str
    ensures { result.now ≡ legacy_text is_narrow (space_of space) }
{
    match (space, is_narrow) {
        (Space::Mem, _) => "vga mem 00000000000a0000-00000000000bffff 128K",
        (Space::Io, true) => "vga io 000003b0-000003bb,000003c0-000003df of each 1K",
        (Space::Io, false) => "vga16 io 000003b0-000003bb,000003c0-000003df",
    }
}

/// What a palette part has of I/O space.
fn palette_name(is_narrow: bool) -> &'static str
    ensures { result.now ≡ palette_text is_narrow }
{
    if is_narrow {
        "snoop io 000003c6,000003c8-000003c9 of each 1K"
    } else {
        "snoop16 io 000003c6,000003c8-000003c9"
    }
}

/// Appends the line of a part of a bridge that a register names, and that has always the same addresses.
fn push_fixed_line<A: Allocator>(
    text: &mut String<A>,
    word: &'static str,
    slot: Slot,
    reg: u8,
    name: &'static str,
) -> Result<(), AllocError>
    ensures { OnOk result
        (string_bytes text.new ≡ string_bytes text.old ++ fixed_line word.now slot reg name.now) }
{
    text.push_str("  ")?;
    text.push_str(word)?;
    text.push_str(" ")?;
    push_slot(text, slot)?;
    text.push_str(" ")?;
    push_byte(text, reg)?;
    text.push_str(" ")?;
    text.push_str(name)?;
    end_line(text)
}

/// Appends the line of a legacy part, as `second 00:01.0 3e vga mem 00000000000a0000-00000000000bffff 128K`.
pub fn push_legacy_line<A: Allocator>(
    text: &mut String<A>,
    word: &'static str,
    slot: Slot,
    is_narrow: bool,
    space: Space,
) -> Result<(), AllocError>
    ensures { OnOk result (string_bytes text.new ≡ string_bytes text.old
        ++ legacy_line word.now slot is_narrow (space_of space)) }
{
    let name = legacy_name(is_narrow, space);
    push_fixed_line(text, word, slot, BRIDGE_CONTROL, name)
}

/// Appends the line of a palette part, as `first 00:01.0 04 snoop io 000003c6,000003c8-000003c9 of each 1K`.
pub fn push_palette_line<A: Allocator>(
    text: &mut String<A>,
    word: &'static str,
    slot: Slot,
    is_narrow: bool,
) -> Result<(), AllocError>
    ensures { OnOk result
        (string_bytes text.new ≡ string_bytes text.old ++ palette_line word.now slot is_narrow) }
{
    let name = palette_name(is_narrow);
    push_fixed_line(text, word, slot, COMMAND, name)
}
