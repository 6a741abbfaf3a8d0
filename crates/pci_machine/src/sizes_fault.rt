//! The fault of a sizes text at a block.
ghost use Rattle.std.specs.Prelude.{◌≡◌, ◌≤◌, ◌<◌, ◌↔◌, false, length, take, slice_index, IsTrue};
ghost use Rattle.pci_spec.specs.Form.{Takes, Fits, Digit};
ghost use Rattle.pci_spec.specs.Slot.{IsRising};
ghost use Rattle.pci_spec.specs.SizesText.{IsSizes, sized_slots};
ghost use Rattle.pci_spec.specs.SizesForm.{sizes_cells};
ghost use Rattle.pci_spec.specs.SizesStops.{cell_at, ends_before, SlotFollows, SlotIsLow};
ghost use Rattle.pci_machine.specs.SizesFault.{IsSizesFaultAfter, IsNoBlockAfter};

use super::sizes::SizesBlock;
use super::sizes_block::{BLOCK_LEN, may_follow};
use pci_base::digit::digit_value;
use pci_dump::read_fault::ReadFault;
use pci_dump::slot_text::slot_of;

/// The text of the greatest block: where it has a digit `f`, `7` or `1`, each block has one of at most that, and elsewhere the same byte.
static GREATEST: [u8; BLOCK_LEN] = *b"ff:1f.7\n\
0xffffffffffffffff 0xffffffffffffffff 0xffffffffffffffff\n\
0xffffffffffffffff 0xffffffffffffffff 0xffffffffffffffff\n\
0xffffffffffffffff 0xffffffffffffffff 0xffffffffffffffff\n\
0xffffffffffffffff 0xffffffffffffffff 0xffffffffffffffff\n\
0xffffffffffffffff 0xffffffffffffffff 0xffffffffffffffff\n\
0xffffffffffffffff 0xffffffffffffffff 0xffffffffffffffff\n\
0xffffffffffffffff 0xffffffffffffffff 0xffffffffffffffff\n\
\n";

/// Whether a byte is a hex digit of at most `most`.
fn is_digit(byte: u8, most: u8) -> bool
    requires { most ≤ 15 }
    ensures { IsTrue result ↔ Takes (Digit most) byte }
{
    match digit_value(byte) {
        None => false,
        Some(digit) => digit <= most,
    }
}

/// Whether a byte may stand at a place of a block.
fn goes_in(place: usize, byte: u8) -> bool
    requires { place < 408 }
    ensures { IsTrue result ↔ Takes (cell_at place) byte }
{
    let greatest = GREATEST[place];
    if greatest == b'f' {
        return is_digit(byte, 15);
    }
    if greatest == b'7' {
        return is_digit(byte, 7);
    }
    if greatest == b'1' {
        return is_digit(byte, 1);
    }
    byte == greatest
}

/// The first place of a byte that may not stand there, or the number of bytes.
fn first_misfit(bytes: &[u8]) -> usize
    requires { length bytes.now ≤ 408 }
    ensures within { result ≤ length bytes.now }
    ensures fits { Fits (take result sizes_cells) (take result bytes.now) }
    ensures wrong { result < length bytes.now
        → Takes (cell_at result) (slice_index bytes.now result) → ⊥ }
{
    for place in 0..bytes.len() {
        if !goes_in(place, bytes[place]) {
            return place;
        }
    }
    bytes.len()
}

/// The number of line ends before a place of a block.
fn ends_before(place: usize) -> u64
    requires { place < 408 }
    ensures { result ≡ ends_before place }
{
    if place < 8 {
        0
    } else {
        1 + (place as u64 - 8) / 57
    }
}

/// Whether a slot, where the first `place` bytes of a block have the whole of it, may stand after those of some blocks.
fn slot_follows(bytes: &[u8], place: usize, blocks: &[SizesBlock]) -> bool
    requires within { place ≤ length bytes.now }
    requires fits { Fits (take place sizes_cells) (take place bytes.now) }
    requires rising { IsRising (sized_slots blocks.now) }
    ensures yes { IsTrue result → SlotFollows blocks.now bytes.now place }
    ensures no { result ≡ false → SlotIsLow blocks.now bytes.now place }
{
    if place < 7 {
        return true;
    }
    match slot_of(&bytes[0..7]) {
        None => false,
        Some(slot) => may_follow(blocks, slot),
    }
}

/// The fault of a text that goes on so after some blocks: a block's bytes, or fewer where the text ends, that are no
/// block that may stand there.
pub(crate) fn fault_after(blocks: &[SizesBlock], bytes: &[u8]) -> ReadFault
    requires sizes { IsSizes blocks.now }
    requires room { length blocks.now < 4096 }
    requires some { 1 ≤ length bytes.now }
    requires few { length bytes.now ≤ 408 }
    requires no_block { IsNoBlockAfter blocks.now bytes.now }
    ensures { IsSizesFaultAfter blocks.now bytes.now result }
{
    let first = 9 * (blocks.len() as u64) + 1;
    let place = first_misfit(bytes);
    if !slot_follows(bytes, place, blocks) {
        return ReadFault::Order(first);
    }
    let line = first + ends_before(place);
    if place == bytes.len() {
        ReadFault::Ended(line)
    } else if place < 8 {
        ReadFault::BadSlot(line)
    } else if place < 407 {
        ReadFault::BadLine(line)
    } else {
        ReadFault::NoBlank(line)
    }
}
