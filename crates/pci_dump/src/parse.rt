//! A block at the front of some bytes.
ghost use Rattle.std.specs.Prelude.{◌≡◌, ◌<◌, ◌≤◌, length, ◌≢◌, [], IfOk, IfErr};
ghost use Rattle.pci_dump.specs.BlockFault.{BlockStops, TitleStops, SlotStops, IsBlockAt, IsHead, head_long, title_at};
ghost use Rattle.pci_dump.specs.TitleRun.{IsTitleFront};

use super::block::{Block, TITLE_MAX, Title, is_title};
use super::lanes::title_run;
use super::row::ROW_LEN;
use super::rows::image_into;
use super::slot_text::slot_of;
use pci_base::slot::Slot;

/// How many bytes `bb:dd.f` has.
pub(crate) const SLOT_LEN: usize = 7;

/// How many bytes follow the slot line: sixteen rows and the empty line.
pub(crate) const LINES_LEN: usize = 16 * ROW_LEN + 1;

/// Where a block stops.
#[derive(Clone, Copy, Debug, PartialEq, Eq)]
pub(crate) enum BlockFault {
    BadSlot,
    BadTitle,
    /// In a row.
    BadLine(u8),
    NoBlank,
    Order,
    /// After so many lines that follow the slot line.
    Ended(u8),
    /// In the slot line.
    EndedFirst,
}

/// How many bytes of a title stand in front, at most 200. Sixteen at a time, where there are enough of them.
fn title_len(bytes: &[u8]) -> usize
    ensures { IsTitleFront bytes.now result }
{
    if bytes.len() < 208 {
        return last_title_len(bytes);
    }
    for part in 0..13 {
        let run = title_run(bytes, 16 * part);
        if run < 16 {
            return usize::min(16 * part + run, TITLE_MAX);
        }
    }
    TITLE_MAX
}

/// The same near the input's end.
fn last_title_len(bytes: &[u8]) -> usize
    ensures { IsTitleFront bytes.now result }
{
    for i in 0..TITLE_MAX {
        if i == bytes.len() || !is_title(bytes[i]) {
            return i;
        }
    }
    TITLE_MAX
}

/// What a slot that the input ends in stops at.
fn part_of_slot(part: &[u8]) -> BlockFault
    requires { length part.now < 7 }
    ensures { SlotStops part.now result }
{
    let mut text = *b"00:00.0";
    text[..part.len()].copy_from_slice(part);
    match slot_of(&text) {
        None => BlockFault::BadSlot,
        Some(_) => BlockFault::EndedFirst,
    }
}

/// What follows a slot in its line: how long the title is, 0 where there is none.
fn title_in(bytes: &[u8]) -> Result<usize, BlockFault>
    ensures few { IfOk result (λ n. n ≤ 200) }
    ensures ok { IfOk result (λ n. IsHead bytes.now n) }
    ensures err { IfErr result (λ stop. TitleStops bytes.now stop) }
{
    match bytes.first() {
        None => return Err(BlockFault::EndedFirst),
        Some(b'\n') => return Ok(0),
        Some(b' ') => {}
        Some(_) => return Err(BlockFault::BadSlot),
    }
    let (_space, rest) = bytes.split_at(1);
    let len = title_len(rest);
    if len == rest.len() {
        return Err(BlockFault::EndedFirst);
    }
    if len == 0 || rest[len] != b'\n' {
        return Err(BlockFault::BadTitle);
    }
    Ok(len)
}

/// Reads the block at the front of some bytes into `block`, and answers how many bytes its text has. They are all that
/// are left, or 1042 and more. At a stop `block` may hold parts of it.
pub(crate) fn block_into(
    bytes: &[u8],
    last: Option<Slot>,
    block: &mut Block,
) -> Result<usize, BlockFault>
    requires { bytes.now ≢ [] }
    ensures ok { IfOk result (λ used. IsBlockAt last bytes.now block.new used) }
    ensures err { IfErr result (λ stop. BlockStops last bytes.now stop) }
{
    if bytes.len() < SLOT_LEN {
        return Err(part_of_slot(bytes));
    }
    let (text, after) = bytes.split_at(SLOT_LEN);
    let slot = match slot_of(text) {
        None => return Err(BlockFault::BadSlot),
        Some(slot) => slot,
    };
    if !slot.may_follow(last) {
        return Err(BlockFault::Order);
    }
    let title_len = title_in(after)?;
    let head = head_len(title_len);
    let (_line, rest) = after.split_at(head);
    image_into(rest, &mut block.image.0)?;
    block.slot = slot;
    title_into(after, title_len, &mut block.title);
    Ok(SLOT_LEN + head + LINES_LEN)
}

/// How many bytes a slot line has after the slot.
fn head_len(title_len: usize) -> usize
    requires { title_len ≤ 200 }
    ensures { result ≡ head_long title_len }
{
    if title_len == 0 { 1 } else { title_len + 2 }
}

/// The title of so many bytes after a slot and a space goes into `place`, none for 0.
fn title_into(after: &[u8], title_len: usize, place: &mut Option<Title>)
    requires { IsHead after.now title_len }
    ensures { place.new ≡ title_at after.now title_len }
{
    if title_len == 0 {
        // a title's place is 216 bytes long
        if place.is_some() {
            *place = None;
        }
        return;
    }
    let (_space, rest) = after.split_at(1);
    let (bytes, _end) = rest.split_at(title_len);
    match place {
        Some(title) => title.set(bytes),
        None => *place = Some(Title::of_title(bytes)),
    }
}
