//! The lines after a slot line.
ghost use Rattle.std.specs.Prelude.{◌≡◌, ◌<◌, ◌++◌, ◌∷◌, [], length, drop, false, IsTrue, OnOk, IfErr};
ghost use Rattle.pci_spec.specs.Form.{Fits, row_cells, rows_text};
ghost use Rattle.pci_dump.specs.Value.{AreSmall};
ghost use Rattle.pci_dump.specs.Row.{IsRowRead};
ghost use Rattle.pci_dump.specs.BlockFault.{RowStops, RestStops};

use super::parse::{BlockFault, LINES_LEN};
use super::row::{ROW_LEN, ROW_OF_ZEROS, row_into};
use super::tail::last_zeros_into;
use pci_base::digit::digit_of;
use pci_base::image::IMAGE_LEN;

/// The line of a row goes into its sixteen places of an image. False where that isn't such a line.
#[inline(always)]
fn read_row(line: &[u8], row: u8, image: &mut [u8; IMAGE_LEN]) -> bool
    requires line { length line.now ≡ 52 }
    requires row { row < 16 }
    ensures yes { IsTrue result → IsRowRead row line.now image.old image.new }
    ensures no { result ≡ false → Fits (row_cells row) line.now → ⊥ }
{
    let at = 16 * usize::from(row);
    row_into(line, row, &mut image[at..at + 16])
}

/// What a line that the input ends in stops at.
fn part_of_row(part: &[u8], row: u8) -> BlockFault
    requires short { length part.now < 52 }
    requires within { row < 16 }
    ensures { RowStops row part.now result }
{
    let mut line = ROW_OF_ZEROS;
    line[0] = digit_of(row);
    line[..part.len()].copy_from_slice(part);
    let mut values = [0u8; 16];
    if row_into(&line, row, &mut values) {
        BlockFault::Ended(row)
    } else {
        BlockFault::BadLine(row)
    }
}

/// The sixteen lines of bytes and the empty line. At a stop the image may hold some of them.
pub(crate) fn image_into(bytes: &[u8], image: &mut [u8; IMAGE_LEN]) -> Result<(), BlockFault>
    ensures ok { OnOk result
        (bytes.now ≡ (rows_text 0 16 image.new ++ 10 ∷ []) ++ drop 833 bytes.now) }
    ensures image { OnOk result ((length image.new ≡ 256) × AreSmall image.new) }
    ensures err { IfErr result (λ stop. RestStops bytes.now stop) }
{
    if bytes.len() < LINES_LEN {
        return last_image_into(bytes, image);
    }
    let zeros = last_zeros_into(bytes, image);
    for row in 0..zeros {
        let at = ROW_LEN * usize::from(row);
        if !read_row(&bytes[at..at + ROW_LEN], row, image) {
            return Err(BlockFault::BadLine(row));
        }
    }
    if zeros < 16 {
        return Ok(());
    }
    if bytes[LINES_LEN - 1] != b'\n' {
        return Err(BlockFault::NoBlank);
    }
    Ok(())
}

/// The same near the input's end.
fn last_image_into(bytes: &[u8], image: &mut [u8; IMAGE_LEN]) -> Result<(), BlockFault>
    ensures ok { OnOk result
        (bytes.now ≡ (rows_text 0 16 image.new ++ 10 ∷ []) ++ drop 833 bytes.now) }
    ensures image { OnOk result ((length image.new ≡ 256) × AreSmall image.new) }
    ensures err { IfErr result (λ stop. RestStops bytes.now stop) }
{
    let mut rest = bytes;
    for row in 0..16 {
        if rest.len() < ROW_LEN {
            return Err(part_of_row(rest, row));
        }
        let (line, next) = rest.split_at(ROW_LEN);
        if !read_row(line, row, image) {
            return Err(BlockFault::BadLine(row));
        }
        rest = next;
    }
    match rest.first() {
        None => Err(BlockFault::Ended(16)),
        Some(b'\n') => Ok(()),
        Some(_) => Err(BlockFault::NoBlank),
    }
}
