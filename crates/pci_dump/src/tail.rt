//! Lines of zeros at a block's end.
ghost use Rattle.std.specs.Prelude.{◌≡◌, ◌<◌, ◌≤◌, ◌-◌, ◌*◌, ◌++◌, take, drop, replicate};
ghost use Rattle.pci_dump.specs.LastZeros.{HasZeros};

use super::parse::LINES_LEN;
use super::row::{ROW_LEN, is_zero_row};
use pci_base::image::IMAGE_LEN;

/// The row from which on lines of zeros are looked for: that of 40h, behind the header's registers.
const FIRST_ROW: u8 = 4;

/// From which row on a block's lines hold zeros alone, not above that of 40h. 16 where the last one holds another byte,
/// or there are not enough bytes for a block's lines, or no empty line follows.
///
/// They are looked at from the last one up: so each is looked at once, and its place and offset are known to the compiler.
/// Apart from its caller, whose registers would be moved about at each line.
#[inline(never)]
fn first_of_last_zeros(bytes: &[u8]) -> u8
    ensures behind { 4 ≤ result }
    ensures within { result ≤ 16 }
    ensures zeros { result < 16 → HasZeros bytes.now result (16 - result) }
{
    if bytes.len() < LINES_LEN || bytes[LINES_LEN - 1] != b'\n' {
        return 16;
    }
    for count in 0..16 - FIRST_ROW {
        let row = 15 - count;
        let at = ROW_LEN * usize::from(row);
        if !is_zero_row(&bytes[at..at + ROW_LEN], row) {
            return row + 1;
        }
    }
    FIRST_ROW
}

/// Zeros from a row of an image on.
#[inline(always)]
fn put_last_zeros(image: &mut [u8; IMAGE_LEN], row: u8)
    requires { row < 16 }
    ensures { image.new ≡ take (16 * row) image.old ++ replicate (16 * (16 - row)) 0 }
{
    image[16 * usize::from(row)..].fill(0);
}

/// From which row on a block's lines hold zeros alone, 16 where no line is left for that. The image has zeros there; what
/// it has in the rows before is still to be read.
#[inline(always)]
pub(crate) fn last_zeros_into(bytes: &[u8], image: &mut [u8; IMAGE_LEN]) -> u8
    ensures within { result ≤ 16 }
    ensures zeros { result < 16 → HasZeros bytes.now result (16 - result) }
    ensures image { result < 16 → drop (16 * result) image.new ≡ replicate (16 * (16 - result)) 0 }
{
    let first = first_of_last_zeros(bytes);
    if first < 16 {
        // from one row for all blocks, so that the compiler knows how many
        put_last_zeros(image, FIRST_ROW);
    }
    first
}
