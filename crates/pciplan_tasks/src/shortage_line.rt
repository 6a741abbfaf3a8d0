//! The line that tells what a class lacks that doesn't fit its pool.
ghost use Rattle.std.specs.Prelude.{◌≡◌, ◌≤◌, ◌^◌, ◌++◌, OnOk};
ghost use Rattle.std.specs.String.{string_bytes};
ghost use Rattle.pci_spec.specs.System.{window_space};
ghost use Rattle.plan_spec.specs.PlanLine.{count_text, digits_above, shortage_line, start_text};
ghost use Rattle.pci_spec.specs.Line.{hex_number};
ghost use Rattle.pci_base.specs.WindowKinds.{kind_value};
ghost use Rattle.pci_place.specs.Shortages.{shortage_value};

use pci_base::window_kind::WindowKind;
use pci_listing::amount::push_count;
use pci_listing::hex_text::push_hex;
use pci_place::room::Shortage;
use std::alloc::{AllocError, Allocator};
use std::fmt::Write;

/// What 8 hex digits hold, and what 16 do.
const IO_DIGITS: u128 = 0x1_0000_0000;

const MEMORY_DIGITS: u128 = 0x1_0000_0000_0000_0000;

/// Appends a number of addresses, of which there may be none.
fn push_addresses<A: Allocator>(text: &mut String<A>, number: u128) -> Result<(), AllocError>
    ensures { OnOk result (string_bytes text.new ≡ string_bytes text.old ++ count_text number) }
{
    if number == 0 {
        return text.push('0');
    }
    push_count(text, number)
}

/// Appends a number in hex by what is above its last digits, which may be nothing, and these.
fn push_long_hex<A: Allocator>(
    text: &mut String<A>,
    above: u64,
    last: u64,
    digits: u32,
) -> Result<(), AllocError>
    requires { digits ≤ 16 }
    ensures { OnOk result (string_bytes text.new
        ≡ string_bytes text.old ++ (digits_above above ++ hex_number digits last)) }
{
    if above != 0 {
        write!(text, "{above:x}")?;
    }
    push_hex(text, last, digits)
}

/// Appends an address of a class, or one past the end of its space.
fn push_start<A: Allocator>(
    text: &mut String<A>,
    class: WindowKind,
    start: u128,
) -> Result<(), AllocError>
    requires { start ≤ 2 ^ 66 }
    ensures { OnOk result (string_bytes text.new
        ≡ string_bytes text.old ++ start_text (window_space (kind_value class)) start) }
{
    match class {
        WindowKind::Io => push_long_hex(
            text,
            (start / IO_DIGITS) as u64,
            (start % IO_DIGITS) as u64,
            8,
        ),
        WindowKind::Memory | WindowKind::Prefetchable => push_long_hex(
            text,
            (start / MEMORY_DIGITS) as u64,
            (start % MEMORY_DIGITS) as u64,
            16,
        ),
    }
}

/// Appends the line of what a class lacks, as `  needs 68K from 00000000e0010000, has 2K`.
pub fn push_shortage<A: Allocator>(
    text: &mut String<A>,
    class: WindowKind,
    lacking: Shortage,
) -> Result<(), AllocError>
    // so what stands above its last digits fits 64 bits
    requires { lacking.start ≤ 2 ^ 66 }
    ensures { OnOk result (string_bytes text.new ≡ string_bytes text.old
        ++ shortage_line (kind_value class) (shortage_value lacking)) }
{
    text.push_str("  needs ")?;
    push_addresses(text, lacking.needed)?;
    text.push_str(" from ")?;
    push_start(text, class, lacking.start)?;
    text.push_str(", has ")?;
    push_addresses(text, lacking.available)?;
    text.push('\n')
}
