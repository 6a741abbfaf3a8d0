//! Numbers of addresses.
ghost use Rattle.std.specs.Prelude.{◌≡◌, ◌≤◌, ◌++◌, OnOk};
ghost use Rattle.std.specs.String.{string_bytes};
ghost use Rattle.std.specs.Fmt.{decimal};
ghost use Rattle.pci_spec.specs.Why.{amount_text, address_count};
ghost use Rattle.pci_base.specs.Ranges.{decoded_range_of};
ghost use Rattle.pci_listing.specs.Amounts.{unit_text};

use pci_base::range::Range;
use std::alloc::{AllocError, Allocator};

/// How many units there are above a single address.
const UNITS: u32 = 6;

/// The letter of a unit, none of a single address.
pub fn unit_name(unit: u32) -> &'static str
    // 2^60 is the largest power of 1,024 below 2^64
    requires { unit ≤ 6 }
    ensures { result.now ≡ unit_text unit }
{
    match unit {
        0 => "",
        1 => "K",
        2 => "M",
        3 => "G",
        4 => "T",
        5 => "P",
        _ => "E",
    }
}

/// A number, and of which unit: by how many times 1024 it is.
#[derive(Clone, Copy)]
pub struct Amount {
    pub number: u128,
    pub unit: u32,
}

/// A number of addresses in the greatest unit of which it is a whole number.
pub fn amount_of(number: u128) -> Amount
    ensures unit { result.unit ≤ 6 }
    ensures text { decimal result.number ++ unit_text result.unit ≡ amount_text number }
{
    let mut scaled = number;
    for unit in 0..UNITS {
        if scaled % 1024 != 0 {
            return Amount {
                number: scaled,
                unit,
            };
        }
        scaled /= 1024;
    }
    Amount {
        number: scaled,
        unit: UNITS,
    }
}

/// Appends a number of units.
fn push_number<A: Allocator>(
    text: &mut String<A>,
    number: u128,
    unit: u32,
) -> Result<(), AllocError>
    requires { unit ≤ 6 }
    ensures { OnOk result
        (string_bytes text.new ≡ string_bytes text.old ++ (decimal number ++ unit_text unit)) }
{
    write!(text, "{number}")?;
    text.push_str(unit_name(unit))
}

/// Appends a number of addresses, as `64K`. All of memory space are `16E`, and none would be `0E`.
pub fn push_count<A: Allocator>(text: &mut String<A>, number: u128) -> Result<(), AllocError>
    ensures { OnOk result (string_bytes text.new ≡ string_bytes text.old ++ amount_text number) }
{
    let amount = amount_of(number);
    push_number(text, amount.number, amount.unit)
}

/// Appends how many addresses a range has.
pub fn push_amount<A: Allocator>(text: &mut String<A>, range: Range) -> Result<(), AllocError>
    // else it has no number of addresses to tell
    requires { range.first ≤ range.last }
    ensures { OnOk result (string_bytes text.new
        ≡ string_bytes text.old ++ amount_text (address_count (decoded_range_of range))) }
{
    push_count(text, u128::from(range.last - range.first) + 1)
}
