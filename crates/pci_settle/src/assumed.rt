//! Parts whose read backs are assumed: the titles of a derived probe name their registers.
ghost use Rattle.std.specs.Prelude.{◌≡◌, [], false};
ghost use Rattle.std.specs.Option.{option_map};
ghost use Rattle.pci_spec.specs.Text.{IsDump};
ghost use Rattle.pci_spec.specs.Mark.{all_named};
ghost use Rattle.settle_spec.specs.Assumed.{assumed_region};
ghost use Rattle.pci_place.specs.Above.{system_in};
ghost use Rattle.pci_settle.specs.Fixed.{assumed_part};
ghost use Rattle.pci_settle.specs.Assumed.{bar_assumed, rom_assumed, record_assumed};

use crate::lack::SettleFault;
use pci_base::slot::Slot;
use pci_dump::block::Block;
use pci_dump::mark::{is_size_assumed, marked};
use pci_function::record::Record;
use pci_image::bar::Bar;
use pci_settle_places::claim::is_rom_on;
use pci_tree::admitted::Admitted;
use std::alloc::Allocator;

/// The offset of the first BAR whose read back is assumed.
fn bar_assumed(probe: &[Block], slot: Slot, bars: &[Bar]) -> Option<u8>
    requires { IsDump probe.now }
    ensures { result ≡ bar_assumed (all_named probe.now) slot bars.now }
{
    for bar in bars {
        if is_size_assumed(probe, slot, bar.reg) {
            return Some(bar.reg);
        }
    }
    None
}

/// The offset of a ROM that is on and whose read back is assumed.
fn rom_assumed(probe: &[Block], record: &Record) -> Option<u8>
    requires { IsDump probe.now }
    ensures { result ≡ rom_assumed (all_named probe.now) «record».now }
{
    let register = record.rom_register();
    if is_rom_on(record.rom) && is_size_assumed(probe, record.slot, register) {
        Some(register)
    } else {
        None
    }
}

/// The fault where the read back of a function's BAR, or of its ROM that is on, is assumed.
fn record_assumed(probe: &[Block], record: &Record) -> Option<SettleFault>
    requires { IsDump probe.now }
    ensures { result ≡ record_assumed (all_named probe.now) «record».now }
{
    let bar = bar_assumed(probe, record.slot, record.bars.as_slice());
    let reg = bar.or(rom_assumed(probe, record))?;
    Some(SettleFault::Assumed {
        slot: record.slot,
        reg,
    })
}

/// Whether a title names a register; where none does, no function has to be looked at.
fn names_any(probe: &[Block]) -> bool
    ensures { result ≡ false → all_named probe.now ≡ [] }
{
    for block in probe {
        let registers = marked(&block.title);
        if !registers.is_empty() {
            return true;
        }
    }
    false
}

/// The fault 76 with the first BAR, or ROM that is on, by slot and register, whose read back is assumed: the title of its
/// function's block in the probe names its register.
pub fn first_assumed<A: Allocator>(admitted: &Admitted<A>) -> Option<SettleFault>
    ensures { result ≡ option_map assumed_part
        (assumed_region (all_named admitted.now.probe) (system_in admitted.now)) }
{
    let probe = admitted.probe().blocks();
    if !names_any(probe) {
        return None;
    }
    let outline = admitted.outline();
    let records = outline.records();
    for k in 0..records.len() {
        let record = &records[k];
        let fault = record_assumed(probe, record);
        if fault.is_some() {
            return fault;
        }
    }
    None
}
