//! Machines in memory with functions of bus 00, and calls of them.
use pci_base::image::Image;
use pci_base::memory::Refused;
use pci_base::slot::Slot;
use pci_dump::block::Block;
use pci_dump::dump::Dump;
use pci_function::fault::PairFault;
use pci_machine::machine::Machine;
use pci_machine::port::{ConfigPort, PortError};
use pci_machine::size::size;
use pci_machine::size_fault::SizeFault;
use std::alloc::Global;
use test_support::registers;
use test_support::registers::Registers;

/// A slot of bus 00.
pub fn slot(dev: u8) -> Option<Slot> {
    Slot::new(0, dev, 0)
}

/// A device with all decode bits set, a pending error in Status, and a BAR of 1 MB.
pub fn device() -> Registers {
    registers::device()
        .register(0x04, 0xf900_0003, 0)
        .register(0x10, 0xfe00_0000, 0xfff0_0000)
}

/// A bridge whose windows are all there.
pub fn bridge() -> Registers {
    registers::bridge()
        .register(0x04, 0x0000_0003, 0)
        .register(0x18, 0x0001_0100, 0)
        .register(0x1c, 0xf900_f1e1, 0x0000_f1f1)
        .register(0x20, 0xe010_e000, 0xfff0_fff0)
        .register(0x24, 0x0001_0001, 0xfff1_fff1)
        .register(0x28, 0x0000_0001, 0xffff_ffff)
        .register(0x2c, 0x0000_0001, 0xffff_ffff)
        .register(0x30, 0x0001_0001, 0xffff_ffff)
        .register(0x38, 0xfe00_0001, 0xfffe_0000)
}

/// A device with a prefetchable BAR and two capabilities, with power management and MSI.
pub fn capable_device() -> Registers {
    registers::list_at(0x40)
        .half(0x04, 0x0002, 0)
        .register(0x10, 0xfe00_0008, 0xfff0_0008)
        .register(0x40, 0x0002_5001, 0)
        .register(0x50, 0x0080_0005, 0)
        .register(0x54, 0xfee0_0000, 0)
        .register(0x5c, 0x0000_4041, 0)
}

/// Appends function 0 of a device of bus 00 to a dump.
pub fn add(dump: &mut Dump, dev: u8, image: Image) -> bool {
    let Some(slot) = slot(dev) else {
        return false;
    };
    let pushed = dump.push(Block {
        slot,
        title: None,
        image,
    });
    pushed.is_ok()
}

/// The machine of a dump and a probe, or why there is none.
pub fn machine_of_pair(
    alloc: Global,
    dump: &Dump,
    probe: &Dump,
) -> Result<Machine, Refused<PairFault>> {
    Machine::of(alloc, dump, probe)
}

/// A machine with one function, at 00:00.0.
pub fn machine_with(alloc: Global, function: Registers) -> Option<Machine> {
    let mut dump = Dump::empty(alloc);
    let mut probe = Dump::empty(alloc);
    if add(&mut dump, 0, function.image) && add(&mut probe, 0, function.probe) {
        machine_of_pair(alloc, &dump, &probe).ok()
    } else {
        None
    }
}

/// What sizing finds.
pub fn sized(machine: &mut Machine, slot: Slot) -> Result<Image, SizeFault> {
    size(machine, slot)
}

/// The image that a machine has at a slot.
pub fn image_at(machine: &Machine, slot: Slot) -> Option<Image> {
    machine.image(slot).copied()
}

/// What a read answers.
pub fn read_at(machine: &mut Machine, slot: Slot, off: u8, width: u8) -> Result<u32, PortError> {
    machine.read(slot, off, width)
}

/// What a write answers.
pub fn write_at(
    machine: &mut Machine,
    slot: Slot,
    off: u8,
    width: u8,
    value: u32,
) -> Result<(), PortError> {
    machine.write(slot, off, width, value)
}
