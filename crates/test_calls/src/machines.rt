//! What sizing does access by access, what a machine answers, and which machines are refused.
use crate::setting::{
    add, bridge, capable_device, device, image_at, machine_of_pair, machine_with, read_at, sized,
    slot, write_at,
};
use pci_base::image::Image;
use pci_base::memory::Refused;
use pci_base::slot::Slot;
use pci_dump::dump::Dump;
use pci_function::fault::PairFault;
use pci_image::fault::ImageFault;
use pci_machine::fail_at::FailAt;
use pci_machine::machine::Machine;
use pci_machine::port::{ConfigPort, PortError};
use pci_machine::size::size;
use pci_machine::size_fault::SizeFault;
use std::alloc::Global;
use std::test::Fail;
use test_support::registers;
use test_support::registers::{Registers, zeros};

/// What sizing does, and the image that it leaves.
type Sized = (Result<Image, SizeFault>, Image);

/// What sizing 00:00.0 of a machine does when its n-th access fails.
fn failing_on(machine: Machine, n: u64) -> Option<Sized> {
    let here = slot(0)?;
    let mut port = FailAt::new(machine, n);
    let found = sized_on(&mut port, here);
    let left = image_at(&port.into_inner(), here)?;
    Some((found, left))
}

/// The same of a machine with one function.
fn failing(alloc: Global, function: Registers, n: u64) -> Option<Sized> {
    failing_on(machine_with(alloc, function)?, n)
}

/// What each access of sizing is made to, after those to the header and Command.
const DEVICE_REGISTERS: [u8; 7] = [0x10, 0x14, 0x18, 0x1c, 0x20, 0x24, 0x30];

const BRIDGE_REGISTERS: [u8; 9] = [0x10, 0x14, 0x1c, 0x20, 0x24, 0x28, 0x2c, 0x30, 0x38];

/// The offset of an access, counted from 1.
fn offset_of(registers: &[u8], n: usize) -> u8 {
    match n {
        1 => 0x00,
        2 => 0x0e,
        3 | 4 | 5 => 0x04,
        _ => registers
            .get(n.saturating_sub(6) / 4)
            .map_or(0x04, |register| *register),
    }
}

/// The image that is left when the n-th access fails: Command without its decode bits from the
/// fifth on, and a register as it reads back where ones were written and not the old value.
fn left_by(function: Registers, registers: &[u8], n: usize) -> Image {
    let Image(mut bytes) = function.image;
    if 5 <= n {
        bytes[4] -= bytes[4] % 4;
    }
    if 6 <= n && 2 <= (n - 6) % 4 {
        if let Some(register) = registers.get((n - 6) / 4) {
            let from = usize::from(*register);
            let width = if bytes[14] % 128 == 1 && from == 0x1c {
                2
            } else {
                4
            };
            for at in from..from + width {
                if at < 256 {
                    bytes[at] = function.probe.0[at];
                }
            }
        }
    }
    Image(bytes)
}

/// What sizing answers when its n-th access fails.
fn fault_at(registers: &[u8], n: usize) -> SizeFault {
    SizeFault::Port {
        offset: offset_of(registers, n),
        fault: PortError::Failed,
        command: if n < 5 { None } else { Some(0x0003) },
    }
}

/// Whether sizing a function, of which these registers are sized, stops at its n-th access when that fails.
fn stops_at(alloc: Global, function: Registers, registers: &[u8], n: usize) -> bool {
    let answer = (Err(fault_at(registers, n)), left_by(function, registers, n));
    failing(alloc, function, n as u64) == Some(answer)
}

/// Whether sizing a function makes no n-th access.
fn ends_before(alloc: Global, function: Registers, n: usize) -> bool {
    failing(alloc, function, n as u64) == Some((Ok(function.probe), function.image))
}

/// The first access, if any, at which sizing a function, of which these registers are sized, doesn't do what it should;
/// it takes so many.
fn wrong_access(
    alloc: Global,
    function: Registers,
    registers: &[u8],
    accesses: usize,
) -> Option<usize> {
    for n in 1..=accesses {
        if !stops_at(alloc, function, registers, n) {
            return Some(n);
        }
    }
    for none in [0, accesses.saturating_add(1)] {
        if !ends_before(alloc, function, none) {
            return Some(none);
        }
    }
    None
}

#[test]
fn sizing_a_device_takes_34_accesses_and_a_bridge_42(rt: HostRuntime) {
    let of_device = wrong_access(rt.alloc(), device(), &DEVICE_REGISTERS, 34);
    assert!(rt; of_device == None, "{of_device:?}");
    let of_bridge = wrong_access(rt.alloc(), bridge(), &BRIDGE_REGISTERS, 42);
    assert!(rt; of_bridge == None, "{of_bridge:?}");
}

/// The fault of an access to a register that failed after Command was written.
fn failed_at(offset: u8) -> SizeFault {
    SizeFault::Port {
        offset,
        fault: PortError::Failed,
        command: Some(0x0003),
    }
}

#[test]
fn a_failing_read_back_leaves_the_register_open(rt: HostRuntime) -> Result<(), Fail> {
    let (found, left) = failing(rt.alloc(), device(), 8).ok_or("no machine")?;
    assert!(rt; found == Err(failed_at(0x10)));
    assert!(rt; left.u32(0x04) == 0xf900_0000 && left.u32(0x10) == 0xfff0_0000);
    Ok(())
}

#[test]
fn faults_of_sizing_and_of_ports_have_their_numbers(rt: HostRuntime) {
    assert!(rt; SizeFault::Header(ImageFault::NoVendor).number() == 20);
    assert!(rt; PortError::NoFunction.number() == 40);
    assert!(rt; PortError::BadAccess.number() == 41);
    assert!(rt; PortError::Failed.number() == 42);
    assert!(rt; failed_at(0x10).number() == 43);
    assert!(rt; SizeFault::Stuck.number() == 44);
}

/// Whether the memory decode bit of a function can be pinned, and there is none to pin at another slot.
fn pins_one(machine: &mut Machine, here: Slot, other: Slot) -> bool {
    machine.pin(here, 0x04, 0b10) && !machine.pin(other, 0x04, 0b10)
}

/// A machine with a device whose memory decode bit is pinned.
fn pinned(alloc: Global) -> Option<Machine> {
    let (here, other) = (slot(0)?, slot(1)?);
    let mut machine = machine_with(alloc, device())?;
    if pins_one(&mut machine, here, other) {
        Some(machine)
    } else {
        None
    }
}

#[test]
fn a_pinned_decode_bit_stops_sizing(rt: HostRuntime) -> Result<(), Fail> {
    let here = slot(0).ok_or("no slot")?;
    let mut machine = pinned(rt.alloc()).ok_or("not pinned")?;
    assert!(rt; sized(&mut machine, here) == Err(SizeFault::Stuck));
    assert!(rt; image_at(&machine, here) == Some(device().image));
    Ok(())
}

/// What sizing the pinned device does when its n-th access fails.
fn failing_pinned(alloc: Global, n: u64) -> Option<Sized> {
    failing_on(pinned(alloc)?, n)
}

#[test]
fn command_is_written_back_where_a_decode_bit_is_pinned(rt: HostRuntime) -> Result<(), Fail> {
    // the sixth access writes Command back
    let (found, left) = failing_pinned(rt.alloc(), 6).ok_or("no machine")?;
    assert!(rt; found == Err(failed_at(0x04)));
    assert!(rt; left.u32(0x04) == 0xf900_0002);
    Ok(())
}

/// What sizing answers on a port whose accesses may fail.
fn sized_on(port: &mut FailAt<Machine>, slot: Slot) -> Result<Image, SizeFault> {
    size(port, slot)
}

/// Whether a port whose first access fails sizes its function and none beside it.
fn sizes_one(port: &mut FailAt<Machine>, here: Slot, other: Slot, read_back: Image) -> bool {
    let fault = SizeFault::Port {
        offset: 0x00,
        fault: PortError::NoFunction,
        command: None,
    };
    // after the first answer the first access is still to fail
    sized_on(port, other) == Err(fault)
        && sized_on(port, here).is_err()
        && sized_on(port, here) == Ok(read_back)
}

#[test]
fn a_slot_without_a_function_is_not_sized(rt: HostRuntime) -> Result<(), Fail> {
    let device = device();
    let machine = machine_with(rt.alloc(), device).ok_or("no machine")?;
    let (here, other) = (slot(0).ok_or("no slot")?, slot(1).ok_or("no slot")?);
    assert!(rt; sizes_one(&mut FailAt::new(machine, 1), here, other, device.probe));
    Ok(())
}

/// A device of bus 00, an offset and a width, and what a read of them answers.
static READS: [(u8, u8, u8, Result<u32, PortError>); 14] = [
    (0, 0, 0, Err(PortError::BadAccess)),
    (0, 0, 3, Err(PortError::BadAccess)),
    (0, 0, 8, Err(PortError::BadAccess)),
    (0, 1, 2, Err(PortError::BadAccess)),
    (0, 2, 4, Err(PortError::BadAccess)),
    (0, 255, 2, Err(PortError::BadAccess)),
    (1, 0, 0, Err(PortError::NoFunction)),
    (1, 0, 3, Err(PortError::NoFunction)),
    (1, 0, 8, Err(PortError::NoFunction)),
    (1, 1, 2, Err(PortError::NoFunction)),
    (1, 2, 4, Err(PortError::NoFunction)),
    (1, 255, 2, Err(PortError::NoFunction)),
    (0, 255, 1, Ok(0)),
    (0, 0x10, 4, Ok(0xfe00_0000)),
];

/// A device of bus 00, an offset, a width and a value, and why they are not written.
static NO_WRITES: [(u8, u8, u8, u32, PortError); 3] = [
    (0, 0x3c, 1, 0x100, PortError::BadAccess),
    (0, 0x04, 2, 0x1_0000, PortError::BadAccess),
    (1, 0x04, 2, 0x1_0000, PortError::NoFunction),
];

/// Whether a read answers what its row says.
fn reads_so(machine: &mut Machine, row: &(u8, u8, u8, Result<u32, PortError>)) -> bool {
    let (dev, off, width, answer) = *row;
    match slot(dev) {
        Some(slot) => read_at(machine, slot, off, width) == answer,
        None => false,
    }
}

/// Whether a write is refused by what its row says.
fn refuses_write(machine: &mut Machine, row: &(u8, u8, u8, u32, PortError)) -> bool {
    let (dev, off, width, value, fault) = *row;
    match slot(dev) {
        Some(slot) => write_at(machine, slot, off, width, value) == Err(fault),
        None => false,
    }
}

#[test]
fn accesses_are_refused_by_40_and_then_41(rt: HostRuntime) -> Result<(), Fail> {
    let mut machine = machine_with(rt.alloc(), device()).ok_or("no machine")?;
    for row in &READS {
        assert!(rt; reads_so(&mut machine, row), "{row:?}");
    }
    for row in &NO_WRITES {
        assert!(rt; refuses_write(&mut machine, row), "{row:?}");
    }
    Ok(())
}

/// Offset, width, value that is written, offset of the four bytes that are read then, and what they are.
type Written = (u8, u8, u32, u8, u32);

static WRITTEN_TO_DEVICE: [Written; 7] = [
    (0x00, 4, 0xffff_ffff, 0x00, 0x5678_1234),
    (0x04, 4, 0xffff_ffff, 0x04, 0x0000_0547),
    (0x04, 2, 0x0000_0000, 0x04, 0xf900_0000),
    (0x06, 2, 0x0000_1000, 0x04, 0xe900_0003),
    (0x3c, 4, 0xffff_ffff, 0x3c, 0x0000_00ff),
    (0x10, 4, 0xffff_ffff, 0x10, 0xfff0_0000),
    (0x12, 1, 0x0000_00ff, 0x10, 0xfef0_0000),
];

static WRITTEN_TO_BRIDGE: [Written; 6] = [
    (0x18, 4, 0xffff_ffff, 0x18, 0x00ff_ffff),
    (0x1c, 4, 0x0000_0000, 0x1c, 0xf900_0101),
    (0x1c, 4, 0xffff_ffff, 0x1c, 0x0000_f1f1),
    (0x38, 4, 0xffff_ffff, 0x38, 0xfffe_0001),
    (0x38, 4, 0x0000_0000, 0x38, 0x0000_0000),
    (0x3c, 4, 0xffff_ffff, 0x3c, 0x0000_00ff),
];

/// Whether a write to the function of a machine leaves what its row says.
fn leaves_on(machine: &mut Machine, slot: Slot, row: &Written) -> bool {
    let (off, width, value, at, after) = *row;
    write_at(machine, slot, off, width, value) == Ok(())
        && read_at(machine, slot, at, 4) == Ok(after)
}

/// The same of a function.
fn leaves(alloc: Global, function: Registers, row: &Written) -> bool {
    match (slot(0), machine_with(alloc, function)) {
        (Some(slot), Some(mut machine)) => leaves_on(&mut machine, slot, row),
        _ => false,
    }
}

#[test]
fn writes_set_and_clear_just_the_bits_of_the_table(rt: HostRuntime) {
    for row in &WRITTEN_TO_DEVICE {
        assert!(rt; leaves(rt.alloc(), device(), row), "{row:?}");
    }
    for row in &WRITTEN_TO_BRIDGE {
        assert!(rt; leaves(rt.alloc(), bridge(), row), "{row:?}");
    }
}

/// Whether a dump and a probe make no machine because of this fault.
fn make_none(alloc: Global, dump: &Dump, probe: &Dump, fault: PairFault) -> bool {
    machine_of_pair(alloc, dump, probe).err() == Some(Refused::Fault(fault))
}

/// Whether a function at 00:00.0 makes none.
fn is_refused(alloc: Global, function: Registers, fault: PairFault) -> bool {
    let mut dump = Dump::empty(alloc);
    let mut probe = Dump::empty(alloc);
    add(&mut dump, 0, function.image)
        && add(&mut probe, 0, function.probe)
        && make_none(alloc, &dump, &probe, fault)
}

/// A function all of whose read backs are 0.
fn unprobed(function: Registers) -> Registers {
    Registers {
        image: function.image,
        probe: zeros().probe,
    }
}

#[test]
fn a_dump_and_probe_that_are_no_pair_make_no_machine(rt: HostRuntime) -> Result<(), Fail> {
    let here = slot(0).ok_or("no slot")?;
    let rows = [
        (
            zeros().register(0x00, 0xffff_ffff, 0),
            PairFault::NoVendor(here),
        ),
        (
            registers::device().register(0x0c, 0x0002_0000, 0),
            PairFault::HeaderKind(here),
        ),
        (
            unprobed(device()).register(0x3c, 0, 0x0000_0100),
            PairFault::StrayProbe(here, 0x3d),
        ),
        (unprobed(device()), PairFault::BarMask(here, 0x10)),
        (unprobed(bridge()), PairFault::RomMask(here, 0x38)),
    ];
    for (function, fault) in rows {
        assert!(rt; is_refused(rt.alloc(), function, fault), "{fault:?}");
    }
    Ok(())
}

/// Whether a dump of the devices 0 and 2 and a probe of 0 and 3 make no machine because of this fault.
fn are_refused(alloc: Global, fault: PairFault) -> bool {
    let mut dump = Dump::empty(alloc);
    let mut probe = Dump::empty(alloc);
    add(&mut dump, 0, device().image)
        && add(&mut dump, 2, device().image)
        && add(&mut probe, 0, device().probe)
        && add(&mut probe, 3, device().probe)
        && make_none(alloc, &dump, &probe, fault)
}

#[test]
fn a_dump_and_probe_of_other_slots_make_no_machine(rt: HostRuntime) -> Result<(), Fail> {
    let second = slot(2).ok_or("no slot")?;
    assert!(rt; are_refused(rt.alloc(), PairFault::SlotsDiffer(second)));
    Ok(())
}

/// The function that a machine of six functions has at a device of bus 00.
fn one_of_six(dev: u8) -> Option<Registers> {
    match dev {
        4 => Some(bridge()),
        7 => Some(capable_device()),
        0 | 1 | 8 | 31 => Some(device()),
        _ => None,
    }
}

/// Appends them to a dump and its probe.
fn add_six(dump: &mut Dump, probe: &mut Dump) -> bool {
    let mut are_added = true;
    for dev in 0..32 {
        if let Some(function) = one_of_six(dev) {
            are_added = add(dump, dev, function.image)
                && add(probe, dev, function.probe)
                && are_added;
        }
    }
    are_added
}

/// A machine of six functions.
fn six_functions(alloc: Global) -> Option<Machine> {
    let mut dump = Dump::empty(alloc);
    let mut probe = Dump::empty(alloc);
    if add_six(&mut dump, &mut probe) {
        machine_of_pair(alloc, &dump, &probe).ok()
    } else {
        None
    }
}

/// Whether a machine has this function at a slot, or none, and sizes it so.
fn is_found(machine: &mut Machine, slot: Slot, function: Option<Registers>) -> bool {
    match function {
        Some(function) => {
            image_at(machine, slot) == Some(function.image)
                && sized(machine, slot) == Ok(function.probe)
        }
        None => image_at(machine, slot).is_none() && sized(machine, slot).is_err(),
    }
}

/// Whether the machine of six functions has that of a device of bus 00, or none.
fn has_one_of_six(machine: &mut Machine, dev: u8) -> bool {
    match slot(dev) {
        Some(slot) => is_found(machine, slot, one_of_six(dev)),
        None => false,
    }
}

#[test]
fn each_function_of_a_machine_is_found(rt: HostRuntime) -> Result<(), Fail> {
    let mut machine = six_functions(rt.alloc()).ok_or("no machine")?;
    for dev in 0..32 {
        assert!(rt; has_one_of_six(&mut machine, dev), "{dev}");
    }
    Ok(())
}

/// What a read of the Vendor ID answers on a port within a port, either of whose accesses may fail.
fn vendor_of(port: &mut FailAt<FailAt<Machine>>, slot: Slot, off: u8) -> Result<u32, PortError> {
    port.read(slot, off, 2)
}

/// Whether a port refuses two reads that are no accesses to a function, and then answers so.
fn answers(
    port: &mut FailAt<FailAt<Machine>>,
    here: Slot,
    other: Slot,
    answer: Result<u32, PortError>,
) -> bool {
    vendor_of(port, other, 0x00) == Err(PortError::NoFunction)
        && vendor_of(port, here, 0x01) == Err(PortError::BadAccess)
        && vendor_of(port, here, 0x00) == answer
}

/// Whether a port of which the first access fails, and then the second of the port inside, answers so.
fn fails_twice(port: &mut FailAt<FailAt<Machine>>, here: Slot, other: Slot) -> bool {
    answers(port, here, other, Err(PortError::Failed))
        && answers(port, here, other, Ok(0x1234))
        && answers(port, here, other, Err(PortError::Failed))
        && answers(port, here, other, Ok(0x1234))
}

#[test]
fn an_access_that_fails_is_not_passed_on(rt: HostRuntime) -> Result<(), Fail> {
    let machine = machine_with(rt.alloc(), device()).ok_or("no machine")?;
    let (here, other) = (slot(0).ok_or("no slot")?, slot(1).ok_or("no slot")?);
    let mut port = FailAt::new(FailAt::new(machine, 2), 1);
    assert!(rt; fails_twice(&mut port, here, other));
    Ok(())
}
