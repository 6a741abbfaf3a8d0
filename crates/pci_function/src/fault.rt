//! What can be wrong with a system.
ghost use Rattle.std.specs.Prelude.{◌≡◌, Some};
ghost use Rattle.pci_spec.specs.Fault.{fault_number};
ghost use Rattle.pci_spec.specs.Line.{fault_text, regions_text};

use pci_base::slot::Slot;
use pci_base::space::{Address, Space};
use pci_image::fault::ImageFault;
use std::fmt;

/// A fault, with the function that it names, and the byte offset of the register or the place in its
/// configuration space. Its number is that of `number`; it is shown as number, name and fields.
#[derive(Clone, Copy, Debug, PartialEq, Eq)]
pub enum Fault {
    /// 20: the vendor reads FFFFh, so no function answers (PCI 3.0, 6.2.1).
    NoVendor(Slot),
    /// 21: the header is neither of type 0 nor of type 1.
    HeaderKind(Slot),
    /// 22: a memory BAR of a reserved type.
    BarType(Slot, u8),
    /// 23: a BAR whose read back is of no lawful size, or whose value doesn't go with it.
    BarMask(Slot, u8),
    /// 24: a 64-bit BAR in the header's last BAR register.
    BarPair(Slot, u8),
    /// 25: an expansion ROM whose read back is of no lawful size, or whose value doesn't go with it.
    RomMask(Slot, u8),
    /// 26: a bridge window whose read backs or values are none of those that are decoded.
    WindowMask(Slot, u8),
    /// 27: the capability list leads to a place below 40h.
    CapRange(Slot, u8),
    /// 28: the capability list comes to a place twice.
    CapLoop(Slot, u8),
    /// 29: the body of a capability passes the end of the image.
    CapCut(Slot, u8),
    /// 30: only one of dump and probe lists the slot.
    SlotsDiffer(Slot),
    /// 31: the probe has a byte other than 00 where there is no address register.
    StrayProbe(Slot, u8),
    /// 50: the function is not function 0 of its device, and that one isn't listed.
    LoneFunction(Slot),
    /// 51: Command enables VGA palette snooping (PCI 3.0, 6.2.2).
    PaletteSnoop(Slot),
    /// 52: a bridge forwards VGA addresses besides its windows (Bridge 1.2, 3.2.5).
    VgaEnable(Slot),
    /// 53: a bridge leaves ISA addresses out of its I/O window (Bridge 1.2, 3.2.5).
    IsaEnable(Slot),
    /// 54: a bridge that takes what nothing else claims.
    Subtractive(Slot),
    /// 55: a bridge holds its secondary bus in reset (Bridge 1.2, 3.2.5).
    InReset(Slot),
    /// 56: the function is in another power state than D0 (Power Management 1.2, 3.2.4).
    PowerState(Slot),
    /// 57: a bridge whose bus numbers don't nest with the others' and the roots.
    BusRange(Slot),
    /// 58: the function's bus is no root, and no bridge leads to it.
    Orphan(Slot),
    /// 60: an address of an enabled BAR or ROM that a bridge on the way to it doesn't pass.
    Unreached {
        slot: Slot,
        reg: u8,
        space: Space,
        address: u64,
        bridge: Slot,
    },
    /// 61: an address that gets to a bus and is claimed by two regions there.
    Clash {
        bus: u8,
        space: Space,
        address: u64,
        first: Slot,
        first_reg: u8,
        second: Slot,
        second_reg: u8,
    },
    /// 62: an address that two regions on root buses claim.
    Split {
        space: Space,
        address: u64,
        first: Slot,
        first_reg: u8,
        second: Slot,
        second_reg: u8,
    },
}

/// Why a dump and a probe are refused: one of 20 to 26, 30 and 31.
pub type PairFault = Fault;

impl Fault {
    ghost use Rattle.pci_function.specs.Fault.{fault_of, image_fault_at};
    ghost use Rattle.pci_spec.specs.Order.{phase_of};

    /// The fault of a function's image, with the function's slot.
    pub fn of_image(slot: Slot, fault: ImageFault) -> Fault
        ensures { fault_of result ≡ image_fault_at slot fault }
    {
        match fault {
            ImageFault::NoVendor => Fault::NoVendor(slot),
            ImageFault::HeaderKind => Fault::HeaderKind(slot),
            ImageFault::BarType(reg) => Fault::BarType(slot, reg),
            ImageFault::BarMask(reg) => Fault::BarMask(slot, reg),
            ImageFault::BarPair(reg) => Fault::BarPair(slot, reg),
            ImageFault::RomMask(reg) => Fault::RomMask(slot, reg),
            ImageFault::WindowMask(reg) => Fault::WindowMask(slot, reg),
            ImageFault::CapRange(place) => Fault::CapRange(slot, place),
            ImageFault::CapLoop(place) => Fault::CapLoop(slot, place),
            ImageFault::CapCut(place) => Fault::CapCut(slot, place),
        }
    }

    /// The fault's number.
    pub fn number(&self) -> u8
        ensures { result ≡ fault_number (fault_of self.now) }
    {
        match self {
            Fault::NoVendor(_) => 20,
            Fault::HeaderKind(_) => 21,
            Fault::BarType(..) => 22,
            Fault::BarMask(..) => 23,
            Fault::BarPair(..) => 24,
            Fault::RomMask(..) => 25,
            Fault::WindowMask(..) => 26,
            Fault::CapRange(..) => 27,
            Fault::CapLoop(..) => 28,
            Fault::CapCut(..) => 29,
            Fault::SlotsDiffer(_) => 30,
            Fault::StrayProbe(..) => 31,
            Fault::LoneFunction(_) => 50,
            Fault::PaletteSnoop(_) => 51,
            Fault::VgaEnable(_) => 52,
            Fault::IsaEnable(_) => 53,
            Fault::Subtractive(_) => 54,
            Fault::InReset(_) => 55,
            Fault::PowerState(_) => 56,
            Fault::BusRange(_) => 57,
            Fault::Orphan(_) => 58,
            Fault::Unreached { .. } => 60,
            Fault::Clash { .. } => 61,
            Fault::Split { .. } => 62,
        }
    }

    /// The phase in which the fault is looked for: 0 slots, 1 identities and probes, 2 registers and
    /// capabilities lists, 3 profiles, 4 places in the tree of buses, 5 regions.
    pub fn phase(&self) -> u8
        // by it a survey keeps the earlier of two faults, in whatever order functions come
        ensures { result ≡ phase_of (fault_of self.now) }
    {
        match self {
            Fault::SlotsDiffer(_) => 0,
            Fault::NoVendor(_) | Fault::HeaderKind(_) | Fault::StrayProbe(..) => 1,
            Fault::BarType(..) | Fault::BarMask(..) | Fault::BarPair(..) => 2,
            Fault::RomMask(..) | Fault::WindowMask(..) => 2,
            Fault::CapRange(..) | Fault::CapLoop(..) | Fault::CapCut(..) => 2,
            Fault::PaletteSnoop(_) | Fault::VgaEnable(_) | Fault::IsaEnable(_) => 3,
            Fault::Subtractive(_) | Fault::InReset(_) | Fault::PowerState(_) => 3,
            Fault::LoneFunction(_) | Fault::BusRange(_) | Fault::Orphan(_) => 4,
            Fault::Unreached { .. } | Fault::Clash { .. } | Fault::Split { .. } => 5,
        }
    }
}

impl fmt::Display for Fault {
    ghost use Rattle.pci_function.specs.Fault.{fault_of};

    ghost output = { λ f. Some (fault_text (fault_of f)) };

    fn fmt<W: fmt::Write>(&self, f: &mut fmt::Formatter<W>) -> fmt::Result {
        match *self {
            Fault::NoVendor(slot) => write!(f, "20 NoVendor {slot}"),
            Fault::HeaderKind(slot) => write!(f, "21 HeaderKind {slot}"),
            Fault::BarType(slot, reg) => write!(f, "22 BarType {slot} {reg:02x}"),
            Fault::BarMask(slot, reg) => write!(f, "23 BarMask {slot} {reg:02x}"),
            Fault::BarPair(slot, reg) => write!(f, "24 BarPair {slot} {reg:02x}"),
            Fault::RomMask(slot, reg) => write!(f, "25 RomMask {slot} {reg:02x}"),
            Fault::WindowMask(slot, reg) => write!(f, "26 WindowMask {slot} {reg:02x}"),
            Fault::CapRange(slot, place) => write!(f, "27 CapRange {slot} {place:02x}"),
            Fault::CapLoop(slot, place) => write!(f, "28 CapLoop {slot} {place:02x}"),
            Fault::CapCut(slot, place) => write!(f, "29 CapCut {slot} {place:02x}"),
            Fault::SlotsDiffer(slot) => write!(f, "30 SlotsDiffer {slot}"),
            Fault::StrayProbe(slot, offset) => write!(f, "31 StrayProbe {slot} {offset:02x}"),
            Fault::LoneFunction(slot) => write!(f, "50 LoneFunction {slot}"),
            Fault::PaletteSnoop(slot) => write!(f, "51 PaletteSnoop {slot}"),
            Fault::VgaEnable(slot) => write!(f, "52 VgaEnable {slot}"),
            Fault::IsaEnable(slot) => write!(f, "53 IsaEnable {slot}"),
            Fault::Subtractive(slot) => write!(f, "54 Subtractive {slot}"),
            Fault::InReset(slot) => write!(f, "55 InReset {slot}"),
            Fault::PowerState(slot) => write!(f, "56 PowerState {slot}"),
            Fault::BusRange(slot) => write!(f, "57 BusRange {slot}"),
            Fault::Orphan(slot) => write!(f, "58 Orphan {slot}"),
            Fault::Unreached {
                slot,
                reg,
                space,
                address,
                bridge,
            } => {
                let at = Address { space, address };
                write!(f, "60 Unreached {slot} {reg:02x} {at} bridge {bridge}")
            }
            Fault::Clash {
                bus,
                space,
                address,
                first,
                first_reg,
                second,
                second_reg,
            } => {
                let at = Address { space, address };
                let regions = Regions {
                    first,
                    first_reg,
                    second,
                    second_reg,
                };
                write!(f, "61 Clash bus {bus:02x} {at} {regions}")
            }
            Fault::Split {
                space,
                address,
                first,
                first_reg,
                second,
                second_reg,
            } => {
                let at = Address { space, address };
                let regions = Regions {
                    first,
                    first_reg,
                    second,
                    second_reg,
                };
                write!(f, "62 Split {at} {regions}")
            }
        }
    }
}

/// Two regions, each by its function and the byte offset of its register.
#[derive(Clone, Copy)]
struct Regions {
    first: Slot,
    first_reg: u8,
    second: Slot,
    second_reg: u8,
}

impl fmt::Display for Regions {
    ghost output = { λ r. Some (regions_text r.first r.first_reg r.second r.second_reg) };

    fn fmt<W: fmt::Write>(&self, f: &mut fmt::Formatter<W>) -> fmt::Result {
        let (first, first_reg) = (self.first, self.first_reg);
        let (second, second_reg) = (self.second, self.second_reg);
        write!(f, "{first} {first_reg:02x} {second} {second_reg:02x}")
    }
}
