//! Why nothing is settled.
ghost use Rattle.std.specs.Prelude.{◌≡◌, Some};
ghost use Rattle.std.specs.Option.{is_some};
ghost use Rattle.pci_base.specs.WindowKinds.{kind_value};
ghost use Rattle.pci_place.specs.Above.{system_in};
ghost use Rattle.pci_settle_places.specs.Places.{IsPlacesPart};
ghost use Rattle.pci_settle.specs.Lacks.{settle_fault_number, is_too_large, part_register, lack_by, IsOfSystem, IsSettleFaultOf};

use pci_base::offset::BASE_ADDRESS;
use pci_base::slot::Slot;
use pci_base::window_kind::WindowKind;
use pci_first_fit::item::Part;
use pci_function::record::Record;
use pci_settle_places::anew::Unplaced;
use pci_settle_places::candidate::Candidate;
use pci_tree::admitted::Admitted;
use std::alloc::Allocator;
use std::fmt;

/// What has no place.
#[derive(Clone, Copy, Debug, PartialEq, Eq)]
pub struct Lack {
    pub class: WindowKind,
    pub slot: Slot,
    /// The offset that names the part.
    pub register: u8,
    /// How many addresses it takes.
    pub size: u64,
    /// What its first address has to be a multiple of.
    pub alignment: u64,
}

/// Why nothing is settled.
#[derive(Clone, Copy, Debug, PartialEq, Eq)]
pub enum SettleFault {
    /// 70: a range is backward or of a bus that is no root, two ranges of a list share an address, or I/O or memory that isn't
    /// prefetchable ends above FFFFFFFFh.
    BadLists,
    /// 76: the title of the function's block in the probe names this register as assumed. It is that of a BAR, or of a ROM that
    /// is on.
    Assumed { slot: Slot, reg: u8 },
    /// 72: this is the first on the roots that has no place.
    NoRoom(Lack),
    /// 72: what is of the class behind the bridge at the slot would take a window of 2^64 addresses or more.
    TooLarge { class: WindowKind, slot: Slot },
    /// 74: registers of the function may not be written, and this part of it doesn't keep its place, or this offset would be
    /// written.
    Fixed { slot: Slot, reg: u8 },
    /// 75: the range that this line of a text tells of isn't reached as all stands or shares an address with another line, or
    /// would no longer be reached, or would be switched on, or a bridge above it off for a time.
    Told { slot: Slot, line: u16 },
}

impl SettleFault {
    /// The fault's number, 70, 72, 74, 75 or 76.
    pub fn number(&self) -> u8
        ensures { result ≡ settle_fault_number self.now }
    {
        match self {
            SettleFault::BadLists => 70,
            SettleFault::Assumed { .. } => 76,
            SettleFault::NoRoom(_) | SettleFault::TooLarge { .. } => 72,
            SettleFault::Fixed { .. } => 74,
            SettleFault::Told { .. } => 75,
        }
    }

    /// Whether a new window would be too large.
    pub fn is_too_large(&self) -> bool
        ensures { result ≡ is_too_large self.now }
    {
        match self {
            SettleFault::TooLarge { .. } => true,
            SettleFault::BadLists
            | SettleFault::Assumed { .. }
            | SettleFault::NoRoom(_)
            | SettleFault::Fixed { .. }
            | SettleFault::Told { .. } => false,
        }
    }
}

/// A part of a class.
#[derive(Clone, Copy)]
struct Named {
    class: WindowKind,
    slot: Slot,
    register: u8,
}

/// Its class, its slot and its register.
impl fmt::Display for Named {
    ghost use Rattle.pci_base.specs.WindowKinds.{kind_value};
    ghost use Rattle.pci_settle.specs.FaultText.{class_part_text};

    ghost output = { λ p. Some (class_part_text (kind_value p.class) p.slot p.register) };

    fn fmt<W: fmt::Write>(&self, f: &mut fmt::Formatter<W>) -> fmt::Result {
        let (name, slot, register) = (self.class.name(), self.slot, self.register);
        write!(f, "{name} {slot} {register:02x}")
    }
}

/// A size and an alignment.
#[derive(Clone, Copy)]
struct Sizes {
    size: u64,
    alignment: u64,
}

/// Both in hex digits, without zeros in front.
impl fmt::Display for Sizes {
    ghost use Rattle.pci_settle.specs.FaultText.{sizes_text};

    ghost output = { λ s. Some (sizes_text s.size s.alignment) };

    fn fmt<W: fmt::Write>(&self, f: &mut fmt::Formatter<W>) -> fmt::Result {
        let (size, alignment) = (self.size, self.alignment);
        write!(f, "{size:x} {alignment:x}")
    }
}

/// The fault's number, its name and what it names: of a part its size and its alignment too.
impl fmt::Display for SettleFault {
    ghost use Rattle.pci_settle.specs.FaultText.{settle_fault_text};

    ghost output = { λ f. Some (settle_fault_text f) };

    fn fmt<W: fmt::Write>(&self, f: &mut fmt::Formatter<W>) -> fmt::Result {
        match *self {
            SettleFault::BadLists => write!(f, "70 BadPools"),
            SettleFault::Assumed { slot, reg } => write!(f, "76 Assumed {slot} {reg:02x}"),
            SettleFault::NoRoom(lack) => {
                let part = Named {
                    class: lack.class,
                    slot: lack.slot,
                    register: lack.register,
                };
                let sizes = Sizes {
                    size: lack.size,
                    alignment: lack.alignment,
                };
                write!(f, "72 NoRoom {part} {sizes}")
            }
            SettleFault::TooLarge { class, slot } => {
                let register = class.register();
                let part = Named {
                    class,
                    slot,
                    register,
                };
                write!(f, "72 NoRoom {part}")
            }
            SettleFault::Fixed { slot, reg } => write!(f, "74 Fixed {slot} {reg:02x}"),
            SettleFault::Told { slot, line } => write!(f, "75 Told {slot} +{line}"),
        }
    }
}

/// The offset that names a part of a function.
fn register_of(record: &Record, class: WindowKind, part: Part) -> u8
    requires { IsPlacesPart part }
    ensures { result ≡ part_register (is_some «record».now.bridge) (kind_value class) part }
{
    match part {
        Part::Bar(n) => BASE_ADDRESS + 4 * n,
        Part::Rom => record.rom_register(),
        Part::Window => class.register(),
    }
}

/// What an item of a function lacks.
fn lack_of(record: &Record, candidate: Candidate) -> Lack
    requires { IsPlacesPart candidate.item.part }
    ensures { result ≡ lack_by «record».now candidate }
{
    Lack {
        class: candidate.class,
        slot: record.slot,
        register: register_of(record, candidate.class, candidate.item.part),
        size: candidate.item.extent.size,
        alignment: candidate.item.extent.alignment,
    }
}

/// The fault where this can't be placed.
pub fn fault_of<A: Allocator>(admitted: &Admitted<A>, unplaced: Unplaced) -> SettleFault
    // the fault names a part of a function that is there
    requires { IsOfSystem (system_in admitted.now) unplaced }
    ensures { IsSettleFaultOf (system_in admitted.now) unplaced result }
{
    let outline = admitted.outline();
    let records = outline.records();
    match unplaced {
        Unplaced::Lacks(candidate) => {
            let record = &records[candidate.item.function];
            SettleFault::NoRoom(lack_of(record, candidate))
        }
        Unplaced::TooLarge { class, function } => {
            let record = &records[function];
            SettleFault::TooLarge {
                class,
                slot: record.slot,
            }
        }
    }
}
