//! The words by which a user says how functions are to be taken.

/// How many bits of an I/O address the legacy part of a bridge decodes.
#[derive(Clone, Copy, Debug, PartialEq, Eq)]
pub enum VgaWord {
    /// 16 where its Bridge Control says so, else 10.
    Vga,
    /// 16, whatever it says.
    Vga16,
}

/// Which words count.
#[derive(Clone, Copy, Debug, PartialEq, Eq)]
pub struct Words {
    /// A function of header layout 2 has no address registers that decode (PC Card Standard 8.0, volume 7, 4.4).
    pub cardbus: bool,
    /// IDE channels in compatibility mode answer fixed ports, and not their BARs (PCI IDE Controller 1.0, 2.1).
    pub ide: bool,
    /// A bridge may have ISA Enable set: which bridges do is given beside the system (Bridge 1.2, 3.2.5.18).
    pub isa: bool,
    /// What isn't in D0 decodes nothing (Power Management 1.2, 5.4).
    pub power: bool,
    /// A bridge may hold its secondary bus in reset where nothing is listed behind it (Bridge 1.2, 3.2.5.18).
    pub reset: bool,
    /// A function may listen to writes of the palette: which bridges do is given beside the system (PCI 3.0, 6.2.2).
    pub snoop: bool,
    /// A bridge may decode subtractively where nothing is listed behind it.
    pub subtractive: bool,
    /// A bridge may do so where it is alone on its bus: what it takes is given beside the system (PCI 3.0, appendix D).
    pub unclaimed: bool,
    /// A bridge without bus numbers leads nowhere, where none of its windows claims an address.
    pub unnumbered: bool,
    /// A bridge may have VGA Enable set: its legacy part is given beside the system (Bridge 1.2, 3.2.5.18).
    pub vga: Option<VgaWord>,
    /// A window of a bridge is the one that it shows, whatever it reads back (Bridge 1.2, 3.2.5).
    pub windows: bool,
}
