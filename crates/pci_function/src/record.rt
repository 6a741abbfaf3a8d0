//! What judging needs of a function: its slot, what Command enables, and the ranges that its registers decode to.
ghost use Rattle.std.specs.Prelude.{◌≡◌, [], None};
ghost use Rattle.std.specs.Option.{is_some};
ghost use Rattle.pci_spec.specs.Header.{rom_place};
ghost use Rattle.pci_image.specs.Layouts.{is_of_bridge};
ghost use Rattle.pci_function.specs.Values.{record_value};

use arrayvec::ArrayVec;
use pci_base::slot::Slot;
use pci_image::bar::Bar;
use pci_image::layout::Layout;
use pci_image::register::rom_register;
use pci_image::rom::Rom;
use pci_image::window::Windows;

/// The bus numbers and the windows of a bridge (Bridge 1.2, 3.2.5).
#[derive(Clone, Copy, Debug, PartialEq, Eq)]
pub struct Bridge {
    /// The bus that the bridge stands on, as it has been told.
    pub primary: u8,
    /// The bus that it leads to.
    pub secondary: u8,
    /// The highest bus behind it.
    pub subordinate: u8,
    pub windows: Windows,
}

/// What is decoded of a function. It holds no image.
#[derive(Debug, Drop)]
pub struct Record {
    pub slot: Slot,
    pub command: u16,
    /// The implemented BARs, in the order of their registers.
    pub bars: ArrayVec<Bar, 6>,
    /// The expansion ROM, where there is one.
    pub rom: Option<Rom>,
    /// Its bus numbers and windows, where it is a bridge.
    pub bridge: Option<Bridge>,
}

impl Record {
    /// The record of a function at a slot that decodes nothing: what a record is filled into.
    pub fn blank(slot: Slot) -> Record
        ensures { record_value result
            ≡ record { slot = slot; command = 0; bars = []; rom = None; bridge = None } }
    {
        Record {
            slot,
            command: 0,
            bars: ArrayVec::new(),
            rom: None,
            bridge: None,
        }
    }

    /// The layout of the function's header.
    pub fn layout(&self) -> Layout
        ensures { is_of_bridge result ≡ is_some self.now.bridge }
    {
        match self.bridge {
            None => Layout::Device,
            Some(_) => Layout::Bridge,
        }
    }

    /// The offset of the function's Expansion ROM Base Address register.
    pub fn rom_register(&self) -> u8
        ensures { result ≡ rom_place (is_some self.now.bridge) }
    {
        rom_register(self.layout())
    }
}
