//! The machine of a folder.
ghost use Rattle.std.specs.Prelude.{◌≡◌, ℕ, List, Option, None, Some, IfSome, MatchResult, string_bytes};
ghost use Rattle.pci_here.specs.Log.{log_of};
ghost use Rattle.pci_here.specs.Shown.{IsNotHad, Shown, with_log};

use pci_base::image::Image;
use pci_base::memory::OutOfMemory;
use pci_here::files::FileMachine;
use pci_here::log::{Log, Registers};
use pci_here::machine::Machine;
use pci_here::place::Place;
use pci_here::trouble::Trouble;
use std::alloc::Global;
use std::fs;
use std::rt::Files;

/// A machine that is told by a folder with its `sys` and `proc`.
pub trait Foldered: Machine {
    // What is told of the machine in a folder, where that is known.
    ghost shown_in: { Self → List ℕ → Option Shown };
    // What a file at a path holds, where that is known; None inside where it can't be read.
    ghost text_at: { Self → List ℕ → Option (Option (List ℕ)) };

    /// The text of a file.
    fn text(&self, alloc: Global, path: &str) -> Result<String, Trouble>
        ensures { IfSome (text_at self.now path.now) (λ told. MatchResult result
            (λ text. told ≡ Some (string_bytes text)) (IsNotHad told)) };

    /// Tells of the machine in another folder from now on, with a log of its kernel.
    fn look_in(&mut self, folder: String, log: Log)
        ensures { Self.shown self.new ≡ with_log (shown_in self.old (string_bytes folder)) (log_of log) };
}

/// The machine whose `sys` and `proc` are in a folder.
#[derive(Drop)]
pub struct FolderMachine<'a, R: Files + AllocGlobal + Clone + Drop> {
    rt: &'a R,
    folder: String,
    log: Log,
}

impl<'a, R: Files + AllocGlobal + Clone + Drop> FolderMachine<'a, R> {
    /// The machine that the program runs on.
    pub fn own(rt: &'a R) -> FolderMachine<'a, R> {
        FolderMachine {
            rt,
            folder: String::new(rt.alloc()),
            log: Log::none(rt.alloc()),
        }
    }

    /// The machine as its files tell it.
    fn files(&self) -> FileMachine<'_, R> {
        FileMachine::under(self.rt, self.folder.as_str())
    }
}

impl<R: Files + AllocGlobal + Clone + Drop> Machine for FolderMachine<'_, R> {
    ghost shown = { λ _. None };

    fn names(&self, alloc: Global) -> Result<Vec<String>, Trouble> {
        self.files().names(alloc)
    }

    fn config(&self, alloc: Global, place: Place) -> Result<Image, Trouble> {
        self.files().config(alloc, place)
    }

    fn resource(&self, alloc: Global, place: Place) -> Result<String, Trouble> {
        self.files().resource(alloc, place)
    }

    fn link(&self, alloc: Global, place: Place) -> Result<String, Trouble> {
        self.files().link(alloc, place)
    }

    fn is_virtual(&self, alloc: Global, place: Place) -> Result<bool, Trouble> {
        self.files().is_virtual(alloc, place)
    }

    fn ioports(&self, alloc: Global) -> Result<Option<String>, OutOfMemory> {
        self.files().ioports(alloc)
    }

    fn iomem(&self, alloc: Global) -> Result<Option<String>, OutOfMemory> {
        self.files().iomem(alloc)
    }

    fn in_log(&self, place: Place) -> Registers {
        self.log.registers(place)
    }
}

impl<R: Files + AllocGlobal + Clone + Drop> Foldered for FolderMachine<'_, R> {
    ghost shown_in = { λ _ _. None };

    ghost text_at = { λ _ _. None };

    fn text(&self, _alloc: Global, path: &str) -> Result<String, Trouble> {
        Ok(fs::read_to_string(self.rt, path)?)
    }

    fn look_in(&mut self, folder: String, log: Log) {
        self.folder = folder;
        self.log = log;
    }
}
