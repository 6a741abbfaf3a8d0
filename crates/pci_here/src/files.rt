//! A machine whose `sys` and `proc` are folders.
ghost use Rattle.std.specs.Prelude.{None};

use crate::log::{NOTHING, Registers};
use crate::machine::Machine;
use crate::place::Place;
use crate::trouble::Trouble;
use pci_base::image::{IMAGE_LEN, Image};
use pci_base::memory::OutOfMemory;
use std::alloc::Global;
use std::io::Read;
use std::rt::Files;
use std::{fs, io};

/// A machine as Linux shows it under a folder: the root of the machine itself, or a copy of another one.
#[derive(Drop)]
pub struct FileMachine<'a, R: Files + AllocGlobal + Clone + Drop> {
    rt: &'a R,
    from: &'a str,
}

impl<'a, R: Files + AllocGlobal + Clone + Drop> FileMachine<'a, R> {
    /// The machine whose folders `sys` and `proc` are in `from`, as in `` (the root) or `gathered`.
    pub fn under(rt: &'a R, from: &'a str) -> FileMachine<'a, R> {
        FileMachine { rt, from }
    }

    /// The text of a file of a function's folder.
    fn text_of(&self, place: Place, name: &str) -> Result<String, Trouble> {
        let from = self.from;
        let path = format!(in self.rt.alloc(); "{from}/sys/bus/pci/devices/{place}/{name}")?;
        Ok(fs::read_to_string(self.rt, path.as_str())?)
    }

    /// The text of a file of `proc`, None where it can't be read.
    fn proc_text(&self, name: &str) -> Result<Option<String>, OutOfMemory> {
        let from = self.from;
        let path = format!(in self.rt.alloc(); "{from}/proc/{name}")?;
        match fs::read_to_string(self.rt, path.as_str()) {
            Ok(text) => Ok(Some(text)),
            Err(error) if error.kind() == io::ErrorKind::OutOfMemory => Err(OutOfMemory),
            Err(_) => Ok(None),
        }
    }
}

impl From<io::Error> for Trouble {
    fn from(error: io::Error) -> Trouble {
        if error.kind() == io::ErrorKind::OutOfMemory {
            Trouble::Memory
        } else {
            Trouble::Unread
        }
    }
}

/// Files tell nothing to a contract: what they hold is trusted.
impl<R: Files + AllocGlobal + Clone + Drop> Machine for FileMachine<'_, R> {
    ghost shown = { λ _. None };

    fn names(&self, alloc: Global) -> Result<Vec<String>, Trouble> {
        let from = self.from;
        let folder = format!(in alloc; "{from}/sys/bus/pci/devices")?;
        let mut names = Vec::new(alloc);
        for entry in fs::read_dir(self.rt, folder.as_str())? {
            let entry = entry?;
            names.push(String::from_str(alloc, entry.file_name())?)?;
        }
        Ok(names)
    }

    fn config(&self, alloc: Global, place: Place) -> Result<Image, Trouble> {
        let from = self.from;
        let path = format!(in alloc; "{from}/sys/bus/pci/devices/{place}/config")?;
        let mut file = fs::open(self.rt, path.as_str())?;
        let mut image = [0u8; IMAGE_LEN];
        match file.read_exact(&mut image) {
            Ok(()) => Ok(Image(image)),
            Err(error) if error.kind() == io::ErrorKind::UnexpectedEof => Err(Trouble::Short),
            Err(error) => Err(Trouble::from(error)),
        }
    }

    fn resource(&self, _alloc: Global, place: Place) -> Result<String, Trouble> {
        self.text_of(place, "resource")
    }

    fn link(&self, alloc: Global, place: Place) -> Result<String, Trouble> {
        let from = self.from;
        let path = format!(in alloc; "{from}/sys/bus/pci/devices/{place}")?;
        let path = fs::read_link(self.rt, path.as_str())?;
        Ok(String::from_str(alloc, path.as_str())?)
    }

    fn is_virtual(&self, alloc: Global, place: Place) -> Result<bool, Trouble> {
        let from = self.from;
        let path = format!(in alloc; "{from}/sys/bus/pci/devices/{place}/physfn")?;
        Ok(fs::exists(self.rt, path.as_str())?)
    }

    fn ioports(&self, _alloc: Global) -> Result<Option<String>, OutOfMemory> {
        self.proc_text("ioports")
    }

    fn iomem(&self, _alloc: Global) -> Result<Option<String>, OutOfMemory> {
        self.proc_text("iomem")
    }

    // No file of these folders has the log.
    fn in_log(&self, _place: Place) -> Registers {
        NOTHING
    }
}
