//! A machine that a table tells of.
ghost use Rattle.std.specs.Prelude.{None};

use pci_base::image::{IMAGE_LEN, Image};
use pci_base::memory::OutOfMemory;
use pci_here::domain::{Domain, domain_of, domains_of};
use pci_here::log::{NOTHING, Registers};
use pci_here::machine::Machine;
use pci_here::place::Place;
use pci_here::trouble::{Trouble, TroubleAt};
use pci_here::words::words_text;
use std::alloc::Global;

/// Seven lines, of which the first is a BAR's.
const LINES: &str = "0x00000000fe000000 0x00000000fe000fff 0x0000000000040200\n\
    0x0000000000000000 0x0000000000000000 0x0000000000000000\n\
    0x0000000000000000 0x0000000000000000 0x0000000000000000\n\
    0x0000000000000000 0x0000000000000000 0x0000000000000000\n\
    0x0000000000000000 0x0000000000000000 0x0000000000000000\n\
    0x0000000000000000 0x0000000000000000 0x0000000000000000\n\
    0x0000000000000000 0x0000000000000000 0x0000000000000000\n";

/// A function's folder.
#[derive(Clone, Copy)]
struct Folder {
    name: &'static str,
    /// How many bytes are shown; None where they can't be read.
    bytes: Option<usize>,
    resource: &'static str,
    link: &'static str,
    is_virtual: bool,
}

/// A folder of which everything can be read.
macro_rules! whole {
    ($name:expr, $link:expr) => {
        Folder {
            name: $name,
            bytes: Some(256),
            resource: LINES,
            link: $link,
            is_virtual: false,
        }
    };
}

/// A machine of some folders.
#[derive(Drop)]
struct Fake<'a> {
    folders: &'a [Folder],
    ioports: Option<&'static str>,
    iomem: Option<&'static str>,
}

impl Fake<'_> {
    /// The folder of a place, by the name that Linux gives it.
    fn at(&self, alloc: Global, place: Place) -> Result<Folder, Trouble> {
        let name = format!(in alloc; "{place}")?;
        for folder in self.folders {
            if folder.name == name.as_str() {
                return Ok(*folder);
            }
        }
        Err(Trouble::Unread)
    }
}

impl Machine for Fake<'_> {
    ghost shown = { λ _. None };

    fn names(&self, alloc: Global) -> Result<Vec<String>, Trouble> {
        let mut names = Vec::new(alloc);
        for folder in self.folders {
            names.push(String::from_str(alloc, folder.name)?)?;
        }
        Ok(names)
    }

    fn config(&self, alloc: Global, place: Place) -> Result<Image, Trouble> {
        match self.at(alloc, place)?.bytes {
            None => Err(Trouble::Unread),
            Some(bytes) if bytes < IMAGE_LEN => Err(Trouble::Short),
            Some(_) => Ok(Image([7; IMAGE_LEN])),
        }
    }

    fn resource(&self, alloc: Global, place: Place) -> Result<String, Trouble> {
        Ok(String::from_str(alloc, self.at(alloc, place)?.resource)?)
    }

    fn link(&self, alloc: Global, place: Place) -> Result<String, Trouble> {
        Ok(String::from_str(alloc, self.at(alloc, place)?.link)?)
    }

    fn is_virtual(&self, alloc: Global, place: Place) -> Result<bool, Trouble> {
        Ok(self.at(alloc, place)?.is_virtual)
    }

    fn ioports(&self, alloc: Global) -> Result<Option<String>, OutOfMemory> {
        match self.ioports {
            None => Ok(None),
            Some(text) => Ok(Some(String::from_str(alloc, text)?)),
        }
    }

    fn iomem(&self, alloc: Global) -> Result<Option<String>, OutOfMemory> {
        match self.iomem {
            None => Ok(None),
            Some(text) => Ok(Some(String::from_str(alloc, text)?)),
        }
    }

    fn in_log(&self, _place: Place) -> Registers {
        NOTHING
    }
}

const IOPORTS: &str =
    "0000-0cf7 : PCI Bus 0000:00\n  0000-001f : dma1\n0d00-bfff : PCI Bus 0000:00\n\
    c000-cfff : PCI Bus 0000:40\n  c000-c0ff : PCI Bus 0000:41\n";

/// A range within one of the same bus, one of a bus that isn't a root, and one of another domain.
const IOMEM: &str = "000a0000-000bffff : PCI Bus 0000:00\nc0000000-febfffff : PCI Bus 0000:00\n\
    \x20 c0000000-c01fffff : PCI Bus 0000:00\n  c0000000-c01fffff : PCI Bus 0000:01\n\
    e0000000-efffffff : PCI Bus 10000:e0\nff000000-feffffff : PCI Bus 0000:40\n";

/// Two domains, of which the second begins behind a function of the first; a name of another thing; a virtual function.
static TWO_DOMAINS: Fake<'static> = Fake {
    folders: &[
        whole!("0000:40:00.0", "../../../devices/pci0000:40/0000:40:00.0"),
        whole!(
            "10000:e0:00.0",
            "../../../devices/pci0000:00/0000:00:0e.0/pci10000:e0/10000:e0:00.0"
        ),
        whole!("0000:00:0e.0", "../../../devices/pci0000:00/0000:00:0e.0"),
        whole!("slots", ""),
        Folder {
            name: "0000:00:0e.1",
            bytes: None,
            resource: "",
            link: "",
            is_virtual: true,
        },
    ],
    ioports: Some(IOPORTS),
    iomem: Some(IOMEM),
};

/// A domain, its words, and how many functions it has and left out.
struct Wanted {
    domain: u32,
    words: &'static str,
    count: usize,
    left_out: usize,
}

static FIRST: Wanted = Wanted {
    domain: 0,
    words: "--root 00,40 --model all --host-io 00:0-cf7,00:d00-bfff,40:c000-cfff \
        --host-mem 00:a0000-bffff,00:c0000000-febfffff\n",
    count: 2,
    left_out: 1,
};

static SECOND: Wanted = Wanted {
    domain: 0x10000,
    words: "--root e0 --model all --host-mem e0:e0000000-efffffff\n",
    count: 1,
    left_out: 0,
};

/// Whether a machine has just these domains.
fn has_domains(alloc: Global, machine: &Fake<'_>, wanted: &[u32]) -> bool {
    match domains_of(alloc, machine) {
        Ok(domains) => domains.as_slice() == wanted,
        Err(_) => false,
    }
}

/// Whether a domain is told so.
fn has_words(alloc: Global, found: &Domain, wanted: &str) -> bool {
    match words_text(alloc, found) {
        Ok(words) => words.as_str() == wanted,
        Err(_) => false,
    }
}

/// Whether a domain has so many functions, has left out so many, and is told so.
fn is_wanted(alloc: Global, found: &Domain, wanted: &Wanted) -> bool {
    found.dump.blocks().len() == wanted.count
        && found.sizes.blocks().len() == wanted.count
        && found.left_out == wanted.left_out
        && has_words(alloc, found, wanted.words)
}

/// Whether a machine has a domain that is so.
fn has_domain(alloc: Global, machine: &Fake<'_>, wanted: &Wanted) -> bool {
    match domain_of(alloc, machine, wanted.domain) {
        Ok(found) => is_wanted(alloc, &found, wanted),
        Err(_) => false,
    }
}

#[test]
fn domains_are_told_apart(rt: HostRuntime) {
    assert!(rt; has_domains(rt.alloc(), &TWO_DOMAINS, &[0, 0x10000]));
    assert!(rt; has_domain(rt.alloc(), &TWO_DOMAINS, &FIRST));
    assert!(rt; has_domain(rt.alloc(), &TWO_DOMAINS, &SECOND));
}

/// Whether a trouble is this one, and is shown so.
fn is_trouble(alloc: Global, found: TroubleAt, trouble: Trouble, name: &str) -> bool {
    match format!(in alloc; "{found}") {
        Ok(text) => found.trouble == trouble && text.as_str() == name,
        Err(_) => false,
    }
}

/// Why domain 1 of a machine can't be read.
fn trouble_of(alloc: Global, machine: &Fake<'_>) -> Option<TroubleAt> {
    domain_of(alloc, machine, 1).err()
}

/// Whether domain 1 of some folders can't be read for this trouble.
fn are_refused(alloc: Global, folders: &[Folder], trouble: Trouble, name: &str) -> bool {
    let machine = Fake {
        folders,
        ioports: None,
        iomem: None,
    };
    match trouble_of(alloc, &machine) {
        Some(found) => is_trouble(alloc, found, trouble, name),
        None => false,
    }
}

/// Whether a machine of two functions can't be read, of which the second is this one.
fn is_refused(alloc: Global, second: Folder, trouble: Trouble, name: &str) -> bool {
    let first = whole!("0000:00:00.0", "pci0000:00/0000:00:00.0");
    are_refused(alloc, &[first, second], trouble, name)
}

/// A function by two names of its domain.
static TWICE: [Folder; 2] = [
    whole!("0001:1f:1e.7", "../pci0001:1f/0001:1f:1e.7"),
    whole!("00001:1f:1e.7", "../pci0001:1f/0001:1f:1e.7"),
];

#[test]
fn a_place_of_two_names_is_one_too_many(rt: HostRuntime) {
    let text = "8 TooMany 0001:1f:1e.7";
    assert!(rt; are_refused(rt.alloc(), &TWICE, Trouble::TooMany, text));
}

/// A function that can be read.
const OWN: Folder = whole!("0001:1f:1e.7", "../pci0001:1f/0001:1f:1e.7");

/// Functions that can't be read, why, and how that is shown.
static REFUSED: [(Folder, Trouble, &str); 6] = [
    (
        Folder {
            bytes: Some(64),
            ..OWN
        },
        Trouble::Short,
        "short 0001:1f:1e.7",
    ),
    (
        Folder {
            resource: "0x00\n",
            ..OWN
        },
        Trouble::Short,
        "short 0001:1f:1e.7",
    ),
    (
        Folder {
            link: "../pci1:1f/0001:1f:1e.7",
            ..OWN
        },
        Trouble::NoRoot,
        "no host bus 0001:1f:1e.7",
    ),
    (
        Folder { bytes: None, ..OWN },
        Trouble::Unread,
        "1 Io 0001:1f:1e.7",
    ),
    (
        Folder {
            is_virtual: true,
            ..OWN
        },
        Trouble::Unread,
        "1 Io",
    ),
    (
        Folder {
            name: "0001:1f:1e.8",
            ..OWN
        },
        Trouble::Unread,
        "1 Io",
    ),
];

#[test]
fn troubles_are_named(rt: HostRuntime) {
    for &(second, trouble, name) in &REFUSED {
        assert!(rt; is_refused(rt.alloc(), second, trouble, name), "{name}");
    }
}
