//! The host bus in the path of a function.
ghost use Rattle.std.specs.Prelude.{◌≡◌, ◌++◌, ◌∷◌, [], ℕ, List, Some, IfSome};
ghost use Rattle.pci_here.specs.declared.bus.Bus.{Bus};
ghost use Rattle.pci_here.specs.Link.{IsHostFolder, IsLastIn, folders};

use crate::bus::{Bus, bus_of_name};
use crate::part::first_part;

/// How the name of a host bus's folder begins.
const FOLDER: &str = "pci";

/// The bus of a folder `pciDDDD:bb`. There is none of any other folder.
fn bus_of_folder(folder: &str) -> Option<Bus>
    ensures name { IfSome result (λ bus. IsHostFolder folder.now bus) }
    ensures only { (bus : Bus) → IsHostFolder folder.now bus → result ≡ Some bus }
{
    bus_of_name(folder.strip_prefix(FOLDER)?)
}

/// The bus of the last host bus's folder, where one folder more is looked at.
fn last_bus(found: Option<u8>, folder: &str) -> Option<u8>
    ensures { (path : List (List ℕ)) → IsLastIn path found → IsLastIn (path ++ folder.now ∷ []) result }
{
    match bus_of_folder(folder) {
        Some(bus) => Some(bus.number),
        None => found,
    }
}

/// The bus of the last folder `pciDDDD:bb` in a path, as a domain may begin behind a function of another one; None where
/// there is no such folder.
pub fn host_bus_of(path: &str) -> Option<u8>
    ensures { IsLastIn (folders path.now) result }
{
    let mut found = None;
    let mut left = Some(path);
    'folders: while let Some(folders) = left {
        let (folder, more) = first_part(folders, '/');
        found = last_bus(found, folder);
        left = more;
    }
    found
}
