//! One function of a machine.
ghost use Rattle.std.specs.Prelude.{IfSome, MatchResult};
ghost use Rattle.pci_here.specs.Functions.{IsFunctionRead, HasTrouble};

use crate::link::host_bus_of;
use crate::log::completed;
use crate::machine::Machine;
use crate::place::Place;
use crate::resource::lines_of;
use crate::trouble::Trouble;
use pci_dump::block::Block;
use pci_machine::sizes::SizesBlock;
use std::alloc::Global;

/// A function as it was read: its registers, what is told of their sizes, and the host bus that it is below.
#[derive(Drop)]
pub struct Function {
    pub block: Block,
    pub sizes: SizesBlock,
    pub root: u8,
}

/// Reads a function; None of a virtual one. A BAR whose line is zeros has that of the kernel's log, where it has one.
///
/// Errors: `Unread` where one of its files, or its link, can't be read; `Short` where there are less than 256 bytes or
/// seven lines; `NoRoot` where no host bus is in its path; `Memory` where a growth was refused.
pub fn read_function<M: Machine>(
    alloc: Global,
    machine: &M,
    place: Place,
) -> Result<Option<Function>, Trouble>
    ensures { IfSome (M.shown machine.now) (λ m. MatchResult result (IsFunctionRead m place) (HasTrouble m place)) }
{
    if machine.is_virtual(alloc, place)? {
        return Ok(None);
    }
    let image = machine.config(alloc, place)?;
    let resource = machine.resource(alloc, place)?;
    let Some(lines) = lines_of(resource.as_str()) else {
        return Err(Trouble::Short);
    };
    let path = machine.link(alloc, place)?;
    let Some(root) = host_bus_of(path.as_str()) else {
        return Err(Trouble::NoRoot);
    };
    let slot = place.slot;
    Ok(Some(Function {
        block: Block {
            slot,
            title: None,
            image,
        },
        sizes: SizesBlock {
            slot,
            lines: completed(lines, machine.in_log(place)),
        },
        root,
    }))
}
