//! A function as it is to be once all has its place: its registers, and what Command enables.
ghost use Rattle.std.specs.Prelude.{◌≡◌};
ghost use Rattle.std.specs.List.{All};
ghost use Rattle.pci_spec.specs.System.{System, Function};
ghost use Rattle.settle_spec.specs.Lists.{Request};
ghost use Rattle.settle_spec.specs.Kept.{Kept};
ghost use Rattle.settle_spec.specs.Keeping.Registers as registers;
ghost use Rattle.pci_settle_places.specs.Shown.{HasRegister};
ghost use Rattle.pci_settle_places.specs.Images.{HasPlacesAndWindows};
ghost use Rattle.pci_settle_places.specs.Settled.{command_by, IsCommandTold};

use super::places::Places;
use crate::claim::is_enabled;
use crate::image::{ShownWindows, settled_image};
use crate::write::write;
use pci_base::image::Image;
use pci_base::offset::COMMAND;
use pci_base::space::Space;
use pci_first_fit::own::Terms;
use pci_function::record::Record;
use pci_place::above::Above;

/// Whether something live is behind a function.
#[derive(Clone, Copy, Debug)]
pub struct Behind {
    pub io: bool,
    pub memory: bool,
}

/// What Command holds: bits 0 and 1 as the spaces are enabled, all others as they stand (PCI 3.0, 6.2.2).
fn settled_command(
    record: &Record,
    places: &Places,
    above: Above,
    terms: Terms,
    behind: Behind,
) -> u16
    requires { All HasRegister «record».now.bars.items }
    ensures { result
        ≡ command_by places.now above terms.entry «record».now behind.io behind.memory }
{
    let io = is_enabled(Space::Io, places, above, terms, record, behind.io);
    let memory = is_enabled(Space::Mem, places, above, terms, record, behind.memory);
    record.command / 4 * 4 + u16::from(io) + 2 * u16::from(memory)
}

/// The image of a function once all has its place: its registers show the places that its parts get, windows stay, grow or
/// are closed that get none, those in which room is kept free show it, and Command enables what gets one, what was enabled, and what is needed for what is live behind it.
pub fn settled_function(
    record: &Record,
    image: &Image,
    places: &Places,
    shown: &ShownWindows,
    above: Above,
    terms: Terms,
    behind: Behind,
) -> Image
    // places are told by the number of a BAR's register, so each has one
    requires { All HasRegister «record».now.bars.items }
    ensures { (q : Request) (s : System) (keep : Kept) (f : Function)
        → image.now.0 ≡ f.image → HasPlacesAndWindows q s keep f «record».now places.now
        shown.now.staying.kept.now.windows shown.now.staying.grown.now shown.now.wished.now
        → IsCommandTold q s keep f above terms.entry behind
        → result.0 ≡ (registers.settled_function q s keep f).image }
{
    let mut settled = settled_image(record, image, places, shown);
    let command = settled_command(record, places, above, terms, behind);
    write(&mut settled.0, COMMAND, 2, command.into());
    settled
}
