//! Comparing functions with what a plan starts from.
ghost use Rattle.std.specs.Prelude.{◌≡◌, IsTrue, OnOk, IfErr};
ghost use Rattle.pci_spec.specs.Number.{number_at};
ghost use Rattle.pci_spec.specs.Port.{is_access, ShowsNumber};
ghost use Rattle.pci_plan.specs.Comparing.{ShowsAll, StartsAs, IsCompareFault, IsFunctionFault, IsStartFault, moment};

use super::apply_fault::ApplyFault;
use pci_base::image::Image;
use pci_base::offset::COMMAND;
use pci_base::slot::Slot;
use pci_dump::block::Block;
use pci_image::layout::Layout;
use pci_image::register::address_registers;
use pci_machine::port::ConfigPort;

/// Whether the register of `width` bytes at an offset shows what an image has there.
fn compare_register<P: ConfigPort>(
    port: &mut P,
    slot: Slot,
    image: &Image,
    offset: u8,
    width: u8,
) -> Result<(), ApplyFault>
    requires { IsTrue (is_access offset width) }
    ensures same { P.targets port.new ≡ P.targets port.old }
    ensures shown { OnOk result
        (ShowsNumber (P.targets port.old) slot offset width (number_at image.now.0 offset width)) }
    ensures counted { OnOk result (P.failures port.new ≡ P.failures port.old) }
    ensures fault { IfErr result
        (IsCompareFault (moment (P.targets port.old) (P.failures port.old)) slot image.now.0
        (offset, width) (P.failures port.new)) }
{
    match port.read(slot, offset, width) {
        Ok(value) => {
            if value == image.number(offset, width) {
                Ok(())
            } else {
                Err(ApplyFault::Changed(slot, offset))
            }
        }
        Err(_) => Err(ApplyFault::Port { done: 0 }),
    }
}

/// Whether Command and each address register of the function at a slot are those of an image.
fn compare_function<P: ConfigPort>(
    port: &mut P,
    slot: Slot,
    image: &Image,
) -> Result<(), ApplyFault>
    ensures same { P.targets port.new ≡ P.targets port.old }
    ensures shown { OnOk result (ShowsAll (P.targets port.old) slot image.now.0) }
    ensures counted { OnOk result (P.failures port.new ≡ P.failures port.old) }
    ensures fault { IfErr result
        (IsFunctionFault (moment (P.targets port.old) (P.failures port.old)) slot image.now.0
        (P.failures port.new)) }
{
    compare_register(port, slot, image, COMMAND, 2)?;
    for register in address_registers(Layout::or_device(image)) {
        compare_register(port, slot, image, register.offset, register.width)?;
    }
    Ok(())
}

/// Whether each function is as its block has it, the lowest slot first.
pub fn compare<P: ConfigPort>(port: &mut P, blocks: &[Block]) -> Result<(), ApplyFault>
    // a machine that isn't the one that was planned for is left as it was
    ensures same { P.targets port.new ≡ P.targets port.old }
    // all that a plan hangs on: registers that it neither reads nor writes may differ
    ensures started { OnOk result (StartsAs (P.targets port.old) blocks.now) }
    ensures counted { OnOk result (P.failures port.new ≡ P.failures port.old) }
    ensures fault { IfErr result
        (IsStartFault (moment (P.targets port.old) (P.failures port.old)) blocks.now
        (P.failures port.new)) }
{
    for block in blocks {
        compare_function(port, block.slot, &block.image)?;
    }
    Ok(())
}
