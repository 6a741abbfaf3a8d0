//! The planned dump: the start with the new numbers put in.
ghost use Rattle.std.specs.Prelude.{◌≡◌, IfOk, map};
ghost use Rattle.std.specs.List.{AllZip};
ghost use Rattle.pci_spec.specs.Text.{slots_of};
ghost use Rattle.pci_spec.specs.System.{system_of};
ghost use Rattle.plan_spec.specs.Planning.Numbers.{IsPlannedFunction};
ghost use Rattle.pci_place.specs.Pools.{pools_value};
ghost use Rattle.pci_place.specs.Above.{system_in};
ghost use Rattle.pci_plan.specs.Fillings.{FillingOf};
ghost use Rattle.pci_plan.specs.Numbered.{AreNewHeaders};

use super::numbered::with_header;
use super::numbers::Filling;
use pci_base::image::{Image, put};
use pci_base::memory::OutOfMemory;
use pci_base::offset::COMMAND;
use pci_dump::block::Block;
use pci_dump::dump::Dump;
use pci_image::register::{HEADER_LEN, address_registers};
use pci_place::pools::Pools;
use pci_tree::admitted::Admitted;
use std::alloc::Allocator;

/// The image of a function with its new numbers.
pub fn filled(filling: &Filling<'_>) -> Image
    // new numbers are told of a function in a system that can be planned
    requires { FillingOf filling.now }
    ensures { (of : FillingOf filling.now)
        → IsPlannedFunction of.roots of.system of.pools of.function record of.function
        { image = result.0 } }
{
    let mut image = *filling.image;
    for register in address_registers(filling.record.layout()) {
        put(
            &mut image.0,
            register.offset,
            register.width,
            filling.number(*register),
        );
    }
    put(&mut image.0, COMMAND, 2, u32::from(filling.command()));
    image
}

/// The dump of all functions with these headers, slots and titles as they are.
pub fn planned_dump<A: Allocator, B: Allocator>(
    alloc: A,
    admitted: &Admitted<B>,
    pools: &Pools,
    headers: &[[u8; HEADER_LEN]],
) -> Result<Dump<A>, OutOfMemory>
    // nothing behind the first 64 bytes changes, so that is taken from the dump
    requires { AreNewHeaders admitted.now (pools_value pools.now) headers.now }
    ensures slots { IfOk result (λ dump. slots_of dump ≡ slots_of admitted.now.dump) }
    // a title is the caller's own text, and no register
    ensures titles { IfOk result
        (λ dump. map (λ b. b.title) dump ≡ map (λ b. b.title) admitted.now.dump) }
    ensures planned { IfOk result (λ dump. AllZip
        (IsPlannedFunction admitted.now.roots (system_in admitted.now) (pools_value pools.now))
        (system_in admitted.now) (system_of dump admitted.now.probe)) }
{
    // What the headers were made by: the contract speaks of these alone.
    let _outline = admitted.outline();
    let _last = pools.pref.last;
    let blocks = admitted.dump().blocks();
    let mut dump = Dump::empty(alloc);
    for i in 0..blocks.len() {
        let block = &blocks[i];
        let header = &headers[i];
        let image = Image(with_header(&block.image.0, header));
        dump.push_next(Block {
            image,
            ..block.copy()
        })?;
    }
    Ok(dump)
}
