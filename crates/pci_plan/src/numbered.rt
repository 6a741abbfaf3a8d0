//! What all functions hold when everything is placed: their headers, function by function.
ghost use Rattle.std.specs.Prelude.{◌≡◌, ◌<◌, Some, IfOk, take, drop, ◌++◌, length};
ghost use Rattle.std.specs.List.{slice_get};
ghost use Rattle.pci_spec.specs.System.{Function as FunctionValue};
ghost use Rattle.plan_spec.specs.Planning.Numbers.{IsPlannedFunction};
ghost use Rattle.pci_place.specs.Pools.{pools_value};
ghost use Rattle.pci_place.specs.Above.{system_in};
ghost use Rattle.pci_plan.specs.Numbered.{CanBeNumbered, AreNewHeaders};

use super::numbers::Filling;
use super::planned::filled;
use pci_base::image::{IMAGE_LEN, Image};
use pci_base::memory::OutOfMemory;
use pci_base::window_kind::ByKind;
use pci_image::register::HEADER_LEN;
use pci_place::need::Needs;
use pci_place::place::Places;
use pci_place::pools::Pools;
use pci_tree::admitted::Admitted;
use std::alloc::Allocator;

/// The header of an image (PCI 3.0, 6.1).
fn header_of(image: &Image) -> [u8; HEADER_LEN]
    ensures { result ≡ take 64 image.now.0 }
{
    let mut header = [0; HEADER_LEN];
    header.copy_from_slice(&image.0[..HEADER_LEN]);
    header
}

/// The bytes of an image with another header.
pub fn with_header(bytes: &[u8; IMAGE_LEN], header: &[u8; HEADER_LEN]) -> [u8; IMAGE_LEN]
    ensures { result ≡ header.now ++ drop 64 bytes.now }
{
    let mut new = *bytes;
    new[..HEADER_LEN].copy_from_slice(header);
    new
}

/// The image of the function at an index with its new numbers.
fn filled_image<A: Allocator>(
    admitted: &Admitted<A>,
    pools: &Pools,
    needs: &ByKind<Needs>,
    places: &[Places],
    i: usize,
) -> Image
    requires numbered { CanBeNumbered admitted.now (pools_value pools.now) needs.now places.now }
    requires within { i < length (system_in admitted.now) }
    ensures { (f : FunctionValue) → slice_get (system_in admitted.now) i ≡ Some f
        → IsPlannedFunction admitted.now.roots (system_in admitted.now) (pools_value pools.now)
        f record f { image = result.0 } }
{
    // What the places were found by: the contract speaks of these alone.
    let _roots = admitted.outline().roots();
    let _last = pools.pref.last;
    let records = admitted.outline().records();
    let blocks = admitted.dump().blocks();
    let block = &blocks[i];
    let filling = Filling {
        record: &records[i],
        image: &block.image,
        places: &places[i],
        needs,
    };
    filled(&filling)
}

/// The first 64 bytes of each function of an admitted dump with its new numbers, in slot order: no others change. A
/// function's image is let go before the next is made.
pub fn number_all<A: Allocator, B: Allocator>(
    alloc: A,
    admitted: &Admitted<B>,
    pools: &Pools,
    needs: &ByKind<Needs>,
    places: &[Places],
) -> Result<Vec<[u8; HEADER_LEN], A>, OutOfMemory>
    // each number is read off these, and fits its register
    requires { CanBeNumbered admitted.now (pools_value pools.now) needs.now places.now }
    ensures { IfOk result
        (λ headers. AreNewHeaders admitted.now (pools_value pools.now) headers.items) }
{
    let Ok(mut headers) = Vec::with_capacity(alloc, places.len()) else {
        return Err(OutOfMemory);
    };
    for i in 0..places.len() {
        let image = filled_image(admitted, pools, needs, places, i);
        headers.push(header_of(&image))?;
    }
    Ok(headers)
}
