//! What each bus needs of a class: the sizes of its BARs and ROMs, and for each bridge with something behind it a window
//! around what the bus behind needs.
ghost use Rattle.std.specs.Prelude.{◌≡◌, ◌≤◌, ◌^◌, ◌<◌, ◌+◌, ℕ, length, min, max, slice_index, ◌++◌};
ghost use Rattle.std.specs.List.{All};
ghost use Rattle.plan_spec.specs.Plan.{window_size, need_of, greatest_of_roots};
ghost use Rattle.pci_tree.specs.Regions.{IsLawful};
ghost use Rattle.pci_base.specs.WindowKinds.{kind_value};
ghost use Rattle.pci_place.specs.Pools.{pools_value};
ghost use Rattle.pci_place.specs.Above.{AreAboves, system_in};
ghost use Rattle.pci_place.specs.Sizes.{span, record_own_sizes, window_sizes, IsTallyOf};

use super::pools::Pools;
use crate::above::Above;
use crate::class::class_of_bar;
use pci_base::slot::BUSES;
use pci_base::window_kind::WindowKind;
use pci_function::record::Record;
use pci_image::bar::Bar;
use pci_image::rom::Rom;
use pci_tree::admitted::Admitted;
use std::alloc::Allocator;

/// No pool holds so much.
const MOST: u128 = 1 << 65;

/// What the buses need of a class.
#[derive(Clone, Copy, Debug)]
pub struct Needs {
    /// How many addresses each bus needs, 2^65 standing for all that is more.
    pub of_bus: [u128; BUSES],
    /// The greatest size of what stands on the root buses, 0 where nothing does.
    pub greatest: u128,
}

/// The sum of some sizes, and the greatest of them.
#[derive(Clone, Copy, Debug)]
struct Tally {
    sum: u128,
    greatest: u128,
}

impl Needs {
    /// Nothing is needed anywhere: a table to be filled.
    pub const NONE: Needs = Needs {
        of_bus: [0; BUSES],
        greatest: 0,
    };
}

impl Tally {
    const NONE: Tally = Tally {
        sum: 0,
        greatest: 0,
    };

    /// With one more size.
    fn and(self, size: u128) -> Tally
        requires sum { self.sum ≤ 2 ^ 65 }
        requires size { size ≤ 2 ^ 65 }
        ensures sum { result.sum ≡ min (2 ^ 65) (self.sum + size) }
        ensures greatest { result.greatest ≡ max self.greatest size }
    {
        Tally {
            sum: MOST.min(self.sum + size),
            greatest: self.greatest.max(size),
        }
    }
}

/// How many addresses a BAR has.
pub fn bar_size(bar: &Bar) -> u128
    // a BAR has an address at least; without one the difference would be below 0
    requires { bar.now.first ≤ bar.now.last }
    ensures size { result ≡ span bar.now.first bar.now.last }
    // sums of sizes are cut off at 2^65, and take none above it
    ensures bound { result ≤ 2 ^ 64 }
{
    u128::from(bar.last) - u128::from(bar.first) + 1
}

/// How many addresses a ROM has.
pub fn rom_size(rom: &Rom) -> u128
    // else the difference would be below 0
    requires { rom.now.first ≤ rom.now.last }
    ensures size { result ≡ span rom.now.first rom.now.last }
    // sums of sizes are cut off at 2^65, and take none above it
    ensures bound { result ≤ 2 ^ 64 }
{
    u128::from(rom.last) - u128::from(rom.first) + 1
}

/// The least power of two that is no less than the need of the bus behind a bridge, nor than a page.
pub fn window_size_of(class: WindowKind, need: u128) -> u128
    // so that doubling from a page on comes to it in 66 steps
    requires { need ≤ 2 ^ 65 }
    ensures { result ≡ window_size (kind_value class) need }
{
    let mut size = u128::from(class.page_size());
    for _ in 0..66u32 {
        if need <= size {
            return size;
        }
        size *= 2;
    }
    size
}

/// The sizes of a function's own BARs and ROM of a class.
fn own_tally(record: &Record, class: WindowKind, above: Above, pools: &Pools) -> Tally
    requires { IsLawful «record».now }
    ensures { IsTallyOf (record_own_sizes (kind_value class) above pools.now «record».now) result }
{
    let mut tally = Tally::NONE;
    for bar in record.bars.as_slice() {
        if class_of_bar(bar, above, pools) == class {
            tally = tally.and(bar_size(bar));
        }
    }
    match &record.rom {
        Some(rom) if class == WindowKind::Memory => tally.and(rom_size(rom)),
        _ => tally,
    }
}

/// Those, and the window of a bridge with something behind it.
fn tally_of(
    record: &Record,
    class: WindowKind,
    above: Above,
    pools: &Pools,
    of_bus: &[u128; BUSES],
) -> Tally
    requires lawful { IsLawful «record».now }
    requires limited { All (λ need. need ≤ 2 ^ 65) of_bus.now }
    ensures { IsTallyOf (record_own_sizes (kind_value class) above pools.now «record».now
        ++ window_sizes (kind_value class) of_bus.now «record».now.bridge) result }
{
    let tally = own_tally(record, class, above, pools);
    if let Some(bridge) = record.bridge {
        let need = of_bus[bridge.secondary as usize];
        if 0 < need {
            return tally.and(window_size_of(class, need));
        }
    }
    tally
}

/// Puts into `needs` what each bus needs of a class. Functions behind a bridge have higher slots than the bridge, so in
/// one pass from the highest slot down the need of the bus behind a bridge is whole when the bridge is met.
///
/// The table of 4 KB is filled where it lies, as a caller of little stack can't have it twice.
pub fn needs_of<A: Allocator>(
    admitted: &Admitted<A>,
    pools: &Pools,
    class: WindowKind,
    aboves: &[Above; BUSES],
    needs: &mut Needs,
)
    // the class of a BAR hangs on the windows of the bridges above it
    requires { AreAboves (system_in admitted.now) aboves.now }
    // a caller that goes by all of them has to know that there are no more
    ensures size { length needs.new.of_bus ≡ 256 }
    ensures need { (bus : ℕ) → bus < 256
        → slice_index needs.new.of_bus bus
        ≡ need_of (system_in admitted.now) (pools_value pools.now) (kind_value class) bus }
    // placing starts at a multiple of it, so that each size stands at one of its own
    ensures greatest { needs.new.greatest
        ≡ greatest_of_roots admitted.now.roots (system_in admitted.now) (pools_value pools.now)
        (kind_value class) }
{
    let outline = admitted.outline();
    let records = outline.records();
    let roots = outline.roots();
    needs.of_bus = [0; BUSES];
    let mut greatest = 0;
    for done in 0..records.len() {
        let record = &records[records.len() - 1 - done];
        let bus = record.slot.bus() as usize;
        let tally = tally_of(record, class, aboves[bus], pools, &needs.of_bus);
        needs.of_bus[bus] = MOST.min(needs.of_bus[bus] + tally.sum);
        if roots.has(record.slot.bus()) && greatest < tally.greatest {
            greatest = tally.greatest;
        }
    }
    needs.greatest = greatest;
}
