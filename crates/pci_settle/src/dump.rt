//! The dump once all has its place.
ghost use Rattle.std.specs.Prelude.{◌≡◌, ◌<◌, IfOk, length, map, slice_index_or};
ghost use Rattle.settle_spec.specs.Lists.{Request};
ghost use Rattle.settle_spec.specs.Kept.{Kept as Keeping};
ghost use Rattle.pci_place.specs.Above.{system_in};
ghost use Rattle.pci_first_fit.specs.Kept.{nothing_kept};
ghost use Rattle.pci_first_fit.specs.Slots.{demand_value};
ghost use Rattle.pci_first_fit.specs.Own.{AreTerms};
ghost use Rattle.pci_first_fit.specs.Tables.{untold};
ghost use Rattle.pci_settle_places.specs.Live.{HasAllPlaces};
ghost use Rattle.pci_settle_places.specs.Answers.{AreFlagsOfTold};
ghost use Rattle.pci_settle.specs.Requests.{IsAskedOf};
ghost use Rattle.pci_settle.specs.Told.{TellsKeeping};
ghost use Rattle.pci_settle.specs.Wished.{TellsWishes};
ghost use Rattle.pci_settle.specs.Dumps.{IsSettledDump};

use crate::tables::Tables;
use pci_base::memory::OutOfMemory;
use pci_base::space::Space;
use pci_dump::block::Block;
use pci_dump::dump::Dump;
use pci_first_fit::list::Lists;
use pci_first_fit::own::Terms;
use pci_first_fit::table::{WindowRanges, ranges_told};
use pci_place::above::aboves;
use pci_settle_places::answering::Answering;
use pci_settle_places::image::ShownWindows;
use pci_settle_places::live::{is_live_behind, live_buses};
use pci_settle_places::settled::{Behind, settled_function};
use pci_settle_places::window::BridgeWindows;
use pci_tree::admitted::Admitted;
use std::alloc::Allocator;

/// The blocks of the dump as it is to be, with the addresses that are wished of windows and without.
#[derive(Clone, Copy)]
pub struct Images<'a> {
    /// Where nothing is wished.
    pub plain: &'a [Block],
    pub settled: &'a [Block],
}

/// What the windows of a function show, by tables in slot order.
fn shown_windows<'a>(
    tables: &Tables<'a>,
    wished: &'a [WindowRanges],
    function: usize,
) -> ShownWindows<'a>
    requires { function < length tables.now.staying.now }
    ensures kept { result.staying.kept.now ≡ slice_index_or tables.now.staying.now function nothing_kept }
    ensures grown { result.staying.grown.now ≡ slice_index_or tables.now.grown.now function untold }
    ensures wished { result.wished.now ≡ slice_index_or wished.now function untold }
{
    let staying = BridgeWindows {
        kept: &tables.staying[function],
        grown: ranges_told(tables.grown, function),
    };
    let wished = ranges_told(wished, function);
    ShownWindows { staying, wished }
}

/// What functions answer beside their BARs and ROMs, by flags of the told ranges that stand.
pub fn answering_of<'a>(lists: &'a Lists<'a>, standing: &'a [bool]) -> Answering<'a>
    ensures terms { AreTerms (demand_value lists.now) result.terms }
    ensures told { result.told.ranges.now ≡ lists.now.told.ranges.now }
    ensures standing { result.standing.now ≡ standing.now }
{
    Answering {
        terms: Terms::of(lists),
        told: lists.told,
        standing,
    }
}

/// The dump with each function as it is to be, slots and titles as they are: with the places that parts get, with what stays,
/// with what the windows that grow come to, and with the addresses that are wished of windows, where `wished` tells some.
///
/// Errors: 2 `OutOfMemory` where a growth was refused.
pub fn settled_dump<'a, A: Allocator, B: Allocator>(
    alloc: A,
    admitted: &Admitted<B>,
    lists: &Lists,
    tables: &Tables<'a>,
    wished: &'a [WindowRanges],
) -> Result<Dump<A>, OutOfMemory>
    // a function's places stand where its record does
    requires places { length tables.now.places.now ≡ length (system_in admitted.now) }
    // what stays of a function stands where its record does
    requires staying { length tables.now.staying.now ≡ length (system_in admitted.now) }
    // a told range has its flag by its index
    requires told { length tables.now.standing.now ≡ length lists.now.told.ranges.now }
    // a title is the caller's own text, and no register
    ensures titles { IfOk result
        (λ dump. map (λ b. b.title) dump ≡ map (λ b. b.title) admitted.now.dump) }
    ensures settled { IfOk result (λ dump. (q : Request) (keep : Keeping)
        → IsAskedOf q admitted.now.roots (demand_value lists.now)
        → AreFlagsOfTold q (system_in admitted.now) tables.now.standing.now
        → HasAllPlaces q (system_in admitted.now) keep tables.now.places.now
        → TellsKeeping q (system_in admitted.now) keep tables.now.grown.now tables.now.staying.now
        → TellsWishes (system_in admitted.now) keep wished.now
        → IsSettledDump q keep admitted.now dump) }
{
    let aboves = aboves(admitted);
    let answering = answering_of(lists, tables.standing);
    let io = live_buses(admitted, tables.places, Space::Io, &aboves, &answering);
    let memory = live_buses(admitted, tables.places, Space::Mem, &aboves, &answering);
    let outline = admitted.outline();
    let records = outline.records();
    let blocks = admitted.dump().blocks();
    let mut dump = Dump::empty(alloc);
    for k in 0..blocks.len() {
        let block = &blocks[k];
        let record = &records[k];
        let places = &tables.places[k];
        let shown = shown_windows(tables, wished, k);
        let above = aboves[usize::from(record.slot.bus())];
        let behind = Behind {
            io: is_live_behind(&io, record),
            memory: is_live_behind(&memory, record),
        };
        let old = &block.image;
        let terms = answering.terms;
        let image = settled_function(record, old, places, &shown, above, terms, behind);
        dump.push_next(Block {
            image,
            ..block.copy()
        })?;
    }
    Ok(dump)
}
