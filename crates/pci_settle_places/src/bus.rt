//! The places of the items of one bus: those that are told, or in lists of ranges.
ghost use Rattle.std.specs.Prelude.{◌≡◌, ◌<◌, ◌≤◌, IfOk, IsTrue, map, length};
ghost use Rattle.std.specs.List.{All};
ghost use Rattle.pci_spec.specs.System.{System};
ghost use Rattle.pci_spec.specs.Bus.{is_root};
ghost use Rattle.pci_spec.specs.Decoded.{HasRecords};
ghost use Rattle.pci_base.specs.WindowKinds.{kind_value};
ghost use Rattle.pci_function.specs.Values.{record_value};
ghost use Rattle.pci_tree.specs.Roots.{buses_of};
ghost use Rattle.pci_place.specs.Above.{AreAboves, system_in};
ghost use Rattle.pci_settle_places.specs.Candidates.{AreSpaceWindows, KnowsWindows, IsWithin, pass_value};
ghost use Rattle.pci_kept.specs.Held.{AreByLevel};
ghost use Rattle.pci_first_fit.specs.Lines.{AreLineRows};
ghost use Rattle.pci_settle_places.specs.Stretches.{AreStretches};
ghost use Rattle.pci_settle_places.specs.Columns.{kind_number, column, told_place, candidate_wanted};
ghost use Rattle.pci_settle_places.specs.BusPlaces.{bus_placing, ArePlacesIn, AreToldEnding, AreInTable};

use crate::behind::{Asked, behind_each};
use crate::candidate::{Candidate, candidates_on};
use crate::lines::taken_at;
use crate::setting::Pass;
use pci_base::memory::OutOfMemory;
use pci_base::range::Range;
use pci_base::window_kind::WindowKind;
use pci_first_fit::list::is_root;
use pci_first_fit::place::{Places, place_of};
use pci_first_fit::placing::{Search, Wanted, place_all};
use pci_first_fit::table::WindowRanges;
use pci_function::record::Record;
use pci_kept::collect::level;
use pci_tree::roots::Roots;
use std::alloc::Allocator;

/// The items of a bus in a space and their places.
#[derive(Drop)]
pub struct BusPlaces<A: Allocator> {
    pub candidates: Vec<Candidate, A>,
    /// The first address of each of them.
    pub places: Vec<u64, A>,
    /// None where all have a place, else the index of the first that has none.
    pub lack: Option<usize>,
}

/// Which list of a column is for what is of a class, and may lie above 4 GB or not.
fn kind_number(class: WindowKind, high: bool) -> usize
    ensures exact { result ≡ kind_number (kind_value class) high }
    ensures few { result < 3 }
{
    match class {
        WindowKind::Io => 0,
        WindowKind::Memory => { if high { 1 } else { 0 } }
        WindowKind::Prefetchable => 2,
    }
}

/// Which column is for what is on a bus: a root has one of its own.
fn column(roots: &Roots, bus: u8) -> usize
    ensures exact { result ≡ column (buses_of roots.now) bus }
    ensures few { result < 256 }
{
    if is_root(roots, bus) {
        usize::from(bus)
    } else {
        0
    }
}

/// The places that are told for the items of a bus.
#[derive(Clone, Copy, Debug)]
pub struct Told<'a> {
    /// By function and part.
    pub places: &'a [Places],
    /// What the windows over the bus come to: of the items in one that grows the places are told.
    pub grown: &'a WindowRanges,
}

/// The place of an item, where it is told.
fn told_place(told: &Told, candidate: &Candidate) -> Option<u64>
    ensures { result ≡ told_place told.now.places.now told.now.grown.now candidate.now }
{
    match told.grown.get(candidate.class) {
        Some(_) => place_of(told.places, candidate.class, &candidate.item),
        None => None,
    }
}

/// What is wanted for each item: its extent at the place that is told, or in the list that is for it.
fn wanted_of<A: Allocator>(
    alloc: A,
    roots: &Roots,
    records: &[Record],
    told: &Told,
    candidates: &[Candidate],
) -> Result<Vec<Wanted, A>, OutOfMemory>
    requires { All (IsWithin (length records.now)) candidates.now }
    ensures { IfOk result (λ wanted. (s : System) → HasRecords s (map record_value records.now)
        → wanted.items ≡ map (candidate_wanted (buses_of roots.now) s told.now.places.now
        told.now.grown.now) candidates.now) }
{
    let mut wanted = Vec::new(alloc);
    for candidate in candidates {
        let item = candidate.item;
        let bus = records[item.function].slot.bus();
        let list = 3 * column(roots, bus) + kind_number(candidate.class, item.extent.is_high());
        let at = told_place(told, candidate);
        wanted.push(Wanted {
            extent: item.extent,
            list,
            at,
        })?;
    }
    Ok(wanted)
}

/// Gives each item of a bus the place that is told, or else its first place in its list. That is off what stays there and what
/// lines hold, on the bus or behind a new window. On the roots the lists are columns by bus, and elsewhere one column. `grown`
/// is what the windows over the bus come to.
pub fn place_bus<A: Allocator + Copy, B: Allocator>(
    alloc: A,
    pass: &Pass<B>,
    bus: u8,
    lists: &[Vec<Range, A>],
    grown: &WindowRanges,
) -> Result<BusPlaces<A>, OutOfMemory>
    // which windows lead to a BAR decides its class
    requires above { AreAboves (system_in pass.now.setting.now.admitted.now)
        pass.now.setting.now.aboves.now }
    // what stays on a bus, and what lines hold there, is found by halving
    requires held { AreByLevel pass.now.setting.now.staying.held.now }
    requires lines { AreLineRows pass.now.setting.now.staying.lines.now }
    requires stretches { AreStretches pass.now.setting.now.staying.lines.now pass.now.setting.now.staying.stretches.now }
    // places are looked for by sizes and alignments
    requires lawful { AreSpaceWindows pass.now.windows.now }
    // a new window is as large as what is behind it, which is worked out before
    requires known { KnowsWindows (pass_value pass.now) }
    // a column has three lists: of plain ranges, of those above 4 GB too, and of prefetchable ones
    requires some { 3 ≤ length lists.now }
    // the places that are told end in 64 bits
    requires ending { AreToldEnding (pass_value pass.now) bus grown.now }
    // a root has a column of its own, found by its number
    requires roots { IsTrue (is_root pass.now.setting.now.admitted.now.roots bus) → length lists.now ≡ 768 }
    ensures placing { IfOk result (λ places. ArePlacesIn (pass_value pass.now)
        bus (map (λ list. list.items) lists.now) grown.now
        (bus_placing (system_in pass.now.setting.now.admitted.now) places.candidates.items
        places.places.items places.lack)) }
    // by it each place is noted where its function's record is
    ensures within { IfOk result (λ places. AreInTable (system_in pass.now.setting.now.admitted.now)
        places.candidates.items places.places.items places.lack) }
{
    let candidates = candidates_on(alloc, pass, bus)?;
    let setting = pass.setting;
    let outline = setting.admitted.outline();
    let roots = outline.roots();
    let records = outline.records();
    let told = Told {
        places: setting.staying.left.places,
        grown,
    };
    let wanted = wanted_of(alloc, &roots, records, &told, candidates.as_slice())?;
    let asked = Asked {
        lists,
        wanted: wanted.as_slice(),
    };
    let staying = &setting.staying;
    let behind = behind_each(alloc, records, staying, candidates.as_slice(), &asked)?;
    let mut places = vec![in alloc; 0; candidates.len()]?;
    let level = level(&roots, bus);
    let mut taken = taken_at(alloc, staying, level, pass.space)?;
    let search = Search {
        lists,
        behind: behind.as_slice(),
    };
    let lack = place_all(
        alloc,
        &search,
        &mut taken,
        wanted.as_slice(),
        places.as_mut_slice(),
    )?;
    Ok(BusPlaces {
        candidates,
        places,
        lack,
    })
}
