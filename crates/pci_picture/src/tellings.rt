//! The ranges that the faults of a section tell.

ghost use Rattle.std.specs.Prelude.{◌≡◌, ◌<◌, ◌==◌, ◌++◌, ◌∷◌, [], List, codes, length, map, IfOk, MatchOption, OnOk, if◌then◌else◌};
ghost use Rattle.std.specs.List.{filter, slice_get};
ghost use Rattle.std.specs.List.Sorted.{IsNonDecreasingBy};
ghost use Rattle.pci_picture.specs.Cuts.{extents_told};
ghost use Rattle.pci_picture.specs.FaultLines.{faults_read};
ghost use Rattle.pci_picture.specs.Keyed.{AreKeysOf, has_key, indexes_from, told_by_some};
ghost use Rattle.pci_picture.specs.Maps.{lines_of_regions};
ghost use Rattle.pci_picture.specs.Marks.{keys_told};
ghost use Rattle.pci_picture.specs.Tellings.{digits_of_lines, fits_by, is_about, last_key, range_behind, range_in_line, ranges_of_faults, shared_by};
ghost use Rattle.pci_picture.specs.declared.region.Region.{Region};

use super::faults::{Fault, Faults, Naming};
use super::memory::OutOfMemory;
use super::reading::{extent_of, word};
use super::region::Region;
use std::alloc::Allocator;

/// A range that a line of a fault tells.
#[derive(Clone, Copy)]
pub struct Told {
    pub fault: usize,
    pub first: u64,
    pub last: u64,
}

/// The ranges that the faults of a section tell: shared ones, and those where a region would fit.
#[derive(Drop)]
pub struct Tellings<A: Allocator> {
    pub shared: Vec<Told, A>,
    pub fits: Vec<Told, A>,
}

/// A key and the index of the region that has it.
#[derive(Clone, Copy)]
pub struct Index {
    pub key: u64,
    pub index: usize,
}

/// Adds the faults of some namings.
fn push_faults<A: Allocator + Copy>(
    about: &mut Vec<usize, A>,
    namings: &[Naming],
) -> Result<(), OutOfMemory>
    ensures { OnOk result (about.new.items ≡ about.old.items ++ map (λ naming. naming.fault) namings.entry.now) }
{
    for naming in namings {
        about.push(naming.fault)?;
    }
    Ok(())
}

/// The faults that are about some regions, each once, in their order.
fn faults_about<A: Allocator + Copy>(
    alloc: A,
    faults: &Faults<'_, A>,
    regions: &[Region<'_>],
) -> Result<Vec<usize, A>, OutOfMemory>
    ensures exact { IfOk result (λ about. about.items
        ≡ indexes_from 0 (is_about (lines_of_regions regions.entry.now)) (faults_read faults.entry.now)) }
    ensures named { IfOk result (λ about. 0 < length about.items → 0 < length faults.entry.now.namings.items) }
{
    let mut about = Vec::new(alloc);
    for region in regions {
        push_faults(&mut about, faults.of(region.key))?;
    }
    about.sort()?;
    about.dedup();
    Ok(about)
}

/// The keys of some regions, by rising key; none where no fault is about a region, as then nobody asks for them.
pub fn keys_of<A: Allocator + Copy>(
    alloc: A,
    faults: &Faults<'_, A>,
    regions: &[Region<'_>],
) -> Result<Vec<Index, A>, OutOfMemory>
    ensures { IfOk result (λ keys. 0 < length faults.entry.now.namings.items → AreKeysOf regions.entry.now keys.items) }
{
    let mut keys = Vec::new(alloc);
    if faults.namings.is_empty() {
        return Ok(keys);
    }
    for (index, region) in regions.iter().enumerate() {
        keys.push(Index {
            key: region.key,
            index,
        })?;
    }
    keys.sort_by_key(|one| one.key)?;
    Ok(keys)
}

/// The indexes of the regions with a key.
pub fn with_key(keys: &[Index], key: u64) -> &[Index]
    ensures { IsNonDecreasingBy (λ one. one.key) keys.now → result.now ≡ filter (λ one. one.key == key) keys.now }
{
    let begin = keys.partition_point(|one| one.key < key);
    let end = keys.partition_point(|one| one.key <= key);
    keys.get(begin..end).unwrap_or(&[])
}

/// Whether the region that a fault names last is one of those with some keys.
fn is_moved_here(keys: &[Index], fault: &Fault) -> bool
    ensures { IsNonDecreasingBy (λ one. one.key) keys.now → result ≡ has_key keys.now (last_key (keys_told fault.now.keys)) }
{
    match fault.keys.last() {
        Some(key) => !with_key(keys, key).is_empty(),
        None => false,
    }
}

/// The range of a line `shared F-L N` or `fits F-L N`, where its addresses have `digits` digits.
fn range_told(fault: usize, line: &[u8], digits: usize) -> Option<Told>
    ensures { MatchOption result (range_in_line digits line.now ≡ [])
        (λ told. range_in_line digits line.now ≡ extents_told (told ∷ [])) }
{
    let range = extent_of(word(line, 1))?;
    if range.digits != digits {
        return None;
    }
    Some(Told {
        fault,
        first: range.first,
        last: range.last,
    })
}

/// Adds a range, if it is meant.
fn push_range<A: Allocator + Copy>(
    ranges: &mut Vec<Told, A>,
    range: Told,
    is_meant: bool,
) -> Result<(), OutOfMemory>
    ensures { OnOk result (extents_told ranges.new.items
        ≡ extents_told ranges.old.items ++ (if is_meant then extents_told (range ∷ []) else [])) }
{
    if is_meant {
        ranges.push(range)?;
    }
    Ok(())
}

/// Adds the range that a line of a fault tells: addresses that are shared, or where the region that the fault names last fits.
fn add_telling<A: Allocator + Copy>(
    tellings: &mut Tellings<A>,
    fault: usize,
    line: &[u8],
    digits: usize,
    moves_here: bool,
) -> Result<(), OutOfMemory>
    ensures shared { OnOk result (extents_told tellings.new.shared.items
        ≡ extents_told tellings.old.shared.items ++ range_behind (codes "shared") digits line.now) }
    ensures fits { OnOk result (extents_told tellings.new.fits.items
        ≡ extents_told tellings.old.fits.items ++ (if moves_here then range_behind (codes "fits ") digits line.now else [])) }
{
    let Some(range) = range_told(fault, line, digits) else {
        return Ok(());
    };
    push_range(&mut tellings.shared, range, line.starts_with(b"shared"))?;
    push_range(
        &mut tellings.fits,
        range,
        moves_here && line.starts_with(b"fits "),
    )
}

/// Adds the ranges that the fault with an index tells.
fn add_fault<A: Allocator + Copy>(
    tellings: &mut Tellings<A>,
    faults: &Faults<'_, A>,
    index: usize,
    digits: usize,
    keys: &[Index],
) -> Result<(), OutOfMemory>
    ensures shared { OnOk result (extents_told tellings.new.shared.items ≡ extents_told tellings.old.shared.items
        ++ told_by_some (shared_by digits) (slice_get (faults_read faults.entry.now) index)) }
    ensures fits { OnOk result ((regions : List Region) → AreKeysOf regions keys.entry.now
        → extents_told tellings.new.fits.items ≡ extents_told tellings.old.fits.items
        ++ told_by_some (fits_by digits (lines_of_regions regions)) (slice_get (faults_read faults.entry.now) index)) }
{
    let Some(fault) = faults.faults.get(index) else {
        return Ok(());
    };
    let moves_here = is_moved_here(keys, fault);
    for place in fault.begin..fault.end {
        add_telling(tellings, index, faults.line(place), digits, moves_here)?;
    }
    Ok(())
}

/// How many digits the addresses of the first region have.
fn digits_of(regions: &[Region<'_>]) -> usize
    ensures { result ≡ digits_of_lines (lines_of_regions regions.entry.now) }
{
    match regions.first() {
        Some(region) => region.digits,
        None => 0,
    }
}

/// The ranges that the faults about some regions tell.
pub fn tellings_of<A: Allocator + Copy>(
    alloc: A,
    faults: &Faults<'_, A>,
    regions: &[Region<'_>],
    keys: &[Index],
) -> Result<Tellings<A>, OutOfMemory>
    ensures { (0 < length faults.entry.now.namings.items → AreKeysOf regions.entry.now keys.entry.now)
        → IfOk result (λ tellings. extents_told (tellings.shared.items ++ tellings.fits.items)
        ≡ ranges_of_faults (faults_read faults.entry.now) (lines_of_regions regions.entry.now)) }
{
    let mut tellings = Tellings {
        shared: Vec::new(alloc),
        fits: Vec::new(alloc),
    };
    let digits = digits_of(regions);
    let about = faults_about(alloc, faults, regions)?;
    for index in &about {
        add_fault(&mut tellings, faults, *index, digits, keys)?;
    }
    Ok(tellings)
}
