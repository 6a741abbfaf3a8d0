//! A domain of a machine.
ghost use Rattle.std.specs.Prelude.{◌++◌, ◌∷◌, [], ℕ, List, IfOk, IfErr, OnOk, IfSome, MatchResult, map, string_bytes};
ghost use Rattle.pci_tree.specs.Roots.{buses_of};
ghost use Rattle.pci_here.specs.Places.{AreDomainsIn, AreDomainsOf, HasNoDomains};
ghost use Rattle.std.specs.List.{All};
ghost use Rattle.pci_here.specs.Functions.{IsFunctionReadable};
ghost use Rattle.pci_here.specs.Taken.{AreFunctionsTaken, IsFirstTrouble};
ghost use Rattle.pci_here.specs.Domain.{IsToldInFile, file_text, IsDomain, IsNoDomain};

use crate::functions::Functions;
use crate::host_ranges::host_ranges;
use crate::machine::Machine;
use crate::place::{Place, place_of};
use crate::places::places_of;
use crate::trouble::{Trouble, TroubleAt};
use pci_base::memory::OutOfMemory;
use pci_base::range::RootRange;
use pci_dump::dump::Dump;
use pci_machine::sizes::Sizes;
use pci_tree::roots::Roots;
use std::alloc::{AllocError, Global};

/// What is told of a domain.
#[derive(Drop)]
pub struct Domain {
    /// The 256 bytes of each function that isn't virtual, by slot, without titles.
    pub dump: Dump,
    /// The first seven lines of each one's file `resource`.
    pub sizes: Sizes,
    /// The host buses that they are below.
    pub roots: Roots,
    /// What the host sends to these buses in I/O space; None where nothing is told.
    pub io: Option<Vec<RootRange>>,
    /// The same in memory space.
    pub mem: Option<Vec<RootRange>>,
    /// How many functions are virtual, and left out.
    pub left_out: usize,
}

/// Adds the domain of the place that a name tells.
fn add_domain(domains: &mut Vec<u32>, name: &str) -> Result<(), AllocError>
    ensures { OnOk result ((names : List (List ℕ)) → AreDomainsIn names domains.old.items
        → AreDomainsIn (names ++ name.now ∷ []) domains.new.items) }
{
    match place_of(name) {
        Some(place) => {
            domains.push(place.domain)?;
            Ok(())
        }
        None => Ok(()),
    }
}

/// The domains of the places that names tell, in their order.
fn domains_in(alloc: Global, names: &[String]) -> Result<Vec<u32>, AllocError>
    ensures { IfOk result (λ domains. AreDomainsIn (map string_bytes names.now) domains.items) }
{
    let mut domains = Vec::new(alloc);
    for name in names {
        add_domain(&mut domains, name.as_str())?;
    }
    Ok(domains)
}

/// The domains in which a machine has functions, from the least to the greatest, each once.
///
/// Errors: `Unread` where there is no folder of functions or no function, `Memory` where a growth was refused.
pub fn domains_of<M: Machine>(alloc: Global, machine: &M) -> Result<Vec<u32>, Trouble>
    ensures { IfSome (M.shown machine.now) (λ m. MatchResult result
        (λ domains. AreDomainsOf m domains.items) (HasNoDomains m)) }
{
    let names = machine.names(alloc)?;
    let mut domains = domains_in(alloc, names.as_slice())?;
    if domains.is_empty() {
        return Err(Trouble::Unread);
    }
    domains.sort_unstable();
    domains.dedup();
    Ok(domains)
}

/// Takes the functions at some places.
fn functions_of<M: Machine>(
    alloc: Global,
    machine: &M,
    places: &[Place],
) -> Result<Functions, TroubleAt>
    ensures taken { IfOk result (λ functions. IfSome (M.shown machine.now)
        (λ m. AreFunctionsTaken m places.now functions)) }
    // where they have no root bus, all of them are virtual
    ensures read { OnOk result (IfSome (M.shown machine.now) (λ m. All (IsFunctionReadable m) places.now)) }
    ensures err { IfErr result (λ at. IfSome (M.shown machine.now) (λ m. IsFirstTrouble m places.now at)) }
{
    let mut functions = Functions::none(alloc);
    for place in places {
        match functions.take(alloc, machine, *place) {
            Ok(()) => {}
            Err(trouble) => {
                return Err(TroubleAt {
                    trouble,
                    place: Some(*place),
                });
            }
        }
    }
    Ok(functions)
}

/// What a file of `proc` tells of the root buses.
fn ranges_in(
    alloc: Global,
    text: Option<String>,
    domain: u32,
    roots: &Roots,
) -> Result<Option<Vec<RootRange>>, OutOfMemory>
    ensures { IfOk result (λ list. IsToldInFile (file_text text) domain (buses_of roots.now) list) }
{
    match text {
        Some(text) => host_ranges(alloc, text.as_str(), domain, roots),
        None => Ok(None),
    }
}

/// What the host sends to the root buses in I/O space and in memory space.
#[derive(Drop)]
struct Host {
    io: Option<Vec<RootRange>>,
    mem: Option<Vec<RootRange>>,
}

/// Reads what the host sends to the root buses.
fn host_of<M: Machine>(
    alloc: Global,
    machine: &M,
    domain: u32,
    roots: &Roots,
) -> Result<Host, OutOfMemory>
    ensures io { IfOk result (λ host. IfSome (M.shown machine.now)
        (λ m. IsToldInFile m.ioports domain (buses_of roots.now) host.io)) }
    ensures mem { IfOk result (λ host. IfSome (M.shown machine.now)
        (λ m. IsToldInFile m.iomem domain (buses_of roots.now) host.mem)) }
{
    let io = ranges_in(alloc, machine.ioports(alloc)?, domain, roots)?;
    let mem = ranges_in(alloc, machine.iomem(alloc)?, domain, roots)?;
    Ok(Host { io, mem })
}

/// Reads a domain of a machine.
///
/// Errors: of the function with the least slot that has one, its trouble, as [`crate::function::read_function`] says;
/// `Unread` of no function where there is no folder of functions, or no function of the domain that isn't virtual;
/// `TooMany` of the 4,097th function, and of one whose place a second name tells; `Memory` where a growth was refused.
pub fn domain_of<M: Machine>(alloc: Global, machine: &M, domain: u32) -> Result<Domain, TroubleAt>
    ensures ok { IfOk result (λ d. IfSome (M.shown machine.now) (λ m. IsDomain m domain d)) }
    ensures err { IfErr result (λ at. IfSome (M.shown machine.now) (λ m. IsNoDomain m domain at)) }
{
    let places = match places_of(alloc, machine, domain) {
        Ok(places) => places,
        Err(trouble) => return Err(TroubleAt::of_all(trouble)),
    };
    let functions = functions_of(alloc, machine, places.as_slice())?;
    let Some(roots) = functions.roots() else {
        return Err(TroubleAt::of_all(Trouble::Unread));
    };
    let Ok(host) = host_of(alloc, machine, domain, &roots) else {
        return Err(TroubleAt::of_all(Trouble::Memory));
    };
    Ok(Domain {
        dump: functions.dump,
        sizes: functions.sizes,
        roots,
        io: host.io,
        mem: host.mem,
        left_out: functions.left_out,
    })
}
