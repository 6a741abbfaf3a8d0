//! What is placed on a bus in a space.
ghost use Rattle.std.specs.Prelude.{◌≡◌, ◌++◌, IfOk, OnOk, map};
ghost use Rattle.std.specs.List.{All};
ghost use Rattle.pci_base.specs.WindowKinds.{kind_value};
ghost use Rattle.pci_place.specs.Above.{AreAboves, system_in};
ghost use Rattle.pci_first_fit.specs.Buses.{AreWindows};
ghost use Rattle.pci_settle_places.specs.Candidates.{of_class, HasAddressAndAlignment, AreAddedOf, AreSpaceWindows, AreCandidatesOf, windows_of_kind, pass_value};
ghost use Rattle.pci_settle_places.specs.Staying.{place_setting_value};

use crate::setting::Pass;
use pci_base::memory::OutOfMemory;
use pci_base::slot::BUSES;
use pci_base::space::Space;
use pci_base::window_kind::WindowKind;
use pci_first_fit::bus::items_in_turn;
use pci_first_fit::extent::Extent;
use pci_first_fit::item::Item;
use pci_first_fit::listing::{Classing, Listing};
use std::alloc::Allocator;

/// An item of a bus with the class in which it is placed.
#[derive(Clone, Copy, Debug)]
pub struct Candidate {
    pub class: WindowKind,
    pub item: Item,
}

/// The new windows of a space, by the bus behind each; None where nothing of the class is behind.
#[derive(Clone, Copy, Debug)]
pub struct SpaceWindows {
    /// Of I/O, or of memory that isn't prefetchable.
    pub plain: [Option<Extent>; BUSES],
    /// Of prefetchable memory; I/O has none.
    pub prefetch: [Option<Extent>; BUSES],
}

impl SpaceWindows {
    /// Those of a class.
    fn of(&self, class: WindowKind) -> &[Option<Extent>; BUSES]
        ensures { result.now ≡ windows_of_kind (kind_value class) self.now }
    {
        match class {
            WindowKind::Io | WindowKind::Memory => &self.plain,
            WindowKind::Prefetchable => &self.prefetch,
        }
    }
}

/// Adds items as those of a class.
fn add_items<A: Allocator>(
    candidates: &mut Vec<Candidate, A>,
    class: WindowKind,
    items: &[Item],
) -> Result<(), OutOfMemory>
    ensures { OnOk result
        (candidates.new.items ≡ candidates.old.items ++ map (of_class class) items.now) }
{
    for item in items {
        candidates.push(Candidate { class, item: *item })?;
    }
    Ok(())
}

/// Adds the items of a bus in a class, in the order in which they are placed.
fn add_class<A: Allocator + Copy, B: Allocator>(
    alloc: A,
    candidates: &mut Vec<Candidate, A>,
    pass: &Pass<B>,
    bus: u8,
    class: WindowKind,
) -> Result<(), OutOfMemory>
    requires { AreAboves (system_in pass.now.setting.now.admitted.now)
        pass.now.setting.now.aboves.now }
    ensures added { OnOk result (AreAddedOf (place_setting_value pass.now.setting.now) (kind_value class)
        (windows_of_kind (kind_value class) pass.now.windows.now) bus
        candidates.old.items candidates.new.items) }
    ensures lawful { AreWindows (windows_of_kind (kind_value class) pass.now.windows.now)
        → All HasAddressAndAlignment candidates.old.items
        → OnOk result (All HasAddressAndAlignment candidates.new.items) }
{
    let setting = pass.setting;
    let classing = Classing {
        admitted: setting.admitted,
        aboves: setting.aboves,
        terms: setting.terms,
        overs: setting.staying.left.over,
    };
    let listing = Listing {
        classing: &classing,
        class,
        windows: pass.windows.of(class),
        kept: setting.staying.left.kept,
    };
    let items = items_in_turn(alloc, &listing, bus)?;
    add_items(candidates, class, items.as_slice())?;
    Ok(())
}

/// The items of a bus in a space in the order in which they are placed; what stays is none. In memory space those of
/// prefetchable memory come last.
pub fn candidates_on<A: Allocator + Copy, B: Allocator>(
    alloc: A,
    pass: &Pass<B>,
    bus: u8,
) -> Result<Vec<Candidate, A>, OutOfMemory>
    // which windows lead to a BAR decides its class
    requires { AreAboves (system_in pass.now.setting.now.admitted.now)
        pass.now.setting.now.aboves.now }
    ensures items { IfOk result (λ candidates. AreCandidatesOf (pass_value pass.now) bus
        candidates.items) }
    // places are looked for by sizes and alignments
    ensures lawful { AreSpaceWindows pass.now.windows.now → IfOk result (λ candidates. All HasAddressAndAlignment candidates.items) }
{
    let mut candidates = Vec::new(alloc);
    let out = &mut candidates;
    match pass.space {
        Space::Io => add_class(alloc, out, pass, bus, WindowKind::Io)?,
        Space::Mem => {
            add_class(alloc, out, pass, bus, WindowKind::Memory)?;
            add_class(alloc, out, pass, bus, WindowKind::Prefetchable)?;
        }
    }
    Ok(candidates)
}
