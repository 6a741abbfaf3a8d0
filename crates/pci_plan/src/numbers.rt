//! What the registers of a function hold when everything is placed.
ghost use Rattle.std.specs.Prelude.{◌≡◌, ◌+◌, ◌*◌, ◌/◌, ◌%◌, ◌^◌, ◌<◌, ℕ, ◌&&◌, ◌||◌, not, IsTrue, slice_index};
ghost use Rattle.std.specs.List.{Contains, list_any};
ghost use Rattle.std.specs.Option.{is_some};
ghost use Rattle.pci_spec.specs.Header.{bar_count, bar_register, layout, rom_register};
ghost use Rattle.pci_spec.specs.System.{Bar as BarPart, Window as WindowPart, is_bridge};
ghost use Rattle.pci_spec.specs.Window.{has_window};
ghost use Rattle.plan_spec.specs.Place.{nibble_of};
ghost use Rattle.plan_spec.specs.Plan.{has_behind};
ghost use Rattle.plan_spec.specs.Planning.Numbers as numbers;
ghost use Rattle.pci_place.specs.Classes.{is_io_kind};
ghost use Rattle.pci_base.specs.WindowKinds.{kind_value, by_kind};
ghost use Rattle.pci_place.specs.Places.{first_in};
ghost use Rattle.pci_base.specs.Bounds.{spec_bounds_of};
ghost use Rattle.pci_image.specs.Registers.{has_place};
ghost use Rattle.pci_plan.specs.Fillings.{FillingOf};

use pci_base::bounds::Bounds;
use pci_base::image::Image;
use pci_base::offset::{BASE_ADDRESS, COMMAND};
use pci_base::window_kind::{ByKind, WindowKind};
use pci_function::record::{Bridge, Record};
use pci_image::bar::{Bar, BarKind};
use pci_image::register::{Register, Role};
use pci_place::lacking::has_io_bar;
use pci_place::need::{Needs, window_size_of};
use pci_place::place::Places;

/// A function with the places of its parts.
#[derive(Clone, Copy)]
pub struct Filling<'a> {
    pub record: &'a Record,
    pub image: &'a Image,
    pub places: &'a Places,
    pub needs: &'a ByKind<Needs>,
}

/// Whether a function has a memory BAR or a ROM.
fn has_memory_part(function: &Record) -> bool
    ensures { result
        ≡ (list_any (λ bar. not (is_io_kind bar.kind)) function.now.bars.items
        || is_some function.now.rom) }
{
    for bar in function.bars.as_slice() {
        if bar.kind != BarKind::Io {
            return true;
        }
    }
    function.rom.is_some()
}

/// The lower half of a number.
fn lower_half(number: u64) -> u32
    ensures { result ≡ number % 2 ^ 32 }
{
    (number & 0xffff_ffff) as u32
}

/// The upper half of a number.
fn upper_half(number: u64) -> u32
    ensures { result ≡ number / 2 ^ 32 }
{
    (number >> 32) as u32
}

impl Filling<'_> {
    /// The first address of a BAR's place.
    fn place_of(&self, bar: &Bar) -> u64
        requires { (n : ℕ) × (n < 6) × (bar.now.reg ≡ bar_register n) }
        ensures { (n : ℕ) → bar.now.reg ≡ bar_register n
            → result ≡ first_in self.now.places.now (BarPart n) }
    {
        self.places.bars[usize::from((bar.reg - BASE_ADDRESS) / 4)]
    }

    /// Of a BAR, both registers together where it has two: the first address, over the encoding that stands there.
    fn bar_value(&self, bar: &Bar) -> u64
        requires of { FillingOf self.now }
        requires listed { Contains self.now.record.now.bars.items bar.now }
        ensures { (of : FillingOf self.now) (n : ℕ) → bar.now.reg ≡ bar_register n
            → result ≡ numbers.new_bar of.roots of.system of.pools of.function n }
    {
        bar.value_from(self.image.u32(bar.reg), self.place_of(bar))
    }

    /// Of a Base Address register: a BAR's, its upper half, or what stands there.
    fn bar_number(&self, offset: u8) -> u32
        requires of { FillingOf self.now }
        requires aligned { offset % 4 ≡ 0 }
        ensures { (of : FillingOf self.now) (n : ℕ) → n < bar_count (layout of.function.image)
            → offset ≡ bar_register n
            → result ≡ numbers.bar_number of.roots of.system of.pools of.function n }
    {
        for bar in self.record.bars.as_slice() {
            if bar.reg == offset {
                return lower_half(self.bar_value(bar));
            }
            if bar.kind == BarKind::Mem64 && bar.reg + 4 == offset {
                return upper_half(self.bar_value(bar));
            }
        }
        self.image.u32(offset)
    }

    /// Of the Expansion ROM register: the first address, with the enable bit that stands there.
    fn rom_number(&self, offset: u8) -> u32
        requires of { FillingOf self.now }
        requires register { (of : FillingOf self.now)
            → offset ≡ rom_register (layout of.function.image) }
        ensures { (of : FillingOf self.now)
            → result ≡ numbers.rom_number of.roots of.system of.pools of.function }
    {
        match &self.record.rom {
            None => self.image.u32(offset),
            Some(_) => self.places.rom as u32 + self.image.u32(offset) % 2,
        }
    }

    /// What the bus behind a bridge needs.
    fn need(&self, bridge: &Bridge, class: WindowKind) -> u128
        ensures { result
            ≡ slice_index (by_kind self.now.needs.now class).of_bus bridge.now.secondary }
    {
        self.needs.get(class).of_bus[usize::from(bridge.secondary)]
    }

    /// The first address of a window's place.
    fn window_place(&self, class: WindowKind) -> u64
        ensures { result ≡ first_in self.now.places.now (WindowPart (kind_value class)) }
    {
        *self.places.windows.get(class)
    }

    /// Of a window that is there, with its low nibble.
    fn window_bounds(&self, bridge: &Bridge, class: WindowKind, nibble: u16) -> Bounds
        requires of { FillingOf self.now }
        requires bridge { self.now.record.now.bridge ≡ Some bridge.now }
        requires nibble { (of : FillingOf self.now)
            → nibble ≡ nibble_of (kind_value class) of.function }
        requires there { (of : FillingOf self.now)
            → IsTrue (has_window (kind_value class) of.function.probe) }
        ensures { (of : FillingOf self.now)
            → spec_bounds_of result
            ≡ numbers.new_bounds of.roots of.system of.pools of.function (kind_value class) }
    {
        let need = self.need(bridge, class);
        if need == 0 {
            return Bounds::closed(class, nibble);
        }
        let first = self.window_place(class);
        let last = u128::from(first) + (window_size_of(class, need) - 1);
        Bounds::open(class, nibble, first, last as u64)
    }

    /// Of a window of a bridge, which may not be there.
    fn bounds(&self, class: WindowKind) -> Bounds
        requires of { FillingOf self.now }
        requires bridge { IsTrue (is_some self.now.record.now.bridge) }
        ensures { (of : FillingOf self.now)
            → spec_bounds_of result
            ≡ numbers.new_bounds of.roots of.system of.pools of.function (kind_value class) }
    {
        let Some(bridge) = &self.record.bridge else {
            unreachable!()
        };
        match bridge.windows.get(class) {
            None => Bounds::ABSENT,
            Some(window) => self.window_bounds(bridge, class, u16::from(window.wide())),
        }
    }

    /// What an address register holds.
    pub fn number(&self, register: Register) -> u32
        // new numbers are told of a function in a system that can be planned
        requires of { FillingOf self.now }
        // what a register holds is found by its role, so it has to stand where the role says
        requires place { IsTrue (has_place (is_some self.now.record.now.bridge) register) }
        ensures { (of : FillingOf self.now)
            → result
            ≡ numbers.new_number of.roots of.system of.pools of.function
            (register.offset, register.width) }
    {
        match register.role {
            Role::Bar(_) => self.bar_number(register.offset),
            Role::Rom => self.rom_number(register.offset),
            Role::Bounds(WindowKind::Io) => self.bounds(WindowKind::Io).lower(8),
            Role::Bounds(WindowKind::Memory) => self.bounds(WindowKind::Memory).lower(16),
            Role::Bounds(WindowKind::Prefetchable) => {
                self.bounds(WindowKind::Prefetchable).lower(16)
            }
            Role::IoUpper => self.bounds(WindowKind::Io).upper(),
            Role::PrefetchableBaseUpper => self.bounds(WindowKind::Prefetchable).base_upper,
            Role::PrefetchableLimitUpper => self.bounds(WindowKind::Prefetchable).limit_upper,
            Role::Control(_) | Role::Status(_) => unreachable!(),
        }
    }

    /// Whether the function is a bridge with a window of a class, and something of the class is behind it.
    fn is_open(&self, class: WindowKind) -> bool
        requires { FillingOf self.now }
        ensures { (of : FillingOf self.now)
            → result
            ≡ (is_bridge of.function && has_window (kind_value class) of.function.probe
            && has_behind of.system of.pools (kind_value class) of.function) }
    {
        match &self.record.bridge {
            None => false,
            Some(bridge) => bridge.windows.get(class).is_some() && 0 < self.need(bridge, class),
        }
    }

    /// Whether there is something to decode in I/O space.
    fn needs_io(&self) -> bool
        requires { FillingOf self.now }
        ensures { (of : FillingOf self.now)
            → result ≡ numbers.needs_io of.system of.pools of.function }
    {
        has_io_bar(self.record) || self.is_open(WindowKind::Io)
    }

    /// Whether there is something to decode in memory space.
    fn needs_memory(&self) -> bool
        requires { FillingOf self.now }
        ensures { (of : FillingOf self.now)
            → result ≡ numbers.needs_memory of.system of.pools of.function }
    {
        has_memory_part(self.record)
            || self.is_open(WindowKind::Memory)
            || self.is_open(WindowKind::Prefetchable)
    }

    /// What Command holds: bits 0 and 1 as there is something to decode, all others as they stand (PCI 3.0, 6.2.2).
    pub fn command(&self) -> u16
        // new bits are told of a function in a system that can be planned
        requires { FillingOf self.now }
        ensures { (of : FillingOf self.now)
            → result ≡ numbers.new_command of.system of.pools of.function }
    {
        let rest = self.image.u16(COMMAND) / 4 * 4;
        rest + u16::from(self.needs_io()) + 2 * u16::from(self.needs_memory())
    }
}
