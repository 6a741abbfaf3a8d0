//! The registers of a bridge's windows, and what they may hold (Bridge 1.2, 3.2.5).
//!
//! Which read backs are decoded is this project's own choice: a window is there whole or not at all,
//! and a bridge always has a memory window.
ghost use Rattle.std.specs.Prelude.{◌≡◌, ◌+◌, ◌*◌, ◌≤◌, ◌≢◌, ◌^◌, ◌%◌, ◌<◌, ◌==◌, IsTrue, IsFalse, MatchOption};
ghost use Rattle.std.specs.Option.{option_map};
ghost use Rattle.pci_spec.specs.Window.{bounds_at, is_optional, is_zero, lower_pages, page_bits, upper_bits, shows_window, is_window_read_back, is_window_value, bounds_for, closed_bounds};
ghost use Rattle.pci_base.specs.WindowKinds.{kind_value};
ghost use Rattle.pci_base.specs.Bounds.{address_bits, spec_bounds_of, page_of, range_between};
ghost use Rattle.pci_base.specs.Ranges.{decoded_range_of};

use crate::image::Image;
use crate::offset::{
    IO_BASE, IO_BASE_UPPER, IO_LIMIT, IO_LIMIT_UPPER, MEMORY_BASE, MEMORY_LIMIT, PREFETCHABLE_BASE,
    PREFETCHABLE_BASE_UPPER, PREFETCHABLE_LIMIT, PREFETCHABLE_LIMIT_UPPER,
};
use crate::range::Range;
use crate::window_kind::WindowKind;

/// What the registers of a window hold: base and limit, and their upper halves, which are 0 where
/// there are none.
#[derive(Clone, Copy)]
pub struct Bounds {
    pub base: u16,
    pub limit: u16,
    pub base_upper: u32,
    pub limit_upper: u32,
}

/// The low nibble of base and limit of a window without upper halves.
const NARROW: u16 = 0;

/// The low nibble of base and limit of a window with upper halves.
const WIDE: u16 = 1;

impl WindowKind {
    /// What an image, or what was read back, has in the window's registers.
    pub fn bounds(self, image: &Image) -> Bounds
        ensures { spec_bounds_of result ≡ bounds_at (kind_value self) image.now.0 }
    {
        match self {
            WindowKind::Io => Bounds {
                base: image.u8(IO_BASE).into(),
                limit: image.u8(IO_LIMIT).into(),
                base_upper: image.u16(IO_BASE_UPPER).into(),
                limit_upper: image.u16(IO_LIMIT_UPPER).into(),
            },
            WindowKind::Memory => Bounds {
                base: image.u16(MEMORY_BASE),
                limit: image.u16(MEMORY_LIMIT),
                base_upper: 0,
                limit_upper: 0,
            },
            WindowKind::Prefetchable => Bounds {
                base: image.u16(PREFETCHABLE_BASE),
                limit: image.u16(PREFETCHABLE_LIMIT),
                base_upper: image.u32(PREFETCHABLE_BASE_UPPER),
                limit_upper: image.u32(PREFETCHABLE_LIMIT_UPPER),
            },
        }
    }

    /// The bits of base and limit above the low nibble.
    fn page_bits(self) -> u16
        ensures { result ≡ page_bits (kind_value self) }
    {
        match self {
            WindowKind::Io => 0xf0,
            WindowKind::Memory | WindowKind::Prefetchable => 0xfff0,
        }
    }

    /// The bits of an upper half.
    fn upper_bits(self) -> u32
        ensures { result ≡ upper_bits (kind_value self) }
    {
        match self {
            WindowKind::Io => 0xffff,
            WindowKind::Memory => 0,
            WindowKind::Prefetchable => 0xffff_ffff,
        }
    }

    /// Whether a bridge may leave the window out, or give it upper halves.
    pub fn is_optional(self) -> bool
        ensures { result ≡ is_optional (kind_value self) }
    {
        match self {
            WindowKind::Io | WindowKind::Prefetchable => true,
            WindowKind::Memory => false,
        }
    }

    /// How many bits of a page number stand below the upper half.
    fn lower_width(self) -> u32
        ensures small { result < 13 }
        ensures pages { 2 ^ result ≡ lower_pages (kind_value self) }
    {
        match self {
            WindowKind::Io => 4,
            WindowKind::Memory | WindowKind::Prefetchable => 12,
        }
    }

    /// The number of a page, by its upper half and the base or limit that it stands in.
    fn page(self, upper: u32, lower: u16) -> u64
        ensures number { result ≡ page_of (kind_value self) upper lower }
        ensures small { result < 2 ^ 44 }
    {
        (u64::from(upper) << self.lower_width()) + u64::from(lower >> 4)
    }

    /// The addresses from the base's page to the limit's; none where the base stands above the limit.
    pub fn range(self, bounds: Bounds) -> Option<Range>
        ensures { option_map decoded_range_of result ≡
            range_between (kind_value self)
            (page_of (kind_value self) bounds.base_upper bounds.base)
            (page_of (kind_value self) bounds.limit_upper bounds.limit) }
    {
        let first_page = self.page(bounds.base_upper, bounds.base);
        let last_page = self.page(bounds.limit_upper, bounds.limit);
        if last_page < first_page {
            return None;
        }
        let size = self.page_size();
        Some(Range {
            first: first_page * size,
            last: last_page * size + (size - 1),
        })
    }

    /// Whether an implemented window with these values and read backs has upper halves; none where
    /// they are those of no window.
    pub fn has_upper(self, value: Bounds, mask: Bounds) -> Option<bool>
        ensures { MatchOption result
            (IsFalse (shows_window (kind_value self) (spec_bounds_of value) (spec_bounds_of mask)))
            (λ wide. IsTrue
            (shows_window (kind_value self) (spec_bounds_of value) (spec_bounds_of mask))
            × (wide ≡ (mask.base % 16 == 1)) × (mask.base ≢ 0)) }
    {
        if self.is_read_back(NARROW, mask) && value.is_value(NARROW) {
            Some(false)
        } else if self.is_optional() && self.is_read_back(WIDE, mask) && value.is_value(WIDE) {
            Some(true)
        } else {
            None
        }
    }

    /// Whether these read backs are those of a window with this low nibble.
    fn is_read_back(self, nibble: u16, mask: Bounds) -> bool
        requires { nibble < 2 }
        ensures { result ≡ is_window_read_back (kind_value self) nibble (spec_bounds_of mask) }
    {
        let page = self.page_bits() + nibble;
        let upper = self.upper_bits() * u32::from(nibble);
        mask.base == page
            && mask.limit == page
            && mask.base_upper == upper
            && mask.limit_upper == upper
    }
}

impl Bounds {
    /// Whether all registers of the window are 0.
    pub fn is_zero(self) -> bool
        ensures { result ≡ is_zero (spec_bounds_of self) }
    {
        self.base == 0 && self.limit == 0 && self.base_upper == 0 && self.limit_upper == 0
    }

    /// Whether these values go with this low nibble.
    fn is_value(self, nibble: u16) -> bool
        requires { nibble < 2 }
        ensures { result ≡ is_window_value nibble (spec_bounds_of self) }
    {
        let has_no_upper = self.base_upper == 0 && self.limit_upper == 0;
        self.base % 16 == nibble && self.limit % 16 == nibble && (nibble == WIDE || has_no_upper)
    }
}

/// One end of a window: base or limit, and its upper half, 0 where there is none.
#[derive(Clone, Copy, Debug, PartialEq, Eq)]
struct Bound {
    lower: u16,
    upper: u32,
}

impl Bound {
    /// At the page of an address, over the low nibble that shows whether the window has upper halves. Base and limit hold
    /// bits 15:12 of an I/O address in their bits 7:4, and bits 31:20 of a memory address in their bits 15:4; the upper half
    /// holds all higher bits (Bridge 1.2, 3.2.5).
    fn at(kind: WindowKind, nibble: u16, address: u64) -> Bound
        requires nibble { nibble < 16 }
        requires address { address < 2 ^ address_bits kind }
        ensures lower { result.lower ≡ (bounds_for (kind_value kind) nibble address address).base }
        ensures upper { result.upper
            ≡ (bounds_for (kind_value kind) nibble address address).base_upper }
    {
        match kind {
            WindowKind::Io => Bound {
                lower: (address >> 12 & 0xf) as u16 * 16 + nibble,
                upper: (address >> 16) as u32,
            },
            WindowKind::Memory | WindowKind::Prefetchable => Bound {
                lower: (address >> 20 & 0xfff) as u16 * 16 + nibble,
                upper: (address >> 32) as u32,
            },
        }
    }
}

impl Bounds {
    /// Where there is no window.
    pub const ABSENT: Bounds = Bounds {
        base: 0,
        limit: 0,
        base_upper: 0,
        limit_upper: 0,
    };

    /// Of a window from first to last.
    pub fn open(kind: WindowKind, nibble: u16, first: u64, last: u64) -> Bounds
        // the nibble stands below the bits of the page, and must not reach into them
        requires nibble { nibble < 16 }
        // of I/O 16 bits: no I/O pool goes beyond FFFFh, so the upper halves stay 0
        requires first { first < 2 ^ address_bits kind }
        requires last { last < 2 ^ address_bits kind }
        ensures { spec_bounds_of result ≡ bounds_for (kind_value kind) nibble first last }
    {
        let base = Bound::at(kind, nibble, first);
        let limit = Bound::at(kind, nibble, last);
        Bounds {
            base: base.lower,
            limit: limit.lower,
            base_upper: base.upper,
            limit_upper: limit.upper,
        }
    }

    /// Of a window that is closed: its base at the last page below 64 KB of I/O or 4 GB of memory, its limit at page 0.
    pub fn closed(kind: WindowKind, nibble: u16) -> Bounds
        // it stands below the bits of the page, as with an open window
        requires { nibble < 16 }
        ensures { spec_bounds_of result ≡ closed_bounds (kind_value kind) nibble }
    {
        let last_page = match kind {
            WindowKind::Io => 0xf000,
            WindowKind::Memory | WindowKind::Prefetchable => 0xfff0_0000,
        };
        Bounds::open(kind, nibble, last_page, 0)
    }

    /// Base and limit in one register, the limit from a bit on.
    pub fn lower(self, bit: u32) -> u32
        // above bit 16 the upper bits of the limit would fall out of the register
        requires { bit ≤ 16 }
        ensures { result ≡ self.base + 2 ^ bit * self.limit }
    {
        joined(self.base, self.limit, bit)
    }

    /// The upper halves of base and limit in one register, of 16 bits each.
    pub fn upper(self) -> u32
        // of I/O windows alone the upper halves have 16 bits; others would be cut here
        requires base { self.base_upper < 2 ^ 16 }
        requires limit { self.limit_upper < 2 ^ 16 }
        ensures { result ≡ self.base_upper + 2 ^ 16 * self.limit_upper }
    {
        joined(self.base_upper as u16, self.limit_upper as u16, 16)
    }
}

/// Two numbers in one, the second from a bit on.
fn joined(first: u16, second: u16, bit: u32) -> u32
    requires { bit ≤ 16 }
    ensures { result ≡ first + 2 ^ bit * second }
{
    u32::from(first) + (u32::from(second) << bit)
}
