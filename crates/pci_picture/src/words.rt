//! A line of words that is being written.
ghost use Rattle.std.specs.Prelude.{◌≡◌, ◌++◌, [], Some, min, IfOk, OnOk};
ghost use Rattle.std.specs.Fmt.{decimal};
ghost use Rattle.std.specs.List.{flat_map, list_all};
ghost use Rattle.std.specs.Option.{option_map};
ghost use Rattle.pci_picture.specs.Labels.{cut_words};
ghost use Rattle.pci_picture.specs.Lines.{is_decimal, words_in_line};
ghost use Rattle.pci_picture.specs.Named.{low_digits, name_of_class, name_of_function, name_of_numbers, words_of_buses};
ghost use Rattle.pci_picture.specs.RegionWords.{words_of_region, words_of_size};
ghost use Rattle.pci_picture.specs.Roots.{listed_function};

use super::function::{Buses, Function};
use super::memory::OutOfMemory;
use super::reading::hex_byte;
use super::region::Region;
use std::alloc::Allocator;

static DIGITS: [u8; 16] = *b"0123456789abcdef";

/// The 16 hex digits of a number.
pub fn hex_digits(number: u64) -> [u8; 16]
    ensures { result ≡ low_digits 16 number }
{
    let mut digits = [b'0'; 16];
    for index in 0..16u32 {
        let shifted = number >> (60 - 4 * index);
        digits[index as usize] = DIGITS[(shifted % 16) as usize];
    }
    digits
}

/// How many bytes there is room for behind the first bytes of a line.
const ROOM: usize = 120;

/// A line of words.
#[derive(Drop)]
pub struct Words<A: Allocator> {
    pub bytes: Vec<u8, A>,
}

impl<A: Allocator + Copy> Words<A> {
    /// No words.
    pub fn new(alloc: A) -> Words<A>
        ensures { result.bytes.items ≡ [] }
    {
        Words {
            bytes: Vec::new(alloc),
        }
    }

    /// Some words.
    pub fn of(alloc: A, bytes: &[u8]) -> Result<Words<A>, OutOfMemory>
        ensures { IfOk result (λ words. words.bytes.items ≡ bytes.now) }
    {
        let mut words = Words::new(alloc);
        words.put(bytes)?;
        Ok(words)
    }

    /// Appends bytes.
    pub fn put(&mut self, bytes: &[u8]) -> Result<(), OutOfMemory>
        ensures { OnOk result (self.new.bytes.items ≡ self.old.bytes.items ++ bytes.now) }
    {
        // so that few lines grow again
        if self.bytes.is_empty() {
            self.bytes.reserve(bytes.len().saturating_add(ROOM))?;
        }
        self.bytes.extend_from_slice(bytes)?;
        Ok(())
    }

    /// Appends some bytes one behind the other.
    pub fn put_all(&mut self, parts: &[&[u8]]) -> Result<(), OutOfMemory>
        ensures { OnOk result
            (self.new.bytes.items ≡ self.old.bytes.items ++ flat_map (λ part. part.now) parts.now) }
    {
        for part in parts {
            self.put(part)?;
        }
        Ok(())
    }

    /// Appends the lowest `digits` hex digits of a number, at most 16.
    pub fn put_hex(&mut self, number: u64, digits: usize) -> Result<(), OutOfMemory>
        ensures { OnOk result (self.new.bytes.items ≡ self.old.bytes.items ++ low_digits (min digits 16) number) }
    {
        let all = hex_digits(number);
        self.put(&all[16 - digits.min(16)..])
    }

    /// Appends a number in decimal digits.
    pub fn put_number(&mut self, alloc: A, number: usize) -> Result<(), OutOfMemory>
        ensures { OnOk result (self.new.bytes.items ≡ self.old.bytes.items ++ decimal number) }
    {
        let digits = number.to_string(alloc)?;
        self.put(digits.as_bytes())
    }

    /// Appends a number of addresses, as `4K`, or `32 B`.
    #[tactic(auto, unfolding(crate::specs::RegionWords::words_of_size))]
    pub fn put_size(&mut self, size: &[u8]) -> Result<(), OutOfMemory>
        ensures { OnOk result (self.new.bytes.items ≡ self.old.bytes.items ++ words_of_size size.now) }
    {
        self.put(size)?;
        if are_digits(size) {
            self.put(b" B")?;
        }
        Ok(())
    }

    /// Appends the buses behind a bridge.
    pub fn put_buses(&mut self, buses: Option<Buses>) -> Result<(), OutOfMemory>
        ensures { OnOk result (self.new.bytes.items ≡ self.old.bytes.items ++ words_of_buses buses) }
    {
        match buses {
            Some(buses) if buses.subordinate != 0 => {
                if buses.secondary == buses.subordinate {
                    self.put(b"bus ")?;
                    self.put_hex(u64::from(buses.secondary), 2)
                } else {
                    self.put(b"buses ")?;
                    self.put_hex(u64::from(buses.secondary), 2)?;
                    self.put(b"-")?;
                    self.put_hex(u64::from(buses.subordinate), 2)
                }
            }
            _ => self.put(b"no bus"),
        }
    }

    /// Appends the title of a function, else what its class is and its two identifiers.
    pub fn put_name(&mut self, function: &Function<'_>) -> Result<(), OutOfMemory>
        ensures { OnOk result (self.new.bytes.items ≡ self.old.bytes.items ++ name_of_function (listed_function function.now)) }
    {
        if !function.title.is_empty() {
            return self.put(function.title);
        }
        match class_name(function.class) {
            Some(name) => self.put(name.as_bytes())?,
            None => self.put_all(&[b"class ".as_slice(), function.class])?,
        }
        self.put_all(&[
            b" ".as_slice(),
            function.vendor,
            b":".as_slice(),
            function.device,
        ])
    }

    /// Appends slot, register and size of a region, as `00:1f.2 24, 2K`.
    pub fn put_region(&mut self, region: &Region<'_>) -> Result<(), OutOfMemory>
        ensures { OnOk result
            (self.new.bytes.items ≡ self.old.bytes.items ++ words_of_region (words_in_line region.now.line.now)) }
    {
        self.put_all(&[
            region.slot,
            b" ".as_slice(),
            region.register,
            b", ".as_slice(),
        ])?;
        self.put_size(region.size)
    }

    /// Cuts the words so that they fit in a width. Words that are cut end in two dots.
    #[tactic(auto, unfolding(crate::specs::Labels::cut_words))]
    pub fn cut(&mut self, width: u64) -> Result<(), OutOfMemory>
        ensures { OnOk result (self.new.bytes.items ≡ cut_words width self.old.bytes.items) }
    {
        let inside = width.saturating_sub(3);
        let room = (inside / 6).saturating_sub(inside / 1000);
        if (self.bytes.len() as u64) <= room {
            return Ok(());
        }
        if room <= 3 {
            self.bytes.clear();
            return Ok(());
        }
        self.bytes.truncate((room - 2) as usize);
        self.put(b"..")
    }
}

/// Whether a word has digits alone.
fn are_digits(word: &[u8]) -> bool
    ensures { result ≡ list_all is_decimal word.now }
{
    word.iter().all(|byte| byte.is_ascii_digit())
}

/// The name of a class, by its base class, or by its base class and subclass.
#[tactic(auto, unfolding(crate::specs::Named::name_of_class, crate::specs::Named::name_of_numbers))]
fn class_name(class: &[u8]) -> Option<&'static str>
    ensures { option_map (λ name. name.now) result ≡ name_of_class class.now }
{
    let base = hex_byte(class.get(..2)?)?;
    let below = hex_byte(class.get(2..4)?)?;
    match (base, below) {
        (0x00, _) => Some("old device"),
        (0x01, _) => Some(storage_name(below)),
        (0x02, 0x00) => Some("Ethernet controller"),
        (0x02, 0x07) => Some("InfiniBand controller"),
        (0x02, _) => Some("network"),
        (0x03, 0x00) => Some("VGA display"),
        (0x03, _) => Some("display"),
        (0x04, 0x03) => Some("audio device"),
        (0x04, _) => Some("multimedia"),
        (0x05, _) => Some("memory"),
        (0x06, _) => Some(bridge_name(below)),
        (0x07, 0x00) => Some("serial port"),
        (0x07, _) => Some("communication"),
        (0x08, _) => Some("system device"),
        (0x09, _) => Some("input"),
        (0x0b, 0x40) => Some("co-processor"),
        (0x0b, _) => Some("processor"),
        (0x0c, 0x03) => Some("USB controller"),
        (0x0c, 0x05) => Some("SMBus"),
        (0x0c, _) => Some("serial bus"),
        (0x10, _) => Some("encryption"),
        (0x11, _) => Some("signal processing"),
        (0x12, _) => Some("accelerator"),
        _ => None,
    }
}

/// The name of a subclass of mass storage.
#[tactic(auto, unfolding(crate::specs::Named::name_of_numbers))]
fn storage_name(below: u8) -> &'static str
    ensures { Some result.now ≡ name_of_numbers 1 below }
{
    match below {
        0x01 => "IDE controller",
        0x04 => "RAID controller",
        0x06 => "SATA controller",
        0x07 => "SAS controller",
        0x08 => "NVMe controller",
        _ => "storage",
    }
}

/// The name of a subclass of bridges.
#[tactic(auto, unfolding(crate::specs::Named::name_of_numbers))]
fn bridge_name(below: u8) -> &'static str
    ensures { Some result.now ≡ name_of_numbers 6 below }
{
    match below {
        0x00 => "host bridge",
        0x01 => "ISA bridge",
        _ => "bridge",
    }
}
