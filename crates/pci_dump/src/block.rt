//! One function of a dump: its slot, its title and its image.
ghost use Rattle.std.specs.Prelude.{◌≡◌, ◌<◌, ◌↔◌, replicate, ℕ, List, None, IsSome, IfSome, IsTrue};
ghost use Rattle.pci_spec.specs.Text.{Block as BlockValue, IsBlock, IsTitle, is_title_byte};
ghost use Rattle.pci_spec.specs.Stops.{IsAboveLast};
ghost use Rattle.pci_spec.specs.Number.{IsImage};

use arrayvec::ArrayVec;
use pci_base::image::{IMAGE_LEN, Image};
use pci_base::slot::Slot;
use std::marker::Model;

/// The most bytes of a title.
pub(crate) const TITLE_MAX: usize = 200;

/// A title of 1 to 200 bytes, each printable ASCII (20h to 7Eh) or above ASCII (80h to FFh).
#[derive(Debug, Drop, PartialEq, Eq)]
pub struct Title {
    bytes: ArrayVec<u8, TITLE_MAX>,
}

impl Model for Title {
    ghost use Rattle.std.specs.Prelude.{List, ℕ};
    ghost use Rattle.pci_spec.specs.Text.{IsTitle};

    ghost Value = { List ℕ };

    ghost view = { λ t. t.bytes.items };

    ghost invariant = { λ t. IsTitle t.bytes.items };

    ghost inverse = { λ bytes. record { bytes = record { items = bytes } } };
}

/// Whether a byte may stand in a title.
pub(crate) fn is_title(byte: u8) -> bool
    ensures { result ≡ is_title_byte byte }
{
    (0x20 <= byte && byte <= 0x7e) || 0x80 <= byte
}

impl Title {
    /// The title of these bytes, where they are one.
    pub fn of(bytes: &[u8]) -> Option<Title>
        ensures some { IsSome result ↔ IsTitle bytes.now }
        ensures value { IfSome result (λ title. title ≡ bytes.now) }
    {
        if bytes.is_empty() || !bytes.iter().all(|&byte| is_title(byte)) {
            return None;
        }
        match ArrayVec::try_from(bytes) {
            Ok(bytes) => Some(Title { bytes }),
            Err(_) => None,
        }
    }

    /// The title's bytes.
    pub fn bytes(&self) -> &[u8]
        ensures value { result.now ≡ self.now }
        // 200 bytes at most, for which the text of a block has room
        ensures title { IsTitle self.now }
    {
        self.bytes.as_slice()
    }

    /// The title of bytes that are one.
    pub(crate) fn of_title(bytes: &[u8]) -> Title
        requires { IsTitle bytes.now }
        ensures { result ≡ bytes.now }
    {
        let bytes = ArrayVec::try_from(bytes).unwrap();
        Title { bytes }
    }

    /// These bytes, which are a title, in the place of its own.
    pub(crate) fn set(&mut self, bytes: &[u8])
        requires { IsTitle bytes.now }
        ensures { self.new ≡ bytes.now }
    {
        self.bytes.clear();
        self.bytes.try_extend_from_slice(bytes).unwrap();
    }

    /// An equal title.
    fn copy(&self) -> Title
        ensures { result ≡ self.now }
    {
        Title::of_title(self.bytes())
    }
}

/// A function as a dump lists it: where it stands, its title where it has one, and the 256 bytes
/// of its configuration space.
#[derive(Debug, Drop, PartialEq, Eq)]
pub struct Block {
    pub slot: Slot,
    pub title: Option<Title>,
    pub image: Image,
}

impl Model for Block {
    ghost use Rattle.pci_spec.specs.Text.{Block as BlockValue};

    ghost Value = { BlockValue };

    ghost view = { λ b. record { slot = b.slot; title = b.title; image = b.image.0 } };

    ghost inverse = { λ v. record { slot = v.slot; title = v.title; image = record { 0 = v.image } } };
}

impl Block {
    /// A block at 00:00.0 that has no title and 256 zeros: a place to read blocks into.
    pub fn blank() -> Block
        ensures { result ≡ record {
          slot = record { bus = 0; device = 0; function = 0 };
          title = None;
          image = replicate 256 0;
        } }
    {
        Block {
            slot: Slot::default(),
            title: None,
            image: Image([0; IMAGE_LEN]),
        }
    }

    /// An equal block.
    pub fn copy(&self) -> Block
        ensures { result ≡ self.now }
    {
        let title = match &self.title {
            None => None,
            Some(title) => Some(title.copy()),
        };
        Block {
            slot: self.slot,
            title,
            image: self.image,
        }
    }

    /// Whether this block may stand after one at the slot `last`. Each block is one of a dump.
    pub(crate) fn may_follow(&self, last: Option<Slot>) -> bool
        ensures above { IsTrue result ↔ IsAboveLast last self.now.slot }
        ensures block { IsBlock self.now }
    {
        // All three are read for what their types say of them.
        let _title = self.title_bytes();
        let _image = image_bytes(&self.image.0);
        let _number = self.slot.number();
        self.slot.may_follow(last)
    }

    /// The title's bytes, none where there is no title.
    fn title_bytes(&self) -> &[u8]
        ensures { IfSome self.now.title IsTitle }
    {
        match &self.title {
            None => &[],
            Some(title) => title.bytes(),
        }
    }
}

/// The bytes of an image.
fn image_bytes(image: &[u8; IMAGE_LEN]) -> &[u8]
    ensures { IsImage image.entry.now }
{
    image.as_slice()
}
