//! A port to a board with one bridge, 00:01.0, with nothing behind it.
ghost use Rattle.std.specs.Prelude.{◌≡◌, ◌↔◌, IsTrue};

use pci_base::failures::Failures;
use pci_base::slot::Slot;
use pci_number::{AccessFailed, BoardPort, NotTaken};
use std::alloc::Global;

/// The board. A bridge that takes no number at `keeps` has what it has there.
#[derive(Drop)]
pub struct OneBridge {
    image: [u8; 256],
    keeps: u8,
    last: Option<NotTaken>,
    /// The bridge's image after each write so far.
    stood: Vec<[u8; 256]>,
    failed: Failures,
    /// How many accesses were made.
    accesses: Failures,
}

impl OneBridge {
    /// A board whose bridge has these numbers, and has what it has at an offset for good.
    pub fn new(alloc: Global, primary: u8, secondary: u8, subordinate: u8, keeps: u8) -> OneBridge {
        let mut image = [0; 256];
        image[0x00] = 0x34;
        image[0x01] = 0x12;
        image[0x0e] = 1;
        image[0x18] = primary;
        image[0x19] = secondary;
        image[0x1a] = subordinate;
        OneBridge {
            image,
            keeps,
            last: None,
            stood: Vec::new(alloc),
            failed: Failures::new(),
            accesses: Failures::new(),
        }
    }

    /// The bridge's three numbers.
    pub fn numbers(&self) -> [u8; 3] {
        [self.image[0x18], self.image[0x19], self.image[0x1a]]
    }

    /// How many writes were made.
    pub fn made(&self) -> usize {
        self.stood.len()
    }
}

/// Whether an access is answered by the bridge.
fn is_bridge(access: Slot) -> bool
    ensures { IsTrue result ↔ ((access.bus ≡ 0) × (access.device ≡ 1) × (access.function ≡ 0)) }
{
    access.bus() == 0 && access.dev() == 1 && access.fun() == 0
}

impl BoardPort for OneBridge {
    ghost use Rattle.std.specs.Prelude.{length};
    ghost use Rattle.test_numbering.specs.Fake.{board_of, boards_of, write_not_taken};

    ghost board = { λ s. board_of s.image };

    ghost history = { λ s. boards_of s.stood.items };

    ghost failures = { λ s. s.failed.count };

    ghost last_write = { λ s. write_not_taken s.last };

    ghost writes = { λ s. length s.stood.items };

    ghost accesses = { λ s. s.accesses.count };

    fn read(&mut self, access: Slot, offset: u8) -> Result<u8, AccessFailed> {
        self.accesses = self.accesses.and_one();
        if is_bridge(access) {
            Ok(self.image[usize::from(offset)])
        } else {
            Ok(0xff)
        }
    }

    fn write(&mut self, access: Slot, offset: u8, value: u8) -> Result<(), AccessFailed> {
        let mut image = self.image;
        if is_bridge(access) {
            let index = usize::from(offset);
            let byte = if offset == self.keeps {
                image[index]
            } else {
                value
            };
            image[index] = byte;
        }
        // what stood can't be kept without memory, so the write isn't made
        if self.stood.push(image).is_err() {
            self.failed = self.failed.and_one();
            return Err(AccessFailed);
        }
        self.accesses = self.accesses.and_one();
        self.image = image;
        self.last = Some(NotTaken {
            slot: access,
            offset,
            number: value,
        });
        Ok(())
    }
}
