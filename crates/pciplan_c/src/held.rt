//! Texts that lie in memory: one that is read, and one that grows.
ghost use Rattle.std.specs.Prelude.{◌≡◌, ◌<◌, [], Some};

use pci_base::failures::Failures;
use pci_dump::streams::{Failed, Sink, Source};
use std::alloc::Allocator;

/// What is left of some bytes. No read of it fails.
#[derive(Drop)]
pub struct Bytes<'a> {
    rest: &'a [u8],
}

impl<'a> Bytes<'a> {
    /// All of some bytes.
    pub fn of(rest: &'a [u8]) -> Bytes<'a>
        // all bytes are told, so what is said of told texts holds of this one
        ensures left { ⟦<Bytes<'a> as Source>⟧.left result ≡ Some rest.entry.now }
    {
        Bytes { rest }
    }
}

impl<'a> Source for Bytes<'a> {
    ghost left = { λ s. Some s.rest.now };

    ghost failures = { λ _. 0 };

    fn read(&mut self, buf: &mut [u8]) -> Result<usize, Failed> {
        let count = self.rest.len().min(buf.len());
        let (given, rest) = self.rest.split_at(count);
        buf[..count].copy_from_slice(given);
        self.rest = rest;
        Ok(count)
    }
}

/// Bytes that were written. A write fails where a growth is refused.
#[derive(Drop)]
pub struct Written<A: Allocator> {
    bytes: Vec<u8, A>,
    failed: Failures,
}

impl<A: Allocator> Written<A> {
    /// No bytes so far.
    pub fn none(alloc: A) -> Written<A>
        ensures taken { ⟦<Written<A> as Sink>⟧.taken result ≡ Some [] }
    {
        Written {
            bytes: Vec::new(alloc),
            failed: Failures::new(),
        }
    }

    /// The bytes that were written.
    pub fn into_bytes(self) -> Vec<u8, A>
        ensures { ⟦<Written<A> as Sink>⟧.taken self ≡ Some result.items }
    {
        let Written { bytes, failed: _ } = self;
        bytes
    }
}

impl<A: Allocator> Sink for Written<A> {
    ghost taken = { λ s. Some s.bytes.items };

    ghost failures = { λ s. s.failed.count };

    fn write(&mut self, bytes: &[u8]) -> Result<usize, Failed> {
        match self.bytes.extend_from_slice(bytes) {
            Ok(()) => Ok(bytes.len()),
            Err(_) => {
                self.failed = self.failed.and_one();
                Err(Failed)
            }
        }
    }
}
