//! Sources and sinks of std's readers and writers.
ghost use Rattle.std.specs.Prelude.{◌≡◌, ◌<◌};

use super::streams::{Failed, Sink, Source};
use pci_base::failures::Failures;
use std::io::{Read, Write};

/// A `Source` of std's `Read`. Each `Err` of the reader, `Interrupted` too, is a failure.
#[derive(Drop)]
pub struct Incoming<R> {
    inner: R,
    failed: Failures,
}

impl<R: Read> Incoming<R> {
    /// The reader's bytes, and no failure so far.
    pub fn new(inner: R) -> Incoming<R>
        ensures left { ⟦<Incoming<R> as Source>⟧.left result ≡ R.remaining inner }
        ensures failures { ⟦<Incoming<R> as Source>⟧.failures result ≡ 0 }
    {
        Incoming {
            inner,
            failed: Failures::new(),
        }
    }
}

impl<R: Read> Source for Incoming<R> {
    ghost left = { λ s. R.remaining s.inner };

    ghost failures = { λ s. s.failed.count };

    fn read(&mut self, buf: &mut [u8]) -> Result<usize, Failed> {
        match self.inner.read(buf) {
            Ok(n) => Ok(n),
            Err(_) => {
                self.failed = self.failed.and_one();
                Err(Failed)
            }
        }
    }
}

/// A `Sink` of std's `Write`. Each `Err` of the writer is a failure, and so is a write that takes
/// none of some bytes.
#[derive(Drop)]
pub struct Outgoing<W> {
    inner: W,
    failed: Failures,
}

impl<W: Write> Outgoing<W> {
    /// The writer with the bytes that it has taken, and no failure so far.
    pub fn new(inner: W) -> Outgoing<W>
        ensures taken { ⟦<Outgoing<W> as Sink>⟧.taken result ≡ W.contents inner }
        ensures failures { ⟦<Outgoing<W> as Sink>⟧.failures result ≡ 0 }
    {
        Outgoing {
            inner,
            failed: Failures::new(),
        }
    }
}

impl<W: Write> Sink for Outgoing<W> {
    ghost taken = { λ s. W.contents s.inner };

    ghost failures = { λ s. s.failed.count };

    fn write(&mut self, bytes: &[u8]) -> Result<usize, Failed> {
        match self.inner.write(bytes) {
            Ok(n) if 0 < n || bytes.is_empty() => Ok(n),
            _ => {
                self.failed = self.failed.and_one();
                Err(Failed)
            }
        }
    }
}
