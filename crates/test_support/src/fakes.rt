//! Sources and writers over memory.
ghost use Rattle.std.specs.Prelude.{Some};

use pci_base::failures::Failures;
use pci_dump::streams::{Failed, Source};
use std::io;
use std::io::{ErrorKind, Write};

/// Gives at most `step` bytes at a time, and fails once, at read `fail_at` counted from 1.
#[derive(Drop)]
pub struct Pieces<'a> {
    rest: &'a [u8],
    step: usize,
    fail_at: u64,
    failed: Failures,
}

impl<'a> Pieces<'a> {
    pub fn new(rest: &'a [u8], step: usize, fail_at: u64) -> Pieces<'a> {
        Pieces {
            rest,
            step,
            fail_at,
            failed: Failures::new(),
        }
    }
}

impl<'a> Source for Pieces<'a> {
    ghost left = { λ s. Some s.rest.now };

    ghost failures = { λ s. s.failed.count };

    fn read(&mut self, buf: &mut [u8]) -> Result<usize, Failed> {
        if self.fail_at == 1 {
            self.fail_at = 0;
            self.failed = self.failed.and_one();
            return Err(Failed);
        }
        if 1 < self.fail_at {
            self.fail_at -= 1;
        }
        let count = self.rest.len().min(buf.len()).min(self.step.max(1));
        let (given, rest) = self.rest.split_at(count);
        buf[..count].copy_from_slice(given);
        self.rest = rest;
        Ok(count)
    }
}

/// Takes at most `step` bytes at a time while there is room for them, and then fails, or takes none.
#[derive(Drop)]
pub struct Narrow {
    pub taken: Vec<u8>,
    pub room: usize,
    pub step: usize,
    pub fails: bool,
}

impl Write for Narrow {
    fn write(&mut self, buf: &[u8]) -> io::Result<usize> {
        let count = buf.len().min(self.room).min(self.step);
        if count == 0 && self.fails && !buf.is_empty() {
            return Err(io::Error::from(ErrorKind::Other));
        }
        let (taken, _rest) = buf.split_at(count);
        self.taken.extend_from_slice(taken)?;
        self.room -= count;
        Ok(count)
    }

    fn flush(&mut self) -> io::Result<()> {
        Ok(())
    }
}
