//! What texts are read from and written to.
ghost use Rattle.std.specs.Prelude.{◌≡◌, ◌≤◌, ◌<◌, ◌+◌, ℕ, List, length, Option, IfOk, MatchResult};
ghost use Rattle.std.specs.Io.KnownBytes.{ReadConsumes, WriteAppends};

/// A read or a write failed.
#[derive(Clone, Copy, Debug, PartialEq, Eq)]
pub struct Failed;

/// What bytes are read from. Its meaning is the bytes that are left, where they are told, and a
/// count of its failed reads.
pub trait Source {
    // The bytes left, where they are told.
    ghost left: { Self → Option (List ℕ) };

    // How many reads have failed.
    ghost failures: { Self → ℕ };

    /// Puts the next bytes at the front of `buf` and answers how many. For a `buf` that isn't empty
    /// `Ok(0)` is the end. An `Err` took no byte and raises the count of failures by one.
    fn read(&mut self, buf: &mut [u8]) -> Result<usize, Failed>
        // a caller cuts its buffer at this number
        ensures bound { IfOk result (λ n. n ≤ length buf.new) }
        // so that a text may come in parts of any length, and no byte is lost between them
        ensures bytes { ReadConsumes (left self.old) (left self.new) result buf.new }
        // bytes don't show a failure, so it is counted: fault 1 needs one more
        ensures counted { MatchResult result (λ _. failures self.new ≡ failures self.old)
            (λ _. failures self.new ≡ failures self.old + 1) };
}

/// What bytes are written to. Its meaning is the bytes that it has taken, where they are told, and
/// a count of its failed writes.
pub trait Sink {
    // The bytes taken, where they are told.
    ghost taken: { Self → Option (List ℕ) };

    // How many writes have failed.
    ghost failures: { Self → ℕ };

    /// Takes some bytes from the front of `bytes` and answers how many, at least one where there is
    /// any. An `Err` took no byte and raises the count of failures by one.
    fn write(&mut self, bytes: &[u8]) -> Result<usize, Failed>
        ensures bound { IfOk result (λ n. n ≤ length bytes.now) }
        // a caller writes the rest until there is none, which has to end
        ensures some { IfOk result (λ n. 0 < length bytes.now → 0 < n) }
        ensures bytes { WriteAppends (taken self.old) (taken self.new) result bytes.now }
        // so that whoever answers fault 10 can show the write that failed
        ensures counted { MatchResult result (λ _. failures self.new ≡ failures self.old)
            (λ _. failures self.new ≡ failures self.old + 1) };
}
