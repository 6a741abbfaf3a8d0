//! A count that only contracts see. It takes no memory, and its functions do nothing at run time.
ghost use Rattle.std.specs.Prelude.{◌≡◌, ◌+◌, ℕ};
ghost use Rattle.std.specs.Borrow.{ftrue};

use std::marker::Model;

/// How many calls have failed: a whole number without a last value.
#[derive(Drop)]
pub struct Failures {
    pub ghost count: { ℕ },
}

impl Model for Failures {
    ghost also_owns = { λ _. ftrue };
}

impl Failures {
    /// No call has failed.
    pub fn new() -> Failures
        ensures { result.count ≡ 0 }
    {
        Failures {}
    }

    /// One call more has failed.
    pub fn and_one(&self) -> Failures
        ensures { result.count ≡ self.now.count + 1 }
    {
        Failures {}
    }
}
