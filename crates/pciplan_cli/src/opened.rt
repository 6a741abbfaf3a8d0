//! Texts that are opened by their paths.
ghost use Rattle.std.specs.Prelude.{◌≡◌, ◌+◌, ℕ, List, Option, None, OnOk, MatchResult};

use pci_base::failures::Failures;
use pci_dump::streams::{Failed, Source};
use std::fs;
use std::io::Read;
use std::rt::Files;

/// A text that is opened by its path.
pub trait Opening: Source {
    // Whether a text stands at a path.
    ghost stands: { Self → List ℕ → Type 0 };

    // Whether it is told that no text can be opened at a path.
    ghost lacks: { Self → List ℕ → Type 0 } = { λ _ _. ⊥ };

    // The bytes of the text at a path, where they are told.
    ghost bytes_at: { Self → List ℕ → Option (List ℕ) };

    /// Opens the text at a path. An `Err` raises the count of failures by one.
    fn open(&mut self, path: &str) -> Result<(), Failed>
        // an answer is one to two texts that were there
        ensures stands { OnOk result (stands self.old path.now) }
        ensures lacks { OnOk result (lacks self.old path.now → ⊥) }
        // from its first byte on: an answer speaks of the whole text
        ensures bytes { OnOk result (Self.left self.new ≡ bytes_at self.old path.now) }
        // not to be opened counts as not to be read, and both end with status 4
        ensures counted { MatchResult result (λ _. Self.failures self.new ≡ Self.failures self.old)
            (λ _. Self.failures self.new ≡ Self.failures self.old + 1) };
}

/// A file of the machine. Every read fails while it's closed, and so where it couldn't be opened.
#[derive(Drop)]
pub struct FileText<'a, R: Files> {
    rt: &'a R,
    file: Option<R::File>,
    failed: Failures,
}

impl<'a, R: Files> FileText<'a, R> {
    /// A file that is closed.
    pub fn closed(rt: &'a R) -> FileText<'a, R> {
        FileText {
            rt,
            file: None,
            failed: Failures::new(),
        }
    }
}

impl<R: Files> Source for FileText<'_, R> {
    ghost use Rattle.pciplan_cli.specs.Opened.{file_left};

    ghost left = { λ s. file_left s.file };

    ghost failures = { λ s. s.failed.count };

    fn read(&mut self, buf: &mut [u8]) -> Result<usize, Failed> {
        if let Some(file) = &mut self.file {
            if let Ok(count) = file.read(buf) {
                return Ok(count);
            }
        }
        self.failed = self.failed.and_one();
        Err(Failed)
    }
}

impl<R: Files> Opening for FileText<'_, R> {
    ghost stands = { λ _ _. Unit {0} };

    ghost bytes_at = { λ _ _. None };

    fn open(&mut self, path: &str) -> Result<(), Failed> {
        match fs::open(self.rt, path) {
            Ok(file) => {
                self.file = Some(file);
                Ok(())
            }
            Err(_) => {
                self.failed = self.failed.and_one();
                Err(Failed)
            }
        }
    }
}
