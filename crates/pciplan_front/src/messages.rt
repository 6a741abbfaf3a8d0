//! Messages on standard error.

use pci_dump::streams::Sink;
use pci_dump::write::write_all;
use std::fmt;

/// A sink that text is written to.
#[derive(Drop)]
pub struct Messages<'a, K> {
    pub sink: &'a mut K,
}

impl<K: Sink> fmt::Write for Messages<'_, K> {
    fn write_str(&mut self, s: &str) -> fmt::Result {
        match write_all(self.sink, s.as_bytes()) {
            Ok(()) => Ok(()),
            Err(_) => Err(fmt::Error),
        }
    }
}
