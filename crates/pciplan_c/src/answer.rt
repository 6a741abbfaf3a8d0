//! What is answered to two texts and a list of root buses.
use crate::refusal::Refusal;
use pci_check::outcome::Outcome;

/// The message where the list of root buses is none.
pub const ROOT_MESSAGE: &str = "root";

/// The verdict on two texts, or why there is none.
#[derive(Clone, Copy, Debug, PartialEq, Eq)]
pub enum Answer {
    /// Both are texts, and this is their verdict.
    Verdict(Outcome),
    /// One of them is none, or the list of root buses is none.
    Refused(Refusal),
}
