//! What stays where it is, while all else is placed.
use crate::stretch::Stretch;
use pci_first_fit::lines::Line;
use pci_first_fit::over::Left;
use pci_kept::held::Held;

/// What stays where it is.
#[derive(Clone, Copy, Debug)]
pub struct Staying<'a> {
    pub left: Left<'a>,
    /// The addresses of all parts that stay, by rising levels.
    pub held: &'a [Held],
    /// What lines hold, by rising levels.
    pub lines: &'a [Line],
    /// The same lines, many at a time.
    pub stretches: &'a [Stretch<'a>],
}
