//! All that the program reads, and all that it writes to.

/// The three texts, which are opened by their paths; the machine that commands without texts read; standard output and
/// standard error.
#[derive(Drop)]
pub struct Outside<D, P, M, O, E> {
    pub dump: D,
    pub second: P,
    /// What tells of ranges, where a command line names it.
    pub third: P,
    pub machine: M,
    pub out: O,
    pub err: E,
}
