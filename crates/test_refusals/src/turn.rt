//! Calls of which one growth is refused, first the first, then the second, and so on until no refusal is met.
use test_support::refusing::MANY;

/// What came of a call of which one growth was to be refused.
#[derive(Clone, Copy)]
pub enum Turn {
    /// It asked for fewer growths, and answered as it does with all the memory that it asks for.
    Whole,
    /// It was refused that growth, and said just that.
    Refused,
    /// It answered something else.
    Wrong,
}

impl Turn {
    /// The turn of two calls that are to be alike.
    pub fn and(self, other: Turn) -> Turn {
        match (self, other) {
            (Turn::Whole, Turn::Whole) => Turn::Whole,
            (Turn::Refused, Turn::Refused) => Turn::Refused,
            _ => Turn::Wrong,
        }
    }

    /// How many growths were refused, if the turn of the n-th is the last; `MANY` where it is wrong.
    pub fn end(self, n: u64) -> Option<u64> {
        match self {
            Turn::Whole => Some(n.saturating_sub(1)),
            Turn::Refused => None,
            Turn::Wrong => Some(MANY),
        }
    }
}

/// The turn of a call that was not refused, or was, and that answered what is wanted then, or didn't.
pub fn turn_of(is_whole: bool, is_right: bool) -> Turn {
    if !is_right {
        Turn::Wrong
    } else if is_whole {
        Turn::Whole
    } else {
        Turn::Refused
    }
}

/// The turn of a call by the number of the fault that it ended with.
pub fn turn_by_fault(is_whole: bool, fault: Option<u8>) -> Turn {
    turn_of(is_whole, fault == if is_whole { None } else { Some(2) })
}
