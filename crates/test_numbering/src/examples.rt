//! Worked boards: what is answered, by how many writes, from which on each access is answered once
//! at most, and the numbers of each bridge in the order of the walk.
use crate::roots::Roots;
use crate::text::roots_of;
use crate::told::{answer_text, numbers_text};
use crate::tree::Tree;
use pci_base::slot::Slot;
use pci_number::number::number;
use std::alloc::{AllocError, Global};

/// A board, the calls by root, last bus and how many are kept free behind hot-plug slots, and what
/// comes of them.
struct Example {
    board: &'static str,
    calls: &'static [(u8, u8, u8)],
    answers: &'static str,
    writes: usize,
    /// After so many writes and from there on, at most one node answers each access.
    single_from: usize,
    numbers: &'static str,
}

static EXAMPLES: [Example; 8] = [
    Example {
        board: "@00 01.0 02.0",
        calls: &[(0x00, 0xff, 0)],
        answers: "numbered 00;",
        writes: 0,
        single_from: 0,
        numbers: "",
    },
    Example {
        board: "@00 01.0[ 00.0 ]",
        calls: &[(0x00, 0xff, 0)],
        answers: "numbered 01;",
        writes: 2,
        single_from: 0,
        numbers: "00:01.0 00 01 01;",
    },
    Example {
        board: "@00 01.0[ 00.0[ 00.0 ] 01.0[ 00.0 ] ] 02.0[ ]",
        calls: &[(0x00, 0xff, 0)],
        answers: "numbered 04;",
        writes: 12,
        single_from: 0,
        numbers: "00:01.0 00 01 03;01:00.0 01 02 02;01:01.0 01 03 03;00:02.0 00 04 04;",
    },
    Example {
        board: "@00 01.0[ 00.0[ 00.0 ] 01.0[ 00.0 ] ] 02.0[ ]",
        calls: &[(0x00, 0x03, 0)],
        answers: "no bus 00:02.0 03;",
        writes: 9,
        single_from: 0,
        numbers: "00:01.0 00 01 03;01:00.0 01 02 02;01:01.0 01 03 03;00:02.0 00 00 00;",
    },
    Example {
        board: "@00 01.0(000509)[ 00.0 ] 02.0(000505)[ 00.0 ]",
        calls: &[(0x00, 0xff, 0)],
        answers: "numbered 02;",
        writes: 8,
        single_from: 4,
        numbers: "00:01.0 00 01 01;00:02.0 00 02 02;",
    },
    Example {
        board: "@00 01.0[ 00.0(010707)[ 00.0 ] 01.0(010707)[ 00.0 ] ]",
        calls: &[(0x00, 0xff, 0)],
        answers: "numbered 03;",
        writes: 16,
        single_from: 0,
        numbers: "00:01.0 00 01 03;01:00.0 01 02 02;01:01.0 01 03 03;",
    },
    Example {
        board: "@00 1c.0+[ 00.0 ] 1c.4[ ]",
        calls: &[(0x00, 0xff, 2)],
        answers: "numbered 04;",
        writes: 5,
        single_from: 0,
        numbers: "00:1c.0 00 01 03;00:1c.4 00 04 04;",
    },
    Example {
        board: "@00 01.0[ 00.0 ] @40 00.0(004141)[ 00.0 ]",
        calls: &[(0x00, 0x3f, 0), (0x40, 0xff, 0)],
        answers: "numbered 01;numbered 41;",
        writes: 7,
        single_from: 0,
        numbers: "00:01.0 00 01 01;40:00.0 40 41 41;",
    },
];

/// Whether at most one node answers each access.
fn is_single(roots: &Roots) -> bool {
    for bus in 0..=255u8 {
        for place in 0..=255u8 {
            let slot = Slot::new(bus, place / 8, place % 8).unwrap_or_default();
            if 1 < roots.answers(slot) {
                return false;
            }
        }
    }
    true
}

/// Whether a board is single after so many writes, and from there on.
fn is_single_from(start: &Roots, tree: &Tree, from: usize) -> bool {
    if from == 0 && !is_single(start) {
        return false;
    }
    for i in 0..tree.stood.len() {
        if from <= i + 1 && !is_single(&tree.stood[i].roots) {
            return false;
        }
    }
    true
}

/// Numbers the board behind one root, and appends the answer.
fn push_answer(
    alloc: Global,
    tree: &mut Tree,
    call: &(u8, u8, u8),
    answers: &mut String,
) -> Result<(), AllocError> {
    let (root, last, spare) = *call;
    let answer = answer_text(alloc, number(tree, root, last, spare))?;
    answers.push_str(&answer)?;
    answers.push(';')
}

/// Numbers the board behind each root in turn. The answers.
fn answers_of(
    alloc: Global,
    calls: &[(u8, u8, u8)],
    tree: &mut Tree,
) -> Result<String, AllocError> {
    let mut answers = String::new(alloc);
    for call in calls {
        push_answer(alloc, tree, call, &mut answers)?;
    }
    Ok(answers)
}

/// Whether numbering a board answers so.
fn has_answers(alloc: Global, calls: &[(u8, u8, u8)], tree: &mut Tree, wanted: &str) -> bool {
    match answers_of(alloc, calls, tree) {
        Ok(answers) => answers.as_str() == wanted,
        Err(_) => false,
    }
}

/// Whether the bridges of a board have these numbers.
fn has_numbers(alloc: Global, roots: &Roots, wanted: &str) -> bool {
    match numbers_text(alloc, roots) {
        Ok(numbers) => numbers.as_str() == wanted,
        Err(_) => false,
    }
}

/// Whether numbering a board does what its example says.
fn is_numbered_so(alloc: Global, example: &Example, start: &Roots, tree: &mut Tree) -> bool {
    has_answers(alloc, example.calls, tree, example.answers)
        && tree.stood.len() == example.writes
        && is_single_from(start, tree, example.single_from)
        && has_numbers(alloc, &tree.roots, example.numbers)
}

/// The roots of an example's board.
fn start_of(alloc: Global, board: &str) -> Option<Roots> {
    match roots_of(alloc, board) {
        Ok(roots) => roots,
        Err(_) => None,
    }
}

/// The same board as a port.
fn tree_of(alloc: Global, start: &Roots) -> Option<Tree> {
    match start.copy(alloc) {
        Ok(roots) => Tree::new(alloc, roots),
        Err(_) => None,
    }
}

/// Whether an example's board is there, its roots rise, and it is numbered as the example says.
fn is_as_it_says(alloc: Global, example: &Example) -> bool {
    let Some(start) = start_of(alloc, example.board) else {
        return false;
    };
    match tree_of(alloc, &start) {
        Some(mut tree) => is_numbered_so(alloc, example, &start, &mut tree),
        None => false,
    }
}

#[test]
fn worked_boards_are_answered_so(rt: HostRuntime) {
    for example in &EXAMPLES {
        assert!(rt; is_as_it_says(rt.alloc(), example), "{}", example.board);
    }
}
