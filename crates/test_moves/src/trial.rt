//! Trials of plans: a board is planned for, and one thing is tried on the plan.
use crate::changes::{
    command_is_compared, each_change_is_named, gone_function_is_a_failed_access,
    other_bytes_may_change,
};
use crate::firmware::{firmware_knows_what_next, firmware_learns_what_stuck};
use crate::setting::{admitted, planned};
use crate::stops::stops_anywhere;
use crate::worked::{
    each_pinned_closing_stops, each_pinned_register_stops, pinned_command_stops, takes,
    third_write_fails,
};
use pci_place::pools::Pools;
use pci_plan::plan::Plan;
use pci_plan::planning::plan;
use pci_tree::admitted::Admitted;
use std::alloc::Global;
use test_support::board::Function;

/// What is tried on a plan.
#[derive(Clone, Copy)]
pub enum Trial {
    /// So many registers are compared, so many writes are made, and each access fails once.
    Takes { compared: u64, writes: u64 },
    StopsAnywhere,
    ThirdWriteFails,
    PinnedCommand,
    EachPinnedRegister,
    /// The Command of each function that is closed can't be cleared, for so many of them.
    EachPinnedClosing(usize),
    EachChange,
    CommandChanges,
    OtherBytesChange,
    GoneFunction,
    FirmwareGoesOn,
    FirmwareIsStuck,
}

/// Whether it goes as it should on a plan.
fn try_on(alloc: Global, plan: &Plan<'_>, trial: Trial) -> bool {
    match trial {
        Trial::Takes { compared, writes } => takes(alloc, plan, compared, writes),
        Trial::StopsAnywhere => stops_anywhere(alloc, plan),
        Trial::ThirdWriteFails => third_write_fails(alloc, plan),
        Trial::PinnedCommand => pinned_command_stops(alloc, plan),
        Trial::EachPinnedRegister => each_pinned_register_stops(alloc, plan),
        Trial::EachPinnedClosing(closing) => each_pinned_closing_stops(alloc, plan, closing),
        Trial::EachChange => each_change_is_named(alloc, plan),
        Trial::CommandChanges => command_is_compared(alloc, plan),
        Trial::OtherBytesChange => other_bytes_may_change(alloc, plan),
        Trial::GoneFunction => gone_function_is_a_failed_access(alloc, plan),
        Trial::FirmwareGoesOn => firmware_knows_what_next(alloc, plan),
        Trial::FirmwareIsStuck => firmware_learns_what_stuck(alloc, plan),
    }
}

/// Plans from a start, and tries it on the plan.
fn tried_from(alloc: Global, start: &Admitted, pools: &Pools, trial: Trial) -> bool {
    match plan(alloc, start, pools) {
        Ok(plan) => try_on(alloc, &plan, trial),
        Err(_) => false,
    }
}

/// Plans for a board, and tries it on the plan.
pub fn tried(alloc: Global, board: &[Function], pools: &Pools, trial: Trial) -> bool {
    match admitted(alloc, board) {
        Some(start) => tried_from(alloc, &start, pools, trial),
        None => false,
    }
}

/// The board that planning from a start leads to.
fn next_start(alloc: Global, start: &Admitted, pools: &Pools) -> Option<Admitted> {
    match plan(alloc, start, pools) {
        Ok(plan) => planned(alloc, &plan),
        Err(_) => None,
    }
}

/// The board that planning for a board leads to.
fn planned_from(alloc: Global, board: &[Function], pools: &Pools) -> Option<Admitted> {
    let start = admitted(alloc, board)?;
    next_start(alloc, &start, pools)
}

/// Plans for a board, then for what was planned, over other pools, and tries it on the second plan.
pub fn tried_again(
    alloc: Global,
    board: &[Function],
    pools: &Pools,
    others: &Pools,
    trial: Trial,
) -> bool {
    match planned_from(alloc, board, pools) {
        Some(there) => tried_from(alloc, &there, others, trial),
        None => false,
    }
}
