//! The task that a command line asks for.
ghost use Rattle.std.specs.Prelude.{◌≡◌, true, MatchOption, MatchResult};
ghost use Rattle.pciplan_words.specs.declared.asked.Asked.{Asked};
ghost use Rattle.pciplan_cli.specs.Asked.{IsAskedRefused, IsAssumingOf, IsFormOf, IsFormRefused, IsRefusedWith, IsTaskOf, IsTaskWith};

use crate::faults_asked::faults_of;
use crate::map_asked::map_of;
use crate::option_words::{pool_of, roots_of};
use crate::settle_asked::settling_of;
use pci_machine::assuming::Assuming;
use pci_place::pools::Pools;
use pciplan_tasks::failure::{Failure, PoolOption};
use pciplan_tasks::task::Task;
use pciplan_words::asked::{Asked, PlanWords};
use pciplan_words::forms::Form;
use std::alloc::Global;

/// The planning that is asked for.
fn planning_of(words: &PlanWords<'_>) -> Result<Task, Failure>
    ensures { MatchResult result (IsTaskOf (Asked.Plan words.now))
        (IsAskedRefused (Asked.Plan words.now)) }
{
    let roots = roots_of(words.root).ok_or(Failure::Root)?;
    let io = pool_of(words.io, PoolOption::Io)?;
    let mem = pool_of(words.mem, PoolOption::Mem)?;
    let pref = pool_of(words.pref, PoolOption::Pref)?;
    Ok(Task::Plan {
        pools: Pools { io, mem, pref },
        writes: words.writes,
        why: words.why,
        roots,
    })
}

/// Of which registers a size may be assumed, by `--exact` and `--least`, of which one alone may be said.
fn assuming_of(exact: bool, least: bool) -> Option<Assuming>
    ensures { MatchOption result ((exact ≡ true) × (least ≡ true)) (IsAssumingOf exact least) }
{
    match (exact, least) {
        (true, true) => None,
        (true, false) => Some(Assuming::Nothing),
        (false, true) => Some(Assuming::Any),
        (false, false) => Some(Assuming::Disabled),
    }
}

/// The task that is asked for. The root list is read first, then the words of `--model`, and then what the host sends, of I/O
/// before memory, or the pools or lists, of I/O, memory and prefetchable memory, and the fixed slots: the first word that is
/// none is the fault.
fn task_of(alloc: Global, asked: &Asked<'_>) -> Result<Task, Failure>
    ensures { MatchResult result (IsTaskOf asked.now) (IsAskedRefused asked.now) }
{
    match asked {
        Asked::Show => Ok(Task::Show),
        Asked::Check { root } => Ok(Task::Check {
            roots: roots_of(*root).ok_or(Failure::Root)?,
        }),
        Asked::Faults(words) => faults_of(alloc, words),
        Asked::Map(words) => map_of(alloc, words),
        Asked::Size => Ok(Task::Size),
        Asked::Plan(words) => planning_of(words),
        Asked::Settle(words) => settling_of(alloc, words, None),
        Asked::Probe { exact, least } => Ok(Task::Probe {
            assuming: assuming_of(*exact, *least).ok_or(Failure::Usage)?,
        }),
    }
}

/// The task that is asked for with a form of the writes: `settle` alone has any.
fn task_of_form(alloc: Global, asked: &Asked<'_>, form: Form) -> Result<Task, Failure>
    ensures { MatchResult result (IsFormOf form asked.now) (IsFormRefused asked.now) }
{
    match asked {
        Asked::Settle(words) => settling_of(alloc, words, Some(form)),
        _ => Err(Failure::Usage),
    }
}

/// The task that is asked for, with the form of the writes where one is named.
pub fn task_with(alloc: Global, asked: &Asked<'_>, form: Option<Form>) -> Result<Task, Failure>
    ensures { MatchResult result (IsTaskWith form asked.now) (IsRefusedWith form asked.now) }
{
    match form {
        None => task_of(alloc, asked),
        Some(form) => task_of_form(alloc, asked, form),
    }
}
