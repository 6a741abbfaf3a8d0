//! The listing of faults that a command line asks for.
ghost use Rattle.std.specs.Prelude.{MatchResult};
ghost use Rattle.pciplan_words.specs.declared.asked.Asked.{Asked};
ghost use Rattle.pciplan_cli.specs.Asked.{IsTaskOf, IsAskedRefused};

use crate::beside::beside_of;
use pciplan_tasks::failure::Failure;
use pciplan_tasks::task::Task;
use pciplan_words::asked::FaultsWords;
use std::alloc::Global;

/// The listing of faults that is asked for.
pub fn faults_of(alloc: Global, asked: &FaultsWords<'_>) -> Result<Task, Failure>
    ensures { MatchResult result (IsTaskOf (Asked.Faults asked.now))
        (IsAskedRefused (Asked.Faults asked.now)) }
{
    let beside = beside_of(
        alloc,
        asked.root,
        asked.model,
        asked.host_io,
        asked.host_mem,
    )?;
    let why = asked.why;
    Ok(Task::Faults { beside, why })
}
