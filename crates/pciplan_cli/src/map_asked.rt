//! The map that a command line asks for.
ghost use Rattle.std.specs.Prelude.{MatchResult};
ghost use Rattle.pciplan_words.specs.declared.asked.Asked.{Asked};
ghost use Rattle.pciplan_cli.specs.Asked.{IsTaskOf, IsAskedRefused};

use crate::beside::beside_of;
use pciplan_tasks::failure::Failure;
use pciplan_tasks::task::Task;
use pciplan_words::asked::MapWords;
use std::alloc::Global;

/// The map that is asked for.
pub fn map_of(alloc: Global, asked: &MapWords<'_>) -> Result<Task, Failure>
    ensures { MatchResult result (IsTaskOf (Asked.Map asked.now))
        (IsAskedRefused (Asked.Map asked.now)) }
{
    let beside = beside_of(
        alloc,
        asked.root,
        asked.model,
        asked.host_io,
        asked.host_mem,
    )?;
    Ok(Task::Map { beside })
}
