//! What is said beside the two texts: the root buses, the words by which functions are taken, and what the host sends.
ghost use Rattle.std.specs.Prelude.{MatchResult};
ghost use Rattle.pciplan_cli.specs.BesideWords.{beside_words, IsSaidBeside, IsRefusedBeside};

use crate::option_words::{ranges_of, roots_of, words_of};
use pci_base::space::Space;
use pciplan_tasks::failure::Failure;
use pciplan_tasks::task::{Also, Beside, HostLists};
use std::alloc::Global;

/// What the words of `--root`, `--model`, `--host-io` and `--host-mem` say. What a third text tells isn't read yet.
pub fn beside_of(
    alloc: Global,
    root: Option<&str>,
    model: Option<&str>,
    host_io: Option<&str>,
    host_mem: Option<&str>,
) -> Result<Beside, Failure>
    ensures { MatchResult result
        (IsSaidBeside (beside_words root.entry model.entry host_io.entry host_mem.entry))
        (IsRefusedBeside (beside_words root.entry model.entry host_io.entry host_mem.entry)) }
{
    let roots = roots_of(root).ok_or(Failure::Root)?;
    let words = words_of(model)?;
    let host = HostLists {
        io: ranges_of(alloc, &roots, host_io, Space::Io)?,
        mem: ranges_of(alloc, &roots, host_mem, Space::Mem)?,
    };
    Ok(Beside {
        roots,
        words,
        host,
        also: Also::nothing(alloc),
    })
}
