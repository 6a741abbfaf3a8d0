//! The third text of a command line, which tells of ranges that no BAR shows.
ghost use Rattle.std.specs.Prelude.{◌≡◌, ◌+◌, None, option_map};
ghost use Rattle.pci_dump.specs.declared.read_fault.ReadFault.{ReadFault};
ghost use Rattle.pciplan_tasks.specs.declared.task.Also.{Also};
ghost use Rattle.pciplan_cli.specs.AlsoTexts.{IsAlsoAt, also_path, with_also};
ghost use Rattle.pciplan_cli.specs.CarriedOut.{texts};

use crate::opened::Opening;
use pci_dump::read_fault::ReadFault;
use pci_dump::told_reader::read_told;
use pciplan_tasks::task::{Also, Beside, SettleRequest, Task};
use pciplan_words::asked::Asked;
use std::alloc::Global;

/// The path of the third text, where there is one.
fn also_path<'a>(asked: &Asked<'a>) -> Option<&'a str>
    ensures { option_map (λ path. path.now) result ≡ also_path asked.now }
{
    match asked {
        Asked::Faults(words) => words.also,
        Asked::Map(words) => words.also,
        Asked::Settle(words) => words.also,
        _ => None,
    }
}

/// What the text at a path tells, or why it isn't read; nothing where there is no path.
#[tactic(auto, using(crate::proofs::AlsoTexts::are_told, crate::proofs::AlsoTexts::fault_told))]
fn also_at<T: Opening>(alloc: Global, path: Option<&str>, text: &mut T) -> Also
    ensures said { IsAlsoAt (texts (T.stands text.old) (T.bytes_at text.old))
        (option_map (λ path. path.now) path.entry) result }
    // not to be opened counts as not to be read
    ensures failed { result ≡ Also.Refused ReadFault.Io
        → T.failures text.new ≡ T.failures text.old + 1 }
    ensures unopened { path.entry ≡ None → text.new ≡ text.old }
{
    let Some(path) = path else {
        return Also::nothing(alloc);
    };
    if text.open(path).is_err() {
        return Also::Refused(ReadFault::Io);
    }
    match read_told(alloc, text) {
        Ok(ranges) => Also::Told(ranges),
        Err(fault) => Also::Refused(fault),
    }
}

/// What the third text tells that is asked for. It isn't opened where none is.
pub fn also_told<T: Opening>(alloc: Global, asked: &Asked<'_>, text: &mut T) -> Also
    ensures said { IsAlsoAt (texts (T.stands text.old) (T.bytes_at text.old)) (also_path asked.now)
        result }
    ensures failed { result ≡ Also.Refused ReadFault.Io
        → T.failures text.new ≡ T.failures text.old + 1 }
    ensures unopened { also_path asked.now ≡ None → text.new ≡ text.old }
{
    also_at(alloc, also_path(asked), text)
}

/// The task with what is told.
#[tactic(auto, using(crate::proofs::AlsoTasks::others_told))]
pub fn with_also(task: Task, also: Also) -> Task
    ensures { result ≡ with_also task also }
{
    match task {
        Task::Faults { beside, why } => Task::Faults {
            beside: Beside { also, ..beside },
            why,
        },
        Task::Map { beside } => Task::Map {
            beside: Beside { also, ..beside },
        },
        Task::Settle { request, printed } => Task::Settle {
            request: SettleRequest { also, ..request },
            printed,
        },
        task => task,
    }
}
