//! A command line that has been read.
ghost use Rattle.std.specs.Prelude.{◌≡◌, ◌⊎◌, ◌+◌, IfErr, IfOk, MatchResult, map};
ghost use Rattle.pciplan_cli.specs.CarriedOut.{texts};
ghost use Rattle.pciplan_cli.specs.Invocations.{IsInvocationOf, AreWordsRefused};
ghost use Rattle.pciplan_words.specs.CommandWords.{IsGiven, HasNoLine};
ghost use Rattle.pciplan_tasks.specs.Also.{IsAlsoUnread};
ghost use Rattle.pciplan_tasks.specs.Statuses.{status_of};
ghost use Rattle.pciplan_tasks.specs.declared.failure.Failure.{Failure};

use crate::also::{also_told, with_also};
use crate::asked::task_with;
use crate::opened::Opening;
use pci_dump::streams::Sink;
use pciplan_tasks::failure::{Failure, report};
use pciplan_tasks::task::Task;
use pciplan_words::asked::{Given, WordsFault, words_given};
use pciplan_words::forms::{form_in, plain_words};
use std::alloc::Global;

/// A task with what its third text tells, and the paths of the other two: the dump, and the probe or the sizes.
#[derive(Drop)]
pub struct Invocation {
    pub task: Task,
    pub dump: String,
    pub probe: String,
}

/// What the words say.
fn given_by<'a>(alloc: Global, words: &'a [&'a str]) -> Result<Given<'a>, Failure>
    ensures { MatchResult result
        (λ given. IsGiven (map (λ w. w.now) words.now) given.asked given.dump.now given.second.now)
        (λ failure. (failure ≡ Failure.Memory)
        ⊎ ((failure ≡ Failure.Usage) × HasNoLine (map (λ w. w.now) words.now))) }
{
    match words_given(alloc, words) {
        Ok(given) => Ok(given),
        Err(WordsFault::Usage) => Err(Failure::Usage),
        Err(WordsFault::Memory) => Err(Failure::Memory),
    }
}

/// The invocation that the words make. The third text is read where they ask for a task.
fn invocation_of<T: Opening>(
    alloc: Global,
    words: &[&str],
    third: &mut T,
) -> Result<Invocation, Failure>
    ensures line { MatchResult result
        (IsInvocationOf (map (λ w. w.now) words.now) (texts (T.stands third.old) (T.bytes_at third.old)))
        (AreWordsRefused (map (λ w. w.now) words.now)) }
    ensures failed { IfOk result
        (λ line. IsAlsoUnread line.task → T.failures third.new ≡ T.failures third.old + 1) }
{
    let plain = plain_words(alloc, words)?;
    let given = given_by(alloc, plain.as_slice())?;
    let task = task_with(alloc, &given.asked, form_in(words))?;
    let also = also_told(alloc, &given.asked, third);
    Ok(Invocation {
        task: with_also(task, also),
        dump: String::from_str(alloc, given.dump)?,
        probe: String::from_str(alloc, given.second)?,
    })
}

/// Reads the words after the program's name. Where they make no command line it writes the message to `err`
/// and answers the status: 2 for a fault of usage, then of the root list, then of the words of `--model`, of what the host
/// sends, of a pool, of a list or of the fixed slots; 3 at want of memory. Where they make one it reads the third text, and
/// keeps the text's fault in the task: those of the other two go before it.
pub fn start<T: Opening, E: Sink>(
    alloc: Global,
    words: &[&str],
    third: &mut T,
    err: &mut E,
) -> Result<Invocation, u8>
    ensures line { IfOk result (IsInvocationOf (map (λ w. w.now) words.now)
        (texts (T.stands third.old) (T.bytes_at third.old))) }
    ensures refused { IfErr result (λ status. (failure : Failure)
        × AreWordsRefused (map (λ w. w.now) words.now) failure × (status ≡ status_of failure)) }
    // 0 and 1 are answers, and 4 is of texts, of which none refuses words
    ensures status { IfErr result (λ status. (status ≡ 2) ⊎ (status ≡ 3)) }
    ensures silent { IfOk result (λ _. err.new ≡ err.old) }
    // the failure is told by whoever carries the line out
    ensures failed { IfOk result
        (λ line. IsAlsoUnread line.task → T.failures third.new ≡ T.failures third.old + 1) }
{
    match invocation_of(alloc, words, third) {
        Ok(invocation) => Ok(invocation),
        Err(failure) => Err(report(err, failure)),
    }
}
