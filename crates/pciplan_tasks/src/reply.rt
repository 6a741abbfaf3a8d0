//! What a task answers, and how it is written.
ghost use Rattle.std.specs.Prelude.{◌≡◌, ◌<◌, ◌+◌, [], IfOk, IfSome, OnOk, OnErr};
ghost use Rattle.std.specs.Io.KnownBytes.{Appends};
ghost use Rattle.pci_dump.specs.Begun.{AppendsBeginning};
ghost use Rattle.pciplan_tasks.specs.Answers.{IsTextOut, answer_of, done, fault_answer_line, refused, text_bytes};

use pci_base::memory::OutOfMemory;
use pci_check::line::no_line;
use pci_dump::dump::Dump;
use pci_dump::streams::{Failed, Sink};
use pci_dump::write::{write_all, write_dump};
use std::alloc::Allocator;
use std::fmt::Display;

/// The status of a task that was done, and of one that a fault refuses.
const DONE: u8 = 0;

const REFUSED: u8 = 1;

/// What goes to standard output.
#[derive(Drop)]
pub enum Text<A: Allocator> {
    /// The text of a dump.
    Dump(Dump<A>),
    Lines(String<A>),
}

/// What a task answers.
#[derive(Drop)]
pub struct Reply<A: Allocator> {
    /// Whether a fault refuses the task.
    pub refused: bool,
    pub text: Text<A>,
    /// What goes to standard error.
    pub remarks: String<A>,
}

impl<A: Allocator> Reply<A> {
    /// The status that the program ends with.
    pub fn status(&self) -> u8
        ensures named { result ≡ (answer_of self.now).status }
        // 2 to 4 say that there is no answer
        ensures small { result < 2 }
    {
        if self.refused { REFUSED } else { DONE }
    }
}

/// What a task that was done answers where there are no remarks.
pub fn done<A: Allocator>(alloc: A, text: Text<A>) -> Reply<A>
    ensures { answer_of result ≡ done (text_bytes text) }
{
    Reply {
        refused: false,
        text,
        remarks: String::new(alloc),
    }
}

/// What a task that a fault refuses answers: `no`, and the fault's text.
pub fn refused<A: Allocator + Copy, F: Display>(
    alloc: A,
    fault: &F,
) -> Result<Reply<A>, OutOfMemory>
    ensures { IfOk result
        (λ reply. IfSome (F.output fault.now) (λ text. answer_of reply ≡ refused (fault_answer_line text))) }
{
    let line = no_line(alloc, fault)?;
    Ok(Reply {
        refused: true,
        text: Text::Lines(line),
        remarks: String::new(alloc),
    })
}

/// Writes a text to standard output.
fn write_text<A: Allocator, O: Sink>(out: &mut O, text: &Text<A>) -> Result<(), Failed>
    ensures written { OnOk result
        (Appends (O.taken out.old) (O.taken out.new) (text_bytes text.now)) }
    ensures begun { OnErr result
        (AppendsBeginning (O.taken out.old) (O.taken out.new) (text_bytes text.now)) }
    ensures failed { OnErr result (O.failures out.new ≡ O.failures out.old + 1) }
{
    match text {
        Text::Dump(dump) => match write_dump(out, dump) {
            Ok(()) => Ok(()),
            Err(_) => Err(Failed),
        },
        Text::Lines(lines) => write_all(out, lines.as_bytes()),
    }
}

/// Writes an answer, and then the remarks. A remark that can't be written changes no status.
pub fn send<A: Allocator, O: Sink, E: Sink>(
    out: &mut O,
    err: &mut E,
    reply: &Reply<A>,
) -> Result<(), Failed>
    ensures written { OnOk result
        (Appends (O.taken out.old) (O.taken out.new) (answer_of reply.now).text) }
    ensures remarked { OnOk result (IsTextOut (E.taken err.old) (E.taken err.new)
        (E.failures err.new ≡ E.failures err.old + 1) (answer_of reply.now).remarks) }
    ensures silent { OnOk result ((answer_of reply.now).remarks ≡ [] → err.new ≡ err.old) }
    // what went out can't be taken back, so all that is promised is that it is a beginning
    ensures begun { OnErr result
        (AppendsBeginning (O.taken out.old) (O.taken out.new) (answer_of reply.now).text) }
    ensures failed { OnErr result (O.failures out.new ≡ O.failures out.old + 1) }
{
    write_text(out, &reply.text)?;
    if !reply.remarks.is_empty() {
        let _ = write_all(err, reply.remarks.as_bytes());
    }
    Ok(())
}
