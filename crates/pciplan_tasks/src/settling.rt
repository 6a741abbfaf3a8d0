//! What `settle` answers of a dump and its probe.
ghost use Rattle.std.specs.Prelude.{◌≡◌, ◌++◌, map, IfOk, IsTrue, OnOk};
ghost use Rattle.std.specs.List.{All};
ghost use Rattle.std.specs.String.{string_bytes};
ghost use Rattle.pci_plan.specs.Writes.{is_two_or_four, write_value};
ghost use Rattle.pci_tree.specs.Admission.{IsAdmitted};
ghost use Rattle.pci_tree.specs.Roots.{buses_of};
ghost use Rattle.pci_first_fit.specs.Slots.{demand_value};
ghost use Rattle.pci_settle.specs.Denied.{denied_value};
ghost use Rattle.pci_settle.specs.Requests.{request};
ghost use Rattle.pciplan_tasks.specs.Answers.{answer_of, done_with, text_bytes};
ghost use Rattle.pciplan_tasks.specs.SettleAnswers.{IsSettlingOfPair, IsSettlingTold, demand_said, request_said, settled_text, spare_remark, spare_remarks};

use crate::mapping::first_line;
use crate::planning::lines_of;
use crate::reply::{Reply, Text, refused};
use crate::slots::{slots_for, slots_of};
use crate::task::{Printed, SettleRequest};
use pci_base::memory::{OutOfMemory, Refused};
use pci_base::slot::Slot;
use pci_claims::told::Told;
use pci_dump::block::Block;
use pci_dump::dump::Dump;
use pci_faults::every::{BeforeJudging, before_judging};
use pci_first_fit::list::Lists;
use pci_plan::write::Write as RegisterWrite;
use pci_script::script::script;
use pci_settle::settle::{Denied, settle};
use pci_tree::admit::admit_with;
use pci_tree::admitted::Admitted;
use std::alloc::{AllocError, Allocator};
use std::fmt::{self, Write};

/// A window whose spare has no room, as it is told.
#[derive(Clone, Copy)]
struct DeniedSpare {
    slot: Slot,
    register: u8,
}

impl fmt::Display for DeniedSpare {
    ghost use Rattle.std.specs.Prelude.{Some};
    ghost use Rattle.pciplan_tasks.specs.SettleAnswers.{spare_text};

    ghost output = { λ d. Some (spare_text d.slot d.register) };

    fn fmt<W: fmt::Write>(&self, f: &mut fmt::Formatter<W>) -> fmt::Result {
        let (slot, register) = (self.slot, self.register);
        write!(f, "spare {slot} {register:02x}")
    }
}

/// Appends the remark on a window whose spare has no room.
fn push_remark<A: Allocator>(text: &mut String<A>, denied: Denied) -> Result<(), AllocError>
    ensures { OnOk result (string_bytes text.new
        ≡ string_bytes text.old ++ spare_remark (denied_value denied)) }
{
    let spare = DeniedSpare {
        slot: denied.slot,
        register: denied.register,
    };
    writeln!(text, "pciplan: {spare}")
}

/// A remark on each window whose spare has no room.
fn spare_remarks<A: Allocator>(alloc: A, denied: &[Denied]) -> Result<String<A>, OutOfMemory>
    ensures { IfOk result
        (λ text. string_bytes text ≡ spare_remarks (map denied_value denied.now)) }
{
    let mut text = String::new(alloc);
    for one in denied {
        match push_remark(&mut text, *one) {
            Ok(()) => {}
            Err(_) => return Err(OutOfMemory),
        }
    }
    Ok(text)
}

/// What is printed of a settling: the settled dump, its writes, or the script of them.
fn settled_text<A: Allocator + Copy>(
    alloc: A,
    start: &[Block],
    writes: &[RegisterWrite],
    after: Dump<A>,
    printed: Printed,
) -> Result<Text<A>, OutOfMemory>
    requires { All (λ w. IsTrue (is_two_or_four w)) writes.now }
    ensures { IfOk result (λ text. text_bytes text ≡ settled_text printed start.now
        (map write_value writes.now) after) }
{
    match printed {
        Printed::Dump => Ok(Text::Dump(after)),
        Printed::Writes => {
            let lines = lines_of(alloc, writes)?;
            Ok(Text::Lines(lines))
        }
        Printed::Script(form) => {
            let lines = script(alloc, form, start, writes)?;
            Ok(Text::Lines(lines))
        }
    }
}

/// What settling a dump answers: what is printed of its writes and of the dump after them, and a remark on each window whose
/// spare has no room.
pub fn settled_reply<A: Allocator + Copy>(
    alloc: A,
    start: &[Block],
    writes: &[RegisterWrite],
    after: Dump<A>,
    denied: &[Denied],
    printed: Printed,
) -> Result<Reply<A>, OutOfMemory>
    requires { All (λ w. IsTrue (is_two_or_four w)) writes.now }
    ensures { IfOk result (λ reply. answer_of reply
        ≡ done_with (spare_remarks (map denied_value denied.now))
        (settled_text printed start.now (map write_value writes.now) after)) }
{
    let remarks = spare_remarks(alloc, denied)?;
    let text = settled_text(alloc, start, writes, after, printed)?;
    Ok(Reply {
        refused: false,
        text,
        remarks,
    })
}

/// Settles what was admitted.
fn settle_admitted<A: Allocator + Copy>(
    alloc: A,
    admitted: &Admitted<A>,
    lists: &Lists,
    fixed: &[Slot],
    anew: bool,
    printed: Printed,
) -> Result<Reply<A>, OutOfMemory>
    requires admitted { IsAdmitted admitted.now }
    ensures { IfOk result (λ reply. IsSettlingOfPair record {
      request = request admitted.now.roots (demand_value lists.now) fixed.now anew;
      printed = printed;
    } admitted.now.dump admitted.now.probe (answer_of reply)) }
{
    match settle(alloc, admitted, lists, fixed, anew) {
        Ok(settled) => {
            let after = settled.dump;
            let start = admitted.dump().blocks();
            let writes = settled.writes.all.as_slice();
            let denied = settled.denied.as_slice();
            settled_reply(alloc, start, writes, after, denied, printed)
        }
        Err(Refused::Fault(fault)) => refused(alloc, &fault),
        Err(Refused::Memory) => Err(OutOfMemory),
    }
}

/// Settles what was admitted as it is asked for, where these bridges have a hot-plug slot.
fn settle_behind<'a, A: Allocator + Copy>(
    alloc: A,
    admitted: &Admitted<A>,
    request: &'a SettleRequest,
    bridges: &'a [Slot],
    printed: Printed,
) -> Result<Reply<A>, OutOfMemory>
    requires admitted { IsAdmitted admitted.now }
    requires roots { admitted.now.roots ≡ buses_of request.now.roots }
    requires bridges { bridges.now ≡ (demand_said request.now admitted.now.dump).slots }
    ensures { IfOk result (λ reply. IsSettlingOfPair record {
      request = request_said request.now admitted.now.dump;
      printed = printed;
    } admitted.now.dump admitted.now.probe (answer_of reply)) }
{
    let io = request.lists.io.as_slice();
    let mem = request.lists.mem.as_slice();
    let pref = request.lists.pref.as_slice();
    let slots = slots_of(bridges, &request.spares);
    let lists = Lists {
        io,
        mem,
        pref,
        slots,
        told: request.also.told(),
    };
    let fixed = request.fixed.as_slice();
    settle_admitted(alloc, admitted, &lists, fixed, request.anew, printed)
}

/// Settles what was admitted as it is asked for.
fn settle_asked<A: Allocator + Copy>(
    alloc: A,
    admitted: &Admitted<A>,
    request: &SettleRequest,
    printed: Printed,
) -> Result<Reply<A>, OutOfMemory>
    requires admitted { IsAdmitted admitted.now }
    requires roots { admitted.now.roots ≡ buses_of request.now.roots }
    ensures { IfOk result (λ reply. IsSettlingOfPair record {
      request = request_said request.now admitted.now.dump;
      printed = printed;
    } admitted.now.dump admitted.now.probe (answer_of reply)) }
{
    let dump = admitted.dump().blocks();
    let bridges = slots_for(alloc, dump, &request.spares, &request.slots)?;
    settle_behind(alloc, admitted, request, bridges.as_slice(), printed)
}

/// Settles a dump and its probe as it is asked for.
fn settle_texts<A: Allocator + Copy>(
    alloc: A,
    dump: Dump<A>,
    probe: Dump<A>,
    request: &SettleRequest,
    printed: Printed,
) -> Result<Reply<A>, OutOfMemory>
    ensures { IfOk result (λ reply. IsSettlingOfPair record {
      request = request_said request.now dump;
      printed = printed;
    } dump probe (answer_of reply)) }
{
    match admit_with(alloc, dump, probe, request.roots) {
        Ok(admitted) => settle_asked(alloc, &admitted, request, printed),
        Err(Refused::Fault(fault)) => refused(alloc, &fault),
        Err(Refused::Memory) => Err(OutOfMemory),
    }
}

/// The same where ranges are told: the first fault that is there before judging with them is printed instead.
fn settle_told<A: Allocator + Copy>(
    alloc: A,
    dump: Dump<A>,
    probe: Dump<A>,
    request: &SettleRequest,
    printed: Printed,
) -> Result<Reply<A>, OutOfMemory>
    ensures { IfOk result (λ reply. IsSettlingTold record {
      request = request_said request.now dump;
      printed = printed;
    } dump probe (answer_of reply)) }
{
    let told = Told {
        ranges: request.also.ranges(),
        asleep: &[],
    };
    let found = before_judging(alloc, &dump, &probe, request.roots, &told)?;
    match found {
        BeforeJudging::Refused(faults) => first_line(alloc, faults.as_slice()),
        BeforeJudging::Admitted(_outline) => settle_texts(alloc, dump, probe, request, printed),
    }
}

/// Settles a dump and its probe as it is asked for, and answers what is to be printed of it. What is told is looked at before
/// anything is judged: 34 behind 30, and 58 of held ranges with 50, 57 and 58.
pub fn settle_pair<A: Allocator + Copy>(
    alloc: A,
    dump: Dump<A>,
    probe: Dump<A>,
    request: &SettleRequest,
    printed: Printed,
) -> Result<Reply<A>, OutOfMemory>
    ensures { IfOk result (λ reply. IsSettlingTold record {
      request = request_said request.now dump;
      printed = printed;
    } dump probe (answer_of reply)) }
{
    if request.also.ranges().is_empty() {
        settle_texts(alloc, dump, probe, request, printed)
    } else {
        settle_told(alloc, dump, probe, request, printed)
    }
}
