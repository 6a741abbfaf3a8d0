//! What `plan` answers of a dump and its probe.
ghost use Rattle.std.specs.Prelude.{◌≡◌, ◌++◌, map, IsFalse, IsTrue, IfOk, OnOk};
ghost use Rattle.std.specs.List.{All, flat_map};
ghost use Rattle.std.specs.String.{string_bytes};
ghost use Rattle.pci_spec.specs.Line.{write_line};
ghost use Rattle.plan_spec.specs.Plan.{NoRoom, fits, shortage};
ghost use Rattle.plan_spec.specs.PlanLine.{plan_fault_text, shortage_line};
ghost use Rattle.pci_base.specs.WindowKinds.{kind_value};
ghost use Rattle.pci_place.specs.Above.{system_in};
ghost use Rattle.pci_tree.specs.Admission.{IsAdmitted};
ghost use Rattle.pci_tree.specs.Roots.{buses_of};
ghost use Rattle.pci_place.specs.Pools.{pools_value};
ghost use Rattle.pci_plan.specs.Writes.{is_two_or_four, write_value};
ghost use Rattle.pciplan_tasks.specs.Answers.{answer_of, done_with, fault_answer_line, refused, text_bytes};
ghost use Rattle.pci_plan.specs.Plans.{IsFaultOfPlan, plan_fault_of};
ghost use Rattle.pciplan_tasks.specs.PlanAnswers.{IsPlanAnswer, no_plan_text, plan_text};
ghost use Rattle.pciplan_tasks.specs.ProbeAnswers.{remarks_named};

use crate::probing::remarks_named;
use crate::reply::{Reply, Text, refused};
use crate::shortage_line::push_shortage;
use pci_base::memory::{OutOfMemory, Refused};
use pci_base::window_kind::WindowKind;
use pci_check::line::no_line;
use pci_dump::block::Block;
use pci_dump::dump::Dump;
use pci_listing::hex_text::{push_byte, push_hex, push_slot};
use pci_place::pools::Pools;
use pci_place::room::shortage_of;
use pci_plan::plan::Plan;
use pci_plan::plan_fault::PlanFault;
use pci_plan::planning::plan;
use pci_plan::write::Write as RegisterWrite;
use pci_tree::admit::admit_with;
use pci_tree::admitted::Admitted;
use pci_tree::roots::Roots;
use std::alloc::{AllocError, Allocator};

/// Appends the line of a write.
fn push_write<A: Allocator>(text: &mut String<A>, write: &RegisterWrite) -> Result<(), AllocError>
    requires { IsTrue (is_two_or_four write.now) }
    ensures { OnOk result
        (string_bytes text.new ≡ string_bytes text.old ++ write_line (write_value write.now)) }
{
    push_slot(text, write.slot)?;
    text.push(' ')?;
    push_byte(text, write.off)?;
    text.push('.')?;
    push_hex(text, u64::from(write.width), 1)?;
    text.push(' ')?;
    push_hex(text, u64::from(write.value), 2 * u32::from(write.width))?;
    text.push('\n')
}

/// A line for each write.
pub fn lines_of<A: Allocator>(alloc: A, writes: &[RegisterWrite]) -> Result<String<A>, OutOfMemory>
    // a write of 1, 2 or 4 bytes has so many digits
    requires { All (λ w. IsTrue (is_two_or_four w)) writes.now }
    ensures { IfOk result
        (λ text. string_bytes text ≡ flat_map write_line (map write_value writes.now)) }
{
    let mut text = String::new(alloc);
    for write in writes {
        match push_write(&mut text, write) {
            Ok(()) => {}
            Err(_) => return Err(OutOfMemory),
        }
    }
    Ok(text)
}

/// The answer that a class has no room, with what it lacks.
fn lacking<A: Allocator + Copy>(
    alloc: A,
    admitted: &Admitted<A>,
    pools: &Pools,
    class: WindowKind,
) -> Result<Reply<A>, OutOfMemory>
    requires { IsFalse (fits admitted.now.roots (system_in admitted.now) (pools_value pools.now)
        (kind_value class)) }
    ensures { IfOk result (λ reply. answer_of reply ≡ refused (fault_answer_line
        (plan_fault_text (NoRoom (kind_value class)))
        ++ shortage_line (kind_value class) (shortage admitted.now.roots (system_in admitted.now)
        (pools_value pools.now) (kind_value class)))) }
{
    let mut lines = no_line(alloc, &PlanFault::NoRoom(class))?;
    push_shortage(&mut lines, class, shortage_of(admitted, pools, class))?;
    Ok(Reply {
        refused: true,
        text: Text::Lines(lines),
        remarks: String::new(alloc),
    })
}

/// The answer that there is no plan; where it is asked for, with what a class without room lacks.
fn no_plan<A: Allocator + Copy>(
    alloc: A,
    admitted: &Admitted<A>,
    pools: &Pools,
    fault: PlanFault,
    why: bool,
) -> Result<Reply<A>, OutOfMemory>
    requires { IsFaultOfPlan admitted.now pools.now fault }
    ensures { IfOk result (λ reply. answer_of reply ≡ refused (no_plan_text why admitted.now.roots
        (system_in admitted.now) (pools_value pools.now) (plan_fault_of fault))) }
{
    if !why {
        return refused(alloc, &fault);
    }
    match fault {
        PlanFault::NoRoom(class) => lacking(alloc, admitted, pools, class),
        PlanFault::BadPools | PlanFault::NoWindow(_) | PlanFault::NotAccepted(_) => {
            refused(alloc, &fault)
        }
    }
}

/// What a plan answers: its writes, or the planned dump.
fn plan_text<'a, A: Allocator + Copy>(
    alloc: A,
    plan: Plan<'a, A>,
    writes: bool,
) -> Result<Text<A>, OutOfMemory>
    ensures { IfOk result (λ text. text_bytes text ≡ plan_text writes plan.entry) }
{
    if writes {
        let lines = lines_of(alloc, plan.writes())?;
        return Ok(Text::Lines(lines));
    }
    Ok(Text::Dump(plan.into_dump()))
}

/// The answer of a plan, with a remark on each register that the titles of the probe name as assumed.
fn plan_reply<'a, A: Allocator + Copy>(
    alloc: A,
    plan: Plan<'a, A>,
    probe: &[Block],
    writes: bool,
) -> Result<Reply<A>, OutOfMemory>
    ensures { IfOk result (λ reply. answer_of reply
        ≡ done_with (remarks_named probe.now) (plan_text writes plan.entry)) }
{
    let remarks = remarks_named(alloc, probe)?;
    let text = plan_text(alloc, plan, writes)?;
    Ok(Reply {
        refused: false,
        text,
        remarks,
    })
}

/// Plans what was admitted.
fn plan_admitted<A: Allocator + Copy>(
    alloc: A,
    admitted: &Admitted<A>,
    pools: &Pools,
    writes: bool,
    why: bool,
) -> Result<Reply<A>, OutOfMemory>
    requires { IsAdmitted admitted.now }
    ensures { IfOk result (λ reply. IsPlanAnswer record {
      pools = pools_value pools.now;
      writes = writes;
      why = why;
      roots = admitted.now.roots;
    } admitted.now.dump admitted.now.probe (answer_of reply)) }
{
    match plan(alloc, admitted, pools) {
        Ok(plan) => plan_reply(alloc, plan, admitted.probe().blocks(), writes),
        Err(Refused::Fault(fault)) => no_plan(alloc, admitted, pools, fault, why),
        Err(Refused::Memory) => Err(OutOfMemory),
    }
}

/// Plans a dump and its probe in these pools, with these root buses: writes in the place of the planned dump, and what
/// a class without room lacks, where that is asked for.
pub fn plan_pair<A: Allocator + Copy>(
    alloc: A,
    dump: Dump<A>,
    probe: Dump<A>,
    pools: &Pools,
    writes: bool,
    why: bool,
    roots: Roots,
) -> Result<Reply<A>, OutOfMemory>
    ensures { IfOk result (λ reply. IsPlanAnswer record {
      pools = pools_value pools.now;
      writes = writes;
      why = why;
      roots = buses_of roots;
    } dump probe (answer_of reply)) }
{
    match admit_with(alloc, dump, probe, roots) {
        Ok(admitted) => plan_admitted(alloc, &admitted, pools, writes, why),
        Err(Refused::Fault(fault)) => refused(alloc, &fault),
        Err(Refused::Memory) => Err(OutOfMemory),
    }
}
