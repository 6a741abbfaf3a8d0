//! The program's tasks with the first growth refused, then with the second, and so on until no refusal is met.
use crate::program::{Answer, run_by, run_task};
use pci_tree::roots::Roots;
use pciplan_tasks::task::Task;
use std::alloc::Global;
use std::test::Fail;
use test_support::board::Texts;
use test_support::refusing::{MANY, Refusing};
use test_support::samples::samples;

/// Whether two runs left the same.
fn is_same(got: &Answer, wanted: &Answer) -> bool {
    got.status == wanted.status && got.out == wanted.out && got.err == wanted.err
}

/// Whether a run says want of memory and nothing else.
fn is_want_of_memory(got: &Answer) -> bool {
    got.status == 3 && got.out.is_empty() && got.err.as_slice() == b"pciplan: 2 Memory\n".as_slice()
}

/// Whether a task that is refused a growth, whichever it is, says just that, and else what it says with memory.
pub fn is_refused_in_turn(alloc: Global, task: &Task, texts: &Texts) -> bool {
    let whole = run_task(alloc, task, texts.dump.as_str(), texts.probe.as_str());
    let heap = Refusing::new(alloc);
    for n in 1..MANY {
        heap.refuse(n);
        let got = run_by(
            alloc,
            &heap,
            task,
            texts.dump.as_str(),
            texts.probe.as_str(),
        );
        if heap.is_due() {
            return 1 < n && is_same(&got, &whole);
        }
        if !is_want_of_memory(&got) {
            return false;
        }
    }
    false
}

/// The same of a listing, a verdict and a probe.
fn are_refused_in_turn(alloc: Global, texts: &Texts) -> bool {
    let roots = Roots::host();
    is_refused_in_turn(alloc, &Task::Show, texts)
        && is_refused_in_turn(alloc, &Task::Check { roots }, texts)
        && is_refused_in_turn(alloc, &Task::Size, texts)
}

#[test]
fn a_task_that_is_refused_a_growth_says_just_that(rt: HostRuntime) -> Result<(), Fail> {
    for (texts, _) in samples(rt.alloc())? {
        assert!(rt; are_refused_in_turn(rt.alloc(), &texts));
    }
    Ok(())
}
