//! The program: `pciplan TASK DUMP PROBE`, where `probe` takes sizes in the place of a probe; `pciplan here`, which reads the
//! machine that it runs on; `explain`, `version`, `json` and `picture`.
#![tactic(auto)]

use pci_dump::std_streams::Outgoing;
use pciplan_cli::opened::FileText;
use pciplan_cli::outside::Outside;
use pciplan_cli::program::words_of;
use pciplan_front::folder::FolderMachine;
use pciplan_front::front::front;
use std::process::ExitCode;

fn main(rt: HostRuntime) -> ExitCode {
    let mut outside = Outside {
        dump: FileText::closed(&rt),
        second: FileText::closed(&rt),
        third: FileText::closed(&rt),
        machine: FolderMachine::own(&rt),
        out: Outgoing::new(rt.stdout()),
        err: Outgoing::new(rt.stderr()),
    };
    let words = words_of(&rt);
    ExitCode::from(front(rt.alloc(), words, &mut outside))
}
