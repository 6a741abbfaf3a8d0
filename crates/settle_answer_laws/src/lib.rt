//! Laws of what `settle` answers: its writes can stop. `spared_laws` says that what `pci_settle` settles meets what the
//! laws of settling ask. `stop_laws`, `word_laws` and `left_out_laws` are of settling where more is beside a system than
//! settling was told of. `answer_laws` joins them over what `settle --model` prints.
//!
//! What they speak of is in `judge_spec`, `judge_spec`, `settle_spec`, `settle_laws`, `pci_settle` and `pciplan_tasks`.
#![tactic(auto)]

pub mod answer_laws;
pub mod left_out_laws;
pub mod spared_laws;
pub mod stop_laws;
pub mod word_laws;
