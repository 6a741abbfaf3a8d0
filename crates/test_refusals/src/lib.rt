//! Tests of what the public calls and the program do where a read, a write or a growth fails, and of the calls of the C
//! library.
#![tactic(auto)]

#[cfg(test)]
mod c_check;
#[cfg(test)]
mod c_faults;
#[cfg(test)]
mod c_plan;
#[cfg(test)]
mod c_settle;
#[cfg(test)]
mod c_start;
#[cfg(test)]
mod c_texts;
#[cfg(test)]
mod failing;
#[cfg(test)]
mod hostile;
#[cfg(test)]
mod interrupted;
#[cfg(test)]
mod no_growth;
#[cfg(test)]
mod on_boards;
#[cfg(test)]
mod opening;
#[cfg(test)]
mod program;
#[cfg(test)]
mod refused_lists;
#[cfg(test)]
mod refused_maps;
#[cfg(test)]
mod refused_plan_tasks;
#[cfg(test)]
mod refused_plans;
#[cfg(test)]
mod refused_probes;
#[cfg(test)]
mod refused_readings;
#[cfg(test)]
mod refused_settlings;
#[cfg(test)]
mod refused_tasks;
#[cfg(test)]
mod refused_verdicts;
#[cfg(test)]
mod turn;
