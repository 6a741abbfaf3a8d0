//! Numbers boards in memory: for each line of standard input, the last bus, how many are kept free
//! behind hot-plug slots, and the board, prints each write and each answer. `stdin` has boards made by rule, `stdout` what the C routine of
//! c/number does on them as well. The tests are of worked boards. The ports are proved to keep a
//! port's laws: one to a board of any tree, one to a board with one bridge.
#![tactic(auto)]

mod bus;
#[cfg(test)]
mod examples;
#[cfg(test)]
mod one_bridge;
mod roots;
#[cfg(test)]
mod tests;
mod text;
mod told;
mod tree;

use std::io;
use std::io::Write;

fn main(rt: HostRuntime) -> io::Result<()> {
    let boards = io::read_to_string(rt.alloc(), rt.stdin())?;
    for line in boards.lines() {
        let told = told::board_told(rt.alloc(), line)?;
        rt.stdout().write_all(told.as_bytes())?;
    }
    Ok(())
}
