//! A program of calls that allocate memory, to be run with each allocation failing in turn.
//!
//! It prints a line for each call, `NAME: ANSWER`. If an allocation fails in a call, it prints `NAME: memory` before
//! that, makes the call again, and goes on; or `NAME: changed`, if the answer or the state afterwards is not what
//! the call's contract says. If an allocation fails between the calls, while one is prepared, it ends with status 1.
#![tactic(auto)]

mod machines;
mod runs;
mod sessions;
mod stores;
mod telling;
mod texts;
mod whole;

use std::alloc::Global;

/// Makes each call.
fn make_calls(rt: &impl Print, alloc: Global) -> anyhow::Result<()> {
    stores::make_region(rt, alloc)?;
    stores::make_store(rt, alloc)?;
    stores::add_programs(rt, alloc)?;
    stores::make_room(rt, alloc)?;
    texts::make_bytes(rt, alloc)?;
    texts::make_lines(rt, alloc)?;
    texts::read_words(rt, alloc)?;
    runs::make_machine(rt, alloc)?;
    runs::copy_machine(rt, alloc)?;
    runs::make_room(rt, alloc)?;
    runs::keep_to_room(rt, alloc)?;
    runs::make_steps(rt, alloc)?;
    runs::run_whole(rt, alloc)?;
    runs::run_and_write(rt, alloc)?;
    sessions::answer_commands(rt, alloc)
}

fn main(rt: HostRuntime) -> anyhow::Result<()> {
    make_calls(&rt, rt.alloc())
}
