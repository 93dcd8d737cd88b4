//! The memory checker of `dm check`: runs a machine, and reports what its program did to the headers of the arena and
//! to free memory, which calls failed, and what the program left allocated.
#![tactic(auto)]

mod acts;
mod arena_copy;
mod arranged;
mod checks;
mod freed;
mod headers;
mod laws;
mod marking;
mod recording;
mod steps;
mod touched;

pub use checks::{CheckedRun, check};
pub use laws::{a_check_has_one_report, a_checked_run_is_a_run, unserved_calls_are_found};
