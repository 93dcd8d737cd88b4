//! Processes that ran: each with the segment of its prefix, its name, its parent, its first step and its last.

mod ends;
mod process;

pub use ends::end_innermost;
pub use process::Process;
