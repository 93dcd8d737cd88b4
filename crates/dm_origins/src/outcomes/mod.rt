//! What a call does, by the registers before and after it: whether it may write headers of the arena, whether it starts
//! or ends a process, and what is found of it.

mod appending;
mod calls;
mod courses;

pub use appending::append_finding;
pub use calls::{
    append_call_findings, arranges, call_stays_resident, frees, resizes, stays_resident,
};
pub use courses::{ends_process, has_started};
