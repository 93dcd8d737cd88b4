//! The report of `dm check` as JSON (RFC 8259), one object a line, and in either form.
//!
//! Each function `put_..` appends a text to `out`. Each line ends with a line feed (0Ah). An `Err` is a failed
//! allocation; nothing is promised of what `out` holds then.
#![tactic(auto)]

mod forms;
mod members;
mod objects;
mod processes;

pub use forms::{Format, format_of, put_end_in, put_lines_in, put_processes_in, put_summary_in};
