//! The texts of the report of `dm check`.
//!
//! Each function `put_..` appends a text to `out`. Each line ends with a line feed (0Ah). An `Err` is a failed
//! allocation; nothing is promised of what `out` holds then.
#![tactic(auto)]

mod meanings;
mod names;
mod processes;
mod reports;
mod stops;
mod texts;

pub use names::put_call;
pub use processes::put_processes;
pub use reports::{put_lines, put_omitted, put_report, put_summary};
pub use stops::{put_stop, reason_of};
pub use texts::{put_found, put_instruction, put_number, put_told, severity_word};
