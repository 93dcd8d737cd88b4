//! The calls of the extended memory driver (XMS 3.0): what each function reads and sets in the registers of the
//! program that calls.

mod answers;
mod area;
mod at_once;
mod blocks;
mod functions;
mod line;
mod uppers;

pub use at_once::extended_memory_call_at_once;
pub use functions::{Function, extended_memory_call, function_of};
