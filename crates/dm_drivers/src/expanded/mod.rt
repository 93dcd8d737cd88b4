//! The calls of the expanded memory driver (LIM EMS 4.0): what each function of INT 67h reads and sets in the registers
//! of the program that calls.

mod answers;
mod frame;
mod functions;
mod handles;
mod names;
mod regions;
mod windows;

pub use functions::{Function, expanded_memory_call, function_of};
