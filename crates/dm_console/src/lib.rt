//! The console of a machine: redirected byte streams, and room for output that is reserved in
//! advance. INT 21h reads and writes it, by functions 01h, 02h, 06h to 0Ch, 3Fh and 40h.
//!
//! Module `writers` passes bytes on to what writes them.
#![tactic(auto)]

mod console;
pub mod writers;

pub use console::Console;
