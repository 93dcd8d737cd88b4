//! The commands of a debugger: what a typed line asks for.
//!
//! After the DEBUG of MS-DOS (MS-DOS User's Reference, "DEBUG"), with commands of this machine's own for breakpoints,
//! the arena, and expanded and extended memory.

mod command;
mod names;
mod numbers;
mod reading;
mod words;

pub use command::{Bytes, Command, LogicalAddress};
pub use numbers::read_number;
pub use reading::read_command;
