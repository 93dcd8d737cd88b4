//! What the requests of GDB's remote serial protocol do with a machine: registers by their numbers, memory by linear
//! addresses, and going on.
//!
//! Source: the GDB manual, appendix "GDB Remote Serial Protocol". Addresses are linear: segment * 16 + offset.
#![tactic(auto)]

mod going;
mod memory;
mod nearby;
mod points;
mod registers;
mod returning;
mod settings;
mod undoing;
mod watching;

pub use going::{Pause, StepRange, code_address, go_on, is_among};
pub use memory::{LAST, bytes_from, linear_of, readable, reads_as, segment_below};
pub use points::Points;
pub use registers::{all_registers, has_register, put_register};
pub use returning::turn_back;
pub use settings::registers_with;
pub use undoing::{Undone, step_back};
