//! Runs that end at events: a step that leads to an address, a step after which a byte of memory reads otherwise, an
//! `INT` instruction that is next.

mod events;
mod going;
mod marking;
mod memory;
mod nearby;

pub use events::{Event, Range};
pub use going::{RunEnd, run_to};
