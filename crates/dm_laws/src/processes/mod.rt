//! Laws of processes: what a child that has ended leaves to its parent. They bind the definitions of [`dm_proc`], by
//! which the calls themselves are proved: no code runs here.

mod laws;

pub use laws::{arena_is_back, parent_goes_on, vectors_are_back};
