//! Laws of console input that comes while a program runs. They bind the definitions of [`dm_services`] and
//! [`dm_machine`], by which steps and runs are proved: no code runs here.

mod laws;

pub use laws::{pieces_are_one_input, steps_take_more_input};
