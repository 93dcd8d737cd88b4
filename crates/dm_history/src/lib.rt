//! Histories: a machine that can go back to any earlier step, with what the user changed on the way.
#![tactic(auto)]

mod change;
mod copies;
mod history;
mod laws;
mod replay;

pub use change::{Bytes, Change, TimedChange};
pub use history::History;
pub use laws::{a_beginning_becomes_one_state, histories_come_from_their_beginning};
