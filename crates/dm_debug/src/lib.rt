//! The debugger of `dm debug` and of the hosts of `dm_host`: a session executes the commands that lines of text ask
//! for.
//!
//! Module `stops` has runs up to events, as hosts ask for them.
#![tactic(auto)]

mod input;
mod laws;
mod listings;
mod points;
mod printed;
mod refusal;
mod runs;
mod session;
pub mod stops;

pub use laws::runs_have_one_answer;
pub use points::Points;
pub use printed::PrintedText;
pub use refusal::CommandRefusal;
pub use session::Session;
