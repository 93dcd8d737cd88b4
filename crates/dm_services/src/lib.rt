//! The services that act in place of interrupt handlers: interrupt 0, INT 20h and the functions of
//! INT 21h (MS-DOS Programmer's Reference, "System Calls").
//!
//! Module `state` has what they act on.
#![tactic(auto)]

mod allocation;
mod at_once;
mod buffers;
mod characters;
mod functions;
mod handles;
mod laws;
mod lines;
mod processes;
mod services;
pub mod state;
mod strategies;
mod system;
mod text;
mod vectors;

pub use at_once::serve_at_once;
pub use functions::{Function, function_of};
pub use laws::services_have_one_answer;
pub use services::serve;
pub use strategies::StrategyFunction;
