//! The requests of GDB's remote serial protocol: what a packet's bytes ask for.
//!
//! Source: the GDB manual, appendix "GDB Remote Serial Protocol", sections "Packets", "General Query Packets" and
//! "vCont".
//!
//! Module `packets` has the packets that carry them, and `commands` the lines of the debugger, which are read in the
//! same way.
#![tactic(auto)]

mod arguments;
pub mod commands;
mod names;
pub mod packets;
mod reading;
mod request;

pub use reading::read_request;
pub use request::{Point, Request, WatchedAccess};
