//! A session of GDB's remote serial protocol: what each request changes, and what is replied.
//!
//! Source: the GDB manual, appendix "GDB Remote Serial Protocol". Addresses are linear: segment * 16 + offset.
#![tactic(auto)]

mod answers;
mod back;
mod checking;
mod connection;
mod description;
mod digits;
mod monitor;
mod replies;
mod server;

pub use connection::Connection;
pub use replies::{Reply, put_reply};
pub use server::Server;
