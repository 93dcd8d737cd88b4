//! The packets of GDB's remote serial protocol: what is read from a stream of bytes, and the bytes that are sent.
//!
//! Source: the GDB manual, appendix "GDB Remote Serial Protocol", sections "Overview", "Interrupts" and "Packet
//! Acknowledgment".

mod checks;
mod content;
mod escapes;
mod laws;
mod received;
mod receiver;
mod sending;

pub use laws::streams_are_read;
pub use received::{Payload, Received};
pub use receiver::Receiver;
pub use sending::SendingSide;
