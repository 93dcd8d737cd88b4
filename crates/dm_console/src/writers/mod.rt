//! Writers whose contracts say which bytes were taken, and how many writes and flushes failed.

pub mod adapter;
pub mod writer;

pub use adapter::Sink;
pub use writer::{Failed, Out, write_all};
