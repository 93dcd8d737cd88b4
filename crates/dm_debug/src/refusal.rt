//! Why a line of a debugging session fails.

use thiserror::Error;

/// Why a line of a debugging session fails. The errors are tried in this order.
#[derive(Clone, Copy, Debug, PartialEq, Eq, Error)]
pub enum CommandRefusal {
    /// The line is no command, or clears a breakpoint that is not set. Nothing has changed, and nothing was written.
    #[error("syntax")]
    Syntax,
    /// The line sets one more breakpoint than there can be. Nothing has changed, and nothing was written.
    #[error("full")]
    Full,
    /// An allocation for the answer failed. Nothing was written; what the command changes may have changed, in part or
    /// whole.
    #[error("out of memory")]
    Memory,
    /// A write failed or took no byte. All that the command changes has changed, and a first part of the answer, or
    /// none of it, was written.
    #[error("a write failed")]
    Write,
}
