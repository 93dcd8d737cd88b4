//! Why a text does not assemble to a program.

use thiserror::Error;

/// Why a text does not assemble to a program. Lines are counted from 1.
#[derive(Clone, Copy, Debug, PartialEq, Eq, Error)]
pub enum AssemblyRefusal {
    /// A line is no statement, or the instruction table does not have its instruction.
    #[error("line {0}: syntax")]
    Syntax(usize),
    /// A line names a label that no line has.
    #[error("line {0}: unknown")]
    Unknown(usize),
    /// A number, a label or a target on a line is out of range.
    #[error("line {0}: range")]
    Range(usize),
    /// A line has the label of a line before it.
    #[error("line {0}: twice")]
    Twice(usize),
    /// The program has over 65,278 bytes.
    #[error("too long")]
    TooLong,
    /// An allocation failed.
    #[error("out of memory")]
    Memory,
}
