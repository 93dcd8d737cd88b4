//! Why a call of a host fails.

use thiserror::Error;

/// Why a call of a host fails. Nothing has changed then, unless the call says otherwise.
#[derive(Clone, Copy, Debug, PartialEq, Eq, Error)]
pub enum Refusal {
    /// An allocation of the host failed.
    #[error("out of memory")]
    Memory,
    /// Over 512 pages of expanded memory, or over 15,360 KiB of extended memory.
    #[error("too large")]
    TooLarge,
    /// The variables have over 32,767 bytes with their zeros.
    #[error("variables too long")]
    VariablesTooLong,
    /// The name is empty, has over 64 bytes, or has a zero byte.
    #[error("bad name")]
    BadName,
    /// A program has this name already, ASCII case ignored.
    #[error("name twice")]
    NameTwice,
    /// Programs can no longer be added or loaded: one was loaded, or its loading failed for good.
    #[error("started")]
    Started,
    /// The tail has over 126 bytes.
    #[error("tail too long")]
    TailTooLong,
    /// No program has this name.
    #[error("not found")]
    NotFound,
    /// The program is neither a COM file of at most 65,278 bytes nor a good MZ file.
    #[error("bad format")]
    BadFormat,
    /// Conventional memory has no room for the program and its environment.
    #[error("short")]
    Short,
    /// No program is loaded.
    #[error("not loaded")]
    NotLoaded,
    /// The line is no command, or clears a breakpoint that is not set.
    #[error("syntax")]
    Syntax,
    /// The line sets a seventeenth breakpoint.
    #[error("full")]
    Full,
    /// The console input of the program is closed: no more of it may come.
    #[error("input closed")]
    InputClosed,
    /// The handle is not in use.
    #[error("no handle")]
    NoHandle,
    /// The handle has no page of this number.
    #[error("no page")]
    NoPage,
    /// Not all of the bytes are in the page or block.
    #[error("past the end")]
    PastEnd,
    /// The report lists no finding of this number.
    #[error("no finding")]
    NoFinding,
}
