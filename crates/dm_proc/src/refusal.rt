//! Why a program was not started, or a process not ended.
ghost use Rattle.std.specs.Prelude.{◌≡◌, MatchResult};

use thiserror::Error;

/// Why function 4Bh started no program or loaded no overlay (MS-DOS Programmer's Reference, function 4Bh), or the first
/// program was not started. The call has changed neither memory nor registers nor processes.
#[derive(Clone, Copy, Debug, PartialEq, Eq, Error)]
pub enum ExecRefusal {
    /// AL is not the call's: 0 to start a program, 3 to load an overlay (DOS error 1, "Invalid function").
    #[error("no such function")]
    Function,
    /// No name is closed by a zero within 65 bytes, or the store has no program of this name (DOS
    /// error 2, "File not found").
    #[error("not found")]
    NotFound,
    /// The file can't be loaded (DOS error 11, "Invalid format").
    #[error("bad format")]
    BadFormat,
    /// The environment has no end within 32,768 bytes (DOS error 10, "Invalid environment").
    #[error("environment too long")]
    Environment,
    /// Memory spells no clear list of blocks, or the list with the program's blocks would not be clear (DOS error 7,
    /// "Memory control blocks destroyed").
    #[error("arena destroyed")]
    Destroyed,
    /// No room for the program's blocks, or sixteen processes are alive (DOS error 8, "Not enough
    /// memory").
    #[error("not enough memory")]
    Short,
}

/// Why a process did not end: memory spells no clear list of blocks; or, where its blocks are to be freed in a list of
/// upper memory too, no such list; or the list with its block resized (31h) would not be clear. Nothing has changed
/// (DOS error 7, "Memory control blocks destroyed").
#[derive(Clone, Copy, Debug, PartialEq, Eq, Error)]
#[error("arena destroyed")]
pub struct ArenaDestroyed;
