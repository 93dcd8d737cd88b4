//! The kinds of program file.

use thiserror::Error;

/// The two kinds of program.
#[derive(Clone, Copy, Debug, PartialEq, Eq)]
pub enum Kind {
    /// A COM program: the file is the image, and starts at its first byte.
    Com,
    /// An MZ (EXE) program: the file begins with `MZ` or `ZM` and has a header.
    Mz,
}

/// The file can't be loaded (DOS error 11, "Invalid format").
#[derive(Clone, Copy, Debug, PartialEq, Eq, Error)]
#[error("bad format")]
pub struct BadFormat;

/// A segment, and an offset in it.
#[derive(Clone, Copy, Debug, PartialEq, Eq)]
pub struct FarPointer {
    pub segment: u16,
    pub offset: u16,
}
