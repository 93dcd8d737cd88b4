//! The faults of the commands of `dm`, as they are printed on standard error.
ghost use Rattle.std.specs.Prelude.{◌≡◌};

use dm_asm::AssemblyRefusal;
use dm_machine::{AddError, LoadError, NewError};

/// A fault of a command of `dm`. It is printed on standard error, and the exit status is 126.
#[derive(Clone, Copy)]
pub(crate) enum Fault<'a> {
    /// A file, or standard input, of this name cannot be opened or read.
    CannotRead(&'a str),
    /// A file, or standard output, of this name cannot be written.
    CannotWrite(&'a str),
    /// There is no first file, or the store has no program of its name.
    NotFound,
    /// The first file is neither a COM file of at most 65,278 bytes nor a good MZ file.
    BadFormat,
    /// Conventional memory has no room for the first program.
    Short,
    /// `--ems` is over 512, or `--xms` is over 15360.
    TooLarge,
    /// The command tail has more than 126 bytes.
    TailTooLong,
    /// A file's name has more than 64 bytes.
    NameTooLong,
    /// Two files have the same name, ASCII case ignored.
    NameTwice,
    /// A file, or standard input, has more than 16 MiB.
    InputTooLong,
    /// The program that is assembled or disassembled has more than 65,278 bytes.
    TooLong,
    /// This line of an assembly text is no statement, or the instruction table does not have its instruction.
    Syntax(usize),
    /// This line of an assembly text names a label that no line has.
    Unknown(usize),
    /// A number, a label or a target on this line of an assembly text is out of range.
    Range(usize),
    /// This line of an assembly text has the label of a line before it.
    Twice(usize),
    /// An allocation failed, but not one for the program's output: that is the stop `Memory`.
    OutOfMemory,
}

impl From<AssemblyRefusal> for Fault<'_> {
    ghost use Rattle.dm_cli.specs.Faults.{refusal_fault};

    ghost from_gives = { λ error fault. fault ≡ refusal_fault error };

    fn from(error: AssemblyRefusal) -> Self {
        match error {
            AssemblyRefusal::Syntax(line) => Fault::Syntax(line),
            AssemblyRefusal::Unknown(line) => Fault::Unknown(line),
            AssemblyRefusal::Range(line) => Fault::Range(line),
            AssemblyRefusal::Twice(line) => Fault::Twice(line),
            AssemblyRefusal::TooLong => Fault::TooLong,
            AssemblyRefusal::Memory => Fault::OutOfMemory,
        }
    }
}

impl From<AddError> for Fault<'_> {
    ghost use Rattle.dm_cli.specs.inner.Faults.{add_fault};

    ghost from_gives = { λ error fault. fault ≡ add_fault error };

    fn from(error: AddError) -> Self {
        match error {
            AddError::Twice => Fault::NameTwice,
            AddError::Memory => Fault::OutOfMemory,
        }
    }
}

impl From<NewError> for Fault<'_> {
    ghost use Rattle.dm_cli.specs.inner.Faults.{new_fault};

    ghost from_gives = { λ error fault. fault ≡ new_fault error };

    fn from(error: NewError) -> Self {
        match error {
            NewError::TooLarge => Fault::TooLarge,
            NewError::Memory => Fault::OutOfMemory,
        }
    }
}

impl From<LoadError> for Fault<'_> {
    ghost use Rattle.dm_cli.specs.inner.Faults.{load_fault};

    ghost from_gives = { λ error fault. fault ≡ load_fault error };

    fn from(error: LoadError) -> Self {
        match error {
            LoadError::NotFound => Fault::NotFound,
            LoadError::BadFormat => Fault::BadFormat,
            LoadError::Short => Fault::Short,
        }
    }
}
