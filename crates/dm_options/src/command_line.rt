//! What a command line of `dm` asks for: its command, options and files.

use thiserror::Error;

/// The options and files that `dm run`, `dm check`, `dm debug` and `dm gdb` share: how the machine is made, and what it
/// runs.
#[derive(Debug, Drop)]
pub struct MachineOptions<'a> {
    /// The largest number of steps that the machine makes, for `dm gdb` each time that it goes on, from `--steps`.
    pub steps: u64,
    /// The pages of 16 KiB of expanded memory, from `--ems`.
    pub ems_pages: u32,
    /// The KiB of extended memory, from `--xms`.
    pub xms_kib: u32,
    /// Whether upper memory belongs to the arena, by `--upper`.
    pub upper: bool,
    /// The tail of the program's command line, from `--tail`.
    pub tail: &'a str,
    /// The paths of the program to run and of the other programs in the store; there is at least one.
    pub files: Vec<&'a str>,
}

/// The options and files of `dm debug` and `dm gdb`.
#[derive(Debug, Drop)]
pub struct DebugOptions<'a> {
    /// How the machine is made, and what it runs; for `dm debug` its number of steps has no effect.
    pub machine: MachineOptions<'a>,
    /// The path of the file that is the program's console input, from `--input`; None for no input.
    pub input: Option<&'a str>,
}

/// The options and files of `dm check`.
#[derive(Debug, Drop)]
pub struct CheckOptions<'a> {
    /// How the machine is made, and what it runs.
    pub machine: MachineOptions<'a>,
    /// Whether findings about free memory are left out, by `--no-free`.
    pub no_free: bool,
    /// Whether the report is written as JSON, by `--json`.
    pub json: bool,
}

/// The files of `dm asm`.
#[derive(Clone, Copy, Debug)]
pub struct AsmOptions<'a> {
    /// The path of the text that is assembled.
    pub input: &'a str,
    /// The path of the file that the program's bytes are written to.
    pub output: &'a str,
}

/// The command of a command line, with its options and files.
#[derive(Debug, Drop)]
pub enum Options<'a> {
    /// `dm run`: runs the first file.
    Run(MachineOptions<'a>),
    /// `dm debug`: debugs the first file.
    Debug(DebugOptions<'a>),
    /// `dm gdb`: debugs the first file over GDB's remote serial protocol.
    Gdb(DebugOptions<'a>),
    /// `dm check`: runs the first file, and reports the errors in its use of memory.
    Check(CheckOptions<'a>),
    /// `dm asm`: assembles a text to a file.
    Asm(AsmOptions<'a>),
    /// `dm disasm`: disassembles the file at this path.
    Disasm(&'a str),
}

/// Why no options are read from a command line.
#[derive(Debug, Drop, Error)]
pub enum OptionsError {
    /// A wrong command line, or a call for help or the version, with `clap`'s text.
    #[error("{0}")]
    Usage(clap::Error),
    /// An allocation failed.
    #[error("out of memory")]
    Memory,
}
