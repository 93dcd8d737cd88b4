//! Texts of programs, and the words of a command line.
use crate::telling::{tell, tell_refused};
use anyhow::Result;
use dm_asm::{AssemblyRefusal, assemble, disassemble};
use dm_options::command_line::{Options, OptionsError};
use dm_options::options;
use std::alloc::Global;

/// A text with some labels.
const TEXT: &[u8] = b"\
first: MOV AH,9
MOV DX,message
print: INT 21h
JMP SHORT stop
stop: INT 20h
message: DB 'hi$'
";

/// Its bytes.
const BYTES: [u8; 14] = [
    0xB4, 0x09, 0xBA, 0x0B, 0x01, 0xCD, 0x21, 0xEB, 0x00, 0xCD, 0x20, 0x68, 0x69, 0x24,
];

/// The lines of those bytes.
const LINES: &[u8] = b"\
MOV AH,009h
MOV DX,0010Bh
INT 021h
JMP SHORT 00109h
INT 020h
DB 068h
DB 069h
DB 024h
";

/// The bytes of a text.
pub(crate) fn make_bytes(rt: &impl Print, alloc: Global) -> Result<()> {
    let call = "assemble";
    let bytes = match assemble(alloc, TEXT) {
        Ok(bytes) => bytes,
        Err(error) => {
            tell_refused(rt, call, error == AssemblyRefusal::Memory)?;
            assemble(alloc, TEXT)?
        }
    };
    let right = bytes.as_slice() == BYTES.as_slice();
    tell(rt, call, if right { "its bytes" } else { "others" })
}

/// The lines of some bytes.
pub(crate) fn make_lines(rt: &impl Print, alloc: Global) -> Result<()> {
    let call = "disassemble";
    let lines = match disassemble(alloc, &BYTES) {
        Ok(lines) => lines,
        Err(_) => {
            tell_refused(rt, call, true)?;
            disassemble(alloc, &BYTES)?
        }
    };
    let right = lines.as_slice() == LINES;
    tell(rt, call, if right { "its lines" } else { "others" })
}

/// The words of a command line.
const WORDS: [&str; 5] = ["dm", "run", "--steps=7", "hi.com", "ho.com"];

/// What the words of a command line ask for.
pub(crate) fn read_words(rt: &impl Print, alloc: Global) -> Result<()> {
    let call = "options";
    let found = match options(alloc, &WORDS) {
        Ok(found) => found,
        Err(error) => {
            tell_refused(rt, call, matches!(&error, OptionsError::Memory))?;
            options(alloc, &WORDS)?
        }
    };
    match found {
        Options::Run(machine) => {
            let (steps, files) = (machine.steps, machine.files.len());
            println!(rt; "{call}: {steps} steps of the first of {files} files")?;
            Ok(())
        }
        _ => tell(rt, call, "others"),
    }
}
