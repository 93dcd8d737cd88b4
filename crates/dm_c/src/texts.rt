//! The exports of the assembler and the disassembler. `include/mezguld.h` declares them for C.
ghost use Rattle.std.specs.Prelude.{◌≡◌};
ghost use Rattle.dm_c.specs.Statuses.{text_status_of, wrong_line};
ghost use Rattle.dm_c.specs.Texts.{AssemblesTo, DisassemblesTo};

use crate::calls::{OUT_OF_MEMORY, TOO_LONG, give_items};
use dm_asm::{AssemblyRefusal, assemble, disassemble};
use std::alloc::Global;

/// The largest number of bytes of a program that is disassembled.
const MOST_PROGRAM_BYTES: usize = 65_278;

/// The status for an assembly text that is refused: 17 to 21 for an error in it, 3 for a failed allocation.
fn text_status_of(refusal: AssemblyRefusal) -> u32
    ensures { result ≡ text_status_of refusal }
{
    match refusal {
        AssemblyRefusal::Syntax(_) => 17,
        AssemblyRefusal::Unknown(_) => 18,
        AssemblyRefusal::Range(_) => 19,
        AssemblyRefusal::Twice(_) => 20,
        AssemblyRefusal::TooLong => TOO_LONG,
        AssemblyRefusal::Memory => OUT_OF_MEMORY,
    }
}

/// The line, from 1, of an error in an assembly text; `before` if the error has no line.
fn wrong_line(refusal: AssemblyRefusal, before: usize) -> usize
    ensures { result ≡ wrong_line refusal before }
{
    match refusal {
        AssemblyRefusal::Syntax(line)
        | AssemblyRefusal::Unknown(line)
        | AssemblyRefusal::Range(line)
        | AssemblyRefusal::Twice(line) => line,
        AssemblyRefusal::TooLong | AssemblyRefusal::Memory => before,
    }
}

/// Assembles a text, copies the bytes of the COM program to the front of the buffer, and sets `wanted` to how many they
/// are. If they do not fit, the status is 4, and only `wanted` changes. At an error in the text (17 to 21), or if an
/// allocation failed (3), the buffer and `wanted` stay. `line` changes with 17 to 20 alone, to the line of the error.
#[unsafe(no_mangle)]
pub extern "C" fn dm_c_assemble(
    alloc: Global,
    text: &[u8],
    buffer: &mut [u8],
    wanted: &mut usize,
    line: &mut usize,
) -> u32
    ensures { AssemblesTo text.now buffer.old buffer.new wanted.old wanted.new line.old line.new result }
{
    match assemble(alloc, text) {
        Ok(bytes) => give_items(bytes.as_slice(), buffer, wanted),
        Err(refusal) => {
            *line = wrong_line(refusal, *line);
            text_status_of(refusal)
        }
    }
}

/// Disassembles a COM program, copies its assembly text to the front of the buffer, and sets `wanted` to how many bytes
/// it has. If they do not fit, the status is 4, and only `wanted` changes. Status 21 for over 65,278 bytes of program,
/// 3 if an allocation failed; then nothing changes.
#[unsafe(no_mangle)]
pub extern "C" fn dm_c_disassemble(
    alloc: Global,
    program: &[u8],
    buffer: &mut [u8],
    wanted: &mut usize,
) -> u32
    ensures { DisassemblesTo program.now buffer.old buffer.new wanted.old wanted.new result }
{
    if program.len() > MOST_PROGRAM_BYTES {
        return TOO_LONG;
    }
    match disassemble(alloc, program) {
        Ok(text) => give_items(text.as_slice(), buffer, wanted),
        Err(_) => OUT_OF_MEMORY,
    }
}
