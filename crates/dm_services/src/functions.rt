//! The functions of INT 21h (MS-DOS Programmer's Reference, "System Calls").
ghost use Rattle.std.specs.Prelude.{◌≡◌};
ghost use Rattle.dm_cpu.specs.Cpu.{byte_of};
ghost use Rattle.dm_ins.specs.declared.operand.ByteRegister.TheVariants.{Ah};
ghost use Rattle.dm_services.specs.state.State.{HasProgram};
ghost use Rattle.dm_services.specs.Functions.{function_of, flush_and_read, no_function, Calls};
ghost use Rattle.dm_services.specs.Wanting.{OrWants};
ghost use Rattle.dm_services.specs.inner.Wanting.{OrMemory};

use crate::allocation::{allocate, free, resize};
use crate::characters::{
    check_input, direct_character, echo_character, read_character, write_character,
};
use crate::handles::{read_handle, write_handle};
use crate::lines::read_line;
use crate::processes::{load_program, stay_resident, tell_code, terminate};
use crate::state::{Parts, Stop};
use crate::strategies::allocation_strategy;
use crate::system::{tell_process, tell_version};
use crate::text::print;
use crate::vectors::{get_vector, set_vector};
use dm_ins::ByteRegister;

/// A function of INT 21h, which AH names.
#[derive(Clone, Copy, Debug, PartialEq, Eq)]
pub enum Function {
    /// 00h: ends the process with the code 0.
    Terminate,
    /// 01h: reads a byte of the input into AL, and writes it.
    EchoCharacter,
    /// 02h: writes DL to the console.
    WriteCharacter,
    /// 06h: writes DL to the console, or, with DL = FFh, reads a byte into AL if there is one.
    DirectCharacter,
    /// 07h: reads a byte of the input into AL.
    DirectInput,
    /// 08h: reads a byte of the input into AL.
    ReadCharacter,
    /// 09h: writes the text at DS:DX, up to a `$`.
    WriteText,
    /// 0Ah: reads a line of the input into the buffer at DS:DX.
    ReadLine,
    /// 0Bh: returns in AL whether input is left.
    CheckInput,
    /// 0Ch: does the function that AL names, if it reads the console.
    FlushAndRead,
    /// 25h: sets the vector of interrupt AL to DS:DX.
    SetVector,
    /// 30h: returns the version.
    Version,
    /// 31h: ends the process with the code in AL, and keeps DX paragraphs.
    Keep,
    /// 35h: returns the vector of interrupt AL in ES:BX.
    GetVector,
    /// 3Fh: reads at most CX bytes from handle BX to DS:DX.
    ReadHandle,
    /// 40h: writes the CX bytes at DS:DX to handle BX.
    WriteHandle,
    /// 48h: allocates BX paragraphs.
    Allocate,
    /// 49h: frees the block at segment ES.
    Free,
    /// 4Ah: resizes the block at segment ES to BX paragraphs.
    Resize,
    /// 4Bh: starts a program, or loads an overlay.
    LoadProgram,
    /// 4Ch: ends the process with the code in AL.
    Exit,
    /// 4Dh: returns the last child's exit code and kind of ending in AX.
    ExitCode,
    /// 51h and 62h: returns the segment of the present process in BX.
    Process,
    /// 58h: returns or sets the allocation strategy, or the link with upper memory.
    AllocationStrategy,
    /// Any other number.
    Unknown,
}

/// The function of INT 21h with this number, which calls have in AH; `Unknown` for a number that is not served.
#[inline(always)]
pub fn function_of(number: u8) -> Function
    ensures { result ≡ Rattle.dm_services.specs.Functions.function_of number }
{
    match number {
        0x00 => Function::Terminate,
        0x01 => Function::EchoCharacter,
        0x02 => Function::WriteCharacter,
        0x06 => Function::DirectCharacter,
        0x07 => Function::DirectInput,
        0x08 => Function::ReadCharacter,
        0x09 => Function::WriteText,
        0x0A => Function::ReadLine,
        0x0B => Function::CheckInput,
        0x0C => Function::FlushAndRead,
        0x25 => Function::SetVector,
        0x30 => Function::Version,
        0x31 => Function::Keep,
        0x35 => Function::GetVector,
        0x3F => Function::ReadHandle,
        0x40 => Function::WriteHandle,
        0x48 => Function::Allocate,
        0x49 => Function::Free,
        0x4A => Function::Resize,
        0x4B => Function::LoadProgram,
        0x4C => Function::Exit,
        0x4D => Function::ExitCode,
        0x51 | 0x62 => Function::Process,
        0x58 => Function::AllocationStrategy,
        _ => Function::Unknown,
    }
}

/// 0Ch: performs the function that AL names, if it reads the console, and stops where that function does; for any other
/// AL, AL becomes 0 and the call returns. No input is dropped: a redirected stream has nothing that was typed ahead.
#[tactic(auto, unfolding(crate::specs::Functions::flush_and_read))]
fn flush_and_read(parts: &mut Parts) -> Option<Stop>
    ensures answer { OrMemory parts.old (flush_and_read parts.old) result parts.new }
    ensures program { parts.new.processes ≡ parts.old.processes }
{
    match function_of(parts.cpu.byte(ByteRegister::Al)) {
        Function::EchoCharacter => echo_character(parts),
        Function::DirectCharacter => direct_character(parts),
        Function::DirectInput | Function::ReadCharacter => read_character(parts),
        Function::ReadLine => read_line(parts),
        _ => {
            parts.cpu.set_byte(ByteRegister::Al, 0);
            parts.return_from_interrupt();
            parts.count();
            None
        }
    }
}

/// A number that is not served: returns from INT 21h with error 1, no such function, in AX and CF set, and counts the
/// step. Memory stays.
#[tactic(auto, unfolding(crate::specs::Functions::no_function))]
fn refuse(parts: &mut Parts)
    ensures { parts.new ≡ (no_function parts.old).state }
{
    parts.cpu.ax = 1;
    parts.return_from_interrupt();
    parts.cpu.flags.carry = true;
    parts.count();
}

/// Performs a function of INT 21h. Returns None, with the step counted, if the machine goes on; `Exited`, also with the
/// step counted, if the first program has ended; or another stop, with nothing changed. A program stays loaded.
#[tactic(auto, unfolding(crate::specs::Functions::no_function, crate::specs::Processes::tell_code))]
fn call(parts: &mut Parts, function: Function) -> Option<Stop>
    requires { HasProgram parts.old }
    ensures answer { OrWants parts.old (Calls parts.old function) result parts.new }
    ensures program { HasProgram parts.new }
{
    match function {
        Function::EchoCharacter => return echo_character(parts),
        Function::WriteCharacter => return write_character(parts),
        Function::DirectCharacter => return direct_character(parts),
        Function::DirectInput | Function::ReadCharacter => return read_character(parts),
        Function::WriteText => return print(parts),
        Function::ReadLine => return read_line(parts),
        Function::CheckInput => return check_input(parts),
        Function::FlushAndRead => return flush_and_read(parts),
        Function::SetVector => return set_vector(parts),
        Function::Version => return tell_version(parts),
        Function::GetVector => return get_vector(parts),
        Function::ReadHandle => return read_handle(parts),
        Function::WriteHandle => return write_handle(parts),
        Function::Process => return tell_process(parts),
        Function::Allocate => allocate(parts),
        Function::Free => free(parts),
        Function::Resize => resize(parts),
        Function::AllocationStrategy => allocation_strategy(parts),
        Function::Exit => {
            let code = parts.cpu.byte(ByteRegister::Al);
            return terminate(parts, code);
        }
        Function::Terminate => return terminate(parts, 0),
        Function::Keep => return stay_resident(parts),
        Function::LoadProgram => load_program(parts),
        Function::ExitCode => tell_code(parts),
        Function::Unknown => refuse(parts),
    }
    None
}

/// INT 21h: performs the function that AH names. The result is that of `call`: None or `Exited` with the step counted,
/// or another stop with nothing changed. A program stays loaded.
pub(crate) fn dos_call(parts: &mut Parts) -> Option<Stop>
    requires { HasProgram parts.old }
    ensures answer { OrWants parts.old (Calls parts.old (function_of (byte_of parts.old.cpu Ah))) result parts.new }
    ensures program { HasProgram parts.new }
{
    let function = function_of(parts.cpu.byte(ByteRegister::Ah));
    call(parts, function)
}
