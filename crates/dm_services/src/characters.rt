//! INT 21h, single bytes of the console (MS-DOS Programmer's Reference, functions 01h, 02h, 06h, 07h, 08h and 0Bh).
//! Input and output are redirected byte streams. Unless it stops the machine, each function returns by popping IP, CS
//! and FLAGS, and counts the step; no memory is written.
ghost use Rattle.std.specs.Prelude.{◌≡◌, None};
ghost use Rattle.dm_services.specs.inner.Wanting.{OrMemory};
ghost use Rattle.dm_services.specs.Characters.{read_character, echo_character, write_character, poll_character, direct_character, check_input, input_status};

use crate::state::{Parts, Stop};
use dm_ins::ByteRegister;

/// 07h and 08h: reads the next byte of the input into AL, without echo. Returns `InputEnded`, with nothing changed, if
/// none is left.
#[tactic(auto, unfolding(crate::specs::Characters::read_character))]
pub(crate) fn read_character(parts: &mut Parts) -> Option<Stop>
    ensures answer { OrMemory parts.old (read_character parts.old) result parts.new }
    ensures program { parts.new.processes ≡ parts.old.processes }
{
    let Some(byte) = parts.console.next() else {
        return Some(Stop::InputEnded);
    };
    parts.cpu.set_byte(ByteRegister::Al, byte);
    parts.return_from_interrupt();
    parts.count();
    None
}

/// 01h: reads the next byte of the input into AL, and writes it to the console. Returns `InputEnded` if no input is
/// left, or `Memory` if the output's allocation fails; either stop changes nothing.
#[tactic(auto, unfolding(crate::specs::Characters::echo_character))]
pub(crate) fn echo_character(parts: &mut Parts) -> Option<Stop>
    ensures answer { OrMemory parts.old (echo_character parts.old) result parts.new }
    ensures program { parts.new.processes ≡ parts.old.processes }
{
    let Some(byte) = parts.console.input().first().copied() else {
        return Some(Stop::InputEnded);
    };
    if parts.console.reserve(1).is_err() {
        return Some(Stop::Memory);
    }
    parts.console.consume(1);
    parts.console.put(byte);
    parts.cpu.set_byte(ByteRegister::Al, byte);
    parts.return_from_interrupt();
    parts.count();
    None
}

/// 02h: writes the byte in DL to the console; AX stays. Returns `Memory`, with nothing changed, if the output's
/// allocation fails.
#[tactic(auto, unfolding(crate::specs::Characters::write_character))]
pub(crate) fn write_character(parts: &mut Parts) -> Option<Stop>
    ensures answer { OrMemory parts.old (write_character parts.old) result parts.new }
    ensures program { parts.new.processes ≡ parts.old.processes }
{
    if parts.console.reserve(1).is_err() {
        return Some(Stop::Memory);
    }
    parts.console.put(parts.cpu.byte(ByteRegister::Dl));
    parts.return_from_interrupt();
    parts.count();
    None
}

/// 06h with DL = FFh: reads the next byte of the input into AL and clears ZF; if none is left, AL becomes 0 and ZF is
/// set. Never stops the machine.
#[tactic(auto, unfolding(crate::specs::Characters::poll_character))]
fn poll_character(parts: &mut Parts)
    ensures answer { record { stop = None; state = parts.new } ≡ poll_character parts.old }
    ensures program { parts.new.processes ≡ parts.old.processes }
{
    let byte = parts.console.next();
    parts.cpu.set_byte(ByteRegister::Al, byte.unwrap_or(0));
    parts.return_from_interrupt();
    parts.cpu.flags.zero = byte.is_none();
    parts.count();
}

/// 06h: with DL = FFh, sets AL and ZF as `poll_character` does (AL 0 and ZF set if no input is left) and returns None;
/// otherwise writes DL to the console as 02h does, AX stays, and it stops with `Memory` where 02h does.
#[tactic(auto, unfolding(crate::specs::Characters::direct_character))]
pub(crate) fn direct_character(parts: &mut Parts) -> Option<Stop>
    ensures answer { OrMemory parts.old (direct_character parts.old) result parts.new }
    ensures program { parts.new.processes ≡ parts.old.processes }
{
    if parts.cpu.byte(ByteRegister::Dl) == 0xFF {
        poll_character(parts);
        None
    } else {
        write_character(parts)
    }
}

/// What function 0Bh returns in AL: FFh if console input is left, else 0.
fn status(parts: &Parts) -> u8
    ensures { result ≡ input_status parts.now.console.input }
{
    if parts.console.left() == 0 { 0 } else { 0xFF }
}

/// 0Bh: AL becomes FFh if console input is left, else 0. No input is taken, and the machine never stops.
#[tactic(auto, unfolding(crate::specs::Characters::check_input))]
pub(crate) fn check_input(parts: &mut Parts) -> Option<Stop>
    ensures answer { OrMemory parts.old (check_input parts.old) result parts.new }
    ensures program { parts.new.processes ≡ parts.old.processes }
{
    let status = status(parts);
    parts.cpu.set_byte(ByteRegister::Al, status);
    parts.return_from_interrupt();
    parts.count();
    None
}
