//! Reading a typed line as a debugger command.

ghost use Rattle.std.specs.Prelude.{◌≡◌};
ghost use Rattle.dm_requests.specs.commands.Commands.{alone, with_one, with_two, command_of};

use crate::commands::command::Command;
use crate::commands::names::{CommandName, read_name};
use crate::commands::numbers::{read_address, read_bytes, read_number, read_up_to};
use crate::commands::words::next_word;

/// The largest number of instructions that one U lists, and of steps that one T makes.
const MOST_LINES: u32 = 0x1000;

/// The largest number of bytes that one D lists.
const MOST_BYTES: u32 = 0x1_0000;

/// The command of a line with a name and nothing after it, with defaults for the numbers of G and T; None if the name
/// needs more.
fn alone(name: CommandName) -> Option<Command>
    ensures { result ≡ alone name }
{
    match name {
        CommandName::Registers => Some(Command::Registers),
        CommandName::Arena => Some(Command::Arena),
        CommandName::Pages => Some(Command::Pages),
        CommandName::Extended => Some(Command::Extended),
        CommandName::Go => Some(Command::Go(0xFF_FFFF)),
        CommandName::Trace => Some(Command::Trace(1)),
        CommandName::Breakpoints => Some(Command::Breakpoints),
        CommandName::Output => Some(Command::Output),
        _ => None,
    }
}

/// The command of a line with a name and one word after it, with a default for the count of U and D; None if there is
/// no such command.
fn with_one(name: CommandName, word: &[u8]) -> Option<Command>
    ensures { result ≡ with_one name word.now }
{
    match name {
        CommandName::Unassemble => Some(Command::Unassemble(read_address(word)?, 8)),
        CommandName::Dump => Some(Command::Dump(read_address(word)?, 0x80)),
        CommandName::Go => Some(Command::Go(read_number(word)?)),
        CommandName::Trace => Some(Command::Trace(read_up_to(word, MOST_LINES)? as u16)),
        CommandName::Break => Some(Command::Break(read_address(word)?)),
        CommandName::Clear => Some(Command::Clear(read_address(word)?)),
        _ => None,
    }
}

/// The command of a line with a name (U, D or E), an address and one more word; None if there is no such command.
fn with_two(name: CommandName, first: &[u8], second: &[u8]) -> Option<Command>
    ensures { result ≡ with_two name first.now second.now }
{
    let address = read_address(first)?;
    match name {
        CommandName::Unassemble => {
            let count = read_up_to(second, MOST_LINES)?;
            Some(Command::Unassemble(address, count as u16))
        }
        CommandName::Dump => {
            let length = read_up_to(second, MOST_BYTES)?;
            Some(Command::Dump(address, length))
        }
        CommandName::Enter => {
            let bytes = read_bytes(second)?;
            Some(Command::Enter(address, bytes))
        }
        _ => None,
    }
}

/// The command that a line asks for; None if it is no command. `line` has no line end.
///
/// Words are separated by spaces, of which there may be several, at the ends too. Letters are in either case, and
/// numbers are hexadecimal with one to eight digits. Segments and offsets are at most FFFFh, listed instructions and
/// traced steps at most 1000h, listed bytes at most 10000h. The bytes of E are one word of 1 to 64 pairs of digits. A
/// number that is left out is 8 for U, 80h for D, FFFFFFh for G and 1 for T.
pub fn read_command(line: &[u8]) -> Option<Command>
    ensures { result ≡ command_of line.now }
{
    let (word, rest) = next_word(line)?;
    let name = read_name(word)?;
    let Some((first, rest)) = next_word(rest) else {
        return alone(name);
    };
    let Some((second, rest)) = next_word(rest) else {
        return with_one(name, first);
    };
    match next_word(rest) {
        Some(_) => None,
        None => with_two(name, first, second),
    }
}
