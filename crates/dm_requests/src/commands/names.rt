//! The names of debugger commands: one letter or two, in either case.

ghost use Rattle.std.specs.Prelude.{◌≡◌};
ghost use Rattle.dm_requests.specs.commands.Names.{uppercase, letter_name, pair_name, command_word};

/// A debugger command, known by its name alone: what follows the name is in `Command`.
#[derive(Clone, Copy, Debug, PartialEq, Eq)]
pub(crate) enum CommandName {
    Registers,
    Unassemble,
    Dump,
    Arena,
    Pages,
    Extended,
    Go,
    Trace,
    Break,
    Clear,
    Breakpoints,
    Enter,
    Output,
}

/// A letter a to z in upper case; any other byte as it is.
fn upper_byte(byte: u8) -> u8
    ensures { result ≡ uppercase byte }
{
    if b'a' <= byte && byte <= b'z' {
        byte - 32
    } else {
        byte
    }
}

/// The command with a name of one letter, in upper case; None if there is none.
fn of_letter(letter: u8) -> Option<CommandName>
    ensures { result ≡ letter_name letter }
{
    match letter {
        b'B' => Some(CommandName::Break),
        b'D' => Some(CommandName::Dump),
        b'E' => Some(CommandName::Enter),
        b'G' => Some(CommandName::Go),
        b'M' => Some(CommandName::Arena),
        b'O' => Some(CommandName::Output),
        b'P' => Some(CommandName::Pages),
        b'R' => Some(CommandName::Registers),
        b'T' => Some(CommandName::Trace),
        b'U' => Some(CommandName::Unassemble),
        b'X' => Some(CommandName::Extended),
        _ => None,
    }
}

/// The command with a name of two letters, in upper case: BC or BL. None for any other.
fn of_letters(first: u8, second: u8) -> Option<CommandName>
    ensures { result ≡ pair_name first second }
{
    if first != b'B' {
        return None;
    }
    match second {
        b'C' => Some(CommandName::Clear),
        b'L' => Some(CommandName::Breakpoints),
        _ => None,
    }
}

/// The command that a word names, in either case; None if it names none.
pub(crate) fn read_name(word: &[u8]) -> Option<CommandName>
    ensures { result ≡ command_word word.now }
{
    match word {
        [letter] => of_letter(upper_byte(*letter)),
        [first, second] => of_letters(upper_byte(*first), upper_byte(*second)),
        _ => None,
    }
}
