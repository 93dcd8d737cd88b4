//! `dm debug`: commands are read from standard input, a line at a time, and their answers written to standard output.
ghost use Rattle.std.specs.Prelude.{◌≡◌, ◌<◌, ◌≤◌, ◌⊎◌, ◌↔◌, Some, None, IfErr, IfOk, IsTrue, OnOk, length};
ghost use Rattle.std.specs.Io.BufRead.{ends_with_byte, strip_last};
ghost use Rattle.std.specs.Io.KnownBytes.{Appends};
ghost use Rattle.dm_console.specs.writers.Out.{AppendsPart, HasFailed};
ghost use Rattle.dm_cli.specs.Reads.{IsKept, ReadsFiles};
ghost use Rattle.dm_cli.specs.inner.Statuses.{end_of};
ghost use Rattle.dm_cli.specs.Debugging.{Debugs, IsConversation, IsQuit};
ghost use Rattle.dm_cli.specs.inner.Debugging.{ConversesWith, IsAnsweredBy, IsUnanswered, Reads};
ghost use Rattle.dm_cli.specs.Faults.{IsReadFault, IsWriteFault};

use crate::fault::Fault;
use crate::files::{MOST_BYTES, Storage, read_fault};
use crate::loading::loaded_for_debug;
use dm_console::writers::write_all;
use dm_debug::{CommandRefusal, Session};
use dm_machine::Out;
use dm_options::command_line::DebugOptions;
use std::alloc::Global;
use std::io::{BufRead, BufReader, Read};

/// The answer to a line that is no command, or clears a breakpoint that is not set.
const SYNTAX: &[u8] = b"? syntax\n";

/// The answer to a line that sets a seventeenth breakpoint.
const FULL: &[u8] = b"? full\n";

/// The name of the stream that commands are read from, as faults have it.
const INPUT: &str = "standard input";

/// The name of the stream that answers are written to, as faults have it.
const OUTPUT: &str = "standard output";

/// Whether a line ends the session: `Q` or `q` alone.
fn is_quit(line: &[u8]) -> bool
    ensures { IsTrue result ↔ IsQuit line.now }
{
    match line {
        [b'Q'] => true,
        [b'q'] => true,
        _ => false,
    }
}

/// Removes the line feed (0Ah) at the end of a line, and returns whether there was one; a line without one stays.
fn drop_end(line: &mut Vec<u8>) -> bool
    ensures had { result ≡ ends_with_byte 10 line.old.items }
    ensures dropped { line.new.items ≡ strip_last 10 line.old.items }
{
    let count = line.len();
    if count == 0 {
        return false;
    }
    if line[count - 1] != b'\n' {
        return false;
    }
    line.truncate(count - 1);
    true
}

/// Reads the next line, with its line feed if it has one, into `line`, in place of what it held. Returns how many bytes
/// the line has, at most `left`: 0 if the reader is at its end.
///
/// `CannotRead` if a read failed, `OutOfMemory`; `InputTooLong` if the line has more than `left` bytes, and then it is
/// in `line` all the same.
fn next_line<R: BufRead>(
    commands: &mut R,
    line: &mut Vec<u8>,
    left: usize,
) -> Result<usize, Fault<'static>>
    ensures line { IfOk result (λ n. (n ≤ left) × (n ≡ length line.new.items) ×
        Reads (R.remaining commands.old) (R.remaining commands.new) line.new.items) }
    ensures fault { IfErr result (λ e. IsReadFault e ⊎ (e ≡ Fault.OutOfMemory)
        ⊎ ((e ≡ Fault.InputTooLong) × (left < length line.new.items) ×
        Reads (R.remaining commands.old) (R.remaining commands.new) line.new.items)) }
{
    line.clear();
    match commands.read_until(b'\n', line) {
        Ok(count) if count <= left => Ok(count),
        Ok(_) => Err(Fault::InputTooLong),
        Err(error) => Err(read_fault(&error, INPUT)),
    }
}

/// Writes `told`, the answer to a line that has an error, to `out`. `CannotWrite` if a write failed; a first part may
/// have been written.
fn refuse<W: Out>(out: &mut W, told: &[u8]) -> Result<(), Fault<'static>>
    ensures ok { OnOk result (Appends (W.taken out.old) (W.taken out.new) told.now) }
    ensures no_failure { OnOk result (W.failures out.new ≡ W.failures out.old) }
    ensures err { IfErr result (λ e. IsWriteFault e × AppendsPart (W.taken out.old) (W.taken out.new) told.now ×
        HasFailed (W.failures out.old) (W.failures out.new)) }
{
    match write_all(out, told) {
        Ok(()) => Ok(()),
        Err(_) => Err(Fault::CannotWrite(OUTPUT)),
    }
}

/// Executes a line's command and writes what it prints to `out`, or writes which error the line has, and then the
/// session stays. `OutOfMemory` if an allocation failed, with nothing written and the command executed in part, wholly
/// or not at all; `CannotWrite` if a write failed, after the command and a first part of the answer or none.
fn answer<W: Out>(
    alloc: Global,
    session: &mut Session,
    line: &[u8],
    out: &mut W,
) -> Result<(), Fault<'static>>
    ensures ok { OnOk result (IsAnsweredBy session.old line.now session.new (W.taken out.old) (W.taken out.new)) }
    ensures no_failure { OnOk result (W.failures out.new ≡ W.failures out.old) }
    ensures err { IfErr result (IsUnanswered session.old line.now session.new (W.taken out.old) (W.taken out.new)
        (W.failures out.old) (W.failures out.new)) }
{
    match session.command(alloc, line, out) {
        Ok(()) => Ok(()),
        Err(CommandRefusal::Syntax) => refuse(out, SYNTAX),
        Err(CommandRefusal::Full) => refuse(out, FULL),
        Err(CommandRefusal::Memory) => Err(Fault::OutOfMemory),
        Err(CommandRefusal::Write) => Err(Fault::CannotWrite(OUTPUT)),
    }
}

/// Executes a line's command as `answer` does, and flushes the output. `OutOfMemory` if an allocation failed,
/// `CannotWrite` if a write or the flush did.
fn answer_at_once<W: Out>(
    alloc: Global,
    session: &mut Session,
    line: &[u8],
    out: &mut W,
) -> Result<(), Fault<'static>>
    ensures ok { OnOk result (IsAnsweredBy session.old line.now session.new (W.taken out.old) (W.taken out.new)) }
    ensures no_failure { OnOk result (W.failures out.new ≡ W.failures out.old) }
    ensures err { IfErr result (IsUnanswered session.old line.now session.new (W.taken out.old) (W.taken out.new)
        (W.failures out.old) (W.failures out.new)) }
{
    answer(alloc, session, line, out)?;
    match out.flush() {
        Ok(()) => Ok(()),
        Err(_) => Err(Fault::CannotWrite(OUTPUT)),
    }
}

/// Executes the commands of the lines, one after the other, up to the end of the input or a line `Q` or `q`, and writes
/// the answers to `out`. The lines, with their line feeds, may have 16 MiB in all; more is `InputTooLong` after the
/// answers so far. Any other fault ends the session too.
fn converse<R: BufRead, W: Out>(
    alloc: Global,
    session: &mut Session,
    commands: &mut R,
    out: &mut W,
) -> Result<(), Fault<'static>>
    ensures ok { OnOk result (IsConversation 16777216 (R.remaining commands.old) session.old session.new
        (W.taken out.old) (W.taken out.new) (W.failures out.old) (W.failures out.new) None) }
    ensures err { IfErr result (λ e. IsConversation 16777216 (R.remaining commands.old) session.old session.new
        (W.taken out.old) (W.taken out.new) (W.failures out.old) (W.failures out.new) (Some e)) }
{
    let mut line = Vec::new(alloc);
    let mut left = MOST_BYTES;
    let mut has_more = true;
    while has_more {
        let count = next_line(commands, &mut line, left)?;
        has_more = drop_end(&mut line);
        let text = line.as_slice();
        if count == 0 || is_quit(text) {
            return Ok(());
        }
        answer_at_once(alloc, session, text, out)?;
        left -= count;
    }
    Ok(())
}

/// Executes the commands that are read from `commands` through a buffer, as `converse` does. `OutOfMemory` if there is
/// no memory for the buffer.
fn converse_with<I: Read + Drop, W: Out>(
    alloc: Global,
    session: &mut Session,
    commands: I,
    out: &mut W,
) -> Result<(), Fault<'static>>
    ensures { ConversesWith (I.remaining commands) session.old session.new (W.taken out.old) (W.taken
        out.new) (W.failures out.old) (W.failures out.new) (end_of result) }
{
    let Ok(mut commands) = BufReader::new(alloc, commands.take(MOST_BYTES as u64 + 1)) else {
        return Err(Fault::OutOfMemory);
    };
    converse(alloc, session, &mut commands, out)
}

/// `dm debug`: loads the first file, executes the commands as they are read, and writes the answers to `out`. The fault
/// is the first one of the start, or the one that ended the session; it is not printed yet.
pub(crate) fn debug<'a, F: Storage, I: Read + Drop, W: Out>(
    alloc: Global,
    storage: &mut F,
    options: &DebugOptions<'a>,
    commands: I,
    out: &mut W,
) -> Result<(), Fault<'a>>
    ensures does { Debugs (F.contents storage.old) (I.remaining commands) options.now (W.taken out.old) (W.taken
        out.new) (W.failures out.old) (W.failures out.new) (end_of result) }
    ensures reads { ReadsFiles (F.unread storage.old) (F.unread storage.new) (end_of result) }
    ensures kept { IsKept (F.contents storage.old) (F.contents storage.new) (F.same storage.old) (F.same
        storage.new) (F.saved storage.old) (F.saved storage.new) (F.failures storage.old) (F.failures
        storage.new) (F.found_same storage.old) (F.found_same storage.new) }
{
    let machine = loaded_for_debug(alloc, storage, options)?;
    let mut session = Session::new(machine);
    converse_with(alloc, &mut session, commands, out)
}
