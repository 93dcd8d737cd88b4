//! What `dm` prints on standard error.
ghost use Rattle.std.specs.Prelude.{◌≡◌, ◌++◌, List, ℕ, OnErr, OnOk, codes, decimal};
ghost use Rattle.std.specs.Io.KnownBytes.{Appends};
ghost use Rattle.dm_console.specs.writers.Out.{AppendsPart, HasFailed};
ghost use Rattle.dm_cli.specs.Faults.{fault_line};
ghost use Rattle.dm_cli.specs.Messages.{Prints, HasPrinted, Stream, stop_text};

use crate::fault::Fault;
use dm_console::writers::{Failed, write_all};
use dm_machine::{Out, Stop};
use itoa::Buffer;
use std::io;
use std::io::{ErrorKind, Write};

/// A standard writer over an `Out`, so that `write!` can print `clap`'s text.
#[derive(Drop)]
pub(crate) struct Messages<'a, E: Out> {
    out: &'a mut E,
}

impl<'a, E: Out> Messages<'a, E> {
    /// A writer over `out`.
    pub(crate) fn new(out: &'a mut E) -> Messages<'a, E> {
        Messages { out }
    }
}

impl<E: Out> Write for Messages<'_, E> {
    fn write(&mut self, buf: &[u8]) -> io::Result<usize> {
        match self.out.write(buf) {
            Ok(count) => Ok(count),
            Err(_) => Err(io::Error::from(ErrorKind::Other)),
        }
    }

    fn flush(&mut self) -> io::Result<()> {
        match self.out.flush() {
            Ok(()) => Ok(()),
            Err(_) => Err(io::Error::from(ErrorKind::Other)),
        }
    }
}

/// The line about a stop, as `dm run` prints it; empty for an exit.
pub(crate) fn stop_line(stop: Stop) -> &'static [u8]
    ensures { result.now ≡ stop_text stop }
{
    match stop {
        Stop::Steps => b"stopped: steps\n",
        Stop::Exited(_) => b"",
        Stop::Halted => b"stopped: halted\n",
        Stop::Unlisted => b"stopped: unlisted\n",
        Stop::InputEnded => b"stopped: input ended\n",
        Stop::Destroyed => b"stopped: destroyed\n",
        Stop::Memory => b"stopped: memory\n",
    }
}

/// Prints three texts on `error`, one after the other. If a write fails, the rest of them is lost.
fn print_each<E: Out>(error: &mut E, first: &[u8], second: &[u8], third: &[u8])
    ensures { Prints (first.now ++ second.now ++ third.now) (record {
      bytes = E.taken error.old;
      failures = E.failures error.old;
    })
        (record { bytes = E.taken error.new; failures = E.failures error.new }) }
{
    if let Err(_) = write_all(error, first) {
        return;
    }
    if let Err(_) = write_all(error, second) {
        return;
    }
    print(error, third);
}

/// Prints on `error` `dm: line `, the number of a line of an assembly text, and `fault`, the rest of the message with
/// its line feed. If a write fails, the rest is lost.
fn print_line_fault<E: Out>(error: &mut E, line: usize, fault: &[u8])
    ensures { Prints (codes "dm: line " ++ decimal line ++ fault.now) (record {
      bytes = E.taken error.old;
      failures = E.failures error.old;
    })
        (record { bytes = E.taken error.new; failures = E.failures error.new }) }
{
    let mut digits = Buffer::new();
    print_each(error, b"dm: line ", digits.format(line).as_bytes(), fault);
}

/// Prints the line of a fault on `error`, which begins with `dm: `. If a write fails, the rest of the line is lost.
pub(crate) fn print_fault<E: Out>(fault: &Fault<'_>, error: &mut E)
    ensures { Prints (fault_line fault.now) (record { bytes = E.taken error.old; failures = E.failures error.old })
        (record { bytes = E.taken error.new; failures = E.failures error.new }) }
{
    match fault {
        Fault::CannotRead(name) => print_each(error, b"dm: cannot read ", name.as_bytes(), b"\n"),
        Fault::CannotWrite(name) => print_each(error, b"dm: cannot write ", name.as_bytes(), b"\n"),
        Fault::NotFound => print(error, b"dm: not found\n"),
        Fault::BadFormat => print(error, b"dm: bad format\n"),
        Fault::Short => print(error, b"dm: short\n"),
        Fault::TooLarge => print(error, b"dm: too large\n"),
        Fault::TailTooLong => print(error, b"dm: tail too long\n"),
        Fault::NameTooLong => print(error, b"dm: name too long\n"),
        Fault::NameTwice => print(error, b"dm: name twice\n"),
        Fault::InputTooLong => print(error, b"dm: input too long\n"),
        Fault::TooLong => print(error, b"dm: too long\n"),
        Fault::Syntax(line) => print_line_fault(error, *line, b": syntax\n"),
        Fault::Unknown(line) => print_line_fault(error, *line, b": unknown\n"),
        Fault::Range(line) => print_line_fault(error, *line, b": range\n"),
        Fault::Twice(line) => print_line_fault(error, *line, b": twice\n"),
        Fault::OutOfMemory => print(error, b"dm: out of memory\n"),
    }
}

/// Prints a text on `error`. If a write fails, the rest of the text is lost.
pub(crate) fn print<E: Out>(error: &mut E, text: &[u8])
    ensures { Prints text.now (record { bytes = E.taken error.old; failures = E.failures error.old })
        (record { bytes = E.taken error.new; failures = E.failures error.new }) }
{
    let _ = write_all(error, text);
}

/// Writes a text on `out` and flushes it, unless it is empty. An `Err` says that a write or the flush failed, after a
/// first part of the text or all of it.
fn write_now<E: Out>(out: &mut E, text: &[u8]) -> Result<(), Failed>
    ensures ok { OnOk result (Appends (E.taken out.old) (E.taken out.new) text.now) }
    ensures no_failure { OnOk result (E.failures out.new ≡ E.failures out.old) }
    ensures part { OnErr result (AppendsPart (E.taken out.old) (E.taken out.new) text.now) }
    ensures err { OnErr result (HasFailed (E.failures out.old) (E.failures out.new)) }
{
    if text.is_empty() {
        return Ok(());
    }
    write_all(out, text)?;
    out.flush()
}

/// Prints one more text on `error` at once, unless a write or a flush has failed before (`failed`); then the text is
/// lost. Returns whether one has failed now.
pub(crate) fn print_now<E: Out>(error: &mut E, failed: bool, text: &[u8]) -> bool
    ensures { (start : Stream) (before : List ℕ) → HasPrinted failed before start (record {
      bytes = E.taken error.old;
      failures = E.failures error.old;
    })
        → HasPrinted result (before ++ text.now) start (record {
          bytes = E.taken error.new;
          failures = E.failures error.new;
        }) }
{
    if failed {
        return true;
    }
    match write_now(error, text) {
        Ok(()) => false,
        Err(_) => true,
    }
}
