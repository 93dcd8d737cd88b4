//! The program `dm`: its commands, with the printing of faults and the exit statuses.
ghost use Rattle.std.specs.Prelude.{◌≡◌, ◌⊎◌, map};
ghost use Rattle.dm_cli.specs.Checking.{check_status};
ghost use Rattle.dm_cli.specs.Faults.{fault_line};
ghost use Rattle.dm_cli.specs.Messages.{Prints, Reports, outcome_text};
ghost use Rattle.dm_cli.specs.Program.{Does, Runs};
ghost use Rattle.dm_cli.specs.Reads.{IsKept, ReadsFiles, TellsOfNoFile, fault_if};
ghost use Rattle.dm_cli.specs.Statuses.{status_after, exit_status_of, stop_status};
ghost use Rattle.dm_cli.specs.inner.Program.{RunsMachine};
ghost use Rattle.dm_cli.specs.inner.Statuses.{end_of};
ghost use Rattle.dm_services.specs.state.State.{HasProgram};

use crate::assembling::{asm, disasm};
use crate::checking::check;
use crate::debugging::debug;
use crate::fault::Fault;
use crate::files::Storage;
use crate::loading::loaded;
use crate::messages::{Messages, print, print_fault, stop_line};
use crate::output::run_program;
use crate::serving::gdb;
use dm_machine::{Machine, Out, Stop};
use dm_options::command_line::{MachineOptions, Options, OptionsError};
use dm_options::{not_unicode, options};
use std::alloc::Global;
use std::convert::AsStr;
use std::io::{Read, Write};

/// The exit status at a fault.
pub(crate) const FAULT: u8 = 126;

/// The exit status of a run that stopped before the program ended.
const STOPPED: u8 = 125;

/// The exit status for a wrong command line or a call for help.
const USAGE: u8 = 2;

/// Runs a machine for at most `steps` steps, and writes its whole output to `out` at the end, whatever the stop.
/// Returns the stop. `CannotWrite` if a write failed, after the run and a first part of the output or none.
fn run_machine<W: Out>(
    machine: &mut Machine,
    steps: u64,
    out: &mut W,
) -> Result<Stop, Fault<'static>>
    requires { HasProgram machine.old }
    ensures does { RunsMachine machine.old steps (W.taken out.old) (W.taken out.new) (W.failures out.old) (W.failures
        out.new) result }
    ensures reads { TellsOfNoFile (fault_if result) }
{
    match run_program(machine, steps, out) {
        Ok(stop) => Ok(stop),
        Err(_) => Err(Fault::CannotWrite("standard output")),
    }
}

/// `dm run`: runs the first file, and writes its output to `out` at the end. Returns the stop, or the fault, which is
/// not printed yet.
fn run<'a, F: Storage, I: Read + Drop, W: Out>(
    alloc: Global,
    storage: &mut F,
    options: &MachineOptions<'a>,
    input: I,
    out: &mut W,
) -> Result<Stop, Fault<'a>>
    ensures does { Runs (F.contents storage.old) (I.remaining input) options.now (W.taken out.old) (W.taken
        out.new) (W.failures out.old) (W.failures out.new) result }
    ensures reads { ReadsFiles (F.unread storage.old) (F.unread storage.new) (fault_if result) }
    ensures kept { IsKept (F.contents storage.old) (F.contents storage.new) (F.same storage.old) (F.same
        storage.new) (F.saved storage.old) (F.saved storage.new) (F.failures storage.old) (F.failures
        storage.new) (F.found_same storage.old) (F.found_same storage.new) }
{
    let mut machine = loaded(alloc, storage, options, input)?;
    run_machine(&mut machine, options.steps, out)
}

/// The exit status of a run that ended with this stop: the program's exit code, or 125 for any stop but `Exited`.
pub(crate) fn status_of_stop(stop: Stop) -> u8
    ensures { result ≡ stop_status stop }
{
    match stop {
        Stop::Exited(code) => code,
        _ => STOPPED,
    }
}

/// Prints a fault on `error`, and returns its exit status, 126, also if it cannot be printed.
fn report_fault<E: Out>(fault: &Fault<'_>, error: &mut E) -> u8
    ensures status { result ≡ 126 }
    ensures line { Prints (fault_line fault.now) (record { bytes = E.taken error.old; failures = E.failures error.old })
        (record { bytes = E.taken error.new; failures = E.failures error.new }) }
{
    print_fault(fault, error);
    FAULT
}

/// Prints on `error` how a `dm run` ended, its stop (nothing for an exit) or its fault, and returns the exit status:
/// the program's exit code, 125 for another stop, 126 for a fault. A failed write does not change it.
fn report<E: Out>(outcome: Result<Stop, Fault<'_>>, error: &mut E) -> u8
    ensures status { result ≡ exit_status_of outcome.entry }
    ensures line { Prints (outcome_text outcome.entry) (record {
      bytes = E.taken error.old;
      failures = E.failures error.old;
    })
        (record { bytes = E.taken error.new; failures = E.failures error.new }) }
{
    match outcome {
        Ok(stop) => {
            print(error, stop_line(stop));
            status_of_stop(stop)
        }
        Err(fault) => report_fault(&fault, error),
    }
}

/// Prints the fault of a `dm check` on `error`, if there is one that is not printed yet, and returns the exit status:
/// that of the checked run, or 126 at a fault, also if the fault cannot be printed.
fn concluded<E: Out>(outcome: Result<u8, Fault<'_>>, error: &mut E) -> u8
    ensures status { result ≡ check_status outcome.entry }
    ensures line { Reports (record { bytes = E.taken error.old; failures = E.failures error.old })
        (record { bytes = E.taken error.new; failures = E.failures error.new }) (fault_if outcome.entry) }
{
    match outcome {
        Ok(status) => status,
        Err(fault) => report_fault(&fault, error),
    }
}

/// Prints the fault of a `dm debug`, `dm gdb`, `dm asm` or `dm disasm` on `error`, if there is one, and returns the
/// exit status: 0, or 126 at a fault, also if the fault cannot be printed.
fn told<E: Out>(outcome: Result<(), Fault<'_>>, error: &mut E) -> u8
    ensures status { result ≡ status_after (end_of outcome.entry) }
    ensures line { Reports (record { bytes = E.taken error.old; failures = E.failures error.old })
        (record { bytes = E.taken error.new; failures = E.failures error.new }) (end_of outcome.entry) }
{
    match outcome {
        Ok(()) => 0,
        Err(fault) => report_fault(&fault, error),
    }
}

/// The program `dm` over what it is given: the words of its command line, of which the first is the program's name,
/// where files are opened and written, standard input, standard output and standard error. It returns the exit status.
///
/// `dm run` exits with the program's code. At another stop it reports `stopped: ` and the stop, with status 125, and at
/// a fault `dm: ` and the fault, with status 126. It finds them in this order: of each file in turn `cannot read NAME`,
/// `input too long` (over 16 MiB), `name too long` (over 64 bytes) and `name twice`; of standard input the first two;
/// `too large` (over 512 pages or 15360 KiB), `tail too long` (over 126 bytes), `not found`, `bad format`, `short`;
/// `cannot write standard output`.
///
/// `dm check` runs the program as `dm run` does, prints a report of its errors in the use of memory, and notes, on
/// standard error, each line when it is found, then the line of `stopped: ` unless the program has ended, and exits
/// with status 124 if there is an error, whatever the stop; otherwise with the status of `dm run`. Its faults are those
/// of `dm run`. If standard output cannot be written, it prints all of this and then the fault, and the status is 124
/// if there is an error, otherwise 126. It is 126, too, if a part of the report cannot be written.
///
/// `dm debug` exits with status 0, also where the program has ended, or reports a fault with status 126, in the same
/// order: the console's input is the file of `--input`, and none without it. The commands are read after `short`, a
/// line at a time, and each is done before the next is read; where they have more than 16 MiB, `input too long`
/// comes after the answers so far.
///
/// `dm gdb` speaks the remote serial protocol of GDB on standard input and output. It exits with status 0 at the end of
/// the input, or once GDB has detached or killed the program; its faults are those of `dm debug`, in the same order.
/// Each time that GDB lets the program go on, it makes at most the steps of `--steps`, and is then told of a signal
/// SIGALRM.
///
/// `dm asm` and `dm disasm` exit with status 0, or report a fault with status 126: `cannot read NAME` or
/// `input too long` of the file that they read, then `too long` (over 65,278 bytes of program) or `line N: ` and
/// `syntax`, `unknown`, `range` or `twice`, then `cannot write NAME`. A text with an error leaves the output file as it
/// was, and no file is written over its own text.
///
/// `out of memory` is the fault if an allocation fails; one for the program's output is the stop `memory` instead. For
/// a wrong command line or a call for help `clap`'s text is printed, with status 2.
pub fn dm_main<S: AsStr, F: Storage, I: Read + Drop, W: Out, E: Out>(
    alloc: Global,
    storage: &mut F,
    words: &[S],
    input: I,
    out: &mut W,
    error: &mut E,
) -> u8
    ensures { Does
        (record {
          files = F.contents storage.old;
          same = F.same storage.old;
          typed = I.remaining input;
          output = W.taken out.old;
          failures = W.failures out.old;
          saved = F.saved storage.old;
          failed_saves = F.failures storage.old;
          unread = F.unread storage.old;
          found_same = F.found_same storage.old;
          messages = record { bytes = E.taken error.old; failures = E.failures error.old };
        })
        (map S.text words.now)
        (record {
          output = W.taken out.new;
          failures = W.failures out.new;
          saved = F.saved storage.new;
          failed_saves = F.failures storage.new;
          unread = F.unread storage.new;
          found_same = F.found_same storage.new;
          messages = record { bytes = E.taken error.new; failures = E.failures error.new };
          status = result;
        }) }
{
    match options(alloc, words) {
        Ok(Options::Run(options)) => report(run(alloc, storage, &options, input, out), error),
        Ok(Options::Check(options)) => {
            concluded(check(alloc, storage, &options, input, out, error), error)
        }
        Ok(Options::Debug(options)) => told(debug(alloc, storage, &options, input, out), error),
        Ok(Options::Gdb(options)) => told(gdb(alloc, storage, &options, input, out), error),
        Ok(Options::Asm(options)) => told(asm(alloc, storage, &options), error),
        Ok(Options::Disasm(path)) => told(disasm(alloc, storage, path, out), error),
        Err(OptionsError::Usage(text)) => {
            let _ = write!(Messages::new(error), "{text}");
            USAGE
        }
        Err(OptionsError::Memory) => report_fault(&Fault::OutOfMemory, error),
    }
}

/// Prints on `error` that a word of the command line is not UTF-8, and returns the status of a wrong line, 2; if an
/// allocation failed, prints `dm: out of memory` and returns 126.
pub fn refuse_words<E: Out>(alloc: Global, error: &mut E) -> u8
    ensures status { (result ≡ 2) ⊎ (result ≡ 126) }
    ensures line { result ≡ 126 → Prints (fault_line Fault.OutOfMemory) (record {
      bytes = E.taken error.old;
      failures = E.failures error.old;
    })
        (record { bytes = E.taken error.new; failures = E.failures error.new }) }
{
    match not_unicode(alloc) {
        Ok(text) => {
            let _ = write!(Messages::new(error), "{text}");
            USAGE
        }
        Err(_) => report_fault(&Fault::OutOfMemory, error),
    }
}
