//! `dm check`: a run with a report of its findings on standard error, as a text or as JSON, whatever becomes of
//! standard output. The line of a finding is printed when it is found; the summary, the lines about processes, if there
//! was more than one, and the line about the end of the run, which is empty in a text for an exit, follow at the end.
ghost use Rattle.std.specs.Prelude.{◌≡◌, ◌++◌, ◌≤◌, [], List, ℕ, IfOk, OnErr, OnOk, drop, length};
ghost use Rattle.dm_json.specs.Forms.{end_in, lines_in, processes_in, summary_in};
ghost use Rattle.dm_checker.specs.Checking.{IsUnderWay};
ghost use Rattle.dm_findings.specs.Report.{report_of};
ghost use Rattle.dm_cli.specs.Checking.{Checks, IsLost, checked_status, told_status, unwritten_status};
ghost use Rattle.dm_cli.specs.Messages.{HasPrinted, Stream};
ghost use Rattle.dm_cli.specs.Reads.{IsKept, ReadsFiles, TellsOfNoFile, fault_if};
ghost use Rattle.dm_cli.specs.inner.Checking.{ChecksRun, HasFollowed};
ghost use Rattle.dm_services.specs.state.State.{HasProgram, State};

use crate::commands::{FAULT, status_of_stop};
use crate::fault::Fault;
use crate::files::Storage;
use crate::loading::loaded;
use crate::messages::{print_fault, print_now};
use dm_checker::CheckedRun;
use dm_console::writers::write_all;
use dm_findings::Report;
use dm_findings::processes::Process;
use dm_json::{Format, format_of, put_end_in, put_lines_in, put_processes_in, put_summary_in};
use dm_machine::{Machine, Out, Stop};
use dm_options::command_line::CheckOptions;
use std::alloc::{AllocError, Global};
use std::io::Read;

/// The exit status of a checked run in which errors were found.
const ERRORS: u8 = 124;

/// Appends the summary of a report, the lines about processes, and the line about the stop of a machine, to `text`. An
/// `Err` is a failed allocation.
fn put_end(
    text: &mut Vec<u8>,
    alloc: Global,
    form: Format,
    report: &Report,
    processes: &[Process],
    stop: Stop,
    machine: &Machine,
) -> Result<(), AllocError>
    ensures { OnOk result (text.new.items ≡ text.old.items ++ summary_in form report.now
        ++ processes_in form processes.now ++ end_in form stop machine.now.memory machine.now.cpu) }
{
    put_summary_in(text, alloc, form, report)?;
    put_processes_in(text, form, processes)?;
    put_end_in(text, alloc, form, stop, &machine.cpu(), machine.space())
}

/// The exit status of a checked run: 124 if the report has an error, otherwise that of the stop.
fn checked_status(report: &Report, stop: Stop) -> u8
    ensures { result ≡ checked_status report.now stop }
{
    if report.errors() > 0 {
        return ERRORS;
    }
    status_of_stop(stop)
}

/// The exit status of a checked run whose output was not written whole: 124 if the report has an error, otherwise that
/// of a fault.
fn unwritten_status(report: &Report) -> u8
    ensures { result ≡ unwritten_status report.now }
{
    if 0 < report.errors() {
        return ERRORS;
    }
    FAULT
}

/// The exit status of a checked run; that of a fault where its report was not written whole (`failed`).
fn told_status(failed: bool, status: u8) -> u8
    ensures { result ≡ told_status failed status }
{
    if failed { FAULT } else { status }
}

/// Prints on `error` the lines of the findings that the report lists behind the first `count`, unless a write has
/// failed before (`failed`). Returns whether one has failed now. An `Err` is a failed allocation; then nothing is
/// printed.
fn print_new<E: Out>(
    alloc: Global,
    form: Format,
    report: &Report,
    count: usize,
    error: &mut E,
    failed: bool,
) -> Result<bool, AllocError>
    requires { count ≤ length report.now.listed }
    ensures ok { IfOk result (λ now. (start : Stream) (before : List ℕ) →
        HasPrinted failed before start (record { bytes = E.taken error.old; failures = E.failures error.old })
        → HasPrinted now (before ++ lines_in form (drop count report.now.listed)) start
        (record { bytes = E.taken error.new; failures = E.failures error.new })) }
    ensures err { OnErr result (error.new ≡ error.old) }
{
    let mut text = Vec::new(alloc);
    put_lines_in(&mut text, alloc, form, &report.listed()[count..])?;
    Ok(print_now(error, failed, text.as_slice()))
}

/// Makes the steps of a checked run, and prints the line of each finding that the report lists, as it is found, on
/// `error`. Returns why the run stopped, and whether a write or a flush has failed. An `Err` is a failed allocation,
/// after the lines of the findings of a first part of the run.
fn follow<E: Out>(
    alloc: Global,
    form: Format,
    run: &mut CheckedRun,
    machine: &mut Machine,
    error: &mut E,
) -> Result<(Stop, bool), AllocError>
    requires program { HasProgram machine.old }
    requires way { (s : State) × (n : ℕ) × IsUnderWay s n machine.old run.old }
    requires empty { run.old.report ≡ report_of [] }
    ensures ok { IfOk result (λ r. (s : State) (n : ℕ) → IsUnderWay s n machine.old run.old →
        HasFollowed s n form run.old r.0 machine.new run.new
        r.1 (record { bytes = E.taken error.old; failures = E.failures error.old }) (record {
          bytes = E.taken error.new;
          failures = E.failures error.new;
        })) }
    ensures err { OnErr result ((s : State) (n : ℕ) → IsUnderWay s n machine.old run.old → IsLost s n run.old.free form
        (record { bytes = E.taken error.old; failures = E.failures error.old }) (record {
          bytes = E.taken error.new;
          failures = E.failures error.new;
        })) }
{
    let mut count = 0;
    let mut failed = false;
    loop {
        let stop = run.go_on(alloc, machine)?;
        failed = print_new(alloc, form, run.report(), count, error, failed)?;
        if let Some(stop) = stop {
            return Ok((stop, failed));
        }
        count = run.report().listed().len();
    }
}

/// Runs a machine for at most `steps` steps under the checker, with findings about free memory or without (`free`), and
/// prints, in this form, the line of each finding that is listed on `error`, as it is found. Then it writes the output
/// to `out`, and prints the summary, the processes and the line about the stop. If a write of the output failed, after
/// a first part of it or none, it prints the fault after them. Returns the exit status, 126 if a part of the report
/// could not be written. `OutOfMemory` if an allocation failed, before anything is written to `out`; then lines of
/// findings may have been printed, but no summary.
fn check_machine<W: Out, E: Out>(
    alloc: Global,
    machine: &mut Machine,
    steps: u64,
    free: bool,
    form: Format,
    out: &mut W,
    error: &mut E,
) -> Result<u8, Fault<'static>>
    requires { HasProgram machine.old }
    ensures does { ChecksRun machine.old steps free form (W.taken out.old) (W.taken out.new) (W.failures
        out.old) (W.failures out.new)
        (record { bytes = E.taken error.old; failures = E.failures error.old }) (record {
          bytes = E.taken error.new;
          failures = E.failures error.new;
        }) result }
    ensures reads { TellsOfNoFile (fault_if result) }
{
    let Ok(mut run) = CheckedRun::new(alloc, machine, steps, free) else {
        return Err(Fault::OutOfMemory);
    };
    let Ok((stop, failed)) = follow(alloc, form, &mut run, machine, error) else {
        return Err(Fault::OutOfMemory);
    };
    let report = run.report();
    let mut text = Vec::new(alloc);
    let processes = run.processes();
    let Ok(()) = put_end(&mut text, alloc, form, report, processes, stop, machine) else {
        return Err(Fault::OutOfMemory);
    };
    let written = write_all(out, machine.output());
    let failed = print_now(error, failed, text.as_slice());
    match written {
        Ok(()) => Ok(told_status(failed, checked_status(report, stop))),
        Err(_) => {
            print_fault(&Fault::CannotWrite("standard output"), error);
            Ok(told_status(failed, unwritten_status(report)))
        }
    }
}

/// `dm check`: runs the first file under the checker, and prints the line of each finding that is listed on `error`, as
/// it is found. Then it writes the program's output to `out`, and prints the summary, the processes and the line about
/// the stop, and after them the fault of the output, if it was not written whole. Returns the exit status, or another
/// fault, which is not printed yet.
pub(crate) fn check<'a, F: Storage, I: Read + Drop, W: Out, E: Out>(
    alloc: Global,
    storage: &mut F,
    options: &CheckOptions<'a>,
    input: I,
    out: &mut W,
    error: &mut E,
) -> Result<u8, Fault<'a>>
    ensures does { Checks (F.contents storage.old) (I.remaining input) options.now (W.taken out.old) (W.taken
        out.new) (W.failures out.old) (W.failures out.new)
        (record { bytes = E.taken error.old; failures = E.failures error.old }) (record {
          bytes = E.taken error.new;
          failures = E.failures error.new;
        }) result }
    ensures reads { ReadsFiles (F.unread storage.old) (F.unread storage.new) (fault_if result) }
    ensures kept { IsKept (F.contents storage.old) (F.contents storage.new) (F.same storage.old) (F.same
        storage.new) (F.saved storage.old) (F.saved storage.new) (F.failures storage.old) (F.failures
        storage.new) (F.found_same storage.old) (F.found_same storage.new) }
{
    let steps = options.machine.steps;
    let mut machine = loaded(alloc, storage, &options.machine, input)?;
    check_machine(
        alloc,
        &mut machine,
        steps,
        !options.no_free,
        format_of(options.json),
        out,
        error,
    )
}
