//! The report of `dm check` in either form. Each function appends its text to `out`; an `Err` is a failed allocation.

ghost use Rattle.std.specs.Prelude.{◌≡◌, ◌++◌, OnOk};
ghost use Rattle.dm_json.specs.Forms.{end_in, report_form, found_in, lines_in, processes_in, summary_in};

use crate::objects::{put_end_object, put_found_object, put_summary_objects};
use crate::processes::put_process_objects;
use dm_cpu::Cpu;
use dm_findings::processes::Process;
use dm_findings::{Found, Listed, Report};
use dm_reports::{put_found, put_processes, put_stop, put_summary};
use dm_services::state::Stop;
use dm_space::Space;
use std::alloc::{AllocError, Global};

/// How a report is written.
#[derive(Clone, Copy, Debug, PartialEq, Eq)]
pub enum Format {
    /// As a text to be read.
    Text,
    /// As objects of JSON (RFC 8259), one a line.
    Json,
}

/// The format of a report: JSON if it is asked for, otherwise a text.
pub fn format_of(json: bool) -> Format
    ensures { result ≡ report_form json }
{
    if json { Format::Json } else { Format::Text }
}

/// Appends the line of a finding.
fn put_found_in(
    out: &mut Vec<u8>,
    alloc: Global,
    form: Format,
    found: &Found,
) -> Result<(), AllocError>
    ensures { OnOk result (out.new.items ≡ out.old.items ++ found_in form found.now) }
{
    match form {
        Format::Text => put_found(out, found),
        Format::Json => put_found_object(out, alloc, found),
    }
}

/// Appends a line for each of these findings, in their order.
///
/// # Errors
///
/// `AllocError` if an allocation fails.
pub fn put_lines_in(
    out: &mut Vec<u8>,
    alloc: Global,
    form: Format,
    lines: &[Listed],
) -> Result<(), AllocError>
    ensures { OnOk result (out.new.items ≡ out.old.items ++ lines_in form lines.now) }
{
    for line in lines {
        put_found_in(out, alloc, form, &line.found)?;
    }
    Ok(())
}

/// Appends what follows the lines of the findings that a report lists: the lines about further occurrences, about what
/// is left out, and of all errors and notes.
///
/// # Errors
///
/// `AllocError` if an allocation fails.
pub fn put_summary_in(
    out: &mut Vec<u8>,
    alloc: Global,
    form: Format,
    report: &Report,
) -> Result<(), AllocError>
    ensures { OnOk result (out.new.items ≡ out.old.items ++ summary_in form report.now) }
{
    match form {
        Format::Text => put_summary(out, report),
        Format::Json => put_summary_objects(out, alloc, report),
    }
}

/// Appends the lines about the processes of a run, in the order of their starts; nothing if there was one process
/// alone.
///
/// # Errors
///
/// `AllocError` if an allocation fails.
pub fn put_processes_in(
    out: &mut Vec<u8>,
    form: Format,
    processes: &[Process],
) -> Result<(), AllocError>
    ensures { OnOk result (out.new.items ≡ out.old.items ++ processes_in form processes.now) }
{
    match form {
        Format::Text => put_processes(out, processes),
        Format::Json => put_process_objects(out, processes),
    }
}

/// Appends the line about the end of a run, by the registers and the memory then: where and why it stopped; for an exit
/// of the program nothing in a text, and the exit code in JSON.
///
/// # Errors
///
/// `AllocError` if an allocation fails.
pub fn put_end_in(
    out: &mut Vec<u8>,
    alloc: Global,
    form: Format,
    stop: Stop,
    cpu: &Cpu,
    space: &Space,
) -> Result<(), AllocError>
    ensures { OnOk result (out.new.items ≡ out.old.items ++ end_in form stop space.now.memory cpu.now) }
{
    match form {
        Format::Text => put_stop(out, stop, cpu, space),
        Format::Json => put_end_object(out, alloc, stop, cpu, space),
    }
}
