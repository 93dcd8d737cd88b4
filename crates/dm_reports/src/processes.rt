//! The lines of `dm check` about the processes of a run. Each function `put_..` appends its text to `out`; an `Err` is
//! a failed allocation.

ghost use Rattle.std.specs.Prelude.{◌≡◌, ◌++◌, OnOk};
ghost use Rattle.std.specs.List.{flat_map};
ghost use Rattle.dm_reports.specs.Processes.{process_line, processes_text, steps_text};

use crate::texts::put_number;
use dm_findings::processes::Process;
use dm_views::word_digits;
use std::alloc::AllocError;

/// Appends the steps of a process: the first and the last, or the first alone if it has not ended.
fn put_steps(out: &mut Vec<u8>, first: u64, last: Option<u64>) -> Result<(), AllocError>
    ensures { OnOk result (out.new.items ≡ out.old.items ++ steps_text first last) }
{
    match last {
        None => {
            out.extend_from_slice(b", from step ")?;
            put_number(out, first)
        }
        Some(last) => {
            out.extend_from_slice(b", steps ")?;
            put_number(out, first)?;
            out.extend_from_slice(b" to ")?;
            put_number(out, last)
        }
    }
}

/// Appends the line about a process.
#[tactic(auto, unfolding(crate::specs::Processes::process_line))]
fn put_process(out: &mut Vec<u8>, process: &Process) -> Result<(), AllocError>
    ensures { OnOk result (out.new.items ≡ out.old.items ++ process_line process.now) }
{
    out.extend_from_slice(b"process ")?;
    out.extend_from_slice(&word_digits(process.prefix))?;
    out.extend_from_slice(b" ")?;
    out.extend_from_slice(process.name())?;
    out.extend_from_slice(b": parent ")?;
    out.extend_from_slice(&word_digits(process.parent))?;
    put_steps(out, process.first, process.last)?;
    out.extend_from_slice(b"\n")
}

/// Appends a line for each of these processes, in their order.
fn put_each(out: &mut Vec<u8>, processes: &[Process]) -> Result<(), AllocError>
    ensures { OnOk result (out.new.items ≡ out.old.items ++ flat_map process_line processes.now) }
{
    for process in processes {
        put_process(out, process)?;
    }
    Ok(())
}

/// Appends a line for each of the processes of a run, in their order; nothing if there was one process alone.
///
/// # Errors
///
/// `AllocError` if an allocation fails.
pub fn put_processes(out: &mut Vec<u8>, processes: &[Process]) -> Result<(), AllocError>
    ensures { OnOk result (out.new.items ≡ out.old.items ++ processes_text processes.now) }
{
    if 1 < processes.len() {
        return put_each(out, processes);
    }
    Ok(())
}
