//! The lines of `dm check --json` about the processes of a run. Each function `put_..` appends its text to `out`; an
//! `Err` is a failed allocation.

ghost use Rattle.std.specs.Prelude.{◌≡◌, ◌++◌, OnOk};
ghost use Rattle.std.specs.List.{flat_map};
ghost use Rattle.dm_json.specs.Processes.{last_member, process_object, process_objects};

use crate::members::{put_number_member, put_string_member};
use crate::objects::put_opening;
use dm_findings::processes::Process;
use std::alloc::AllocError;

/// Appends the last step of a process, if it has ended.
fn put_last_member(out: &mut Vec<u8>, last: Option<u64>) -> Result<(), AllocError>
    ensures { OnOk result (out.new.items ≡ out.old.items ++ last_member last) }
{
    match last {
        None => Ok(()),
        Some(last) => put_number_member(out, b"last", last),
    }
}

/// Appends the line about a process.
#[tactic(auto, unfolding(crate::specs::Processes::process_object))]
fn put_process_object(out: &mut Vec<u8>, process: &Process) -> Result<(), AllocError>
    ensures { OnOk result (out.new.items ≡ out.old.items ++ process_object process.now) }
{
    put_opening(out, b"process")?;
    put_number_member(out, b"process", process.prefix as u64)?;
    put_string_member(out, b"name", process.name())?;
    put_number_member(out, b"parent", process.parent as u64)?;
    put_number_member(out, b"first", process.first)?;
    put_last_member(out, process.last)?;
    out.extend_from_slice(b"}\n")
}

/// Appends a line for each of these processes, in their order.
fn put_each(out: &mut Vec<u8>, processes: &[Process]) -> Result<(), AllocError>
    ensures { OnOk result (out.new.items ≡ out.old.items ++ flat_map process_object processes.now) }
{
    for process in processes {
        put_process_object(out, process)?;
    }
    Ok(())
}

/// Appends a line for each of the processes of a run, in their order; nothing if there was one process alone.
pub(crate) fn put_process_objects(
    out: &mut Vec<u8>,
    processes: &[Process],
) -> Result<(), AllocError>
    ensures { OnOk result (out.new.items ≡ out.old.items ++ process_objects processes.now) }
{
    if 1 < processes.len() {
        return put_each(out, processes);
    }
    Ok(())
}
