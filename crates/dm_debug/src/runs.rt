//! The commands of a debugger that change the machine: G, T and E.

ghost use Rattle.std.specs.Prelude.{◌≡◌, ◌≤◌, ◌++◌, List, ℕ, Option, OnOk, OnErr};
ghost use Rattle.dm_space.specs.Buffers.{with_bytes};
ghost use Rattle.dm_services.specs.declared.state.stop.Stop.{Stop};
ghost use Rattle.dm_services.specs.state.State.{HasProgram};
ghost use Rattle.dm_machine.specs.Until.{RunsUntil};
ghost use Rattle.dm_debug.specs.Runs.{stop_text, stop_line, GoesTo, Traces, IsTrace, TracesPart};

use crate::listings::put_machine;
use dm_machine::{Breakpoint, Machine, Stop};
use dm_views::byte_digits;
use std::alloc::AllocError;

/// The word that G and T print for the end of a run: for None, a breakpoint, `break`; for an exit `exited ` without the
/// code.
fn word_of(stop: Option<Stop>) -> &'static [u8]
    ensures { result.now ≡ stop_text stop }
{
    match stop {
        None => b"break",
        Some(Stop::Steps) => b"steps",
        Some(Stop::Exited(_)) => b"exited ",
        Some(Stop::Halted) => b"halted",
        Some(Stop::Unlisted) => b"unlisted",
        Some(Stop::InputEnded) => b"input ended",
        Some(Stop::Destroyed) => b"destroyed",
        Some(Stop::Memory) => b"memory",
    }
}

/// Appends the line that says why a run ended, with the exit code in hexadecimal. None is a breakpoint. An `Err` is a
/// failed allocation.
fn put_stop(out: &mut Vec<u8>, stop: Option<Stop>) -> Result<(), AllocError>
    ensures { OnOk result (out.new.items ≡ out.old.items ++ stop_line stop) }
{
    out.extend_from_slice(word_of(stop))?;
    if let Some(Stop::Exited(code)) = stop {
        out.extend_from_slice(&byte_digits(code))?;
    }
    out.extend_from_slice(b"\n")
}

/// G: makes at most `n` steps, up to a breakpoint or a stop, as `Machine::run_until` does, and appends to `out` why the
/// run ended and the registers. An `Err` is a failed allocation after the run; a first part of the text may be in
/// `out`.
pub(crate) fn go(
    machine: &mut Machine,
    n: u32,
    points: &[Breakpoint],
    out: &mut Vec<u8>,
) -> Result<(), AllocError>
    requires { HasProgram machine.old }
    ensures ok { OnOk result ((text : List ℕ) × (out.new.items ≡ out.old.items ++ text) ×
        GoesTo machine.old n points.now text machine.new) }
    ensures err { OnErr result ((stop : Option Stop) × RunsUntil machine.old n points.now stop machine.new) }
    ensures loaded { HasProgram machine.new }
{
    let stop = machine.run_until(n as u64, points);
    put_stop(out, stop)?;
    put_machine(out, machine)
}

/// T: makes at most `n` steps and appends the registers after each to `out`; if a step returns a stop, appends the line
/// of the stop instead and ends. Breakpoints do not count. An `Err` is a failed allocation; the steps made so far stay
/// made, and a first part of the text may be in `out`.
pub(crate) fn trace(machine: &mut Machine, n: u16, out: &mut Vec<u8>) -> Result<(), AllocError>
    requires { HasProgram machine.old }
    ensures ok { OnOk result ((text : List ℕ) × (out.new.items ≡ out.old.items ++ text) ×
        IsTrace machine.old n text machine.new) }
    ensures err { OnErr result (TracesPart machine.old n machine.new) }
    ensures loaded { HasProgram machine.new }
{
    for _ in 0..n {
        if let Some(stop) = machine.step() {
            return put_stop(out, Some(stop));
        }
        put_machine(out, machine)?;
    }
    Ok(())
}

/// E: writes the bytes to memory from segment:offset up; offsets wrap. Bytes for the ROM, or where there is no memory,
/// are lost. Nothing but memory changes.
pub(crate) fn enter(machine: &mut Machine, segment: u16, offset: u16, bytes: &[u8])
    requires { HasProgram machine.old }
    ensures { machine.new ≡ record machine.old { memory = with_bytes machine.old.memory segment offset bytes.now } }
{
    let mut at = offset;
    for byte in bytes {
        machine.poke(segment, at, *byte);
        at = at.wrapping_add(1);
    }
}
