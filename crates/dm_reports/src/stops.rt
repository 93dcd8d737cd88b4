//! The line of `dm check` about where and why a run stopped. Each function `put_..` appends its text to `out`; an `Err`
//! is a failed allocation.

ghost use Rattle.std.specs.Prelude.{◌≡◌, ◌++◌, OnOk};
ghost use Rattle.dm_reports.specs.Stops.{is_exit, reason_text, stop_site_text, code_bytes_text, next_text, what_text, stopped_text, stopped_line};

use crate::names::put_call;
use dm_cpu::Cpu;
use dm_findings::{Call, Site, call_of, site_of};
use dm_services::state::Stop;
use dm_space::Space;
use dm_views::{byte_digits, put_address};
use std::alloc::AllocError;

/// Whether the run stopped since the program has ended.
fn is_exit(stop: Stop) -> bool
    ensures { result ≡ is_exit stop }
{
    matches!(stop, Stop::Exited(_))
}

/// Why a run stopped, in a word or two.
pub fn reason_of(stop: Stop) -> &'static [u8]
    ensures { result.now ≡ reason_text stop }
{
    match stop {
        Stop::Steps => b"steps",
        Stop::Exited(_) => b"exited",
        Stop::Halted => b"halted",
        Stop::Unlisted => b"unlisted",
        Stop::InputEnded => b"input ended",
        Stop::Destroyed => b"destroyed",
        Stop::Memory => b"memory",
    }
}

/// Appends a place in the program: `at` the address of an instruction, or `before` the return address of a call.
fn put_place(out: &mut Vec<u8>, site: Site) -> Result<(), AllocError>
    ensures { OnOk result (out.new.items ≡ out.old.items ++ stop_site_text site) }
{
    match site {
        Site::At(segment, offset) => {
            out.extend_from_slice(b" at ")?;
            put_address(out, segment, offset)
        }
        Site::Before(segment, offset) => {
            out.extend_from_slice(b" before ")?;
            put_address(out, segment, offset)
        }
    }
}

/// Appends the two bytes at CS:IP.
fn put_code(out: &mut Vec<u8>, cpu: &Cpu, space: &Space) -> Result<(), AllocError>
    ensures { OnOk result (out.new.items ≡ out.old.items ++ code_bytes_text space.now.memory cpu.now) }
{
    out.extend_from_slice(b": ")?;
    out.extend_from_slice(&byte_digits(space.peek(cpu.cs, cpu.ip)))?;
    out.extend_from_slice(b" ")?;
    out.extend_from_slice(&byte_digits(space.peek(cpu.cs, cpu.ip.wrapping_add(1))))
}

/// Appends the call that the next step would perform; nothing for an instruction.
fn put_next(out: &mut Vec<u8>, call: Option<Call>) -> Result<(), AllocError>
    ensures { OnOk result (out.new.items ≡ out.old.items ++ next_text call) }
{
    match call {
        Some(call) => {
            out.extend_from_slice(b": ")?;
            put_call(out, call)
        }
        None => Ok(()),
    }
}

/// Appends what the next step would perform: the bytes at CS:IP that are no instruction, a call, or nothing for an
/// instruction.
fn put_what(out: &mut Vec<u8>, stop: Stop, cpu: &Cpu, space: &Space) -> Result<(), AllocError>
    ensures { OnOk result (out.new.items ≡ out.old.items ++ what_text stop space.now.memory cpu.now) }
{
    match stop {
        Stop::Unlisted => put_code(out, cpu, space),
        _ => put_next(out, call_of(cpu)),
    }
}

/// Appends why the run stopped, where in its code the program would have gone on, and what the next step would perform.
fn put_stopped(out: &mut Vec<u8>, stop: Stop, cpu: &Cpu, space: &Space) -> Result<(), AllocError>
    ensures { OnOk result (out.new.items ≡ out.old.items ++ stopped_text stop space.now.memory cpu.now) }
{
    out.extend_from_slice(b"stopped: ")?;
    out.extend_from_slice(reason_of(stop))?;
    put_place(out, site_of(cpu, space, call_of(cpu)))?;
    put_what(out, stop, cpu, space)?;
    out.extend_from_slice(b"\n")
}

/// Appends the line about a stop, by the registers and the memory then: why the run stopped, where in its code the
/// program would have gone on, and the call or the bytes there. Nothing for an exit.
///
/// # Errors
///
/// `AllocError` if an allocation fails.
pub fn put_stop(out: &mut Vec<u8>, stop: Stop, cpu: &Cpu, space: &Space) -> Result<(), AllocError>
    ensures { OnOk result (out.new.items ≡ out.old.items ++ stopped_line stop space.now.memory cpu.now) }
{
    if is_exit(stop) {
        return Ok(());
    }
    put_stopped(out, stop, cpu, space)
}
