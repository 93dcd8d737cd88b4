//! INT 21h functions 00h, 31h, 4Bh, 4Ch and 4Dh: programs that start programs, and end
//! (MS-DOS Programmer's Reference, "System Calls").
ghost use Rattle.std.specs.Prelude.{◌≡◌, ◌<◌};
ghost use Rattle.dm_cpu.specs.Cpu.{byte_of};
ghost use Rattle.dm_ins.specs.declared.operand.ByteRegister.TheVariants.{Al};
ghost use Rattle.dm_services.specs.state.State.{HasProgram};
ghost use Rattle.dm_services.specs.Processes.{concluded, not_loaded, Executing, Overlaying, LoadingProgram, Terminating, StayingResident, tell_code};

use crate::allocation::answer;
use crate::state::{Parts, Stop};
use dm_ins::ByteRegister;
use dm_proc::{ArenaDestroyed, Ending, ExecRefusal};

/// The error code that function 4Bh returns in AX for a refusal.
fn code_of(refusal: ExecRefusal) -> u16
    ensures { result ≡ Rattle.dm_services.specs.Processes.code_of refusal }
{
    match refusal {
        ExecRefusal::Function => 1,
        ExecRefusal::NotFound => 2,
        ExecRefusal::BadFormat => 11,
        ExecRefusal::Environment => 10,
        ExecRefusal::Destroyed => 7,
        ExecRefusal::Short => 8,
    }
}

/// Returns from function 4Bh with the refusal's error code in AX and CF set. Memory and processes stay; the step is
/// counted.
fn refuse_program(parts: &mut Parts, refusal: ExecRefusal)
    ensures { parts.new ≡ (not_loaded parts.old refusal).state }
{
    parts.cpu.ax = code_of(refusal);
    answer(parts, true);
}

/// 4Bh with AL = 0: loads and starts a child; the registers are the child's, and the caller waits. On an error, returns
/// to the caller with the error code in AX and CF set; memory and processes stay. Any AL but 0 is error 1. Counts the
/// step.
fn execute(parts: &mut Parts)
    requires { HasProgram parts.old }
    ensures executing { Executing parts.old (record { stop = None; state = parts.new }) }
    ensures program { HasProgram parts.new }
{
    match parts.procs.exec(
        &mut parts.cpu,
        &mut parts.space,
        &parts.programs,
        parts.strategy,
        parts.upper,
    ) {
        Ok(()) => parts.count(),
        Err(refusal) => refuse_program(parts, refusal),
    }
}

/// 4Bh with AL = 3: loads an overlay at the segment that the parameter block at ES:BX names, and returns with CF clear;
/// AX stays. On an error, AX is the error code, CF is set and memory stays. Counts the step.
fn overlay(parts: &mut Parts)
    ensures overlaying { Overlaying parts.old (record { stop = None; state = parts.new }) }
    ensures program { parts.new.processes ≡ parts.old.processes }
{
    match dm_proc::overlay(&parts.cpu, &mut parts.space, &parts.programs) {
        Ok(()) => answer(parts, false),
        Err(refusal) => refuse_program(parts, refusal),
    }
}

/// 4Bh: with AL = 3 loads an overlay, and the caller goes on with CF clear; with AL = 0 loads and starts a child, and
/// the registers are the child's; any other AL is error 1. On an error, AX is the error code, CF is set, and memory and
/// processes stay. Counts the step; never stops the machine.
pub(crate) fn load_program(parts: &mut Parts)
    requires { HasProgram parts.old }
    ensures loading { LoadingProgram parts.old (record { stop = None; state = parts.new }) }
    ensures program { HasProgram parts.new }
{
    if parts.cpu.byte(ByteRegister::Al) == 3 {
        overlay(parts);
    } else {
        execute(parts);
    }
}

/// Completes an ending of the present process with `code`. Where a parent goes on, counts the step and returns None.
/// Where the first program has ended, keeps its code, counts the step and returns `Exited`. Where the block list was
/// destroyed, changes nothing and returns `Destroyed`.
fn conclude(parts: &mut Parts, ended: Result<Ending, ArenaDestroyed>, code: u8) -> Option<Stop>
    ensures answer { record {
      stop = result;
      state = parts.new;
    } ≡ concluded parts.old code ended parts.old.processes parts.old.cpu parts.old.memory }
    ensures program { parts.new.processes ≡ parts.old.processes }
{
    match ended {
        Err(ArenaDestroyed) => Some(Stop::Destroyed),
        Ok(Ending::Returned) => {
            parts.count();
            None
        }
        Ok(Ending::Exited) => {
            parts.exited = Some(code);
            parts.count();
            Some(Stop::Exited(code))
        }
    }
}

/// 00h, 4Ch, INT 20h and a divide error: ends the present process with a code, frees all its blocks and restores
/// vectors 22h to 24h from its prefix; its parent goes on with the registers that it waits with (None). Returns
/// `Exited`, and the registers stay, if it was the first program, or `Destroyed`, with nothing changed, if memory holds
/// no valid block list, or upper memory in the arena no valid one.
pub(crate) fn terminate(parts: &mut Parts, code: u8) -> Option<Stop>
    requires { HasProgram parts.old }
    ensures terminating { Terminating parts.old code (record { stop = result; state = parts.new }) }
    ensures program { HasProgram parts.new }
{
    let ended = parts
        .procs
        .terminate(&mut parts.cpu, &mut parts.space, code, parts.upper);
    conclude(parts, ended, code)
}

/// 31h: ends the present process with the code in AL, resizes its block to DX paragraphs if that is possible, and
/// restores vectors 22h to 24h from its prefix; its other blocks stay allocated. Returns None or `Exited` as
/// `terminate` does, or `Destroyed`, with nothing changed, if memory holds no valid block list or would hold none after
/// the resize.
pub(crate) fn stay_resident(parts: &mut Parts) -> Option<Stop>
    requires { HasProgram parts.old }
    ensures staying { StayingResident parts.old (record { stop = result; state = parts.new }) }
    ensures program { HasProgram parts.new }
{
    let code = parts.cpu.byte(ByteRegister::Al);
    let paragraphs = parts.cpu.dx;
    let ended = parts.procs.keep(
        &mut parts.cpu,
        &mut parts.space,
        code,
        paragraphs,
        parts.upper,
    );
    conclude(parts, ended, code)
}

/// 4Dh: AX becomes the word of the last ending, which is then cleared: AL is the exit code, AH the kind of ending (0,
/// or 3 for 31h). AX is 0 if nothing has ended since the last call. Returns from the call and counts the step.
#[tactic(auto, unfolding(crate::specs::Processes::tell_code))]
pub(crate) fn tell_code(parts: &mut Parts)
    ensures told { parts.new ≡ (tell_code parts.old).state }
    ensures program { parts.new.processes.present ≡ parts.old.processes.present }
{
    parts.cpu.ax = parts.procs.take_code();
    parts.return_from_interrupt();
    parts.count();
}
