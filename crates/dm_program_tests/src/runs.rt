//! What a stop leaves unchanged, and room for output.
ghost use Rattle.dm_services.specs.state.State.{HasProgram};

use crate::checks::same;
use crate::machines::{loaded, sum_of_memory};
use dm_machine::{Machine, Stop};
use std::alloc::Global;
use std::process::Abort;
use std::test::Fail;

/// MOV AH,9; MOV DX,10Ch; INT 21h; MOV AX,4C00h; INT 21h; `hi$`
const HELLO: [u8; 15] = [
    0xB4, 0x09, 0xBA, 0x0C, 0x01, 0xCD, 0x21, 0xB8, 0x00, 0x4C, 0xCD, 0x21, 0x68, 0x69, 0x24,
];

/// Definitions: dm_services state.State State HasProgram Answer go stop_at; dm_services Text print text_at text_within
/// Definitions: dm_services Processes concluded; dm_machine Run IsRun Goes StopsWithin
#[test]
fn hello_prints_hi(rt: HostRuntime) -> Result<(), Fail> {
    let mut machine = loaded(rt.alloc(), &HELLO, b"")?;
    same(&rt, "stop", machine.run(6), Stop::Steps);
    same(&rt, "steps", machine.steps(), 6);
    same(&rt, "stop", machine.run(100), Stop::Exited(0));
    same(&rt, "steps", machine.steps(), 7);
    same(&rt, "output", machine.output(), b"hi".as_slice());
    Ok(())
}

/// What a stop leaves unchanged in addition to the registers: memory, steps, output and room.
fn kept(machine: &Machine) -> [u64; 4] {
    [
        sum_of_memory(machine),
        machine.steps(),
        machine.output().len() as u64,
        machine.room() as u64,
    ]
}

/// A COM program stops this way after this many steps. The next run stops the same way, and changes nothing. The
/// program runs with this signature in the header of its block.
fn stays(
    rt: &impl Abort,
    alloc: Global,
    (file, signature, stop, steps): (&[u8], u8, Stop, u64),
) -> Result<(), Fail> {
    let mut machine = loaded(alloc, file, b"")?;
    machine.poke(0x0102, 0, signature);
    same(rt, "stop", machine.run(1000), stop);
    same(rt, "steps", machine.steps(), steps);
    let (cpu, before) = (machine.cpu(), kept(&machine));
    same(rt, "stop again", machine.run(1000), stop);
    same(rt, "registers", machine.cpu(), cpu);
    same(rt, "what is kept", kept(&machine), before);
    Ok(())
}

/// Definitions: dm_services state.State Answer go stop_at
/// Definitions: dm_machine Step MakesStep ActsUnlessEnded Acts Instructs fetched instructed after
/// Definitions: dm_ins Ins BeginsWith
/// Definitions: dm_space EightBytes sixteen_after byte_after
/// Definitions: dm_machine Run Answers IsRun Goes StopsWithin
#[test]
fn stops_change_nothing(rt: HostRuntime) -> Result<(), Fail> {
    let rows: [(&[u8], u8, Stop, u64); 5] = [
        (&[0x0F], b'Z', Stop::Unlisted, 0),
        (&[0xF4], b'Z', Stop::Halted, 0),
        // MOV AX,4C07h; INT 21h, which ends, or cannot end
        (&[0xB8, 7, 0x4C, 0xCD, 0x21], b'Z', Stop::Exited(7), 3),
        (&[0xB8, 7, 0x4C, 0xCD, 0x21], 0, Stop::Destroyed, 2),
        // MOV AH,1; INT 21h
        (&[0xB4, 1, 0xCD, 0x21], b'Z', Stop::InputEnded, 2),
    ];
    for row in rows {
        stays(&rt, rt.alloc(), row)?;
    }
    Ok(())
}

/// Reserves room for output, and returns whether that succeeded.
fn reserve(machine: &mut Machine, bytes: usize) -> bool
    requires { HasProgram machine.old }
    ensures { HasProgram machine.new }
{
    machine.reserve_output(bytes).is_ok()
}

/// Definitions: dm_console Streams Streams; dm_services Text written; dm_services Wanting OrWants MayWant Overflows
/// Definitions: dm_machine Laws RoomIsEnoughForRuns RoomIsEnoughForSteps WantsBeyond IsHistory
#[test]
fn output_goes_into_room_made_beforehand(rt: HostRuntime) -> Result<(), Fail> {
    let mut machine = loaded(rt.alloc(), &HELLO, b"")?;
    same(&rt, "room", machine.room(), 0);
    same(&rt, "for 0 bytes", reserve(&mut machine, 0), true);
    same(&rt, "for 2 bytes", reserve(&mut machine, 2), true);
    same(&rt, "for 1 byte", reserve(&mut machine, 1), true);
    same(&rt, "for all", reserve(&mut machine, usize::MAX), false);
    same(&rt, "room", machine.room(), 2);
    same(&rt, "stop", machine.run(100), Stop::Exited(0));
    same(&rt, "output", machine.output(), b"hi".as_slice());
    same(&rt, "room", machine.room(), 0);
    Ok(())
}

/// Runs a program that writes two bytes, with room for this many. A run whose allocation fails stops
/// before the call, and the next one goes on from there.
fn grows(rt: &impl Abort, alloc: Global, room: usize) -> Result<(), Fail> {
    let mut machine = loaded(alloc, &HELLO, b"")?;
    let held = if reserve(&mut machine, room) { room } else { 0 };
    same(rt, "room", machine.room(), held);
    if machine.run(100) == Stop::Memory {
        same(rt, "room that was held", held, 0);
        same(rt, "steps", machine.steps(), 3);
        same(rt, "bytes of output", machine.output().len(), 0);
        let cpu = machine.cpu();
        same(rt, "CS, IP", [cpu.cs, cpu.ip], [0xF000, 0x0084]);
    }
    same(rt, "stop", machine.run(100), Stop::Exited(0));
    same(rt, "output", machine.output(), b"hi".as_slice());
    same(rt, "room", machine.room(), 0);
    Ok(())
}

/// Runs with each allocation failing in turn: a failed reservation changes nothing.
/// Definitions: dm_services Wanting OrWants MayWant Overflows; dm_machine Run Answers
/// Definitions: dm_machine Laws RoomIsEnoughForRuns RoomIsEnoughForSteps WantsBeyond IsHistory
#[test]
fn refused_growth(rt: HostRuntime) -> Result<(), Fail> {
    for room in [0, 2] {
        grows(&rt, rt.alloc(), room)?;
    }
    Ok(())
}
