//! Machines, room for their output, steps and runs.
ghost use Rattle.std.specs.Prelude.{IfOk};
ghost use Rattle.dm_services.specs.state.State.{HasProgram};

use crate::machines::{Scene, are_alike, machine_at, new_machine, store_of};
use crate::telling::{tell, tell_refused};
use crate::whole::Whole;
use anyhow::Result;
use dm_cli::run_program;
use dm_console::writers::Sink;
use dm_machine::{Machine, NewError, Stop};
use std::alloc::Global;

/// MOV AH,9; MOV DX,10Ch; INT 21h; MOV AX,4C00h; INT 21h; `hi$`
const HELLO: [u8; 15] = [
    0xB4, 0x09, 0xBA, 0x0C, 0x01, 0xCD, 0x21, 0xB8, 0x00, 0x4C, 0xCD, 0x21, 0x68, 0x69, 0x24,
];

/// Writes `hi` by its fourth step, and a hundred bytes by its ninth. MOV AH,9; MOV DX,116h; INT 21h; MOV AH,40h; MOV
/// BX,1; MOV CX,100; INT 21h; MOV AX,4C00h; INT 21h; `hi$`
const TWICE: [u8; 25] = [
    0xB4, 0x09, 0xBA, 0x16, 0x01, 0xCD, 0x21, 0xB4, 0x40, 0xBB, 0x01, 0x00, 0xB9, 0x64, 0x00, 0xCD,
    0x21, 0xB8, 0x00, 0x4C, 0xCD, 0x21, 0x68, 0x69, 0x24,
];

/// As many steps as any of these programs executes.
const STEPS: u64 = 100;

/// A machine at its start.
pub(crate) fn make_machine(rt: &impl Print, alloc: Global) -> Result<()> {
    let call = "Machine::new";
    let programs = store_of(alloc, &HELLO)?;
    let input = Vec::from_slice(alloc, b"in")?;
    let machine = match new_machine(alloc, programs, input) {
        Ok(machine) => machine,
        Err(error) => {
            tell_refused(rt, call, error == NewError::Memory)?;
            new_machine(alloc, store_of(alloc, &HELLO)?, Vec::new(alloc))?
        }
    };
    tell(
        rt,
        call,
        if machine.is_loaded() {
            "others"
        } else {
            "no program yet"
        },
    )
}

/// A copy of a machine that has made some steps.
pub(crate) fn copy_machine(rt: &impl Print, alloc: Global) -> Result<()> {
    let call = "Machine::duplicate";
    let scene = Scene {
        program: &HELLO,
        input: b"in",
        steps: 4,
    };
    let machine = machine_at(alloc, scene)?;
    let copy = match machine.duplicate(alloc) {
        Ok(copy) => copy,
        Err(_) => {
            tell_refused(rt, call, is_at(alloc, &machine, scene)?)?;
            machine.duplicate(alloc)?
        }
    };
    tell(
        rt,
        call,
        if are_alike(&machine, &copy) {
            "the same"
        } else {
            "others"
        },
    )
}

/// Reserves room for output.
fn reserve(rt: &impl Print, alloc: Global, scene: Scene, bytes: usize) -> Result<()> {
    let call = "Machine::reserve_output";
    let mut machine = machine_at(alloc, scene)?;
    if let Err(_) = machine.reserve_output(bytes) {
        tell_refused(rt, call, is_at(alloc, &machine, scene)?)?;
        machine.reserve_output(bytes)?;
    }
    println!(rt; "{call}: for {} bytes", machine.room())?;
    Ok(())
}

/// Machines with room for output: before there is any output, and after some.
pub(crate) fn make_room(rt: &impl Print, alloc: Global) -> Result<()> {
    for (steps, bytes) in [(3, 2), (7, 100)] {
        let scene = Scene {
            program: &HELLO,
            input: b"",
            steps,
        };
        reserve(rt, alloc, scene, bytes)?;
    }
    Ok(())
}

/// Reserves room for two bytes, and runs a program that writes two. (With that room, it allocates nothing.)
pub(crate) fn keep_to_room(rt: &impl Print, alloc: Global) -> Result<()> {
    let call = "room for 2";
    let scene = Scene {
        program: &HELLO,
        input: b"",
        steps: 0,
    };
    let mut machine = machine_at(alloc, scene)?;
    machine.reserve_output(2)?;
    if let Err(_) = machine.reserve_output(2) {
        tell_refused(rt, call, machine.room() == 2)?;
    }
    tell(
        rt,
        call,
        if machine.room() == 2 {
            "made"
        } else {
            "others"
        },
    )?;
    if machine.run(STEPS) == Stop::Memory {
        tell_refused(rt, call, machine.room() == 2)?;
    }
    tell(rt, call, str::from_utf8(machine.output())?)
}

/// Executes a step.
fn make_step(machine: &mut Machine) -> Option<Stop>
    requires { HasProgram machine.old }
    ensures { HasProgram machine.new }
{
    machine.step()
}

/// Whether a machine is like one that has executed only a scene's steps.
fn is_at(alloc: Global, machine: &Machine, scene: Scene) -> Result<bool> {
    let other = machine_at(alloc, scene)?;
    Ok(are_alike(machine, &other))
}

/// Prints what a step returned, and the state after it.
fn tell_step(rt: &impl Print, call: &str, stop: Option<Stop>, machine: &Machine) -> Result<()> {
    let output = str::from_utf8(machine.output())?;
    let steps = machine.steps();
    println!(rt; "{call}: {stop:?}, {output}, {steps} steps")?;
    Ok(())
}

/// Executes the step in which a service writes.
fn step(rt: &impl Print, alloc: Global, call: &str, scene: Scene) -> Result<()> {
    let mut machine = machine_at(alloc, scene)?;
    let mut stop = make_step(&mut machine);
    if let Some(Stop::Memory) = stop {
        tell_refused(rt, call, is_at(alloc, &machine, scene)?)?;
        stop = make_step(&mut machine);
    }
    tell_step(rt, call, stop, &machine)
}

/// A step of each service that writes. (After the three or two steps of a program that lead to its service.)
pub(crate) fn make_steps(rt: &impl Print, alloc: Global) -> Result<()> {
    // MOV AH,1; INT 21h / MOV AH,2; MOV DL,`x`; INT 21h / MOV AH,6; MOV DL,`x`; INT 21h
    // MOV BX,1; MOV CX,1; MOV DX,10Dh; MOV AH,40h; INT 21h; `x`
    let rows: [(&str, &[u8], u64); 5] = [
        ("Machine::step of 01h", &[0xB4, 0x01, 0xCD, 0x21], 2),
        (
            "Machine::step of 02h",
            &[0xB4, 0x02, 0xB2, 0x78, 0xCD, 0x21],
            3,
        ),
        (
            "Machine::step of 06h",
            &[0xB4, 0x06, 0xB2, 0x78, 0xCD, 0x21],
            3,
        ),
        ("Machine::step of 09h", &HELLO, 3),
        (
            "Machine::step of 40h",
            &[
                0xBB, 0x01, 0x00, 0xB9, 0x01, 0x00, 0xBA, 0x0D, 0x01, 0xB4, 0x40, 0xCD, 0x21, 0x78,
            ],
            5,
        ),
    ];
    for (call, program, steps) in rows {
        let scene = Scene {
            program,
            input: b"x",
            steps,
        };
        step(rt, alloc, call, scene)?;
    }
    Ok(())
}

/// Whether a run that stopped because an allocation failed is before a service that writes, and has executed all steps
/// before it.
fn stands_before_output(alloc: Global, machine: &Machine) -> Result<bool> {
    let steps = machine.steps();
    let scene = Scene {
        program: &TWICE,
        input: b"",
        steps,
    };
    let is_there = is_at(alloc, machine, scene)?;
    Ok(is_there && (steps == 3 || steps == 8))
}

/// A machine with that program loaded.
fn before_run(alloc: Global) -> Result<Machine>
    ensures { IfOk result (λ m. HasProgram m) }
{
    let scene = Scene {
        program: &TWICE,
        input: b"",
        steps: 0,
    };
    machine_at(alloc, scene)
}

/// Runs that program to its end or a stop.
fn make_run(machine: &mut Machine) -> Stop
    requires { HasProgram machine.old }
    ensures { HasProgram machine.new }
{
    machine.run(STEPS)
}

/// Prints how a run stopped, and its numbers of steps and bytes.
fn tell_run(
    rt: &impl Print,
    call: &str,
    stop: Stop,
    machine: &Machine,
    written: usize,
) -> Result<()> {
    let steps = machine.steps();
    println!(rt; "{call}: {stop:?}, {written} bytes, {steps} steps")?;
    Ok(())
}

/// Runs a program that writes twice.
pub(crate) fn run_whole(rt: &impl Print, alloc: Global) -> Result<()> {
    let call = "Machine::run";
    let mut machine = before_run(alloc)?;
    let mut stop = make_run(&mut machine);
    if let Stop::Memory = stop {
        tell_refused(rt, call, stands_before_output(alloc, &machine)?)?;
        stop = make_run(&mut machine);
    }
    tell_run(rt, call, stop, &machine, machine.output().len())
}

/// Runs that program to its end or a stop, and appends its output to the bytes.
fn run_into(machine: &mut Machine, taken: &mut Vec<u8>) -> Result<Stop>
    requires { HasProgram machine.old }
{
    let mut sink = Sink::new(Whole { taken });
    let stop = run_program(machine, STEPS, &mut sink);
    drop(sink);
    Ok(stop?)
}

/// Runs that program, and writes its output: also what it had written when an allocation failed.
pub(crate) fn run_and_write(rt: &impl Print, alloc: Global) -> Result<()> {
    let call = "run_program";
    let mut taken = Vec::with_capacity(alloc, 256)?;
    let mut machine = before_run(alloc)?;
    let mut stop = run_into(&mut machine, &mut taken)?;
    if let Stop::Memory = stop {
        let wrote = taken.as_slice() == machine.output();
        let stands = stands_before_output(alloc, &machine)?;
        tell_refused(rt, call, wrote && stands)?;
        taken.clear();
        // The call's contract is about the run, and not about what is still loaded.
        if machine.is_loaded() {
            stop = run_into(&mut machine, &mut taken)?;
        }
    }
    tell_run(rt, call, stop, &machine, taken.len())
}
