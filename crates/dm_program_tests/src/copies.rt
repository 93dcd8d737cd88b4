//! Copies of machines: a copy goes on as its original does, and neither sees what the other does.
ghost use Rattle.dm_services.specs.state.State.{HasProgram};

use crate::checks::same;
use crate::machines::{SEGMENT, loaded, machine_with, store, sum_of_memory};
use dm_machine::{Machine, Stop};
use std::process::Abort;
use std::test::Fail;

/// MOV AH,9; MOV DX,10Ch; INT 21h; MOV AX,4C00h; INT 21h; `hi$`
const HELLO: [u8; 15] = [
    0xB4, 0x09, 0xBA, 0x0C, 0x01, 0xCD, 0x21, 0xB8, 0x00, 0x4C, 0xCD, 0x21, 0x68, 0x69, 0x24,
];

/// MOV AH,1; INT 21h, twice; MOV AX,4C00h; INT 21h. It reads two bytes, and prints each.
const ECHO: [u8; 13] = [
    0xB4, 0x01, 0xCD, 0x21, 0xB4, 0x01, 0xCD, 0x21, 0xB8, 0x00, 0x4C, 0xCD, 0x21,
];

/// MOV AH,43h; MOV BX,1; INT 67h; MOV AX,4400h; MOV BX,0; INT 67h. It allocates a page, which window 0 shows after
/// eight steps.
const PAGE: [u8; 15] = [
    0xB4, 0x43, 0xBB, 0x01, 0x00, 0xCD, 0x67, 0xB8, 0x00, 0x44, 0xBB, 0x00, 0x00, 0xCD, 0x67,
];

/// Compares all that a test sees of two machines.
fn alike(rt: &impl Abort, machine: &Machine, copy: &Machine) {
    same(rt, "registers", copy.cpu(), machine.cpu());
    same(rt, "steps", copy.steps(), machine.steps());
    same(rt, "room", copy.room(), machine.room());
    same(rt, "output", copy.output(), machine.output());
    same(rt, "loaded", copy.is_loaded(), machine.is_loaded());
    same(rt, "upper", copy.upper(), machine.upper());
    same(rt, "memory", sum_of_memory(copy), sum_of_memory(machine));
}

/// Runs a machine on, and compares how it ends.
fn ends(rt: &impl Abort, machine: &mut Machine, stop: Stop, steps: u64, output: &[u8])
    requires { HasProgram machine.old }
{
    same(rt, "stop", machine.run(100), stop);
    same(rt, "steps", machine.steps(), steps);
    same(rt, "output", machine.output(), output);
}

#[test]
fn a_copy_goes_on_as_its_original(rt: HostRuntime) -> Result<(), Fail> {
    for steps in [0, 2, 4, 6, 7, 8] {
        let mut machine = loaded(rt.alloc(), &HELLO, b"")?;
        let _stop = machine.run(steps);
        let mut copy = machine.duplicate(rt.alloc())?;
        alike(&rt, &machine, &copy);
        ends(&rt, &mut copy, Stop::Exited(0), 7, b"hi");
        ends(&rt, &mut machine, Stop::Exited(0), 7, b"hi");
        alike(&rt, &machine, &copy);
    }
    Ok(())
}

#[test]
fn neither_sees_what_the_other_writes(rt: HostRuntime) -> Result<(), Fail> {
    let mut machine = loaded(rt.alloc(), &HELLO, b"")?;
    let mut copy = machine.duplicate(rt.alloc())?;
    copy.poke(SEGMENT, 0x010C, b'H');
    machine.poke(SEGMENT, 0x010D, b'o');
    same(&rt, "in the original", machine.peek(SEGMENT, 0x010C), b'h');
    same(&rt, "in the copy", copy.peek(SEGMENT, 0x010D), b'i');
    ends(&rt, &mut machine, Stop::Exited(0), 7, b"ho");
    same(&rt, "the copy's steps", copy.steps(), 0);
    same(&rt, "the copy's output", copy.output(), b"".as_slice());
    ends(&rt, &mut copy, Stop::Exited(0), 7, b"Hi");
    same(&rt, "output", machine.output(), b"ho".as_slice());
    Ok(())
}

#[test]
fn a_copy_has_input_and_room_of_its_own(rt: HostRuntime) -> Result<(), Fail> {
    let mut machine = loaded(rt.alloc(), &ECHO, b"ab")?;
    same(&rt, "stop", machine.run(3), Stop::Steps);
    same(&rt, "output", machine.output(), b"a".as_slice());
    machine.reserve_output(5)?;
    let mut copy = machine.duplicate(rt.alloc())?;
    same(&rt, "room", copy.room(), 5);
    ends(&rt, &mut copy, Stop::Exited(0), 9, b"ab");
    same(&rt, "room of the copy", copy.room(), 4);
    same(&rt, "room of the original", machine.room(), 5);
    ends(&rt, &mut machine, Stop::Exited(0), 9, b"ab");
    Ok(())
}

#[test]
fn a_copy_has_pages_of_its_own(rt: HostRuntime) -> Result<(), Fail> {
    let mut machine = loaded(rt.alloc(), &PAGE, b"")?;
    same(&rt, "in the window", machine.peek(0xE000, 0), 0xFF);
    same(&rt, "stop", machine.run(8), Stop::Steps);
    let mut copy = machine.duplicate(rt.alloc())?;
    copy.poke(0xE000, 0, 0x55);
    same(&rt, "in the copy", copy.peek(0xE000, 0), 0x55);
    same(&rt, "in the original", machine.peek(0xE000, 0), 0);
    same(&rt, "handles", copy.ems().in_use(), 2);
    Ok(())
}

#[test]
fn a_copy_can_be_loaded_apart(rt: HostRuntime) -> Result<(), Fail> {
    let programs = store(rt.alloc(), b"HI.COM", &HELLO)?;
    let machine = machine_with(rt.alloc(), programs, b"", b"")?;
    let mut copy = machine.duplicate(rt.alloc())?;
    copy.load(b"hi.com", b"")?;
    same(&rt, "the copy", copy.is_loaded(), true);
    same(&rt, "the original", machine.is_loaded(), false);
    Ok(())
}
