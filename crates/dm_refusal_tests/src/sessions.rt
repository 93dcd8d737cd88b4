//! Commands of a debugger's session.

use crate::machines::{Scene, machine_at};
use crate::telling::{tell, tell_refused};
use crate::whole::Whole;
use anyhow::Result;
use dm_console::writers::Sink;
use dm_debug::{CommandRefusal, Session};
use std::alloc::Global;

/// MOV AH,9; MOV DX,10Ch; INT 21h; MOV AX,4C00h; INT 21h; `hi$`
const HELLO: [u8; 15] = [
    0xB4, 0x09, 0xBA, 0x0C, 0x01, 0xCD, 0x21, 0xB8, 0x00, 0x4C, 0xCD, 0x21, 0x68, 0x69, 0x24,
];

/// As much room as any answer needs.
const ROOM: usize = 1024;

/// Commands that have the same answer a second time, each with its printed name, and its answer.
const COMMANDS: [(&str, &[u8], &[u8]); 12] = [
    (
        "Session::command R",
        b"R",
        b"AX=0000 BX=0000 CX=0000 DX=0000 SP=FFFE BP=0000 SI=0000 DI=0000\nDS=0103 ES=0103 SS=0103 CS=0103 IP=0100 FL=F202\n0103:0100 B409 MOV AH,009h\n",
    ),
    (
        "Session::command U",
        b"U 103:100 2",
        b"0103:0100 B409 MOV AH,009h\n0103:0102 BA0C01 MOV DX,0010Ch\n",
    ),
    (
        "Session::command D",
        b"D 103:10C 3",
        b"0103:010C 68 69 24  hi$\n",
    ),
    (
        "Session::command M",
        b"M",
        b"0100 M 0103 0001\n0102 Z 0103 9EFD\nend\n",
    ),
    (
        "Session::command P",
        b"P",
        b"0000 0000 0000000000000000\nwindow 0 none\nwindow 1 none\nwindow 2 none\nwindow 3 none\n",
    ),
    ("Session::command X", b"X", b"A20 off HMA free\n"),
    ("Session::command B", b"B 1:2", b"ok\n"),
    ("Session::command BL", b"BL", b"0001:0002\n"),
    ("Session::command BC", b"BC 1:2", b"ok\n"),
    ("Session::command E", b"E 103:10E 2124", b"ok\n"),
    (
        "Session::command G",
        b"G",
        b"exited 00\nAX=4C00 BX=0000 CX=0000 DX=010C SP=FFF8 BP=0000 SI=0000 DI=0000\nDS=0103 ES=0103 SS=0103 CS=F000 IP=0084 FL=F002\nF000:0084 CF IRET\n",
    ),
    ("Session::command O", b"O", b"hi!"),
];

/// A session with a machine that has room for its program's output.
fn new_session(alloc: Global) -> Result<Session> {
    let scene = Scene {
        program: &HELLO,
        input: b"",
        steps: 0,
    };
    let mut machine = machine_at(alloc, scene)?;
    machine.reserve_output(3)?;
    Ok(Session::new(machine))
}

/// Executes a line of a session.
fn answer(
    alloc: Global,
    session: &mut Session,
    line: &[u8],
    taken: &mut Vec<u8>,
) -> Result<(), CommandRefusal> {
    let mut sink = Sink::new(Whole { taken });
    let answered = session.command(alloc, line, &mut sink);
    drop(sink);
    answered
}

/// Executes a line; if an allocation fails, nothing is written, and the line is executed once more.
fn command(
    rt: &impl Print,
    alloc: Global,
    session: &mut Session,
    (call, line, wanted): (&str, &[u8], &[u8]),
) -> Result<()> {
    let mut taken = Vec::with_capacity(alloc, ROOM)?;
    if let Err(error) = answer(alloc, session, line, &mut taken) {
        let nothing = taken.is_empty();
        tell_refused(rt, call, nothing && error == CommandRefusal::Memory)?;
        answer(alloc, session, line, &mut taken)?;
    }
    let right = taken.as_slice() == wanted;
    tell(rt, call, if right { "its answer" } else { "others" })
}

/// A session with a command of each kind. Later commands show what one changes, or leaves as it was when an allocation
/// failed.
pub(crate) fn answer_commands(rt: &impl Print, alloc: Global) -> Result<()> {
    let mut session = new_session(alloc)?;
    for row in COMMANDS {
        command(rt, alloc, &mut session, row)?;
    }
    Ok(())
}
