//! Sessions whose writer takes one byte at a time, and fails at some write. The figures are worked out by hand from the
//! manuals.
use crate::checks::same_of;
use crate::files::Slow;
use crate::machines::loaded_as;
use dm_console::writers::Sink;
use dm_debug::{CommandRefusal, Session};
use std::alloc::Global;
use std::process::Abort;
use std::test::Fail;

/// MOV AH,9; MOV DX,010Ch; INT 21h; MOV AX,4C00h; INT 21h; hi$
const HELLO: &[u8] = b"\xB4\x09\xBA\x0C\x01\xCD\x21\xB8\x00\x4C\xCD\x21hi$";

/// HLT
const HALT: &[u8] = b"\xF4";

/// A line, the number of writes before one that fails, what is returned, and the bytes that are taken.
type Row<'a> = (&'a str, usize, Result<(), CommandRefusal>, &'a str);

/// More writes than an answer has bytes.
const ALL: usize = 1000;

/// The last line is not a command of a session: it is the program that ends there.
const START: [Row; 4] = [
    (
        "R",
        ALL,
        Ok(()),
        "\
AX=0000 BX=0000 CX=0000 DX=0000 SP=FFFE BP=0000 SI=0000 DI=0000
DS=0103 ES=0103 SS=0103 CS=0103 IP=0100 FL=F202
0103:0100 B409 MOV AH,009h
",
    ),
    ("O", ALL, Ok(()), ""),
    ("BL", ALL, Ok(()), ""),
    ("Q", ALL, Err(CommandRefusal::Syntax), ""),
];

const STEPS: [Row; 5] = [
    ("T 0", ALL, Ok(()), ""),
    (
        "T",
        ALL,
        Ok(()),
        "\
AX=0900 BX=0000 CX=0000 DX=0000 SP=FFFE BP=0000 SI=0000 DI=0000
DS=0103 ES=0103 SS=0103 CS=0103 IP=0102 FL=F202
0103:0102 BA0C01 MOV DX,0010Ch
",
    ),
    (
        "T 2",
        ALL,
        Ok(()),
        "\
AX=0900 BX=0000 CX=0000 DX=010C SP=FFFE BP=0000 SI=0000 DI=0000
DS=0103 ES=0103 SS=0103 CS=0103 IP=0105 FL=F202
0103:0105 CD21 INT 021h
AX=0900 BX=0000 CX=0000 DX=010C SP=FFF8 BP=0000 SI=0000 DI=0000
DS=0103 ES=0103 SS=0103 CS=F000 IP=0084 FL=F002
F000:0084 CF IRET
",
    ),
    (
        "T 1000",
        ALL,
        Ok(()),
        "\
AX=0900 BX=0000 CX=0000 DX=010C SP=FFFE BP=0000 SI=0000 DI=0000
DS=0103 ES=0103 SS=0103 CS=0103 IP=0107 FL=F202
0103:0107 B8004C MOV AX,04C00h
AX=4C00 BX=0000 CX=0000 DX=010C SP=FFFE BP=0000 SI=0000 DI=0000
DS=0103 ES=0103 SS=0103 CS=0103 IP=010A FL=F202
0103:010A CD21 INT 021h
AX=4C00 BX=0000 CX=0000 DX=010C SP=FFF8 BP=0000 SI=0000 DI=0000
DS=0103 ES=0103 SS=0103 CS=F000 IP=0084 FL=F002
F000:0084 CF IRET
exited 00
",
    ),
    ("O", ALL, Ok(()), "hi"),
];

/// After a failed write all changes of the command are done, and a first part of the answer is written. A wrong
/// line writes nothing.
const FAILED: [Row; 13] = [
    ("B 1:2", 0, Err(CommandRefusal::Write), ""),
    ("BL", ALL, Ok(()), "0001:0002\n"),
    ("B 1:3", 2, Err(CommandRefusal::Write), "ok"),
    ("BL", ALL, Ok(()), "0001:0002\n0001:0003\n"),
    ("BC 1:2", 3, Ok(()), "ok\n"),
    ("BL", ALL, Ok(()), "0001:0003\n"),
    ("BC 1:2", 0, Err(CommandRefusal::Syntax), ""),
    ("E 103:100 90", 1, Err(CommandRefusal::Write), "o"),
    ("U 103:100 1", ALL, Ok(()), "0103:0100 90 NOP\n"),
    ("G 1", 4, Err(CommandRefusal::Write), "step"),
    ("T 0", 0, Ok(()), ""),
    ("O", 0, Ok(()), ""),
    (
        "R",
        ALL,
        Ok(()),
        "\
AX=0000 BX=0000 CX=0000 DX=0000 SP=FFFE BP=0000 SI=0000 DI=0000
DS=0103 ES=0103 SS=0103 CS=0103 IP=0101 FL=F202
0103:0101 0000 ADD [BX+SI],AL
",
    ),
];

/// Executes a line, and compares the result and the bytes taken.
fn answers(
    rt: &impl Abort,
    alloc: Global,
    session: &mut Session,
    (line, left, wanted, text): Row,
) -> Result<(), Fail> {
    let mut taken = Vec::new(alloc);
    let mut sink = Sink::new(Slow {
        taken: &mut taken,
        left,
        refuses: false,
    });
    let answered = session.command(alloc, line.as_bytes(), &mut sink);
    drop(sink);
    same_of(rt, line, "the answer", answered, wanted);
    same_of(rt, line, "the text", taken.as_slice(), text.as_bytes());
    Ok(())
}

/// Prints a listing with a writer that fails, or takes nothing, after this many bytes, and compares the result and the
/// bytes taken.
fn breaks_off(
    rt: &impl Abort,
    alloc: Global,
    session: &mut Session,
    (line, text): (&str, &str),
    (left, refuses): (usize, bool),
) -> Result<(), Fail> {
    let mut taken = Vec::new(alloc);
    let mut sink = Sink::new(Slow {
        taken: &mut taken,
        left,
        refuses,
    });
    let answered = session.command(alloc, line.as_bytes(), &mut sink);
    drop(sink);
    let text = text.as_bytes();
    let wanted = if left < text.len() {
        Err(CommandRefusal::Write)
    } else {
        Ok(())
    };
    same_of(rt, line, "the answer", answered, wanted);
    let part = text.get(..left.min(text.len()));
    same_of(rt, line, "the text", Some(taken.as_slice()), part);
    Ok(())
}

/// Executes the lines of a session with a program of the name HI.COM.
fn play(rt: &impl Abort, alloc: Global, program: &[u8], rows: &[Row]) -> Result<(), Fail> {
    let machine = loaded_as(alloc, b"HI.COM", program, b"")?;
    let mut session = Session::new(machine);
    for row in rows {
        answers(rt, alloc, &mut session, *row)?;
    }
    Ok(())
}

/// Definitions: dm_views Digits two_digits four_digits eight_digits address_text
/// Definitions: dm_views Registers IsRegistersText general special field field_text fields_text
/// Definitions: dm_debug Sessions new_session Displays
#[test]
fn registers_are_told_at_the_start(rt: HostRuntime) -> Result<(), Fail> {
    play(&rt, rt.alloc(), HELLO, &START)
}

/// Definitions: dm_views Registers IsRegistersText general special field field_text fields_text
/// Definitions: dm_debug Runs IsTrace Traces
#[test]
fn steps_are_traced(rt: HostRuntime) -> Result<(), Fail> {
    play(&rt, rt.alloc(), HELLO, &STEPS)
}

/// Definitions: dm_debug Sessions IsPartlyWritten
#[test]
fn a_failed_write_leaves_what_was_changed(rt: HostRuntime) -> Result<(), Fail> {
    play(&rt, rt.alloc(), HALT, &FAILED)
}

#[test]
fn writes_fail_at_each_byte(rt: HostRuntime) -> Result<(), Fail> {
    let machine = loaded_as(rt.alloc(), b"HI.COM", HELLO, b"")?;
    let mut session = Session::new(machine);
    let listings = [
        ("U 103:100 1", "0103:0100 B409 MOV AH,009h\n"),
        ("M", "0100 M 0103 0001\n0102 Z 0103 9EFD\nend\n"),
    ];
    for listing in listings {
        for left in 0..50 {
            for refuses in [false, true] {
                let ending = (left, refuses);
                breaks_off(&rt, rt.alloc(), &mut session, listing, ending)?;
            }
        }
    }
    Ok(())
}
