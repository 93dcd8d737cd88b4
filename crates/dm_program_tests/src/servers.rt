//! Requests of GDB's protocol to a machine, and their replies: the figures are worked out by hand from the manuals (GDB
//! manual, "GDB Remote Serial Protocol", "Packets", "Stop Reply Packets").
use crate::checks::same_of;
use crate::machines::loaded_as;
use dm_gdb::{Connection, Server, put_reply};
use dm_requests::read_request;
use std::alloc::Global;
use std::process::Abort;
use std::test::Fail;

/// MOV AH,9; MOV DX,010Ch; INT 21h; MOV AX,4C00h; INT 21h; hi$. The first instruction is at 0103:0100, which is 1130h.
const HELLO: &[u8] = b"\xB4\x09\xBA\x0C\x01\xCD\x21\xB8\x00\x4C\xCD\x21hi$";

/// HLT
const HALT: &[u8] = b"\xF4";

/// JMP to itself
const LOOP: &[u8] = b"\xEB\xFE";

/// What packets carry, and what is replied.
type Row<'a> = (&'a str, &'a str);

/// Registers and memory at the start: SP is FFFEh, so that ESP is 1030h + FFFEh.
const START: [Row; 26] = [
    ("?", "T05"),
    ("p8", "30110000"),
    ("pa", "03010000"),
    ("p4", "2e100100"),
    ("p10", "00000000000000000000"),
    ("p18", "00000000"),
    ("p20", "0001"),
    ("p21", "feff"),
    ("p22", "0000000000000000"),
    ("p23", "E01"),
    ("pffffffff", "E01"),
    ("m1130,4", "b409ba0c"),
    ("m1130,0", ""),
    ("m10fff0,1", "E0e"),
    ("M10ffef,2:0000", "E0e"),
    ("M10fff0,0:", "E0e"),
    ("qC", "QC1"),
    ("vMustReplyEmpty", ""),
    ("bs", "T05replaylog:begin;"),
    ("vRun;", "T05"),
    ("qfThreadInfo", "m1"),
    ("qOffsets", "Text=00001030;Data=00001030;Bss=00001030"),
    ("qXfer:features:read:target.xml:0,8", "m<target "),
    ("qXfer:features:read:target.xml:804,8", "m</target"),
    ("qXfer:features:read:target.xml:804,9", "l</target>"),
    ("qXfer:features:read:target.xml:ffffffff,ffffffff", "l"),
];

/// Registers that are set: of AX the low word; EIP keeps CS (0103h, that is 1030h to 1102Fh) where it reaches,
/// otherwise CS is the highest segment below; the flags are those of POPF. A20 is off, so that FFFF:FFFF is seen at
/// 0FFEFh.
const SETTINGS: [Row; 35] = [
    ("P0=785634ff", "OK"),
    ("p0", "78560000"),
    ("P20=0500", "OK"),
    ("p8", "35100000"),
    ("P8=2f100100", "OK"),
    ("pa", "03010000"),
    ("p20", "ffff"),
    ("P8=2f100000", "OK"),
    ("pa", "02010000"),
    ("p20", "0f00"),
    ("P8=efff1000", "OK"),
    ("pa", "ffff0000"),
    ("p20", "ffff"),
    ("p8", "efff0000"),
    ("P8=efff0000", "OK"),
    ("pa", "ffff0000"),
    ("P8=f0ff1000", "E01"),
    ("P8=00000000", "OK"),
    ("pa", "00000000"),
    ("p20", "0000"),
    ("P4=30100000", "OK"),
    ("pb", "03010000"),
    ("p21", "0000"),
    ("P21=feff", "OK"),
    ("p4", "2e100100"),
    ("P9=ff0f0000", "OK"),
    ("p9", "d7ff0000"),
    ("Pd=34120000", "OK"),
    ("pd", "34120000"),
    ("Pe=00000000", "E01"),
    ("P10=00000000000000000000", "E01"),
    ("P22=0000000000000000", "E01"),
    ("P0=3412", "E01"),
    ("P20=00000000", "E01"),
    ("Gff", ""),
];

/// What `monitor` hands on: R, M, O where nothing was printed, an empty line, G, a step, an earlier one, and one behind
/// the end.
const COMMANDS: [Row; 11] = [
    (
        "qRcmd,52",
        "41583d303030302042583d303030302043583d303030302044583d303030302053503d464646452042503d303030302053493d303030302044493d303030300a44533d303130332045533d303130332053533d303130332043533d303130332049503d3031303020464c3d463230320a303130333a303130302042343039204d4f562041482c303039680a",
    ),
    (
        "qRcmd,6d",
        "30313030204d203031303320303030310a30313032205a203031303320394546440a656e640a",
    ),
    ("qRcmd,4f", "OK"),
    (
        "qRcmd,",
        "6d6f6e69746f722074616b657320522c20552c20442c204d2c20502c20582c204f2c20636865636b20616e642073746570204e0a",
    ),
    (
        "qRcmd,47",
        "6d6f6e69746f722074616b657320522c20552c20442c204d2c20502c20582c204f2c20636865636b20616e642073746570204e0a",
    ),
    ("qRcmd,737465702032", "OK"),
    ("p22", "0200000000000000"),
    ("qRcmd,737465702031", "OK"),
    ("p22", "0100000000000000"),
    (
        "qRcmd,73746570206666",
        "7468652070726f6772616d206861732073746f70706564206265666f72650a",
    ),
    ("qRcmd,4F", "6869"),
];

/// The program is ended, and then there is no thread.
const ENDED: [Row; 2] = [("vKill;1", "OK"), ("qfThreadInfo", "l")];

/// A step, a breakpoint behind INT 21h, an edit of the exit code, the end, and requests after it: the machine stands at
/// the entry point of INT 21h, F000:0084.
const RUN: [Row; 18] = [
    ("s", "T05"),
    ("p0", "00090000"),
    ("p22", "0100000000000000"),
    ("Z2,1130,1", "OK"),
    ("Z0,1137,1", "OK"),
    ("Z1,1137,1", "OK"),
    ("vCont;r1132,1137:1", "T05"),
    ("c", "T05swbreak:;"),
    ("p8", "37110000"),
    ("z0,1137,1", "OK"),
    ("M1138,1:07", "OK"),
    ("m1137,3", "b8074c"),
    ("vCont;c", "W07"),
    ("qfThreadInfo", "l"),
    ("s", "W07"),
    ("c", "W07"),
    ("pa", "00f00000"),
    ("p20", "8400"),
];

/// Two steps with edits before, between and behind them, and back: the edits of a step come back with it, and later
/// ones are gone. Back over INT 21h, which pushes six bytes from 1102Eh down, the flags highest. Then the program
/// starts again, without edits; INT 21h hits a watchpoint on what it pushes, forwards and back.
const BACK: [Row; 34] = [
    ("M20000,1:41", "OK"),
    ("s", "T05"),
    ("M20001,1:42", "OK"),
    ("P1=34120000", "OK"),
    ("s", "T05"),
    ("M20002,1:43", "OK"),
    ("m20000,3", "414243"),
    ("s", "T05"),
    ("p8", "84000f00"),
    ("m11028,6", "0701030102f2"),
    ("bs", "T05"),
    ("p22", "0200000000000000"),
    ("p8", "35110000"),
    ("m11028,6", "000000000000"),
    ("m20000,3", "414243"),
    ("Z0,1132,1", "OK"),
    ("bs", "T05swbreak:;"),
    ("p1", "34120000"),
    ("m20000,3", "414200"),
    ("bs", "T05"),
    ("p1", "00000000"),
    ("m20000,3", "410000"),
    ("bs", "T05replaylog:begin;"),
    ("s", "T05swbreak:;"),
    ("m20000,3", "410000"),
    ("vRun;", "T05"),
    ("p22", "0000000000000000"),
    ("m20000,3", "000000"),
    ("Z2,1102c,1", "OK"),
    ("s", "T05swbreak:;"),
    ("s", "T05"),
    ("s", "T05watch:0001102c;"),
    ("bs", "T05watch:0001102c;"),
    ("p22", "0200000000000000"),
];

/// MOV AL,5; MOV [0120h],AL; MOV BL,[0120h]; MOV SI,0120h; MOV DI,0130h; MOV CX,3; REP MOVSB; MOV BX,40h; MOV AH,4Ah;
/// INT 21h; MOV AX,4C00h; INT 21h. DS:0120h is 1030h + 120h = 1150h, and ES:0130h 1160h; the program's header is at
/// 1020h.
const WATCHED: &[u8] =
    b"\xB0\x05\xA2\x20\x01\x8A\x1E\x20\x01\xBE\x20\x01\xBF\x30\x01\xB9\x03\x00\xF3\xA4\xBB\x40\x00\xB4\x4A\xCD\x21\xB8\x00\x4C\xCD\x21";

/// A byte that is written, then read; the second repetition of REP MOVSB reads 1151h, with one left, and the third
/// writes 1162h; function 4Ah writes the header's size at 1023h. Empty ranges, and addresses past FFFF:FFFF, are never
/// hit; the bytes of the instructions do not count, and a byte that is removed no longer does.
const WATCHES: [Row; 37] = [
    ("Z3,1130,20", "OK"),
    ("Z2,1150,0", "OK"),
    ("Z2,10fff0,1", "OK"),
    ("Z4,ffffffff,ffffffff", "OK"),
    ("Z2,", "E01"),
    ("Z2,1150,1", "OK"),
    ("Z3,1150,1", "OK"),
    ("c", "T05watch:00001150;"),
    ("p8", "35110000"),
    ("s", "T05rwatch:00001150;"),
    ("p8", "39110000"),
    ("z2,1150,1", "OK"),
    ("z3,1150,1", "OK"),
    ("z3,1150,1", "OK"),
    ("Z4,1151,1", "OK"),
    ("vCont;r1139,1144", "T05awatch:00001151;"),
    ("p8", "42110000"),
    ("p1", "01000000"),
    ("z4,1151,1", "OK"),
    ("Z2,1162,2", "OK"),
    ("Z0,1144,1", "OK"),
    ("c", "T05watch:00001162;"),
    ("p8", "44110000"),
    ("p1", "00000000"),
    ("z0,1144,1", "OK"),
    ("Z3,1023,2", "OK"),
    ("Z4,1024,1", "OK"),
    ("Z2,1023,2", "OK"),
    ("c", "T05awatch:00001024;"),
    ("bs", "T05awatch:00001024;"),
    ("p8", "84000f00"),
    ("s", "T05awatch:00001024;"),
    ("p8", "4b110000"),
    ("m1023,2", "4000"),
    ("s", "T05"),
    ("p8", "4e110000"),
    ("c", "W00"),
];

/// Asks a server for what a packet carries, with at most `most` steps, and compares the reply.
fn replies(
    rt: &impl Abort,
    alloc: Global,
    server: &mut Server,
    most: u64,
    (payload, wanted): Row,
) -> Result<(), Fail> {
    let request = read_request(alloc, payload.as_bytes())?;
    let reply = server.reply_to(&request, most)?;
    let mut text = Vec::new(alloc);
    put_reply(alloc, &mut text, &reply)?;
    same_of(rt, payload, "the reply", text.as_slice(), wanted.as_bytes());
    Ok(())
}

/// A server over a program.
fn server_over(alloc: Global, program: &[u8]) -> Result<Server, Fail> {
    let machine = loaded_as(alloc, b"HI.COM", program, b"")?;
    Ok(Server::new(alloc, machine, 2)?)
}

/// Plays rows with a server, at most `most` steps to a request.
fn play_with(
    rt: &impl Abort,
    alloc: Global,
    server: &mut Server,
    most: u64,
    rows: &[Row],
) -> Result<(), Fail> {
    for row in rows {
        replies(rt, alloc, server, most, *row)?;
    }
    Ok(())
}

/// Plays rows with a server over a program, at most `most` steps to a request.
fn play(
    rt: &impl Abort,
    alloc: Global,
    program: &[u8],
    most: u64,
    rows: &[Row],
) -> Result<(), Fail> {
    let mut server = server_over(alloc, program)?;
    play_with(rt, alloc, &mut server, most, rows)
}

/// Definitions: dm_gdb Servers Replies plain_reply register_reply memory_reply first_segment_address threads_reply
/// Definitions: dm_gdb Description features_reply description
/// Definitions: dm_target Registers register_bytes core_values
/// Definitions: dm_target Memory readable byte_at
#[test]
fn requests_are_replied_at_the_start(rt: HostRuntime) -> Result<(), Fail> {
    play(&rt, rt.alloc(), HELLO, 100, &START)
}

/// Plays RUN, and asks twice for the output.
fn ends(rt: &impl Abort, alloc: Global, server: &mut Server) -> Result<(), Fail> {
    play_with(rt, alloc, server, 100, &RUN)?;
    for (row, wanted) in [("first", b"O6869".as_slice()), ("second", b"".as_slice())] {
        let mut text = Vec::new(alloc);
        server.put_console(&mut text)?;
        same_of(rt, row, "the output", text.as_slice(), wanted);
    }
    Ok(())
}

/// Definitions: dm_gdb Servers Replies step_reply arrival_reply memory_written PutsConsole
/// Definitions: dm_target Going Continues has_arrived
#[test]
fn a_program_is_debugged_to_its_end(rt: HostRuntime) -> Result<(), Fail> {
    let mut server = server_over(rt.alloc(), HELLO)?;
    ends(&rt, rt.alloc(), &mut server)
}

/// Definitions: dm_gdb Servers Replies undone_reply with_timeline restarted after_write with_registers
/// Definitions: dm_gdb Replies reply_text
/// Definitions: dm_target Undoing Undoes HitBy undone_by
/// Definitions: dm_history Becomes BecomesBy HasStepTo
/// Definitions: dm_history Edits changed edits_to
/// Definitions: dm_history Timelines with_change GoesBack
#[test]
fn a_program_goes_back(rt: HostRuntime) -> Result<(), Fail> {
    play(&rt, rt.alloc(), HELLO, 100, &BACK)
}

/// Definitions: dm_gdb Servers Replies step_reply arrival_reply with_inserted with_removed
/// Definitions: dm_gdb Replies watch_text watch_name
/// Definitions: dm_target Going Continues
/// Definitions: dm_target Watching Hits is_touched is_changed by_access is_in_range bytes_there
/// Definitions: dm_target Points with_point without_point
#[test]
fn watched_bytes_stop_a_program(rt: HostRuntime) -> Result<(), Fail> {
    play(&rt, rt.alloc(), WATCHED, 100, &WATCHES)
}

/// Definitions: dm_gdb Replies stop_reply reply_text
#[test]
fn other_stops_are_signals(rt: HostRuntime) -> Result<(), Fail> {
    play(
        &rt,
        rt.alloc(),
        HALT,
        100,
        &[("s", "T11"), ("c", "T11"), ("vCont;r0,0", "T11")],
    )?;
    play(
        &rt,
        rt.alloc(),
        LOOP,
        3,
        &[("c", "T0e"), ("p22", "0300000000000000"), ("s", "T05")],
    )?;
    play(
        &rt,
        rt.alloc(),
        LOOP,
        3,
        &[("vCont;r1130,1132", "T05"), ("p22", "0300000000000000")],
    )?;
    Ok(())
}

/// Definitions: dm_gdb Servers registers_after setting_reply with_registers
/// Definitions: dm_target Settings registers_with with_value place_for register_value
#[test]
fn registers_are_set(rt: HostRuntime) -> Result<(), Fail> {
    play(&rt, rt.alloc(), HELLO, 100, &SETTINGS)
}

/// Definitions: dm_gdb Monitor is_shown step_asked text_reply stepped_reply
/// Definitions: dm_gdb Servers Replies
#[test]
fn commands_are_handed_on(rt: HostRuntime) -> Result<(), Fail> {
    play(&rt, rt.alloc(), HELLO, 100, &COMMANDS)?;
    play(&rt, rt.alloc(), HELLO, 100, &ENDED)
}

/// What a conversation sends for a stream, with at most `most` steps to a request.
fn sent_for(
    alloc: Global,
    connection: &mut Connection,
    most: u64,
    stream: &[u8],
) -> Result<Vec<u8>, Fail> {
    let mut sent = Vec::new(alloc);
    for byte in stream {
        connection.receive(*byte, most, &mut sent)?;
    }
    Ok(sent)
}

/// What a conversation sends for a stream, with at most `most` steps to a request; and whether it is over.
fn sends(
    rt: &impl Abort,
    alloc: Global,
    most: u64,
    stream: &[u8],
    (wanted, is_over): (&[u8], bool),
) -> Result<(), Fail> {
    let machine = loaded_as(alloc, b"HI.COM", HELLO, b"")?;
    let mut connection = Connection::new(alloc, machine, 2)?;
    let sent = sent_for(alloc, &mut connection, most, stream)?;
    same_of(rt, "a stream", "what is sent", sent.as_slice(), wanted);
    same_of(
        rt,
        "a stream",
        "whether it is over",
        connection.is_over(),
        is_over,
    );
    Ok(())
}

/// Streams, and what is sent for them. The sums: qC is 71h + 43h = B4h, QC1 is 51h + 43h + 31h = C5h, c is 63h, O6869
/// is 4Fh + 36h + 38h + 36h + 39h = 12Ch, W00 is 57h + 60h = B7h, T0e is 54h + 30h + 65h = E9h, T02 is 54h + 30h + 32h
/// = B6h.
///
/// Definitions: dm_gdb Connections Takes Hears Obeys replied console_packet is_kill is_detach is_quiet makes_steps
#[test]
fn streams_are_replied(rt: HostRuntime) -> Result<(), Fail> {
    let alloc = rt.alloc();
    sends(&rt, alloc, 9, b"+$qC#b4", (b"+$QC1#c5", false))?;
    sends(&rt, alloc, 9, b"$qC#b5-", (b"-", false))?;
    sends(&rt, alloc, 9, b"$qC#b4-", (b"+$QC1#c5$QC1#c5", false))?;
    sends(&rt, alloc, 9, b"$c#63", (b"+$O6869#2c$W00#b7", false))?;
    sends(&rt, alloc, 1, b"$c#63", (b"+$T0e#e9", false))?;
    sends(
        &rt,
        alloc,
        9,
        b"\x03$qC#b4$c#63",
        (b"+$QC1#c5+$T02#b6", false),
    )?;
    sends(
        &rt,
        alloc,
        9,
        b"\x03$c#63$c#63",
        (b"+$T02#b6+$O6869#2c$W00#b7", false),
    )?;
    sends(&rt, alloc, 9, b"$k#6b", (b"+", true))?;
    sends(&rt, alloc, 9, b"$D#44", (b"+$OK#9a", true))?;
    sends(
        &rt,
        alloc,
        9,
        b"$QStartNoAckMode#b0$qC#b5$qC#b4",
        (b"+$OK#9a$QC1#c5", false),
    )?;
    Ok(())
}
