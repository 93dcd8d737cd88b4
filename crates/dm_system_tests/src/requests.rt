//! Requests, written by hand after the GDB manual ("GDB Remote Serial Protocol", "Packets", "General Query Packets",
//! "vCont"), and what they are read as.

use crate::checks::same;
use dm_requests::packets::Payload;
use dm_requests::{Point, Request, WatchedAccess, read_request};
use std::alloc::Global;
use std::process::Abort;
use std::test::Fail;

/// Registers, memory, breakpoints and commands.
const NUMBERED: [(&[u8], &str); 43] = [
    (b"p0", "register 0"),
    (b"pa", "register 10"),
    (b"pFFFFFFFF", "register 4294967295"),
    (b"p", "malformed"),
    (b"px", "malformed"),
    (b"p100000000", "malformed"),
    (b"m1030,4", "memory 4144 4"),
    (b"m0,0", "memory 0 0"),
    (b"mffffffff,FFFFFFFF", "memory 4294967295 4294967295"),
    (b"m", "malformed"),
    (b"m1030", "malformed"),
    (b"m1030,", "malformed"),
    (b"m,4", "malformed"),
    (b"m1030,4,4", "malformed"),
    (b"M1030,2:b409", "write 4144 B409"),
    (b"M0,0:", "write 0 "),
    (b"M1030,3:b409", "malformed"),
    (b"M1030,1:b40", "malformed"),
    (b"M1030,1:b", "malformed"),
    (b"M1030,1:xx", "malformed"),
    (b"M1030,1", "malformed"),
    (b"P0=34120000", "register 0 to 34120000"),
    (b"P20=0001", "register 32 to 0001"),
    (b"P0=", "register 0 to "),
    (b"P0", "malformed"),
    (b"P=00", "malformed"),
    (b"P0=0", "malformed"),
    (b"G0102", "registers to 0102"),
    (b"G", "registers to "),
    (b"G0x", "malformed"),
    (b"Z0,1130,1", "insert Execute 4400 1"),
    (b"Z1,1130,1", "insert Execute 4400 1"),
    (b"Z2,1130,2", "insert Write 4400 2"),
    (b"z3,0,10", "remove Read 0 16"),
    (b"z4,10ffef,1", "remove Either 1114095 1"),
    (b"Z5,1130,1", "malformed"),
    (b"Z0;1130,1", "malformed"),
    (b"Z", "malformed"),
    (b"qRcmd,52", "command 52"),
    (b"qRcmd,", "command "),
    (b"qRcmd,5", "malformed"),
    (b"qXfer:features:read:target.xml:0,ffb", "features 0 4091"),
    (b"qXfer:features:read:target.xml:0", "malformed"),
];

/// Requests without arguments, and those whose arguments do not count; a row is what it is read as.
const NAMED: [(&[u8], &str); 46] = [
    (b"", "unknown"),
    (b"?", "why"),
    (b"??", "unknown"),
    (b"!", "extended"),
    (b"g", "registers"),
    (b"gg", "unknown"),
    (b"X0,0:", "unknown"),
    (b"s", "step"),
    (b"s1130", "unknown"),
    (b"c", "continue"),
    (b"C05", "unknown"),
    (b"vCont;s", "step"),
    (b"vCont;s:1;c", "step"),
    (b"vCont;S05:1", "step"),
    (b"vCont;c:-1", "continue"),
    (b"vCont;C0e", "continue"),
    (b"vCont;r1130,1135:1;c", "range 4400 4405"),
    (b"vCont;r1130", "malformed"),
    (b"vCont;t", "malformed"),
    (b"vCont;", "malformed"),
    (b"vCont", "unknown"),
    (b"vCont?", "kinds"),
    (b"vCont?;", "unknown"),
    (b"bs", "back"),
    (b"bc", "backwards"),
    (b"b", "unknown"),
    (b"bsc", "unknown"),
    (b"qSupported", "supported"),
    (b"qSupported:multiprocess+;swbreak+", "supported"),
    (b"qSupport", "unknown"),
    (b"qOffsets", "offsets"),
    (b"qAttached", "attached"),
    (b"qAttached:1", "attached"),
    (b"qC", "thread"),
    (b"qfThreadInfo", "threads"),
    (b"qsThreadInfo", "more"),
    (b"qSymbol::", "symbols"),
    (b"qXfer:features:read:other.xml:0,1", "unknown"),
    (b"QStartNoAckMode", "quiet"),
    (b"QStartNoAckMode;", "unknown"),
    (b"Hg0", "set"),
    (b"T1", "alive"),
    (b"vRun;", "restart"),
    (b"vKill;1", "end"),
    (b"k", "kill"),
    (b"D;1", "detach"),
];

fn put_digits(text: &mut String, bytes: &Payload) -> Result<(), Fail> {
    for byte in bytes.as_slice() {
        write!(text, "{byte:02X}")?;
    }
    Ok(())
}

fn put_point(text: &mut String, point: &Point) -> Result<(), Fail> {
    let access = match point.access {
        WatchedAccess::Execute => "Execute",
        WatchedAccess::Write => "Write",
        WatchedAccess::Read => "Read",
        WatchedAccess::Either => "Either",
    };
    let address = point.address;
    let length = point.length;
    write!(text, "{access} {address} {length}")?;
    Ok(())
}

/// The name of a request that has no arguments.
fn name_of(request: &Request) -> &'static str {
    match request {
        Request::Why => "why",
        Request::Extended => "extended",
        Request::Registers => "registers",
        Request::Step => "step",
        Request::Continue => "continue",
        Request::StepBack => "back",
        Request::ContinueBack => "backwards",
        Request::Supported => "supported",
        Request::Offsets => "offsets",
        Request::Attached => "attached",
        Request::CurrentThread => "thread",
        Request::FirstThreads => "threads",
        Request::MoreThreads => "more",
        Request::Symbols => "symbols",
        Request::ContinueKinds => "kinds",
        Request::StopAcknowledging => "quiet",
        Request::SetThread => "set",
        Request::IsAlive => "alive",
        Request::Restart => "restart",
        Request::EndProgram => "end",
        Request::Kill => "kill",
        Request::Detach => "detach",
        Request::Malformed => "malformed",
        Request::Unknown => "unknown",
        _ => "another",
    }
}

/// Appends a request, as the rows have it.
fn put(text: &mut String, request: &Request) -> Result<(), Fail> {
    match request {
        Request::Register(number) => write!(text, "register {number}")?,
        Request::Memory(address, count) => write!(text, "memory {address} {count}")?,
        Request::Range(start, end) => write!(text, "range {start} {end}")?,
        Request::Features(offset, count) => write!(text, "features {offset} {count}")?,
        Request::SetRegister(number, bytes) => {
            write!(text, "register {number} to ")?;
            put_digits(text, bytes)?;
        }
        Request::SetRegisters(bytes) => {
            text.push_str("registers to ")?;
            put_digits(text, bytes)?;
        }
        Request::SetMemory(address, bytes) => {
            write!(text, "write {address} ")?;
            put_digits(text, bytes)?;
        }
        Request::Command(bytes) => {
            text.push_str("command ")?;
            put_digits(text, bytes)?;
        }
        Request::Insert(point) => {
            text.push_str("insert ")?;
            put_point(text, point)?;
        }
        Request::Remove(point) => {
            text.push_str("remove ")?;
            put_point(text, point)?;
        }
        _ => text.push_str(name_of(request))?,
    }
    Ok(())
}

/// Tests a payload.
fn check_payload(rt: &impl Abort, alloc: Global, payload: &[u8], wanted: &str) -> Result<(), Fail> {
    let mut text = String::new(alloc);
    put(&mut text, &read_request(alloc, payload)?)?;
    same(rt, wanted, text.as_str(), wanted);
    Ok(())
}

/// Definitions: dm_requests Requests request_of memory_request set_memory_of register_of set_register_of
/// Definitions: dm_requests Requests set_registers_of insertion removal feature_of command_of
/// Definitions: dm_requests Arguments cut_at two_numbers watched_access point_of
#[test]
fn requests_have_arguments(rt: HostRuntime) -> Result<(), Fail> {
    for (payload, wanted) in NUMBERED {
        check_payload(&rt, rt.alloc(), payload, wanted)?;
    }
    Ok(())
}

/// Definitions: dm_requests Names named_query named_verb resumption_of range_of backwards lone single
#[test]
fn requests_have_names(rt: HostRuntime) -> Result<(), Fail> {
    for (payload, wanted) in NAMED {
        check_payload(&rt, rt.alloc(), payload, wanted)?;
    }
    Ok(())
}
