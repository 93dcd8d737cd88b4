//! Replies, and their texts.

ghost use Rattle.std.specs.Prelude.{◌≡◌, ◌++◌, ◌∷◌, OnOk};
ghost use Rattle.dm_gdb.specs.Replies.{data_segment_text, hex_text, offsets_text, segment_text, reply_text, stop_reply, watch_name, watch_text};

use crate::digits::put_hex;
use dm_machine::Stop;
use dm_requests::packets::Payload;
use dm_requests::{Point, WatchedAccess};
use std::alloc::{AllocError, Global};

/// The number of the error for bad arguments.
pub(crate) const BAD: u8 = 0x01;

/// The number of the error for an address without memory, or one that cannot be written.
pub(crate) const NO_MEMORY: u8 = 0x0E;

/// What is replied to a request.
#[derive(Drop)]
pub enum Reply {
    /// Empty: the request is not known.
    Unknown,
    /// `OK`.
    Done,
    /// `E` and the number of an error in two digits: 01h for bad arguments, 0Eh for an address without memory or one
    /// that cannot be written.
    Refused(u8),
    /// `T` and the number of a signal: 02h for a stop that the debugger asked for, 04h for an instruction that is not
    /// of the 8086, 05h for a step, 06h for a destroyed block list, 0Eh for the bound of steps, 11h for HLT, 15h for
    /// the end of input, 1Eh for an allocation that failed.
    Signal(u8),
    /// `T05swbreak:;`: a breakpoint.
    Breakpoint,
    /// `T05replaylog:begin;`: the history begins here, and nothing goes back further.
    Begun,
    /// `T05watch:A;`, `T05rwatch:A;` or `T05awatch:A;`, by the access, A in eight digits: a hit of a watchpoint, whose
    /// range begins at A.
    Watch(Point),
    /// `W` and the exit code in two digits.
    Exited(u8),
    /// Bytes, in two digits each.
    Bytes(Payload),
    /// The text of the commands that `qRcmd` takes, in two digits a byte.
    Help,
    /// The text for a step that has passed, in two digits a byte.
    Passed,
    /// The text for a program that has stopped before the step that is wanted, in two digits a byte.
    StoppedBefore,
    /// `m` and bytes: a part of the description of the registers, after which there is more.
    Part(Payload),
    /// `l` and bytes: the last part of the description of the registers.
    Rest(Payload),
    /// `Text=B;Data=B;Bss=B`, B in eight digits: the linear address of the program's first segment.
    Offsets(u32),
    /// `PacketSize=4000;qXfer:features:read+;swbreak+;hwbreak+;ReverseStep+;ReverseContinue+;QStartNoAckMode+;vContSupported+`:
    /// what the server can do.
    Abilities,
    /// `vCont;c;C;s;S;r`: the ways to go on.
    ContinueKinds,
    /// `QC1`: the current thread, of which there is one.
    CurrentThread,
    /// `m1`: the list of threads.
    Threads,
    /// `l`: the end of the list of threads.
    NoMoreThreads,
    /// `0`: the server has started the program.
    Started,
}

/// What is replied where the steps of the program have ended for this reason, other than by the number of steps.
pub(crate) fn stop_reply(stop: Stop) -> Reply
    ensures { result ≡ stop_reply stop }
{
    match stop {
        Stop::Steps => Reply::Signal(0x0E),
        Stop::Exited(code) => Reply::Exited(code),
        Stop::Halted => Reply::Signal(0x11),
        Stop::Unlisted => Reply::Signal(0x04),
        Stop::InputEnded => Reply::Signal(0x15),
        Stop::Destroyed => Reply::Signal(0x06),
        Stop::Memory => Reply::Signal(0x1E),
    }
}

/// Appends a letter and a number in two hexadecimal digits. An `Err` is a failed allocation.
fn put_number(alloc: Global, out: &mut Vec<u8>, letter: u8, number: u8) -> Result<(), AllocError>
    ensures { OnOk result (out.new.items ≡ out.old.items ++ hex_text letter number) }
{
    out.extend_from_slice(&[letter])?;
    put_hex(alloc, out, &[number])
}

/// Appends a name, and the linear address of a segment in eight digits. An `Err` is a failed allocation.
fn put_place(alloc: Global, out: &mut Vec<u8>, name: &[u8], base: u32) -> Result<(), AllocError>
    ensures { OnOk result (out.new.items ≡ out.old.items ++ segment_text name.now base) }
{
    out.extend_from_slice(name)?;
    put_hex(alloc, out, &base.to_be_bytes())
}

/// The beginning of the reply for a hit of a watchpoint.
fn watch_name(access: WatchedAccess) -> &'static [u8]
    ensures { result.now ≡ watch_name access }
{
    match access {
        WatchedAccess::Read => b"T05rwatch:",
        WatchedAccess::Either => b"T05awatch:",
        _ => b"T05watch:",
    }
}

/// Appends the reply for a hit of a watchpoint. An `Err` is a failed allocation.
#[tactic(auto, unfolding(crate::specs::Replies::watch_text))]
fn put_watch(alloc: Global, out: &mut Vec<u8>, point: &Point) -> Result<(), AllocError>
    ensures { OnOk result (out.new.items ≡ out.old.items ++ watch_text point.now) }
{
    put_place(alloc, out, watch_name(point.access), point.address)?;
    out.extend_from_slice(b";")
}

/// Appends the places of data and of empty data. An `Err` is a failed allocation.
#[tactic(auto, unfolding(crate::specs::Replies::data_segment_text))]
fn put_data_places(alloc: Global, out: &mut Vec<u8>, base: u32) -> Result<(), AllocError>
    ensures { OnOk result (out.new.items ≡ out.old.items ++ data_segment_text base) }
{
    put_place(alloc, out, b";Data=", base)?;
    put_place(alloc, out, b";Bss=", base)
}

/// Appends the places of code, data and empty data, which are one address. An `Err` is a failed allocation.
#[tactic(auto, unfolding(crate::specs::Replies::offsets_text))]
fn put_offsets(alloc: Global, out: &mut Vec<u8>, base: u32) -> Result<(), AllocError>
    ensures { OnOk result (out.new.items ≡ out.old.items ++ offsets_text base) }
{
    put_place(alloc, out, b"Text=", base)?;
    put_data_places(alloc, out, base)
}

/// Appends a letter and bytes as they are. An `Err` is a failed allocation.
fn put_part(out: &mut Vec<u8>, letter: u8, bytes: &[u8]) -> Result<(), AllocError>
    ensures { OnOk result (out.new.items ≡ out.old.items ++ letter ∷ bytes.now) }
{
    out.extend_from_slice(&[letter])?;
    out.extend_from_slice(bytes)
}

/// Appends the text of a reply, without the frame of its packet. An `Err` is a failed allocation; a first part may have
/// been appended.
pub fn put_reply(alloc: Global, out: &mut Vec<u8>, reply: &Reply) -> Result<(), AllocError>
    ensures { OnOk result (out.new.items ≡ out.old.items ++ reply_text reply.now) }
{
    match reply {
        Reply::Unknown => out.extend_from_slice(b""),
        Reply::Done => out.extend_from_slice(b"OK"),
        Reply::Refused(number) => put_number(alloc, out, b'E', *number),
        Reply::Signal(number) => put_number(alloc, out, b'T', *number),
        Reply::Breakpoint => out.extend_from_slice(b"T05swbreak:;"),
        Reply::Begun => out.extend_from_slice(b"T05replaylog:begin;"),
        Reply::Watch(point) => put_watch(alloc, out, point),
        Reply::Exited(code) => put_number(alloc, out, b'W', *code),
        Reply::Bytes(bytes) => put_hex(alloc, out, bytes.as_slice()),
        Reply::Help => put_hex(
            alloc,
            out,
            b"monitor takes R, U, D, M, P, X, O, check and step N\n",
        ),
        Reply::Passed => put_hex(alloc, out, b"this step has passed\n"),
        Reply::StoppedBefore => put_hex(alloc, out, b"the program has stopped before\n"),
        Reply::Abilities => out.extend_from_slice(
            b"PacketSize=4000;qXfer:features:read+;swbreak+;hwbreak+;ReverseStep+;ReverseContinue+;QStartNoAckMode+;vContSupported+",
        ),
        Reply::Part(bytes) => put_part(out, b'm', bytes.as_slice()),
        Reply::Rest(bytes) => put_part(out, b'l', bytes.as_slice()),
        Reply::Offsets(base) => put_offsets(alloc, out, *base),
        Reply::ContinueKinds => out.extend_from_slice(b"vCont;c;C;s;S;r"),
        Reply::CurrentThread => out.extend_from_slice(b"QC1"),
        Reply::Threads => out.extend_from_slice(b"m1"),
        Reply::NoMoreThreads => out.extend_from_slice(b"l"),
        Reply::Started => out.extend_from_slice(b"0"),
    }
}
