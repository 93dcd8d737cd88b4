//! `dm gdb`: the bytes of standard input are taken one by one, and what is sent for each is written to standard output.
ghost use Rattle.std.specs.Prelude.{◌≡◌, ◌≢◌, ◌≤◌, ◌⊎◌, [], IfErr, IfOk, OnErr, OnOk};
ghost use Rattle.std.specs.Io.KnownBytes.{Appends};
ghost use Rattle.dm_services.specs.state.State.{HasProgram};
ghost use Rattle.dm_console.specs.writers.Out.{AppendsPart, HasFailed};
ghost use Rattle.dm_cli.specs.Faults.{IsReadFault, IsWriteFault};
ghost use Rattle.dm_cli.specs.Reads.{IsKept, ReadsFiles};
ghost use Rattle.dm_cli.specs.Serving.{DebugsByGdb, IsServed};
ghost use Rattle.dm_cli.specs.inner.Serving.{GivesByte, IsTakenBy, IsUntaken, ServesWith};
ghost use Rattle.dm_cli.specs.inner.Statuses.{end_of};

use crate::fault::Fault;
use crate::files::{Storage, read_fault};
use crate::loading::loaded_for_debug;
use dm_console::writers::write_all;
use dm_gdb::Connection;
use dm_machine::Out;
use dm_options::command_line::DebugOptions;
use std::alloc::Global;
use std::io::{BufReader, Read};

/// The name of the stream that requests are read from, as faults have it.
const INPUT: &str = "standard input";

/// The name of the stream that replies are written to, as faults have it.
const OUTPUT: &str = "standard output";

/// The bytes that copies of the machine may take, which make going back quick: 64 MiB.
const COPIES: u64 = 64 << 20;

/// The bytes that a copy takes besides those of expanded and extended memory, or some more: 7 MiB.
const COPY: u64 = 7 << 20;

/// How many copies of a machine with this much expanded and extended memory are kept on its way. Room is left for that
/// of its start, and for two that are made when it goes back.
fn copies_of(ems_pages: u32, xms_kib: u32) -> usize
    ensures most { result ≤ 8 }
{
    let size = COPY + ems_pages as u64 * 0x4000 + xms_kib as u64 * 0x400;
    (COPIES / size).saturating_sub(3) as usize
}

/// The next byte of a reader; None at its end. `CannotRead` if the read failed, `OutOfMemory`.
fn next_byte<R: Read>(requests: &mut R) -> Result<Option<u8>, Fault<'static>>
    ensures byte { IfOk result (λ b. GivesByte (R.remaining requests.old) (R.remaining requests.new) b) }
    ensures fault { IfErr result (λ e. IsReadFault e ⊎ (e ≡ Fault.OutOfMemory)) }
{
    let mut bytes = [0u8; 1];
    match requests.read(&mut bytes) {
        Ok(0) => Ok(None),
        Ok(_) => Ok(Some(bytes[0])),
        Err(error) => Err(read_fault(&error, INPUT)),
    }
}

/// Writes bytes to `out` and flushes it; does nothing if there are none. `CannotWrite` if a write or the flush failed,
/// after a first part of the bytes, none or all.
fn write_at_once<W: Out>(out: &mut W, bytes: &[u8]) -> Result<(), Fault<'static>>
    ensures ok { OnOk result (Appends (W.taken out.old) (W.taken out.new) bytes.now) }
    ensures no_failure { OnOk result (W.failures out.new ≡ W.failures out.old) }
    ensures err { IfErr result (λ e. IsWriteFault e) }
    ensures part { OnErr result (AppendsPart (W.taken out.old) (W.taken out.new) bytes.now) }
    ensures failed { OnErr result (HasFailed (W.failures out.old) (W.failures out.new)) }
    ensures some { OnErr result (bytes.now ≢ []) }
{
    if bytes.is_empty() {
        return Ok(());
    }
    let Ok(()) = write_all(out, bytes) else {
        return Err(Fault::CannotWrite(OUTPUT));
    };
    match out.flush() {
        Ok(()) => Ok(()),
        Err(_) => Err(Fault::CannotWrite(OUTPUT)),
    }
}

/// Takes a byte of the stream, and writes what is sent for it to `out` at once. `OutOfMemory` if an allocation failed,
/// with nothing written; `CannotWrite` if a write or the flush failed, after a first part or all of it.
fn take_byte<W: Out>(
    alloc: Global,
    connection: &mut Connection,
    byte: u8,
    most: u64,
    out: &mut W,
) -> Result<(), Fault<'static>>
    ensures ok { OnOk result (IsTakenBy most connection.old byte connection.new (W.taken out.old) (W.taken out.new)) }
    ensures no_failure { OnOk result (W.failures out.new ≡ W.failures out.old) }
    ensures err { IfErr result (IsUntaken most connection.old byte (W.taken out.old) (W.taken out.new)
        (W.failures out.old) (W.failures out.new)) }
{
    let mut sent = Vec::new(alloc);
    let Ok(()) = connection.receive(byte, most, &mut sent) else {
        return Err(Fault::OutOfMemory);
    };
    write_at_once(out, sent.as_slice())
}

/// Takes the bytes of a reader one by one, up to its end or that of the conversation, and writes what is sent for each
/// before it reads the next. A way to go on makes at most `most` steps. A fault ends the conversation too.
fn serve<R: Read, W: Out>(
    alloc: Global,
    connection: &mut Connection,
    requests: &mut R,
    most: u64,
    out: &mut W,
) -> Result<(), Fault<'static>>
    ensures { IsServed most 18446744073709551615 (R.remaining requests.old) connection.old (W.taken out.old) (W.taken
        out.new) (W.failures out.old) (W.failures out.new) (end_of result) }
{
    for _ in 0..u64::MAX {
        if connection.is_over() {
            return Ok(());
        }
        let Some(byte) = next_byte(requests)? else {
            return Ok(());
        };
        take_byte(alloc, connection, byte, most, out)?;
    }
    Ok(())
}

/// Takes the bytes that are read from `requests` through a buffer, as `serve` does. `OutOfMemory` if there is no memory
/// for the buffer.
fn serve_with<I: Read + Drop, W: Out>(
    alloc: Global,
    connection: &mut Connection,
    requests: I,
    most: u64,
    out: &mut W,
) -> Result<(), Fault<'static>>
    ensures { ServesWith most (I.remaining requests) connection.old (W.taken out.old) (W.taken out.new) (W.failures
        out.old) (W.failures out.new) (end_of result) }
{
    let Ok(mut requests) = BufReader::new(alloc, requests) else {
        return Err(Fault::OutOfMemory);
    };
    serve(alloc, connection, &mut requests, most, out)
}

/// `dm gdb`: loads the first file, takes the bytes of GDB's requests as they are read, and writes the replies to `out`.
/// The fault is the first one of the start, or the one that ended the conversation; it is not printed yet.
pub(crate) fn gdb<'a, F: Storage, I: Read + Drop, W: Out>(
    alloc: Global,
    storage: &mut F,
    options: &DebugOptions<'a>,
    requests: I,
    out: &mut W,
) -> Result<(), Fault<'a>>
    ensures does { DebugsByGdb (F.contents storage.old) (I.remaining requests) options.now (W.taken out.old) (W.taken
        out.new) (W.failures out.old) (W.failures out.new) (end_of result) }
    ensures reads { ReadsFiles (F.unread storage.old) (F.unread storage.new) (end_of result) }
    ensures kept { IsKept (F.contents storage.old) (F.contents storage.new) (F.same storage.old) (F.same
        storage.new) (F.saved storage.old) (F.saved storage.new) (F.failures storage.old) (F.failures
        storage.new) (F.found_same storage.old) (F.found_same storage.new) }
{
    let machine = loaded_for_debug(alloc, storage, options)?;
    let copies = copies_of(options.machine.ems_pages, options.machine.xms_kib);
    let Ok(mut connection) = Connection::new(alloc, machine, copies) else {
        return Err(Fault::OutOfMemory);
    };
    serve_with(alloc, &mut connection, requests, options.machine.steps, out)
}
