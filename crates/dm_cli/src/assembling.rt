//! `dm asm` and `dm disasm`: from a file's text to bytes, and from a file's bytes to text.
ghost use Rattle.std.specs.Prelude.{◌≡◌, IfErr, IfOk};
ghost use Rattle.dm_cli.specs.Assembling.{AssemblesFile, Disassembles, IsAsmFault, IsAssembled, IsDisasmFault, IsDisassembled};
ghost use Rattle.dm_cli.specs.Reads.{IsKept, ReadsFiles, fault_if};
ghost use Rattle.dm_cli.specs.inner.Statuses.{end_of};

use crate::fault::Fault;
use crate::files::{Storage, read_file, write_fault};
use dm_asm::{assemble, disassemble};
use dm_console::writers::write_all;
use dm_machine::Out;
use dm_options::command_line::AsmOptions;
use std::alloc::Global;

/// The largest number of bytes of a program that `dm disasm` lists.
const MOST_PROGRAM_BYTES: usize = 65_278;

/// The bytes of the program whose assembly text is in the file at `path`; or a fault of the file or of the text, or
/// `OutOfMemory`.
fn assembled<'a, F: Storage>(
    alloc: Global,
    storage: &mut F,
    path: &'a str,
) -> Result<Vec<u8>, Fault<'a>>
    ensures bytes { IfOk result (λ bytes. IsAssembled (F.contents storage.old path.now) bytes.items) }
    ensures fault { IfErr result (IsAsmFault (F.contents storage.old path.now) path.now) }
    ensures reads { ReadsFiles (F.unread storage.old) (F.unread storage.new) (fault_if result) }
    ensures kept { IsKept (F.contents storage.old) (F.contents storage.new) (F.same storage.old) (F.same
        storage.new) (F.saved storage.old) (F.saved storage.new) (F.failures storage.old) (F.failures
        storage.new) (F.found_same storage.old) (F.found_same storage.new) }
{
    let text = read_file(alloc, storage, path)?;
    let bytes = assemble(alloc, text.as_slice())?;
    Ok(bytes)
}

/// The assembly text of the program in the file at `path`; or a fault of the file, `TooLong` over 65,278 bytes, or
/// `OutOfMemory`.
fn disassembled<'a, F: Storage>(
    alloc: Global,
    storage: &mut F,
    path: &'a str,
) -> Result<Vec<u8>, Fault<'a>>
    ensures lines { IfOk result (λ text. IsDisassembled (F.contents storage.old path.now) text.items) }
    ensures fault { IfErr result (IsDisasmFault (F.contents storage.old path.now) path.now) }
    ensures reads { ReadsFiles (F.unread storage.old) (F.unread storage.new) (fault_if result) }
    ensures kept { IsKept (F.contents storage.old) (F.contents storage.new) (F.same storage.old) (F.same
        storage.new) (F.saved storage.old) (F.saved storage.new) (F.failures storage.old) (F.failures
        storage.new) (F.found_same storage.old) (F.found_same storage.new) }
{
    let bytes = read_file(alloc, storage, path)?;
    if bytes.len() > MOST_PROGRAM_BYTES {
        return Err(Fault::TooLong);
    }
    match disassemble(alloc, bytes.as_slice()) {
        Ok(text) => Ok(text),
        Err(_) => Err(Fault::OutOfMemory),
    }
}

/// `dm asm`: assembles the file `IN` and writes the bytes to the file `OUT`. If `IN` cannot be read or assembled, no
/// file is written, nor over `IN` itself, by the same path or another. If the write fails, what `OUT` then holds is not
/// known.
pub(crate) fn asm<'a, F: Storage>(
    alloc: Global,
    storage: &mut F,
    options: &AsmOptions<'a>,
) -> Result<(), Fault<'a>>
    ensures does { AssemblesFile (F.contents storage.old) (F.same storage.old) options.now (F.saved storage.old) (F.saved
        storage.new) (F.failures storage.old) (F.failures storage.new) (F.found_same storage.old) (F.found_same
        storage.new) (end_of result) }
    ensures reads { ReadsFiles (F.unread storage.old) (F.unread storage.new) (end_of result) }
{
    let bytes = assembled(alloc, storage, options.input)?;
    if options.output == options.input {
        return Err(Fault::CannotWrite(options.output));
    }
    if storage.is_one_file(options.output, options.input) {
        return Err(Fault::CannotWrite(options.output));
    }
    match storage.save(options.output, bytes.as_slice()) {
        Ok(()) => Ok(()),
        Err(error) => Err(write_fault(&error, options.output)),
    }
}

/// `dm disasm`: writes the assembly text of the program in the file at `path` to `out`. `CannotWrite` if a write
/// failed, after a first part of the text or none; with any other fault, nothing is written.
pub(crate) fn disasm<'a, F: Storage, W: Out>(
    alloc: Global,
    storage: &mut F,
    path: &'a str,
    out: &mut W,
) -> Result<(), Fault<'a>>
    ensures does { Disassembles (F.contents storage.old) path.now (W.taken out.old) (W.taken out.new)
        (W.failures out.old) (W.failures out.new) (end_of result) }
    ensures reads { ReadsFiles (F.unread storage.old) (F.unread storage.new) (end_of result) }
    ensures kept { IsKept (F.contents storage.old) (F.contents storage.new) (F.same storage.old) (F.same
        storage.new) (F.saved storage.old) (F.saved storage.new) (F.failures storage.old) (F.failures
        storage.new) (F.found_same storage.old) (F.found_same storage.new) }
{
    let text = disassembled(alloc, storage, path)?;
    match write_all(out, text.as_slice()) {
        Ok(()) => Ok(()),
        Err(_) => Err(Fault::CannotWrite("standard output")),
    }
}
