//! The machine that `dm run`, `dm check`, `dm debug` and `dm gdb` begin with, with the first file loaded.
ghost use Rattle.std.specs.Prelude.{◌≡◌, Some, IfErr, IfOk, IsSomeAnd, OnOk, codes, map, option_map};
ghost use Rattle.dm_cli.specs.Reads.{IsKept, ReadsFiles, TellsOfNoFile, fault_if};
ghost use Rattle.dm_cli.specs.inner.Starting.{IsFirstFault, IsFirstLoaded};
ghost use Rattle.dm_cli.specs.Starting.{IsFileFault, IsMachineFault, IsStartFault, IsStartedBy, paths_of, sizes_of, typed_in};
ghost use Rattle.dm_cli.specs.Stores.{AddsFile, IsBegun, IsFaultOf, IsInputFault, IsRead, Stores, bytes_if_any};
ghost use Rattle.dm_services.specs.state.State.{HasProgram};

use crate::fault::Fault;
use crate::files::{Storage, read_file, read_whole};
use crate::names::{names_file, program_name};
use dm_machine::{Config, Machine, Programs, Sizes};
use dm_options::command_line::{DebugOptions, MachineOptions};
use std::alloc::Global;
use std::io::Read;

/// The largest number of bytes of a command tail.
const MOST_TAIL_BYTES: usize = 126;

/// Reads the file at `path` and adds it to the store, under the last part of its path. On a fault, nothing is added.
fn add_file<'a, F: Storage>(
    alloc: Global,
    storage: &mut F,
    programs: &mut Programs,
    path: &'a str,
) -> Result<(), Fault<'a>>
    ensures ok { OnOk result (AddsFile (F.contents storage.old path.now) programs.old path.now programs.new) }
    ensures fault { IfErr result (IsFaultOf (F.contents storage.old path.now) programs.old path.now) }
    ensures reads { ReadsFiles (F.unread storage.old) (F.unread storage.new) (fault_if result) }
    ensures kept { IsKept (F.contents storage.old) (F.contents storage.new) (F.same storage.old) (F.same
        storage.new) (F.saved storage.old) (F.saved storage.new) (F.failures storage.old) (F.failures
        storage.new) (F.found_same storage.old) (F.found_same storage.new) }
{
    if !names_file(path) {
        return Err(Fault::CannotRead(path));
    }
    let bytes = read_file(alloc, storage, path)?;
    let name = program_name(path)?;
    match programs.add(alloc, name, bytes) {
        Ok(()) => Ok(()),
        Err(refusal) => Err(Fault::from(refusal)),
    }
}

/// A store of the files at `paths`, each under the last part of its path; or the first fault of a file, in their order.
fn read_programs<'a, F: Storage>(
    alloc: Global,
    storage: &mut F,
    paths: &[&'a str],
) -> Result<Programs, Fault<'a>>
    ensures store { IfOk result (λ store. Stores (F.contents storage.old) (map (λ path. path.now) paths.now) store) }
    ensures fault { IfErr result (IsFileFault (F.contents storage.old) (map (λ path. path.now) paths.now)) }
    ensures reads { ReadsFiles (F.unread storage.old) (F.unread storage.new) (fault_if result) }
    ensures kept { IsKept (F.contents storage.old) (F.contents storage.new) (F.same storage.old) (F.same
        storage.new) (F.saved storage.old) (F.saved storage.new) (F.failures storage.old) (F.failures
        storage.new) (F.found_same storage.old) (F.found_same storage.new) }
{
    let mut programs = Programs::new(alloc);
    for path in paths {
        add_file(alloc, storage, &mut programs, path)?;
    }
    Ok(programs)
}

/// Loads the first file into a new machine, with the command tail. Its faults are `TailTooLong`, `NotFound` if there is
/// no file, and those of its name and of the load; with a fault the machine stays.
fn load_first<'a>(machine: &mut Machine, options: &MachineOptions<'a>) -> Result<(), Fault<'a>>
    requires fresh { machine.old.processes.present ≡ 0 }
    ensures ok { OnOk result (IsFirstLoaded machine.old (paths_of options.now) options.now.tail.now machine.new) }
    ensures fault { IfErr result (IsFirstFault machine.old options.now) }
    ensures loaded { OnOk result (HasProgram machine.new) }
    ensures reads { IfErr result (λ e. TellsOfNoFile (Some e)) }
{
    let tail = options.tail.as_bytes();
    if tail.len() > MOST_TAIL_BYTES {
        return Err(Fault::TailTooLong);
    }
    let first = options.files.first().ok_or(Fault::NotFound)?;
    machine.load(program_name(first)?, tail)?;
    Ok(())
}

/// A new machine over a store of programs and a console input, with the first file loaded; or the first fault of the
/// options or of the load.
fn begun<'a>(
    alloc: Global,
    options: &MachineOptions<'a>,
    programs: Programs,
    input: Vec<u8>,
) -> Result<Machine, Fault<'a>>
    ensures begun { IfOk result (IsBegun programs input.items (sizes_of options.now) options.now.upper
        (paths_of options.now) options.now.tail.now) }
    ensures fault { IfErr result (IsMachineFault programs input.items options.now) }
    ensures loaded { IfOk result (λ machine. HasProgram machine) }
    ensures reads { IfErr result (λ e. TellsOfNoFile (Some e)) }
{
    let config = Config {
        sizes: Sizes {
            ems_pages: options.ems_pages,
            xms_kib: options.xms_kib,
        },
        variables: Vec::new(alloc),
        upper: options.upper,
    };
    let mut machine = Machine::new(alloc, config, programs, input)?;
    load_first(&mut machine, options)?;
    Ok(machine)
}

/// The machine of `dm run` and `dm check`, with the first file loaded; its console input is all of `input`. Or the
/// first fault: of the files, of the input, of the machine.
pub(crate) fn loaded<'a, F: Storage, I: Read + Drop>(
    alloc: Global,
    storage: &mut F,
    options: &MachineOptions<'a>,
    input: I,
) -> Result<Machine, Fault<'a>>
    ensures started { IfOk result (IsStartedBy (F.contents storage.old) (I.remaining input) options.now) }
    ensures fault { IfErr result (IsStartFault (F.contents storage.old) (I.remaining input)
        (Some (codes "standard input")) options.now) }
    ensures loaded { IfOk result (λ machine. HasProgram machine) }
    ensures reads { ReadsFiles (F.unread storage.old) (F.unread storage.new) (fault_if result) }
    ensures kept { IsKept (F.contents storage.old) (F.contents storage.new) (F.same storage.old) (F.same
        storage.new) (F.saved storage.old) (F.saved storage.new) (F.failures storage.old) (F.failures
        storage.new) (F.found_same storage.old) (F.found_same storage.new) }
{
    let programs = read_programs(alloc, storage, options.files.as_slice())?;
    let input = read_whole(alloc, input, "standard input")?;
    begun(alloc, options, programs, input)
}

/// The bytes of the file at `path`, with the faults of `read_file`; no bytes for None.
fn read_if_any<'a, F: Storage>(
    alloc: Global,
    storage: &mut F,
    path: Option<&'a str>,
) -> Result<Vec<u8>, Fault<'a>>
    ensures bytes { IfOk result (λ v. IsRead (bytes_if_any (F.contents storage.old)
        (option_map (λ path. path.now) path.entry)) v.items) }
    ensures fault { IfErr result (λ e. IsSomeAnd (option_map (λ path. path.now) path.entry)
        (λ name. IsInputFault (bytes_if_any (F.contents storage.old) (Some name)) name e)) }
    ensures reads { ReadsFiles (F.unread storage.old) (F.unread storage.new) (fault_if result) }
    ensures kept { IsKept (F.contents storage.old) (F.contents storage.new) (F.same storage.old) (F.same
        storage.new) (F.saved storage.old) (F.saved storage.new) (F.failures storage.old) (F.failures
        storage.new) (F.found_same storage.old) (F.found_same storage.new) }
{
    match path {
        Some(path) => read_file(alloc, storage, path),
        None => Ok(Vec::new(alloc)),
    }
}

/// The machine of `dm debug` and `dm gdb`, with the first file loaded; its console input is the file of `--input`, if
/// there is one. Or the first fault: of the files, of the input, of the machine.
pub(crate) fn loaded_for_debug<'a, F: Storage>(
    alloc: Global,
    storage: &mut F,
    options: &DebugOptions<'a>,
) -> Result<Machine, Fault<'a>>
    ensures started { IfOk result (IsStartedBy (F.contents storage.old) (typed_in (F.contents storage.old) options.now)
        options.now.machine) }
    ensures fault { IfErr result (IsStartFault (F.contents storage.old) (typed_in (F.contents storage.old) options.now)
        (option_map (λ path. path.now) options.now.input) options.now.machine) }
    ensures loaded { IfOk result (λ machine. HasProgram machine) }
    ensures reads { ReadsFiles (F.unread storage.old) (F.unread storage.new) (fault_if result) }
    ensures kept { IsKept (F.contents storage.old) (F.contents storage.new) (F.same storage.old) (F.same
        storage.new) (F.saved storage.old) (F.saved storage.new) (F.failures storage.old) (F.failures
        storage.new) (F.found_same storage.old) (F.found_same storage.new) }
{
    let programs = read_programs(alloc, storage, options.machine.files.as_slice())?;
    let input = read_if_any(alloc, storage, options.input)?;
    begun(alloc, &options.machine, programs, input)
}
