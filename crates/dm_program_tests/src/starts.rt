//! Which machines are made, which programs they load, and what a first program finds that `dm` does not
//! give it.
ghost use Rattle.dm_proc.specs.Programs.{IsName};

use crate::checks::same;
use crate::machines::{SEGMENT, machine_with, sized, store, sum_of_memory};
use dm_machine::{AddError, LoadError, NewError, Programs, Sizes};
use std::alloc::Global;
use std::process::Abort;
use std::test::Fail;

/// Whether a machine with these sizes is made.
fn fits(rt: &impl Abort, alloc: Global, sizes: Sizes, wanted: bool) -> Result<(), Fail> {
    let found = match sized(alloc, sizes, Programs::new(alloc)) {
        Ok(_) => true,
        Err(refusal) => {
            same(rt, "refusal", refusal, NewError::TooLarge);
            false
        }
    };
    same(rt, "fits", found, wanted);
    Ok(())
}

/// Definitions: dm_pool Stored IsTooLarge
#[test]
fn sizes_too_large(rt: HostRuntime) -> Result<(), Fail> {
    for (ems_pages, xms_kib, wanted) in [
        (513, 0, false),
        (0, 15_361, false),
        (0, 0, true),
        (512, 15_360, true),
    ] {
        fits(&rt, rt.alloc(), Sizes { ems_pages, xms_kib }, wanted)?;
    }
    Ok(())
}

/// Definitions: dm_proc Programs program_of has_program
#[test]
fn store_takes_a_name_once(rt: HostRuntime) -> Result<(), Fail> {
    let mut programs = Programs::new(rt.alloc());
    for (name, answer) in [
        (b"HI.COM".as_slice(), Ok(())),
        (b"hi.com", Err(AddError::Twice)),
        (b"HI.COM", Err(AddError::Twice)),
    ] {
        let added = programs.add(rt.alloc(), name, Vec::new(rt.alloc()));
        same(&rt, "added", added, answer);
    }
    Ok(())
}

/// Loads a program of this name from a store whose one program, HI.COM, is this file. The load
/// has this result; if it fails no byte changes.
fn answers(
    rt: &impl Abort,
    alloc: Global,
    file: &[u8],
    name: &[u8],
    answer: Result<(), LoadError>,
) -> Result<(), Fail>
    requires { IsName name.now }
{
    let mut machine = machine_with(alloc, store(alloc, b"HI.COM", file)?, b"", b"")?;
    let before = sum_of_memory(&machine);
    same(rt, "load", machine.load(name, b""), answer);
    same(rt, "is loaded", machine.is_loaded(), answer.is_ok());
    let pointer = if answer.is_ok() { 0xFFFE } else { 0 };
    same(rt, "SP", machine.cpu().sp, pointer);
    let stays = sum_of_memory(&machine) == before;
    same(rt, "memory stays", stays, answer.is_err());
    Ok(())
}

/// An MZ file that is only a header, which asks for FFFFh paragraphs.
const GREEDY: [u8; 28] = [
    b'M', b'Z', 28, 0, 1, 0, 0, 0, 1, 0, 0xFF, 0xFF, 0, 0, 0, 0, 0, 0, 0, 0, 0, 0, 0, 0, 0, 0, 0, 0,
];

/// Definitions: dm_proc Programs program_of has_program; dm_services state.State State HasProgram
/// Definitions: dm_machine Start IsNew clear_registers clear_flags IsBadProgram HasNoRoom
#[test]
fn refused_loads_change_nothing(rt: HostRuntime) -> Result<(), Fail> {
    let alloc = rt.alloc();
    answers(&rt, alloc, b"", b"NO.COM", Err(LoadError::NotFound))?;
    answers(&rt, alloc, b"MZ", b"HI.COM", Err(LoadError::BadFormat))?;
    answers(&rt, alloc, &GREEDY, b"HI.COM", Err(LoadError::Short))?;
    answers(&rt, alloc, b"", b"hi.com", Ok(()))
}

/// Definitions: dm_machine Start IsLoaded passed_first
#[test]
fn first_program_has_variables(rt: HostRuntime) -> Result<(), Fail> {
    let alloc = rt.alloc();
    let mut machine = machine_with(alloc, store(alloc, b"HI.COM", b"")?, b"A=1\0", b"")?;
    machine.load(b"HI.COM", b"")?;
    let [low, high] = [machine.peek(SEGMENT, 0x2C), machine.peek(SEGMENT, 0x2D)];
    same(&rt, "environment", [low, high], [0x01, 0x01]);
    for (byte, at) in b"A=1\0\0\x01\0HI.COM\0".iter().zip(0..14) {
        same(&rt, "byte of it", machine.peek(0x0101, at), *byte);
    }
    Ok(())
}
