//! The functions of the extended memory driver (XMS 3.0), by their numbers in AH.
ghost use Rattle.std.specs.Prelude.{◌≡◌};
ghost use Rattle.dm_xms.specs.Tables.{extended};
ghost use Rattle.dm_xms.specs.Consistent.{IsConsistent};
ghost use Rattle.dm_drivers.specs.extended.Caller.{caller};
ghost use Rattle.dm_drivers.specs.extended.Functions.{call, dispatched, function_of};

use crate::extended::answers::refuse;
use crate::extended::area::{release_area, take_area, tell_version};
use crate::extended::blocks::{
    allocate, deallocate, lock, move_memory, reallocate, tell_free, tell_information, unlock,
};
use crate::extended::line::{
    disable_globally, disable_locally, enable_globally, enable_locally, tell_line,
};
use crate::extended::uppers::{release, request, resize};
use dm_cpu::Cpu;
use dm_ins::ByteRegister;
use dm_space::Space;
use dm_xms::Xms;

/// The error code of a function that the driver does not have.
const NO_FUNCTION: u8 = 0x80;

/// A function of the extended memory driver, which AH names.
#[derive(Clone, Copy, Debug, PartialEq, Eq)]
pub enum Function {
    /// 00h: returns the version.
    Version,
    /// 01h: takes the high memory area.
    TakeArea,
    /// 02h: releases the high memory area.
    ReleaseArea,
    /// 03h: turns the global switch of A20 on.
    EnableGlobally,
    /// 04h: turns the global switch of A20 off.
    DisableGlobally,
    /// 05h: adds one to the local count of A20.
    EnableLocally,
    /// 06h: takes one from the local count of A20.
    DisableLocally,
    /// 07h: returns whether A20 is on.
    Line,
    /// 08h: returns how much extended memory is free.
    FreeSize,
    /// 09h: allocates a block of DX KiB.
    Allocate,
    /// 0Ah: frees the block of the handle in DX.
    Deallocate,
    /// 0Bh: moves memory as the structure at DS:SI says.
    MoveMemory,
    /// 0Ch: locks the block of the handle in DX, and returns its address.
    Lock,
    /// 0Dh: takes a lock from the block of the handle in DX.
    Unlock,
    /// 0Eh: returns the locks and the size of the block of the handle in DX, and the number of free handles.
    Information,
    /// 0Fh: resizes the block of the handle in DX to BX KiB.
    Reallocate,
    /// 10h: allocates an upper memory block of DX paragraphs.
    RequestUpper,
    /// 11h: frees the upper memory block at segment DX.
    ReleaseUpper,
    /// 12h: resizes the upper memory block at segment DX to BX paragraphs.
    ResizeUpper,
    /// Any other number.
    Unknown,
}

/// The function of the extended memory driver with this number, which calls have in AH; `Unknown` for a number that the
/// driver does not have.
#[inline(always)]
pub fn function_of(number: u8) -> Function
    ensures { result ≡ function_of number }
{
    match number {
        0x00 => Function::Version,
        0x01 => Function::TakeArea,
        0x02 => Function::ReleaseArea,
        0x03 => Function::EnableGlobally,
        0x04 => Function::DisableGlobally,
        0x05 => Function::EnableLocally,
        0x06 => Function::DisableLocally,
        0x07 => Function::Line,
        0x08 => Function::FreeSize,
        0x09 => Function::Allocate,
        0x0A => Function::Deallocate,
        0x0B => Function::MoveMemory,
        0x0C => Function::Lock,
        0x0D => Function::Unlock,
        0x0E => Function::Information,
        0x0F => Function::Reallocate,
        0x10 => Function::RequestUpper,
        0x11 => Function::ReleaseUpper,
        0x12 => Function::ResizeUpper,
        _ => Function::Unknown,
    }
}

/// Does one function of the driver, on the registers, the tables and the memory. `upper` is whether upper memory
/// belongs to the arena of DOS. The scratch part of the space may be overwritten.
#[tactic(auto, unfolding(crate::specs::extended::Functions::call))]
fn call(cpu: &mut Cpu, xms: &mut Xms, space: &mut Space, upper: bool, function: Function)
    requires { IsConsistent (extended xms.old space.old.memory) }
    ensures { caller cpu.new xms.new space.new.memory ≡ call upper (caller cpu.old xms.old space.old.memory) function }
{
    match function {
        Function::Version => tell_version(cpu),
        Function::TakeArea => take_area(cpu, xms, space),
        Function::ReleaseArea => release_area(cpu, xms, space),
        Function::EnableGlobally => enable_globally(cpu, xms, space),
        Function::DisableGlobally => disable_globally(cpu, xms, space),
        Function::EnableLocally => enable_locally(cpu, xms, space),
        Function::DisableLocally => disable_locally(cpu, xms, space),
        Function::Line => tell_line(cpu, space),
        Function::FreeSize => tell_free(cpu, xms, space),
        Function::Allocate => allocate(cpu, xms, space),
        Function::Deallocate => deallocate(cpu, xms, space),
        Function::MoveMemory => move_memory(cpu, xms, space),
        Function::Lock => lock(cpu, xms, space),
        Function::Unlock => unlock(cpu, xms, space),
        Function::Information => tell_information(cpu, xms, space),
        Function::Reallocate => reallocate(cpu, xms, space),
        Function::RequestUpper => request(cpu, xms, space, upper),
        Function::ReleaseUpper => release(cpu, xms, space, upper),
        Function::ResizeUpper => resize(cpu, xms, space, upper),
        Function::Unknown => refuse(cpu, NO_FUNCTION),
    }
}

/// Does the function that AH selects, on the registers of the program that calls, the tables of extended memory and
/// the memory, which are consistent. AX is then 1, or after an error 0, with the error code in BL; functions 00h and
/// 08h return other values in AX, and 07h returns 0 in AX and BL while A20 is off. `upper` is whether upper memory
/// belongs to the arena of DOS: then the driver allocates no upper memory blocks. The scratch part of the space may be
/// overwritten.
pub fn extended_memory_call(cpu: &mut Cpu, xms: &mut Xms, space: &mut Space, upper: bool)
    requires { IsConsistent (extended xms.old space.old.memory) }
    ensures { caller cpu.new xms.new space.new.memory ≡ dispatched upper (caller cpu.old xms.old space.old.memory) }
{
    let function = function_of(cpu.byte(ByteRegister::Ah));
    call(cpu, xms, space, upper, function);
}
