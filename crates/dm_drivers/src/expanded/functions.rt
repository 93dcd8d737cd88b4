//! The functions of INT 67h (LIM EMS 4.0, section 3).
ghost use Rattle.std.specs.Prelude.{◌≡◌};
ghost use Rattle.dm_ems.specs.Tables.{expanded};
ghost use Rattle.dm_ems.specs.Consistent.{IsConsistent};
ghost use Rattle.dm_drivers.specs.expanded.Caller.{caller};
ghost use Rattle.dm_drivers.specs.expanded.Functions.{call, dispatched, function_of};

use crate::expanded::answers::succeed;
use crate::expanded::frame::{mappable, tell_frame, tell_version};
use crate::expanded::handles::{
    allocate, count_handles, count_pages, deallocate, list_pages, reallocate, tell_pages,
};
use crate::expanded::names::{directory, handle_name};
use crate::expanded::regions::move_or_exchange;
use crate::expanded::windows::{map_many, map_page, restore_map, save_map, whole_map};
use dm_cpu::Cpu;
use dm_ems::Ems;
use dm_ins::ByteRegister;
use dm_space::Space;

/// The status of a function that the driver does not have.
const NO_FUNCTION: u8 = 0x84;

/// A function of INT 67h, which AH names.
#[derive(Clone, Copy, Debug, PartialEq, Eq)]
pub enum Function {
    /// 40h: the driver is there.
    Status,
    /// 41h: returns the segment of the frame.
    Frame,
    /// 42h: returns how many pages can still be allocated, and how many there are.
    PageCounts,
    /// 43h: allocates a handle with BX pages.
    Allocate,
    /// 44h: makes window AL show page BX of the handle in DX, or nothing.
    MapPage,
    /// 45h: frees the handle in DX and its pages.
    Deallocate,
    /// 46h: returns the version.
    Version,
    /// 47h: saves what the windows show under the handle in DX.
    SaveMap,
    /// 48h: makes the windows show what was saved under the handle in DX.
    RestoreMap,
    /// 4Bh: returns the number of handles in use.
    CountHandles,
    /// 4Ch: returns the number of pages of the handle in DX.
    CountPages,
    /// 4Dh: lists the handles in use, with their numbers of pages.
    ListPages,
    /// 4Eh: writes or sets the map of all windows, or returns its size.
    WholeMap,
    /// 50h: makes windows show pages of the handle in DX, or nothing, as CX pairs say.
    MapMany,
    /// 51h: gives the handle in DX BX pages in all.
    Reallocate,
    /// 53h: returns or sets the name of the handle in DX.
    HandleName,
    /// 54h: lists the names of handles, searches for one, or returns the number of all handles.
    Directory,
    /// 57h: moves or exchanges regions of memory.
    Regions,
    /// 58h: lists the windows, or returns their number.
    Mappable,
    /// Any other number.
    Unknown,
}

/// The function of INT 67h with this number, which calls have in AH; `Unknown` for a number that the driver does not
/// have.
#[inline(always)]
pub fn function_of(number: u8) -> Function
    ensures { result ≡ function_of number }
{
    match number {
        0x40 => Function::Status,
        0x41 => Function::Frame,
        0x42 => Function::PageCounts,
        0x43 => Function::Allocate,
        0x44 => Function::MapPage,
        0x45 => Function::Deallocate,
        0x46 => Function::Version,
        0x47 => Function::SaveMap,
        0x48 => Function::RestoreMap,
        0x4B => Function::CountHandles,
        0x4C => Function::CountPages,
        0x4D => Function::ListPages,
        0x4E => Function::WholeMap,
        0x50 => Function::MapMany,
        0x51 => Function::Reallocate,
        0x53 => Function::HandleName,
        0x54 => Function::Directory,
        0x57 => Function::Regions,
        0x58 => Function::Mappable,
        _ => Function::Unknown,
    }
}

/// Does one function of INT 67h, on the registers, the tables and the memory. The scratch part of the space may be
/// overwritten.
#[tactic(auto, unfolding(crate::specs::expanded::Functions::call))]
fn call(cpu: &mut Cpu, ems: &mut Ems, space: &mut Space, function: Function)
    requires { IsConsistent (expanded ems.old space.old.memory) }
    ensures { caller cpu.new ems.new space.new.memory ≡ call (caller cpu.old ems.old space.old.memory) function }
{
    match function {
        Function::Status => succeed(cpu),
        Function::Frame => tell_frame(cpu),
        Function::PageCounts => tell_pages(cpu, ems, space),
        Function::Allocate => allocate(cpu, ems, space),
        Function::MapPage => map_page(cpu, ems, space),
        Function::Deallocate => deallocate(cpu, ems, space),
        Function::Version => tell_version(cpu),
        Function::SaveMap => save_map(cpu, ems, space),
        Function::RestoreMap => restore_map(cpu, ems, space),
        Function::CountHandles => count_handles(cpu, ems, space),
        Function::CountPages => count_pages(cpu, ems, space),
        Function::ListPages => list_pages(cpu, ems, space),
        Function::WholeMap => whole_map(cpu, ems, space),
        Function::MapMany => map_many(cpu, ems, space),
        Function::Reallocate => reallocate(cpu, ems, space),
        Function::HandleName => handle_name(cpu, ems, space),
        Function::Directory => directory(cpu, ems, space),
        Function::Regions => move_or_exchange(cpu, ems, space),
        Function::Mappable => mappable(cpu, ems, space),
        Function::Unknown => cpu.set_byte(ByteRegister::Ah, NO_FUNCTION),
    }
}

/// Does the function of INT 67h that AH selects, on the registers of the program that calls, the tables of expanded
/// memory and the memory, which are consistent. AH is then the status: 0 for success, 92h for a move that succeeds with
/// regions that overlap, 84h where there is no such function, otherwise the error; DX, BX, AL, CX and the program's
/// buffers hold what each function returns (LIM EMS 4.0, section 3). Only 57h may overwrite the scratch part of the
/// space.
pub fn expanded_memory_call(cpu: &mut Cpu, ems: &mut Ems, space: &mut Space)
    requires { IsConsistent (expanded ems.old space.old.memory) }
    ensures { caller cpu.new ems.new space.new.memory ≡ dispatched (caller cpu.old ems.old space.old.memory) }
{
    let function = function_of(cpu.byte(ByteRegister::Ah));
    call(cpu, ems, space, function);
}
