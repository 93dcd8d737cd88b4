//! The commands of a debugger that list a part of the machine and do not change it. Each function appends its text to
//! `out`; an `Err` is a failed allocation, after which a first part of the text may be in `out`.

ghost use Rattle.std.specs.Prelude.{◌≡◌, ◌++◌, List, ℕ, OnOk};
ghost use Rattle.dm_views.specs.Arena.{IsArenaText};
ghost use Rattle.dm_views.specs.Bytes.{bytes_text};
ghost use Rattle.dm_views.specs.Code.{IsCode};
ghost use Rattle.dm_views.specs.Extended.{extended_text};
ghost use Rattle.dm_views.specs.Pages.{pages_text};
ghost use Rattle.dm_views.specs.Registers.{IsRegistersText};

use dm_machine::Machine;
use dm_requests::commands::LogicalAddress;
use dm_views::{put_arena, put_bytes, put_code, put_extended, put_pages, put_registers};
use std::alloc::AllocError;

/// R: appends the registers, and the line of the instruction at CS:IP. (G and T print this too.)
pub(crate) fn put_machine(out: &mut Vec<u8>, machine: &Machine) -> Result<(), AllocError>
    ensures { OnOk result ((text : List ℕ) × (out.new.items ≡ out.old.items ++ text) ×
        IsRegistersText machine.now.cpu machine.now.memory text) }
{
    put_registers(out, &machine.cpu(), machine.space())
}

/// U: appends the lines of `count` instructions from an address on.
pub(crate) fn unassemble(
    out: &mut Vec<u8>,
    machine: &Machine,
    at: LogicalAddress,
    count: u16,
) -> Result<(), AllocError>
    ensures { OnOk result ((text : List ℕ) × (out.new.items ≡ out.old.items ++ text) ×
        IsCode machine.now.memory at.segment at.offset count text) }
{
    put_code(out, machine.space(), at.segment, at.offset, count)
}

/// D: appends the lines of `count` bytes from an address on.
pub(crate) fn dump(
    out: &mut Vec<u8>,
    machine: &Machine,
    at: LogicalAddress,
    count: u32,
) -> Result<(), AllocError>
    ensures { OnOk result (out.new.items ≡ out.old.items ++ bytes_text machine.now.memory at.segment at.offset count) }
{
    put_bytes(out, machine.space(), at.segment, at.offset, count)
}

/// M: appends the headers of the arena, and those of upper memory if it belongs to the arena and is not linked.
pub(crate) fn arena(out: &mut Vec<u8>, machine: &Machine) -> Result<(), AllocError>
    ensures { OnOk result ((text : List ℕ) × (out.new.items ≡ out.old.items ++ text) ×
        IsArenaText machine.now.upper machine.now.memory text) }
{
    put_arena(out, machine.space(), machine.upper())
}

/// P: appends the handles of expanded memory, and what the windows show.
pub(crate) fn pages(out: &mut Vec<u8>, machine: &Machine) -> Result<(), AllocError>
    ensures { OnOk result (out.new.items ≡ out.old.items ++ pages_text machine.now.ems machine.now.memory) }
{
    put_pages(out, machine.ems(), machine.space())
}

/// X: appends the blocks of extended memory, the upper memory blocks, A20 and the high memory area.
pub(crate) fn extended(out: &mut Vec<u8>, machine: &Machine) -> Result<(), AllocError>
    ensures { OnOk result (out.new.items ≡ out.old.items ++ extended_text machine.now.xms machine.now.memory) }
{
    put_extended(out, machine.xms(), machine.space())
}

/// O: appends all bytes that were written to the console since the machine was made.
pub(crate) fn output(out: &mut Vec<u8>, machine: &Machine) -> Result<(), AllocError>
    ensures { OnOk result (out.new.items ≡ out.old.items ++ machine.now.console.output) }
{
    out.extend_from_slice(machine.output())
}
