//! The registers by their numbers: those of the feature `org.gnu.gdb.i386.core`, and three of this server's own.

ghost use Rattle.std.specs.Prelude.{◌≡◌, ◌++◌, IfOk, OnOk, true};
ghost use Rattle.dm_target.specs.Registers.{core_values, register_bytes, has_register, all_registers};

use crate::memory::linear_of;
use dm_machine::Machine;
use std::alloc::{AllocError, Global};

/// How many registers there are.
const COUNT: u32 = 35;

/// The registers 0 to 15, in 32 bits: EAX, ECX, EDX, EBX, ESP, EBP, ESI, EDI, EIP, EFLAGS, CS, SS, DS, ES, FS, GS. ESP
/// and EIP are linear addresses, the others the 16-bit registers, and FS and GS 0.
fn core_values(machine: &Machine) -> [u32; 16]
    ensures { result ≡ core_values machine.now.cpu machine.now.memory }
{
    let cpu = machine.cpu();
    [
        cpu.ax as u32,
        cpu.cx as u32,
        cpu.dx as u32,
        cpu.bx as u32,
        linear_of(machine.space(), cpu.ss, cpu.sp),
        cpu.bp as u32,
        cpu.si as u32,
        cpu.di as u32,
        linear_of(machine.space(), cpu.cs, cpu.ip),
        cpu.flags.to_word() as u32,
        cpu.cs as u32,
        cpu.ss as u32,
        cpu.ds as u32,
        cpu.es as u32,
        0,
        0,
    ]
}

/// Whether there is a register with this number.
pub fn has_register(number: u32) -> bool
    ensures { result ≡ has_register number }
{
    number < COUNT
}

/// Appends the bytes of a register, the lowest first: 4 for the numbers 0 to 15, 10 for 16 to 23, 4 for 24 to 31, 2 for
/// 32 and 33, 8 for 34. An `Err` is a failed allocation.
pub fn put_register(out: &mut Vec<u8>, machine: &Machine, number: u32) -> Result<(), AllocError>
    requires { has_register number ≡ true }
    ensures { OnOk result (out.new.items ≡ out.old.items ++ register_bytes machine.now number) }
{
    if number < 16 {
        return out.extend_from_slice(&core_values(machine)[number as usize].to_le_bytes());
    }
    if number < 24 {
        return out.extend_from_slice(&[0; 10]);
    }
    if number < 32 {
        return out.extend_from_slice(&[0; 4]);
    }
    match number {
        32 => out.extend_from_slice(&machine.cpu().ip.to_le_bytes()),
        33 => out.extend_from_slice(&machine.cpu().sp.to_le_bytes()),
        _ => out.extend_from_slice(&machine.steps().to_le_bytes()),
    }
}

/// The bytes of all registers, in the order of their numbers. An `Err` is a failed allocation.
pub fn all_registers(alloc: Global, machine: &Machine) -> Result<Vec<u8>, AllocError>
    ensures { IfOk result (λ bytes. bytes.items ≡ all_registers machine.now) }
{
    let mut bytes = Vec::new(alloc);
    for number in 0..COUNT {
        put_register(&mut bytes, machine, number)?;
    }
    Ok(bytes)
}
