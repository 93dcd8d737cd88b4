//! The listing of the registers (Intel 8086 Family User's Manual, section 2.2, registers and flags). Each function
//! `put_..` appends its text to `out`; an `Err` is a failed allocation.

ghost use Rattle.std.specs.Prelude.{◌≡◌, ◌++◌, List, ℕ, OnOk};
ghost use Rattle.dm_views.specs.Registers.{field_text, fields_text, IsRegistersText};

use crate::code::put_line;
use crate::digits::word_digits;
use dm_cpu::Cpu;
use dm_space::Space;
use std::alloc::AllocError;

/// A register as it is listed: its name of two letters, and its value.
#[derive(Clone, Copy)]
pub(crate) struct Field {
    name: [u8; 2],
    value: u16,
}

/// Appends a register as `NAME=VALUE`, with four hexadecimal digits.
fn put_field(out: &mut Vec<u8>, field: Field) -> Result<(), AllocError>
    ensures { OnOk result (out.new.items ≡ out.old.items ++ field_text field) }
{
    out.extend_from_slice(&field.name)?;
    out.extend_from_slice(b"=")?;
    out.extend_from_slice(&word_digits(field.value))
}

/// Appends a line of registers, separated by spaces.
fn put_fields(out: &mut Vec<u8>, fields: &[Field]) -> Result<(), AllocError>
    ensures { OnOk result (out.new.items ≡ out.old.items ++ fields_text fields.now) }
{
    if let [first, rest @ ..] = fields {
        put_field(out, *first)?;
        for field in rest {
            out.extend_from_slice(b" ")?;
            put_field(out, *field)?;
        }
    }
    out.extend_from_slice(b"\n")
}

/// A register with its name and its value.
fn named(name: [u8; 2], value: u16) -> Field
    ensures { result ≡ record { name = name; value = value } }
{
    Field { name, value }
}

/// The registers of the first line: AX to DX, SP, BP, SI and DI.
fn general(cpu: &Cpu) -> [Field; 8]
    ensures { result ≡ Rattle.dm_views.specs.Registers.general cpu.now }
{
    [
        named(*b"AX", cpu.ax),
        named(*b"BX", cpu.bx),
        named(*b"CX", cpu.cx),
        named(*b"DX", cpu.dx),
        named(*b"SP", cpu.sp),
        named(*b"BP", cpu.bp),
        named(*b"SI", cpu.si),
        named(*b"DI", cpu.di),
    ]
}

/// The registers of the second line: DS, ES, SS, CS, IP and the FLAGS word as PUSHF stores it.
fn special(cpu: &Cpu) -> [Field; 6]
    ensures { result ≡ Rattle.dm_views.specs.Registers.special cpu.now }
{
    [
        named(*b"DS", cpu.ds),
        named(*b"ES", cpu.es),
        named(*b"SS", cpu.ss),
        named(*b"CS", cpu.cs),
        named(*b"IP", cpu.ip),
        named(*b"FL", cpu.flags.to_word()),
    ]
}

/// Appends the registers, in two lines, and the line of the instruction at CS:IP. `FL` is the FLAGS word as PUSHF
/// stores it.
///
/// # Errors
///
/// A failed allocation.
pub fn put_registers(out: &mut Vec<u8>, cpu: &Cpu, space: &Space) -> Result<(), AllocError>
    ensures { OnOk result ((text : List ℕ) × (out.new.items ≡ out.old.items ++ text) ×
        IsRegistersText cpu.now space.now.memory text) }
{
    put_fields(out, &general(cpu))?;
    put_fields(out, &special(cpu))?;
    put_line(out, space, cpu.cs, cpu.ip)?;
    Ok(())
}
