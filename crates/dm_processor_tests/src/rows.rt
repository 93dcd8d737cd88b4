//! Rows of text, and how they are read.
//!
//! A row is one instruction: its name, its bytes, what is set before it, and what it changes, as
//!
//!     XCHG [BX],CX | 87 0F | BX=0010 2000:0010=1234 | CX=1234 2000:0010=3344
//!
//! It is executed by its form and, from the same state, by `dm_exec`: both must change that and
//! nothing else.
//!
//! Registers are given by their names, the flags word as `FL`, memory by segment and offset: two digits
//! are a byte, four a word with its low byte first. What a row does not name is as in `START`, and
//! must stay, except IP, which advances by the number of bytes. The bytes that rows
//! name are 0 before. A line with `#` is a comment.

use crate::checks::same;
use crate::kinds::{FORMS, number_of};
use crate::memory::new_space;
use dm_cpu::Registers;
use dm_decode::decode;
use dm_exec::{Cpu, Flags, Next, exec};
use dm_forms::{form_of, perform};
use dm_ins::{Ins, Mnemonic};
use dm_space::Space;
use std::alloc::Global;
use std::process::Abort;
use std::test::Fail;

/// Each register has a value of its own. Code is at 0103:0100, data at 2000:0, the stack below
/// 3000:0100; strings go to 4000:0400.
pub(crate) const START: Cpu = Cpu {
    ax: 0x1122,
    cx: 0x3344,
    dx: 0x5566,
    bx: 0x7788,
    sp: 0x0100,
    bp: 0x0200,
    si: 0x0300,
    di: 0x0400,
    es: 0x4000,
    cs: 0x0103,
    ss: 0x3000,
    ds: 0x2000,
    ip: 0x0100,
    flags: Flags {
        carry: false,
        parity: false,
        adjust: false,
        zero: false,
        sign: false,
        trap: false,
        interrupt: false,
        direction: false,
        overflow: false,
    },
};

/// The flags whose bits are set in a word, by their positions in the manual.
pub(crate) fn flags(word: u16) -> Flags {
    Flags {
        carry: word & 0x0001 != 0,
        parity: word & 0x0004 != 0,
        adjust: word & 0x0010 != 0,
        zero: word & 0x0040 != 0,
        sign: word & 0x0080 != 0,
        trap: word & 0x0100 != 0,
        interrupt: word & 0x0200 != 0,
        direction: word & 0x0400 != 0,
        overflow: word & 0x0800 != 0,
    }
}

fn number(digits: &str) -> Result<u16, Fail> {
    Ok(u16::from_str_radix(digits, 16)?)
}

/// Sets the register of this name.
fn set_register(cpu: &mut Cpu, name: &str, value: u16) -> Result<(), Fail> {
    match name {
        "AX" => cpu.ax = value,
        "CX" => cpu.cx = value,
        "DX" => cpu.dx = value,
        "BX" => cpu.bx = value,
        "SP" => cpu.sp = value,
        "BP" => cpu.bp = value,
        "SI" => cpu.si = value,
        "DI" => cpu.di = value,
        "ES" => cpu.es = value,
        "CS" => cpu.cs = value,
        "SS" => cpu.ss = value,
        "DS" => cpu.ds = value,
        "IP" => cpu.ip = value,
        "FL" => cpu.flags = flags(value),
        _ => return Err("no such register")?,
    }
    Ok(())
}

/// A byte of memory: segment, offset and value.
type Byte = (u16, u16, u8);

/// The bytes that a change names, as `2000:0010=12` or, for a word, `2000:0010=1234`; none if it
/// names a register.
fn bytes_of(change: &str) -> Result<[Option<Byte>; 2], Fail> {
    let (name, digits) = change.split_once('=').ok_or("no value")?;
    let Some((segment, offset)) = name.split_once(':') else {
        return Ok([None, None]);
    };
    let (segment, offset) = (number(segment)?, number(offset)?);
    let [low, high] = number(digits)?.to_le_bytes();
    let second = if digits.len() == 4 {
        Some((segment, offset.wrapping_add(1), high))
    } else {
        None
    };
    Ok([Some((segment, offset, low)), second])
}

/// Makes the changes of a row.
fn set_all(cpu: &mut Cpu, space: &mut Space, changes: &str) -> Result<(), Fail> {
    for change in changes.split_whitespace() {
        let (name, digits) = change.split_once('=').ok_or("no value")?;
        if !name.contains(':') {
            set_register(cpu, name, number(digits)?)?;
        }
        for byte in bytes_of(change)? {
            if let Some((segment, offset, value)) = byte {
                space.poke(segment, offset, value);
            }
        }
    }
    Ok(())
}

/// Sets the bytes that a row names to 0 again, as all rows find them.
fn clear(space: &mut Space, changes: &str) -> Result<(), Fail> {
    for change in changes.split_whitespace() {
        for byte in bytes_of(change)? {
            if let Some((segment, offset, _)) = byte {
                space.poke(segment, offset, 0);
            }
        }
    }
    Ok(())
}

/// Compares the bytes that the changes name.
fn compare_named(
    rt: &impl Abort,
    row: &str,
    changes: &str,
    one: &Space,
    other: &Space,
) -> Result<(), Fail> {
    for change in changes.split_whitespace() {
        for byte in bytes_of(change)? {
            if let Some((segment, offset, _)) = byte {
                let (found, wanted) = (one.peek(segment, offset), other.peek(segment, offset));
                same(rt, row, (segment, offset, found), (segment, offset, wanted));
            }
        }
    }
    Ok(())
}

/// Compares the bytes that the rows of a text name; `row` is the one that was executed.
fn compare_all(
    rt: &impl Abort,
    row: &str,
    rows: &str,
    one: &Space,
    other: &Space,
) -> Result<(), Fail> {
    for line in rows.lines() {
        if is_row(line) {
            compare_named(rt, row, part(line, 2)?, one, other)?;
            compare_named(rt, row, part(line, 3)?, one, other)?;
        }
    }
    Ok(())
}

/// The segment and offset of the first eight bytes below C0000h in which two memories differ.
fn difference(one: &Space, other: &Space) -> Option<(u16, u16)> {
    for bank in 0..12 {
        for eighth in 0..0x2000 {
            let (segment, offset) = (bank * 0x1000, eighth * 8);
            let found = one.eight_bytes(segment, offset);
            if found.is_none() || found != other.eight_bytes(segment, offset) {
                return Some((segment, offset));
            }
        }
    }
    None
}

/// The instruction in a row's bytes, and its number of bytes.
fn instruction(bytes: &str) -> Result<(Ins, u8), Fail> {
    let mut spelled = [0; 16];
    for (place, byte) in spelled.iter_mut().zip(bytes.split_whitespace()) {
        *place = u8::from_str_radix(byte, 16)?;
    }
    let (ins, length) = decode(&spelled).ok_or("no such instruction")?;
    Ok((ins, length))
}

/// A part of a row: 0 its name, 1 its bytes, 2 what is set before, 3 what changes.
fn part(row: &str, number: usize) -> Result<&str, Fail> {
    Ok(row.split('|').nth(number).ok_or("a part is missing")?)
}

/// Whether a line of a text is a row, and not a comment.
fn is_row(line: &str) -> bool {
    !line.starts_with('#')
}

/// The memories of a text: that of `exec`, that of the forms, and the expected one.
#[derive(Drop)]
struct Memories {
    plain: Space,
    formed: Space,
    wanted: Space,
}

/// Makes the changes in each memory, and one of the registers.
fn set_everywhere(memories: &mut Memories, cpu: &mut Cpu, changes: &str) -> Result<(), Fail> {
    let mut other = *cpu;
    let mut third = *cpu;
    set_all(&mut other, &mut memories.plain, changes)?;
    set_all(&mut third, &mut memories.formed, changes)?;
    set_all(cpu, &mut memories.wanted, changes)
}

/// Sets the bytes that a row names to 0 again in each memory.
fn clear_everywhere(memories: &mut Memories, changes: &str) -> Result<(), Fail> {
    clear(&mut memories.plain, changes)?;
    clear(&mut memories.formed, changes)?;
    clear(&mut memories.wanted, changes)
}

/// Tests a row of a text by `exec` and by its form. The memories are as all rows find them, and are so
/// again afterwards except for bytes that no row of the text names.
fn check_row(rt: &impl Abort, row: &str, rows: &str, memories: &mut Memories) -> Result<(), Fail> {
    let (bytes, before, after) = (part(row, 1)?, part(row, 2)?, part(row, 3)?);
    let (ins, length) = instruction(bytes)?;
    same(rt, row, length as usize, bytes.split_whitespace().count());
    let mut wanted = START;
    set_everywhere(memories, &mut wanted, before)?;
    let mut plain = wanted;
    let mut formed = Registers::from_cpu(&wanted);
    wanted.ip = wanted.ip.wrapping_add(length as u16);
    set_all(&mut wanted, &mut memories.wanted, after)?;
    let goes_on = exec(&mut plain, &mut memories.plain, &ins, length) == Next::Go;
    perform(
        form_of(&ins),
        ins,
        &mut formed,
        &mut memories.formed,
        length,
    );
    same(rt, row, goes_on, ins.action.mnemonic != Mnemonic::Hlt);
    same(rt, row, plain, wanted);
    same(rt, row, formed.to_cpu(), wanted);
    compare_all(rt, row, rows, &memories.plain, &memories.wanted)?;
    compare_all(rt, row, rows, &memories.formed, &memories.wanted)?;
    clear_everywhere(memories, before)?;
    clear_everywhere(memories, after)
}

/// Tests each row of a text. Bytes that a row names are compared after each row, all others at the
/// end.
pub(crate) fn check(rt: &impl Abort, alloc: Global, rows: &str) -> Result<(), Fail> {
    let mut memories = Memories {
        plain: new_space(alloc)?,
        formed: new_space(alloc)?,
        wanted: new_space(alloc)?,
    };
    for row in rows.lines() {
        if is_row(row) {
            check_row(rt, row, rows, &mut memories)?;
        }
    }
    for space in [&memories.plain, &memories.formed] {
        let first = difference(space, &memories.wanted);
        same(rt, "memory that no row names", first, None);
    }
    Ok(())
}

/// Records the form of each row of a text.
pub(crate) fn note_forms(seen: &mut [bool; FORMS], rows: &str) -> Result<(), Fail> {
    for row in rows.lines() {
        if is_row(row) {
            let (ins, _) = instruction(part(row, 1)?)?;
            seen[number_of(&form_of(&ins))] = true;
        }
    }
    Ok(())
}

/// Records each mnemonic of a text that was not seen before.
pub(crate) fn note(seen: &mut Vec<Mnemonic>, rows: &str) -> Result<(), Fail> {
    for row in rows.lines() {
        if is_row(row) {
            let (ins, _) = instruction(part(row, 1)?)?;
            if !seen.contains(&ins.action.mnemonic) {
                seen.push(ins.action.mnemonic)?;
            }
        }
    }
    Ok(())
}
