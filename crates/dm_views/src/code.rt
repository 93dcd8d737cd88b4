//! The listing of instructions in memory (Intel 8086 Family User's Manual, section 2.7 and section 4). Each function
//! `put_..` appends its text to `out`; an `Err` is a failed allocation.

ghost use Rattle.std.specs.Prelude.{◌≡◌, ◌+◌, ◌%◌, ◌++◌, ◌≤◌, List, ℕ, length, take, OnOk, IfOk};
ghost use Rattle.std.specs.List.{flat_map};
ghost use Rattle.dm_decode.specs.Texts.{text_of};
ghost use Rattle.dm_views.specs.Digits.{two_digits};
ghost use Rattle.dm_views.specs.Code.{instruction_line, byte_line, IsLine, IsCode};

use crate::digits::{byte_digits, put_address};
use dm_decode::{Line, decode, text};
use dm_ins::Ins;
use dm_space::Space;
use std::alloc::AllocError;

/// Appends bytes, those of an instruction or of the name of an expanded memory handle, as pairs of hexadecimal digits
/// with nothing between them.
pub(crate) fn put_pairs(out: &mut Vec<u8>, bytes: &[u8]) -> Result<(), AllocError>
    ensures { OnOk result (out.new.items ≡ out.old.items ++ flat_map two_digits bytes.now) }
{
    for byte in bytes {
        out.extend_from_slice(&byte_digits(*byte))?;
    }
    Ok(())
}

/// Appends an instruction's text. `next` is the offset after it, from which relative jumps and calls are counted.
fn put_text(out: &mut Vec<u8>, ins: &Ins, next: u16) -> Result<(), AllocError>
    ensures { OnOk result (out.new.items ≡ out.old.items ++ text_of ins.now next) }
{
    let mut line = Line::new();
    text(ins, next, &mut line);
    out.extend_from_slice(line.bytes())
}

/// Appends the line of an instruction: its address, its bytes and its text. `next` is the offset after it.
fn put_listed(
    out: &mut Vec<u8>,
    segment: u16,
    offset: u16,
    bytes: &[u8],
    ins: &Ins,
    next: u16,
) -> Result<(), AllocError>
    ensures { OnOk result (out.new.items ≡ out.old.items ++ instruction_line segment offset bytes.now ins.now next) }
{
    put_address(out, segment, offset)?;
    out.extend_from_slice(b" ")?;
    put_pairs(out, bytes)?;
    out.extend_from_slice(b" ")?;
    put_text(out, ins, next)?;
    out.extend_from_slice(b"\n")
}

/// Appends the line of a byte with which no instruction begins: its address, the byte and `DB`.
fn put_unlisted(out: &mut Vec<u8>, segment: u16, offset: u16, byte: u8) -> Result<(), AllocError>
    ensures { OnOk result (out.new.items ≡ out.old.items ++ byte_line segment offset byte) }
{
    put_address(out, segment, offset)?;
    out.extend_from_slice(b" ")?;
    out.extend_from_slice(&byte_digits(byte))?;
    out.extend_from_slice(b" DB\n")
}

/// Appends the line of the instruction at segment:offset, or of the byte there if no instruction begins with it.
/// Returns how many bytes the line covers.
pub(crate) fn put_line(
    out: &mut Vec<u8>,
    space: &Space,
    segment: u16,
    offset: u16,
) -> Result<u16, AllocError>
    ensures { IfOk result (λ k. (line : List ℕ) × (out.new.items ≡ out.old.items ++ line) ×
        IsLine space.now.memory segment offset k line) }
{
    let bytes = space.sixteen_bytes(segment, offset);
    let Some((ins, len)) = decode(&bytes) else {
        put_unlisted(out, segment, offset, bytes[0])?;
        return Ok(1);
    };
    let len = len as usize;
    let next = offset.wrapping_add(len as u16);
    put_listed(out, segment, offset, &bytes[..len], &ins, next)?;
    Ok(len as u16)
}

/// Appends `count` lines of instructions from segment:offset on: the address, the bytes and the text of each. A byte
/// with which no instruction begins is a line of its own, with `DB` in place of a text. Offsets wrap in the segment.
///
/// # Errors
///
/// A failed allocation.
pub fn put_code(
    out: &mut Vec<u8>,
    space: &Space,
    segment: u16,
    offset: u16,
    count: u16,
) -> Result<(), AllocError>
    ensures { OnOk result ((text : List ℕ) × (out.new.items ≡ out.old.items ++ text) ×
        IsCode space.now.memory segment offset count text) }
{
    let mut at = offset;
    for _ in 0..count {
        let len = put_line(out, space, segment, at)?;
        at = at.wrapping_add(len);
    }
    Ok(())
}
