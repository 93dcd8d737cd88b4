//! Rows of text, and how they are read.
//!
//! A row is the bytes of one instruction and its text, as
//!
//!     8A 47 05 | MOV AL,[BX+00005h]
//!
//! The first byte is at offset 0100h, from which the targets of jumps and calls are counted. A
//! line with `#` is a comment.

use crate::checks::same;
use dm_decode::{Line, decode, text};
use dm_ins::{Ins, Mnemonic};
use std::process::Abort;
use std::test::Fail;

/// The instruction in a row's bytes, and its number of bytes.
fn instruction(bytes: &str) -> Result<(Ins, u8), Fail> {
    let mut spelled = [0; 16];
    for (place, byte) in spelled.iter_mut().zip(bytes.split_whitespace()) {
        *place = u8::from_str_radix(byte, 16)?;
    }
    let (ins, length) = decode(&spelled).ok_or("no such instruction")?;
    Ok((ins, length))
}

/// A part of a row: 0 its bytes, 1 its text.
fn part(row: &str, number: usize) -> Result<&str, Fail> {
    Ok(
        row.split('|')
            .nth(number)
            .ok_or("a part is missing")?
            .trim(),
    )
}

/// Whether a line of a text is a row, and not a comment.
fn is_row(line: &str) -> bool {
    !line.starts_with('#')
}

/// Tests a row; the line holds the text of the row before it.
fn check_row(rt: &impl Abort, row: &str, line: &mut Line) -> Result<(), Fail> {
    let bytes = part(row, 0)?;
    let (ins, length) = instruction(bytes)?;
    same(rt, row, length as usize, bytes.split_whitespace().count());
    text(&ins, 0x0100 + length as u16, line);
    same(rt, row, line.bytes(), part(row, 1)?.as_bytes());
    Ok(())
}

/// Tests each row of a text.
pub(crate) fn check(rt: &impl Abort, rows: &str) -> Result<(), Fail> {
    let mut line = Line::new();
    for row in rows.lines() {
        if is_row(row) {
            check_row(rt, row, &mut line)?;
        }
    }
    Ok(())
}

/// Records each mnemonic of a text that was not seen before.
pub(crate) fn note(seen: &mut Vec<Mnemonic>, rows: &str) -> Result<(), Fail> {
    for row in rows.lines() {
        if is_row(row) {
            let (ins, _) = instruction(part(row, 0)?)?;
            if !seen.contains(&ins.action.mnemonic) {
                seen.push(ins.action.mnemonic)?;
            }
        }
    }
    Ok(())
}
