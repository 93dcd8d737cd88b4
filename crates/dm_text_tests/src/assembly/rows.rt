//! Rows of texts and their results, and how they are read.
//!
//! A row is a text and its result, as
//!
//!     JZ x/*127 NOP/x: | 74 7F 90 90 90 90 90 90 .. 129
//!
//! In a text `/` is a line end (0Ah) and `<` a 0Dh; a line that begins with `*` and a number is repeated that often. A
//! result is the error's text, or the bytes: at most eight of them, then their number.

use crate::checks::same;
use dm_asm::{AssemblyRefusal, assemble};
use std::alloc::Global;
use std::process::Abort;
use std::test::Fail;

/// A part of a row: 0 is the text before the first `|`, 1 the text after it.
pub(crate) fn part(row: &str, number: usize) -> Result<&str, Fail> {
    Ok(row.split('|').nth(number).ok_or("a part is missing")?)
}

/// Appends bytes given in hexadecimal.
pub(crate) fn put_bytes(bytes: &mut Vec<u8>, written: &str) -> Result<(), Fail> {
    for byte in written.split_whitespace() {
        bytes.push(u8::from_str_radix(byte, 16)?)?;
    }
    Ok(())
}

/// Appends a line, with 0Dh for each `<`.
fn put_line(text: &mut String, line: &str) -> Result<(), Fail> {
    for letter in line.chars() {
        text.push(if letter == '<' { '\r' } else { letter })?;
    }
    Ok(())
}

/// Appends what one part of a text between two `/` stands for.
fn put_lines(text: &mut String, written: &str) -> Result<(), Fail> {
    let Some(repeated) = written.strip_prefix("*") else {
        return put_line(text, written);
    };
    let (count, line) = repeated.split_once(' ').ok_or("no line behind a count")?;
    for at in 0..count.parse::<usize>()? {
        if 0 < at {
            text.push('\n')?;
        }
        put_line(text, line)?;
    }
    Ok(())
}

/// The text that a row stands for.
fn text_of(alloc: Global, written: &str) -> Result<String, Fail> {
    let mut text = String::new(alloc);
    for (at, line) in written.split('/').enumerate() {
        if 0 < at {
            text.push('\n')?;
        }
        put_lines(&mut text, line)?;
    }
    Ok(text)
}

/// Bytes as a result shows them.
pub(crate) fn shown(alloc: Global, bytes: &[u8]) -> Result<String, Fail> {
    let mut text = String::new(alloc);
    for (at, byte) in bytes.iter().enumerate() {
        if at < 8 {
            if 0 < at {
                text.push(' ')?;
            }
            write!(text, "{byte:02X}")?;
        }
    }
    if 8 < bytes.len() {
        let count = bytes.len();
        write!(text, " .. {count}")?;
    }
    Ok(text)
}

fn answer(alloc: Global, found: Result<Vec<u8>, AssemblyRefusal>) -> Result<String, Fail> {
    match found {
        Ok(bytes) => shown(alloc, bytes.as_slice()),
        Err(refusal) => Ok(format!(in alloc; "{refusal}")?),
    }
}

/// Assembles the text of a row.
pub(crate) fn check_row(rt: &impl Abort, alloc: Global, row: &str) -> Result<(), Fail> {
    let text = text_of(alloc, part(row, 0)?)?;
    let found = answer(alloc, assemble(alloc, text.as_bytes()))?;
    same(rt, row, found.as_str(), part(row, 1)?.trim());
    Ok(())
}

/// Assembles the texts of rows.
pub(crate) fn check(rt: &impl Abort, alloc: Global, rows: &str) -> Result<(), Fail> {
    for row in rows.split('\n') {
        check_row(rt, alloc, row)?;
    }
    Ok(())
}
