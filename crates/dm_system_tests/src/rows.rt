//! Rows of lines and commands, and how they are read.
//!
//! A row is a line and its command, or `none`, as
//!
//!     u 103:0100 10 | Unassemble 0103:0100 16
//!
//! Addresses and bytes are in hexadecimal, counts are decimal.

use crate::checks::same;
use dm_requests::commands::{Bytes, Command, LogicalAddress, read_command};
use std::alloc::Global;
use std::process::Abort;
use std::test::Fail;

/// A part of a row: 0 is the text before the first `|`, 1 the text after it.
fn part(row: &str, number: usize) -> Result<&str, Fail> {
    Ok(row.split('|').nth(number).ok_or("a part is missing")?)
}

fn put_address(text: &mut String, name: &str, address: LogicalAddress) -> Result<(), Fail> {
    let segment = address.segment;
    let offset = address.offset;
    write!(text, "{name} {segment:04X}:{offset:04X}")?;
    Ok(())
}

fn put_bytes(text: &mut String, bytes: &Bytes) -> Result<(), Fail> {
    text.push(' ')?;
    for byte in bytes.as_slice() {
        write!(text, "{byte:02X}")?;
    }
    Ok(())
}

/// Appends a command that has only its name.
fn put_name(text: &mut String, command: &Command) -> Result<(), Fail> {
    let name = match command {
        Command::Registers => "Registers",
        Command::Arena => "Arena",
        Command::Pages => "Pages",
        Command::Extended => "Extended",
        Command::Breakpoints => "Breakpoints",
        Command::Output => "Output",
        _ => "another",
    };
    text.push_str(name)?;
    Ok(())
}

fn put_command(text: &mut String, command: &Command) -> Result<(), Fail> {
    match command {
        Command::Unassemble(address, count) => {
            put_address(text, "Unassemble", *address)?;
            write!(text, " {count}")?;
        }
        Command::Dump(address, length) => {
            put_address(text, "Dump", *address)?;
            write!(text, " {length}")?;
        }
        Command::Go(steps) => write!(text, "Go {steps}")?,
        Command::Trace(steps) => write!(text, "Trace {steps}")?,
        Command::Break(address) => put_address(text, "Break", *address)?,
        Command::Clear(address) => put_address(text, "Clear", *address)?,
        Command::Enter(address, bytes) => {
            put_address(text, "Enter", *address)?;
            put_bytes(text, bytes)?;
        }
        _ => put_name(text, command)?,
    }
    Ok(())
}

/// The text of a command, as rows have it.
fn shown(alloc: Global, command: &Option<Command>) -> Result<String, Fail> {
    let mut text = String::new(alloc);
    match command {
        None => text.push_str("none")?,
        Some(command) => put_command(&mut text, command)?,
    }
    Ok(text)
}

/// Tests a line.
pub(crate) fn check_line(
    rt: &impl Abort,
    alloc: Global,
    what: &str,
    line: &[u8],
    wanted: &str,
) -> Result<(), Fail> {
    let command = read_command(line);
    let found = shown(alloc, &command)?;
    same(rt, what, found.as_str(), wanted);
    Ok(())
}

/// Tests each row of a text.
pub(crate) fn check(rt: &impl Abort, alloc: Global, rows: &str) -> Result<(), Fail> {
    for row in rows.lines() {
        check_line(
            rt,
            alloc,
            row,
            part(row, 0)?.as_bytes(),
            part(row, 1)?.trim(),
        )?;
    }
    Ok(())
}
