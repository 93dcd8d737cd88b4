//! The values written for an operand, from the manual (Intel 8086 Family User's Manual, section 2.9), worked out by
//! hand.
//!
//! A row is a line, then the label's address and the next instruction's, then the values for the first operand and,
//! after a comma, for the second: a number as a byte, as a word and as a distance, `one` if it is 1. The last part
//! is the second operand's outline, before any label has an address.

use crate::assembly::lines::rows::{Reader, part, put_written};
use crate::checks::same;
use dm_lines::{Instruction, Item, outline, written_of};
use std::alloc::Global;
use std::process::Abort;
use std::test::Fail;

const PLACES: &str = "\
MOV AX,5| 0 100| Ax, 5 5 65441| 5 5 0
MOV AX,-80h| 0 0| Ax, 128 65408 65408| 0 65408 0
MOV AX,-81h| 0 0| Ax, - 65407 65407| 63 65407 0
MOV AX,0FFh| 0 0| Ax, 255 255 255| 63 255 0
MOV AX,100h| 0 0| Ax, - 256 256| 0 256 0
MOV AX,0FFFFh| 0 0| Ax, - 65535 65535| 63 65535 0
MOV AX,-0| 0 0| Ax, 0 0 0| 0 0 0
SHL AX,1| 0 0| Ax, 1 1 1 one| 1 1 0 one
SHL AX,-1| 0 0| Ax, 255 65535 65535| 63 65535 0
MOV AX,x| 255 0| Ax, 255 255 255| 0 0 0
MOV AX,x+1| 255 0| Ax, - 256 256| 0 0 0
MOV AX,x+1| 0 0| Ax, 1 1 1| 0 0 0
ADD AX,x| 5 0| Ax, - - 5| - - 0
MOV AX,x+1| 65535 0| Ax, none| 0 0 0
MOV AX,x-1| 0 0| Ax, none| 0 0 0
MOV AX,x-1| 1 0| Ax, 0 0 0| 0 0 0
MOV AL,[x+1]| 7 0| Al, [Absent Direct 8]| [Absent Direct 0]
MOV AL,[x+1]| 65535 0| Al, none| [Absent Direct 0]
MOV AL,[BX-1]| 7 0| Al, [Absent OnBx 65535]| [Absent OnBx 65535]
MOV ES,[5]| 7 0| Es, [Absent Direct 5]| [Absent Direct 5]
JMP x| 256 259| - - 65533,|
JMP 5| 0 10| 5 5 65531,|
JMP FAR 1:2| 0 0| 1:2,|
RET| 0 0| ,|";

/// A number in a part of a row.
fn number(part: &str, place: usize) -> Result<u16, Fail> {
    Ok(
        part.split_whitespace()
            .nth(place)
            .ok_or("a number is missing")?
            .parse::<u16>()?,
    )
}

/// The instruction of a line.
fn instruction(line: &str) -> Result<Instruction, Fail> {
    match Reader::new()
        .read(line.as_bytes())
        .ok_or("no statement")?
        .item
    {
        Item::Instruction(instruction) => Ok(instruction),
        _ => Err(Fail::from("no instruction")),
    }
}

fn check_row(rt: &impl Abort, alloc: Global, row: &str) -> Result<(), Fail> {
    let words = instruction(part(row, 0)?)?;
    let places = part(row, 1)?;
    let place = number(places, 0)?;
    let next = number(places, 1)?;
    let mut text = String::new(alloc);
    put_written(
        &mut text,
        written_of(words.mnemonic, &words.first, place, next),
    )?;
    text.push(',')?;
    put_written(
        &mut text,
        written_of(words.mnemonic, &words.second, place, next),
    )?;
    same(rt, row, text.as_str().trim(), part(row, 2)?.trim());
    let mut alone = String::new(alloc);
    put_written(&mut alone, Some(outline(words.mnemonic, &words.second)))?;
    same(rt, row, alone.as_str().trim(), part(row, 3)?.trim());
    Ok(())
}

/// Definitions: dm_lines Placing written_of numeral_at number_at label_at standing displaced amount_byte
/// Definitions: dm_lines Placing outline_of numeral_outline number_outline label_outline
/// Definitions: dm_decode words.StandIns is_move
#[test]
fn labels_have_places(rt: HostRuntime) -> Result<(), Fail> {
    for row in PLACES.lines() {
        check_row(&rt, rt.alloc(), row)?;
    }
    Ok(())
}
