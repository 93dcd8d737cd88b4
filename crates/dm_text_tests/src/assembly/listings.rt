//! Bytes and their lines, and the way back.
//!
//! A row is bytes and their lines, as `8B C3| DB 08Bh,0C3h ; MOV AX,BX`; `/` follows each line.

use crate::assembly::rows::{part, put_bytes};
use crate::checks::same;
use dm_asm::{assemble, disassemble};
use std::alloc::Global;
use std::process::Abort;
use std::test::Fail;

/// Programs, an instruction cut off by the end, and one with five prefixes.
const LISTINGS: &str = "\
|
B4 09 BA 0C 01 CD 21 B8 00 4C CD 21 68 69 24| MOV AH,009h/MOV DX,0010Ch/INT 021h/MOV AX,04C00h/INT 021h/DB 068h/DB 069h/DB 024h/
8B C3| DB 08Bh,0C3h ; MOV AX,BX/
89 D8| MOV AX,BX/
B8 05| DB 0B8h/DB 005h/
90 B8| NOP/DB 0B8h/
F0 F0 F0 F0 F0 90| DB 0F0h/DB 0F0h,0F0h,0F0h,0F0h,090h ; LOCK NOP/
EB FE| JMP SHORT 00100h/
2E 2E EB FE| DB 02Eh,02Eh,0EBh,0FEh ; CS JMP SHORT 00102h/
E9 FD FF| JMP 00100h/";

/// The lines of bytes, with `/` for each line end.
fn lines_of(alloc: Global, bytes: &[u8]) -> Result<String, Fail> {
    let mut text = String::new(alloc);
    if 65278 < bytes.len() {
        return Err(Fail::from("too many bytes"));
    }
    for byte in disassemble(alloc, bytes)?.as_slice() {
        text.push(if *byte == b'\n' { '/' } else { *byte as char })?;
    }
    Ok(text)
}

fn check_row(rt: &impl Abort, alloc: Global, row: &str) -> Result<(), Fail> {
    let mut bytes = Vec::new(alloc);
    put_bytes(&mut bytes, part(row, 0)?)?;
    let found = lines_of(alloc, bytes.as_slice())?;
    same(rt, row, found.as_str(), part(row, 1)?.trim());
    Ok(())
}

/// Definitions: dm_decode disassembly.Listing IsListing Lists IsListedLine instruction_text data_text StandsInFile
/// Definitions: dm_decode disassembly.Listing bytes_at
#[test]
fn bytes_have_lines(rt: HostRuntime) -> Result<(), Fail> {
    for row in LISTINGS.split('\n') {
        check_row(&rt, rt.alloc(), row)?;
    }
    Ok(())
}

/// Bytes are assembled again from their lines.
fn check_again(rt: &impl Abort, alloc: Global, bytes: &[u8]) -> Result<(), Fail> {
    if 65278 < bytes.len() {
        return Err(Fail::from("too many bytes"));
    }
    let text = disassemble(alloc, bytes)?;
    match assemble(alloc, text.as_slice()) {
        Ok(again) => same(rt, "again", again.as_slice() == bytes, true),
        Err(_) => return Err(Fail::from("refused")),
    }
    Ok(())
}

/// Definitions: dm_asm Laws ListingsAssemble ListingsAreAnswered
#[test]
fn long_listings_are_assembled_again(rt: HostRuntime) -> Result<(), Fail> {
    let mut bytes = Vec::new(rt.alloc());
    for at in 0..65278u32 {
        bytes.push((at % 256) as u8)?;
    }
    check_again(&rt, rt.alloc(), bytes.as_slice())
}

/// Definitions: dm_asm Laws ListingsAssemble ListingsAreAnswered
#[test]
fn listings_behind_each_first_byte_are_assembled_again(rt: HostRuntime) -> Result<(), Fail> {
    for first in 0..256u32 {
        let mut bytes = Vec::new(rt.alloc());
        bytes.push(first as u8)?;
        for at in 0..200u32 {
            bytes.push(((at * 37 + first * 11) % 256) as u8)?;
        }
        check_again(&rt, rt.alloc(), bytes.as_slice())?;
    }
    Ok(())
}
