//! The lines of some bytes, written by hand from the manual (Intel 8086 Family User's Manual, section 2.7, and section
//! 4 for the bytes).

use crate::checks::same;
use dm_decode::disassembly::disassemble;
use std::alloc::Global;
use std::process::Abort;
use std::test::Fail;

/// Bytes, and their lines.
const ROWS: [(&[u8], &str); 16] = [
    (&[], ""),
    (
        &[
            0xB4, 0x09, 0xBA, 0x0C, 0x01, 0xCD, 0x21, 0xB8, 0x00, 0x4C, 0xCD, 0x21, 0x68, 0x69,
            0x24,
        ],
        "MOV AH,009h\nMOV DX,0010Ch\nINT 021h\nMOV AX,04C00h\nINT 021h\nDB 068h\nDB 069h\nDB 024h\n",
    ),
    // Bytes other than the preferred ones are data, with the text after them.
    (&[0x8B, 0xC3], "DB 08Bh,0C3h ; MOV AX,BX\n"),
    (&[0x89, 0xD8], "MOV AX,BX\n"),
    (&[0x83, 0xC0, 0x05], "DB 083h,0C0h,005h ; ADD AX,00005h\n"),
    (&[0x05, 0x05, 0x00], "ADD AX,00005h\n"),
    (&[0x8A, 0x47, 0x00], "DB 08Ah,047h,000h ; MOV AL,[BX]\n"),
    (&[0x87, 0xD8], "DB 087h,0D8h ; XCHG AX,BX\n"),
    // Prefixes are kept in one order; the same prefix twice is another encoding.
    (&[0x26, 0xF0, 0xF3, 0xA4], "ES LOCK REP MOVSB\n"),
    (&[0xF3, 0x26, 0xA4], "DB 0F3h,026h,0A4h ; ES REP MOVSB\n"),
    (&[0x26, 0x26, 0x90], "DB 026h,026h,090h ; ES NOP\n"),
    // A fifth prefix: the first is a single byte.
    (
        &[0x26, 0x26, 0x26, 0x26, 0x26, 0x90],
        "DB 026h\nDB 026h,026h,026h,026h,090h ; ES NOP\n",
    ),
    // An instruction cut off by the end.
    (&[0xB8, 0x00], "DB 0B8h\nDB 000h\n"),
    (
        &[0x90, 0xEA, 0x00, 0x00, 0x00],
        "NOP\nDB 0EAh\nADD [BX+SI],AL\nDB 000h\n",
    ),
    // Targets count from the next instruction; the first byte is at 0100h.
    (
        &[0xEB, 0xFE, 0xE8, 0xFB, 0xFF],
        "JMP SHORT 00100h\nCALL 00100h\n",
    ),
    (&[0x0F, 0x74, 0x80], "DB 00Fh\nJZ 00083h\n"),
];

fn lists(rt: &impl Abort, alloc: Global, bytes: &[u8], wanted: &str) -> Result<(), Fail> {
    if bytes.len() <= 65_278 {
        let lines = disassemble(alloc, bytes)?;
        same(rt, wanted, lines.as_slice(), wanted.as_bytes());
    }
    Ok(())
}

#[test]
fn bytes_have_lines(rt: HostRuntime) -> Result<(), Fail> {
    for (bytes, wanted) in ROWS {
        lists(&rt, rt.alloc(), bytes, wanted)?;
    }
    Ok(())
}
