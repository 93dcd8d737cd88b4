//! Disassembly: the listing of a program's bytes (Intel 8086 Family User's Manual, section 2.9). Places count from
//! the program's first byte. Where an allocation fails, an unfinished part may stand in `out`.

ghost use Rattle.std.specs.Prelude.{◌≡◌, ◌↔◌, IsTrue, ◌+◌, ◌<◌, ◌≤◌, ◌++◌, ◌∷◌, ℕ, List, length, take, OnOk, IfOk, IfSome, IfNone};
ghost use Rattle.dm_ins.specs.declared.ins.Ins.{Ins};
ghost use Rattle.dm_decode.specs.disassembly.Listing.{bytes_at, data_text, IsListing, IsListedLine, StandsInFile};
ghost use Rattle.dm_decode.specs.Texts.{text_of};

use crate::{Line, byte_number, decode, text};
use dm_ins::{Ins, encode};
use std::alloc::{AllocError, Global};

/// The offset of a program's first byte in its segment.
const START: usize = 0x100;

/// The sixteen bytes from a place on, of which an instruction is decoded, with zeros after the program's last byte.
fn window(bytes: &[u8], at: usize) -> [u8; 16]
    requires { at ≤ length bytes.now }
    ensures { (k : ℕ) → k ≤ 16 → at + k ≤ length bytes.now → take k result ≡ bytes_at bytes.now at k }
{
    let mut window = [0; 16];
    let rest = &bytes[at..];
    let len = rest.len().min(16);
    window[..len].copy_from_slice(&rest[..len]);
    window
}

/// The instruction at a place, and its length in bytes; None if there is none, or if the program ends before it does.
fn standing(bytes: &[u8], at: usize) -> Option<(Ins, usize)>
    requires { at ≤ length bytes.now }
    ensures stands { IfSome result (λ x. StandsInFile bytes.now at x.0 x.1) }
    ensures none { IfNone result ((i : Ins) (k : ℕ) → StandsInFile bytes.now at i k → ⊥) }
{
    let (ins, len) = decode(&window(bytes, at))?;
    let len = len as usize;
    if at + len <= bytes.len() {
        Some((ins, len))
    } else {
        None
    }
}

/// Appends the word DB and these bytes as numbers, with commas between them.
fn put_data(out: &mut Vec<u8>, bytes: &[u8]) -> Result<(), AllocError>
    ensures { OnOk result (out.new.items ≡ out.old.items ++ data_text bytes.now) }
{
    out.extend_from_slice(b"DB ")?;
    if let [first, rest @ ..] = bytes {
        out.extend_from_slice(&byte_number(*first))?;
        for byte in rest {
            out.extend_from_slice(b",")?;
            out.extend_from_slice(&byte_number(*byte))?;
        }
    }
    Ok(())
}

/// Appends the text of an instruction. `next` is the offset of the next one, from which jump targets count.
fn put_instruction(out: &mut Vec<u8>, ins: &Ins, next: u16) -> Result<(), AllocError>
    ensures { OnOk result (out.new.items ≡ out.old.items ++ text_of ins.now next) }
{
    let mut line = Line::new();
    text(ins, next, &mut line);
    out.extend_from_slice(line.bytes())
}

/// Whether two runs of bytes, those that `encode` chooses for an instruction and its own, are the same.
fn same(a: &[u8], b: &[u8]) -> bool
    ensures { IsTrue result ↔ (a.now ≡ b.now) }
{
    a == b
}

/// Appends the line, without its line end, of the instruction of `len` bytes at a place: its text, or data with the
/// text in a comment where its bytes are not those that `encode` chooses.
fn put_standing(
    out: &mut Vec<u8>,
    bytes: &[u8],
    at: usize,
    ins: &Ins,
    len: usize,
) -> Result<(), AllocError>
    requires stands { StandsInFile bytes.now at ins.now len }
    requires few { length bytes.now ≤ 65278 }
    ensures { OnOk result ((line : List ℕ) × (out.new.items ≡ out.old.items ++ line) ×
        IsListedLine bytes.now at len line) }
{
    let own = &bytes[at..at + len];
    let next = (START + at + len) as u16;
    if same(encode(ins).as_slice(), own) {
        put_instruction(out, ins, next)?;
    } else {
        put_data(out, own)?;
        out.extend_from_slice(b" ; ")?;
        put_instruction(out, ins, next)?;
    }
    Ok(())
}

/// Appends the line, without its line end, of what stands at a place, and returns how many bytes it covers: those of
/// an instruction, or 1.
fn put_line(out: &mut Vec<u8>, bytes: &[u8], at: usize) -> Result<usize, AllocError>
    requires within { at < length bytes.now }
    requires few { length bytes.now ≤ 65278 }
    ensures { IfOk result (λ k. (line : List ℕ) × (out.new.items ≡ out.old.items ++ line) ×
        IsListedLine bytes.now at k line) }
{
    let Some((ins, len)) = standing(bytes, at) else {
        put_data(out, &bytes[at..at + 1])?;
        return Ok(1);
    };
    put_standing(out, bytes, at, &ins, len)?;
    Ok(len)
}

/// The listing of a program's bytes, which stand from offset 0100h on. Each line ends with 0Ah, and an assembler
/// makes the same bytes of the lines. An instruction is listed as its text where its bytes are its preferred ones;
/// else as `DB` with its bytes, and the text in a comment. A byte that begins no instruction within the program is a
/// `DB` of its own.
///
/// # Errors
///
/// `AllocError` if an allocation for the lines fails.
pub fn disassemble(alloc: Global, bytes: &[u8]) -> Result<Vec<u8>, AllocError>
    requires { length bytes.now ≤ 65278 }
    ensures { IfOk result (λ text. IsListing bytes.now text.items) }
{
    let mut out = Vec::new(alloc);
    let mut at = 0;
    while at < bytes.len() {
        let len = put_line(&mut out, bytes, at)?;
        out.push(b'\n')?;
        at += len;
    }
    Ok(out)
}
