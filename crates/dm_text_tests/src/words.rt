//! Rows of written words, and how they are read.
//!
//! A row is a mnemonic, operands as they are written, and the bytes of their instruction,
//! as
//!
//!     MOV | WORD [BX 5],-1 | C7 47 05 FF FF
//!
//! or `none` in place of the bytes. Numbers are hexadecimal. Brackets contain the registers, then
//! the displacement; `@` precedes the value of a label, which is a number only for MOV; `1:2` is
//! a segment and an offset. The next instruction is at offset 0, so that a target's displacement is
//! its offset. A line with `#` is a comment.

use crate::checks::same;
use dm_decode::words::{Numeral, Size, Words, Written, read_words};
use dm_decode::{byte_register_name, mnemonic_name, segment_register_name, word_register_name};
use dm_ins::{
    Address, Base, ByteRegister, Ins, Mnemonic, Prefixes, SegmentRegister, WordRegister, encode,
};
use std::process::Abort;
use std::test::Fail;

/// The mnemonics that rows name.
static MNEMONICS: [Mnemonic; 97] = [
    Mnemonic::Add,
    Mnemonic::Or,
    Mnemonic::Adc,
    Mnemonic::Sbb,
    Mnemonic::And,
    Mnemonic::Sub,
    Mnemonic::Xor,
    Mnemonic::Cmp,
    Mnemonic::Rol,
    Mnemonic::Ror,
    Mnemonic::Rcl,
    Mnemonic::Rcr,
    Mnemonic::Shl,
    Mnemonic::Shr,
    Mnemonic::Sar,
    Mnemonic::Jo,
    Mnemonic::Jno,
    Mnemonic::Jb,
    Mnemonic::Jae,
    Mnemonic::Jz,
    Mnemonic::Jnz,
    Mnemonic::Jbe,
    Mnemonic::Ja,
    Mnemonic::Js,
    Mnemonic::Jns,
    Mnemonic::Jp,
    Mnemonic::Jnp,
    Mnemonic::Jl,
    Mnemonic::Jge,
    Mnemonic::Jle,
    Mnemonic::Jg,
    Mnemonic::Movsb,
    Mnemonic::Movsw,
    Mnemonic::Cmpsb,
    Mnemonic::Cmpsw,
    Mnemonic::Stosb,
    Mnemonic::Stosw,
    Mnemonic::Lodsb,
    Mnemonic::Lodsw,
    Mnemonic::Scasb,
    Mnemonic::Scasw,
    Mnemonic::Aaa,
    Mnemonic::Aad,
    Mnemonic::Aam,
    Mnemonic::Aas,
    Mnemonic::Call,
    Mnemonic::CallFar,
    Mnemonic::Cbw,
    Mnemonic::Clc,
    Mnemonic::Cld,
    Mnemonic::Cli,
    Mnemonic::Cmc,
    Mnemonic::Cwd,
    Mnemonic::Daa,
    Mnemonic::Das,
    Mnemonic::Dec,
    Mnemonic::Div,
    Mnemonic::Esc,
    Mnemonic::Hlt,
    Mnemonic::Idiv,
    Mnemonic::Imul,
    Mnemonic::Input,
    Mnemonic::Inc,
    Mnemonic::Int,
    Mnemonic::Int3,
    Mnemonic::Into,
    Mnemonic::Iret,
    Mnemonic::Jcxz,
    Mnemonic::Jmp,
    Mnemonic::JmpFar,
    Mnemonic::JmpShort,
    Mnemonic::Lahf,
    Mnemonic::Lds,
    Mnemonic::Lea,
    Mnemonic::Les,
    Mnemonic::Loop,
    Mnemonic::Loope,
    Mnemonic::Loopne,
    Mnemonic::Mov,
    Mnemonic::Mul,
    Mnemonic::Neg,
    Mnemonic::Not,
    Mnemonic::Output,
    Mnemonic::Pop,
    Mnemonic::Popf,
    Mnemonic::Push,
    Mnemonic::Pushf,
    Mnemonic::Ret,
    Mnemonic::Retf,
    Mnemonic::Sahf,
    Mnemonic::Stc,
    Mnemonic::Std,
    Mnemonic::Sti,
    Mnemonic::Test,
    Mnemonic::Wait,
    Mnemonic::Xchg,
    Mnemonic::Xlat,
];

static SEGMENTS: [SegmentRegister; 4] = [
    SegmentRegister::Es,
    SegmentRegister::Cs,
    SegmentRegister::Ss,
    SegmentRegister::Ds,
];

static BASES: [(&str, Base); 8] = [
    ("BX+SI", Base::BxSi),
    ("BX+DI", Base::BxDi),
    ("BP+SI", Base::BpSi),
    ("BP+DI", Base::BpDi),
    ("SI", Base::OnSi),
    ("DI", Base::OnDi),
    ("BP", Base::OnBp),
    ("BX", Base::OnBx),
];

/// The mnemonic of this name.
fn mnemonic_of(name: &str) -> Result<Mnemonic, Fail> {
    for mnemonic in &MNEMONICS {
        if mnemonic_name(*mnemonic) == name.as_bytes() {
            return Ok(*mnemonic);
        }
    }
    Err("no such mnemonic")?
}

/// The register of this name.
fn register_of(name: &str) -> Option<Written> {
    for number in 0..8 {
        let word = WordRegister::from_number(number);
        if word_register_name(word) == name.as_bytes() {
            return Some(Written::WordRegister(word));
        }
        let byte = ByteRegister::from_number(number);
        if byte_register_name(byte) == name.as_bytes() {
            return Some(Written::ByteRegister(byte));
        }
    }
    for segment in &SEGMENTS {
        if segment_register_name(*segment) == name.as_bytes() {
            return Some(Written::SegmentRegister(*segment));
        }
    }
    None
}

/// The word of at most four hexadecimal digits.
fn word_of(text: &str) -> Result<u16, Fail> {
    Ok(u16::from_str_radix(text, 16)?)
}

/// A number from 0 to FFFFh as each kind of operand.
fn positive(n: u16) -> Numeral {
    Numeral {
        byte: u8::try_from(n).ok(),
        word: Some(n),
        distance: n,
        is_one: n == 1,
    }
}

/// A negative number by its absolute value.
fn negative(size: u16) -> Numeral {
    let n = 0u16.wrapping_sub(size);
    Numeral {
        byte: if size <= 0x80 {
            Some((n % 256) as u8)
        } else {
            None
        },
        word: Some(n),
        distance: n,
        is_one: false,
    }
}

/// The value of a label, which is a target, and for MOV a number too.
fn label(mnemonic: Mnemonic, n: u16) -> Numeral {
    if mnemonic == Mnemonic::Mov {
        Numeral {
            is_one: false,
            ..positive(n)
        }
    } else {
        Numeral {
            byte: None,
            word: None,
            distance: n,
            is_one: false,
        }
    }
}

fn number_of(mnemonic: Mnemonic, text: &str) -> Result<Numeral, Fail> {
    if let Some(size) = text.strip_prefix("-") {
        return Ok(negative(word_of(size)?));
    }
    if let Some(offset) = text.strip_prefix("@") {
        return Ok(label(mnemonic, word_of(offset)?));
    }
    Ok(positive(word_of(text)?))
}

/// The text between brackets.
fn address_of(text: &str) -> Result<Address, Fail> {
    for (name, base) in &BASES {
        if let Some(behind) = text.strip_prefix(*name) {
            let displacement = if behind.is_empty() {
                0
            } else {
                word_of(behind.trim())?
            };
            return Ok(Address {
                base: *base,
                displacement,
            });
        }
    }
    Ok(Address {
        base: Base::Direct,
        displacement: word_of(text)?,
    })
}

fn size_of(text: &str) -> Result<Size, Fail> {
    match text {
        "" => Ok(Size::Absent),
        "BYTE " => Ok(Size::Byte),
        "WORD " => Ok(Size::Word),
        "NEAR " => Ok(Size::Near),
        _ => Err("no such size")?,
    }
}

fn operand_of(mnemonic: Mnemonic, text: &str) -> Result<Written, Fail> {
    if text.is_empty() {
        return Ok(Written::Nothing);
    }
    if let Some((size, address)) = text.split_once("[") {
        let address = address.strip_suffix("]").ok_or("no bracket")?;
        return Ok(Written::Memory(size_of(size)?, address_of(address)?));
    }
    if let Some((segment, offset)) = text.split_once(":") {
        return Ok(Written::Far(word_of(segment)?, word_of(offset)?));
    }
    match register_of(text) {
        Some(register) => Ok(register),
        None => Ok(Written::Number(number_of(mnemonic, text)?)),
    }
}

/// A part of a row: 0 its mnemonic, 1 its operands, 2 its bytes.
fn part(row: &str, number: usize) -> Result<&str, Fail> {
    Ok(
        row.split('|')
            .nth(number)
            .ok_or("a part is missing")?
            .trim(),
    )
}

/// The words of a row.
fn words_of(row: &str) -> Result<Words, Fail> {
    let mnemonic = mnemonic_of(part(row, 0)?)?;
    let operands = part(row, 1)?;
    let (first, second) = operands.split_once(",").unwrap_or((operands, ""));
    Ok(Words {
        mnemonic,
        first: operand_of(mnemonic, first)?,
        second: operand_of(mnemonic, second)?,
    })
}

/// An operand before labels are known: their values and targets are 0, and of a byte its lower
/// six bits are known.
fn unknown(mnemonic: Mnemonic, written: Written) -> Written {
    match written {
        Written::Number(n) => Written::Number(Numeral {
            byte: match n.word {
                None => None,
                Some(word) => Some((word % 64) as u8),
            },
            word: if mnemonic == Mnemonic::Mov {
                Some(0)
            } else {
                n.word
            },
            distance: 0,
            is_one: n.is_one,
        }),
        Written::Memory(
            size,
            Address {
                base: Base::Direct,
                ..
            },
        ) => Written::Memory(
            size,
            Address {
                base: Base::Direct,
                displacement: 0,
            },
        ),
        other => other,
    }
}

/// Compares the bytes of an instruction, and their number before labels are known.
fn check_bytes(rt: &impl Abort, row: &str, words: &Words, ins: &Ins) -> Result<(), Fail> {
    let mut wanted = [0; 16];
    let mut length = 0usize;
    for (place, byte) in wanted.iter_mut().zip(part(row, 2)?.split_whitespace()) {
        *place = u8::from_str_radix(byte, 16)?;
        length = length.saturating_add(1);
    }
    let found = encode(ins);
    same(rt, row, Some(found.as_slice()), wanted.get(..length));
    let early = Words {
        mnemonic: words.mnemonic,
        first: unknown(words.mnemonic, words.first),
        second: unknown(words.mnemonic, words.second),
    };
    let early = read_words(Prefixes::NONE, &early).ok_or("no instruction before labels are known")?;
    same(rt, row, encode(&early).len(), length);
    Ok(())
}

fn check_row(rt: &impl Abort, row: &str) -> Result<(), Fail> {
    let words = words_of(row)?;
    match read_words(Prefixes::NONE, &words) {
        Some(ins) => check_bytes(rt, row, &words, &ins)?,
        None => same(rt, row, part(row, 2)?, "none"),
    }
    Ok(())
}

/// Tests each row of a text.
pub(crate) fn check(rt: &impl Abort, rows: &str) -> Result<(), Fail> {
    for row in rows.lines() {
        if !row.starts_with("#") {
            check_row(rt, row)?;
        }
    }
    Ok(())
}
