//! From an operand to what it is written as in the terms of `dm_decode::words`: with the value of its label, and, as an
//! outline, before labels have values. `place` is the value of the label, `next` the offset of the next instruction.

ghost use Rattle.std.specs.Prelude.{◌≡◌};
ghost use Rattle.dm_decode.specs.words.StandIns.{is_move};
ghost use Rattle.dm_lines.specs.Placing.{displaced, standing, low_byte_of, amount_byte, distance_of, is_count_of_one, number_at, label_at, numeral_at, written_of, number_outline, label_outline, numeral_outline, word_outline, outline_of};

use crate::operands::word;
use crate::term::{Amount, Expression, Term};
use dm_decode::words::{Numeral, Written};
use dm_ins::{Address, Base, Mnemonic};

/// The value of a label with a number added to it; None outside 0 to FFFFh.
fn moved_by(amount: Amount, place: u16) -> Option<u16>
    ensures { result ≡ displaced amount place }
{
    match amount {
        Amount::Plus(n) => {
            let sum = place as u32 + n as u32;
            if sum < 65536 { Some(sum as u16) } else { None }
        }
        Amount::Minus(n) => { if n <= place { Some(place - n) } else { None } }
    }
}

/// The word of a value whose label, if it has one, has the value `place`. A number alone counts modulo 65,536; for a
/// label and what is added to it, None outside 0 to FFFFh.
pub fn expression_word(value: Expression, place: u16) -> Option<u16>
    ensures { result ≡ standing value place }
{
    match value.label {
        None => Some(word(value.amount)),
        Some(_) => moved_by(value.amount, place),
    }
}

/// The number as a byte; None if it is over FFh.
fn low_byte(n: u16) -> Option<u8>
    ensures { result ≡ low_byte_of n }
{
    if n < 256 { Some(n as u8) } else { None }
}

/// The byte of a number from -80h to FFh; None for another.
pub fn amount_byte(amount: Amount) -> Option<u8>
    ensures { result ≡ amount_byte amount }
{
    match amount {
        Amount::Plus(n) => low_byte(n),
        Amount::Minus(n) => {
            if n <= 128 {
                Some(((256 - n) % 256) as u8)
            } else {
                None
            }
        }
    }
}

/// The displacement of a target from the next instruction, modulo 65,536.
fn distance(target: u16, next: u16) -> u16
    ensures { result ≡ distance_of target next }
{
    ((target as u32 + 65536 - next as u32) % 65536) as u16
}

/// Whether a number is 1, so that it can be the count of a shift.
fn is_one(amount: Amount) -> bool
    ensures { result ≡ is_count_of_one amount }
{
    match amount {
        Amount::Plus(n) => n == 1,
        Amount::Minus(_) => false,
    }
}

/// Whether this mnemonic takes labels as immediate values: MOV alone does.
fn takes(mnemonic: Mnemonic) -> bool
    ensures { result ≡ is_move mnemonic }
{
    matches!(mnemonic, Mnemonic::Mov)
}

/// A number as a byte, if it is from -80h to FFh, as a word, a target and a shift count.
fn number(amount: Amount, next: u16) -> Numeral
    ensures { result ≡ number_at amount next }
{
    let target = word(amount);
    Numeral {
        byte: amount_byte(amount),
        word: Some(target),
        distance: distance(target, next),
        is_one: is_one(amount),
    }
}

/// The value of a label as a target; under MOV also as a word, and as a byte if it is below 100h.
fn label(mnemonic: Mnemonic, target: u16, next: u16) -> Numeral
    ensures { result ≡ label_at mnemonic target next }
{
    let distance = distance(target, next);
    if takes(mnemonic) {
        Numeral {
            byte: low_byte(target),
            word: Some(target),
            distance,
            is_one: false,
        }
    } else {
        Numeral {
            byte: None,
            word: None,
            distance,
            is_one: false,
        }
    }
}

/// A value as a byte, a word, a target and a shift count; None where a label and what is added to it lie outside 0 to
/// FFFFh.
fn numeral(mnemonic: Mnemonic, value: Expression, place: u16, next: u16) -> Option<Numeral>
    ensures { result ≡ numeral_at mnemonic value place next }
{
    match value.label {
        None => Some(number(value.amount, next)),
        Some(_) => {
            let target = moved_by(value.amount, place)?;
            Some(label(mnemonic, target, next))
        }
    }
}

/// The address with these registers and this displacement.
fn at(base: Base, displacement: u16) -> Address
    ensures { result ≡ record { base = base; displacement = displacement } }
{
    Address { base, displacement }
}

/// What an operand is written as, where its label, if it has one, has the value `place` and the next instruction is
/// at `next`; None where a label and what is added to it lie outside 0 to FFFFh.
pub fn written_of(mnemonic: Mnemonic, term: &Term, place: u16, next: u16) -> Option<Written>
    ensures { result ≡ written_of mnemonic term.now place next }
{
    match term {
        Term::Nothing => Some(Written::Nothing),
        Term::ByteRegister(register) => Some(Written::ByteRegister(*register)),
        Term::WordRegister(register) => Some(Written::WordRegister(*register)),
        Term::SegmentRegister(register) => Some(Written::SegmentRegister(*register)),
        Term::Memory(size, base, amount) => {
            Some(Written::Memory(*size, at(*base, word(*amount))))
        }
        Term::Address(size, value) => {
            let displacement = expression_word(*value, place)?;
            Some(Written::Memory(*size, at(Base::Direct, displacement)))
        }
        Term::Number(value) => {
            let numeral = numeral(mnemonic, *value, place, next)?;
            Some(Written::Number(numeral))
        }
        Term::Far(segment, offset) => Some(Written::Far(*segment, *offset)),
    }
}

/// A number as a byte, a word, a target and a shift count in an outline. As a byte it counts modulo 64: so it is in
/// range, and the number of ESC, below 64, which decides the first byte, is right. As a target it is the next
/// instruction.
fn number_alone(amount: Amount) -> Numeral
    ensures { result ≡ number_outline amount }
{
    let value = word(amount);
    Numeral {
        byte: Some((value % 64) as u8),
        word: Some(value),
        distance: 0,
        is_one: is_one(amount),
    }
}

/// A label in an outline: as a target it is the next instruction; under MOV it is 0 as a byte and a word, else neither.
fn label_alone(mnemonic: Mnemonic) -> Numeral
    ensures { result ≡ label_outline mnemonic }
{
    if takes(mnemonic) {
        Numeral {
            byte: Some(0),
            word: Some(0),
            distance: 0,
            is_one: false,
        }
    } else {
        Numeral {
            byte: None,
            word: None,
            distance: 0,
            is_one: false,
        }
    }
}

/// A value as a byte, a word, a target and a shift count in an outline.
fn numeral_alone(mnemonic: Mnemonic, value: Expression) -> Numeral
    ensures { result ≡ numeral_outline mnemonic value }
{
    match value.label {
        None => number_alone(value.amount),
        Some(_) => label_alone(mnemonic),
    }
}

/// The word of a value in an outline: 0 if it has a label.
fn word_alone(value: Expression) -> u16
    ensures { result ≡ word_outline value }
{
    match value.label {
        None => word(value.amount),
        Some(_) => 0,
    }
}

/// What an operand is written as before labels have values: a label is 0 as an address, and under MOV as a byte and a
/// word; a target is the next instruction; a number as a byte counts modulo 64, so that it is in range. The instruction
/// has as many bytes as with any values of the labels.
pub fn outline(mnemonic: Mnemonic, term: &Term) -> Written
    ensures { result ≡ outline_of mnemonic term.now }
{
    match term {
        Term::Nothing => Written::Nothing,
        Term::ByteRegister(register) => Written::ByteRegister(*register),
        Term::WordRegister(register) => Written::WordRegister(*register),
        Term::SegmentRegister(register) => Written::SegmentRegister(*register),
        Term::Memory(size, base, amount) => Written::Memory(*size, at(*base, word(*amount))),
        Term::Address(size, value) => Written::Memory(*size, at(Base::Direct, word_alone(*value))),
        Term::Number(value) => Written::Number(numeral_alone(mnemonic, *value)),
        Term::Far(segment, offset) => Written::Far(*segment, *offset),
    }
}
