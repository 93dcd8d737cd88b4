//! An instruction as it is written: a mnemonic and operands, before it is looked up in the instruction table (Intel
//! 8086 Family User's Manual, section 2.7 and section 2.8).

use dm_ins::{Address, ByteRegister, Mnemonic, SegmentRegister, WordRegister};

/// The size word before a memory operand.
#[derive(Clone, Copy, Debug, PartialEq, Eq)]
pub enum Size {
    /// No word.
    Absent,
    /// BYTE.
    Byte,
    /// WORD.
    Word,
    /// NEAR.
    Near,
}

/// A written number, or the value of a label, as a byte, a word, a target and a shift count.
#[derive(Clone, Copy, Debug, PartialEq, Eq)]
pub struct Numeral {
    /// Its value as a byte; None where it can't be one.
    pub byte: Option<u8>,
    /// Its value as a word; None where it can't be one.
    pub word: Option<u16>,
    /// The displacement from the next instruction to it, modulo 65,536.
    pub distance: u16,
    /// Whether it can be the count 1 of a shift.
    pub is_one: bool,
}

/// An operand as it is written.
#[derive(Clone, Copy, Debug, PartialEq, Eq)]
pub enum Written {
    /// No operand stands there.
    Nothing,
    ByteRegister(ByteRegister),
    WordRegister(WordRegister),
    SegmentRegister(SegmentRegister),
    /// A memory operand, with the size word before it.
    Memory(Size, Address),
    Number(Numeral),
    /// A far pointer: a segment and an offset.
    Far(u16, u16),
}

/// A mnemonic and its operands as they are written.
#[derive(Clone, Copy, Debug, PartialEq, Eq)]
pub struct Words {
    pub mnemonic: Mnemonic,
    pub first: Written,
    pub second: Written,
}
