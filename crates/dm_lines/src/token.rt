//! The tokens of a line.

use dm_decode::words::Size;
use dm_ins::{ByteRegister, Mnemonic, Repeat, SegmentRegister, WordRegister};

/// The name of a label: a letter or an underscore, then letters, digits and underscores, at most 31 in all. Letters
/// are in upper case, and zeros follow.
#[derive(Clone, Copy, Debug, PartialEq, Eq)]
pub struct Name {
    pub bytes: [u8; 31],
}

/// A word or a sign of a line, or one byte of a quoted text.
#[derive(Clone, Copy, Debug, Default, PartialEq, Eq)]
pub enum Token {
    /// An 8-bit general register.
    Byte(ByteRegister),
    /// A 16-bit general register.
    Word(WordRegister),
    Segment(SegmentRegister),
    /// A mnemonic of one word.
    Mnemonic(Mnemonic),
    Nop,
    Lock,
    /// REP or REPNE, or another name of these.
    Repeat(Repeat),
    Far,
    Short,
    /// BYTE, WORD or NEAR; never `Size::Absent`.
    Size(Size),
    /// DB.
    DataBytes,
    /// DW.
    DataWords,
    /// A number, without a sign.
    Number(u16),
    Name(Name),
    #[default]
    Comma,
    Colon,
    Plus,
    Minus,
    /// `[`
    Open,
    /// `]`
    Close,
    /// The quote at the beginning or the end of a quoted text.
    Quote,
    /// A byte between quotes.
    Letter(u8),
}
