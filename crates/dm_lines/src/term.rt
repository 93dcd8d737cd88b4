//! Operands as they are written, before labels have values.

ghost use Rattle.std.specs.Prelude.{◌≡◌};
ghost use Rattle.dm_lines.specs.declared.term.Amount.TheVariants.{Plus};

use crate::token::Name;
use dm_decode::words::Size;
use dm_ins::{Base, ByteRegister, SegmentRegister, WordRegister};

/// A number as it is written, with its sign: from -8000h to FFFFh.
#[derive(Clone, Copy, Debug, PartialEq, Eq)]
pub enum Amount {
    /// Without `-` before it.
    Plus(u16),
    /// With `-` before it: at most 8000h.
    Minus(u16),
}

impl Default for Amount {
    ghost is_default = { λ amount. amount ≡ Plus 0 };

    /// Zero.
    fn default() -> Self {
        Amount::Plus(0)
    }
}

/// A number, or a label and a number that is added to it.
#[derive(Clone, Copy, Debug, Default, PartialEq, Eq)]
pub struct Expression {
    pub label: Option<Name>,
    pub amount: Amount,
}

/// An operand as it is written, before labels have values.
#[derive(Clone, Copy, Debug, PartialEq, Eq)]
pub enum Term {
    /// No operand stands there.
    Nothing,
    ByteRegister(ByteRegister),
    WordRegister(WordRegister),
    SegmentRegister(SegmentRegister),
    /// A memory operand with registers and a number that is added to them, and the size word before
    /// it.
    Memory(Size, Base, Amount),
    /// A memory operand at a number or a label, and the size word before it.
    Address(Size, Expression),
    /// A number or a label: an immediate value, a target, or the count 1 of a shift.
    Number(Expression),
    /// A far pointer: a segment and an offset.
    Far(u16, u16),
}
