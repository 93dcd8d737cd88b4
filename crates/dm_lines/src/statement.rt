//! Statements: what a line of assembly stands for.

ghost use Rattle.std.specs.Prelude.{◌≡◌, []};

use crate::term::{Amount, Expression, Term};
use crate::token::Name;
use arrayvec::ArrayVec;
use dm_ins::{Mnemonic, Prefixes};

/// An instruction as it is written. It may be none of the instruction table.
#[derive(Clone, Copy, Debug, PartialEq, Eq)]
pub struct Instruction {
    pub prefixes: Prefixes,
    pub mnemonic: Mnemonic,
    pub first: Term,
    pub second: Term,
}

/// The numbers of a DB: each stands for one byte.
pub type Bytes = ArrayVec<Amount, 255>;

/// The values of a DW: each stands for one word.
pub type Words = ArrayVec<Expression, 128>;

/// The items of a line's data. They are kept apart from its statement, so that a statement is small, and are used
/// again for each line.
#[derive(Drop)]
pub struct Items {
    pub bytes: Bytes,
    pub words: Words,
}

impl Items {
    /// Items with no data.
    pub fn new() -> Items
        ensures bytes { result.bytes.items ≡ [] }
        ensures words { result.words.items ≡ [] }
    {
        Items {
            bytes: ArrayVec::new(),
            words: ArrayVec::new(),
        }
    }
}

/// What stands on a line after its label. The data of a DB or a DW is in its `Items`.
#[derive(Clone, Copy, Debug, PartialEq, Eq)]
pub enum Item {
    /// No item: the line is empty, or has a label alone.
    Nothing,
    Instruction(Instruction),
    /// A DB; its bytes are in `Items`.
    Bytes,
    /// A DW; its words are in `Items`.
    Words,
}

/// What a line stands for: its label, if it has one, and its item.
#[derive(Clone, Copy, Debug, PartialEq, Eq)]
pub struct Statement {
    pub label: Option<Name>,
    pub item: Item,
}
