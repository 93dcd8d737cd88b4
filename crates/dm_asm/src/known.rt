//! What the first pass keeps of the lines, so that the second one reads again only those whose bytes are not known
//! yet. Where an allocation fails, what is kept is of no use.

ghost use Rattle.std.specs.Prelude.{◌≡◌, ◌≤◌, [], ◌∷◌, IfOk, MatchOption, OnOk, length};
ghost use Rattle.dm_lines.specs.Statements.{Item as Stated, seen_item, bytes as data_bytes, instruction as encoded};
ghost use Rattle.dm_asm.specs.inner.Fixed.{AreKnown, IsFixed, Keeps, KeepsOf};

use crate::codes::bytes_code;
use crate::fixed::fixed_code;
use crate::shapes::instruction_length;
use dm_lines::{Amount, Instruction, Item, Items};
use std::alloc::{AllocError, Global};

/// What the first pass keeps of one line.
#[derive(Clone, Copy, Debug, PartialEq, Eq)]
pub(crate) enum Line {
    /// Its bytes, this number of them, in `Known::bytes`.
    Known(u8),
    /// Nothing: it is read again once labels have their places.
    Open,
}

/// What is kept of the first of these lines, and of those after it; None if there is none.
pub(crate) fn first_line(lines: &[Line]) -> Option<(Line, &[Line])>
    ensures { MatchOption result (lines.now ≡ []) (λ r. lines.now ≡ r.0 ∷ r.1.now) }
{
    match lines {
        [line, others @ ..] => Some((*line, others)),
        [] => None,
    }
}

/// What the first pass has kept of the lines so far.
#[derive(Drop)]
pub(crate) struct Known {
    pub(crate) lines: Vec<Line>,
    /// The bytes of the lines that are `Line::Known`, one after the other.
    pub(crate) bytes: Vec<u8>,
}

impl Known {
    /// What is kept before a line is read: nothing.
    pub(crate) fn new(alloc: Global) -> Known
        ensures { AreKnown [] result.lines.items result.bytes.items }
    {
        Known {
            lines: Vec::new(alloc),
            bytes: Vec::new(alloc),
        }
    }

    /// Adds a line with these bytes: their number to `lines`, and the bytes to `bytes`.
    fn put_bytes(&mut self, code: &[u8]) -> Result<(), AllocError>
        requires { length code.now ≤ 255 }
        ensures { OnOk result ((item : Stated) → IsFixed item code.now → Keeps self.old self.new item) }
    {
        self.lines.push(Line::Known(code.len() as u8))?;
        self.bytes.extend_from_slice(code)?;
        Ok(())
    }

    /// Adds a line that is read again, as `Open` to `lines`; `bytes` stays.
    fn put_open(&mut self) -> Result<(), AllocError>
        ensures { OnOk result ((item : Stated) → Keeps self.old self.new item) }
    {
        self.lines.push(Line::Open)?;
        Ok(())
    }

    /// Adds a line with an instruction: with its bytes if it names no label, has no target and no number is out of
    /// range, else as one that is read again. Returns the number of its bytes; None where the table does not have it.
    fn put_instruction(&mut self, instruction: &Instruction) -> Result<Option<usize>, AllocError>
        ensures { IfOk result (λ n. KeepsOf self.old self.new (encoded instruction.now) n) }
    {
        match fixed_code(instruction) {
            Some(code) => {
                self.put_bytes(code.as_slice())?;
                Ok(Some(code.len()))
            }
            None => {
                self.put_open()?;
                Ok(instruction_length(instruction))
            }
        }
    }

    /// Adds a line with a DB: with its bytes if all numbers are in range, else as one that is read again. Returns the
    /// number of its bytes, never None.
    fn put_data(&mut self, amounts: &[Amount]) -> Result<Option<usize>, AllocError>
        requires { length amounts.now ≤ 255 }
        ensures { IfOk result (λ n. KeepsOf self.old self.new (data_bytes amounts.now) n) }
    {
        match bytes_code(amounts) {
            Some(code) => self.put_bytes(code.as_slice())?,
            None => self.put_open()?,
        }
        Ok(Some(amounts.len()))
    }

    /// Adds a line with this item, whose data is in `items`: with its bytes where they are known already, else as one
    /// that is read again, as every DW is. Returns the number of its bytes; None where the table does not have its
    /// instruction.
    pub(crate) fn put(&mut self, item: Item, items: &Items) -> Result<Option<usize>, AllocError>
        ensures { IfOk result (λ n. KeepsOf self.old self.new (seen_item items.now item) n) }
    {
        match item {
            Item::Nothing => {
                self.put_bytes(&[])?;
                Ok(Some(0))
            }
            Item::Instruction(instruction) => self.put_instruction(&instruction),
            Item::Bytes => self.put_data(items.bytes.as_slice()),
            Item::Words => {
                self.put_open()?;
                Ok(Some(2 * items.words.len()))
            }
        }
    }
}
