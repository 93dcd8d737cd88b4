//! Rows of lines and statements, and how they are read.
//!
//! A row is a line and the statement that it stands for, or `none`, as
//!
//!     x: MOV AL,[BX+5] | X: MOV Al [Absent OnBx 5]
//!
//! A statement is its label, then prefixes, mnemonic and operands; or DB or DW and the items of data; or `nothing`.
//! Numbers are decimal; what is added to a label follows it. An operand in memory is the word before it, its
//! registers and its value.

use crate::checks::same;
use arrayvec::ArrayVec;
use dm_decode::mnemonic_name;
use dm_decode::words::{Numeral, Written};
use dm_ins::{Prefixes, Repeat};
use dm_lines::{
    Amount, Expression, Instruction, Item, Items, Name, Statement, Term, Tokens, line_statement,
};
use std::alloc::Global;
use std::process::Abort;
use std::test::Fail;

/// A part of a row: 0 is the text before the first `|`, 1 the text after it.
pub(crate) fn part(row: &str, number: usize) -> Result<&str, Fail> {
    Ok(row.split('|').nth(number).ok_or("a part is missing")?)
}

fn put_name(text: &mut String, name: &Name) -> Result<(), Fail> {
    for byte in name.bytes {
        if byte != 0 {
            text.push(byte as char)?;
        }
    }
    Ok(())
}

fn put_amount(text: &mut String, amount: Amount) -> Result<(), Fail> {
    match amount {
        Amount::Plus(n) => write!(text, "{n}")?,
        Amount::Minus(n) => write!(text, "-{n}")?,
    }
    Ok(())
}

fn put_value(text: &mut String, value: &Expression) -> Result<(), Fail> {
    if let Some(label) = &value.label {
        put_name(text, label)?;
        text.push('+')?;
    }
    put_amount(text, value.amount)
}

fn put_term(text: &mut String, term: &Term) -> Result<(), Fail> {
    match term {
        Term::Nothing => {}
        Term::ByteRegister(register) => write!(text, " {register:?}")?,
        Term::WordRegister(register) => write!(text, " {register:?}")?,
        Term::SegmentRegister(register) => write!(text, " {register:?}")?,
        Term::Memory(size, base, amount) => {
            write!(text, " [{size:?} {base:?} ")?;
            put_amount(text, *amount)?;
            text.push(']')?;
        }
        Term::Address(size, value) => {
            write!(text, " [{size:?} Direct ")?;
            put_value(text, value)?;
            text.push(']')?;
        }
        Term::Number(value) => {
            text.push(' ')?;
            put_value(text, value)?;
        }
        Term::Far(segment, offset) => write!(text, " {segment}:{offset}")?,
    }
    Ok(())
}

fn put_prefixes(text: &mut String, prefixes: Prefixes) -> Result<(), Fail> {
    if let Some(register) = prefixes.segment {
        write!(text, "{register:?} ")?;
    }
    if prefixes.lock {
        text.push_str("LOCK ")?;
    }
    match prefixes.repeat {
        None => {}
        Some(Repeat::Equal) => text.push_str("REP ")?,
        Some(Repeat::NotEqual) => text.push_str("REPNE ")?,
    }
    Ok(())
}

fn put_instruction(text: &mut String, instruction: &Instruction) -> Result<(), Fail> {
    put_prefixes(text, instruction.prefixes)?;
    for byte in mnemonic_name(instruction.mnemonic) {
        text.push(*byte as char)?;
    }
    put_term(text, &instruction.first)?;
    put_term(text, &instruction.second)
}

fn put_item(text: &mut String, item: &Item, items: &Items) -> Result<(), Fail> {
    match item {
        Item::Nothing => text.push_str("nothing")?,
        Item::Instruction(instruction) => put_instruction(text, instruction)?,
        Item::Bytes => {
            text.push_str("DB")?;
            for amount in items.bytes.as_slice() {
                text.push(' ')?;
                put_amount(text, *amount)?;
            }
        }
        Item::Words => {
            text.push_str("DW")?;
            for value in items.words.as_slice() {
                text.push(' ')?;
                put_value(text, value)?;
            }
        }
    }
    Ok(())
}

/// The text of a statement, as rows have it.
fn shown(alloc: Global, statement: &Option<Statement>, items: &Items) -> Result<String, Fail> {
    let mut text = String::new(alloc);
    match statement {
        None => text.push_str("none")?,
        Some(statement) => {
            if let Some(label) = &statement.label {
                put_name(&mut text, label)?;
                text.push_str(": ")?;
            }
            put_item(&mut text, &statement.item, items)?;
        }
    }
    Ok(text)
}

/// What lines are read into: each row finds what the rows before it left.
#[derive(Drop)]
pub(crate) struct Reader {
    tokens: Tokens,
    items: Items,
}

impl Reader {
    pub(crate) fn new() -> Reader {
        Reader {
            tokens: ArrayVec::new(),
            items: Items::new(),
        }
    }

    /// The statement of a line.
    pub(crate) fn read(&mut self, line: &[u8]) -> Option<Statement> {
        line_statement(line, &mut self.tokens, &mut self.items)
    }

    /// Tests a line.
    pub(crate) fn check_line(
        &mut self,
        rt: &impl Abort,
        alloc: Global,
        what: &str,
        line: &[u8],
        wanted: &str,
    ) -> Result<(), Fail> {
        let statement = self.read(line);
        let found = shown(alloc, &statement, &self.items)?;
        same(rt, what, found.as_str(), wanted);
        Ok(())
    }
}

/// Tests each row of a text.
pub(crate) fn check(rt: &impl Abort, alloc: Global, rows: &str) -> Result<(), Fail> {
    let mut reader = Reader::new();
    for row in rows.lines() {
        reader.check_line(
            rt,
            alloc,
            row,
            part(row, 0)?.as_bytes(),
            part(row, 1)?.trim(),
        )?;
    }
    Ok(())
}

fn put_option(text: &mut String, number: Option<u16>) -> Result<(), Fail> {
    match number {
        None => text.push_str(" -")?,
        Some(n) => write!(text, " {n}")?,
    }
    Ok(())
}

fn put_numeral(text: &mut String, numeral: &Numeral) -> Result<(), Fail> {
    put_option(text, numeral.byte.map(|byte| byte as u16))?;
    put_option(text, numeral.word)?;
    let distance = numeral.distance;
    write!(text, " {distance}")?;
    if numeral.is_one {
        text.push_str(" one")?;
    }
    Ok(())
}

/// Appends the values written for an operand: a number as a byte, as a word and as a distance, and whether it is 1.
pub(crate) fn put_written(text: &mut String, written: Option<Written>) -> Result<(), Fail> {
    match written {
        None => text.push_str(" none")?,
        Some(Written::Number(numeral)) => put_numeral(text, &numeral)?,
        Some(Written::Memory(size, address)) => {
            let base = address.base;
            let displacement = address.displacement;
            write!(text, " [{size:?} {base:?} {displacement}]")?;
        }
        Some(Written::ByteRegister(register)) => write!(text, " {register:?}")?,
        Some(Written::WordRegister(register)) => write!(text, " {register:?}")?,
        Some(Written::SegmentRegister(register)) => write!(text, " {register:?}")?,
        Some(Written::Far(segment, offset)) => write!(text, " {segment}:{offset}")?,
        Some(Written::Nothing) => {}
    }
    Ok(())
}
