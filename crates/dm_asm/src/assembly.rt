//! From a text to the bytes of a program, in two passes over its lines (Intel 8086 Family User's Manual, section
//! 2.9): the first finds the places of labels (offsets in the program's segment), the second makes the bytes.

ghost use Rattle.std.specs.Prelude.{◌≡◌, ◌≤◌, ◌++◌, ◌⊎◌, List, IfSome, IfNone, IfOk, IfErr, OnOk, MatchResult};
ghost use Rattle.dm_lines.specs.Statements.{seen_statement};
ghost use Rattle.dm_asm.specs.declared.refusal.AssemblyRefusal.TheVariants.{Memory as OutOfMemory, Twice as IsTwice};
ghost use Rattle.dm_asm.specs.Labels.{Label, IsFree};
ghost use Rattle.dm_asm.specs.inner.Kept.{AreKept, AreLaid};
ghost use Rattle.dm_asm.specs.Programs.{Sized, Reads, own_label, Assembles, Refuses};

use crate::codes::{Problem, code_of};
use crate::known::{Known, Line, first_line};
use crate::labels::Labels;
use crate::lines::next_line;
use crate::refusal::AssemblyRefusal;
use crate::shapes::length_of;
use dm_decode::words::words_are_one_instruction;
use dm_lines::{Items, Name, Statement, Tokens, line_statement};
use std::alloc::Global;

/// The offset of a program's first byte in its segment.
const START: usize = 0x100;

/// The largest number of bytes of a program.
const MOST: u128 = 65_278;

/// The statement of a line, and the number of its bytes; None if the line is no statement, or the table does not have
/// its instruction. The data of a DB or DW is put into `items`; `tokens` may be overwritten.
fn read(line: &[u8], tokens: &mut Tokens, items: &mut Items) -> Option<(Statement, usize)>
    ensures found { IfSome result (λ r. Reads line.now (record {
      statement = seen_statement items.new r.0;
      long = r.1;
    })) }
    ensures none { IfNone result ((x : Sized) → Reads line.now x → ⊥) }
    ensures short { IfSome result (λ r. r.1 ≤ 256) }
{
    let statement = line_statement(line, tokens, items)?;
    let length = length_of(statement.item, items)?;
    Some((statement, length))
}

/// Adds the label of a statement at its place; without a label, `labels` stays. `Twice` with the line's number if a
/// line before it has that label, whose place is then overwritten; `Memory` if an allocation fails.
fn add_label(
    labels: &mut Labels,
    label: Option<Name>,
    place: u128,
    number: usize,
) -> Result<(), AssemblyRefusal>
    ensures added { OnOk result ((list : List Label) → AreKept labels.old list → IsFree label list ×
        AreKept labels.new (list ++ own_label label place)) }
    ensures refused { IfErr result (λ e. (e ≡ OutOfMemory) ⊎ ((e ≡ IsTwice number) ×
        ((list : List Label) → AreKept labels.old list → IsFree label list → ⊥))) }
{
    let Some(name) = label else {
        return Ok(());
    };
    match labels.add(&name, place) {
        Ok(true) => Ok(()),
        Ok(false) => Err(AssemblyRefusal::Twice(number)),
        Err(_) => Err(AssemblyRefusal::Memory),
    }
}

/// The first pass: reads all lines, and returns their labels and what is known of their bytes. Errors are `Syntax`,
/// `Twice`, `TooLong` and `Memory`.
fn lay(alloc: Global, text: &[u8]) -> Result<(Labels, Known), AssemblyRefusal>
    ensures laid { IfOk result (λ r. AreLaid text.now r.0 r.1) }
    ensures refused { IfErr result (λ e. (e ≡ OutOfMemory) ⊎ Refuses text.now e) }
{
    let mut tokens = Tokens::new();
    let mut items = Items::new();
    let mut labels = Labels::new(alloc);
    let mut known = Known::new(alloc);
    let mut number = 0;
    let mut at = START as u128;
    let mut rest = text;
    while let Some((line, behind)) = next_line(rest) {
        number += 1;
        let Some(statement) = line_statement(line, &mut tokens, &mut items) else {
            return Err(AssemblyRefusal::Syntax(number));
        };
        let length = match known.put(statement.item, &items) {
            Ok(Some(length)) => length,
            Ok(None) => return Err(AssemblyRefusal::Syntax(number)),
            Err(_) => return Err(AssemblyRefusal::Memory),
        };
        match add_label(&mut labels, statement.label, at, number) {
            Ok(()) => {}
            Err(refusal) => return Err(refusal),
        }
        at += length as u128;
        rest = behind;
    }
    if at > START as u128 + MOST {
        return Err(AssemblyRefusal::TooLong);
    }
    Ok((labels, known))
}

/// Appends the bytes of a line to those of the program; `Memory` if the allocation fails.
fn append(bytes: &mut Vec<u8>, code: &[u8]) -> Result<(), AssemblyRefusal>
    ensures added { OnOk result (bytes.new.items ≡ bytes.old.items ++ code.now) }
    ensures refused { IfErr result (λ e. e ≡ OutOfMemory) }
{
    match bytes.extend_from_slice(code) {
        Ok(()) => Ok(()),
        Err(_) => Err(AssemblyRefusal::Memory),
    }
}

/// The second pass: the bytes of a text, with the labels and the known bytes of the first. Errors are `Unknown`,
/// `Range` and `Memory`.
fn emit(
    alloc: Global,
    text: &[u8],
    labels: &Labels,
    known: &Known,
) -> Result<Vec<u8>, AssemblyRefusal>
    requires { AreLaid text.now labels.now known.now }
    ensures assembled { IfOk result (λ v. Assembles text.now v.items) }
    ensures refused { IfErr result (λ e. (e ≡ OutOfMemory) ⊎ Refuses text.now e) }
{
    words_are_one_instruction();
    let mut tokens = Tokens::new();
    let mut items = Items::new();
    let mut bytes = Vec::new(alloc);
    let mut lines = known.lines.as_slice();
    let mut codes = known.bytes.as_slice();
    let mut number = 0;
    let mut rest = text;
    while let Some((line, behind)) = next_line(rest) {
        number += 1;
        // Something is kept of each line.
        let Some((kept, others)) = first_line(lines) else {
            return Err(AssemblyRefusal::Syntax(number));
        };
        lines = others;
        rest = behind;
        match kept {
            Line::Known(length) => {
                let (code, left) = codes.split_at(length as usize);
                append(&mut bytes, code)?;
                codes = left;
                continue;
            }
            Line::Open => {}
        }
        // The first pass has read it.
        let Some((statement, length)) = read(line, &mut tokens, &mut items) else {
            return Err(AssemblyRefusal::Syntax(number));
        };
        let at = START + bytes.len();
        match code_of(labels, at as u16, length, statement.item, &items) {
            Ok(code) => append(&mut bytes, code.as_slice())?,
            Err(Problem::Unknown) => return Err(AssemblyRefusal::Unknown(number)),
            Err(Problem::Range) => return Err(AssemblyRefusal::Range(number)),
        }
    }
    Ok(bytes)
}

/// Assembles a text of instructions, data and labels, one statement on each line: returns the bytes of the program,
/// whose first one is for offset 0100h.
///
/// # Errors
///
/// In this order: the first line with `Syntax` or `Twice` (`Syntax` where it has both); `TooLong` over 65,278 bytes;
/// the first line with `Unknown` or `Range` (`Unknown` where it has both). `Memory` may be returned in place of any
/// result, if an allocation fails.
pub fn assemble(alloc: Global, text: &[u8]) -> Result<Vec<u8>, AssemblyRefusal>
    // The text has these bytes.
    ensures assembled { IfOk result (λ v. Assembles text.now v.items) }
    // This is the error of the text, unless an allocation failed.
    ensures refused { IfErr result (λ e. (e ≡ OutOfMemory) ⊎ Refuses text.now e) }
{
    let (labels, known) = lay(alloc, text)?;
    emit(alloc, text, &labels, &known)
}
