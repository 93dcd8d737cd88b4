//! The bytes of a statement, once all labels have their places. A place is an offset in the
//! program's segment.

ghost use Rattle.std.specs.Prelude.{◌≡◌, ◌+◌, ◌<◌, ◌≤◌, ◌^◌, ◌↔◌, ℕ, List, Some, IfSome, IfNone, IfOk, IfErr, IsTrue, IsSome, length, map};
ghost use Rattle.std.specs.List.{AllByRecursion};
ghost use Rattle.dm_asm.specs.inner.Kept.{IsProblem};
ghost use Rattle.dm_asm.specs.Labels.{label_place};
ghost use Rattle.dm_lines.specs.Statements.{seen_item};
ghost use Rattle.dm_lines.specs.Placing.{amount_byte};
ghost use Rattle.dm_lines.specs.Laws.{AmountFits, TermFits};
ghost use Rattle.dm_asm.specs.Labels.{Label};
ghost use Rattle.dm_asm.specs.inner.Kept.{AreKept, AreNear};
ghost use Rattle.dm_asm.specs.Codes.{written_for as placed_of, placed_words as words_of, value_word as value_of, IsCoded, AreWordsOf, HasShape, HasLength, Codes, Knows};

use crate::labels::Labels;
use arrayvec::ArrayVec;
use dm_decode::words::{
    Words, Written, read_encoded, stand_ins_have_the_length, words_are_one_instruction,
};
use dm_lines::{
    Amount, Expression, Instruction, Item, Items, Term, amount_byte, expression_word,
    outlines_stand, written_of,
};

/// The bytes of one line, at most 256.
pub(crate) type Code = ArrayVec<u8, 256>;

/// Why a statement has no bytes.
#[derive(Clone, Copy, Debug, PartialEq, Eq)]
pub(crate) enum Problem {
    /// It names a label that no line has.
    Unknown,
    /// A number or a target is out of range.
    Range,
}

/// What an operand is written as, with the place of its label; `next` is the offset of the next instruction. None if
/// the label is unknown, or the label and what is added to it lie outside 0 to FFFFh.
fn written_for(
    labels: &Labels,
    instruction: &Instruction,
    next: u16,
    term: &Term,
) -> Option<Written>
    requires { AreNear labels.now }
    ensures { (list : List Label) → AreKept labels.now list →
        result ≡ placed_of list instruction.now.mnemonic next term.now }
{
    let place = labels.term_place(term)?;
    written_of(instruction.mnemonic, term, place as u16, next)
}

/// What an instruction is written as, with the places of its labels; `next` is the offset of the next instruction.
/// None if a label is unknown, or a label and what is added to it lie outside 0 to FFFFh.
fn placed_words(labels: &Labels, instruction: &Instruction, next: u16) -> Option<Words>
    requires { AreNear labels.now }
    ensures { (list : List Label) → AreKept labels.now list → result ≡ words_of list next instruction.now }
{
    let first = written_for(labels, instruction, next, &instruction.first)?;
    let second = written_for(labels, instruction, next, &instruction.second)?;
    Some(Words {
        mnemonic: instruction.mnemonic,
        first,
        second,
    })
}

/// States that a number is below 65,536. It does nothing.
fn amount_fits(amount: Amount)
    ensures { AmountFits amount }
{}

/// States that both numbers of a far pointer are below 65,536. It does nothing.
fn address_fits(segment: u16, offset: u16)
    ensures { (segment < 2 ^ 16) × (offset < 2 ^ 16) }
{}

/// States that the numbers of an operand are below 65,536. It does nothing.
pub(crate) fn term_fits(term: &Term)
    ensures { TermFits term.now }
{
    match term {
        Term::Memory(_, _, amount) => amount_fits(*amount),
        Term::Address(_, value) => amount_fits(value.amount),
        Term::Number(value) => amount_fits(value.amount),
        Term::Far(segment, offset) => address_fits(*segment, *offset),
        _ => {}
    }
}

/// The bytes of an instruction of this length at an offset; None if a label is unknown, or a number
/// or target is out of range.
fn instruction_code(
    labels: &Labels,
    at: u16,
    length: usize,
    instruction: &Instruction,
) -> Option<ArrayVec<u8, 16>>
    requires near { AreNear labels.now }
    requires shape { HasShape instruction.now length }
    requires fits { at + length < 2 ^ 16 }
    ensures found { IfSome result (λ code. (list : List Label) → AreKept labels.now list →
        IsCoded list at instruction.now code.items) }
    ensures none { IfNone result ((list : List Label) (code : List ℕ) → AreKept labels.now list →
        IsCoded list at instruction.now code → ⊥) }
{
    words_are_one_instruction();
    outlines_stand();
    stand_ins_have_the_length();
    term_fits(&instruction.first);
    term_fits(&instruction.second);
    let next = at + length as u16;
    let words = placed_words(labels, instruction, next)?;
    let encoded = read_encoded(instruction.prefixes, &words)?;
    Some(encoded.1)
}

/// The bytes of a DB; None if a number is not from -80h to FFh.
pub(crate) fn bytes_code(amounts: &[Amount]) -> Option<Code>
    requires { length amounts.now ≤ 255 }
    ensures found { IfSome result (λ code. map amount_byte amounts.now ≡ map Some code.items) }
    ensures none { IfNone result ((code : List ℕ) → map amount_byte amounts.now ≡ map Some code → ⊥) }
{
    let mut code = ArrayVec::new();
    for amount in amounts {
        code.push(amount_byte(*amount)?);
    }
    Some(code)
}

/// The word of a value of a DW; None if its label is unknown, or the label and what is added to it lie outside 0 to
/// FFFFh.
fn word_of(labels: &Labels, value: &Expression) -> Option<u16>
    requires { AreNear labels.now }
    ensures { (list : List Label) → AreKept labels.now list → result ≡ value_of list value.now }
{
    let place = labels.place_of(value)?;
    expression_word(*value, place as u16)
}

/// The bytes of a DW, the low byte of each word first; None if a value has no word.
fn words_code(labels: &Labels, values: &[Expression]) -> Option<Code>
    requires near { AreNear labels.now }
    requires few { length values.now ≤ 128 }
    ensures found { IfSome result (λ code. (list : List Label) → AreKept labels.now list →
        AreWordsOf list values.now code.items) }
    ensures none { IfNone result ((list : List Label) (code : List ℕ) → AreKept labels.now list →
        AreWordsOf list values.now code → ⊥) }
{
    let mut code = ArrayVec::new();
    for value in values {
        let word = word_of(labels, value)?;
        code.push((word % 256) as u8);
        code.push((word / 256) as u8);
    }
    Some(code)
}

/// Whether some line has each label that is named in the values of a DW; a value that is a number alone names none.
fn knows_all(labels: &Labels, values: &[Expression]) -> bool
    ensures { (list : List Label) → AreKept labels.now list → IsTrue result ↔ AllByRecursion (λ v. IsSome
        (label_place list v)) values.now }
{
    for value in values {
        match labels.place_of(value) {
            Some(_) => {}
            None => return false,
        }
    }
    true
}

/// Whether each label that a statement names is known.
fn knows(labels: &Labels, item: Item, items: &Items) -> bool
    ensures { (list : List Label) → AreKept labels.now list → IsTrue result ↔ Knows list (seen_item items.now item) }
{
    match item {
        Item::Nothing | Item::Bytes => true,
        Item::Instruction(instruction) => {
            labels.term_place(&instruction.first).is_some()
                && labels.term_place(&instruction.second).is_some()
        }
        Item::Words => knows_all(labels, items.words.as_slice()),
    }
}

/// The bytes of an instruction as those of a line (`Code`).
fn widened(bytes: &[u8]) -> Code
    requires { length bytes.now ≤ 16 }
    ensures { result.items ≡ bytes.now }
{
    let mut code = ArrayVec::new();
    // There is room for them.
    let _ = code.try_extend_from_slice(bytes);
    code
}

/// The bytes of a statement of this length at an offset; None if a number, label or target is out
/// of range, or a label is unknown.
fn item_code(labels: &Labels, at: u16, length: usize, item: Item, items: &Items) -> Option<Code>
    requires near { AreNear labels.now }
    requires long { HasLength (seen_item items.now item) length }
    requires fits { at + length < 2 ^ 16 }
    ensures found { IfSome result (λ code. (list : List Label) → AreKept labels.now list →
        Codes list at (seen_item items.now item) code.items) }
    ensures none { IfNone result ((list : List Label) (code : List ℕ) → AreKept labels.now list →
        Codes list at (seen_item items.now item) code → ⊥) }
{
    match item {
        Item::Nothing => Some(ArrayVec::new()),
        Item::Instruction(instruction) => {
            let code = instruction_code(labels, at, length, &instruction)?;
            Some(widened(code.as_slice()))
        }
        Item::Bytes => bytes_code(items.bytes.as_slice()),
        Item::Words => words_code(labels, items.words.as_slice()),
    }
}

/// The bytes of a statement of this length at an offset. `Unknown` if it names a label that no line
/// has, else `Range` if a number, label or target is out of range.
pub(crate) fn code_of(
    labels: &Labels,
    at: u16,
    length: usize,
    item: Item,
    items: &Items,
) -> Result<Code, Problem>
    requires near { AreNear labels.now }
    requires long { HasLength (seen_item items.now item) length }
    requires fits { at + length < 2 ^ 16 }
    ensures code { IfOk result (λ code. (list : List Label) → AreKept labels.now list →
        Codes list at (seen_item items.now item) code.items) }
    ensures problem { IfErr result (λ problem. (list : List Label) → AreKept labels.now list →
        IsProblem list at (seen_item items.now item) problem) }
{
    if !knows(labels, item, items) {
        return Err(Problem::Unknown);
    }
    match item_code(labels, at, length, item, items) {
        Some(code) => Ok(code),
        None => Err(Problem::Range),
    }
}
