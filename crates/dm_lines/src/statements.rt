//! From the tokens of a line to its statement (Intel 8086 Family User's Manual, section 2.9, statements of ASM-86).
//! None says that the tokens are no such part of a statement.

ghost use Rattle.std.specs.Prelude.{◌≡◌, ◌<◌, ◌≤◌, length, option_map, IfSome};
ghost use Rattle.dm_ins.specs.Spelling.{no_prefix};
ghost use Rattle.dm_lines.specs.inner.Operands.{seen};
ghost use Rattle.dm_lines.specs.Statements.{seen_item, seen_statement, short_of, far_mnemonic, mnemonic_at, prefixed, is_memory, exchanges, with_terms, operated, after_prefixes, instruction_of, item_of, statement_of, line_statement};

use crate::lexing::{Tokens, put_tokens};
use crate::lists::{put_bytes, put_words};
use crate::operands::terms;
use crate::statement::{Instruction, Item, Items, Statement};
use crate::term::Term;
use crate::token::Token;
use dm_ins::{Mnemonic, Prefixes, WordRegister};

/// The mnemonic that SHORT after this one makes: JMP SHORT.
fn short(mnemonic: Mnemonic) -> Option<Mnemonic>
    ensures { result ≡ short_of mnemonic }
{
    match mnemonic {
        Mnemonic::Jmp => Some(Mnemonic::JmpShort),
        _ => None,
    }
}

/// The mnemonic that FAR after this one makes: JMP FAR or CALL FAR.
fn far(mnemonic: Mnemonic) -> Option<Mnemonic>
    ensures { result ≡ far_mnemonic mnemonic }
{
    match mnemonic {
        Mnemonic::Jmp => Some(Mnemonic::JmpFar),
        Mnemonic::Call => Some(Mnemonic::CallFar),
        _ => None,
    }
}

/// The mnemonic of one or two words at the front, and the tokens after it.
fn two_words(tokens: &[Token]) -> Option<(Mnemonic, &[Token])>
    ensures { seen result ≡ mnemonic_at tokens.now }
{
    match tokens {
        [Token::Mnemonic(first), Token::Short, rest @ ..] => {
            let mnemonic = short(*first)?;
            Some((mnemonic, rest))
        }
        [Token::Mnemonic(first), Token::Far, rest @ ..] => {
            let mnemonic = far(*first)?;
            Some((mnemonic, rest))
        }
        [Token::Mnemonic(mnemonic), rest @ ..] => Some((*mnemonic, rest)),
        _ => None,
    }
}

/// The prefixes of the words at the front, in any order and at most one of each kind, and the tokens after them.
fn read_prefixes(tokens: &[Token]) -> Option<(Prefixes, &[Token])>
    ensures { seen result ≡ prefixed no_prefix tokens.now }
{
    let mut found = Prefixes::NONE;
    let mut rest = tokens;
    loop {
        match rest {
            [Token::Segment(register), tail @ ..] => {
                if found.segment.is_some() {
                    return None;
                }
                found.segment = Some(*register);
                rest = tail;
            }
            [Token::Lock, tail @ ..] => {
                if found.lock {
                    return None;
                }
                found.lock = true;
                rest = tail;
            }
            [Token::Repeat(kind), tail @ ..] => {
                if found.repeat.is_some() {
                    return None;
                }
                found.repeat = Some(*kind);
                rest = tail;
            }
            _ => return Some((found, rest)),
        }
    }
}

/// Whether the operand is memory.
fn lies_in_memory(term: &Term) -> bool
    ensures { result ≡ is_memory term.now }
{
    matches!(term, Term::Memory(..) | Term::Address(..))
}

/// Whether the mnemonic is XCHG or TEST, whose operands may be written in either order.
fn may_exchange(mnemonic: Mnemonic) -> bool
    ensures { result ≡ exchanges mnemonic }
{
    matches!(mnemonic, Mnemonic::Xchg | Mnemonic::Test)
}

/// The instruction with these operands; of XCHG and TEST a memory operand is put first.
fn with_operands(prefixes: Prefixes, mnemonic: Mnemonic, first: Term, second: Term) -> Instruction
    ensures { result ≡ with_terms prefixes mnemonic first second }
{
    if may_exchange(mnemonic) && lies_in_memory(&second) {
        Instruction {
            prefixes,
            mnemonic,
            first: second,
            second: first,
        }
    } else {
        Instruction {
            prefixes,
            mnemonic,
            first,
            second,
        }
    }
}

/// The instruction that the tokens after its prefix words are, a mnemonic other than NOP and its operands.
fn operated_by(prefixes: Prefixes, tokens: &[Token]) -> Option<Instruction>
    ensures { result ≡ operated prefixes tokens.now }
{
    let (mnemonic, rest) = two_words(tokens)?;
    let (first, second) = terms(rest)?;
    Some(with_operands(prefixes, mnemonic, first, second))
}

/// The instruction that the tokens after its prefix words are; NOP is XCHG AX,AX.
fn action(prefixes: Prefixes, tokens: &[Token]) -> Option<Instruction>
    ensures { result ≡ after_prefixes prefixes tokens.now }
{
    match tokens {
        [Token::Nop] => Some(Instruction {
            prefixes,
            mnemonic: Mnemonic::Xchg,
            first: Term::WordRegister(WordRegister::Ax),
            second: Term::WordRegister(WordRegister::Ax),
        }),
        _ => operated_by(prefixes, tokens),
    }
}

/// The instruction that the tokens are: prefix words, a mnemonic and its operands.
fn read_instruction(tokens: &[Token]) -> Option<Instruction>
    ensures { result ≡ instruction_of tokens.now }
{
    let (found, rest) = read_prefixes(tokens)?;
    action(found, rest)
}

/// What the tokens after a label are: nothing, an instruction, or data, which replaces the bytes (of a DB) or the words
/// (of a DW) in `items`. For None, what `items` then holds means nothing.
fn read_item(tokens: &[Token], items: &mut Items) -> Option<Item>
    requires { length tokens.now ≤ 255 }
    ensures { option_map (seen_item items.new) result ≡ item_of tokens.now }
{
    match tokens {
        [] => Some(Item::Nothing),
        [Token::DataBytes, rest @ ..] => {
            put_bytes(&mut items.bytes, rest)?;
            Some(Item::Bytes)
        }
        [Token::DataWords, rest @ ..] => {
            put_words(&mut items.words, rest)?;
            Some(Item::Words)
        }
        _ => Some(Item::Instruction(read_instruction(tokens)?)),
    }
}

/// The statement that the tokens of a line are; its data is put into `items` as `read_item` does.
fn read_statement(tokens: &[Token], items: &mut Items) -> Option<Statement>
    requires { length tokens.now ≤ 255 }
    ensures { option_map (seen_statement items.new) result ≡ statement_of tokens.now }
{
    match tokens {
        [Token::Name(label), Token::Colon, rest @ ..] => {
            let item = read_item(rest, items)?;
            Some(Statement {
                label: Some(*label),
                item,
            })
        }
        _ => {
            let item = read_item(tokens, items)?;
            Some(Statement { label: None, item })
        }
    }
}

/// The statement that a line, without its line end, stands for; None where it stands for none, as where it has over
/// 255 bytes. The data of a DB or a DW is put into `items`. What `tokens` and `items` hold before does not matter, and
/// both may be overwritten: they are there so that they are not made anew for each line.
#[tactic(auto, unfolding(crate::specs::Statements::line_statement))]
pub fn line_statement(line: &[u8], tokens: &mut Tokens, items: &mut Items) -> Option<Statement>
    ensures { option_map (seen_statement items.new) result ≡ line_statement line.now }
{
    if 255 < line.len() {
        return None;
    }
    put_tokens(tokens, line)?;
    read_statement(tokens.as_slice(), items)
}
