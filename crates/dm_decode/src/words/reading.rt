//! From written words to the instruction of the table that they are. There is no second table: each way to take the
//! operands is tried with the table of the encoder.

ghost use Rattle.std.specs.Prelude.{◌≡◌, ◌↔◌, ℕ, IsTrue, List, IfSome, IfNone};
ghost use Rattle.dm_ins.specs.declared.action.Action.{Action};
ghost use Rattle.dm_ins.specs.Preferred.{IsPreferred};
ghost use Rattle.dm_ins.specs.Spelling.{SpellsAction};
ghost use Rattle.dm_decode.specs.words.Words.{AreWords, size_word, word_before, word_written};
ghost use Rattle.dm_decode.specs.words.inner.Search.{FirstWays, HaveWords, IsNot, Taken, action_of, first_way, taken};

use crate::size_is_given;
use crate::words::written::{Size, Words, Written};
use arrayvec::ArrayVec;
use dm_ins::{Action, Ins, Mnemonic, Operand, Prefixes, Width, new_encoded};

/// A way to take a written operand. One that can be taken in one way only is taken in the first.
#[derive(Clone, Copy, Debug, PartialEq, Eq)]
pub enum Way {
    /// Memory of a byte, or a number as a byte.
    AsByte,
    /// Memory of a word, or a number as a word.
    AsWord,
    /// A number as a target.
    AsTarget,
    /// A number as the count 1 of a shift.
    AsOne,
}

/// The ways, in the order in which they are tried.
static WAYS: [Way; 4] = [Way::AsByte, Way::AsWord, Way::AsTarget, Way::AsOne];

/// An operand that can be taken in one way only: the operand itself in the first way, `AsByte`; None in any other way.
fn first(way: Way, operand: Operand) -> Option<Operand>
    ensures { result ≡ first_way way operand }
{
    match way {
        Way::AsByte => Some(operand),
        _ => None,
    }
}

/// The operand that a written one is, taken in this way; None if it can't be taken so.
#[tactic(auto, unfolding(crate::specs::words::inner::Search::taken))]
fn take_as(way: Way, written: Written) -> Option<Operand>
    ensures { result ≡ taken way written }
{
    match written {
        Written::Nothing => first(way, Operand::Nothing),
        Written::ByteRegister(r) => first(way, Operand::ByteRegister(r)),
        Written::WordRegister(r) => first(way, Operand::WordRegister(r)),
        Written::SegmentRegister(r) => first(way, Operand::SegmentRegister(r)),
        Written::Memory(_, address) => match way {
            Way::AsByte => Some(Operand::Memory(Width::Byte, address)),
            Way::AsWord => Some(Operand::Memory(Width::Word, address)),
            _ => None,
        },
        Written::Number(n) => match way {
            Way::AsByte => {
                let byte = n.byte?;
                Some(Operand::ByteValue(byte))
            }
            Way::AsWord => {
                let word = n.word?;
                Some(Operand::WordValue(word))
            }
            Way::AsTarget => Some(Operand::Target(n.distance)),
            Way::AsOne => if n.is_one { Some(Operand::One) } else { None },
        },
        Written::Far(segment, offset) => first(way, Operand::FarTarget(offset, segment)),
    }
}

/// The size word that the action has before a memory operand of this width.
fn size_for(action: &Action, width: Width) -> Size
    ensures { result ≡ size_word action.now width }
{
    match action.mnemonic {
        Mnemonic::CallFar | Mnemonic::JmpFar => Size::Absent,
        Mnemonic::Call | Mnemonic::Jmp => Size::Near,
        _ => {
            if size_is_given(action) {
                Size::Absent
            } else {
                match width {
                    Width::Byte => Size::Byte,
                    Width::Word => Size::Word,
                }
            }
        }
    }
}

/// The size word that the action has before the operand; only memory has one.
fn size_before(action: &Action, operand: Operand) -> Size
    ensures { result ≡ word_before action.now operand }
{
    match operand {
        Operand::Memory(width, _) => size_for(action, width),
        _ => Size::Absent,
    }
}

/// The size word that is written before the operand; only memory has one.
fn size_written(written: Written) -> Size
    ensures { result ≡ word_written written }
{
    match written {
        Written::Memory(size, _) => size,
        _ => Size::Absent,
    }
}

/// Whether two size words are the same.
fn is_same(a: Size, b: Size) -> bool
    ensures { IsTrue result ↔ (a ≡ b) }
{
    a == b
}

/// An instruction, and its bytes as `encode` chooses them.
pub type Encoded = (Ins, ArrayVec<u8, 16>);

/// The instruction of these operands with its bytes; None if the size words are not those that it asks for, or if the
/// table does not have it.
fn spelled(prefixes: Prefixes, words: &Words, first: Operand, second: Operand) -> Option<Encoded>
    ensures found { IfSome result (λ r. (r.0.prefixes ≡ prefixes) × (r.0.action ≡ action_of words.now first second) ×
        HaveWords words.now r.0.action) }
    ensures bytes { IfSome result (λ r. IsPreferred r.0 r.1.items) }
    ensures none { IfNone result (HaveWords words.now (action_of words.now first second) → (b : List ℕ) →
        SpellsAction (action_of words.now first second) b → ⊥) }
{
    let action = Action {
        mnemonic: words.mnemonic,
        first,
        second,
    };
    if !is_same(size_written(words.first), size_before(&action, first)) {
        return None;
    }
    if !is_same(size_written(words.second), size_before(&action, second)) {
        return None;
    }
    new_encoded(prefixes, action)
}

/// The instruction that the words are with the first operand taken in the way `way`, the second in the way `other`;
/// None if they are none.
fn taken_so(prefixes: Prefixes, words: &Words, way: Way, other: Way) -> Option<Encoded>
    ensures found { IfSome result (λ r. (r.0.prefixes ≡ prefixes) × Taken words.now way other r.0.action) }
    ensures bytes { IfSome result (λ r. IsPreferred r.0 r.1.items) }
    ensures none { IfNone result (IsNot words.now way other) }
{
    let first = take_as(way, words.first)?;
    let second = take_as(other, words.second)?;
    spelled(prefixes, words, first, second)
}

/// The instruction that the words are with the first operand taken in this way, the second in any; None if they are
/// none.
fn taken_first(prefixes: Prefixes, words: &Words, way: Way) -> Option<Encoded>
    ensures found { IfSome result (λ r. (r.0.prefixes ≡ prefixes) × (other : Way) ×
        Taken words.now way other r.0.action) }
    ensures bytes { IfSome result (λ r. IsPreferred r.0 r.1.items) }
    ensures none { IfNone result (FirstWays 4 (IsNot words.now way)) }
{
    for other in &WAYS {
        if let Some(encoded) = taken_so(prefixes, words, way, *other) {
            return Some(encoded);
        }
    }
    None
}

/// The instruction of the table that the words are, with the prefixes, and its bytes as `encode` chooses them; None
/// exactly where they are none. Each operand is taken in any of its ways: memory as a byte's or a word's, a number as
/// a byte, a word, a target or a shift's 1; BYTE, WORD or NEAR has to stand before memory exactly where the text of
/// the instruction has it.
pub fn read_encoded(prefixes: Prefixes, words: &Words) -> Option<Encoded>
    ensures found { IfSome result (λ r. (r.0.prefixes ≡ prefixes) × AreWords words.now r.0.action) }
    ensures bytes { IfSome result (λ r. IsPreferred r.0 r.1.items) }
    ensures none { IfNone result ((a : Action) (b : List ℕ) → AreWords words.now a → SpellsAction a b → ⊥) }
{
    for way in &WAYS {
        if let Some(encoded) = taken_first(prefixes, words, *way) {
            return Some(encoded);
        }
    }
    None
}

/// The instruction of `read_encoded`, without its bytes.
pub fn read_words(prefixes: Prefixes, words: &Words) -> Option<Ins>
    ensures found { IfSome result (λ i. (i.prefixes ≡ prefixes) × AreWords words.now i.action) }
    ensures none { IfNone result ((a : Action) (b : List ℕ) → AreWords words.now a → SpellsAction a b → ⊥) }
{
    match read_encoded(prefixes, words) {
        Some((ins, _)) => Some(ins),
        None => None,
    }
}
