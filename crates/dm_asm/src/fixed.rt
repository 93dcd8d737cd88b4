//! The bytes of instructions that are the same wherever these stand, as they have no label and no target.

ghost use Rattle.std.specs.Prelude.{◌≡◌, ℕ, List, true, Some, IfSome};
ghost use Rattle.dm_lines.specs.Placing.{written_of};
ghost use Rattle.dm_asm.specs.Labels.{Label};
ghost use Rattle.dm_asm.specs.Codes.{IsCoded};
ghost use Rattle.dm_asm.specs.inner.Fixed.{AreFixed, names_none, targets};

use crate::codes::term_fits;
use arrayvec::ArrayVec;
use dm_decode::words::{Words, Written, read_encoded, stand_ins_have_the_length};
use dm_ins::{Mnemonic, Operand};
use dm_lines::{Instruction, Term, outlines_stand, written_of};

/// Whether the operand names no label.
fn is_free(term: &Term) -> bool
    ensures { result ≡ names_none term.now }
{
    match term {
        Term::Address(_, value) => value.label.is_none(),
        Term::Number(value) => value.label.is_none(),
        _ => true,
    }
}

/// What an operand that names no label is written as, with a target counted from 0; None if it names one.
fn fixed(mnemonic: Mnemonic, term: &Term) -> Option<Written>
    ensures { IfSome result (λ w. (names_none term.now ≡ true) × (written_of mnemonic term.now 0 0 ≡ Some w)) }
{
    if is_free(term) {
        written_of(mnemonic, term, 0, 0)
    } else {
        None
    }
}

/// What an instruction that names no label is written as, with targets counted from 0; None if it names one.
fn fixed_words(instruction: &Instruction) -> Option<Words>
    ensures { IfSome result (λ words. AreFixed instruction.now words) }
{
    let mnemonic = instruction.mnemonic;
    let first = fixed(mnemonic, &instruction.first)?;
    let second = fixed(mnemonic, &instruction.second)?;
    Some(Words {
        mnemonic,
        first,
        second,
    })
}

/// Whether the operand is a target, which counts from the next instruction.
fn is_target(operand: Operand) -> bool
    ensures { result ≡ targets operand }
{
    matches!(operand, Operand::Target(_))
}

/// The bytes of an instruction that names no label and has no target: they are the same wherever it stands. None for
/// any other instruction, and where the table does not have it or a number is out of range.
pub(crate) fn fixed_code(instruction: &Instruction) -> Option<ArrayVec<u8, 16>>
    ensures { IfSome result (λ code. (list : List Label) (at : ℕ) → IsCoded list at instruction.now code.items) }
{
    outlines_stand();
    stand_ins_have_the_length();
    term_fits(&instruction.first);
    term_fits(&instruction.second);
    let words = fixed_words(instruction)?;
    let (ins, code) = read_encoded(instruction.prefixes, &words)?;
    if is_target(ins.action.first) || is_target(ins.action.second) {
        return None;
    }
    Some(code)
}
