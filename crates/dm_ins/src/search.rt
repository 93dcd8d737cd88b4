//! The least bytes of an action, by a search of the templates.

ghost use Rattle.std.specs.Prelude.{◌≡◌, ◌<◌, ◌↔◌, IsTrue, IfSome, IfNone, List, ℕ};
ghost use Rattle.dm_ins.specs.Table.{entry_of};
ghost use Rattle.dm_ins.specs.Order.{before};
ghost use Rattle.dm_ins.specs.inner.Search.{CandidateAt, IsLeast, better_of, choice_at, seen_bytes};

use crate::action::{Action, Mnemonic};
use crate::fill::{ActionBytes, Choice, fill, may_fill};
use crate::keys::{Key, keys_of};
use crate::table::{OpcodeEntry, entry_at, member};

/// The template under the first byte and, in a group, the reg field; None if there is none. A template outside the
/// groups stands under the reg field 0 alone, so that each is met once.
fn choice(opcode: u8, register: u8) -> Option<Choice>
    requires { register < 8 }
    ensures value { result ≡ choice_at (entry_of opcode) opcode register }
    ensures fits { IfSome result (λ c. IfSome c.register (λ n. n < 8)) }
{
    match entry_at(opcode) {
        OpcodeEntry::Unlisted => None,
        OpcodeEntry::Plain(template) => {
            if register == 0 {
                Some(Choice {
                    opcode,
                    template,
                    register: None,
                    second: None,
                })
            } else {
                None
            }
        }
        OpcodeEntry::Group(group) => {
            let template = member(group, register)?;
            Some(Choice {
                opcode,
                template,
                register: Some(register),
                second: None,
            })
        }
        OpcodeEntry::Second(second, template) => {
            if register == 0 {
                Some(Choice {
                    opcode,
                    template,
                    register: None,
                    second: Some(second),
                })
            } else {
                None
            }
        }
    }
}

/// Whether the bytes `a` are shorter than `b`, or as many and less at the first byte that differs.
fn is_before(a: &ActionBytes, b: &ActionBytes) -> bool
    ensures { result ≡ before a.now.items b.now.items }
{
    if a.len() < b.len() {
        true
    } else if b.len() < a.len() {
        false
    } else {
        a.as_slice().cmp(b.as_slice()).is_lt()
    }
}

/// Whether the mnemonics of a template and of an action are the same.
fn is_same(a: Mnemonic, b: Mnemonic) -> bool
    ensures { IsTrue result ↔ (a ≡ b) }
{
    a == b
}

/// The bytes that the template under the key has for the action; None if there is no such template, or if it does not
/// have the action.
#[inline(always)]
fn candidate(key: Key, action: &Action) -> Option<ActionBytes>
    requires { key.register < 8 }
    ensures found { IfSome (seen_bytes result) (λ v. CandidateAt key.opcode key.register action.now v) }
    ensures none { IfNone (seen_bytes result) ((c : List ℕ) → CandidateAt key.opcode key.register action.now c → ⊥) }
{
    let choice = choice(key.opcode, key.register)?;
    if is_same(choice.template.mnemonic, action.mnemonic)
        && may_fill(&choice, action.first, action.second)
    {
        fill(choice, action.first, action.second)
    } else {
        None
    }
}

/// Of two spellings the one that comes first, `best` where they are the same; a missing one is passed over.
#[inline(always)]
fn better(best: Option<ActionBytes>, new: Option<ActionBytes>) -> Option<ActionBytes>
    ensures { seen_bytes result ≡ better_of (seen_bytes best) (seen_bytes new) }
{
    match best {
        None => new,
        Some(old) => match new {
            None => Some(old),
            Some(bytes) => if is_before(&bytes, &old) {
                Some(bytes)
            } else {
                Some(old)
            },
        },
    }
}

/// The least of the templates' bytes for the action, None where no template has it. Only the templates of its mnemonic
/// are tried.
pub fn least(action: &Action) -> Option<ActionBytes>
    ensures { IsLeast action.now (seen_bytes result) }
{
    let keys = keys_of(action.mnemonic);
    let mut best = None;
    for key in keys {
        best = better(best, candidate(*key, action));
    }
    best
}
