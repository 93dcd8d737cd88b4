//! The bytes that an instruction is written as.

ghost use Rattle.std.specs.Prelude.{◌≡◌, ◌+◌, ◌≤◌, ◌++◌, map, IfSome, IfNone, List, ℕ};
ghost use Rattle.arrayvec.specs.ArrayVec.{array_vec_len};
ghost use Rattle.dm_ins.specs.Spelling.{SpellsAction, prefix_byte};
ghost use Rattle.dm_ins.specs.Preferred.{IsPreferred};
ghost use Rattle.dm_ins.specs.inner.Search.{prefix_list};

use crate::action::Action;
use crate::fill::ActionBytes;
use crate::ins::Ins;
use crate::operand::SegmentRegister;
use crate::prefix::{Prefixes, Repeat};
use crate::search::least;
use arrayvec::ArrayVec;

/// Appends the bytes of the prefixes, at most three, in rising order.
fn put_prefixes(out: &mut ArrayVec<u8, 16>, prefixes: Prefixes)
    requires { array_vec_len out.old + 3 ≤ 16 }
    ensures items { out.new.items ≡ out.old.items ++ map prefix_byte (prefix_list prefixes) }
    ensures within { array_vec_len out.new ≤ array_vec_len out.old + 3 }
{
    match prefixes.segment {
        None => {}
        Some(SegmentRegister::Es) => out.push(0x26),
        Some(SegmentRegister::Cs) => out.push(0x2E),
        Some(SegmentRegister::Ss) => out.push(0x36),
        Some(SegmentRegister::Ds) => out.push(0x3E),
    }
    if prefixes.lock {
        out.push(0xF0);
    }
    match prefixes.repeat {
        None => {}
        Some(Repeat::NotEqual) => out.push(0xF2),
        Some(Repeat::Equal) => out.push(0xF3),
    }
}

/// Appends the bytes of the action, which come after the prefixes.
fn append(out: &mut ArrayVec<u8, 16>, bytes: &ActionBytes)
    requires { array_vec_len out.old + 12 ≤ 16 }
    ensures { out.new.items ≡ out.old.items ++ bytes.now.items }
{
    // There is room for them.
    let _ = out.try_extend_from_slice(bytes.as_slice());
}

/// The bytes of the prefixes, in rising order, and after them those of the action.
fn whole(prefixes: Prefixes, bytes: &ActionBytes) -> ArrayVec<u8, 16>
    ensures { result.items ≡ map prefix_byte (prefix_list prefixes) ++ bytes.now.items }
{
    let mut out = ArrayVec::new();
    put_prefixes(&mut out, prefixes);
    append(&mut out, bytes);
    out
}

/// The bytes of the instruction: of its spellings the shortest, and of those the one that is least
/// byte by byte from the left.
pub fn encode(ins: &Ins) -> ArrayVec<u8, 16>
    ensures { IsPreferred ins.now result.items }
{
    match least(&ins.action) {
        Some(bytes) => whole(ins.prefixes, &bytes),
        // Some bytes spell the action, so there are least ones.
        None => ArrayVec::new(),
    }
}

/// The instruction of these parts, as `Ins::new` makes it, with its bytes, as `encode` chooses them; None exactly where
/// no template of the table has the action. The templates are searched once for both.
pub fn new_encoded(prefixes: Prefixes, action: Action) -> Option<(Ins, ArrayVec<u8, 16>)>
    ensures parts { IfSome result (λ r. (r.0.prefixes ≡ prefixes) × (r.0.action ≡ action)) }
    ensures bytes { IfSome result (λ r. IsPreferred r.0 r.1.items) }
    ensures none { IfNone result ((bytes : List ℕ) → SpellsAction action bytes → ⊥) }
{
    match least(&action) {
        None => None,
        Some(bytes) => Some((Ins { prefixes, action }, whole(prefixes, &bytes))),
    }
}
