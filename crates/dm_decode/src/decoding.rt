//! The instruction that some bytes begin with, exactly by the table.

ghost use Rattle.std.specs.Prelude.{◌≡◌, ◌++◌, ℕ, List};
ghost use Rattle.dm_ins.specs.Ins.{Spells};
ghost use Rattle.dm_decode.specs.Decoded.{Decodes};

use crate::prefixing::prefixed_of;
use dm_ins::Ins;

/// The instruction that the bytes begin with and how many bytes spell it, or None exactly where no
/// first bytes of them spell an instruction.
pub fn decode(bytes: &[u8; 16]) -> Option<(Ins, u8)>
    ensures { Decodes bytes.now result }
{
    match prefixed_of(bytes) {
        None => None,
        Some(((prefixes, action), rest)) => {
            let ins = Ins { prefixes, action };
            let length = (bytes.len() - rest.len()) as u8;
            Some((ins, length))
        }
    }
}

/// The law that no spelling is a proper first part of another one, and that no bytes spell two
/// instructions. It does nothing when called.
pub fn no_spelling_begins_another()
    ensures { (i j : Ins) (b c rest : List ℕ) → Spells i b → Spells j c → c ≡ b ++ rest → (b ≡ c) × (i ≡ j) }
{}
