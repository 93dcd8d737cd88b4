//! The prefixes that stand before an instruction (Intel 8086 Family User's Manual, section 2.7).

ghost use Rattle.std.specs.Prelude.{◌≡◌};
ghost use Rattle.dm_ins.specs.Spelling.{no_prefix, with_prefix};
ghost use Rattle.dm_decode.specs.inner.Reading.{prefix_of, prefixed_at, seen, stripped, strips};

use crate::reading::byte_of;
use crate::templates::action_of;
use dm_ins::prefix::Prefix;
use dm_ins::{Action, Prefixes, Repeat, SegmentRegister};

/// The prefix that the byte is, None if it is none.
#[tactic(auto, unfolding(crate::specs::inner::Reading::prefix_of))]
fn as_prefix(byte: u8) -> Option<Prefix>
    ensures { result ≡ prefix_of byte }
{
    match byte {
        0x26 => Some(Prefix::Segment(SegmentRegister::Es)),
        0x2E => Some(Prefix::Segment(SegmentRegister::Cs)),
        0x36 => Some(Prefix::Segment(SegmentRegister::Ss)),
        0x3E => Some(Prefix::Segment(SegmentRegister::Ds)),
        0xF0 => Some(Prefix::Lock),
        0xF2 => Some(Prefix::Repeat(Repeat::NotEqual)),
        0xF3 => Some(Prefix::Repeat(Repeat::Equal)),
        _ => None,
    }
}

/// The prefixes with one more, which takes the place of an earlier one of its kind.
fn add_prefix(mut prefixes: Prefixes, prefix: Prefix) -> Prefixes
    ensures { result ≡ with_prefix prefixes prefix }
{
    match prefix {
        Prefix::Segment(segment) => prefixes.segment = Some(segment),
        Prefix::Lock => prefixes.lock = true,
        Prefix::Repeat(repeat) => prefixes.repeat = Some(repeat),
    }
    prefixes
}

/// Takes one prefix from the front of the bytes, if there is one: returns the prefixes with it, and the bytes that are
/// left.
#[tactic(auto, unfolding(crate::specs::inner::Reading::stripped))]
fn strip(prefixes: Prefixes, bytes: &[u8]) -> (Prefixes, &[u8])
    ensures { (result.0, result.1.now) ≡ stripped prefixes bytes.now }
{
    match byte_of(bytes) {
        None => (prefixes, bytes),
        Some((b, rest)) => match as_prefix(b) {
            None => (prefixes, bytes),
            Some(prefix) => (add_prefix(prefixes, prefix), rest),
        },
    }
}

/// Takes at most four prefixes from the front of the bytes, as [`strip`] does.
#[inline(always)]
fn strip_all(bytes: &[u8]) -> (Prefixes, &[u8])
    ensures { (result.0, result.1.now) ≡ strips 4 no_prefix bytes.now }
{
    let (prefixes, rest) = strip(Prefixes::NONE, bytes);
    // Mostly there is none; then nothing more is taken.
    if rest.len() == bytes.len() {
        return (prefixes, rest);
    }
    let (prefixes, rest) = strip(prefixes, rest);
    let (prefixes, rest) = strip(prefixes, rest);
    strip(prefixes, rest)
}

/// The prefixes at the front of the bytes, at most four, the action after them, and the bytes after that. None where no
/// action follows the prefixes.
#[tactic(auto, unfolding(crate::specs::inner::Reading::prefixed_at))]
pub fn prefixed_of(bytes: &[u8]) -> Option<((Prefixes, Action), &[u8])>
    ensures { seen result ≡ prefixed_at bytes.now }
{
    let (prefixes, rest) = strip_all(bytes);
    let (action, rest) = action_of(rest)?;
    Some(((prefixes, action), rest))
}
