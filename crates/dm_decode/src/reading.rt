//! Bytes and words from the front of a slice.

ghost use Rattle.std.specs.Prelude.{◌≡◌};
ghost use Rattle.dm_decode.specs.inner.Reading.{byte_at, seen, word_at};

/// The first byte, and the bytes after it; None where there is none.
pub fn byte_of(bytes: &[u8]) -> Option<(u8, &[u8])>
    ensures { seen result ≡ byte_at bytes.now }
{
    let (first, rest) = bytes.split_first()?;
    Some((*first, rest))
}

/// The first word, its low byte first, and the bytes after it; None where there are fewer than two bytes.
#[tactic(auto, unfolding(crate::specs::inner::Reading::word_at))]
pub fn word_of(bytes: &[u8]) -> Option<(u16, &[u8])>
    ensures { seen result ≡ word_at bytes.now }
{
    let (low, rest) = byte_of(bytes)?;
    let (high, rest) = byte_of(rest)?;
    Some((low as u16 + 256 * high as u16, rest))
}
