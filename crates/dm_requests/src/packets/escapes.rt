//! Escapes: how a packet carries the bytes that have a meaning of their own in the stream.

ghost use Rattle.std.specs.Prelude.{◌≡◌, ◌++◌, [], false, Some, None, IfOk, OnOk, option_map};
ghost use Rattle.dm_requests.specs.packets.Escapes.{is_special, escaped_byte, escaped, unescaped};

use crate::packets::received::Payload;
use std::alloc::{AllocError, Global};

/// The byte before an escaped one, which is sent exclusive-or 20h.
const ESCAPE: u8 = b'}';

/// Whether a byte is sent escaped.
fn is_special(byte: u8) -> bool
    ensures { result ≡ is_special byte }
{
    byte == b'#' || byte == b'$' || byte == b'*' || byte == ESCAPE
}

/// Appends a byte as a packet carries it. An `Err` is a failed allocation.
fn put_byte(out: &mut Vec<u8>, byte: u8) -> Result<(), AllocError>
    ensures { OnOk result (out.new.items ≡ out.old.items ++ escaped_byte byte) }
{
    if is_special(byte) {
        return out.extend_from_slice(&[ESCAPE, byte ^ 0x20]);
    }
    out.extend_from_slice(&[byte])
}

/// Appends bytes as a packet carries them. An `Err` is a failed allocation; a first part may have been appended.
#[tactic(auto, unfolding(crate::specs::packets::Escapes::escaped))]
pub(crate) fn put_escaped(out: &mut Vec<u8>, bytes: &[u8]) -> Result<(), AllocError>
    ensures { OnOk result (out.new.items ≡ out.old.items ++ escaped bytes.now) }
{
    for byte in bytes {
        put_byte(out, *byte)?;
    }
    Ok(())
}

/// The bytes that `content`, the bytes of a packet between `$` and `#`, carries; None if its last byte is an escape. An
/// `Err` is a failed allocation.
#[tactic(auto, unfolding(crate::specs::packets::Escapes::unescaped))]
pub(crate) fn unescape(alloc: Global, content: &[u8]) -> Result<Option<Payload>, AllocError>
    ensures { IfOk result (λ payload. payload ≡ unescaped content.now) }
{
    let mut bytes = Vec::new(alloc);
    let mut is_escaped = false;
    for byte in content {
        if is_escaped {
            bytes.push(*byte ^ 0x20)?;
            is_escaped = false;
        } else if *byte == ESCAPE {
            is_escaped = true;
        } else {
            bytes.push(*byte)?;
        }
    }
    if is_escaped {
        return Ok(None);
    }
    Ok(Some(Payload::new(bytes)))
}
