//! The listing of bytes in memory. Each function `put_..` appends its text to `out`; an `Err` is a failed allocation.

ghost use Rattle.std.specs.Prelude.{◌≡◌, ◌+◌, ◌*◌, ◌≤◌, ◌++◌, codes, OnOk};
ghost use Rattle.dm_views.specs.Bytes.{printable, in_digits, as_text, line_text, bytes_text};
ghost use Rattle.dm_views.specs.Digits.{two_digits, in_turn};

use crate::digits::{byte_digits, put_address};
use dm_space::Space;
use std::alloc::AllocError;

/// How many bytes a line shows; the last line may show fewer.
const IN_LINE: u32 = 16;

/// A byte as a character: itself from 20h to 7Eh, otherwise a point.
fn printed(byte: u8) -> u8
    ensures { result ≡ printable byte }
{
    if 0x20 <= byte && byte <= 0x7E {
        byte
    } else {
        b'.'
    }
}

/// Appends a space and the two hexadecimal digits of a byte.
fn put_byte(out: &mut Vec<u8>, byte: u8) -> Result<(), AllocError>
    ensures { OnOk result (out.new.items ≡ out.old.items ++ (codes " " ++ two_digits byte)) }
{
    out.extend_from_slice(b" ")?;
    out.extend_from_slice(&byte_digits(byte))
}

/// Appends the `count` bytes from segment:offset on in hexadecimal, a space before each. Offsets wrap.
fn put_digits(
    out: &mut Vec<u8>,
    space: &Space,
    segment: u16,
    offset: u16,
    count: u16,
) -> Result<(), AllocError>
    ensures { OnOk result (out.new.items ≡ out.old.items ++ in_turn (in_digits space.now.memory segment offset) count) }
{
    for k in 0..count {
        put_byte(out, space.peek(segment, offset.wrapping_add(k)))?;
    }
    Ok(())
}

/// Appends the `count` bytes from segment:offset on as characters, with a point for each that is not printable. Offsets
/// wrap.
fn put_characters(
    out: &mut Vec<u8>,
    space: &Space,
    segment: u16,
    offset: u16,
    count: u16,
) -> Result<(), AllocError>
    ensures { OnOk result (out.new.items ≡ out.old.items ++ in_turn (as_text space.now.memory segment offset) count) }
{
    for k in 0..count {
        let byte = space.peek(segment, offset.wrapping_add(k));
        out.extend_from_slice(&[printed(byte)])?;
    }
    Ok(())
}

/// Appends one line: the address segment:offset, and the `count` bytes from there on in hexadecimal and as characters.
/// Offsets wrap.
fn put_bytes_line(
    out: &mut Vec<u8>,
    space: &Space,
    segment: u16,
    offset: u16,
    count: u16,
) -> Result<(), AllocError>
    ensures { OnOk result (out.new.items ≡ out.old.items ++ line_text space.now.memory segment offset count) }
{
    put_address(out, segment, offset)?;
    put_digits(out, space, segment, offset, count)?;
    out.extend_from_slice(b"  ")?;
    put_characters(out, space, segment, offset, count)?;
    out.extend_from_slice(b"\n")
}

/// Appends the `count` bytes from segment:offset on, 16 to a line: the address of the first; each in two digits after a
/// space; two spaces; and each as a character, or a point if it is outside 20h to 7Eh. Offsets wrap in the segment.
///
/// # Errors
///
/// A failed allocation.
pub fn put_bytes(
    out: &mut Vec<u8>,
    space: &Space,
    segment: u16,
    offset: u16,
    count: u32,
) -> Result<(), AllocError>
    ensures { OnOk result (out.new.items ≡ out.old.items ++ bytes_text space.now.memory segment offset count) }
{
    for line in 0..count.div_ceil(IN_LINE) {
        let before = IN_LINE * line;
        let left = IN_LINE.min(count - before) as u16;
        let at = offset.wrapping_add((before % 65536) as u16);
        put_bytes_line(out, space, segment, at, left)?;
    }
    Ok(())
}
