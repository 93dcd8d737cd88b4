//! What follows the names of requests: numbers, addresses, and bytes in hexadecimal.

ghost use Rattle.std.specs.Prelude.{◌≡◌, IfOk, [], option_map};
ghost use Rattle.hex.specs.Hex.{decode_of};
ghost use Rattle.dm_requests.specs.commands.Numbers.{if_good};
ghost use Rattle.dm_requests.specs.Arguments.{cut_at, two_numbers, after_prefix, watched_access, point_of};

use crate::commands::read_number;
use crate::packets::Payload;
use crate::request::{Point, WatchedAccess};
use hex::FromHexError;
use std::alloc::{AllocError, Global};

/// The bytes before the first `separator`, and those after it; None if it is not among them.
pub(crate) fn cut_at(separator: u8, bytes: &[u8]) -> Option<(&[u8], &[u8])>
    ensures { option_map (λ x. (x.0.now, x.1.now)) result ≡ cut_at separator [] bytes.now }
{
    for (i, byte) in bytes.iter().enumerate() {
        if *byte == separator {
            let (before, behind) = bytes.split_at(i);
            return Some((before, &behind[1..]));
        }
    }
    None
}

/// Two numbers with a comma between them; None for any other bytes.
pub(crate) fn two_numbers(bytes: &[u8]) -> Option<(u32, u32)>
    ensures { result ≡ two_numbers bytes.now }
{
    let (first, second) = cut_at(b',', bytes)?;
    Some((read_number(first)?, read_number(second)?))
}

/// The bytes after a prefix; None if they do not begin with it.
pub(crate) fn after_prefix<'a>(prefix: &[u8], bytes: &'a [u8]) -> Option<&'a [u8]>
    ensures { option_map (λ x. x.now) result ≡ after_prefix prefix.now bytes.now }
{
    bytes.strip_prefix(prefix)
}

/// The access that a type of `Z` and `z` stands for, 0 to 4; None for any other byte.
fn watched_access(digit: u8) -> Option<WatchedAccess>
    ensures { result ≡ watched_access digit }
{
    match digit {
        b'0' | b'1' => Some(WatchedAccess::Execute),
        b'2' => Some(WatchedAccess::Write),
        b'3' => Some(WatchedAccess::Read),
        b'4' => Some(WatchedAccess::Either),
        _ => None,
    }
}

/// The breakpoint or watchpoint that `TYPE,ADDRESS,LENGTH` stands for; None for any other bytes.
pub(crate) fn point_of(bytes: &[u8]) -> Option<Point>
    ensures { result ≡ point_of bytes.now }
{
    match bytes {
        [digit, b',', rest @ ..] => {
            let access = watched_access(*digit)?;
            let (address, length) = two_numbers(rest)?;
            Some(Point {
                access,
                address,
                length,
            })
        }
        _ => None,
    }
}

/// The bytes that pairs of hexadecimal digits spell; None if they are no such pairs. An `Err` is a failed allocation.
pub(crate) fn unhex(alloc: Global, digits: &[u8]) -> Result<Option<Payload>, AllocError>
    ensures { IfOk result (λ bytes. bytes ≡ if_good (decode_of digits.now)) }
{
    match hex::decode(alloc, digits) {
        Ok(bytes) => Ok(Some(Payload::new(bytes))),
        Err(FromHexError::OutOfMemory) => Err(AllocError),
        Err(_) => Ok(None),
    }
}
