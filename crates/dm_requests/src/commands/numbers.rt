//! Reading numbers, addresses and bytes as they are typed: all digits are hexadecimal.

ghost use Rattle.std.specs.Prelude.{◌≡◌, ◌<◌, ◌≤◌, [], IfSome, option_map};
ghost use Rattle.hex.specs.Hex.{hex_digit_value};
ghost use Rattle.dm_requests.specs.commands.Numbers.{hexadecimal_number, up_to, word_from_digits, parts_of, logical_address, bytes_from_digits};

use crate::commands::command::{Bytes, LogicalAddress};

/// The largest number of digits of a number.
const DIGITS: usize = 8;

/// The largest number of bytes that one E writes.
const BYTES: usize = 64;

/// The value of a hexadecimal digit, in either case; None for any other byte.
fn digit(byte: u8) -> Option<u8>
    ensures value { result ≡ hex_digit_value byte }
    ensures small { IfSome result (λ d. d < 16) }
{
    match byte {
        b'A'..=b'F' => Some(byte - b'A' + 10),
        b'a'..=b'f' => Some(byte - b'a' + 10),
        b'0'..=b'9' => Some(byte - b'0'),
        _ => None,
    }
}

/// The number that a word of one to eight hexadecimal digits spells; None for any other word.
#[tactic(auto, unfolding(crate::specs::commands::Numbers::hexadecimal_number))]
pub fn read_number(word: &[u8]) -> Option<u32>
    ensures { result ≡ hexadecimal_number word.now }
{
    if word.is_empty() || DIGITS < word.len() {
        return None;
    }
    let mut n: u32 = 0;
    for byte in word {
        n = n * 16 + digit(*byte)? as u32;
    }
    Some(n)
}

/// The number that a word of one to eight hexadecimal digits spells, if it is at most `most`; otherwise None.
pub(crate) fn read_up_to(word: &[u8], most: u32) -> Option<u32>
    ensures value { result ≡ up_to most (hexadecimal_number word.now) }
    ensures few { IfSome result (λ n. n ≤ most) }
{
    let n = read_number(word)?;
    if n <= most { Some(n) } else { None }
}

/// The number that a word of one to eight hexadecimal digits spells, if it is at most FFFFh; otherwise None.
fn read_word(word: &[u8]) -> Option<u16>
    ensures { result ≡ word_from_digits word.now }
{
    let n = read_up_to(word, 0xFFFF)?;
    Some(n as u16)
}

/// The bytes of a word before its first colon, and those after it; None if it has no colon.
fn parts(word: &[u8]) -> Option<(&[u8], &[u8])>
    ensures { option_map (λ x. (x.0.now, x.1.now)) result ≡ parts_of [] word.now }
{
    for (i, byte) in word.iter().enumerate() {
        if *byte == b':' {
            let (before, behind) = word.split_at(i);
            return Some((before, &behind[1..]));
        }
    }
    None
}

/// The address that a word spells: a segment and an offset, each at most FFFFh, with a colon between them. None for any
/// other word.
pub(crate) fn read_address(word: &[u8]) -> Option<LogicalAddress>
    ensures { result ≡ logical_address word.now }
{
    let (before, behind) = parts(word)?;
    let segment = read_word(before)?;
    let offset = read_word(behind)?;
    Some(LogicalAddress { segment, offset })
}

/// The 1 to 64 bytes that a word spells, each as two hexadecimal digits, with nothing between them; None for any other
/// word.
#[tactic(auto, unfolding(crate::specs::commands::Numbers::bytes_from_digits))]
pub(crate) fn read_bytes(word: &[u8]) -> Option<Bytes>
    ensures { result ≡ bytes_from_digits word.now }
{
    let count = word.len() / 2;
    if count == 0 || BYTES < count {
        return None;
    }
    let mut bytes = [0; BYTES];
    let typed = &mut bytes[..count];
    match hex::decode_to_slice(word, typed) {
        Ok(()) => Some(Bytes::new(&bytes[..count])),
        Err(_) => None,
    }
}
