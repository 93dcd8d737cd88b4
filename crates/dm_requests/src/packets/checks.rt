//! The checksum of a packet, and the two digits that spell it.

ghost use Rattle.std.specs.Prelude.{◌≡◌, ◌<◌, IfSome};
ghost use Rattle.hex.specs.Hex.{hex_digit_value};
ghost use Rattle.dm_requests.specs.packets.Checks.{checksum_of, is_checked};

/// The value of a hexadecimal digit, in either case; None for any other byte.
fn digit_value(byte: u8) -> Option<u8>
    ensures value { result ≡ hex_digit_value byte }
    ensures small { IfSome result (λ d. d < 16) }
{
    match byte {
        b'A'..=b'F' => Some(byte - b'A' + 10),
        b'a'..=b'f' => Some(byte - b'a' + 10),
        b'0'..=b'9' => Some(byte - b'0'),
        _ => None,
    }
}

/// The sum of the bytes, modulo 256.
pub(crate) fn checksum(bytes: &[u8]) -> u8
    ensures { result ≡ checksum_of bytes.now }
{
    let mut sum: u8 = 0;
    for byte in bytes {
        sum = sum.wrapping_add(*byte);
    }
    sum
}

/// Whether two bytes are the hexadecimal digits, in either case, of this checksum.
pub(crate) fn is_checked(sum: u8, high: u8, low: u8) -> bool
    ensures { result ≡ is_checked sum high low }
{
    match digit_value(high) {
        None => false,
        Some(high) => match digit_value(low) {
            None => false,
            Some(low) => high * 16 + low == sum,
        },
    }
}
