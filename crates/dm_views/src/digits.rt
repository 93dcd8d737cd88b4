//! Numbers in hexadecimal, and addresses, as listings show them.

ghost use Rattle.std.specs.Prelude.{◌≡◌, ◌<◌, ◌++◌, OnOk};
ghost use Rattle.dm_decode.specs.Pieces.{digit};
ghost use Rattle.dm_views.specs.Digits.{two_digits, four_digits, eight_digits, address_text};

use std::alloc::AllocError;

/// The hexadecimal digit of a number below 16, in upper case.
pub(crate) fn digit_of(n: u16) -> u8
    requires { n < 16 }
    ensures { result ≡ digit n }
{
    if n < 10 {
        b'0' + n as u8
    } else {
        b'A' - 10 + n as u8
    }
}

/// The two hexadecimal digits of a byte.
#[tactic(auto, unfolding(crate::specs::Digits::two_digits))]
pub fn byte_digits(n: u8) -> [u8; 2]
    ensures { result ≡ two_digits n }
{
    let n = n as u16;
    [digit_of(n / 16), digit_of(n % 16)]
}

/// The four hexadecimal digits of a word.
#[tactic(auto, unfolding(crate::specs::Digits::four_digits))]
pub fn word_digits(n: u16) -> [u8; 4]
    ensures { result ≡ four_digits n }
{
    [
        digit_of(n / 4096),
        digit_of(n / 256 % 16),
        digit_of(n / 16 % 16),
        digit_of(n % 16),
    ]
}

/// Appends the low 32 bits of a number, a linear address in the listing of extended memory, in eight hexadecimal
/// digits. An `Err` is a failed allocation.
#[tactic(auto, unfolding(crate::specs::Digits::eight_digits))]
pub(crate) fn put_double(out: &mut Vec<u8>, n: usize) -> Result<(), AllocError>
    ensures { OnOk result (out.new.items ≡ out.old.items ++ eight_digits n) }
{
    out.extend_from_slice(&word_digits((n / 65536 % 65536) as u16))?;
    out.extend_from_slice(&word_digits((n % 65536) as u16))
}

/// Appends `segment:offset`, four hexadecimal digits each. An `Err` is a failed allocation.
pub fn put_address(out: &mut Vec<u8>, segment: u16, offset: u16) -> Result<(), AllocError>
    ensures { OnOk result (out.new.items ≡ out.old.items ++ address_text segment offset) }
{
    out.extend_from_slice(&word_digits(segment))?;
    out.extend_from_slice(b":")?;
    out.extend_from_slice(&word_digits(offset))
}
