//! From the bytes of a line to its tokens (Intel 8086 Family User's Manual, section 2.9, statements, names and
//! constants of ASM-86). None says that the bytes are no tokens.

ghost use Rattle.std.specs.Prelude.{◌≡◌, ◌<◌, ◌≤◌, ◌+◌, length, option_map, IfSome, drop, replicate, ◌++◌, []};
ghost use Rattle.arrayvec.specs.ArrayVec.{array_vec_len};
ghost use Rattle.dm_lines.specs.Tokens.{uppercase, is_word_byte, digit_of, magnitude_of, number_of, word_token, closed, joined_to, sign_tokens, inside_quotes, lexed, tokens_of};

use crate::token::{Name, Token};
use crate::words::reserved_token;
use arrayvec::ArrayVec;

/// The tokens of a line: at most one for each byte.
pub type Tokens = ArrayVec<Token, 255>;

/// The bytes of a word so far, in upper case.
type Letters = ArrayVec<u8, 255>;

/// The capital letter of a small one; any other byte as it is.
fn upper_byte(byte: u8) -> u8
    ensures { result ≡ uppercase byte }
{
    if b'a' <= byte && byte <= b'z' {
        byte - 32
    } else {
        byte
    }
}

/// Whether the byte is one of a word: a letter, a digit or an underscore.
fn is_in_word(byte: u8) -> bool
    ensures { result ≡ is_word_byte byte }
{
    b'A' <= byte && byte <= b'Z'
        || b'a' <= byte && byte <= b'z'
        || b'0' <= byte && byte <= b'9'
        || byte == b'_'
}

/// The value of a hexadecimal digit, 0 to 9 or A to F; None for another byte.
fn digit(byte: u8) -> Option<u8>
    ensures { result ≡ digit_of byte }
{
    if b'0' <= byte && byte <= b'9' {
        Some(byte - b'0')
    } else if b'A' <= byte && byte <= b'F' {
        Some(byte - (b'A' - 10))
    } else {
        None
    }
}

/// The number that digits spell in a base, 0 for no digits; None if one is no digit of it, or for 65,536 and over.
fn magnitude(base: u8, digits: &[u8]) -> Option<u16>
    requires { base ≤ 16 }
    ensures { result ≡ magnitude_of base 0 digits.now }
{
    let mut n: u16 = 0;
    for byte in digits {
        let value = digit(*byte)?;
        if base <= value {
            return None;
        }
        let next = n as u32 * base as u32 + value as u32;
        if 65536 <= next {
            return None;
        }
        n = next as u16;
    }
    Some(n)
}

/// The number that a word that begins with a digit spells: hexadecimal with an H at the end, else decimal; None if it
/// spells none.
fn number(word: &[u8]) -> Option<u16>
    requires { 0 < length word.now }
    ensures { result ≡ number_of word.now }
{
    let end = word.len() - 1;
    if word[end] == b'H' {
        magnitude(16, &word[..end])
    } else {
        magnitude(10, word)
    }
}

/// A word of at most 31 bytes as the name of a label: zeros follow it.
fn padded(word: &[u8]) -> Name
    requires { length word.now ≤ 31 }
    ensures { result.bytes ≡ word.now ++ drop (length word.now) (replicate 31 0) }
{
    let mut bytes = [0; 31];
    bytes[..word.len()].copy_from_slice(word);
    Name { bytes }
}

/// The token of a word in upper case: a number if it begins with a digit, else a reserved word, else the name of a
/// label. None for a bad number, or a name of over 31 bytes.
#[tactic(auto, unfolding(crate::specs::Tokens::word_token))]
fn token_of(word: &[u8]) -> Option<Token>
    requires { 0 < length word.now }
    ensures { result ≡ word_token word.now }
{
    if b'0' <= word[0] && word[0] <= b'9' {
        Some(Token::Number(number(word)?))
    } else if let Some(token) = reserved_token(word) {
        Some(token)
    } else if word.len() <= 31 {
        Some(Token::Name(padded(word)))
    } else {
        None
    }
}

/// Appends the token of the word so far to `tokens`, unless the word is empty, and empties the word. None if the word
/// has no token; then it and `tokens` stay.
fn close(tokens: &mut Tokens, word: &mut Letters) -> Option<()>
    requires { array_vec_len tokens.old + array_vec_len word.old ≤ 255 }
    ensures items { option_map (λ _. tokens.new.items) result ≡ joined_to tokens.old.items (closed word.old.items) }
    ensures len { IfSome result (λ _. array_vec_len tokens.new ≤ array_vec_len tokens.old + array_vec_len word.old) }
    ensures word { IfSome result (λ _. word.new.items ≡ []) }
{
    if !word.is_empty() {
        tokens.push(token_of(word.as_slice())?);
        word.clear();
    }
    Some(())
}

/// Appends the token of a byte between words to `tokens`; nothing for a tab or a space. None for a byte that is no
/// sign; then `tokens` stays.
fn push_sign(tokens: &mut Tokens, byte: u8) -> Option<()>
    requires { array_vec_len tokens.old < 255 }
    ensures items { option_map (λ _. tokens.new.items) result ≡ joined_to tokens.old.items (sign_tokens byte) }
    ensures len { IfSome result (λ _. array_vec_len tokens.new ≤ array_vec_len tokens.old + 1) }
{
    match byte {
        b'\t' | b' ' => {}
        b'\'' => tokens.push(Token::Quote),
        b'+' => tokens.push(Token::Plus),
        b',' => tokens.push(Token::Comma),
        b'-' => tokens.push(Token::Minus),
        b':' => tokens.push(Token::Colon),
        b'[' => tokens.push(Token::Open),
        b']' => tokens.push(Token::Close),
        _ => return None,
    }
    Some(())
}

/// The token of a byte inside quotes: the quote that ends them, or a letter.
fn quoted_token(byte: u8) -> Token
    ensures { result ≡ inside_quotes byte }
{
    if byte == b'\'' {
        Token::Quote
    } else {
        Token::Letter(byte)
    }
}

/// Sets `tokens` to the tokens of a line up to its comment. None if a byte or a word is no token, or a quoted text does
/// not end; what is left in `tokens` then means nothing.
#[tactic(auto, unfolding(crate::specs::Tokens::tokens_of))]
pub(crate) fn put_tokens(tokens: &mut Tokens, line: &[u8]) -> Option<()>
    requires { length line.now ≤ 255 }
    ensures { option_map (λ _. tokens.new.items) result ≡ tokens_of line.now }
{
    tokens.clear();
    let mut word = ArrayVec::new();
    let mut quoted = false;
    for byte in line {
        if quoted {
            tokens.push(quoted_token(*byte));
            quoted = *byte != b'\'';
            continue;
        }
        if is_in_word(*byte) {
            word.push(upper_byte(*byte));
            continue;
        }
        if *byte == b';' {
            break;
        }
        close(tokens, &mut word)?;
        push_sign(tokens, *byte)?;
        quoted = *byte == b'\'';
    }
    if quoted {
        return None;
    }
    close(tokens, &mut word)
}
