//! The data of DB and DW. None says that the tokens are no such data; what the list then holds
//! means nothing.

ghost use Rattle.std.specs.Prelude.{◌≡◌, ◌<◌, ◌≤◌, ◌+◌, length, option_map, IfSome};
ghost use Rattle.arrayvec.specs.ArrayVec.{array_vec_len};
ghost use Rattle.dm_lines.specs.Operands.{amount_of, parts};
ghost use Rattle.dm_lines.specs.Tokens.{joined_to};
ghost use Rattle.dm_lines.specs.Statements.{letters, list_of_one, bytes_item, byte_items, word_items};

use crate::operands::{amount, front, value};
use crate::statement::{Bytes, Words};
use crate::term::Amount;
use crate::token::Token;

/// Appends the bytes of a quoted text, by the tokens after its first quote; the last token has to
/// be the quote that ends it.
fn put_text(bytes: &mut Bytes, tokens: &[Token]) -> Option<()>
    requires { array_vec_len bytes.old + length tokens.now ≤ 255 }
    ensures items { option_map (λ _. bytes.new.items) result ≡ joined_to bytes.old.items (letters tokens.now) }
    ensures len { IfSome result (λ _. array_vec_len bytes.new ≤ array_vec_len bytes.old + length tokens.now) }
{
    let mut rest = tokens;
    loop {
        match rest {
            [Token::Quote] => return Some(()),
            [Token::Letter(byte), tail @ ..] => {
                bytes.push(Amount::Plus(*byte as u16));
                rest = tail;
            }
            _ => return None,
        }
    }
}

/// Appends the number that the tokens of an item of a DB are, with its sign.
fn put_number(bytes: &mut Bytes, tokens: &[Token]) -> Option<()>
    requires { array_vec_len bytes.old + length tokens.now ≤ 255 }
    ensures items { option_map (λ _. bytes.new.items) result ≡ joined_to bytes.old.items (list_of_one
        (amount_of tokens.now)) }
    ensures len { IfSome result (λ _. array_vec_len bytes.new ≤ array_vec_len bytes.old + length tokens.now) }
{
    let number = amount(tokens)?;
    bytes.push(number);
    Some(())
}

/// Appends the bytes of one item of a DB: a number, or a text between quotes.
fn put_item(bytes: &mut Bytes, tokens: &[Token]) -> Option<()>
    requires { array_vec_len bytes.old + length tokens.now ≤ 255 }
    ensures items { option_map (λ _. bytes.new.items) result ≡ joined_to bytes.old.items (bytes_item tokens.now) }
    ensures len { IfSome result (λ _. array_vec_len bytes.new ≤ array_vec_len bytes.old + length tokens.now) }
{
    match tokens {
        [Token::Quote, text @ ..] => put_text(bytes, text),
        _ => put_number(bytes, tokens),
    }
}

/// Sets the list `found` to the bytes of a DB, by the tokens after the word DB.
pub(crate) fn put_bytes(found: &mut Bytes, tokens: &[Token]) -> Option<()>
    requires { length tokens.now ≤ 255 }
    ensures { option_map (λ _. found.new.items) result ≡ byte_items (parts tokens.now) }
{
    found.clear();
    let mut rest = tokens;
    loop {
        let (item, behind) = front(rest);
        put_item(found, item)?;
        match behind {
            None => return Some(()),
            Some(tail) => rest = tail,
        }
    }
}

/// Sets the list `found` to the words of a DW, by the tokens after the word DW.
pub(crate) fn put_words(found: &mut Words, tokens: &[Token]) -> Option<()>
    requires { length tokens.now ≤ 255 }
    ensures { option_map (λ _. found.new.items) result ≡ word_items (parts tokens.now) }
{
    found.clear();
    let mut rest = tokens;
    loop {
        let (item, behind) = front(rest);
        found.push(value(item)?);
        match behind {
            None => return Some(()),
            Some(tail) => rest = tail,
        }
    }
}
