//! A line of text, and how numbers are written on it: hexadecimal, with a digit in front and an h
//! at the end (Intel 8086 Family User's Manual, section 2.9, constants of ASM-86).

ghost use Rattle.std.specs.Prelude.{◌≡◌, ◌+◌, ◌<◌, ◌≤◌, ◌++◌, List, ℕ, [], length};
ghost use Rattle.dm_decode.specs.Pieces.{digit, byte_in_text, word_in_text};

use arrayvec::ArrayVec;
use std::marker::Model;

/// A line of at most 64 bytes of text, with no line end. Contracts see the list of its bytes.
#[derive(Drop)]
pub struct Line {
    text: ArrayVec<u8, 64>,
}

impl Model for Line {
    ghost Value = { List ℕ };

    ghost view = { λ l. l.text.items };
}

impl Line {
    /// An empty line.
    pub fn new() -> Line
        ensures { result ≡ [] }
    {
        Line {
            text: ArrayVec::new(),
        }
    }

    /// The bytes of the line.
    pub fn bytes(&self) -> &[u8]
        ensures value { result.now ≡ self.now }
        ensures fits { length result.now ≤ 64 }
    {
        self.text.as_slice()
    }

    /// Empties the line.
    pub(crate) fn clear(&mut self)
        ensures { self.new ≡ [] }
    {
        self.text.clear();
    }

    /// Appends text to the line.
    pub(crate) fn put(&mut self, text: &[u8])
        requires { length self.old + length text.now ≤ 64 }
        ensures items { self.new ≡ self.old ++ text.now }
        ensures len { length self.new ≡ length self.old + length text.now }
    {
        // There is room for it.
        let _ = self.text.try_extend_from_slice(text);
    }

    /// Appends a byte as a number: 0, two digits, h.
    pub(crate) fn put_byte(&mut self, n: u8)
        requires { length self.old + 4 ≤ 64 }
        ensures items { self.new ≡ self.old ++ byte_in_text n }
        ensures len { length self.new ≡ length self.old + 4 }
    {
        self.put(&byte_number(n));
    }

    /// Appends a word as a number: 0, four digits, h.
    #[tactic(auto, unfolding(crate::specs::Pieces::word_in_text))]
    pub(crate) fn put_word(&mut self, n: u16)
        requires { length self.old + 6 ≤ 64 }
        ensures items { self.new ≡ self.old ++ word_in_text n }
        ensures len { length self.new ≡ length self.old + 6 }
    {
        self.put(&[
            b'0',
            digit_of(n / 4096),
            digit_of(n / 256 % 16),
            digit_of(n / 16 % 16),
            digit_of(n % 16),
            b'h',
        ]);
    }
}

/// A byte as a number in text: 0, two hexadecimal digits, h.
#[tactic(auto, unfolding(crate::specs::Pieces::byte_in_text))]
pub fn byte_number(n: u8) -> [u8; 4]
    ensures { result ≡ byte_in_text n }
{
    let n = n as u16;
    [b'0', digit_of(n / 16), digit_of(n % 16), b'h']
}

/// The ASCII code of a hexadecimal digit, 0 to 9 or A to F, for a value below 16.
fn digit_of(n: u16) -> u8
    requires { n < 16 }
    ensures { result ≡ digit n }
{
    if n < 10 {
        b'0' + n as u8
    } else {
        b'A' - 10 + n as u8
    }
}
