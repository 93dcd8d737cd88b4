//! Bytes and words in memory, by segment and offset.

ghost use Rattle.std.specs.Prelude.{◌≡◌};
ghost use Rattle.dm_touches.specs.Elements.{one_element, two_elements, three, nothing};

/// A byte in memory, by segment and offset.
#[derive(Clone, Copy, Debug, PartialEq, Eq)]
pub struct FarAddress {
    pub segment: u16,
    pub offset: u16,
}

/// A byte or a word in memory, at a segment and an offset. The high byte of a word is at the next offset, modulo
/// 65,536.
#[derive(Clone, Copy, Debug, PartialEq, Eq)]
pub enum Element {
    Byte(u16, u16),
    Word(u16, u16),
}

/// At most three elements, in the order in which an instruction touches them; each may be missing.
#[derive(Clone, Copy, Debug, PartialEq, Eq)]
pub struct Elements {
    pub first: Option<Element>,
    pub second: Option<Element>,
    pub third: Option<Element>,
}

/// What an instruction reads and writes.
#[derive(Clone, Copy, Debug, PartialEq, Eq)]
pub struct Touched {
    pub reads: Elements,
    pub writes: Elements,
}

impl Elements {
    /// No element.
    pub(crate) fn nothing() -> Elements
        ensures { result ≡ nothing }
    {
        Elements {
            first: None,
            second: None,
            third: None,
        }
    }

    /// One element, or none.
    pub(crate) fn one(first: Option<Element>) -> Elements
        ensures { result ≡ one_element first }
    {
        Elements {
            first,
            second: None,
            third: None,
        }
    }

    /// Two elements, each of which may be missing.
    pub(crate) fn two(first: Option<Element>, second: Option<Element>) -> Elements
        ensures { result ≡ two_elements first second }
    {
        Elements {
            first,
            second,
            third: None,
        }
    }

    /// Three elements, each of which may be missing.
    pub(crate) fn three(
        first: Option<Element>,
        second: Option<Element>,
        third: Option<Element>,
    ) -> Elements
        ensures { result ≡ three first second third }
    {
        Elements {
            first,
            second,
            third,
        }
    }
}
