//! A listing of the arena: its headers one by one.
ghost use Rattle.std.specs.Prelude.{◌≡◌, ◌≢◌, List, MatchBool, None, Some, false, true};
ghost use Rattle.dm_blocks.specs.declared.header.Header.{Header};
ghost use Rattle.dm_blocks.specs.Chain.{first_header, link_header};
ghost use Rattle.dm_blocks.specs.Listing.{MeetsNext};
ghost use Rattle.dm_blocks.specs.inner.Low.{IsUpTo};

use crate::frame::FrameHeaders;
use crate::header::{ListedHeader, header_at};
use crate::list::{FIRST, LINK, catch_up};
use dm_space::Space;
use std::marker::Model;

/// What a walk over the arena's headers meets.
#[derive(Clone, Copy, Debug, PartialEq, Eq)]
pub enum Met {
    /// The next header of the list.
    Told(ListedHeader),
    /// The end: there is no other header.
    End,
    /// The list is destroyed: no header can stand at the segment, where the next one has to be. There is no signature,
    /// or the segment after the block would be over FFFFh, or a write there would be lost, or the place is that of an
    /// earlier header of the list (for the second list, also of any header of the first).
    Destroyed(u16),
}

/// A walk over the headers of a list, from the first one on. It allocates no memory.
///
/// Contracts see the memory, whether the list is the second one, that of upper memory, which is
/// walked over after the first, and the segment where the next header has to be.
#[derive(Drop)]
pub struct Headers<'a> {
    space: &'a Space,
    second: bool,
    at: Option<u16>,
    /// For a walk over the second list: the segment of the first header of the first list that
    /// isn't below the headers so far; None at its end, and for a walk over the first list.
    beside: Option<u16>,
    in_frame: FrameHeaders,
}

impl<'a> Model for Headers<'a> {
    ghost use Rattle.dm_blocks.specs.Listing.{Walking};
    ghost use Rattle.dm_blocks.specs.inner.Occupied.{FitsWalk};

    ghost Value = { Walking };

    ghost view = { λ w. record { memory = w.space.now.memory; second = w.second; at = w.at } };

    ghost invariant = { λ w. FitsWalk (record {
      memory = w.space.now.memory;
      second = w.second;
      at = w.at;
    }) w.beside w.in_frame.occupied };
}

/// Starts a walk over the first list, at its first header.
pub fn walk(space: &Space) -> Headers<'_>
    ensures memory { result.memory ≡ space.now.memory }
    ensures second { result.second ≡ false }
    ensures at { result.at ≡ Some first_header }
{
    Headers {
        space,
        second: false,
        at: Some(FIRST),
        beside: None,
        in_frame: FrameHeaders::new(),
    }
}

/// Goes on with a walk over the first list at a segment, C000h or above, to which its headers below that lead.
pub(crate) fn walk_from(space: &Space, segment: u16) -> Headers<'_>
    requires { (P : List Header) × IsUpTo space.now.memory P segment }
    ensures memory { result.memory ≡ space.now.memory }
    ensures second { result.second ≡ false }
    ensures at { result.at ≡ Some segment }
{
    Headers {
        space,
        second: false,
        at: Some(segment),
        beside: None,
        in_frame: FrameHeaders::new(),
    }
}

/// Whether the cursor over the first list, `beside` of a walk, stands at a segment; false if it is None.
fn stands_at(cursor: Option<u16>, segment: u16) -> bool
    ensures { MatchBool result (cursor ≡ Some segment) (cursor ≢ Some segment) }
{
    match cursor {
        Some(here) => here == segment,
        None => false,
    }
}

impl<'a> Headers<'a> {
    /// Returns the next header, and moves the walk past it; or returns that the list has ended or is destroyed. Then
    /// the walk stays, and each further step returns the same. The space is only read.
    pub fn advance(&mut self) -> Met
        ensures memory { self.new.memory ≡ self.old.memory }
        ensures second { self.new.second ≡ self.old.second }
        ensures met { MeetsNext self.old result self.new.at }
    {
        let Some(segment) = self.at else {
            return Met::End;
        };
        let Some(listed) = header_at(self.space, segment) else {
            return Met::Destroyed(segment);
        };
        self.beside = catch_up(self.space, self.beside, segment);
        if stands_at(self.beside, segment) {
            return Met::Destroyed(segment);
        }
        if !self.in_frame.admit(self.space, segment) {
            return Met::Destroyed(segment);
        }
        self.at = if listed.last {
            None
        } else {
            Some(listed.header.next())
        };
        Met::Told(listed)
    }

    /// Starts the walk over the second list, once a walk over the first one has passed its last
    /// header. The paragraphs that headers of the first list occupy are kept.
    pub fn walk_second(self) -> Headers<'a>
        requires first { self.second ≡ false }
        requires over { self.at ≡ None }
        ensures memory { result.memory ≡ self.entry.memory }
        ensures second { result.second ≡ true }
        ensures at { result.at ≡ Some link_header }
    {
        Headers {
            second: true,
            at: Some(LINK),
            beside: Some(FIRST),
            ..self
        }
    }
}
