//! The first list as far as its headers are below segment C000h. There every header has bytes of RAM of its own, so
//! none has to be compared with the others.
ghost use Rattle.std.specs.Prelude.{◌≡◌, ◌≤◌, IfSome, List};
ghost use Rattle.std.specs.Bool.{OnTrue};
ghost use Rattle.dm_blocks.specs.declared.header.Header.{Header};
ghost use Rattle.dm_blocks.specs.Chain.{first_header, next, IsArena};
ghost use Rattle.dm_blocks.specs.Reading.{FindsBlock, IsFront, IsSpelledFrom};
ghost use Rattle.dm_blocks.specs.Listing.{LeadsOn, StandsAfter};
ghost use Rattle.dm_blocks.specs.inner.Low.{IsLowPart};

use crate::header::{ListedHeader, header_at};
use crate::list::FIRST;
use dm_space::Space;

/// The segment up to which each header has bytes of RAM of its own.
const END: u16 = 0xC000;

/// How far the first list goes below segment C000h.
#[derive(Clone, Copy)]
pub(crate) enum LowPart {
    /// It ends there, and is whole and clear.
    Whole,
    /// It is destroyed there.
    Destroyed,
    /// Its next header has to be at this segment, C000h or above.
    UpTo(u16),
}

/// Reads the headers of the first list below segment C000h.
pub(crate) fn low_part(space: &Space) -> LowPart
    ensures { IsLowPart space.now.memory result }
{
    let mut here = FIRST;
    'walk: loop {
        if here >= END {
            return LowPart::UpTo(here);
        }
        let Some(listed) = header_at(space, here) else {
            return LowPart::Destroyed;
        };
        if listed.last {
            return LowPart::Whole;
        }
        here = listed.header.next();
    }
}

/// Reads the header at a segment: a step of a walk over the first list that tells at its end whether the list is whole
/// and clear. None if no header can stand there, or if the segment is C000h or above.
#[inline(always)]
pub fn low_header(space: &Space, segment: u16) -> Option<ListedHeader>
    ensures there { IfSome result (λ e. e.header.segment ≡ segment) }
    ensures fits { IfSome result (λ e. next e.header ≤ 0xFFFF) }
    ensures front { IfSome result (λ e. (L : List Header) → IsSpelledFrom space.now.memory segment L →
        (K : List Header) × IsFront space.now.memory L e K) }
    ensures proceeds { IfSome result (λ e. LeadsOn space.now.memory segment e.last (next e.header)) }
{
    if segment >= END {
        return None;
    }
    header_at(space, segment)
}

/// Whether the first list goes on below segment C000h to its end after a header, and is whole and clear.
fn is_whole_after(space: &Space, listed: ListedHeader) -> bool
    requires fits { next listed.header ≤ 0xFFFF }
    requires stands { StandsAfter space.now.memory listed.last (next listed.header) }
    ensures { OnTrue result ((L : List Header) × IsArena space.now.memory first_header L) }
{
    let mut passed = listed;
    'walk: loop {
        if passed.last {
            return true;
        }
        let Some(after) = low_header(space, passed.header.next()) else {
            return false;
        };
        passed = after;
    }
}

/// What [`find`](crate::find) returns, if the first list lies below segment C000h and is whole and clear, else None: so
/// one walk does what [`is_arena`](crate::is_arena) and `find` do.
pub fn find_low(space: &Space, segment: u16) -> Option<Option<ListedHeader>>
    ensures whole { IfSome result (λ o. (L : List Header) × IsArena space.now.memory first_header L) }
    ensures found { IfSome result (FindsBlock space.now.memory first_header segment) }
    ensures fits { IfSome result (λ o. IfSome o (λ e. next e.header ≤ 0xFFFF)) }
{
    let mut here = FIRST;
    'walk: loop {
        let Some(listed) = low_header(space, here) else {
            return None;
        };
        if here + 1 == segment {
            if is_whole_after(space, listed) {
                return Some(Some(listed));
            }
            return None;
        }
        if listed.last {
            return Some(None);
        }
        here = listed.header.next();
    }
}
