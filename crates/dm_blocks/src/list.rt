//! Walks over the lists of headers: whether they are whole and clear, and searches for one header.
ghost use Rattle.std.specs.Prelude.{◌≡◌, ℕ, ◌+◌, ◌≤◌, ◌<◌, List, MatchBool, MatchOption, None, Some};
ghost use Rattle.dm_blocks.specs.declared.header.Header.{Header};
ghost use Rattle.dm_blocks.specs.Chain.{first_header, link_header, next, IsArena, IsArenaBehind, NoArena, NoArenaBehind};
ghost use Rattle.dm_blocks.specs.Chain;
ghost use Rattle.dm_blocks.specs.Reading.{EndsBefore, FindsBlock, IsFront, IsSpelledFrom};
ghost use Rattle.dm_blocks.specs.inner.Reading.{AreLeft, HasCaughtUp, IsCursor};
ghost use Rattle.dm_blocks.specs.inner.Telling.{HasToldAll};

use crate::header::{ListedHeader, header_at};
use crate::listing::{Headers, Met, walk, walk_from};
use crate::low::{LowPart, low_part};
use dm_space::Space;

/// The segment of the first list's first header.
pub const FIRST: u16 = 0x100;
/// The segment of the link block's header, from which the second list is spelled.
pub const LINK: u16 = 0x9FFF;

/// Reads the header at a segment from which memory spells a list: a step of a walk over a list that is known to be
/// whole.
#[inline(always)]
pub fn spelled_header(space: &Space, segment: u16) -> ListedHeader
    requires { (L : List Header) × IsSpelledFrom space.now.memory segment L }
    ensures there { result.header.segment ≡ segment }
    ensures fits { next result.header ≤ 0xFFFF }
    ensures front { (L : List Header) → IsSpelledFrom space.now.memory segment L → (K : List Header) ×
        IsFront space.now.memory L result K }
{
    let Some(listed) = header_at(space, segment) else {
        unreachable!()
    };
    listed
}

/// Goes on with a walk to its end, to tell whether its list is whole and clear. With true the walk is past the last
/// header.
fn tell_all(headers: &mut Headers<'_>) -> bool
    requires { (t : ℕ) × (headers.old.at ≡ Some t) × (t ≤ 0xFFFF) }
    ensures { MatchBool result (HasToldAll headers.old (Some headers.new)) (HasToldAll headers.old None) }
{
    'walk: loop {
        match headers.advance() {
            Met::Told(listed) => {
                if listed.last {
                    return true;
                }
            }
            Met::End => return true,
            Met::Destroyed(_) => return false,
        }
    }
}

/// Whether memory spells a clear list from the first header on.
pub fn is_arena(space: &Space) -> bool
    ensures { MatchBool result ((L : List Header) × IsArena space.now.memory first_header L) (NoArena space.now.memory
        first_header) }
{
    match low_part(space) {
        LowPart::Whole => true,
        LowPart::Destroyed => false,
        LowPart::UpTo(segment) => tell_all(&mut walk_from(space, segment)),
    }
}

/// Whether memory spells a second list, from the link block's header on, that shares no header with
/// the first, and the first list followed by it is clear. False where the lists are linked.
pub fn has_second(space: &Space) -> bool
    requires { (L : List Header) × IsArena space.now.memory first_header L }
    ensures { MatchBool result ((L U : List Header) × IsArena space.now.memory first_header L ×
        IsArenaBehind space.now.memory L link_header U) ((L : List Header) × IsArena space.now.memory first_header L ×
        NoArenaBehind space.now.memory L link_header) }
{
    let mut first = walk(space);
    if !tell_all(&mut first) {
        unreachable!()
    }
    let mut second = first.walk_second();
    tell_all(&mut second)
}

/// The header whose block begins at a segment, for functions 49h, 4Ah and 31h and for `is_linked`; None if the first
/// list has no such block. The segment is the block's own, not that of its header.
pub fn find(space: &Space, segment: u16) -> Option<ListedHeader>
    requires { (L : List Header) × IsSpelledFrom space.now.memory first_header L }
    ensures found { FindsBlock space.now.memory first_header segment result }
    ensures fits { MatchOption result (Unit {0}) (λ e. next e.header ≤ 0xFFFF) }
{
    let mut here = FIRST;
    'walk: loop {
        let listed = spelled_header(space, here);
        if here + 1 == segment {
            return Some(listed);
        }
        if listed.last {
            return None;
        }
        here = listed.header.next();
    }
}

/// Whether the first list has the link block's header, and so goes on in upper memory.
pub fn is_linked(space: &Space) -> bool
    requires { (L : List Header) × IsSpelledFrom space.now.memory first_header L }
    ensures { (L : List Header) → IsSpelledFrom space.now.memory first_header L → result ≡ Chain.is_linked L }
{
    find(space, LINK + 1).is_some()
}

/// The header of the first list whose block ends where the link block's header stands, which function 5803h changes;
/// None if no block ends there.
pub fn before_link(space: &Space) -> Option<ListedHeader>
    requires { (L : List Header) × IsSpelledFrom space.now.memory first_header L }
    ensures found { EndsBefore space.now.memory first_header link_header result }
    ensures fits { MatchOption result (Unit {0}) (λ e. next e.header ≤ 0xFFFF) }
{
    let mut here = FIRST;
    'walk: loop {
        let listed = spelled_header(space, here);
        if listed.header.next() == LINK {
            return Some(listed);
        }
        if listed.last {
            return None;
        }
        here = listed.header.next();
    }
}

/// Moves a cursor over the first list, for a walk over the second, to the first header at the segment or above, and
/// returns it; None if the first list has no such header, or if the cursor was None.
pub(crate) fn catch_up(space: &Space, cursor: Option<u16>, segment: u16) -> Option<u16>
    requires { (K : List Header) × AreLeft space.now.memory cursor K }
    ensures { (F : List Header) → IsCursor space.now.memory F cursor segment →
        IsCursor space.now.memory F result segment × HasCaughtUp result segment }
{
    let mut moved = cursor;
    'walk: loop {
        let Some(here) = moved else {
            return None;
        };
        if here >= segment {
            return Some(here);
        }
        let listed = spelled_header(space, here);
        moved = if listed.last {
            None
        } else {
            Some(listed.header.next())
        };
    }
}
