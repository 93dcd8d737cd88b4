//! One walk over the list for function 48h: which free block is taken, how large the largest is, and from where on
//! adjacent free blocks are still to be joined.
ghost use Rattle.std.specs.Prelude.{◌≡◌, ◌≤◌, IfSome, List, MatchOption, if◌then◌else◌};
ghost use Rattle.dm_blocks.specs.declared.header.Header.{Header};
ghost use Rattle.dm_blocks.specs.Chain.{first_header, next, IsArena, NoArena};
ghost use Rattle.dm_blocks.specs.Reading.{IsFront, IsSpelledFrom};
ghost use Rattle.dm_blocks.specs.Listing.{LeadsOn};
ghost use Rattle.dm_arena.specs.Blocks.{in_effect};
ghost use Rattle.dm_arena.specs.inner.Survey.{IsJoinedBlock, IsSurvey};

use crate::fit::{Choice, Strategy, in_effect, meet};
use crate::joined::{JoinedBlock, joined_block_at};
use dm_blocks::{FIRST, ListedHeader, is_arena, low_header, spelled_header};
use dm_space::Space;

/// What a walk over the joined list has found.
#[derive(Clone, Copy)]
pub(crate) struct Survey {
    /// The block that the strategy takes, and the size of the largest.
    pub(crate) choice: Choice,
    /// The segment of a header up to which no free block is followed by another one.
    pub(crate) from: u16,
}

/// A free block with the free blocks after it taken in, in a list of which nothing is known. None where a header that
/// is read can't be one, or stands at segment C000h or above.
fn low_joined_after(space: &Space, first: ListedHeader, upper: bool) -> Option<JoinedBlock>
    requires fits { next first.header ≤ 0xFFFF }
    requires front { (L : List Header) → IsSpelledFrom space.now.memory first.header.segment L → (K : List Header) ×
        IsFront space.now.memory L first K }
    requires proceeds { LeadsOn space.now.memory first.header.segment first.last (next first.header) }
    ensures there { IfSome result (λ r. r.listed.header.segment ≡ first.header.segment) }
    ensures fits { IfSome result (λ r. next r.listed.header ≤ 0xFFFF) }
    ensures front { IfSome result (λ r. (L : List Header) → IsSpelledFrom space.now.memory first.header.segment L →
        (K : List Header) × IsJoinedBlock upper space.now.memory L r K) }
    ensures proceeds { IfSome result (λ r. LeadsOn space.now.memory first.header.segment r.listed.last
        (next r.listed.header)) }
{
    let mut listed = first;
    let mut several = false;
    loop {
        if listed.last || !listed.header.is_free(upper) {
            return Some(JoinedBlock { listed, several });
        }
        let Some(after) = low_header(space, listed.header.next()) else {
            return None;
        };
        if !after.header.is_free(upper) {
            return Some(JoinedBlock { listed, several });
        }
        listed.header.size += 1 + after.header.size;
        listed.last = after.last;
        several = true;
    }
}

/// The segment up to which no free blocks are to be joined: `from` if some before it are, else `segment`.
#[inline(always)]
fn next_from(several: bool, from: u16, segment: u16) -> u16
    ensures { result ≡ (if several then from else segment) }
{
    if several { from } else { segment }
}

/// Searches the joined list for the free block that the strategy takes for n paragraphs, and for the size of the
/// largest.
pub(crate) fn survey_all(space: &Space, strategy: Strategy, n: u16, upper: bool) -> Survey
    requires { (L : List Header) × IsSpelledFrom space.now.memory first_header L }
    ensures { (L : List Header) → IsSpelledFrom space.now.memory first_header L →
        IsSurvey upper space.now.memory L strategy n result }
{
    let mut choice = Choice {
        block: None,
        largest: 0,
    };
    let mut from = FIRST;
    let mut several = false;
    let mut segment = FIRST;
    'walk: loop {
        let listed = spelled_header(space, segment);
        if !listed.header.is_free(upper) {
            choice = meet(strategy, n, choice, Some(listed.header), upper);
            if listed.last {
                return Survey { choice, from };
            }
            segment = listed.header.next();
            from = next_from(several, from, segment);
            continue 'walk;
        }
        let joined = joined_block_at(space, segment, upper);
        choice = meet(strategy, n, choice, Some(joined.listed.header), upper);
        if joined.listed.last {
            return Survey { choice, from };
        }
        segment = joined.listed.header.next();
        several = several || joined.several;
        from = next_from(several, from, segment);
    }
}

/// Does what [`survey_all`] does for a list of which nothing is known, and tells that it is whole and clear: so one
/// walk serves instead of two. None where it isn't, or doesn't lie below segment C000h.
pub(crate) fn survey_low(space: &Space, strategy: Strategy, n: u16, upper: bool) -> Option<Survey>
    ensures whole { IfSome result (λ s. (L : List Header) × IsArena space.now.memory first_header L) }
    ensures survey { IfSome result (λ s. (L : List Header) → IsSpelledFrom space.now.memory first_header L →
        IsSurvey upper space.now.memory L strategy n s) }
{
    let mut choice = Choice {
        block: None,
        largest: 0,
    };
    let mut from = FIRST;
    let mut several = false;
    let mut segment = FIRST;
    'walk: loop {
        let Some(listed) = low_header(space, segment) else {
            return None;
        };
        if !listed.header.is_free(upper) {
            choice = meet(strategy, n, choice, Some(listed.header), upper);
            if listed.last {
                return Some(Survey { choice, from });
            }
            segment = listed.header.next();
            from = next_from(several, from, segment);
            continue 'walk;
        }
        let Some(joined) = low_joined_after(space, listed, upper) else {
            return None;
        };
        choice = meet(strategy, n, choice, Some(joined.listed.header), upper);
        if joined.listed.last {
            return Some(Survey { choice, from });
        }
        segment = joined.listed.header.next();
        several = several || joined.several;
        from = next_from(several, from, segment);
    }
}

/// Does what [`survey_all`] does with the strategy that is in effect, after one walk more only where the list goes on
/// at segment C000h or above, or upper memory belongs to the arena. None where memory spells no clear list.
pub(crate) fn survey_arena(space: &Space, strategy: Strategy, n: u16, upper: bool) -> Option<Survey>
    ensures { MatchOption result (NoArena space.now.memory first_header) (λ s. ((L : List Header) ×
        IsArena space.now.memory first_header L) × ((L : List Header) → IsSpelledFrom space.now.memory first_header L →
        IsSurvey upper space.now.memory L (in_effect upper L strategy) n s)) }
{
    if !upper {
        let everywhere = Strategy::everywhere(strategy.fit);
        if let Some(found) = survey_low(space, everywhere, n, false) {
            return Some(found);
        }
    }
    if !is_arena(space) {
        return None;
    }
    let searched = in_effect(space, strategy, upper);
    Some(survey_all(space, searched, n, upper))
}
