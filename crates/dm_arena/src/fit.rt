//! Which free block an allocation (48h), or each of the two of 4Bh, takes.
ghost use Rattle.std.specs.Prelude.{◌≡◌, ◌++◌, List, None, max, option_to_list};
ghost use Rattle.dm_blocks.specs.declared.header.Header.{Header};
ghost use Rattle.dm_blocks.specs.Chain.{first_header};
ghost use Rattle.dm_blocks.specs.Reading.{IsSpelledFrom};
ghost use Rattle.dm_arena.specs.inner.Walks.{better, left_of, pick};
ghost use Rattle.dm_arena.specs.inner.Walks;
ghost use Rattle.dm_arena.specs.Blocks;
ghost use Rattle.dm_arena.specs.declared.fit.Area.TheVariants.{All};
ghost use Rattle.dm_arena.specs.Blocks.{join, largest};

use crate::joined::joined_at;
use dm_blocks::{FIRST, Header, LINK, is_linked};
use dm_space::Space;

/// Which of the free blocks that are large enough an allocation takes (functions 5800h and 5801h).
#[derive(Clone, Copy, Debug, PartialEq, Eq)]
pub struct Strategy {
    /// Which block of an area.
    pub fit: Fit,
    /// The blocks that are looked at.
    pub area: Area,
}

impl Strategy {
    /// The strategy with this fit that looks at all blocks alike.
    pub fn everywhere(fit: Fit) -> Strategy
        ensures { result ≡ record { fit = fit; area = All } }
    {
        Strategy {
            fit,
            area: Area::All,
        }
    }
}

/// The blocks that a strategy looks at where the list goes on in upper memory. In other lists it looks at all blocks.
#[derive(Clone, Copy, Debug, PartialEq, Eq)]
pub enum Area {
    /// All blocks alike.
    All,
    /// Those of upper memory alone, whose headers are above that of the link block.
    Upper,
    /// Those of upper memory, and the others where none of these fits.
    UpperFirst,
}

/// Which of the blocks that are looked at and are large enough is taken.
#[derive(Clone, Copy, Debug, PartialEq, Eq)]
pub enum Fit {
    /// The lowest one, and its low end.
    First,
    /// The smallest one, of several the lowest, and its low end.
    Best,
    /// The highest one, and its high end.
    Last,
}

/// What a search of the joined list has found so far.
#[derive(Clone, Copy)]
pub(crate) struct Choice {
    /// The block that the strategy takes; None if none fits.
    pub(crate) block: Option<Header>,
    /// The size in paragraphs of the largest free block that the strategy looks at, 0 if there is none.
    pub(crate) largest: u16,
}

/// The strategy that a call of 48h or 4Bh uses: the area counts only where upper memory belongs to the arena (`upper`)
/// and the list goes on there; else it looks at all blocks.
pub(crate) fn in_effect(space: &Space, strategy: Strategy, upper: bool) -> Strategy
    requires { (L : List Header) × IsSpelledFrom space.now.memory first_header L }
    ensures { (L : List Header) → IsSpelledFrom space.now.memory first_header L →
        result ≡ Blocks.in_effect upper L strategy }
{
    if upper && is_linked(space) {
        return strategy;
    }
    Strategy::everywhere(strategy.fit)
}

/// The strategy that 4Bh uses for its second block, once the header `new` that the first one makes, if there is one,
/// stands in the list too: it may be the link block's.
pub(crate) fn in_effect_beside(
    space: &Space,
    strategy: Strategy,
    new: Option<Header>,
    upper: bool,
) -> Strategy
    requires { (L : List Header) × IsSpelledFrom space.now.memory first_header L }
    ensures { (L : List Header) → IsSpelledFrom space.now.memory first_header L →
        result ≡ Blocks.in_effect upper (option_to_list new ++ L) strategy }
{
    let Some(header) = new else {
        return in_effect(space, strategy, upper);
    };
    if upper && header.segment == LINK {
        return strategy;
    }
    in_effect(space, strategy, upper)
}

/// Whether the block is one of upper memory: its header is above the link block's.
#[inline(always)]
fn is_upper(header: Header) -> bool
    ensures { result ≡ Blocks.is_upper header }
{
    LINK < header.segment
}

/// Whether the strategy looks at a block: it is free, and in the strategy's area.
#[inline(always)]
fn is_candidate(strategy: Strategy, header: Header, upper: bool) -> bool
    ensures { result ≡ Blocks.is_candidate upper strategy header }
{
    if !header.is_free(upper) {
        return false;
    }
    match strategy.area {
        Area::All | Area::UpperFirst => true,
        Area::Upper => is_upper(header),
    }
}

/// Whether the fit takes `header` rather than `old`, two blocks of one area.
#[inline(always)]
fn prefers_by(fit: Fit, header: Header, old: Header) -> bool
    ensures { result ≡ Blocks.prefers_by fit header old }
{
    match fit {
        Fit::First => header.segment <= old.segment,
        Fit::Best => {
            header.size < old.size || (header.size == old.size && header.segment <= old.segment)
        }
        Fit::Last => old.segment <= header.segment,
    }
}

/// Whether the strategy takes `header` rather than `old`, two blocks that are large enough.
#[inline(always)]
fn prefers(strategy: Strategy, header: Header, old: Header) -> bool
    ensures { result ≡ Blocks.prefers strategy header old }
{
    let preferred = prefers_by(strategy.fit, header, old);
    match strategy.area {
        Area::All | Area::Upper => preferred,
        Area::UpperFirst => {
            if is_upper(header) {
                !is_upper(old) || preferred
            } else {
                !is_upper(old) && preferred
            }
        }
    }
}

/// The block that the search takes once it has met one more block: that block if it fits n paragraphs and is
/// preferred to `best`, else `best`.
#[inline(always)]
fn better_of(
    strategy: Strategy,
    n: u16,
    best: Option<Header>,
    header: Header,
    upper: bool,
) -> Option<Header>
    ensures { result ≡ better upper strategy n best header }
{
    if !is_candidate(strategy, header, upper) || header.size < n {
        return best;
    }
    let Some(old) = best else {
        return Some(header);
    };
    if prefers(strategy, header, old) {
        Some(header)
    } else {
        best
    }
}

/// A block from which the first block of a pair is to be cut: the segment of its header, and its `rest`, which stays
/// free, None if nothing is left.
#[derive(Clone, Copy)]
pub(crate) struct Spoken {
    pub(crate) segment: u16,
    pub(crate) rest: Option<Header>,
}

/// The part of a block that is left to choose from: all of it; of the block of `spoken`, from which the first block
/// of a pair is cut, only the rest.
#[inline(always)]
fn left_part(spoken: Option<Spoken>, header: Header) -> Option<Header>
    ensures { result ≡ Walks.left_part spoken header }
{
    match spoken {
        Some(block) => {
            if block.segment == header.segment {
                block.rest
            } else {
                Some(header)
            }
        }
        None => Some(header),
    }
}

/// The choice once the search has met one more block, or the part of it that is left; None if nothing of it is left,
/// and then the choice stays.
#[inline(always)]
pub(crate) fn meet(
    strategy: Strategy,
    n: u16,
    choice: Choice,
    header: Option<Header>,
    upper: bool,
) -> Choice
    ensures block { result.block ≡ pick upper strategy n choice.block (option_to_list header) }
    ensures largest { result.largest ≡ max choice.largest (largest upper strategy (option_to_list header)) }
{
    let Some(header) = header else {
        return choice;
    };
    if !header.is_free(upper) {
        return choice;
    }
    let free = if is_candidate(strategy, header, upper) {
        header.size
    } else {
        0
    };
    Choice {
        block: better_of(strategy, n, choice.block, header, upper),
        largest: choice.largest.max(free),
    }
}

/// Searches the joined list for the free block that the strategy takes for n paragraphs, and for the size of the
/// largest. Of the block of `spoken`, from which the first block of a pair is cut, only the rest counts.
pub(crate) fn choose(
    space: &Space,
    strategy: Strategy,
    n: u16,
    spoken: Option<Spoken>,
    upper: bool,
) -> Choice
    requires { (L : List Header) × IsSpelledFrom space.now.memory first_header L }
    ensures block { (L : List Header) → IsSpelledFrom space.now.memory first_header L →
        result.block ≡ pick upper strategy n None (left_of spoken (join upper L)) }
    ensures largest { (L : List Header) → IsSpelledFrom space.now.memory first_header L →
        result.largest ≡ largest upper strategy (left_of spoken (join upper L)) }
{
    let mut choice = Choice {
        block: None,
        largest: 0,
    };
    let mut segment = FIRST;
    'walk: loop {
        let listed = joined_at(space, segment, upper);
        choice = meet(strategy, n, choice, left_part(spoken, listed.header), upper);
        if listed.last {
            return choice;
        }
        segment = listed.header.next();
    }
}
