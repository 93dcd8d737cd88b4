//! Whether a new header may stand beside those of a list: a write there is kept, and no other
//! header has the same place. Functions 48h and 4Bh make a new header in the joined list, 4Ah and 31h in the
//! list as it stands.
//!
//! Each address of conventional and upper memory RAM has a place of its own. So only a new header
//! in the EMS page frame has to be compared with the others. Pages are blocks of the pool, offsets
//! are in bytes.
ghost use Rattle.std.specs.Prelude.{◌≡◌, ◌≢◌, ◌≤◌, ◌*◌, ◌++◌, ◌⊎◌, List, MatchBool, option_to_list};
ghost use Rattle.dm_space.specs.declared.place.Place.TheVariants.{Page};
ghost use Rattle.dm_space.specs.Memory.{place};
ghost use Rattle.dm_blocks.specs.declared.header.Header.{Header};
ghost use Rattle.dm_arena.specs.Blocks.{join};
ghost use Rattle.dm_blocks.specs.Reading.{IsSpelledFrom};
ghost use Rattle.dm_blocks.specs.inner.Standing.{Occupies};
ghost use Rattle.dm_arena.specs.inner.Standing.{AreOutside, IsNew, MaySplit};

use crate::joined::joined_at;
use dm_blocks::{Header, spelled_header};
use dm_pool::Block;
use dm_space::{Place, Space};

/// Whether the byte at segment:0, the first of a header there, is the byte of a page at this offset.
fn is_on(space: &Space, segment: u16, block: Block, offset: usize) -> bool
    ensures { MatchBool result (place space.now.memory (16 * segment) ≡ Page block offset) (place space.now.memory
        (16 * segment) ≢ Page block offset) }
{
    let Place::Page(shown, at) = space.back(segment) else {
        return false;
    };
    if shown != block {
        return false;
    }
    at == offset
}

/// Whether a header, if there is one, stands at the byte of a page at this offset.
fn has_place(space: &Space, header: Option<Header>, block: Block, offset: usize) -> bool
    ensures { MatchBool result (Occupies space.now.memory (option_to_list header) (Page block offset)) (Occupies
        space.now.memory (option_to_list header) (Page block offset) → ⊥) }
{
    match header {
        None => false,
        Some(header) => is_on(space, header.segment, block, offset),
    }
}

/// Whether a header of the joined list from segment `first` on stands at the byte of a page at this
/// offset.
fn stands_joined(space: &Space, first: u16, block: Block, offset: usize, upper: bool) -> bool
    requires { (L : List Header) × IsSpelledFrom space.now.memory first L }
    ensures { (L : List Header) → IsSpelledFrom space.now.memory first L → MatchBool result (Occupies space.now.memory
        (join upper L) (Page block offset)) (Occupies space.now.memory (join upper L) (Page block offset) → ⊥) }
{
    let mut segment = first;
    'walk: loop {
        let listed = joined_at(space, segment, upper);
        if is_on(space, segment, block, offset) {
            return true;
        }
        if listed.last {
            return false;
        }
        segment = listed.header.next();
    }
}

/// Whether a header's segment that is at most `low` or at least `high` is at the byte of a page at this
/// offset; false for a segment between them.
fn is_on_outside(
    space: &Space,
    segment: u16,
    low: u16,
    high: u16,
    block: Block,
    offset: usize,
) -> bool
    ensures { MatchBool result (((segment ≤ low) ⊎ (high ≤ segment)) ×
        (place space.now.memory (16 * segment) ≡ Page block offset)) ((segment ≤ low) ⊎ (high ≤ segment) →
        place space.now.memory (16 * segment) ≢ Page block offset) }
{
    if segment <= low {
        return is_on(space, segment, block, offset);
    }
    if segment < high {
        return false;
    }
    is_on(space, segment, block, offset)
}

/// Whether a header of the list from segment `first` on, at a segment that is at most `low` or at
/// least `high`, stands at the byte of a page at this offset.
fn stands_outside(
    space: &Space,
    first: u16,
    low: u16,
    high: u16,
    block: Block,
    offset: usize,
) -> bool
    requires { (L : List Header) × IsSpelledFrom space.now.memory first L }
    ensures { (L M : List Header) → IsSpelledFrom space.now.memory first L → AreOutside L low high M →
        MatchBool result (Occupies space.now.memory M (Page block offset)) (Occupies space.now.memory M
        (Page block offset) → ⊥) }
{
    let mut segment = first;
    'walk: loop {
        let listed = spelled_header(space, segment);
        if is_on_outside(space, segment, low, high, block, offset) {
            return true;
        }
        if listed.last {
            return false;
        }
        segment = listed.header.next();
    }
}

/// Whether a header of the joined list, or the header `beside` if there is one, stands at the byte
/// of a page at this offset.
fn is_occupied(
    space: &Space,
    first: u16,
    beside: Option<Header>,
    block: Block,
    offset: usize,
    upper: bool,
) -> bool
    requires { (L : List Header) × IsSpelledFrom space.now.memory first L }
    ensures { (L : List Header) → IsSpelledFrom space.now.memory first L → MatchBool result (Occupies space.now.memory
        (option_to_list beside ++ join upper L) (Page block offset)) (Occupies space.now.memory (option_to_list beside
        ++ join upper L) (Page block offset) → ⊥) }
{
    if has_place(space, beside, block, offset) {
        return true;
    }
    stands_joined(space, first, block, offset, upper)
}

/// Whether the header `new`, if there is one, may stand beside the header `beside`, if there is
/// one, and the headers of the joined list from segment `first` on (48h and 4Bh).
pub(crate) fn may_split(
    space: &Space,
    first: u16,
    beside: Option<Header>,
    new: Option<Header>,
    upper: bool,
) -> bool
    requires { (L : List Header) × IsSpelledFrom space.now.memory first L }
    ensures { (L : List Header) → IsSpelledFrom space.now.memory first L → IsNew (option_to_list beside
        ++ join upper L) new → MatchBool result (MaySplit space.now.memory (option_to_list beside
        ++ join upper L) new) (MaySplit space.now.memory (option_to_list beside ++ join upper L) new → ⊥) }
{
    let Some(header) = new else {
        return true;
    };
    match space.back(header.segment) {
        Place::Low(_) => true,
        Place::Rom(_) | Place::Nothing => false,
        Place::Page(block, offset) => !is_occupied(space, first, beside, block, offset, upper),
    }
}

/// Whether the header `new`, if there is one, may stand beside the headers of the list from segment
/// `first` on whose segments are at most `low` or at least `high`; the headers between are those of the free blocks
/// that the resized block takes in (4Ah and 31h).
pub(crate) fn may_split_outside(
    space: &Space,
    first: u16,
    low: u16,
    high: u16,
    new: Option<Header>,
) -> bool
    requires { (L : List Header) × IsSpelledFrom space.now.memory first L }
    ensures { (L M : List Header) → IsSpelledFrom space.now.memory first L → AreOutside L low high M → IsNew M new →
        MatchBool result (MaySplit space.now.memory M new) (MaySplit space.now.memory M new → ⊥) }
{
    let Some(header) = new else {
        return true;
    };
    match space.back(header.segment) {
        Place::Low(_) => true,
        Place::Rom(_) | Place::Nothing => false,
        Place::Page(block, offset) => !stands_outside(space, first, low, high, block, offset),
    }
}
