//! Lists of blocks with adjacent free blocks joined, as 48h and 4Bh do: read header by header, or written back to
//! memory.
ghost use Rattle.std.specs.Prelude.{◌≡◌, ℕ, ◌+◌, ◌≤◌, List};
ghost use Rattle.dm_blocks.specs.declared.header.Header.{Header};
ghost use Rattle.dm_blocks.specs.Chain.{first_header, next, IsArena};
ghost use Rattle.dm_blocks.specs.Reading.{IsSpelledFrom};
ghost use Rattle.dm_arena.specs.inner.Walks.{IsJoinedFront, IsJoined};
ghost use Rattle.dm_arena.specs.inner.Survey.{IsJoinedBlock, IsJoinedTo};

use crate::writing::put_header;
use dm_blocks::{FIRST, ListedHeader, spelled_header};
use dm_space::Space;

/// Reads the header at a segment from which a list is spelled. If its block is free, it takes in the free blocks
/// right after it. With `upper`, upper memory belongs to the arena, and the link block counts as taken.
#[inline(always)]
pub(crate) fn joined_at(space: &Space, segment: u16, upper: bool) -> ListedHeader
    requires { (L : List Header) × IsSpelledFrom space.now.memory segment L }
    ensures there { result.header.segment ≡ segment }
    ensures fits { next result.header ≤ 0xFFFF }
    ensures front { (L : List Header) → IsSpelledFrom space.now.memory segment L → (K : List Header) ×
        IsJoinedFront upper space.now.memory L result K }
{
    let mut listed = spelled_header(space, segment);
    loop {
        if listed.last || !listed.header.is_free(upper) {
            return listed;
        }
        let after = spelled_header(space, listed.header.next());
        if !after.header.is_free(upper) {
            return listed;
        }
        listed.header.size += 1 + after.header.size;
        listed.last = after.last;
    }
}

/// A block of the joined list, and whether it was several free blocks.
#[derive(Clone, Copy)]
pub(crate) struct JoinedBlock {
    pub(crate) listed: ListedHeader,
    pub(crate) several: bool,
}

/// Does what [`joined_at`] does, and tells whether the block was several free blocks.
pub(crate) fn joined_block_at(space: &Space, segment: u16, upper: bool) -> JoinedBlock
    requires { (L : List Header) × IsSpelledFrom space.now.memory segment L }
    ensures there { result.listed.header.segment ≡ segment }
    ensures fits { next result.listed.header ≤ 0xFFFF }
    ensures front { (L : List Header) → IsSpelledFrom space.now.memory segment L → (K : List Header) ×
        IsJoinedBlock upper space.now.memory L result K }
{
    let mut listed = spelled_header(space, segment);
    let mut several = false;
    loop {
        if listed.last || !listed.header.is_free(upper) {
            return JoinedBlock { listed, several };
        }
        let following = spelled_header(space, listed.header.next());
        if !following.header.is_free(upper) {
            return JoinedBlock { listed, several };
        }
        listed.header.size += 1 + following.header.size;
        listed.last = following.last;
        several = true;
    }
}

/// Writes the first list with adjacent free blocks joined into one, from a segment on; before it there are none. Bytes
/// 0 to 4 of the headers of the joined list are all that changes; `upper` as for `joined_at`.
pub(crate) fn join_from(space: &mut Space, from: u16, upper: bool)
    requires arena { (L : List Header) × IsArena space.old.memory first_header L }
    requires joined { (L : List Header) → IsArena space.old.memory first_header L →
        IsJoinedTo upper space.old.memory L from }
    ensures memory { (L : List Header) → IsArena space.old.memory first_header L →
        IsJoined upper space.old.memory first_header L space.new.memory }
    ensures scratch { space.new.scratch ≡ space.old.scratch }
{
    let mut segment = from;
    'walk: loop {
        let listed = joined_at(space, segment, upper);
        put_header(space, listed);
        if listed.last {
            return;
        }
        segment = listed.header.next();
    }
}

/// Writes the first list with adjacent free blocks joined into one, as [`join_from`] does from its first header on.
pub(crate) fn join_all(space: &mut Space, upper: bool)
    requires { (L : List Header) × IsArena space.old.memory first_header L }
    ensures memory { (L : List Header) → IsArena space.old.memory first_header L →
        IsJoined upper space.old.memory first_header L space.new.memory }
    ensures scratch { space.new.scratch ≡ space.old.scratch }
{
    join_from(space, FIRST, upper);
}
