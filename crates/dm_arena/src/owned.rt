//! Blocks that are owned already: freed (49h), resized (4Ah, and 31h for the block of a program that stays resident),
//! and all of an owner freed at the end of a program.
ghost use Rattle.std.specs.Prelude.{◌≡◌, ◌≤◌, List, MatchOption, MatchResult};
ghost use Rattle.dm_blocks.specs.declared.header.Header.{Header};
ghost use Rattle.dm_blocks.specs.Chain.{first_header, next, Becomes, IsArena};
ghost use Rattle.dm_arena.specs.Owned.{released, released_block, BeginsTaken, Frees, Releases, Resizes};
ghost use Rattle.dm_blocks.specs.Reading.{IsSpelledFrom};
ghost use Rattle.dm_arena.specs.inner.Walks.{FindsOther, IsGrowable, IsGrown};
ghost use Rattle.dm_arena.specs.inner.Survey.{IsNowhere, IsOwnedAt};

use crate::cut::{Cut, cut_of, write_cut};
use crate::fit::Fit;
use crate::refusal::ArenaRefusal;
use crate::standing::may_split_outside;
use dm_blocks::{
    FIRST, Header, LINK, ListedHeader, find, find_low, has_second, is_arena, is_linked,
    spelled_header,
};
use dm_space::Space;

/// The header of the first list whose block begins at a segment; None if no block begins there, or if the link block
/// does (functions 49h and 4Ah refuse that).
fn find_block(space: &Space, segment: u16, upper: bool) -> Option<ListedHeader>
    requires { (L : List Header) × IsSpelledFrom space.now.memory first_header L }
    ensures found { FindsOther upper space.now.memory first_header segment result }
    ensures fits { MatchOption result (Unit {0}) (λ e. next e.header ≤ 0xFFFF) }
{
    if upper && segment == LINK + 1 {
        return None;
    }
    find(space, segment)
}

/// The header of the first list whose block begins at a segment, as functions 49h and 4Ah look for it. `Destroyed`
/// where memory spells no clear list, else `NoBlock` where no block of the list begins at the segment, or the link
/// block does.
fn find_owned(space: &Space, segment: u16, upper: bool) -> Result<ListedHeader, ArenaRefusal>
    ensures { MatchResult result (λ e. IsOwnedAt upper space.now.memory segment e) (λ e. IsNowhere upper
        space.now.memory segment e) }
{
    if !upper {
        if let Some(found) = find_low(space, segment) {
            return match found {
                Some(listed) => Ok(listed),
                None => Err(ArenaRefusal::NoBlock),
            };
        }
    }
    if !is_arena(space) {
        return Err(ArenaRefusal::Destroyed);
    }
    match find_block(space, segment, upper) {
        Some(listed) => Ok(listed),
        None => Err(ArenaRefusal::NoBlock),
    }
}

/// Frees the block that begins at a segment (MS-DOS Programmer's Reference, function 49h).
///
/// Its owner becomes 0; nothing is joined, and a free block stays free. Bytes 0 to 4 of its header
/// are all that changes. `upper` says whether upper memory belongs to the arena.
///
/// # Errors
///
/// `Destroyed` where memory spells no clear list, else `NoBlock` where no block of the list begins
/// at the segment, or the link block does. A call that fails changes no byte.
pub fn free(space: &mut Space, segment: u16, upper: bool) -> Result<(), ArenaRefusal>
    ensures memory { Frees upper space.old.memory segment result space.new.memory }
    ensures scratch { space.new.scratch ≡ space.old.scratch }
{
    let listed = find_owned(space, segment, upper)?;
    let cut = Cut {
        first: Header {
            owner: 0,
            ..listed.header
        },
        second: None,
    };
    write_cut(space, cut, listed.last);
    Ok(())
}

/// The header with the free blocks right after its block taken in, as function 4Ah does before it cuts the block.
fn grow(space: &Space, listed: ListedHeader, upper: bool) -> ListedHeader
    requires fits { next listed.header ≤ 0xFFFF }
    requires growable { (K : List Header) × IsGrowable space.now.memory listed K }
    ensures fits { next result.header ≤ 0xFFFF }
    ensures grown { (K : List Header) → IsGrowable space.now.memory listed K → (R : List Header) × (Q : List Header) ×
        IsGrown upper space.now.memory listed K result R Q × BeginsTaken upper Q }
{
    let mut grown = listed;
    'walk: loop {
        if grown.last {
            return grown;
        }
        let after = spelled_header(space, grown.header.next());
        if !after.header.is_free(upper) {
            return grown;
        }
        grown.header.size += 1 + after.header.size;
        grown.last = after.last;
    }
}

/// Resizes the block that begins at a segment to n paragraphs, which may be 0 (MS-DOS Programmer's Reference, functions
/// 4Ah and 31h).
///
/// The block first takes in the free blocks right after it, then it is cut to n as by first fit: the low end keeps its
/// owner, what is left is free. Bytes 0 to 4 of the block's header and of the free part's are all that changes. `upper`
/// says whether upper memory belongs to the arena.
///
/// # Errors
///
/// `Destroyed` where memory spells no clear list; else `NoBlock` where no block of the list begins at the segment, or
/// the link block does; else `Short` where n is over the size of the block with the free blocks after it, with that
/// size; else `Destroyed` where the new list would not be clear. A call that fails changes no byte.
pub fn resize(space: &mut Space, segment: u16, n: u16, upper: bool) -> Result<(), ArenaRefusal>
    ensures memory { Resizes upper space.old.memory segment n result space.new.memory }
    ensures scratch { space.new.scratch ≡ space.old.scratch }
{
    let block = find_owned(space, segment, upper)?;
    let grown = grow(space, block, upper);
    if n > grown.header.size {
        return Err(ArenaRefusal::Short {
            largest: grown.header.size,
        });
    }
    let cut = cut_of(Fit::First, n, grown.header.owner, grown.header);
    let end = grown.header.next();
    if !may_split_outside(space, FIRST, block.header.segment, end, cut.second) {
        return Err(ArenaRefusal::Destroyed);
    }
    write_cut(space, cut, grown.last);
    Ok(())
}

/// The header with owner 0 if its owner is the given one; else as it is.
fn released_of(header: Header, owner: u16) -> Header
    ensures { result ≡ released_block owner header }
{
    Header {
        owner: if header.owner == owner {
            0
        } else {
            header.owner
        },
        ..header
    }
}

/// Frees each block of an owner in the list from a segment on, at the end of a program. Bytes 0 to 4 of the list's
/// headers are all that changes.
fn release(space: &mut Space, first: u16, owner: u16)
    requires { (L : List Header) × IsArena space.old.memory first L }
    ensures memory { (L : List Header) → IsArena space.old.memory first L → Becomes space.old.memory first (released
        owner L) space.new.memory }
    ensures scratch { space.new.scratch ≡ space.old.scratch }
{
    let mut here = first;
    'walk: loop {
        let listed = spelled_header(space, here);
        let header = released_of(listed.header, owner);
        let cut = Cut {
            first: header,
            second: None,
        };
        write_cut(space, cut, listed.last);
        if listed.last {
            return;
        }
        here = listed.header.next();
    }
}

/// Frees each block of an owner, as at the end of a program. Nothing is joined.
///
/// `upper` says whether upper memory belongs to the arena. If it does, and the first list isn't linked with the second,
/// the owner's blocks in the second are freed too. Bytes 0 to 4 of the headers of the lists are all that changes.
///
/// # Errors
///
/// `Destroyed` where memory spells no clear first list, or where, with `upper`, it isn't linked and memory spells no
/// second list, or the first followed by the second isn't clear; then no byte changes.
pub fn free_all(space: &mut Space, owner: u16, upper: bool) -> Result<(), ArenaRefusal>
    ensures memory { Releases upper space.old.memory owner result space.new.memory }
    ensures scratch { space.new.scratch ≡ space.old.scratch }
{
    if !is_arena(space) {
        return Err(ArenaRefusal::Destroyed);
    }
    if !upper || is_linked(space) {
        release(space, FIRST, owner);
        return Ok(());
    }
    if !has_second(space) {
        return Err(ArenaRefusal::Destroyed);
    }
    release(space, FIRST, owner);
    release(space, LINK, owner);
    Ok(())
}
