//! Lists of blocks before and after one call of the arena, worked by hand.
//!
//! A list is given as the owner and the size of each block. Its first header is at 0100h, each
//! next one after the block before it, and the last one is `Z`.

use self::Call::{Allocate, Free, FreeAll, Pair, Resize};
use crate::arena::memory::new_space;
use crate::checks::same;
use dm_arena::{
    ArenaRefusal, Fit, Strategy, allocate, free, free_all, plan_pair, resize, write_pair,
};
use dm_pool::NewError;
use dm_space::Space;
use std::alloc::Global;
use std::process::Abort;
use std::test::Fail;

/// Writes the five bytes of each header of a list.
pub(crate) fn spell(space: &mut Space, blocks: &[(u16, u16)]) {
    let mut segment = 0x100u16;
    for (index, block) in blocks.iter().enumerate() {
        let is_last = index.saturating_add(1) == blocks.len();
        space.poke(segment, 0, if is_last { b'Z' } else { b'M' });
        space.poke16(segment, 1, block.0);
        space.poke16(segment, 3, block.1);
        segment = segment.wrapping_add(block.1).wrapping_add(1);
    }
}

/// A memory with a list, and EEh around its headers.
fn spelled(alloc: Global, blocks: &[(u16, u16)]) -> Result<Space, NewError> {
    let mut space = new_space(alloc)?;
    for offset in 0..0x800 {
        space.poke(0x100, offset, 0xEE);
    }
    spell(&mut space, blocks);
    Ok(space)
}

/// Compares the headers of a list.
pub(crate) fn spells(rt: &impl Abort, call: Call, space: &Space, blocks: &[(u16, u16)]) {
    let mut segment = 0x100u16;
    for (index, block) in blocks.iter().enumerate() {
        let is_last = index.saturating_add(1) == blocks.len();
        let signature = if is_last { b'Z' } else { b'M' };
        let owned = (space.peek(segment, 0), space.peek16(segment, 1));
        let size = space.peek16(segment, 3);
        same(
            rt,
            "signature, owner",
            (call, owned),
            (call, (signature, block.0)),
        );
        same(rt, "size", (call, size), (call, block.1));
        segment = segment.wrapping_add(block.1).wrapping_add(1);
    }
}

/// Compares the bytes from 0100h:0000 on with those of a memory in which only the new list was
/// written: the bytes around headers stay, and so do those of former headers.
fn is_memory(rt: &impl Abort, call: Call, space: &Space, wanted: &Space) {
    for offset in 0..0x800 {
        let found = (call, offset, space.peek(0x100, offset));
        same(
            rt,
            "byte",
            found,
            (call, offset, wanted.peek(0x100, offset)),
        );
    }
}

/// A call of the arena.
#[derive(Clone, Copy, Debug, PartialEq, Eq)]
pub(crate) enum Call {
    Allocate(Strategy, u16),
    Free(u16),
    Resize(u16, u16),
    FreeAll(u16),
    /// The environment's size, then the minimum and the maximum for the program.
    Pair(Strategy, u16, u32, u32),
}

/// Plans and writes two blocks. It returns where they are, and the second one's size.
fn pair(
    space: &mut Space,
    strategy: Strategy,
    environment: u16,
    least: u32,
    most: u32,
) -> Result<(u16, u16, u16), ArenaRefusal> {
    let pair = plan_pair(space, strategy, environment, least, most, false)?;
    let placed = (pair.environment_block(), pair.program_block(), pair.size());
    write_pair(space, pair, false);
    Ok(placed)
}

/// Makes a call for the owner 7. It returns the segment of an allocated block; for two blocks, where
/// they are and the second one's size; otherwise zeros.
pub(crate) fn answer(space: &mut Space, call: Call) -> Result<(u16, u16, u16), ArenaRefusal> {
    match call {
        Allocate(strategy, n) => Ok((allocate(space, strategy, n, 7, false)?, 0, 0)),
        Free(segment) => free(space, segment, false).map(|()| (0, 0, 0)),
        Resize(segment, n) => resize(space, segment, n, false).map(|()| (0, 0, 0)),
        FreeAll(owner) => free_all(space, owner, false).map(|()| (0, 0, 0)),
        Pair(strategy, n, least, most) => pair(space, strategy, n, least, most),
    }
}

/// Makes a call, and compares its result and the list after it.
fn leaves(
    rt: &impl Abort,
    alloc: Global,
    before: &[(u16, u16)],
    call: Call,
    wanted: Result<(u16, u16, u16), ArenaRefusal>,
    after: &[(u16, u16)],
) -> Result<(), NewError> {
    let mut space = spelled(alloc, before)?;
    let found = answer(&mut space, call);
    same(rt, "answer", (call, found), (call, wanted));
    spells(rt, call, &space, after);
    let mut left = spelled(alloc, before)?;
    spell(&mut left, after);
    is_memory(rt, call, &space, &left);
    Ok(())
}

type Row<'a> = (&'a [(u16, u16)], Call, &'a [(u16, u16)]);

/// Definitions: dm_blocks Chain Becomes DiffersInHeaders
/// Definitions: dm_arena Owned Frees BlockAt freed FreeRefused IsNoBlock is_link_block Resizes BlockAndFreeAt resized
/// Definitions: dm_arena Owned absorb AllFree BeginsTaken
/// Definitions: dm_arena Owned Releases ReleasesOne ReleasesBoth ReleaseRefused released released_block
#[test]
fn blocks_are_resized_and_freed(rt: HostRuntime) -> Result<(), Fail> {
    let rows: [Row; 15] = [
        // shrunk before a free block, before several, and before the last one
        (
            &[(7, 8), (0, 3), (7, 1)],
            Resize(0x101, 4),
            &[(7, 4), (0, 7), (7, 1)],
        ),
        (
            &[(7, 8), (0, 3), (0, 2), (7, 1)],
            Resize(0x101, 4),
            &[(7, 4), (0, 10), (7, 1)],
        ),
        (&[(7, 8), (0, 3)], Resize(0x101, 11), &[(7, 11), (0, 0)]),
        // shrunk with no block after it, to nothing, and unchanged
        (
            &[(7, 3), (9, 1)],
            Resize(0x101, 1),
            &[(7, 1), (0, 1), (9, 1)],
        ),
        (
            &[(7, 3), (9, 1)],
            Resize(0x101, 0),
            &[(7, 0), (0, 2), (9, 1)],
        ),
        (
            &[(7, 3), (0, 2), (9, 1)],
            Resize(0x101, 3),
            &[(7, 3), (0, 2), (9, 1)],
        ),
        // grown over all of the free blocks after it
        (
            &[(9, 1), (0, 3), (0, 2), (7, 1)],
            Resize(0x101, 8),
            &[(9, 8), (7, 1)],
        ),
        // a free block: shrunk, grown over a part of the next one, and over all
        (
            &[(0, 8), (7, 1)],
            Resize(0x101, 3),
            &[(0, 3), (0, 4), (7, 1)],
        ),
        (
            &[(0, 2), (0, 3), (7, 1)],
            Resize(0x101, 4),
            &[(0, 4), (0, 1), (7, 1)],
        ),
        (
            &[(0, 2), (0, 3), (7, 1)],
            Resize(0x101, 6),
            &[(0, 6), (7, 1)],
        ),
        // freed between free blocks, which are not joined; a free block stays free
        (
            &[(0, 1), (7, 2), (0, 3)],
            Free(0x103),
            &[(0, 1), (0, 2), (0, 3)],
        ),
        (
            &[(7, 1), (0, 2), (0, 3)],
            Free(0x103),
            &[(7, 1), (0, 2), (0, 3)],
        ),
        (&[(9, 1), (7, 2)], Free(0x101), &[(0, 1), (7, 2)]),
        // all blocks of an owner
        (
            &[(7, 1), (9, 2), (7, 3), (0, 1)],
            FreeAll(7),
            &[(0, 1), (9, 2), (0, 3), (0, 1)],
        ),
        (&[(7, 1), (9, 2)], FreeAll(8), &[(7, 1), (9, 2)]),
    ];
    for (before, call, after) in rows {
        leaves(&rt, rt.alloc(), before, call, Ok((0, 0, 0)), after)?;
    }
    Ok(())
}

/// Definitions: dm_blocks Chain Becomes DiffersInHeaders
/// Definitions: dm_arena Blocks join join_after merge IsFit fits is_candidate prefers prefers_in prefers_by largest
/// Definitions: dm_arena Blocks cut_block cut_low cut_high taken_segment
/// Definitions: dm_arena Allocation Allocates Taking with_cut
#[test]
fn strategies_choose_and_cut(rt: HostRuntime) -> Result<(), Fail> {
    let [first, best, last] = [
        Strategy::everywhere(Fit::First),
        Strategy::everywhere(Fit::Best),
        Strategy::everywhere(Fit::Last),
    ];
    let three = [(0, 2), (9, 1), (0, 5), (9, 1), (0, 9)];
    let rows: [(&[(u16, u16)], Strategy, u16, u16, &[(u16, u16)]); 18] = [
        (
            &three,
            first,
            3,
            0x106,
            &[(0, 2), (9, 1), (7, 3), (0, 1), (9, 1), (0, 9)],
        ),
        (
            &three,
            last,
            3,
            0x114,
            &[(0, 2), (9, 1), (0, 5), (9, 1), (0, 5), (7, 3)],
        ),
        (
            &three,
            best,
            3,
            0x106,
            &[(0, 2), (9, 1), (7, 3), (0, 1), (9, 1), (0, 9)],
        ),
        (
            &three,
            best,
            9,
            0x10E,
            &[(0, 2), (9, 1), (0, 5), (9, 1), (7, 9)],
        ),
        // best fit: the smaller one is the higher; of two of the same size the lower
        (
            &[(0, 5), (9, 1), (0, 4), (9, 1)],
            best,
            3,
            0x109,
            &[(0, 5), (9, 1), (7, 3), (0, 0), (9, 1)],
        ),
        (
            &[(0, 5), (9, 1), (0, 5), (9, 1)],
            best,
            3,
            0x101,
            &[(7, 3), (0, 1), (9, 1), (0, 5), (9, 1)],
        ),
        (
            &[(0, 5), (9, 1), (0, 5)],
            best,
            5,
            0x101,
            &[(7, 5), (9, 1), (0, 5)],
        ),
        (
            &[(0, 3), (9, 1), (0, 3)],
            last,
            3,
            0x107,
            &[(0, 3), (9, 1), (7, 3)],
        ),
        // adjacent free blocks are joined first, wherever they are
        (
            &[(0, 2), (0, 3), (9, 1), (0, 1), (0, 1)],
            first,
            6,
            0x101,
            &[(7, 6), (9, 1), (0, 3)],
        ),
        (
            &[(0, 2), (0, 3), (9, 1), (0, 5), (9, 1)],
            best,
            4,
            0x10A,
            &[(0, 6), (9, 1), (7, 4), (0, 0), (9, 1)],
        ),
        (
            &[(0, 1), (0, 1), (0, 1), (9, 1)],
            last,
            1,
            0x105,
            &[(0, 3), (7, 1), (9, 1)],
        ),
        // 0 paragraphs
        (
            &[(0, 2), (9, 1)],
            first,
            0,
            0x101,
            &[(7, 0), (0, 1), (9, 1)],
        ),
        (&[(0, 2), (9, 1)], last, 0, 0x103, &[(0, 1), (7, 0), (9, 1)]),
        (
            &[(9, 1), (0, 0), (9, 2)],
            first,
            0,
            0x103,
            &[(9, 1), (7, 0), (9, 2)],
        ),
        // the last block ends at FFFFh, the last header is at 9FFFh or A000h
        (&[(0, 0xFEFE)], first, 1, 0x101, &[(7, 1), (0, 0xFEFC)]),
        (
            &[(0, 0xFEFE)],
            first,
            0x9EFE,
            0x101,
            &[(7, 0x9EFE), (0, 0x5FFF)],
        ),
        (
            &[(0, 0xFEFE)],
            first,
            0x9EFF,
            0x101,
            &[(7, 0x9EFF), (0, 0x5FFE)],
        ),
        (&[(0, 0xFEFE)], last, 0xFEFE, 0x101, &[(7, 0xFEFE)]),
    ];
    for (before, strategy, n, segment, after) in rows {
        let call = Allocate(strategy, n);
        leaves(&rt, rt.alloc(), before, call, Ok((segment, 0, 0)), after)?;
    }
    Ok(())
}

/// Definitions: dm_arena Pair IsPair Planned Pairing with_pair PairRefused IsPlannedOn Pairs Placed placed_of
#[test]
fn two_blocks_are_chosen_in_turn(rt: HostRuntime) -> Result<(), Fail> {
    let [first, best, last] = [
        Strategy::everywhere(Fit::First),
        Strategy::everywhere(Fit::Best),
        Strategy::everywhere(Fit::Last),
    ];
    let holes = [(0, 3), (9, 1), (0, 0x40), (9, 1)];
    let ties = [(0, 1), (9, 1), (0, 5), (9, 1), (0, 5)];
    let whole = [(0, 0xFEFE)];
    // strategy, the environment's size, the minimum and the maximum for the program; where they are
    let rows: [(&[(u16, u16)], Call, (u16, u16, u16), &[(u16, u16)]); 14] = [
        (
            &holes,
            Pair(first, 1, 0, 0xFFFF),
            (0x101, 0x107, 0x40),
            &[(0x107, 1), (0, 1), (9, 1), (0x107, 0x40), (9, 1)],
        ),
        // the maximum may be over FFFFh paragraphs
        (
            &holes,
            Pair(first, 1, 0, 0x1_0005),
            (0x101, 0x107, 0x40),
            &[(0x107, 1), (0, 1), (9, 1), (0x107, 0x40), (9, 1)],
        ),
        (
            &holes,
            Pair(first, 1, 0x40, 0x2_0000),
            (0x101, 0x107, 0x40),
            &[(0x107, 1), (0, 1), (9, 1), (0x107, 0x40), (9, 1)],
        ),
        (
            &holes,
            Pair(first, 3, 0x40, 0x40),
            (0x101, 0x107, 0x40),
            &[(0x107, 3), (9, 1), (0x107, 0x40), (9, 1)],
        ),
        // the program takes what is left of the environment's block
        (
            &holes,
            Pair(first, 1, 0, 1),
            (0x101, 0x103, 1),
            &[(0x103, 1), (0x103, 1), (9, 1), (0, 0x40), (9, 1)],
        ),
        (
            &holes,
            Pair(best, 1, 0, 1),
            (0x101, 0x103, 1),
            &[(0x103, 1), (0x103, 1), (9, 1), (0, 0x40), (9, 1)],
        ),
        (
            &holes,
            Pair(last, 1, 0, 2),
            (0x146, 0x143, 2),
            &[(0, 3), (9, 1), (0, 0x3B), (0x143, 2), (0x143, 1), (9, 1)],
        ),
        (
            &holes,
            Pair(last, 1, 0, 0xFFFF),
            (0x146, 0x107, 0x3E),
            &[(0, 3), (9, 1), (0x107, 0x3E), (0x107, 1), (9, 1)],
        ),
        (
            &holes,
            Pair(best, 4, 0, 2),
            (0x107, 0x101, 2),
            &[(0x101, 2), (0, 0), (9, 1), (0x101, 4), (0, 0x3B), (9, 1)],
        ),
        (
            &ties,
            Pair(best, 1, 0, 3),
            (0x101, 0x105, 3),
            &[(0x105, 1), (9, 1), (0x105, 3), (0, 1), (9, 1), (0, 5)],
        ),
        // adjacent free blocks are joined first
        (
            &[(0, 1), (0, 1), (9, 1), (0, 2), (0, 2)],
            Pair(first, 1, 5, 0xFFFF),
            (0x101, 0x107, 5),
            &[(0x107, 1), (0, 1), (9, 1), (0x107, 5)],
        ),
        // only an empty block is left
        (
            &[(0, 2), (9, 1)],
            Pair(first, 1, 0, 5),
            (0x101, 0x103, 0),
            &[(0x103, 1), (0x103, 0), (9, 1)],
        ),
        // the last header is at 9FFFh, the last block ends at FFFFh
        (
            &whole,
            Pair(first, 1, 0, 0x9EFC),
            (0x101, 0x103, 0x9EFC),
            &[(0x103, 1), (0x103, 0x9EFC), (0, 0x5FFF)],
        ),
        (
            &whole,
            Pair(first, 1, 0, 0xFFFF),
            (0x101, 0x103, 0xFEFC),
            &[(0x103, 1), (0x103, 0xFEFC)],
        ),
    ];
    for (before, call, placed, after) in rows {
        leaves(&rt, rt.alloc(), before, call, Ok(placed), after)?;
    }
    Ok(())
}

/// Definitions: dm_blocks Chain IsClear HasHeader NoBlockAt; dm_arena Blocks join join_after merge
/// Definitions: dm_arena Allocation AllocateRefused
/// Definitions: dm_arena Owned Frees BlockAt freed FreeRefused IsNoBlock is_link_block ResizeRefused
/// Definitions: dm_arena Pair IsPair Planned Pairing with_pair PairRefused IsPlannedOn
#[test]
fn refused_calls_leave_the_list(rt: HostRuntime) -> Result<(), Fail> {
    let [first, best, last] = [
        Strategy::everywhere(Fit::First),
        Strategy::everywhere(Fit::Best),
        Strategy::everywhere(Fit::Last),
    ];
    let none = ArenaRefusal::NoBlock;
    let broken = ArenaRefusal::Destroyed;
    let short = |largest| ArenaRefusal::Short { largest };
    let adjacent = [(0, 2), (0, 3), (9, 1), (0, 1), (0, 1)];
    let rows: [(&[(u16, u16)], Call, ArenaRefusal); 22] = [
        // the largest block after free blocks are joined is reported
        (&adjacent, Allocate(first, 7), short(6)),
        (&adjacent, Allocate(best, 7), short(6)),
        (&adjacent, Allocate(last, 0xFFFF), short(6)),
        (&adjacent, Pair(first, 7, 0, 1), short(6)),
        (&adjacent, Pair(first, 6, 4, 9), short(6)),
        (&adjacent, Pair(first, 1, 0x1_0000, 0x2_0000), short(6)),
        (&[(7, 1)], Allocate(first, 0), short(0)),
        (&[(0, 1), (9, 1)], Pair(first, 1, 0, 5), short(1)),
        // a block grows over the free ones after it, and over no other
        (
            &[(7, 1), (0, 3), (0, 2), (9, 1)],
            Resize(0x101, 9),
            short(8),
        ),
        (
            &[(0, 4), (7, 2), (0, 1), (9, 1)],
            Resize(0x106, 5),
            short(4),
        ),
        (&[(7, 1), (9, 1), (0, 9)], Resize(0x101, 2), short(1)),
        // no block begins there
        (&[(7, 4)], Free(0x102), none),
        (&[(7, 4)], Free(0x100), none),
        (&[(7, 4)], Free(0), none),
        (&[(7, 4)], Free(0xFFFF), none),
        (&[(7, 4)], Resize(0xFFFF, 0), none),
        (&[(7, 4)], Resize(0, 0xFFFF), none),
        // the new header would be at C000h, where there is no memory, or in ROM
        (&[(0, 0xFEFE)], Allocate(first, 0xBEFF), broken),
        (&[(0, 0xFEFE)], Allocate(last, 1), broken),
        (&[(7, 0xFEFE)], Resize(0x101, 0xBEFF), broken),
        (&[(0, 0xFEFE)], Pair(first, 1, 0, 0xBEFD), broken),
        (&[(0, 0xFEFE)], Pair(first, 0xBEFF, 0, 1), broken),
    ];
    for (before, call, refusal) in rows {
        leaves(&rt, rt.alloc(), before, call, Err(refusal), before)?;
    }
    Ok(())
}

/// Definitions: dm_blocks Chain IsHeader word next signature IsChain Spells IsNonEmpty IsClear HasHeader IsArena
/// Definitions: dm_blocks Chain NoArena first_header
#[test]
fn bytes_that_spell_no_list(rt: HostRuntime) -> Result<(), Fail> {
    // the list, and the byte at 0100h:offset that breaks it
    let rows: [(&[(u16, u16)], u16, u8); 7] = [
        // lower-case letters, and the last signature missing, so that the next header is not one
        (&[(7, 2), (0, 3)], 0x00, b'm'),
        (&[(7, 2), (0, 3)], 0x30, b'z'),
        (&[(7, 2)], 0x00, b'z'),
        (&[(7, 2), (0, 3)], 0x30, b'M'),
        (&[(7, 2), (0, 3)], 0x30, 0),
        // a last block that ends past FFFFh, and a header at C000h
        (&[(0, 0xFEFF)], 0x00, b'Z'),
        (&[(7, 0xBEFF), (0, 1)], 0x00, b'M'),
    ];
    let calls = [
        Allocate(Strategy::everywhere(Fit::First), 0),
        Allocate(Strategy::everywhere(Fit::Last), 1),
        Free(0x101),
        Resize(0x101, 1),
        FreeAll(7),
        Pair(Strategy::everywhere(Fit::Best), 1, 0, 0),
        // these would fail in a whole list too: no block begins there, no block is so large
        Free(0x105),
        Resize(0x105, 1),
        Resize(0x101, 0xFFFF),
        Allocate(Strategy::everywhere(Fit::First), 0xFFFF),
        Pair(Strategy::everywhere(Fit::First), 0xFFFF, 0, 0),
    ];
    for (blocks, offset, byte) in rows {
        let mut space = spelled(rt.alloc(), blocks)?;
        let mut wanted = spelled(rt.alloc(), blocks)?;
        space.poke(0x100, offset, byte);
        wanted.poke(0x100, offset, byte);
        for call in calls {
            let found = answer(&mut space, call);
            let refused = Err(ArenaRefusal::Destroyed);
            same(
                &rt,
                "answer",
                (blocks, call, found),
                (blocks, call, refused),
            );
            is_memory(&rt, call, &space, &wanted);
        }
    }
    Ok(())
}
