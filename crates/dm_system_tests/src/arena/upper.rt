//! The arena with upper memory, worked out by hand: two lists that are linked or not, the strategies that
//! use upper memory, and endings in both lists.
//!
//! A program with its prefix at 0103h has all of conventional memory: its environment's header
//! is at 0100h, its own at 0102h. The link block's header is at 9FFFh, and after it at D000h
//! is that of the free block of upper memory.

use self::Act::{Allocates, Frees, FreesAll, Links, Pairs, Resizes, Stands, Tells, Writes};
use crate::arena::memory::new_space;
use crate::checks::same;
use dm_arena::{
    Area, ArenaRefusal, Fit, Strategy, allocate, free, free_all, link, linked, plan_pair, resize,
    write_pair,
};
use dm_pool::{Block, NewError};
use dm_space::Space;
use std::alloc::Global;
use std::process::Abort;
use std::test::Fail;

/// A call with its result, or a header.
#[derive(Clone, Copy, Debug, PartialEq, Eq)]
enum Act {
    /// Whether the lists are linked.
    Tells(Result<bool, ArenaRefusal>),
    Links(bool, Result<(), ArenaRefusal>),
    /// For the owner 0103h.
    Allocates(Strategy, u16, Result<u16, ArenaRefusal>),
    /// The sizes of the environment and of the program, and where both lie.
    Pairs(Strategy, u16, u32, Result<(u16, u16), ArenaRefusal>),
    Resizes(u16, u16, Result<(), ArenaRefusal>),
    Frees(u16, Result<(), ArenaRefusal>),
    FreesAll(u16, Result<(), ArenaRefusal>),
    /// The header at a segment has this signature, owner and size.
    Stands(u16, u8, u16, u16),
    /// A header with this signature, owner and size is written.
    Writes(u16, u8, u16, u16),
}

const OK: Result<(), ArenaRefusal> = Ok(());

const BROKEN: ArenaRefusal = ArenaRefusal::Destroyed;

const NONE: ArenaRefusal = ArenaRefusal::NoBlock;

fn short(largest: u16) -> ArenaRefusal {
    ArenaRefusal::Short { largest }
}

fn upper(fit: Fit) -> Strategy {
    Strategy {
        fit,
        area: Area::Upper,
    }
}

fn upper_first(fit: Fit) -> Strategy {
    Strategy {
        fit,
        area: Area::UpperFirst,
    }
}

fn write(space: &mut Space, segment: u16, signature: u8, owner: u16, size: u16) {
    space.poke(segment, 0, signature);
    space.poke16(segment, 1, owner);
    space.poke16(segment, 3, size);
}

/// Plans and writes two blocks. It returns where they are.
fn pair(
    space: &mut Space,
    strategy: Strategy,
    environment: u16,
    size: u32,
) -> Result<(u16, u16), ArenaRefusal> {
    let pair = plan_pair(space, strategy, environment, size, size, true)?;
    let placed = (pair.environment_block(), pair.program_block());
    write_pair(space, pair, true);
    Ok(placed)
}

/// Makes the call of an act. It returns the act with its result.
fn done(space: &mut Space, act: Act) -> Act {
    match act {
        Tells(_) => Tells(linked(space)),
        Links(on, _) => Links(on, link(space, on)),
        Allocates(strategy, n, _) => {
            Allocates(strategy, n, allocate(space, strategy, n, 0x103, true))
        }
        Pairs(strategy, n, size, _) => Pairs(strategy, n, size, pair(space, strategy, n, size)),
        Resizes(segment, n, _) => Resizes(segment, n, resize(space, segment, n, true)),
        Frees(segment, _) => Frees(segment, free(space, segment, true)),
        FreesAll(owner, _) => FreesAll(owner, free_all(space, owner, true)),
        Stands(segment, ..) => {
            let [owner, size] = [space.peek16(segment, 1), space.peek16(segment, 3)];
            Stands(segment, space.peek(segment, 0), owner, size)
        }
        Writes(segment, signature, owner, size) => {
            write(space, segment, signature, owner, size);
            act
        }
    }
}

/// Does the acts in turn, in a memory with the program's blocks and upper memory.
fn play(rt: &impl Abort, space: &mut Space, acts: &[Act]) {
    write(space, 0x100, b'M', 0x103, 1);
    write(space, 0x102, b'Z', 0x103, 0x9EFC);
    write(space, 0x9FFF, b'M', 8, 0x3000);
    write(space, 0xD000, b'Z', 0, 0xFFF);
    for act in acts {
        same(rt, "act", done(space, *act), *act);
    }
}

/// Definitions: dm_blocks Chain is_linked is_parted IsArenaBehind NoArenaBehind AreApart
/// Definitions: dm_arena Linking TellsLinked Links BecomesLinked BecomesUnlinked IsSo LinkRefused EndsAt BeginsAt
#[test]
fn upper_memory_is_linked_and_parted(rt: HostRuntime) -> Result<(), Fail> {
    let first = Strategy::everywhere(Fit::First);
    let mut space = new_space(rt.alloc())?;
    let acts = [
        Tells(Ok(false)),
        Allocates(first, 0x10, Err(short(0))),
        Links(false, OK),
        Links(true, OK),
        Stands(0x102, b'M', 0x103, 0x9EFC),
        Tells(Ok(true)),
        Links(true, OK),
        Allocates(first, 0x10, Ok(0xD001)),
        Stands(0xD000, b'M', 0x103, 0x10),
        Stands(0xD011, b'Z', 0, 0xFEE),
        // the link block is neither freed nor resized
        Frees(0xA000, Err(NONE)),
        Resizes(0xA000, 0x10, Err(NONE)),
        // unlinked, a block of upper memory is not in the list; an ending frees it
        Links(false, OK),
        Stands(0x102, b'Z', 0x103, 0x9EFC),
        Frees(0xD001, Err(NONE)),
        FreesAll(0x103, OK),
        Stands(0x100, b'M', 0, 1),
        Stands(0x102, b'Z', 0, 0x9EFC),
        Stands(0x9FFF, b'M', 8, 0x3000),
        Stands(0xD000, b'M', 0, 0x10),
    ];
    play(&rt, &mut space, &acts);
    Ok(())
}

/// Definitions: dm_arena Blocks in_effect is_in is_upper
#[test]
fn strategies_look_at_upper_memory(rt: HostRuntime) -> Result<(), Fail> {
    let [first, last] = [Fit::First, Fit::Last];
    let mut space = new_space(rt.alloc())?;
    let acts = [
        Links(true, OK),
        Allocates(upper(last), 0x10, Ok(0xDFF0)),
        Stands(0xD000, b'M', 0, 0xFEE),
        Stands(0xDFEF, b'Z', 0x103, 0x10),
        Frees(0xDFF0, OK),
        // with room below too
        Resizes(0x103, 0x1000, OK),
        Stands(0x1103, b'M', 0, 0x8EFB),
        Allocates(upper(first), 0x1000, Err(short(0xFFF))),
        Allocates(upper_first(first), 0xFFFF, Err(short(0x8EFB))),
        Allocates(upper_first(first), 0x1000, Ok(0x1104)),
        Allocates(upper_first(first), 1, Ok(0xD001)),
        Allocates(Strategy::everywhere(first), 1, Ok(0x2105)),
        Allocates(Strategy::everywhere(last), 1, Ok(0xDFFF)),
        // with room only below
        Allocates(upper(Fit::Best), 0xFFB, Ok(0xD003)),
        Allocates(upper(first), 0, Err(short(0))),
        Allocates(upper_first(last), 1, Ok(0x9FFE)),
    ];
    play(&rt, &mut space, &acts);
    Ok(())
}

/// Definitions: dm_arena Blocks in_effect is_in is_upper
#[test]
fn parted_lists_have_no_areas(rt: HostRuntime) -> Result<(), Fail> {
    let mut space = new_space(rt.alloc())?;
    let acts = [
        Resizes(0x103, 0x1000, OK),
        Allocates(upper(Fit::First), 0x10, Ok(0x1104)),
        Allocates(Strategy::everywhere(Fit::Last), 0x10, Ok(0x9FEF)),
        Allocates(upper(Fit::Last), 0x10, Ok(0x9FDE)),
        Allocates(upper_first(Fit::First), 0xFFFF, Err(short(0x8EC8))),
        Tells(Ok(false)),
    ];
    play(&rt, &mut space, &acts);
    Ok(())
}

/// Definitions: dm_arena Blocks in_effect is_in is_upper
#[test]
fn pairs_are_loaded_high(rt: HostRuntime) -> Result<(), Fail> {
    let first = Fit::First;
    let mut space = new_space(rt.alloc())?;
    let acts = [
        Links(true, OK),
        Resizes(0x103, 0x1000, OK),
        Pairs(upper(first), 1, 0x1000, Err(short(0xFFF))),
        Pairs(upper(first), 1, 0x20, Ok((0xD001, 0xD003))),
        // the environment high, the program low
        Pairs(upper_first(first), 2, 0x1000, Ok((0xD024, 0x1104))),
    ];
    play(&rt, &mut space, &acts);
    Ok(())
}

/// Definitions: dm_blocks Chain is_free is_link link_header; dm_arena Blocks join join_after merge
#[test]
fn link_block_is_never_joined(rt: HostRuntime) -> Result<(), Fail> {
    let first = Strategy::everywhere(Fit::First);
    let mut space = new_space(rt.alloc())?;
    let acts = [
        Links(true, OK),
        FreesAll(0x103, OK),
        FreesAll(8, OK),
        Stands(0x9FFF, b'M', 0, 0x3000),
        Allocates(first, 0xFFFF, Err(short(0x9EFE))),
        Resizes(0x101, 0xFFFF, Err(short(0x9EFE))),
        Allocates(first, 0x9EFE, Ok(0x101)),
        Allocates(first, 0x1000, Err(short(0xFFF))),
        Allocates(first, 0, Ok(0xD001)),
        Stands(0x9FFF, b'M', 0, 0x3000),
    ];
    play(&rt, &mut space, &acts);
    Ok(())
}

/// Definitions: dm_arena Owned Releases ReleasesOne ReleasesBoth ReleaseRefused released released_block
#[test]
fn endings_free_in_both_lists(rt: HostRuntime) -> Result<(), Fail> {
    for on in [false, true] {
        let signature = if on { b'M' } else { b'Z' };
        let mut space = new_space(rt.alloc())?;
        let acts = [
            Writes(0xD000, b'M', 0x103, 0x10),
            Writes(0xD011, b'Z', 9, 0xFEE),
            Links(on, OK),
            FreesAll(0x103, OK),
            Stands(0x100, b'M', 0, 1),
            Stands(0x102, signature, 0, 0x9EFC),
            Stands(0xD000, b'M', 0, 0x10),
            Stands(0xD011, b'Z', 9, 0xFEE),
            FreesAll(8, OK),
            Stands(0x9FFF, b'M', 0, 0x3000),
        ];
        play(&rt, &mut space, &acts);
    }
    Ok(())
}

/// Definitions: dm_arena Linking TellsLinked Links BecomesLinked BecomesUnlinked IsSo LinkRefused EndsAt BeginsAt
#[test]
fn broken_upper_memory_destroys_what_it_is_linked_with(rt: HostRuntime) -> Result<(), Fail> {
    let first = Strategy::everywhere(Fit::First);
    let mut space = new_space(rt.alloc())?;
    let acts = [
        Links(true, OK),
        Writes(0xD000, b'z', 0, 0xFFF),
        Tells(Err(BROKEN)),
        Links(false, Err(BROKEN)),
        Links(true, Err(BROKEN)),
        Allocates(first, 0, Err(BROKEN)),
        Frees(0xA000, Err(BROKEN)),
        FreesAll(0x103, Err(BROKEN)),
        Stands(0x100, b'M', 0x103, 1),
    ];
    play(&rt, &mut space, &acts);
    // unlinked, only an ending needs it, and linking
    let mut space = new_space(rt.alloc())?;
    let acts = [
        Writes(0xD000, b'z', 0, 0xFFF),
        Tells(Ok(false)),
        Links(true, Err(BROKEN)),
        Stands(0x102, b'Z', 0x103, 0x9EFC),
        FreesAll(0x103, Err(BROKEN)),
        Stands(0x100, b'M', 0x103, 1),
        Resizes(0x103, 0x1000, OK),
        // the last block does not end at the link block's header
        Writes(0xD000, b'Z', 0, 0xFFF),
        Writes(0x1103, b'Z', 0, 0x8EF0),
        Links(true, Err(BROKEN)),
        Stands(0x1103, b'Z', 0, 0x8EF0),
    ];
    play(&rt, &mut space, &acts);
    Ok(())
}

/// Definitions: dm_blocks Chain is_linked is_parted IsArenaBehind NoArenaBehind AreApart
/// Definitions: dm_arena Owned Releases ReleasesOne ReleasesBoth ReleaseRefused released released_block
#[test]
fn lists_have_no_header_together(rt: HostRuntime) -> Result<(), Fail> {
    let mut space = new_space(rt.alloc())?;
    let acts = [
        // the first list goes past 9FFFh, to the header at D000h
        Writes(0x102, b'M', 0x103, 0xCEFD),
        Tells(Ok(false)),
        FreesAll(0x103, Err(BROKEN)),
        Stands(0x100, b'M', 0x103, 1),
        Links(true, Err(BROKEN)),
        // and to a header of its own
        Writes(0x102, b'M', 0x103, 0xCF0D),
        Writes(0xD010, b'Z', 0x103, 0x10),
        FreesAll(0x103, OK),
        Stands(0xD010, b'Z', 0, 0x10),
        Stands(0xD000, b'Z', 0, 0xFFF),
    ];
    play(&rt, &mut space, &acts);
    Ok(())
}

/// Maps a page in a window.
fn show(space: &mut Space, window: usize, page: Option<Block>) {
    let Some(page) = page else {
        return;
    };
    if space.has(page) {
        if space.bytes(page).len() == 0x4000 {
            space.set_window(window % 4, Some(page));
        }
    }
}

/// A memory in which three pages are in windows 0 to 2, or the first of them in windows 0 and 1.
fn framed(alloc: Global, aliased: bool) -> Result<Space, NewError> {
    let mut space = new_space(alloc)?;
    let [one, two, three] = [space.take(16), space.take(16), space.take(16)];
    show(&mut space, 0, one);
    show(&mut space, 1, if aliased { one } else { two });
    show(&mut space, 2, three);
    Ok(space)
}

/// Definitions: dm_blocks Chain is_linked is_parted IsArenaBehind NoArenaBehind AreApart
/// Definitions: dm_arena Linking TellsLinked Links BecomesLinked BecomesUnlinked IsSo LinkRefused EndsAt BeginsAt
#[test]
fn second_list_needs_places_of_its_own(rt: HostRuntime) -> Result<(), Fail> {
    for aliased in [false, true] {
        let answer = if aliased { Err(BROKEN) } else { OK };
        let mut space = framed(rt.alloc(), aliased)?;
        let acts = [
            // headers at E000h and E400h, which are one if both windows show one page
            Writes(0x9FFF, b'M', 8, 0x4000),
            Writes(0xE000, b'M', 9, 0x3FF),
            Writes(0xE400, b'M', 9, 0x3FF),
            Writes(0xE800, b'Z', 0, 0x3FF),
            FreesAll(9, answer),
            Links(true, answer),
            Tells(Ok(!aliased)),
        ];
        play(&rt, &mut space, &acts);
    }
    Ok(())
}
