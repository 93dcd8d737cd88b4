//! Arena calls of a program with its prefix at 0103h and its environment at 0101h.

use crate::arena::memory::new_space;
use crate::checks::same;
use dm_arena::{
    ArenaRefusal, Fit, Strategy, allocate, free, free_all, plan_pair, resize, write_pair,
};
use dm_blocks::{Header, ListedHeader, Met, walk};
use dm_space::Space;
use std::process::Abort;
use std::test::Fail;

const OWNER: u16 = 0x103;

fn entry(last: bool, segment: u16, owner: u16, size: u16) -> ListedHeader {
    let header = Header {
        segment,
        owner,
        size,
    };
    ListedHeader { header, last }
}

fn set_header(space: &mut Space, entry: ListedHeader) {
    let segment = entry.header.segment;
    space.poke(segment, 0, if entry.last { b'Z' } else { b'M' });
    space.poke16(segment, 1, entry.header.owner);
    space.poke16(segment, 3, entry.header.size);
}

/// Compares the bytes of a header.
fn stands(rt: &impl Abort, space: &Space, entry: ListedHeader) {
    let Header {
        segment,
        owner,
        size,
    } = entry.header;
    let signature = if entry.last { b'Z' } else { b'M' };
    same(rt, "signature", space.peek(segment, 0), signature);
    same(rt, "owner", space.peek16(segment, 1), owner);
    same(rt, "size", space.peek16(segment, 3), size);
}

/// A program that owns all of memory.
fn loaded(space: &mut Space) {
    set_header(space, entry(false, 0x100, OWNER, 1));
    set_header(space, entry(true, 0x102, OWNER, 0x9EFD));
}

/// The same, after its block is resized to 1000h paragraphs.
fn shrunk(space: &mut Space) -> Result<(), ArenaRefusal> {
    loaded(space);
    resize(space, OWNER, 0x1000, false)
}

/// Definitions: dm_blocks Chain IsHeader word next signature signature_byte
#[test]
fn first_header_holds_all_of_memory(rt: HostRuntime) -> Result<(), Fail> {
    let space = new_space(rt.alloc())?;
    stands(&rt, &space, entry(true, 0x100, 0, 0x9EFF));
    Ok(())
}

/// Definitions: dm_blocks Chain IsChain Spells IsNonEmpty
/// Definitions: dm_arena Blocks IsFit fits is_candidate prefers prefers_in prefers_by largest
/// Definitions: dm_arena Allocation AllocateRefused
/// Definitions: dm_arena Owned Resizes BlockAndFreeAt resized absorb AllFree BeginsTaken
#[test]
fn resized_block_leaves_the_rest_free(rt: HostRuntime) -> Result<(), Fail> {
    let mut space = new_space(rt.alloc())?;
    loaded(&mut space);
    same(
        &rt,
        "allocate",
        allocate(
            &mut space,
            Strategy::everywhere(Fit::First),
            0xFFFF,
            OWNER,
            false,
        ),
        Err(ArenaRefusal::Short { largest: 0 }),
    );
    same(
        &rt,
        "resize",
        resize(&mut space, OWNER, 0x1000, false),
        Ok(()),
    );
    stands(&rt, &space, entry(true, 0x1103, 0, 0x8EFC));
    same(
        &rt,
        "allocate",
        allocate(
            &mut space,
            Strategy::everywhere(Fit::First),
            0xFFFF,
            OWNER,
            false,
        ),
        Err(ArenaRefusal::Short { largest: 0x8EFC }),
    );
    Ok(())
}

/// Definitions: dm_arena Owned Resizes BlockAndFreeAt resized absorb AllFree BeginsTaken ResizeRefused
#[test]
fn block_grows_back_over_the_rest(rt: HostRuntime) -> Result<(), Fail> {
    let mut space = new_space(rt.alloc())?;
    same(&rt, "shrunk", shrunk(&mut space), Ok(()));
    same(
        &rt,
        "resize",
        resize(&mut space, OWNER, 0x9EFE, false),
        Err(ArenaRefusal::Short { largest: 0x9EFD }),
    );
    stands(&rt, &space, entry(true, 0x1103, 0, 0x8EFC));
    same(
        &rt,
        "resize",
        resize(&mut space, OWNER, 0x9EFD, false),
        Ok(()),
    );
    stands(&rt, &space, entry(true, 0x102, OWNER, 0x9EFD));
    Ok(())
}

/// Definitions: dm_blocks Chain IsClear HasHeader; dm_arena Blocks cut_block cut_low cut_high taken_segment
/// Definitions: dm_arena Allocation Allocates Taking with_cut
#[test]
fn rest_of_a_block_may_be_empty(rt: HostRuntime) -> Result<(), Fail> {
    // paragraphs requested, the header that is then the last one
    let rows = [
        (0x8EFB, entry(true, 0x9FFF, 0, 0)),
        (0x8EFC, entry(true, 0x1103, OWNER, 0x8EFC)),
        (0, entry(true, 0x1104, 0, 0x8EFB)),
    ];
    for (n, last) in rows {
        let mut space = new_space(rt.alloc())?;
        same(&rt, "shrunk", shrunk(&mut space), Ok(()));
        same(
            &rt,
            "allocate",
            allocate(
                &mut space,
                Strategy::everywhere(Fit::First),
                n,
                OWNER,
                false,
            ),
            Ok(0x1104),
        );
        stands(&rt, &space, last);
    }
    Ok(())
}

/// Definitions: dm_blocks Chain Becomes DiffersInHeaders
/// Definitions: dm_arena Blocks IsFit fits is_candidate prefers prefers_in prefers_by largest
/// Definitions: dm_arena Blocks cut_block cut_low cut_high taken_segment
/// Definitions: dm_arena Allocation Allocates Taking with_cut
#[test]
fn strategies_take_other_blocks(rt: HostRuntime) -> Result<(), Fail> {
    let rows = [
        (Strategy::everywhere(Fit::First), 0x1104),
        (Strategy::everywhere(Fit::Best), 0x1117),
        (Strategy::everywhere(Fit::Last), 0x111A),
    ];
    for (strategy, segment) in rows {
        let mut space = new_space(rt.alloc())?;
        same(&rt, "shrunk", shrunk(&mut space), Ok(()));
        for (n, block) in [
            (0x10, 0x1104),
            (1, 0x1115),
            (8, 0x1117),
            (1, 0x1120),
            (0x8EDE, 0x1122),
        ] {
            same(
                &rt,
                "allocate",
                allocate(
                    &mut space,
                    Strategy::everywhere(Fit::First),
                    n,
                    OWNER,
                    false,
                ),
                Ok(block),
            );
        }
        same(&rt, "free", free(&mut space, 0x1104, false), Ok(()));
        same(&rt, "free", free(&mut space, 0x1117, false), Ok(()));
        same(
            &rt,
            "allocate",
            allocate(&mut space, strategy, 5, OWNER, false),
            Ok(segment),
        );
    }
    Ok(())
}

/// Definitions: dm_blocks Chain NoBlockAt; dm_arena Owned Frees BlockAt freed FreeRefused IsNoBlock is_link_block
#[test]
fn nothing_is_freed_inside_a_block(rt: HostRuntime) -> Result<(), Fail> {
    let mut space = new_space(rt.alloc())?;
    same(&rt, "shrunk", shrunk(&mut space), Ok(()));
    same(
        &rt,
        "allocate",
        allocate(
            &mut space,
            Strategy::everywhere(Fit::First),
            0x10,
            OWNER,
            false,
        ),
        Ok(0x1104),
    );
    space.poke(0x1104, 0, b'M');
    same(
        &rt,
        "free",
        free(&mut space, 0x1105, false),
        Err(ArenaRefusal::NoBlock),
    );
    same(
        &rt,
        "free",
        free(&mut space, 0, false),
        Err(ArenaRefusal::NoBlock),
    );
    Ok(())
}

/// Definitions: dm_blocks Chain IsArena NoArena first_header
/// Definitions: dm_blocks Listing MeetsNext IsMet IsMetFrom Follows Closes AreTold
/// Definitions: dm_arena Allocation AllocateRefused
/// Definitions: dm_arena Owned Frees BlockAt freed FreeRefused IsNoBlock is_link_block ResizeRefused Releases
/// Definitions: dm_arena Owned ReleasesOne ReleasesBoth ReleaseRefused released released_block
#[test]
fn broken_signature_destroys_the_arena(rt: HostRuntime) -> Result<(), Fail> {
    let mut space = new_space(rt.alloc())?;
    loaded(&mut space);
    space.poke(0x102, 0, 0);
    same(
        &rt,
        "allocate",
        allocate(
            &mut space,
            Strategy::everywhere(Fit::First),
            0,
            OWNER,
            false,
        ),
        Err(ArenaRefusal::Destroyed),
    );
    same(
        &rt,
        "free",
        free(&mut space, OWNER, false),
        Err(ArenaRefusal::Destroyed),
    );
    same(
        &rt,
        "resize",
        resize(&mut space, OWNER, 0, false),
        Err(ArenaRefusal::Destroyed),
    );
    same(
        &rt,
        "free_all",
        free_all(&mut space, OWNER, false),
        Err(ArenaRefusal::Destroyed),
    );
    same(&rt, "byte in memory", space.peek(0x102, 0), 0);
    let mut headers = walk(&space);
    same(
        &rt,
        "advance",
        headers.advance(),
        Met::Told(entry(false, 0x100, OWNER, 1)),
    );
    same(&rt, "advance", headers.advance(), Met::Destroyed(0x102));
    same(&rt, "advance", headers.advance(), Met::Destroyed(0x102));
    Ok(())
}

/// Definitions: dm_blocks Chain Becomes DiffersInHeaders
/// Definitions: dm_blocks Listing Walking Path Leads IsBehind start_of MeetsNext IsMet IsMetFrom Follows Closes AreTold
/// Definitions: dm_arena Owned Releases ReleasesOne ReleasesBoth ReleaseRefused released released_block
#[test]
fn ended_program_leaves_free_blocks(rt: HostRuntime) -> Result<(), Fail> {
    let mut space = new_space(rt.alloc())?;
    loaded(&mut space);
    same(&rt, "free_all", free_all(&mut space, OWNER, false), Ok(()));
    let mut headers = walk(&space);
    same(
        &rt,
        "advance",
        headers.advance(),
        Met::Told(entry(false, 0x100, 0, 1)),
    );
    same(
        &rt,
        "advance",
        headers.advance(),
        Met::Told(entry(true, 0x102, 0, 0x9EFD)),
    );
    same(&rt, "advance", headers.advance(), Met::End);
    same(&rt, "advance", headers.advance(), Met::End);
    same(
        &rt,
        "allocate",
        allocate(
            &mut space,
            Strategy::everywhere(Fit::Last),
            0x9EFF,
            7,
            false,
        ),
        Ok(0x101),
    );
    Ok(())
}

/// Plans two blocks that take all the rest, and writes them.
fn write_two(rt: &impl Abort, space: &mut Space) {
    let pair = plan_pair(
        space,
        Strategy::everywhere(Fit::First),
        1,
        0x20,
        0xFFFF,
        false,
    )
    .expect(rt, "there is room");
    same(rt, "environment", pair.environment_block(), 0x1104);
    same(rt, "program", pair.program_block(), 0x1106);
    same(rt, "size", pair.size(), 0x8EFA);
    write_pair(space, pair, false);
}

/// Definitions: dm_blocks Chain Becomes DiffersInHeaders
/// Definitions: dm_arena Pair IsPair Planned Pairing with_pair PairRefused IsPlannedOn Pairs Placed placed_of
#[test]
fn two_blocks_share_what_is_left(rt: HostRuntime) -> Result<(), Fail> {
    let mut space = new_space(rt.alloc())?;
    same(&rt, "shrunk", shrunk(&mut space), Ok(()));
    // environment, least, most
    for (environment, least, most) in [
        (1, 0x8EFB, 0xFFFF),
        (0xFFFF, 0, 0),
        (1, 0x1_0000, 0x2_0000),
    ] {
        let refusal = plan_pair(
            &space,
            Strategy::everywhere(Fit::First),
            environment,
            least,
            most,
            false,
        )
        .err();
        same(
            &rt,
            "refusal",
            refusal,
            Some(ArenaRefusal::Short { largest: 0x8EFC }),
        );
    }
    write_two(&rt, &mut space);
    stands(&rt, &space, entry(false, 0x1103, 0x1106, 1));
    stands(&rt, &space, entry(true, 0x1105, 0x1106, 0x8EFA));
    Ok(())
}
