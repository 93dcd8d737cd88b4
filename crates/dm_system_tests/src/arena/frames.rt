//! Block lists through the frame, upper memory, ROM or addresses without memory, worked out by hand.
//!
//! Windows are given as the pages that they show, 1 to 4, or 0 for none. A list is given as the owner
//! and the size of each block from 0100h on: with a first block of h - 101h paragraphs the second
//! header is at h.

use crate::arena::blocks::Call::{self, Allocate, Free, FreeAll, Pair, Resize};
use crate::arena::blocks::{answer, spell, spells};
use crate::arena::memory::new_space;
use crate::checks::same;
use dm_arena::{ArenaRefusal, Fit, Strategy, allocate};
use dm_blocks::{Header, ListedHeader, Met, walk};
use dm_pool::{Block, NewError};
use dm_space::Space;
use std::alloc::Global;
use std::process::Abort;
use std::test::Fail;

/// The page with a number.
fn page_of(pages: &[Option<Block>; 4], number: usize) -> Option<Block> {
    match number {
        1 => pages[0],
        2 => pages[1],
        3 => pages[2],
        4 => pages[3],
        _ => None,
    }
}

/// Maps a page in a window.
fn show(space: &mut Space, window: usize, page: Option<Block>) {
    let Some(page) = page else {
        return;
    };
    if space.has(page) {
        if space.bytes(page).len() == 0x4000 {
            space.set_window(window % 4, Some(page));
        }
    }
}

/// A memory with a list, whose windows show those pages.
fn framed(
    alloc: Global,
    a20: bool,
    windows: [usize; 4],
    blocks: &[(u16, u16)],
) -> Result<Space, NewError> {
    let mut space = new_space(alloc)?;
    space.set_a20(a20);
    let mut pages = [None; 4];
    for page in pages.iter_mut() {
        *page = space.take(16);
    }
    for (window, number) in windows.iter().enumerate() {
        show(&mut space, window, page_of(&pages, *number));
    }
    spell(&mut space, blocks);
    Ok(space)
}

/// Compares bytes 0 to 5 of a paragraph.
fn is_paragraph(rt: &impl Abort, call: Call, segment: u16, space: &Space, wanted: &Space) {
    for offset in 0..6 {
        let found = (call, segment, offset, space.peek(segment, offset));
        let byte = wanted.peek(segment, offset);
        same(rt, "byte", found, (call, segment, offset, byte));
    }
}

/// Compares bytes 0 to 5 of each paragraph of the first 2 KiB from the list's start on,
/// and of the frame.
fn is_memory(rt: &impl Abort, call: Call, space: &Space, wanted: &Space) {
    for segment in 0x100..0x180 {
        is_paragraph(rt, call, segment, space, wanted);
    }
    for segment in 0xE000..0xF000 {
        is_paragraph(rt, call, segment, space, wanted);
    }
}

type Windows = [usize; 4];

/// Makes a call with A20 off and on, and compares its result and the list after it.
fn leaves(
    rt: &impl Abort,
    alloc: Global,
    windows: Windows,
    before: &[(u16, u16)],
    call: Call,
    wanted: Result<(u16, u16, u16), ArenaRefusal>,
    after: &[(u16, u16)],
) -> Result<(), NewError> {
    for a20 in [false, true] {
        let mut space = framed(alloc, a20, windows, before)?;
        let found = answer(&mut space, call);
        same(
            rt,
            "answer",
            (windows, call, found),
            (windows, call, wanted),
        );
        let mut left = framed(alloc, a20, windows, before)?;
        spell(&mut left, after);
        is_memory(rt, call, &space, &left);
    }
    Ok(())
}

/// The same for a call that succeeds, with the list after it.
fn serves(
    rt: &impl Abort,
    alloc: Global,
    windows: Windows,
    before: &[(u16, u16)],
    call: Call,
    segments: (u16, u16, u16),
    after: &[(u16, u16)],
) -> Result<(), NewError> {
    leaves(rt, alloc, windows, before, call, Ok(segments), after)?;
    let mut space = framed(alloc, false, windows, before)?;
    let _segments = answer(&mut space, call);
    spells(rt, call, &space, after);
    Ok(())
}

const NONE: Windows = [0; 4];
/// Windows 0 and 1 show one page.
const ONE: Windows = [1, 1, 0, 0];
/// They show two pages.
const TWO: Windows = [1, 2, 0, 0];

type Row<'a> = (
    Windows,
    &'a [(u16, u16)],
    Call,
    (u16, u16, u16),
    &'a [(u16, u16)],
);

#[test]
fn headers_may_stand_in_the_frame(rt: HostRuntime) -> Result<(), Fail> {
    let [first, last] = [
        Strategy::everywhere(Fit::First),
        Strategy::everywhere(Fit::Last),
    ];
    // E000h and E410h, different offsets in one page
    let apart = [(7, 0xDEFF), (7, 0x40F), (0, 0xBEF)];
    let owners = [(7, 0xDEFF), (7, 0x3FF), (9, 0x3FF), (7, 0x7FE)];
    let rows: [Row; 11] = [
        (
            [1, 0, 0, 0],
            &[(0x103, 1), (0x103, 0xDEFD), (0, 0xFFF)],
            Allocate(first, 0x10),
            (0xE001, 0, 0),
            &[(0x103, 1), (0x103, 0xDEFD), (7, 0x10), (0, 0xFEE)],
        ),
        (
            TWO,
            &[(0x103, 1), (0x103, 0xDEFD), (0, 0xFFF)],
            Allocate(first, 0x3FF),
            (0xE001, 0, 0),
            &[(0x103, 1), (0x103, 0xDEFD), (7, 0x3FF), (0, 0xBFF)],
        ),
        (
            TWO,
            &[(7, 0xDEFF), (0, 0xFFF)],
            Allocate(last, 0xBFF),
            (0xE401, 0, 0),
            &[(7, 0xDEFF), (0, 0x3FF), (7, 0xBFF)],
        ),
        (
            TWO,
            &[(7, 0xDEFF), (7, 0xFFF)],
            Resize(0xE001, 0x3FF),
            (0, 0, 0),
            &[(7, 0xDEFF), (7, 0x3FF), (0, 0xBFF)],
        ),
        (
            TWO,
            &[(7, 0xDEFE), (0, 0x1000)],
            Pair(first, 0x10, 0x3FF, 0x3FF),
            (0xE000, 0xE011, 0x3FF),
            &[(7, 0xDEFE), (0xE011, 0x10), (0xE011, 0x3FF), (0, 0xBEF)],
        ),
        (
            ONE,
            &apart,
            Allocate(first, 0xBEF),
            (0xE411, 0, 0),
            &[(7, 0xDEFF), (7, 0x40F), (7, 0xBEF)],
        ),
        (
            ONE,
            &apart,
            Free(0xE001),
            (0, 0, 0),
            &[(7, 0xDEFF), (0, 0x40F), (0, 0xBEF)],
        ),
        (
            [1, 2, 3, 4],
            &owners,
            FreeAll(7),
            (0, 0, 0),
            &[(0, 0xDEFF), (0, 0x3FF), (9, 0x3FF), (0, 0x7FE)],
        ),
        (
            [1, 2, 3, 3],
            &owners,
            FreeAll(9),
            (0, 0, 0),
            &[(7, 0xDEFF), (7, 0x3FF), (0, 0x3FF), (7, 0x7FE)],
        ),
        // windows 1 and 2 show one page, at E400h and E810h
        (
            [0, 1, 1, 2],
            &[(7, 0xE2FF), (7, 0x40F), (0, 1)],
            Free(0xE401),
            (0, 0, 0),
            &[(7, 0xE2FF), (0, 0x40F), (0, 1)],
        ),
        (
            [1, 0, 0, 1],
            &[(7, 0xDEFF), (0, 0xC0F), (7, 1)],
            Allocate(last, 0xC0F),
            (0xE001, 0, 0),
            &[(7, 0xDEFF), (7, 0xC0F), (7, 1)],
        ),
    ];
    for (windows, before, call, segments, after) in rows {
        serves(&rt, rt.alloc(), windows, before, call, segments, after)?;
    }
    Ok(())
}

#[test]
fn headers_that_go_have_no_place(rt: HostRuntime) -> Result<(), Fail> {
    let first = Strategy::everywhere(Fit::First);
    let rows: [Row; 3] = [
        // the new header at E411h takes the place of E011h, which is joined or absorbed
        (
            ONE,
            &[(7, 0xDEFF), (0, 0x10), (0, 0xFEE)],
            Allocate(first, 0x410),
            (0xE001, 0, 0),
            &[(7, 0xDEFF), (7, 0x410), (0, 0xBEE)],
        ),
        (
            ONE,
            &[(7, 0xDEFF), (7, 0x10), (0, 0xFEE)],
            Resize(0xE001, 0x410),
            (0, 0, 0),
            &[(7, 0xDEFF), (7, 0x410), (0, 0xBEE)],
        ),
        // the new header at E811h takes that of E011h, in another run
        (
            [1, 2, 1, 3],
            &[
                (9, 0xDEFF),
                (0, 0x10),
                (0, 0x3EE),
                (9, 0),
                (0, 0x7FE),
                (9, 1),
            ],
            Allocate(first, 0x40F),
            (0xE402, 0, 0),
            &[
                (9, 0xDEFF),
                (0, 0x3FF),
                (9, 0),
                (7, 0x40F),
                (0, 0x3EE),
                (9, 1),
            ],
        ),
    ];
    for (windows, before, call, segments, after) in rows {
        serves(&rt, rt.alloc(), windows, before, call, segments, after)?;
    }
    Ok(())
}

#[test]
fn headers_may_stand_at_the_ends_of_memory(rt: HostRuntime) -> Result<(), Fail> {
    let [first, last] = [
        Strategy::everywhere(Fit::First),
        Strategy::everywhere(Fit::Last),
    ];
    // the last block has EEFEh paragraphs from 1101h on, up to FFFFh
    let rows: [(Windows, Strategy, u16, u16, &[(u16, u16)]); 7] = [
        (
            NONE,
            first,
            0xAEFE,
            0x1101,
            &[(7, 1), (7, 0xFFD), (7, 0xAEFE), (0, 0x3FFF)],
        ),
        (
            NONE,
            first,
            0xBEFF,
            0x1101,
            &[(7, 1), (7, 0xFFD), (7, 0xBEFF), (0, 0x2FFE)],
        ),
        (
            NONE,
            first,
            0xCEFE,
            0x1101,
            &[(7, 1), (7, 0xFFD), (7, 0xCEFE), (0, 0x1FFF)],
        ),
        (
            [0, 0, 0, 1],
            first,
            0xDEFE,
            0x1101,
            &[(7, 1), (7, 0xFFD), (7, 0xDEFE), (0, 0xFFF)],
        ),
        (
            [1, 0, 0, 0],
            first,
            0xCEFF,
            0x1101,
            &[(7, 1), (7, 0xFFD), (7, 0xCEFF), (0, 0x1FFE)],
        ),
        (
            NONE,
            first,
            0xEEFE,
            0x1101,
            &[(7, 1), (7, 0xFFD), (7, 0xEEFE)],
        ),
        (
            NONE,
            last,
            0x3FFF,
            0xC000,
            &[(7, 1), (7, 0xFFD), (0, 0xAEFE), (7, 0x3FFF)],
        ),
    ];
    for (windows, strategy, n, segment, after) in rows {
        let before = [(7, 1), (7, 0xFFD), (0, 0xEEFE)];
        let call = Allocate(strategy, n);
        serves(
            &rt,
            rt.alloc(),
            windows,
            &before,
            call,
            (segment, 0, 0),
            after,
        )?;
    }
    // where the second header is and the list ends: at FFFEh or FFFFh
    for (windows, size, rest) in [
        (NONE, 0xBEFE, 0x3FFE),
        (NONE, 0xBEFE, 0x3FFF),
        (NONE, 0xCEFF, 0x2FFE),
        (NONE, 0xDEFE, 0x1FFF),
        ([0, 0, 0, 1], 0xEEFE, 0xFFE),
        ([0, 0, 0, 1], 0xEEFE, 0xFFF),
    ] {
        let (before, after) = ([(7, size), (9, rest)], [(0, size), (9, rest)]);
        let call = Free(0x101);
        serves(&rt, rt.alloc(), windows, &before, call, (0, 0, 0), &after)?;
    }
    Ok(())
}

#[test]
fn new_headers_need_a_place_of_their_own(rt: HostRuntime) -> Result<(), Fail> {
    let [first, last] = [
        Strategy::everywhere(Fit::First),
        Strategy::everywhere(Fit::Last),
    ];
    let low = [(7, 1), (7, 0xFFD), (0, 0xEEFE)];
    let frame = [(7, 0xDEFF), (0, 0xFFF)];
    let rows: [(Windows, &[(u16, u16)], Call); 17] = [
        // at E400h, which is the place of E000h or has no memory
        (
            ONE,
            &[(0x103, 1), (0x103, 0xDEFD), (0, 0xFFF)],
            Allocate(first, 0x3FF),
        ),
        (
            [1, 0, 0, 0],
            &[(0x103, 1), (0x103, 0xDEFD), (0, 0xFFF)],
            Allocate(first, 0x3FF),
        ),
        (ONE, &frame, Allocate(last, 0xBFF)),
        (ONE, &[(7, 0xDEFF), (7, 0xFFF)], Resize(0xE001, 0x3FF)),
        // at C000h, CFFFh, E000h, EFFFh, F000h, FFFEh, and C000h again
        (NONE, &low, Allocate(first, 0xAEFF)),
        (NONE, &low, Allocate(first, 0xBEFE)),
        (NONE, &low, Allocate(first, 0xCEFF)),
        (NONE, &low, Allocate(first, 0xDEFE)),
        (NONE, &low, Allocate(first, 0xDEFF)),
        (NONE, &low, Allocate(first, 0xEEFD)),
        (NONE, &low, Allocate(last, 0x3FFE)),
        // the first block's, the second block's, one at the other's place
        (ONE, &frame, Pair(first, 0x3FF, 0, 0x10)),
        (ONE, &frame, Pair(first, 1, 0x3FD, 0x3FD)),
        (
            ONE,
            &[(7, 0xDEFE), (0, 0x1000)],
            Pair(first, 0x10, 0x3FF, 0x3FF),
        ),
        // at the place of E011h, a free block after another one, which are not joined
        (
            [1, 2, 1, 3],
            &[(9, 0xDEFF), (0, 0x10), (0, 0x3EE), (7, 0x7FF), (9, 1)],
            Resize(0xE401, 0x410),
        ),
        // at E010h, the place of E810h after it
        (
            [1, 2, 1, 3],
            &[(9, 0xDEFF), (7, 0x80F), (9, 1)],
            Resize(0xE001, 0xF),
        ),
        (
            [1, 2, 1, 3],
            &[(9, 0xDEFF), (0, 0x80F), (9, 1)],
            Allocate(first, 0xF),
        ),
    ];
    for (windows, before, call) in rows {
        let refusal = Err(ArenaRefusal::Destroyed);
        leaves(&rt, rt.alloc(), windows, before, call, refusal, before)?;
    }
    Ok(())
}

#[test]
fn lists_that_are_not_clear(rt: HostRuntime) -> Result<(), Fail> {
    let rows: [(Windows, &[(u16, u16)]); 11] = [
        // E000h and E400h, E000h and E800h, E400h and E800h are one place, and so have the same bytes
        (
            [1, 1, 2, 3],
            &[(7, 0xDEFF), (7, 0x3FF), (7, 0x3FF), (0, 0x7FE)],
        ),
        (
            [1, 2, 1, 3],
            &[(7, 0xDEFF), (7, 0x3FF), (9, 0x3FF), (7, 0x3FF), (0, 1)],
        ),
        ([0, 1, 1, 2], &[(7, 0xE2FF), (7, 0x3FF), (7, 0x3FF), (0, 1)]),
        ([1, 2, 3, 1], &[(7, 0xDEFF), (7, 0xBFF), (7, 0xBFF), (0, 1)]),
        // no page at E000h
        ([0, 1, 2, 3], &[(7, 0xDEFF), (0, 1)]),
        // no header can be at C000h, CFFFh, F000h, FFFFh
        ([1, 2, 3, 4], &[(7, 0xBEFF), (0, 1)]),
        ([1, 2, 3, 4], &[(7, 0xCEFE), (0, 1)]),
        ([1, 2, 3, 4], &[(7, 0xEEFF), (0, 1)]),
        ([1, 2, 3, 4], &[(7, 0xFEFE), (0, 1)]),
        // the last block ends past FFFFh
        (NONE, &[(7, 0xBEFE), (0, 0x4000)]),
        ([1, 2, 3, 4], &[(7, 0xEEFE), (0, 0x1000)]),
    ];
    let calls = [
        Allocate(Strategy::everywhere(Fit::First), 0),
        Allocate(Strategy::everywhere(Fit::Last), 0xFFFF),
        Free(0x101),
        Free(0x100),
        Resize(0x101, 1),
        Resize(0x101, 0xFFFF),
        FreeAll(7),
        Pair(Strategy::everywhere(Fit::Best), 0, 0, 0),
    ];
    for (windows, blocks) in rows {
        let mut space = framed(rt.alloc(), false, windows, blocks)?;
        for call in calls {
            let found = answer(&mut space, call);
            let refused = Err(ArenaRefusal::Destroyed);
            same(
                &rt,
                "answer",
                (windows, call, found),
                (windows, call, refused),
            );
        }
        let left = framed(rt.alloc(), false, windows, blocks)?;
        is_memory(&rt, Free(0x101), &space, &left);
    }
    Ok(())
}

fn told(last: bool, segment: u16, owner: u16, size: u16) -> Met {
    let header = Header {
        segment,
        owner,
        size,
    };
    Met::Told(ListedHeader { header, last })
}

#[test]
fn walks_go_through_the_frame(rt: HostRuntime) -> Result<(), Fail> {
    let blocks = [(7, 0xDEFF), (7, 0x3FF), (7, 0x3FF), (0, 0x7FE)];
    let first = told(false, 0x100, 7, 0xDEFF);
    let second = told(false, 0xE000, 7, 0x3FF);
    let third = told(false, 0xE400, 7, 0x3FF);
    let rows: [(Windows, [Met; 5]); 3] = [
        (
            [1, 2, 3, 4],
            [first, second, third, told(true, 0xE800, 0, 0x7FE), Met::End],
        ),
        (
            [1, 1, 2, 3],
            [
                first,
                second,
                Met::Destroyed(0xE400),
                Met::Destroyed(0xE400),
                Met::Destroyed(0xE400),
            ],
        ),
        (
            [0, 1, 2, 3],
            [
                first,
                Met::Destroyed(0xE000),
                Met::Destroyed(0xE000),
                Met::Destroyed(0xE000),
                Met::Destroyed(0xE000),
            ],
        ),
    ];
    for (windows, steps) in rows {
        let space = framed(rt.alloc(), false, windows, &blocks)?;
        let mut headers = walk(&space);
        for wanted in steps {
            same(&rt, "step", headers.advance(), wanted);
        }
    }
    Ok(())
}

/// Writes headers of size 0 from one segment up to another, the last of this many paragraphs.
fn fill(space: &mut Space, from: u16, to: u16, owner: u16, size: u16) {
    for segment in from..to {
        space.poke(segment, 0, b'M');
        space.poke16(segment, 1, owner);
        space.poke16(segment, 3, 0);
    }
    space.poke(to, 0, b'M');
    space.poke16(to, 1, owner);
    space.poke16(to, 3, size);
}

#[test]
fn longest_lists_are_looked_through(rt: HostRuntime) -> Result<(), Fail> {
    // 57,088 headers: 0100h to BFFFh and D000h to EFFFh
    let mut space = framed(rt.alloc(), false, [1, 2, 3, 4], &[(7, 0)])?;
    fill(&mut space, 0x100, 0xBFFF, 7, 0x1000);
    fill(&mut space, 0xD000, 0xEFFE, 7, 0);
    space.poke(0xEFFF, 0, b'Z');
    space.poke16(0xEFFF, 1, 0);
    space.poke16(0xEFFF, 3, 0xFFF);
    let found = allocate(
        &mut space,
        Strategy::everywhere(Fit::First),
        0xFFF,
        7,
        false,
    );
    same(&rt, "answer", found, Ok(0xF000));
    // window 3 shows the page of window 0: EC00h is the place of E000h
    let [first, _, _, _] = space.windows();
    show(&mut space, 3, first);
    let found = allocate(&mut space, Strategy::everywhere(Fit::First), 0, 7, false);
    same(&rt, "answer", found, Err(ArenaRefusal::Destroyed));
    Ok(())
}
