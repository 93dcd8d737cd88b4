//! Pages of expanded memory as the windows of the frame show them, and bytes copied between addresses and the
//! scratch. The figures are worked out by hand from the map of memory.

ghost use Rattle.std.specs.Prelude.{IsTrue, ◌+◌, ◌≤◌};

use crate::checks::same;
use crate::memory::{Pages, new_space, show, two_pages};
use dm_pool::Block;
use dm_space::{Place, Space};
use std::alloc::Global;
use std::process::Abort;
use std::test::Fail;

/// An action, or an expected value.
#[derive(Clone, Copy)]
enum Step {
    /// Maps the page with a number in a window.
    Show(usize, usize),
    /// Unmaps a window.
    Hide(usize),
    /// A byte is written at segment:offset.
    Poke(u16, u16, u8),
    /// A byte is found at segment:offset.
    Peek(u16, u16, u8),
    /// A word is written at segment:offset.
    PokeWord(u16, u16, u16),
    /// A word is found at segment:offset.
    PeekWord(u16, u16, u16),
    /// A byte is found in the bytes of a page, by its offset.
    Byte(usize, usize, u8),
    /// A byte is written in the bytes of a page.
    Set(usize, usize, u8),
}

use self::Step::{Byte, Hide, Peek, PeekWord, Poke, PokeWord, Set, Show};

/// The byte at an offset of a block.
fn byte_of(space: &Space, block: Block, at: usize) -> Option<u8> {
    if !space.has(block) {
        return None;
    }
    space.bytes(block).get(at).copied()
}

/// Writes a byte in the bytes of a block.
fn set_byte(space: &mut Space, block: Block, at: usize, value: u8) {
    if space.has(block) {
        let bytes = space.bytes_mut(block);
        if at < bytes.len() {
            bytes[at] = value;
        }
    }
}

/// The page with a number.
fn page(pages: &Pages, number: usize) -> Block {
    if number == 0 {
        pages.first
    } else {
        pages.second
    }
}

/// Does an action, or compares a value.
fn play(rt: &impl Abort, space: &mut Space, pages: &Pages, index: usize, step: Step) {
    match step {
        Show(window, number) => show(space, window, page(pages, number)),
        Hide(window) => space.set_window(window % 4, None),
        Poke(segment, offset, value) => space.poke(segment, offset, value),
        Peek(segment, offset, wanted) => {
            same(
                rt,
                "byte",
                (index, space.peek(segment, offset)),
                (index, wanted),
            );
        }
        PokeWord(segment, offset, value) => space.poke16(segment, offset, value),
        PeekWord(segment, offset, wanted) => {
            same(
                rt,
                "word",
                (index, space.peek16(segment, offset)),
                (index, wanted),
            );
        }
        Byte(number, at, wanted) => {
            let found = byte_of(space, page(pages, number), at);
            same(rt, "byte of a page", (index, found), (index, Some(wanted)));
        }
        Set(number, at, value) => set_byte(space, page(pages, number), at, value),
    }
}

/// Two pages, seen through windows, written and read by their addresses and in their own bytes.
const STEPS: [Step; 38] = [
    Peek(0xE000, 0x0000, 0xFF),
    Show(0, 0),
    Peek(0xE000, 0x0000, 0x00),
    Poke(0xE000, 0x0000, 0x11),
    Byte(0, 0x0000, 0x11),
    Peek(0xE400, 0x0000, 0xFF),
    // one page in two windows
    Show(1, 0),
    Peek(0xE400, 0x0000, 0x11),
    Poke(0xE400, 0x3FFF, 0x22),
    Peek(0xE000, 0x3FFF, 0x22),
    Peek(0xE000, 0x7FFF, 0x22),
    Byte(0, 0x3FFF, 0x22),
    // a word that begins and ends in one page
    PokeWord(0xE000, 0x3FFF, 0x6655),
    Byte(0, 0x3FFF, 0x55),
    Byte(0, 0x0000, 0x66),
    // two pages, and a word across both
    Show(1, 1),
    Peek(0xE400, 0x0000, 0x00),
    Peek(0xE000, 0x3FFF, 0x55),
    PokeWord(0xE000, 0x3FFF, 0x4433),
    PeekWord(0xE000, 0x3FFF, 0x4433),
    Byte(0, 0x3FFF, 0x33),
    Byte(1, 0x0000, 0x44),
    // a window that shows nothing loses what is written
    Hide(0),
    PeekWord(0xE000, 0x3FFF, 0x44FF),
    PokeWord(0xE000, 0x3FFF, 0x7788),
    Byte(0, 0x3FFF, 0x33),
    Byte(1, 0x0000, 0x77),
    // the last window ends where the ROM begins
    Show(3, 0),
    PeekWord(0xEFFF, 0x000F, 0xCF33),
    PokeWord(0xEFFF, 0x000F, 0x0102),
    PeekWord(0xEFFF, 0x000F, 0xCF02),
    // what is written in the bytes of a page is seen at once
    Set(0, 0x1234, 0x99),
    Peek(0xEC00, 0x1234, 0x99),
    Poke(0xDFFF, 0x001F, 0x10),
    Peek(0xE000, 0x000F, 0xFF),
    Show(0, 1),
    Poke(0xDFFF, 0x001F, 0x10),
    Byte(1, 0x000F, 0x10),
];

/// Definitions: dm_space Memory Memory Held with_blocks page_bytes place shown byte_at with_byte peek16 poke16
/// Definitions: dm_space Memory with_window
/// Definitions: dm_space Lending LendsScratch LendsBlock
#[test]
fn windows_show_pages(rt: HostRuntime) -> Result<(), Fail> {
    let mut space = new_space(rt.alloc())?;
    let pages = two_pages(&mut space).ok_or("no room")?;
    for (index, step) in STEPS.iter().enumerate() {
        play(&rt, &mut space, &pages, index, *step);
    }
    Ok(())
}

/// The number of a page, if it is one of two.
fn number(pages: &Pages, block: Option<Block>) -> Option<usize> {
    let block = block?;
    if block == pages.first {
        Some(0)
    } else if block == pages.second {
        Some(1)
    } else {
        None
    }
}

/// The numbers of the pages in the four windows.
fn shown(space: &Space, pages: &Pages) -> [Option<usize>; 4] {
    let [first, second, third, fourth] = space.windows();
    [
        number(pages, first),
        number(pages, second),
        number(pages, third),
        number(pages, fourth),
    ]
}

/// A place by its kind, the number of its page, and its linear address or its offset.
fn told(place: Place, pages: &Pages) -> (&'static str, Option<usize>, usize) {
    match place {
        Place::Low(linear) => ("low", None, linear),
        Place::Page(block, offset) => ("page", number(pages, Some(block)), offset),
        Place::Rom(offset) => ("ROM", None, offset),
        Place::Nothing => ("nothing", None, 0),
    }
}

/// Definitions: dm_space Memory place shown with_window
#[test]
fn segments_have_places(rt: HostRuntime) -> Result<(), Fail> {
    let mut space = new_space(rt.alloc())?;
    let pages = two_pages(&mut space).ok_or("no room")?;
    show(&mut space, 0, pages.second);
    show(&mut space, 3, pages.first);
    same(
        &rt,
        "windows",
        shown(&space, &pages),
        [Some(1), None, None, Some(0)],
    );
    // segment, kind, page, linear address or offset
    let rows = [
        (0x0000, "low", None, 0x00000),
        (0x9FFF, "low", None, 0x9FFF0),
        (0xBFFF, "low", None, 0xBFFF0),
        (0xC000, "nothing", None, 0),
        (0xCFFF, "nothing", None, 0),
        (0xD000, "low", None, 0xD0000),
        (0xDFFF, "low", None, 0xDFFF0),
        (0xE000, "page", Some(1), 0x0000),
        (0xE3FF, "page", Some(1), 0x3FF0),
        (0xE400, "nothing", None, 0),
        (0xEBFF, "nothing", None, 0),
        (0xEC01, "page", Some(0), 0x0010),
        (0xF000, "ROM", None, 0x0000),
        (0xFFFF, "ROM", None, 0xFFF0),
    ];
    for on in [false, true] {
        space.set_a20(on);
        for (segment, kind, block, at) in rows {
            let found = (segment, told(space.back(segment), &pages));
            same(&rt, "place", found, (segment, (kind, block, at)));
        }
    }
    Ok(())
}

#[test]
fn each_window_is_looked_at(rt: HostRuntime) -> Result<(), Fail> {
    let mut space = new_space(rt.alloc())?;
    let Pages { first, second } = two_pages(&mut space).ok_or("no room")?;
    for window in 0..4usize {
        show(&mut space, window, first);
        let found = (window, space.shows(first), space.shows(second));
        same(&rt, "shown", found, (window, true, false));
        space.set_window(window % 4, None);
        same(
            &rt,
            "not shown",
            (window, space.shows(first)),
            (window, false),
        );
    }
    Ok(())
}

/// Frees a block that no window shows; otherwise false.
fn give(space: &mut Space, block: Block) -> bool {
    let may = space.has(block) && !space.shows(block);
    if may {
        space.give(block);
    }
    may
}

/// Resizes a block that no window shows; otherwise false.
fn resize(space: &mut Space, block: Block, units: usize) -> bool {
    space.has(block) && !space.shows(block) && space.resize(block, units)
}

/// Copies one byte of a block to a place in another one, if both exist.
fn move_byte(space: &mut Space, source: (Block, usize), destination: (Block, usize)) -> bool {
    if !space.has(source.0) || !space.has(destination.0) {
        return false;
    }
    let last = space.bytes(source.0).len();
    let end = space.bytes(destination.0).len();
    let may = source.1 < last && destination.1 < end;
    if may {
        space.move_bytes(source.0, source.1, destination.0, destination.1, 1);
    }
    may
}

/// Where a block lies.
fn base_of(space: &Space, block: Block) -> Option<usize> {
    if space.has(block) {
        Some(space.base(block))
    } else {
        None
    }
}

/// Definitions: dm_space Memory Memory Held with_blocks page_bytes; dm_space Unseen shows
#[test]
fn blocks_come_and_go(rt: HostRuntime) -> Result<(), Fail> {
    let mut space = new_space(rt.alloc())?;
    same(
        &rt,
        "free units",
        (space.free_units(), space.largest()),
        (48, 48),
    );
    same(&rt, "pages that fit", space.count_fitting(16), 3);
    let Pages { first, second } = two_pages(&mut space).ok_or("no room")?;
    show(&mut space, 2, second);
    set_byte(&mut space, second, 5, 0x77);
    same(&rt, "free units", space.free_units(), 16);
    // the first page is freed, and a smaller block is allocated in its place
    same(&rt, "given", give(&mut space, first), true);
    same(&rt, "shown, so not given", give(&mut space, second), false);
    same(
        &rt,
        "free units",
        (space.free_units(), space.largest()),
        (32, 16),
    );
    same(&rt, "pages that fit", space.count_fitting(16), 2);
    let third = space.take(10).ok_or("no room")?;
    same(&rt, "base", base_of(&space, third), Some(0));
    same(&rt, "base", base_of(&space, second), Some(16));
    // before the second page there is room for 16 units, and none for 17 anywhere
    same(&rt, "resized", resize(&mut space, third, 17), false);
    same(&rt, "resized", resize(&mut space, third, 16), true);
    same(&rt, "bytes", byte_of(&space, third, 0x3FFF), Some(0));
    same(&rt, "no more bytes", byte_of(&space, third, 0x4000), None);
    same(&rt, "seen all the while", space.peek(0xE800, 5), 0x77);
    same(
        &rt,
        "moved",
        move_byte(&mut space, (second, 5), (third, 9)),
        true,
    );
    same(&rt, "moved byte", byte_of(&space, third, 9), Some(0x77));
    Ok(())
}

/// The bytes next to each border of the map before they are copied: segment, offset, byte. Windows 0 and 3
/// show the first page, window 1 the second one.
const BORDERS: [(u16, u16, u8); 9] = [
    (0xBFFF, 0x000F, 0xA1),
    (0xD000, 0x0000, 0xB2),
    (0xDFFF, 0x000F, 0xB3),
    (0xE000, 0x0000, 0x01),
    (0xE000, 0x3FFF, 0x02),
    (0xE400, 0x0000, 0x03),
    (0xE400, 0x3FFF, 0x04),
    (0xFFFF, 0x0010, 0xC4),
    (0xFFFF, 0xFFFF, 0xC5),
];

/// A memory with two pages in its windows, and those bytes; the first page. A20 is off.
fn bordered(alloc: Global) -> Result<(Space, Block), Fail> {
    let mut space = new_space(alloc)?;
    let Pages { first, second } = two_pages(&mut space).ok_or("no room")?;
    show(&mut space, 0, first);
    show(&mut space, 1, second);
    show(&mut space, 3, first);
    space.set_a20(true);
    for (segment, offset, byte) in BORDERS {
        space.poke(segment, offset, byte);
    }
    space.set_a20(false);
    Ok((space, first))
}

/// Whether this many bytes from a linear address on, and from a place in the scratch on, may be copied.
fn may_copy(linear: usize, at: usize, len: usize) -> bool
    ensures { IsTrue result → (linear + len ≤ 0x10FFF0) × (at + len ≤ 0x200000) }
{
    linear <= 0x10_FFF0 && len <= 0x10_FFF0 - linear && at <= 0x20_0000 && len <= 0x20_0000 - at
}

/// Copies bytes in, if the condition holds.
fn copy_in(space: &mut Space, linear: usize, at: usize, len: usize) {
    if may_copy(linear, at, len) {
        space.copy_in(linear, at, len);
    }
}

/// Copies bytes out, if the condition holds.
fn copy_out(space: &mut Space, at: usize, linear: usize, len: usize) {
    if may_copy(linear, at, len) {
        space.copy_out(at, linear, len);
    }
}

/// A byte of the scratch.
fn scratch_byte(space: &Space, at: usize) -> Option<u8> {
    space.scratch().get(at).copied()
}

/// Definitions: dm_pool Parts HasPart part_bytes with_part_bytes part_copied
/// Definitions: dm_space Copies bytes_read bytes_written values copied_in copied_out
#[test]
fn bytes_are_copied_in_across_borders(rt: HostRuntime) -> Result<(), Fail> {
    let (mut space, _page) = bordered(rt.alloc())?;
    // linear address, place in the scratch, the two bytes
    let rows: [(usize, usize, u8, u8); 12] = [
        (0xBFFFF, 0x000000, 0xA1, 0xFF),
        (0xCFFFF, 0x000001, 0xFF, 0xB2),
        (0xDFFFF, 0x100000, 0xB3, 0x01),
        (0xE3FFF, 0x100005, 0x02, 0x03),
        (0xE7FFF, 0x100005, 0x04, 0xFF),
        (0xEBFFF, 0x123456, 0xFF, 0x01),
        (0xEFFFF, 0x123456, 0x02, 0xCF),
        (0xF03FC, 0x000001, 0xCF, 0xFF),
        (0xF03FF, 0x000001, 0xFF, 0xCB),
        (0xF101F, 0x000001, 0xFF, 0xCF),
        (0xFFFFF, 0x1FFFFE, 0xFF, 0xC4),
        (0x10FFEE, 0x1FFFFE, 0x00, 0xC5),
    ];
    for (linear, at, first, second) in rows {
        copy_in(&mut space, linear, at, 2);
        let found = (
            scratch_byte(&space, at),
            scratch_byte(&space, at.wrapping_add(1)),
        );
        same(
            &rt,
            "bytes",
            (linear, found),
            (linear, (Some(first), Some(second))),
        );
    }
    // all windows at once, and the bytes next to them: place in the scratch, byte
    copy_in(&mut space, 0xDFFFF, 0x20, 0x1_0002);
    let bytes = [
        (0x00020, 0xB3),
        (0x00021, 0x01),
        (0x04020, 0x02),
        (0x04021, 0x03),
        (0x08020, 0x04),
        (0x08021, 0xFF),
        (0x0C020, 0xFF),
        (0x0C021, 0x01),
        (0x10020, 0x02),
        (0x10021, 0xCF),
        (0x10022, 0x00),
    ];
    for (at, byte) in bytes {
        same(
            &rt,
            "byte",
            (at, scratch_byte(&space, at)),
            (at, Some(byte)),
        );
    }
    copy_in(&mut space, 0x00000, 0x20, 0);
    same(&rt, "no byte", scratch_byte(&space, 0x20), Some(0xB3));
    Ok(())
}

/// Definitions: dm_pool Parts HasPart part_bytes with_part_bytes part_copied
/// Definitions: dm_space Copies bytes_read bytes_written values copied_in copied_out
#[test]
fn bytes_are_copied_out_across_borders(rt: HostRuntime) -> Result<(), Fail> {
    // linear address to which 51h, 52h, 53h, 54h are copied; the segment and offset of four bytes, with A20 on; their
    // values afterwards
    let rows: [(usize, (u16, u16), [u8; 4]); 11] = [
        (0x9FFFE, (0x9FFF, 0x000E), [0x51, 0x52, 0x53, 0x54]),
        (0xBFFFE, (0xBFFF, 0x000E), [0x51, 0x52, 0xFF, 0xFF]),
        (0xCFFFE, (0xCFFF, 0x000E), [0xFF, 0xFF, 0x53, 0x54]),
        (0xDFFFE, (0xDFFF, 0x000E), [0x51, 0x52, 0x53, 0x54]),
        (0xE3FFE, (0xE3FF, 0x000E), [0x51, 0x52, 0x53, 0x54]),
        (0xE3FFE, (0xEFFF, 0x000E), [0x51, 0x52, 0xCF, 0xFF]),
        (0xE7FFE, (0xE7FF, 0x000E), [0x51, 0x52, 0xFF, 0xFF]),
        (0xEBFFE, (0xE000, 0x0000), [0x53, 0x54, 0x00, 0x00]),
        (0xEFFFE, (0xE3FF, 0x000E), [0x51, 0x52, 0x03, 0x00]),
        (0xFFFFE, (0xFFFF, 0x000E), [0xFF, 0xFF, 0x53, 0x54]),
        (0x10FFEC, (0xFFFF, 0xFFFC), [0x51, 0x52, 0x53, 0x54]),
    ];
    for (linear, (segment, offset), bytes) in rows {
        let (mut space, _page) = bordered(rt.alloc())?;
        space.scratch_mut(0x20_0000)[0x1F_FFFC..0x20_0000].copy_from_slice(&[
            0x51, 0x52, 0x53, 0x54,
        ]);
        copy_out(&mut space, 0x1F_FFFC, linear, 4);
        space.set_a20(true);
        let mut found = [0; 4];
        for index in 0..4 {
            found[index] = space.peek(segment, offset.wrapping_add(index as u16));
        }
        same(&rt, "bytes", (linear, found), (linear, bytes));
    }
    Ok(())
}

/// Definitions: dm_space Copies bytes_read bytes_written values copied_in copied_out
#[test]
fn later_bytes_are_copied_over_earlier_ones(rt: HostRuntime) -> Result<(), Fail> {
    let (mut space, page) = bordered(rt.alloc())?;
    // both windows show one page, so each place is written twice
    show(&mut space, 1, page);
    space.scratch_mut(0x4001)[0x0000] = 0x61;
    space.scratch_mut(0x4001)[0x0001] = 0x62;
    space.scratch_mut(0x4001)[0x4000] = 0x63;
    copy_out(&mut space, 0x0000, 0xE0000, 0x4001);
    same(
        &rt,
        "written twice",
        byte_of(&space, page, 0x0000),
        Some(0x63),
    );
    same(
        &rt,
        "written once",
        byte_of(&space, page, 0x0001),
        Some(0x62),
    );
    same(
        &rt,
        "written once",
        byte_of(&space, page, 0x3FFF),
        Some(0x00),
    );
    Ok(())
}
