//! Marks on the memory of which something may be found, so that instructions that touch none of it need not be looked
//! at.

ghost use Rattle.std.specs.Prelude.{◌≡◌, ◌+◌, ◌*◌, ◌<◌, ◌≤◌, ◌&&◌, not, false, is_some, slice_index_or, ℕ, All, IfOk, None};
ghost use Rattle.std.specs.List.{list_any};
ghost use Rattle.dm_touches.specs.quiet.Marks.{level_at};
ghost use Rattle.dm_checker.specs.Unfound.{is_high};
ghost use Rattle.dm_checker.specs.Marking.{IsMarked};
ghost use Rattle.dm_checker.specs.inner.Marking.{Keeps, HasMap, HasHeader, HasFree};

use crate::arena_copy::HeaderCopy;
use dm_blocks::Header;
use dm_pool::Block;
use dm_touches::quiet::Marks;
use std::alloc::{AllocError, Global};

/// The first paragraph between the video memory and upper memory, where there is no memory, and the one after the last.
const GAP: usize = 0xC000;

const GAP_END: usize = 0xD000;

/// The first paragraph of the page frame, and how many a window has.
const FRAME: usize = 0xE000;

const WINDOW: usize = 0x400;

/// The first paragraph of the ROM.
const ROM: usize = 0xF000;

/// How many paragraphs there are below 100000h, and in all.
const BELOW: usize = 0x1_0000;

const PARAGRAPHS: usize = 0x1_1000;

/// Whether the header is in the page frame or above it.
fn is_high(copy: &HeaderCopy) -> bool
    ensures { result ≡ is_high copy.now }
{
    copy.header.segment > 0xDFFF
}

/// Whether a header is in the page frame or above it.
fn has_high(headers: &[HeaderCopy]) -> bool
    ensures { result ≡ list_any is_high headers.now }
{
    headers.iter().any(|copy| is_high(copy))
}

/// Marks writes to a window of the frame, from 0, if it shows no page or a header is in the frame (`high`).
fn mark_window(marks: &mut Marks, windows: &[Option<Block>; 4], high: bool, window: usize)
    requires { window < 4 }
    ensures keeps { Keeps 1 marks.old marks.new }
    ensures marked { (p : ℕ) → 0xE000 + 0x400 * window ≤ p → p < 0xE400 + 0x400 * window → (is_some
        (slice_index_or windows.now window None) && not high) ≡ false → 1 ≤ level_at marks.new p }
{
    if windows[window].is_some() && !high {
        return;
    }
    let first = FRAME + WINDOW * window;
    marks.mark(first, first + WINDOW, 1);
}

/// Marks writes to memory that is not there, to the ROM, to windows that show no page, and, if a header is in the frame
/// (`high`), to all windows.
fn mark_map(marks: &mut Marks, windows: &[Option<Block>; 4], high: bool)
    ensures { HasMap windows.now high marks.new }
{
    marks.mark(GAP, GAP_END, 1);
    mark_window(marks, windows, high, 0);
    mark_window(marks, windows, high, 1);
    mark_window(marks, windows, high, 2);
    mark_window(marks, windows, high, 3);
    marks.mark(ROM, BELOW, 1);
    marks.mark(PARAGRAPHS - 1, PARAGRAPHS, 1);
}

/// Marks writes to the paragraph of a header.
fn mark_header(marks: &mut Marks, copy: &HeaderCopy)
    ensures keeps { Keeps 1 marks.old marks.new }
    ensures marked { HasHeader marks.new copy.now }
{
    let paragraph = copy.header.segment as usize;
    marks.mark(paragraph, paragraph + 1, 1);
}

/// Marks writes to the paragraphs of the headers.
fn mark_headers(marks: &mut Marks, headers: &[HeaderCopy])
    ensures keeps { Keeps 1 marks.old marks.new }
    ensures marked { All (HasHeader marks.new) headers.now }
{
    for copy in headers {
        mark_header(marks, copy);
    }
}

/// Marks reads of and writes to the memory of the block behind the header, if the block is free.
fn mark_block(marks: &mut Marks, header: &Header)
    ensures keeps { (n : ℕ) → n ≤ 2 → Keeps n marks.old marks.new }
    ensures marked { HasFree marks.new header.now }
{
    if header.owner != 0 {
        return;
    }
    let first = header.segment as usize + 1;
    let end = (first + header.size as usize).min(PARAGRAPHS);
    marks.mark(first, end, 2);
}

/// Marks reads of and writes to the memory of free blocks.
fn mark_free(marks: &mut Marks, headers: &[HeaderCopy])
    ensures keeps { (n : ℕ) → n ≤ 2 → Keeps n marks.old marks.new }
    ensures marked { All (λ w. HasFree marks.new w.header) headers.now }
{
    for copy in headers {
        mark_block(marks, &copy.header);
    }
}

/// Marks on the memory of which something may be found, by the headers of the arena and what the windows show. An `Err`
/// is a failed allocation.
pub(crate) fn marks_of(
    alloc: Global,
    headers: &[HeaderCopy],
    windows: &[Option<Block>; 4],
) -> Result<Marks, AllocError>
    ensures { IfOk result (λ marks. IsMarked windows.now headers.now marks) }
{
    let mut marks = Marks::new(alloc)?;
    mark_map(&mut marks, windows, has_high(headers));
    mark_headers(&mut marks, headers);
    mark_free(&mut marks, headers);
    Ok(marks)
}
