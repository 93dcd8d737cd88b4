//! Which paragraphs of the EMS page frame have a header, as a walk meets them.
//!
//! Headers stand at paragraphs and windows at multiples of 16 KiB, so two headers share all of
//! their bytes or none. Only in the frame, where several windows may show one block of the pool,
//! have two segments one place. So one truth value for each paragraph of each window is enough, and
//! a walk reads a list once.
ghost use Rattle.std.specs.Prelude.{◌≡◌, ◌<◌, ◌≤◌, [], false, length, slice_index_or, slice_set, true, MatchBool};
ghost use Rattle.dm_space.specs.Memory.{Memory};
ghost use Rattle.dm_blocks.specs.inner.Occupied;
ghost use Rattle.dm_blocks.specs.inner.Occupied.{Admits, AreOccupied};

use dm_pool::Block;
use dm_space::{Place, Space};

/// The number of paragraphs of a page.
const PAGE: usize = 0x400;
/// The number of paragraphs of the frame: four pages.
const FRAME: usize = 0x1000;

/// The paragraphs of the frame in which the walk has met a header: these are occupied. Where several windows show one
/// block, the paragraphs of the first of them count for all.
#[derive(Drop)]
pub(crate) struct FrameHeaders {
    occupied: [bool; FRAME],
}

/// Whether a window that shows `shown`, or nothing, shows the block of the pool.
fn is_shown(shown: Option<Block>, block: Block) -> bool
    ensures { result ≡ Occupied.is_shown shown block }
{
    match shown {
        Some(shown) => shown == block,
        None => false,
    }
}

/// The index of the first window that shows the block of the pool; the number of windows if none does.
fn first_showing(windows: &[Option<Block>], block: Block) -> usize
    ensures value { result ≡ Occupied.first_showing windows.now block }
    ensures within { result ≤ length windows.now }
{
    match windows {
        [] => 0,
        [window, rest @ ..] => {
            if is_shown(*window, block) {
                0
            } else {
                1 + first_showing(rest, block)
            }
        }
    }
}

/// The number, in the frame, of the paragraph of a byte of a block of the pool, in the first window that shows the
/// block. The offset is in bytes.
fn paragraph_of(space: &Space, block: Block, offset: usize) -> usize
    ensures { result ≡ Occupied.frame_paragraph space.now.memory block offset }
{
    PAGE * first_showing(&space.windows(), block) + offset / 16
}

impl FrameHeaders {
    /// The paragraphs of a walk that has met no header: none is occupied.
    pub(crate) fn new() -> FrameHeaders
        ensures { (S : Memory) → AreOccupied S [] result.occupied }
    {
        FrameHeaders {
            occupied: [false; FRAME],
        }
    }

    /// Occupies a paragraph; the others stay. Returns true if it was not occupied before.
    fn occupy(&mut self, paragraph: usize) -> bool
        requires { paragraph < 0x1000 }
        ensures { MatchBool result ((slice_index_or self.old.occupied paragraph false ≡ false) ×
            (self.new.occupied ≡ slice_set self.old.occupied paragraph true)) ((slice_index_or self.old.occupied
            paragraph false ≡ true) × (self.new.occupied ≡ self.old.occupied)) }
    {
        if self.occupied[paragraph] {
            return false;
        }
        self.occupied[paragraph] = true;
        true
    }

    /// Returns true if a header may stand at a segment: memory keeps what is written there, and no
    /// header met before has the same place. Then the segment's paragraph is occupied, if it is in the frame, and the
    /// others stay; with false nothing changes.
    pub(crate) fn admit(&mut self, space: &Space, segment: u16) -> bool
        ensures { Admits space.now.memory segment self.old.occupied result self.new.occupied }
    {
        match space.back(segment) {
            Place::Low(_) => true,
            Place::Rom(_) | Place::Nothing => false,
            Place::Page(block, offset) => self.occupy(paragraph_of(space, block, offset)),
        }
    }
}
