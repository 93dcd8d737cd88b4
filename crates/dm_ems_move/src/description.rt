//! The structure of 18 bytes that describes a move or an exchange of regions (LIM EMS 4.0, function 24; INT 67h
//! function 57h): the length, a double word, and the descriptions of source and destination, seven bytes each.

ghost use Rattle.std.specs.Prelude.{◌≡◌, ◌<◌, ◌^◌};
ghost use Rattle.dm_ems_move.specs.RegionMoves.{length_at, described};

use dm_space::Space;
use dm_space::moves::{byte_after, word_after};

/// The offset of the source's description in the structure.
pub(crate) const SOURCE: usize = 4;

/// The offset of the destination's description in the structure.
pub(crate) const DESTINATION: usize = 11;

/// The description of one region in the structure.
#[derive(Clone, Copy, Debug)]
pub struct Description {
    /// Its type: 0 for conventional memory, 1 for pages of a handle.
    pub kind: u8,
    /// The handle, for pages.
    pub handle: u16,
    /// The offset in bytes, in the segment or in the first page.
    pub offset: u16,
    /// The segment, or the first logical page.
    pub page: u16,
}

/// The number of bytes to be moved or exchanged: the double word at segment:offset.
pub(crate) fn length_at(space: &Space, segment: u16, offset: u16) -> usize
    ensures { result ≡ length_at space.now.memory segment offset }
{
    let low = word_after(space, segment, offset, 0);
    let high = word_after(space, segment, offset, 2);
    low as usize + 0x1_0000 * high as usize
}

/// The description of a region that stands `k` bytes after segment:offset; offsets wrap.
pub(crate) fn described(space: &Space, segment: u16, offset: u16, k: usize) -> Description
    requires { k < 0x1000 }
    ensures { result ≡ described space.now.memory segment offset k }
{
    Description {
        kind: byte_after(space, segment, offset, k),
        handle: word_after(space, segment, offset, k + 1),
        offset: word_after(space, segment, offset, k + 3),
        page: word_after(space, segment, offset, k + 5),
    }
}
