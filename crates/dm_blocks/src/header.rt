//! One arena header: the first five bytes of a paragraph.
//!
//! MS-DOS Programmer's Reference, "Arena header": the signature `M`, or `Z` in the last header, the
//! word of the owner (0 for a free block) and the word of the size in paragraphs.
ghost use Rattle.std.specs.Prelude.{◌≡◌, ℕ, ◌+◌, ◌*◌, ◌<◌, ◌≤◌, ◌==◌};
ghost use Rattle.dm_blocks.specs.Chain;
ghost use Rattle.dm_space.specs.Memory.{peek};
ghost use Rattle.dm_blocks.specs.Chain.{next, word, signature_byte};
ghost use Rattle.dm_blocks.specs.Reading.{IsListedAt};
ghost use Rattle.dm_blocks.specs.inner.Fields.{HasFields};

use crate::list::LINK;
use dm_space::Space;

/// The signature of a header that is not the last of its list.
const MORE: u8 = b'M';
/// The signature of the last header of a list.
const LAST: u8 = b'Z';

/// An arena header: where it stands, and what it says of its block.
#[derive(Clone, Copy, Debug, PartialEq, Eq)]
pub struct Header {
    /// The header's own segment; its block begins at the next one.
    pub segment: u16,
    /// The owner: the segment of a program's prefix, or 0 where the block is free.
    pub owner: u16,
    /// The block's size in paragraphs.
    pub size: u16,
}

/// A header, and whether it is the last of its list.
#[derive(Clone, Copy, Debug, PartialEq, Eq)]
pub struct ListedHeader {
    pub header: Header,
    /// Whether it is the list's last header.
    pub last: bool,
}

impl Header {
    /// The segment after the block, where the next header of its list stands, if there is one.
    #[inline(always)]
    pub fn next(self) -> u16
        requires { next self ≤ 0xFFFF }
        ensures { result ≡ next self }
    {
        self.segment + 1 + self.size
    }

    /// Whether the block is free: its owner is 0. `upper` says whether upper memory belongs to the
    /// arena; if so, the link block counts as taken, whatever its owner.
    #[inline(always)]
    pub fn is_free(self, upper: bool) -> bool
        ensures { result ≡ Chain.is_free upper self }
    {
        if upper && self.segment == LINK {
            return false;
        }
        self.owner == 0
    }
}

impl ListedHeader {
    /// The signature byte of the header: `Z` if it is the last one, else `M`.
    #[inline(always)]
    pub fn signature(self) -> u8
        ensures { result ≡ signature_byte self.last }
    {
        if self.last { LAST } else { MORE }
    }
}

/// The byte of a header at an offset, below 16, of the paragraph at a segment.
#[inline(always)]
fn byte_of(space: &Space, segment: u16, offset: u16) -> u8
    requires { offset < 16 }
    ensures { result ≡ peek space.now.memory (16 * segment + offset) }
{
    space.peek(segment, offset)
}

/// The word of a header, low byte first, at an offset, below 15, of the paragraph at a segment.
#[inline(always)]
fn word_of(space: &Space, segment: u16, offset: u16) -> u16
    requires { offset < 15 }
    ensures word { result ≡ word space.now.memory (16 * segment + offset) }
    ensures low { peek space.now.memory (16 * segment + offset) < 256 }
    ensures high { peek space.now.memory (16 * segment + offset + 1) < 256 }
{
    let low = byte_of(space, segment, offset);
    let high = byte_of(space, segment, offset + 1);
    u16::from_le_bytes([low, high])
}

/// Whether the byte at segment:0 is the signature of a last header, `Z`.
#[inline(always)]
pub fn is_last(space: &Space, segment: u16) -> bool
    ensures { result ≡ (peek space.now.memory (16 * segment) == 0x5A) }
{
    byte_of(space, segment, 0) == LAST
}

/// The segment of the ROM, from which on bytes are read one by one.
const ROM: u16 = 0xF000;

/// What the first five bytes of a paragraph hold if it is a header.
#[derive(Clone, Copy)]
struct Fields {
    /// The signature byte.
    signature: u8,
    /// The owner.
    owner: u16,
    /// The size in paragraphs.
    size: u16,
}

/// The fields at a segment of the ROM, byte by byte.
#[cold]
#[inline(never)]
fn fields_in_rom(space: &Space, segment: u16) -> Fields
    ensures { HasFields space.now.memory segment result }
{
    Fields {
        signature: byte_of(space, segment, 0),
        owner: word_of(space, segment, 1),
        size: word_of(space, segment, 3),
    }
}

/// The fields at a segment. Below the ROM they are read at once.
#[inline(always)]
fn fields_at(space: &Space, segment: u16) -> Fields
    ensures { HasFields space.now.memory segment result }
{
    if segment >= ROM {
        return fields_in_rom(space, segment);
    }
    let eight = space.first_bytes_anywhere(segment, 0);
    Fields {
        signature: (eight % 0x100) as u8,
        owner: (eight / 0x100 % 0x1_0000) as u16,
        size: (eight / 0x100_0000 % 0x1_0000) as u16,
    }
}

/// Reads the header at a segment, whatever list it belongs to. None if its first byte is neither
/// `M` nor `Z`, or if the segment after its block would be over FFFFh.
#[inline(always)]
pub fn header_at(space: &Space, segment: u16) -> Option<ListedHeader>
    ensures { IsListedAt space.now.memory segment result }
{
    let fields = fields_at(space, segment);
    let last = match fields.signature {
        MORE => false,
        LAST => true,
        _ => return None,
    };
    let owner = fields.owner;
    let size = fields.size;
    if segment as u32 + 1 + size as u32 > 0xFFFF {
        return None;
    }
    let header = Header {
        segment,
        owner,
        size,
    };
    Some(ListedHeader { header, last })
}
