//! An arena header written: the first five bytes of a paragraph (MS-DOS Programmer's Reference, "Arena header").
ghost use Rattle.std.specs.Prelude.{◌≡◌, ◌+◌, ◌*◌, ◌/◌, ◌%◌, ◌<◌, ◌≤◌};
ghost use Rattle.std.specs.Bool.{OnTrue};
ghost use Rattle.dm_space.specs.Memory.{IsHeld, Memory};
ghost use Rattle.dm_space.specs.inner.Places.{IsPoked};
ghost use Rattle.dm_blocks.specs.Chain.{IsHeader, signature_byte, next};
ghost use Rattle.dm_arena.specs.inner.Walks.{IsHeaderWritten};

use dm_blocks::{ListedHeader, header_at};
use dm_space::Space;

/// The segment up to which headers stand in RAM that needs no look at the map.
const END: u16 = 0xC000;

/// States that memory and the scratch part have their sizes, which proofs need. It changes nothing.
#[inline(always)]
fn knows_sizes(space: &Space)
    ensures held { IsHeld space.now }
{
    let _a20 = space.a20();
}

/// Writes a byte of a header: at an offset, below 16, of the paragraph at the header's segment. A write to ROM, or
/// where there is no memory, is lost.
fn set_byte(space: &mut Space, segment: u16, offset: u16, value: u8)
    requires { offset < 16 }
    ensures memory { IsPoked space.old.memory (16 * segment + offset) value space.new.memory }
    ensures scratch { space.new.scratch ≡ space.old.scratch }
{
    knows_sizes(space);
    space.poke(segment, offset, value);
}

/// Writes a byte of a header that stands below segment C000h, in RAM: at an offset, below 16, of its paragraph.
#[inline(always)]
fn set_low_byte(space: &mut Space, segment: u16, offset: u16, value: u8)
    requires offset { offset < 16 }
    requires low { segment < 0xC000 }
    ensures memory { IsPoked space.old.memory (16 * segment + offset) value space.new.memory }
    ensures scratch { space.new.scratch ≡ space.old.scratch }
{
    knows_sizes(space);
    let at = segment as u32 * 16 + offset as u32;
    space.set_low_byte(segment, offset, at, value);
}

/// Writes a word of a header that stands below segment C000h, in RAM, low byte first: at an offset, below 15, of its
/// paragraph.
#[inline(always)]
fn set_low_word(space: &mut Space, segment: u16, offset: u16, value: u16)
    requires offset { offset < 15 }
    requires low { segment < 0xC000 }
    ensures memory { (M : Memory) × IsPoked space.old.memory (16 * segment + offset) (value % 256) M ×
        IsPoked M (16 * segment + (offset + 1)) (value / 256) space.new.memory }
    ensures scratch { space.new.scratch ≡ space.old.scratch }
{
    knows_sizes(space);
    let at = segment as u32 * 16 + offset as u32;
    space.set_low_word(segment, offset, at, value);
}

/// Does what `write_header` does, for a header below segment C000h.
#[inline(always)]
fn write_low_header(space: &mut Space, listed: ListedHeader)
    requires fits { next listed.header ≤ 0xFFFF }
    requires low { listed.header.segment < 0xC000 }
    ensures memory { IsHeaderWritten space.old.memory listed.header (signature_byte listed.last) space.new.memory }
    ensures scratch { space.new.scratch ≡ space.old.scratch }
{
    let segment = listed.header.segment;
    set_low_byte(space, segment, 0, listed.signature());
    set_low_word(space, segment, 1, listed.header.owner);
    set_low_word(space, segment, 3, listed.header.size);
}

/// Does what `write_header` does, byte by byte, wherever the header stands.
#[cold]
#[inline(never)]
fn write_high_header(space: &mut Space, listed: ListedHeader)
    requires { next listed.header ≤ 0xFFFF }
    ensures memory { IsHeaderWritten space.old.memory listed.header (signature_byte listed.last) space.new.memory }
    ensures scratch { space.new.scratch ≡ space.old.scratch }
{
    let segment = listed.header.segment;
    let owner = listed.header.owner;
    let size = listed.header.size;
    set_byte(space, segment, 0, listed.signature());
    set_byte(space, segment, 1, (owner % 256) as u8);
    set_byte(space, segment, 2, (owner / 256) as u8);
    set_byte(space, segment, 3, (size % 256) as u8);
    set_byte(space, segment, 4, (size / 256) as u8);
}

/// Writes a header's five bytes: signature (`Z` if it is marked last, else `M`), owner and size. Nothing else changes.
pub(crate) fn write_header(space: &mut Space, listed: ListedHeader)
    requires { next listed.header ≤ 0xFFFF }
    ensures memory { IsHeaderWritten space.old.memory listed.header (signature_byte listed.last) space.new.memory }
    ensures scratch { space.new.scratch ≡ space.old.scratch }
{
    if listed.header.segment < END {
        write_low_header(space, listed);
    } else {
        write_high_header(space, listed);
    }
}

/// Whether memory has a header, with its signature, at its segment.
#[inline(always)]
fn has_header(space: &Space, listed: ListedHeader) -> bool
    ensures { OnTrue result (IsHeader space.now.memory listed.header (signature_byte listed.last)) }
{
    let Some(there) = header_at(space, listed.header.segment) else {
        return false;
    };
    there == listed
}

/// Does what [`write_header`] does, and writes nothing where memory has the header already.
#[inline(always)]
pub(crate) fn put_header(space: &mut Space, listed: ListedHeader)
    requires { next listed.header ≤ 0xFFFF }
    ensures memory { IsHeaderWritten space.old.memory listed.header (signature_byte listed.last) space.new.memory }
    ensures scratch { space.new.scratch ≡ space.old.scratch }
{
    if has_header(space, listed) {
        return;
    }
    write_header(space, listed);
}
