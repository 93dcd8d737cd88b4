//! The findings about what a step did to the headers of the arena: overwritten, or mapped away. `headers`, `copy`
//! and `windows` are those before the step, `space` is memory after it. Each function `put_..` appends its findings to
//! `out`; an `Err` is a failed allocation.

ghost use Rattle.std.specs.Prelude.{◌≡◌, ◌++◌, ◌+◌, ◌*◌, ◌<◌, ℕ, All, map, slice_index, OnOk};
ghost use Rattle.std.specs.List.{flat_map};
ghost use Rattle.dm_space.specs.Memory.{Memory};
ghost use Rattle.dm_checker.specs.Headers.{shown_at, same_contents, overwritten, mapped_away};
ghost use Rattle.dm_checker.specs.ArenaCopy.{IsBits, IsHeaderCopy, header_of};
ghost use Rattle.dm_checker.specs.inner.ArenaCopy.{IsKept, contents_by};

use crate::arena_copy::{HeaderCopy, bits_at};
use dm_findings::{Contents, Finding};
use dm_origins::outcomes::append_finding;
use dm_pool::Block;
use dm_space::Space;
use std::alloc::AllocError;

/// The first segment of the page frame.
const FRAME: u16 = 0xE000;

/// The last segment of the page frame.
const FRAME_END: u16 = 0xEFFF;

/// The size of a page, in paragraphs.
const PAGE: usize = 0x400;

/// The signature, owner and size of a header, from its bytes 0 to 4 as a number with the first byte lowest.
fn contents_of(bits: u64) -> Contents
    ensures { (m : Memory) (segment : ℕ) → IsBits m segment bits → result ≡ shown_at m segment }
{
    Contents {
        signature: (bits % 256) as u8,
        owner: (bits / 256 % 65536) as u16,
        size: (bits / 0x100_0000 % 65536) as u16,
    }
}

/// The byte at an index of the bytes of a pool block, a page that a window showed; 0 past its end.
fn byte_in(bytes: &[u8], at: usize) -> u8
    ensures { result ≡ slice_index bytes.now at }
{
    match bytes.get(at) {
        Some(byte) => *byte,
        None => 0,
    }
}

/// The word at an index of the bytes of a pool block, low byte first; bytes past its end count as 0.
fn word_in(bytes: &[u8], at: usize) -> u16
    requires { at < 0x8000 }
    ensures { result ≡ slice_index bytes.now at + 256 * slice_index bytes.now (at + 1) }
{
    byte_in(bytes, at) as u16 + 256 * byte_in(bytes, at + 1) as u16
}

/// The signature, owner and size of a header that stands in the page frame, at an index of the bytes of its pool block.
fn contents_in(bytes: &[u8], at: usize) -> Contents
    requires { at < 0x4000 }
    ensures { result ≡ contents_by bytes.now at }
{
    Contents {
        signature: byte_in(bytes, at),
        owner: word_in(bytes, at + 1),
        size: word_in(bytes, at + 3),
    }
}

/// The contents that memory now has at the places where the header at `segment` stood while the windows showed these
/// blocks of the pool: FFh throughout in a window that showed no block; None if the block that the window showed was
/// freed. Outside the frame, segments E000h to EFFFh, the windows do not matter.
fn kept_of(space: &Space, windows: &[Option<Block>; 4], segment: u16) -> Option<Contents>
    ensures { (S : Memory) → windows.now ≡ S.windows → IsKept S space.now.memory segment result }
{
    if segment < FRAME || segment > FRAME_END {
        return Some(contents_of(bits_at(space, segment)));
    }
    let at = (segment - FRAME) as usize;
    let Some(block) = windows[at / PAGE] else {
        return Some(Contents {
            signature: 0xFF,
            owner: 0xFFFF,
            size: 0xFFFF,
        });
    };
    if !space.has(block) {
        return None;
    }
    Some(contents_in(space.bytes(block), at % PAGE * 16))
}

/// Whether two headers have the same signature, owner and size.
fn is_same(first: Contents, second: Contents) -> bool
    ensures { result ≡ same_contents first second }
{
    first.signature == second.signature && first.owner == second.owner && first.size == second.size
}

/// Appends that a header was overwritten, if its signature, owner or size has changed at the places where it stood
/// before the step and the page that it stood in, if any, was not freed.
fn put_overwritten(
    out: &mut Vec<Finding>,
    space: &Space,
    windows: &[Option<Block>; 4],
    copy: &HeaderCopy,
) -> Result<(), AllocError>
    ensures { OnOk result ((S : Memory) → windows.now ≡ S.windows → IsHeaderCopy S copy.now →
        out.new.items ≡ out.old.items ++ overwritten S space.now.memory copy.now.header) }
{
    let Some(kept) = kept_of(space, windows, copy.header.segment) else {
        return Ok(());
    };
    let old = contents_of(copy.bits);
    if is_same(kept, old) {
        return Ok(());
    }
    append_finding(out, Finding::Overwritten(copy.header.segment, old, kept))
}

/// Appends that a header was mapped away, if its page was freed or its segment now shows another signature, owner or
/// size than the places where it stood before the step.
fn put_mapped_away(
    out: &mut Vec<Finding>,
    space: &Space,
    windows: &[Option<Block>; 4],
    copy: &HeaderCopy,
) -> Result<(), AllocError>
    ensures { OnOk result ((S : Memory) → windows.now ≡ S.windows → IsHeaderCopy S copy.now →
        out.new.items ≡ out.old.items ++ mapped_away S space.now.memory copy.now.header) }
{
    if let Some(kept) = kept_of(space, windows, copy.header.segment) {
        let shown = contents_of(bits_at(space, copy.header.segment));
        if is_same(kept, shown) {
            return Ok(());
        }
    }
    append_finding(out, Finding::MappedAway(copy.header.segment))
}

/// Appends which headers were overwritten, in their order.
pub(crate) fn put_all_overwritten(
    out: &mut Vec<Finding>,
    space: &Space,
    windows: &[Option<Block>; 4],
    headers: &[HeaderCopy],
) -> Result<(), AllocError>
    ensures { OnOk result ((S : Memory) → windows.now ≡ S.windows → All (IsHeaderCopy S) headers.now →
        out.new.items ≡ out.old.items ++ flat_map (overwritten S space.now.memory) (map header_of headers.now)) }
{
    for copy in headers {
        put_overwritten(out, space, windows, copy)?;
    }
    Ok(())
}

/// Appends which headers were mapped away, in their order.
pub(crate) fn put_all_mapped_away(
    out: &mut Vec<Finding>,
    space: &Space,
    windows: &[Option<Block>; 4],
    headers: &[HeaderCopy],
) -> Result<(), AllocError>
    ensures { OnOk result ((S : Memory) → windows.now ≡ S.windows → All (IsHeaderCopy S) headers.now →
        out.new.items ≡ out.old.items ++ flat_map (mapped_away S space.now.memory) (map header_of headers.now)) }
{
    for copy in headers {
        put_mapped_away(out, space, windows, copy)?;
    }
    Ok(())
}
