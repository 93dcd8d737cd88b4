//! Regions of memory that are moved or exchanged (LIM EMS 4.0, function 24; INT 67h function 57h). They overlap where
//! they share a byte of memory or ROM; an address without memory is none.

ghost use Rattle.std.specs.Prelude.{◌≡◌, ◌≤◌, ◌<◌, ◌+◌, length, IfOk, OnErr};
ghost use Rattle.dm_ems.specs.Tables.{expanded, blocks_of, page_count};
ghost use Rattle.dm_ems_move.specs.inner.Listed.{HasBlocks};
ghost use Rattle.dm_ems.specs.Consistent.{IsConsistent};
ghost use Rattle.dm_ems.specs.Calls.{result_of, state_after};
ghost use Rattle.dm_space.specs.moves.Spans.{IsInside};
ghost use Rattle.dm_ems_move.specs.RegionMoves.{length_at, conventional, expanded_region, region_of, regions_of, described, is_linear, are_mixed, move_between, exchange_between, move_region, exchange_region, moved_code};

use crate::description::{DESTINATION, Description, SOURCE, described, length_at};
use arrayvec::ArrayVec;
use dm_ems::{Ems, Status};
use dm_pool::Block;
use dm_space::Space;
use dm_space::moves::{Span, SpanKind, exchange_bytes, move_bytes, overlap};

/// The largest number of bytes that a call moves or exchanges: 1 MiB.
const MOST: usize = 0x10_0000;

/// The linear address at which conventional memory ends: 1 MiB.
const END: usize = 0x10_0000;

/// The number of bytes of a page.
const PAGE: usize = 0x4000;

/// The result of a move that succeeds.
#[derive(Clone, Copy, Debug, PartialEq, Eq)]
pub enum Moved {
    /// The two regions share no byte of memory or ROM.
    Apart,
    /// They share such bytes; all were read before any was written.
    Overlapping,
}

impl Moved {
    /// The status byte that the call returns in AH: 0, or 92h for an overlap.
    pub fn code(self) -> u8
        ensures { result ≡ moved_code self }
    {
        match self {
            Moved::Apart => 0,
            Moved::Overlapping => 0x92,
        }
    }
}

/// The region of `len` bytes of conventional memory that is described; `PastMemory` if it ends after FFFFFh.
fn conventional(described: Description, len: usize) -> Result<Span<'static>, Status>
    requires { len ≤ 0x100000 }
    ensures { result ≡ conventional described len }
{
    let start = described.page as usize * 16 + described.offset as usize;
    if start + len > END {
        return Err(Status::PastMemory);
    }
    Ok(Span::of_linear(start))
}

/// The blocks of the pages of the handle that the region has which is described `k` bytes after segment:offset; none
/// for conventional memory.
fn blocks_at(ems: &Ems, space: &Space, segment: u16, offset: u16, k: usize) -> ArrayVec<Block, 512>
    requires { k < 0x1000 }
    ensures { HasBlocks ems.now (described space.now.memory segment offset k) result.items }
{
    let described = described(space, segment, offset, k);
    // The proof needs that a list has at most 512 blocks, which the contract of `pages` states.
    let _pages = ems.pages();
    if described.kind == 0 {
        return ArrayVec::new();
    }
    ems.page_blocks(described.handle)
}

/// The number of the pages of a handle, whose blocks are given.
fn count_of(ems: &Ems, handle: u16, blocks: &[Block]) -> u16
    requires blocks { blocks.now ≡ blocks_of ems.now handle }
    requires few { length blocks.now ≤ 512 }
    ensures count { result ≡ page_count ems.now handle }
    ensures few { result ≤ 512 }
{
    let (_ems, _handle) = (ems, handle);
    blocks.len() as u16
}

/// The region of `len` bytes of a handle's pages, whose blocks are given, that is described; `UnknownHandle`,
/// `OffsetPastPage`, `NoSuchPage` or `PastPages`, in this order, if there is none.
fn expanded_region<'a>(
    ems: &Ems,
    described: Description,
    blocks: &'a [Block],
    len: usize,
) -> Result<Span<'a>, Status>
    requires len { len ≤ 0x100000 }
    requires blocks { blocks.now ≡ blocks_of ems.now described.handle }
    requires few { length blocks.now ≤ 512 }
    ensures { result ≡ expanded_region ems.now described len }
{
    if ems.slot(described.handle).is_none() {
        return Err(Status::UnknownHandle);
    }
    if described.offset > 0x3FFF {
        return Err(Status::OffsetPastPage);
    }
    let pages = count_of(ems, described.handle, blocks);
    if described.page >= pages {
        return Err(Status::NoSuchPage);
    }
    let start = described.page as usize * PAGE + described.offset as usize;
    if start + len > pages as usize * PAGE {
        return Err(Status::PastPages);
    }
    Ok(Span::of_pages(blocks, start))
}

/// The region of `len` bytes that is described: type 0 is conventional memory, type 1 pages of a handle, whose blocks
/// are given.
/// `UnknownKind` for another type, else the errors of the region's type.
#[tactic(auto, unfolding(crate::specs::RegionMoves::region_of))]
fn region_of<'a>(
    ems: &Ems,
    described: Description,
    blocks: &'a [Block],
    len: usize,
) -> Result<Span<'a>, Status>
    requires len { len ≤ 0x100000 }
    requires blocks { HasBlocks ems.now described blocks.now }
    ensures { result ≡ region_of ems.now described len }
{
    if described.kind > 1 {
        return Err(Status::UnknownKind);
    }
    if described.kind == 0 {
        conventional(described, len)
    } else {
        expanded_region(ems, described, blocks, len)
    }
}

/// The source and the destination, of `len` bytes each, that the structure at segment:offset describes; the source's
/// errors come first. The blocks of the pages of each are given, where it is one of pages.
#[tactic(auto, unfolding(crate::specs::RegionMoves::regions_of))]
fn regions_of<'a>(
    ems: &Ems,
    space: &Space,
    segment: u16,
    offset: u16,
    len: usize,
    sources: &'a [Block],
    destinations: &'a [Block],
) -> Result<(Span<'a>, Span<'a>), Status>
    requires len { len ≤ 0x100000 }
    requires sources { HasBlocks ems.now (described space.now.memory segment offset 4) sources.now }
    requires destinations { HasBlocks ems.now (described space.now.memory segment offset 11) destinations.now }
    ensures { result ≡ regions_of (expanded ems.now space.now.memory) segment offset len }
{
    let source = described(space, segment, offset, SOURCE);
    match region_of(ems, source, sources, len) {
        Ok(from) => {
            let destination = described(space, segment, offset, DESTINATION);
            match region_of(ems, destination, destinations, len) {
                Ok(to) => Ok((from, to)),
                Err(status) => Err(status),
            }
        }
        Err(status) => Err(status),
    }
}

/// Whether a region is one of conventional memory.
fn is_linear(region: &Span<'_>) -> bool
    ensures { result ≡ is_linear region.now.kind }
{
    match region.kind() {
        SpanKind::Linear => true,
        SpanKind::Pages => false,
        SpanKind::Single => false,
    }
}

/// Whether one region is of conventional memory and the other is not.
fn are_mixed(from: &Span<'_>, to: &Span<'_>) -> bool
    ensures { result ≡ are_mixed from.now to.now }
{
    if is_linear(from) {
        !is_linear(to)
    } else {
        is_linear(to)
    }
}

/// Copies `len` bytes of `from` to `to`; all are read before the first is written. Returns whether the regions overlap;
/// `KindsOverlap` where two of different types do. The scratch part may be overwritten; after an error nothing has
/// changed.
#[tactic(auto, unfolding(crate::specs::RegionMoves::move_between))]
fn move_between(
    ems: &Ems,
    space: &mut Space,
    len: usize,
    from: &Span<'_>,
    to: &Span<'_>,
) -> Result<Moved, Status>
    requires len { len ≤ 0x100000 }
    requires from { IsInside space.old.memory from.now len }
    requires to { IsInside space.old.memory to.now len }
    ensures answer { result ≡ result_of (move_between (expanded ems.now space.old.memory) len from.now to.now) }
    ensures left { expanded ems.now space.new.memory ≡ state_after (expanded ems.now space.old.memory) (move_between
        (expanded ems.now space.old.memory) len from.now to.now) }
    ensures refused { OnErr result (space.new ≡ space.old) }
{
    if !overlap(space, from, to, len) {
        move_bytes(space, from, to, len);
        return Ok(Moved::Apart);
    }
    if are_mixed(from, to) {
        return Err(Status::KindsOverlap);
    }
    move_bytes(space, from, to, len);
    Ok(Moved::Overlapping)
}

/// Exchanges the `len` bytes of two regions. Where they overlap, `KindsOverlap` if they are of different types, else
/// `ExchangeOverlaps`. The scratch part may be overwritten; after an error nothing has changed.
#[tactic(auto, unfolding(crate::specs::RegionMoves::exchange_between))]
fn exchange_between(
    ems: &Ems,
    space: &mut Space,
    len: usize,
    from: &Span<'_>,
    to: &Span<'_>,
) -> Result<(), Status>
    requires len { len ≤ 0x100000 }
    requires from { IsInside space.old.memory from.now len }
    requires to { IsInside space.old.memory to.now len }
    ensures answer { result ≡ result_of (exchange_between (expanded ems.now space.old.memory) len from.now to.now) }
    ensures left { expanded ems.now space.new.memory ≡ state_after (expanded ems.now space.old.memory) (exchange_between
        (expanded ems.now space.old.memory) len from.now to.now) }
    ensures refused { OnErr result (space.new ≡ space.old) }
{
    if !overlap(space, from, to, len) {
        exchange_bytes(space, from, to, len);
        return Ok(());
    }
    if are_mixed(from, to) {
        Err(Status::KindsOverlap)
    } else {
        Err(Status::ExchangeOverlaps)
    }
}

/// 57h, AL = 0: moves bytes between regions of conventional memory and of pages of handles. The structure at
/// segment:offset has eighteen bytes: the length in bytes (a double word), and for the source and then the
/// destination a type (a byte: 0 conventional memory, 1 pages), a handle, an offset (in the segment or in the page),
/// and a segment or a logical page (words). The source is read whole before anything is written; `Overlapping` says
/// that the regions overlap. The scratch bytes of the space may be overwritten.
///
/// A length of 0 is `Apart`, whatever else the structure says, and the scratch bytes stay.
///
/// # Errors
///
/// In this order: `TooLong` over 1 MiB; for the source and then the destination `UnknownKind` for another type, in
/// conventional memory `PastMemory` where the region ends after FFFFFh, in pages `UnknownHandle`, `OffsetPastPage`,
/// `NoSuchPage`, `PastPages` where the region ends after the handle's pages; `KindsOverlap` where a region of
/// conventional memory shares a byte with one of pages. Then neither memory nor the scratch bytes have changed.
#[tactic(auto, unfolding(crate::specs::RegionMoves::move_region))]
pub fn move_region(ems: &Ems, space: &mut Space, segment: u16, offset: u16) -> Result<Moved, Status>
    requires { IsConsistent (expanded ems.now space.old.memory) }
    ensures answer { result ≡ result_of (move_region (expanded ems.now space.old.memory) segment offset) }
    ensures left { expanded ems.now space.new.memory ≡ state_after (expanded ems.now space.old.memory) (move_region
        (expanded ems.now space.old.memory) segment offset) }
    ensures refused { OnErr result (space.new ≡ space.old) }
    ensures none { length_at space.old.memory segment offset ≡ 0 → space.new ≡ space.old }
{
    let len = length_at(space, segment, offset);
    if len == 0 {
        // Nothing is read, so the scratch bytes stay.
        return Ok(Moved::Apart);
    }
    if len > MOST {
        return Err(Status::TooLong);
    }
    // The proof needs that there are at most 512 pages, which the contract of `pages` states.
    let _pages = ems.pages();
    let sources = blocks_at(ems, space, segment, offset, SOURCE);
    let destinations = blocks_at(ems, space, segment, offset, DESTINATION);
    let regions = regions_of(
        ems,
        space,
        segment,
        offset,
        len,
        sources.as_slice(),
        destinations.as_slice(),
    );
    match regions {
        Ok((from, to)) => move_between(ems, space, len, &from, &to),
        Err(status) => Err(status),
    }
}

/// 57h, AL = 1: exchanges the bytes of two regions, which are described as for [`move_region`]. Both are read whole
/// before anything is written. The scratch bytes of the space may be overwritten, unless the length is 0: then nothing
/// changes.
///
/// # Errors
///
/// Those of [`move_region`] in their order; then `ExchangeOverlaps` where the regions overlap. Then neither memory nor
/// the scratch bytes have changed.
#[tactic(auto, unfolding(crate::specs::RegionMoves::exchange_region))]
pub fn exchange_region(
    ems: &Ems,
    space: &mut Space,
    segment: u16,
    offset: u16,
) -> Result<(), Status>
    requires { IsConsistent (expanded ems.now space.old.memory) }
    ensures answer { result ≡ result_of (exchange_region (expanded ems.now space.old.memory) segment offset) }
    ensures left { expanded ems.now space.new.memory ≡ state_after (expanded ems.now space.old.memory) (exchange_region
        (expanded ems.now space.old.memory) segment offset) }
    ensures refused { OnErr result (space.new ≡ space.old) }
    ensures none { length_at space.old.memory segment offset ≡ 0 → space.new ≡ space.old }
{
    let len = length_at(space, segment, offset);
    if len == 0 {
        return Ok(());
    }
    if len > MOST {
        return Err(Status::TooLong);
    }
    // The proof needs that there are at most 512 pages, which the contract of `pages` states.
    let _pages = ems.pages();
    let sources = blocks_at(ems, space, segment, offset, SOURCE);
    let destinations = blocks_at(ems, space, segment, offset, DESTINATION);
    let regions = regions_of(
        ems,
        space,
        segment,
        offset,
        len,
        sources.as_slice(),
        destinations.as_slice(),
    );
    match regions {
        Ok((from, to)) => exchange_between(ems, space, len, &from, &to),
        Err(status) => Err(status),
    }
}
