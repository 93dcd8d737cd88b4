//! The headers of the arena as records (MS-DOS Programmer's Reference, "Arena header"). An `Err` is a failed
//! allocation.
ghost use Rattle.std.specs.Prelude.{◌≡◌, ◌++◌, false, IfOk, List, None, Some};
ghost use Rattle.dm_blocks.specs.declared.header.Header.{Header};
ghost use Rattle.dm_blocks.specs.Chain.{first_header, link_header, signature_byte, IsArena};
ghost use Rattle.dm_blocks.specs.Listing.{start_of};
ghost use Rattle.dm_views.specs.inventory.Arena.{block_record, IsListed, IsListedArena};
ghost use Rattle.dm_views.specs.inventory.inner.Telling.{TellsList, end_of};

use dm_blocks::{Headers, ListedHeader, Met, is_linked, walk};
use dm_space::Space;
use std::alloc::AllocError;

/// The list that begins at segment 0100h, and that of upper memory, as records name them.
const FIRST: u8 = 0;

const SECOND: u8 = 1;

/// A header of the arena: its own segment, its owner (0 for a free block, 8 for DOS, otherwise the segment of a
/// program's prefix), the size of its block in paragraphs, its signature (5Ah, `Z`, in the last header of its list,
/// otherwise 4Dh, `M`), and its list (0 for the first one, 1 for that of upper memory where the first does not lead to
/// it).
#[repr(C)]
#[derive(Clone, Copy, Debug, PartialEq, Eq)]
pub struct ArenaBlock {
    pub segment: u16,
    pub owner: u16,
    pub size: u16,
    pub signature: u8,
    pub list: u8,
}

/// How a walk over a list has ended.
#[derive(Drop)]
pub(crate) enum Walked<'a> {
    /// All headers were met, and the walk is at the end of the list.
    Over(Headers<'a>),
    /// The list breaks at this segment, where no header can follow.
    Broken(u16),
}

/// The record of a header.
fn block_of(entry: ListedHeader, list: u8) -> ArenaBlock
    ensures { result ≡ block_record list (signature_byte entry.last) entry.header }
{
    ArenaBlock {
        segment: entry.header.segment,
        owner: entry.header.owner,
        size: entry.header.size,
        signature: entry.signature(),
        list,
    }
}

/// Appends the record of each header of the list that a walk is at the start of, and returns how the walk has ended.
fn put_list<'a>(
    out: &mut Vec<ArenaBlock>,
    headers: Headers<'a>,
    list: u8,
) -> Result<Walked<'a>, AllocError>
    requires { headers.at ≡ Some (start_of headers.second) }
    ensures { IfOk result (λ walked. TellsList headers.entry list walked out.old.items out.new.items) }
{
    let mut told = headers;
    'walk: loop {
        match told.advance() {
            Met::Told(entry) => out.push(block_of(entry, list))?,
            Met::End => return Ok(Walked::Over(told)),
            Met::Destroyed(segment) => return Ok(Walked::Broken(segment)),
        }
    }
}

/// The segment where a walk has found its list broken; None if it is whole.
fn end_of(walked: Walked<'_>) -> Option<u16>
    ensures { result ≡ end_of walked.entry }
{
    match walked {
        Walked::Over(_) => None,
        Walked::Broken(segment) => Some(segment),
    }
}

/// Appends the records of the second list, that of upper memory, and returns the segment where it breaks. `first` is
/// the walk at the end of the first list.
fn put_second(out: &mut Vec<ArenaBlock>, first: Headers<'_>) -> Result<Option<u16>, AllocError>
    requires first { first.second ≡ false }
    requires over { first.at ≡ None }
    ensures { IfOk result (λ broken. (records : List ArenaBlock) × (out.new.items ≡ out.old.items ++ records) ×
        ((L : List Header) → IsArena first.entry.memory first_header L →
        IsListed first.entry.memory L link_header 1 records broken)) }
{
    let walked = put_list(out, first.walk_second(), SECOND)?;
    Ok(end_of(walked))
}

/// Appends the record of each header of the arena, in the order of the lists, and returns the segment where a list
/// breaks, as no header can follow there; None if all is whole. If upper memory belongs to the arena (`upper`) and the
/// first list is whole but does not lead to it, the second list follows, from the link block on. There are at most
/// FF00h headers in a list.
///
/// # Errors
///
/// A failed allocation.
pub fn list_arena(
    out: &mut Vec<ArenaBlock>,
    space: &Space,
    upper: bool,
) -> Result<Option<u16>, AllocError>
    ensures { IfOk result (λ broken. (records : List ArenaBlock) × (out.new.items ≡ out.old.items ++ records) ×
        IsListedArena upper space.now.memory records broken) }
{
    let first = match put_list(out, walk(space), FIRST)? {
        Walked::Over(first) => first,
        Walked::Broken(segment) => return Ok(Some(segment)),
    };
    if upper && !is_linked(space) {
        return put_second(out, first);
    }
    Ok(None)
}
