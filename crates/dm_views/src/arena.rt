//! The listing of the arena's headers (MS-DOS Programmer's Reference, "Arena header"). Each function `put_..` appends
//! its text to `out`; an `Err` is a failed allocation.

ghost use Rattle.std.specs.Prelude.{◌≡◌, ◌++◌, ◌∷◌, [], false, IfOk, List, None, OnOk, Some, ℕ};
ghost use Rattle.dm_blocks.specs.declared.header.Header.{Header};
ghost use Rattle.dm_blocks.specs.Chain.{first_header, link_header, signature_byte, IsArena};
ghost use Rattle.dm_blocks.specs.Listing.{start_of};
ghost use Rattle.dm_views.specs.Digits.{four_digits};
ghost use Rattle.dm_views.specs.Arena.{header_line, end_line, destroyed_line, unlinked_line, IsArenaText, IsListText};
ghost use Rattle.dm_views.specs.inner.Telling.{TellsList};

use crate::digits::word_digits;
use dm_blocks::{Headers, ListedHeader, Met, is_linked, walk};
use dm_space::Space;
use std::alloc::AllocError;

/// The signature byte of an arena header: `Z` for the last one of its list, `M` for any other.
fn signature(last: bool) -> u8
    ensures { result ≡ signature_byte last }
{
    if last { b'Z' } else { b'M' }
}

/// Appends the line of a header: segment, signature, owner and size in paragraphs.
fn put_entry(out: &mut Vec<u8>, entry: ListedHeader) -> Result<(), AllocError>
    ensures { OnOk result (out.new.items ≡ out.old.items ++ header_line (signature_byte entry.last) entry.header) }
{
    out.extend_from_slice(&word_digits(entry.header.segment))?;
    out.extend_from_slice(&[b' ', signature(entry.last), b' '])?;
    out.extend_from_slice(&word_digits(entry.header.owner))?;
    out.extend_from_slice(b" ")?;
    out.extend_from_slice(&word_digits(entry.header.size))?;
    out.extend_from_slice(b"\n")
}

/// Appends the line `end`, which follows the last header of a whole list.
fn put_end(out: &mut Vec<u8>) -> Result<(), AllocError>
    ensures { OnOk result (out.new.items ≡ out.old.items ++ end_line) }
{
    out.extend_from_slice(b"end\n")
}

/// Appends the four hexadecimal digits of a word, the segment in the line `destroyed at`, and a line feed.
fn put_word_line(out: &mut Vec<u8>, word: u16) -> Result<(), AllocError>
    ensures { OnOk result (out.new.items ≡ out.old.items ++ (four_digits word ++ 10 ∷ [])) }
{
    out.extend_from_slice(&word_digits(word))?;
    out.extend_from_slice(b"\n")
}

/// Appends the line `destroyed at` with the segment where the list breaks.
fn put_destroyed(out: &mut Vec<u8>, segment: u16) -> Result<(), AllocError>
    ensures { OnOk result (out.new.items ≡ out.old.items ++ destroyed_line segment) }
{
    out.extend_from_slice(b"destroyed at ")?;
    put_word_line(out, segment)
}

/// Appends a line for each header of the list that a walk is at the start of: segment, signature, owner and size in
/// paragraphs; then `end`, or `destroyed at` with the segment where the list breaks. Returns the walk at the end of its
/// list; None if the list breaks.
fn put_list<'a>(out: &mut Vec<u8>, headers: Headers<'a>) -> Result<Option<Headers<'a>>, AllocError>
    requires { headers.at ≡ Some (start_of headers.second) }
    ensures { IfOk result (λ rest. TellsList headers.entry rest out.old.items out.new.items) }
{
    let mut told = headers;
    'walk: loop {
        match told.advance() {
            Met::Told(entry) => put_entry(out, entry)?,
            Met::End => {
                put_end(out)?;
                return Ok(Some(told));
            }
            Met::Destroyed(segment) => {
                put_destroyed(out, segment)?;
                return Ok(None);
            }
        }
    }
}

/// Appends the line `unlinked` and the listing of the second list, that of upper memory. `first` is the walk at the end
/// of the first list.
fn put_unlinked(out: &mut Vec<u8>, first: Headers<'_>) -> Result<(), AllocError>
    requires first { first.second ≡ false }
    requires over { first.at ≡ None }
    ensures { OnOk result ((text : List ℕ) × (out.new.items ≡ out.old.items ++ (unlinked_line ++ text)) ×
        ((L : List Header) → IsArena first.entry.memory first_header L →
        IsListText first.entry.memory L link_header text)) }
{
    out.extend_from_slice(b"unlinked\n")?;
    put_list(out, first.walk_second())?;
    Ok(())
}

/// Appends a line for each header of the arena: segment, signature, owner and size in paragraphs; then `end`, or
/// `destroyed at` with the segment of the first header that breaks the list. If upper memory belongs to the arena
/// (`upper`) and the first list is whole but not linked with that of upper memory, `unlinked` follows and the second
/// list, from the link block on, in the same form; a header that shares a place with one of the first list breaks it.
/// There are at most FF00h headers in a list.
///
/// # Errors
///
/// A failed allocation.
pub fn put_arena(out: &mut Vec<u8>, space: &Space, upper: bool) -> Result<(), AllocError>
    ensures { OnOk result ((text : List ℕ) × (out.new.items ≡ out.old.items ++ text) ×
        IsArenaText upper space.now.memory text) }
{
    let Some(first) = put_list(out, walk(space))? else {
        return Ok(());
    };
    if upper && !is_linked(space) {
        return put_unlinked(out, first);
    }
    Ok(())
}
