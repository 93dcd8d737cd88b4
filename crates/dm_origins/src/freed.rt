//! Which memory of the arena a step freed (MS-DOS Programmer's Reference, "Arena header"), by paragraphs below 10000h.

ghost use Rattle.std.specs.Prelude.{◌≡◌, ◌+◌, ◌<◌, ◌≤◌, ◌&&◌, not, ℕ, IsTrue, true, length};
ghost use Rattle.dm_origins.specs.Origins.{each_from, covers, is_free_in, freed_in};
ghost use Rattle.dm_origins.specs.inner.Freed.{within, Frees};

use crate::chunks::Chunks;
use dm_blocks::Header;
use dm_findings::Origin;

/// The last paragraph that is looked at.
const LAST: usize = 0xFFFF;

/// Whether the block is free, and the paragraph is its header or in its memory.
fn covers(header: &Header, paragraph: usize) -> bool
    ensures { result ≡ covers paragraph header.now }
{
    let first = header.segment as usize;
    header.owner == 0 && !(paragraph < first) && !(first + (header.size as usize) < paragraph)
}

/// Whether the paragraph is the header or in the memory of a free block of the list.
fn is_free_in(headers: &[Header], paragraph: usize) -> bool
    ensures { result ≡ is_free_in headers.now paragraph }
{
    headers.iter().any(|header| covers(header, paragraph))
}

/// The last paragraph, up to `end`, for which one block answers as it does for `at`.
fn end_within(header: &Header, at: usize, end: usize) -> usize
    requires { at ≤ end }
    ensures from { at ≤ result }
    ensures to { result ≤ end }
    ensures same { (p : ℕ) → at ≤ p → p ≤ result → covers p header.now ≡ covers at header.now }
{
    let first = header.segment as usize;
    let last = first + header.size as usize;
    if at < first {
        return end.min(first - 1);
    }
    if at <= last {
        return end.min(last);
    }
    end
}

/// The last paragraph, up to `last`, that is free as `at` is, or is not, as all between them.
fn same_until(headers: &[Header], at: usize, last: usize) -> usize
    requires { at ≤ last }
    ensures from { at ≤ result }
    ensures to { result ≤ last }
    ensures same { (p : ℕ) → at ≤ p → p ≤ result → is_free_in headers.now p ≡ is_free_in headers.now at }
{
    let mut end = last;
    for header in headers {
        end = end_within(header, at, end);
    }
    end
}

/// Sets the origin of a run of paragraphs from `at` on, up to `last` at most, if they were not free in the list `old`.
/// Returns the paragraph after it.
fn free_run(freed: &mut Chunks, old: &[Header], at: usize, last: usize, origin: Origin) -> usize
    requires count { length freed.old ≡ 0x10000 }
    requires order { at ≤ last }
    requires fits { last < 0x10000 }
    ensures more { at < result }
    ensures most { result ≤ last + 1 }
    ensures frees { Frees (λ p. within at result p && not (is_free_in old.now p)) origin freed.old freed.new }
{
    let end = same_until(old, at, last) + 1;
    if !is_free_in(old, at) {
        freed.set(at, end, origin);
    }
    end
}

/// Sets the origin of the paragraphs of a block, if it is free, that were not free in the list `old`.
fn free_block(freed: &mut Chunks, old: &[Header], block: &Header, origin: Origin)
    requires { length freed.old ≡ 0x10000 }
    ensures { Frees (λ p. covers p block.now && not (is_free_in old.now p)) origin freed.old freed.new }
{
    if block.owner != 0 {
        return;
    }
    let first = block.segment as usize;
    let last = (first + block.size as usize).min(LAST);
    let mut at = first;
    while at <= last {
        at = free_run(freed, old, at, last, origin);
    }
}

/// Whether the block lies in the block number `near` of the list, and that is free. False is no statement.
fn lies_in(old: &[Header], near: usize, block: &Header) -> bool
    ensures { IsTrue result → (p : ℕ) → covers p block.now ≡ true → is_free_in old.now p ≡ true }
{
    match old.get(near) {
        Some(header) => {
            header.owner == 0
                && header.segment <= block.segment
                && block.segment as u32 + block.size as u32
                    <= header.segment as u32 + header.size as u32
        }
        None => false,
    }
}

/// The number of the last of the blocks from number `near` on that rise up to the segment. Where a list is in the order
/// of its segments, the block there begins at the segment or before it.
fn number_near(old: &[Header], near: usize, segment: u16) -> usize
    requires { near ≤ length old.now }
    ensures { result ≤ length old.now }
{
    let mut number = near;
    while number + 1 < old.len() && old[number + 1].segment <= segment {
        number += 1;
    }
    number
}

/// Does what [`free_block`] does; it asks the block number `near` of the list `old` first, in which most blocks lie
/// that were free.
fn free_near(freed: &mut Chunks, old: &[Header], near: usize, block: &Header, origin: Origin)
    requires { length freed.old ≡ 0x10000 }
    ensures { Frees (λ p. covers p block.now && not (is_free_in old.now p)) origin freed.old freed.new }
{
    if lies_in(old, near, block) {
        return;
    }
    free_block(freed, old, block, origin);
}

/// Sets the origin of the paragraphs that are free in the list `new`, and were not in the list `old`.
pub(crate) fn free_all(freed: &mut Chunks, old: &[Header], new: &[Header], origin: Origin)
    requires { length freed.old ≡ 0x10000 }
    ensures { freed.new ≡ each_from (freed_in old.now new.now origin) 0 freed.old }
{
    let mut near = 0;
    for block in new {
        near = number_near(old, near, block.segment);
        free_near(freed, old, near, block, origin);
    }
}
