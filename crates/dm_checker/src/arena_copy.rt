//! The headers of the arena as they were last read, and whether memory still shows them.

ghost use Rattle.std.specs.Prelude.{◌≡◌, ◌≢◌, All, false, IfOk, MatchBool, None, Some};
ghost use Rattle.dm_blocks.specs.Listing.{start_of};
ghost use Rattle.dm_checker.specs.ArenaCopy.{IsBits, IsHeaderCopy, IsArenaCopy, IsBrokenIn};
ghost use Rattle.dm_checker.specs.inner.ArenaCopy.{IsSeen, Collects, CollectsSecond, CollectsAll};

use crate::marking::marks_of;
use dm_blocks::{Header, Headers, Met, is_linked, walk};
use dm_machine::Machine;
use dm_pool::Block;
use dm_space::Space;
use dm_touches::quiet::Marks;
use std::alloc::{AllocError, Global};

/// 2^40: a number below it has five bytes.
const FIVE: u64 = 0x100_0000_0000;

/// A header as it was read, and its bytes 0 to 4 as a number, the first byte lowest.
#[derive(Clone, Copy)]
pub(crate) struct HeaderCopy {
    pub(crate) header: Header,
    pub(crate) bits: u64,
}

/// The segment where a list breaks, and the five bytes there as a number, the first byte lowest.
#[derive(Clone, Copy)]
pub(crate) struct Broken {
    pub(crate) segment: u16,
    pub(crate) bits: u64,
}

/// What memory shows of the arena: the headers of its lists, where a list breaks (None: nowhere), whether upper memory
/// belongs to the arena, and what the windows show; and marks on the memory of which something may be found.
#[derive(Drop)]
pub(crate) struct ArenaCopy {
    pub(crate) headers: Vec<HeaderCopy>,
    pub(crate) broken: Option<Broken>,
    pub(crate) upper: bool,
    pub(crate) windows: [Option<Block>; 4],
    pub(crate) marks: Marks,
}

/// The five bytes at segment:0 as one number, the first byte lowest, read one by one.
#[inline(never)]
fn bits_of_each(space: &Space, segment: u16) -> u64
    ensures { IsBits space.now.memory segment result }
{
    let first = space.peek(segment, 0) as u64;
    let second = space.peek(segment, 1) as u64;
    let third = space.peek(segment, 2) as u64;
    let fourth = space.peek(segment, 3) as u64;
    let fifth = space.peek(segment, 4) as u64;
    first + 256 * (second + 256 * (third + 256 * (fourth + 256 * fifth)))
}

/// The five bytes at segment:0 as one number, the first byte lowest.
#[inline(always)]
pub(crate) fn bits_at(space: &Space, segment: u16) -> u64
    ensures { IsBits space.now.memory segment result }
{
    match space.eight_bytes(segment, 0) {
        Some(eight) => eight % FIVE,
        None => bits_of_each(space, segment),
    }
}

/// A header together with the five bytes that memory has at its segment.
fn copy_of(space: &Space, header: Header) -> HeaderCopy
    ensures copied { IsHeaderCopy space.now.memory result }
    ensures header { result.header ≡ header }
{
    HeaderCopy {
        header,
        bits: bits_at(space, header.segment),
    }
}

/// The segment where a list breaks, with the five bytes that memory has there.
fn broken_of(space: &Space, segment: u16) -> Broken
    ensures segment { result.segment ≡ segment }
    ensures bits { IsBits space.now.memory segment result.bits }
{
    Broken {
        segment,
        bits: bits_at(space, segment),
    }
}

/// Appends the headers of the list that a walk is at the start of. Returns the walk at the end of its list, or as an
/// inner `Err` the segment where the list breaks. The outer `Err` is a failed allocation.
fn collect<'a>(
    out: &mut Vec<HeaderCopy>,
    space: &Space,
    headers: Headers<'a>,
) -> Result<Result<Headers<'a>, u16>, AllocError>
    requires memory { headers.memory ≡ space.now.memory }
    requires at { headers.at ≡ Some (start_of headers.second) }
    ensures { IfOk result (λ rest. Collects headers.entry rest out.old.items out.new.items) }
{
    let mut walked = headers;
    'walk: loop {
        match walked.advance() {
            Met::Told(entry) => out.push(copy_of(space, entry.header))?,
            Met::End => return Ok(Ok(walked)),
            Met::Destroyed(segment) => return Ok(Err(segment)),
        }
    }
}

/// Appends the headers of the second list, that of upper memory; `first` is the walk at the end of the first list.
/// Returns where the second list breaks, or None. An `Err` is a failed allocation.
fn collect_second(
    out: &mut Vec<HeaderCopy>,
    space: &Space,
    first: Headers<'_>,
) -> Result<Option<Broken>, AllocError>
    requires memory { first.memory ≡ space.now.memory }
    requires second { first.second ≡ false }
    requires over { first.at ≡ None }
    ensures { IfOk result (λ broken. CollectsSecond space.now.memory broken out.old.items out.new.items) }
{
    match collect(out, space, first.walk_second())? {
        Ok(_) => Ok(None),
        Err(at) => Ok(Some(broken_of(space, at))),
    }
}

/// Appends the headers that memory shows of the arena: those of the first list, and, with upper memory in the arena
/// (`upper`) and the lists not linked, those of the second. Returns where a list breaks, or None. An `Err` is a failed
/// allocation.
fn collect_all(
    out: &mut Vec<HeaderCopy>,
    space: &Space,
    upper: bool,
) -> Result<Option<Broken>, AllocError>
    ensures { IfOk result (λ broken. CollectsAll upper space.now.memory broken out.old.items out.new.items) }
{
    let first = match collect(out, space, walk(space))? {
        Ok(first) => first,
        Err(at) => return Ok(Some(broken_of(space, at))),
    };
    if upper && !is_linked(space) {
        return collect_second(out, space, first);
    }
    Ok(None)
}

/// What a machine's memory shows of the arena. An `Err` is a failed allocation.
pub(crate) fn read_arena(alloc: Global, machine: &Machine) -> Result<ArenaCopy, AllocError>
    ensures { IfOk result (λ w. IsArenaCopy machine.now.upper machine.now.memory w) }
{
    let space = machine.space();
    let upper = machine.upper();
    let windows = space.windows();
    let mut headers = Vec::new(alloc);
    let broken = collect_all(&mut headers, space, upper)?;
    let marks = marks_of(alloc, &headers, &windows)?;
    Ok(ArenaCopy {
        headers,
        broken,
        upper,
        windows,
        marks,
    })
}

/// Whether memory still has the five bytes of each header as they were read.
fn are_seen(space: &Space, headers: &[HeaderCopy]) -> bool
    ensures { MatchBool result (All (IsHeaderCopy space.now.memory) headers.now) (All (IsHeaderCopy space.now.memory)
        headers.now → ⊥) }
{
    for copy in headers {
        if bits_at(space, copy.header.segment) != copy.bits {
            return false;
        }
    }
    true
}

/// Whether memory still has the five bytes where the list breaks as they were read; true if it does not break.
fn is_broken_in(space: &Space, broken: &Option<Broken>) -> bool
    ensures { MatchBool result (IsBrokenIn space.now.memory broken.now) (IsBrokenIn space.now.memory broken.now → ⊥) }
{
    match broken {
        Some(there) => bits_at(space, there.segment) == there.bits,
        None => true,
    }
}

/// Whether two windows show the same block, or both none.
fn is_same_window(first: Option<Block>, second: Option<Block>) -> bool
    ensures { MatchBool result (first ≡ second) (first ≢ second) }
{
    match (first, second) {
        (None, None) => true,
        (Some(first), Some(second)) => first == second,
        _ => false,
    }
}

/// Whether four windows show the same as four others, one by one.
fn are_same_windows(first: &[Option<Block>; 4], second: &[Option<Block>; 4]) -> bool
    ensures { MatchBool result (first.now ≡ second.now) (first.now ≢ second.now) }
{
    is_same_window(first[0], second[0])
        && is_same_window(first[1], second[1])
        && is_same_window(first[2], second[2])
        && is_same_window(first[3], second[3])
}

impl ArenaCopy {
    /// Finds out whether the segments of the machine's data and stack, and its extra segment, have marks. What is known
    /// of the arena stays.
    pub(crate) fn look_at_segments(&mut self, machine: &Machine)
        ensures { self.new ≡ self.old }
    {
        let cpu = machine.cpu();
        self.marks.look_at(cpu.ds);
        self.marks.look_at(cpu.ss);
        self.marks.look_at(cpu.es);
    }

    /// Whether the machine's windows, all bytes that were read and whether upper memory belongs to the arena are still
    /// the same. Then its memory shows the same of the arena.
    pub(crate) fn is_seen(&self, machine: &Machine) -> bool
        ensures { MatchBool result (IsSeen machine.now.upper machine.now.memory self.now) (IsSeen machine.now.upper
            machine.now.memory self.now → ⊥) }
    {
        let space = machine.space();
        machine.upper() == self.upper
            && are_same_windows(&space.windows(), &self.windows)
            && are_seen(space, &self.headers)
            && is_broken_in(space, &self.broken)
    }
}
