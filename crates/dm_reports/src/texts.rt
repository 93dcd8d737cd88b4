//! The texts of findings, as the report of `dm check` has them. Each function `put_..` appends its text to `out`; an
//! `Err` is a failed allocation.

ghost use Rattle.std.specs.Prelude.{◌≡◌, ◌++◌, OnOk, codes, decimal};
ghost use Rattle.dm_findings.specs.Findings.{is_error};
ghost use Rattle.dm_decode.specs.Texts.{text_of};
ghost use Rattle.dm_views.specs.Digits.{two_digits, four_digits, address_text};
ghost use Rattle.dm_reports.specs.Texts.{act_text, contents_text, count_text, ending_text, finding_text, found_line, free_text, found_text, kept_text, kept_verb, kind_text, lock_text, map_text, origin_text, origin_verb, refusal_text, repeated_line, short_text, site_text, told_text};

use crate::meanings::meaning_of;
use crate::names::put_call;
use dm_decode::{Line, text};
use dm_findings::{Act, Contents, Finding, Found, Kept, Listed, Origin, Site};
use dm_ins::Ins;
use dm_views::{byte_digits, put_address, word_digits};
use itoa::Buffer;
use std::alloc::AllocError;

/// Appends a number, such as that of a step or of all errors, in decimal.
///
/// # Errors
///
/// `AllocError` if an allocation fails.
pub fn put_number(out: &mut Vec<u8>, n: u64) -> Result<(), AllocError>
    ensures { OnOk result (out.new.items ≡ out.old.items ++ decimal n) }
{
    let mut buffer = Buffer::new();
    out.extend_from_slice(buffer.format(n).as_bytes())
}

/// Appends a word, such as a segment, in four hexadecimal digits between two texts.
fn put_segment(
    out: &mut Vec<u8>,
    before: &[u8],
    segment: u16,
    after: &[u8],
) -> Result<(), AllocError>
    ensures { OnOk result (out.new.items ≡ out.old.items ++ (before.now ++ four_digits segment ++ after.now)) }
{
    out.extend_from_slice(before)?;
    out.extend_from_slice(&word_digits(segment))?;
    out.extend_from_slice(after)
}

/// Appends a number, such as a handle or a count of pages, in decimal between two texts.
fn put_count(out: &mut Vec<u8>, before: &[u8], n: u16, after: &[u8]) -> Result<(), AllocError>
    ensures { OnOk result (out.new.items ≡ out.old.items ++ (before.now ++ decimal n ++ after.now)) }
{
    out.extend_from_slice(before)?;
    put_number(out, n as u64)?;
    out.extend_from_slice(after)
}

/// Appends the signature, owner and size of an arena header, in two, four and four hexadecimal digits with spaces
/// between.
fn put_contents(out: &mut Vec<u8>, contents: Contents) -> Result<(), AllocError>
    ensures { OnOk result (out.new.items ≡ out.old.items ++ contents_text contents) }
{
    out.extend_from_slice(&byte_digits(contents.signature))?;
    put_segment(out, b" ", contents.owner, b" ")?;
    out.extend_from_slice(&word_digits(contents.size))
}

/// Appends that the arena header at segment `at` was overwritten: its contents before the step and after it.
fn put_overwritten(
    out: &mut Vec<u8>,
    at: u16,
    old: Contents,
    new: Contents,
) -> Result<(), AllocError>
    ensures { OnOk result (out.new.items ≡ out.old.items
        ++ (codes "header at " ++ four_digits at ++ codes " overwritten: " ++ contents_text old ++ codes " became "
        ++ contents_text new)) }
{
    put_segment(out, b"header at ", at, b" overwritten: ")?;
    put_contents(out, old)?;
    out.extend_from_slice(b" became ")?;
    put_contents(out, new)
}

/// The end of a word for `n` things: nothing for one, otherwise an `s`.
fn ending_of(n: u64) -> &'static [u8]
    ensures { result.now ≡ ending_text n }
{
    if n == 1 { b"" } else { b"s" }
}

/// Appends a number of things in decimal, and what they are, by the word for one of them.
pub(crate) fn put_counted(out: &mut Vec<u8>, n: u64, word: &[u8]) -> Result<(), AllocError>
    ensures { OnOk result (out.new.items ≡ out.old.items ++ count_text n word.now) }
{
    put_number(out, n)?;
    out.extend_from_slice(b" ")?;
    out.extend_from_slice(word)?;
    out.extend_from_slice(ending_of(n))
}

/// Appends that a call failed with code 08h, not enough memory: how many paragraphs it asked for, and the largest
/// number available.
fn put_short(out: &mut Vec<u8>, asked: u16, largest: u16) -> Result<(), AllocError>
    ensures { OnOk result (out.new.items ≡ out.old.items ++ short_text asked largest) }
{
    out.extend_from_slice(b"refused with code 08h, not enough memory: ")?;
    put_counted(out, asked as u64, b"paragraph")?;
    out.extend_from_slice(b" wanted, ")?;
    put_number(out, largest as u64)?;
    out.extend_from_slice(b" available")
}

/// Appends that a call failed: the error code, and its meaning.
fn put_refused(out: &mut Vec<u8>, act: &Act, code: u8) -> Result<(), AllocError>
    ensures { OnOk result (out.new.items ≡ out.old.items ++ refusal_text act.now code) }
{
    out.extend_from_slice(b"refused with code ")?;
    out.extend_from_slice(&byte_digits(code))?;
    out.extend_from_slice(b"h")?;
    out.extend_from_slice(meaning_of(act, code))
}

/// What follows the size of a block of extended memory: `, locked` if it is locked, otherwise nothing.
fn lock_of(locked: bool) -> &'static [u8]
    ensures { result.now ≡ lock_text locked }
{
    if locked { b", locked" } else { b"" }
}

/// Appends that the block of a handle of extended memory was not freed: its size in KiB, and whether it is locked.
fn put_block_kept(out: &mut Vec<u8>, handle: u16, kib: u16, locked: bool) -> Result<(), AllocError>
    ensures { OnOk result (out.new.items ≡ out.old.items
        ++ (codes "XMS handle " ++ decimal handle ++ codes ": " ++ decimal kib ++ codes " KiB not freed"
        ++ lock_text locked)) }
{
    put_count(out, b"XMS handle ", handle, b": ")?;
    put_number(out, kib as u64)?;
    out.extend_from_slice(b" KiB not freed")?;
    out.extend_from_slice(lock_of(locked))
}

/// What follows the pages of a handle of expanded memory: `, map not restored` if it has a saved map, otherwise
/// nothing.
fn map_of(saved: bool) -> &'static [u8]
    ensures { result.now ≡ map_text saved }
{
    if saved { b", map not restored" } else { b"" }
}

/// Appends that a handle of expanded memory was not freed: how many pages it has, and whether it has a saved map.
fn put_handle_kept(
    out: &mut Vec<u8>,
    handle: u16,
    pages: u16,
    saved: bool,
) -> Result<(), AllocError>
    ensures { OnOk result (out.new.items ≡ out.old.items
        ++ (codes "EMS handle " ++ decimal handle ++ codes ": " ++ count_text pages (codes "page") ++ codes " not freed"
        ++ map_text saved)) }
{
    put_count(out, b"EMS handle ", handle, b": ")?;
    put_counted(out, pages as u64, b"page")?;
    out.extend_from_slice(b" not freed")?;
    out.extend_from_slice(map_of(saved))
}

/// Appends what a program has allocated at its end.
fn put_kept(out: &mut Vec<u8>, kept: &Kept) -> Result<(), AllocError>
    ensures { OnOk result (out.new.items ≡ out.old.items ++ kept_text kept.now) }
{
    match kept {
        Kept::Handle(handle, pages, saved) => put_handle_kept(out, *handle, *pages, *saved),
        Kept::Window(window) => put_count(out, b"window ", *window as u16, b" still mapped"),
        Kept::Block(handle, kib, locked) => put_block_kept(out, *handle, *kib, *locked),
        Kept::Upper(at) => put_segment(out, b"upper memory block at ", *at, b" not freed"),
        Kept::Area => out.extend_from_slice(b"HMA not released"),
        Kept::Line => out.extend_from_slice(b"A20 left on"),
    }
}

/// Appends what a resident program leaves allocated.
fn put_held(out: &mut Vec<u8>, kept: &Kept) -> Result<(), AllocError>
    ensures { OnOk result (out.new.items ≡ out.old.items ++ (codes "kept resident: " ++ kept_text kept.now)) }
{
    out.extend_from_slice(b"kept resident: ")?;
    put_kept(out, kept)
}

/// Appends the address of a byte between two texts.
fn put_at(
    out: &mut Vec<u8>,
    before: &[u8],
    segment: u16,
    offset: u16,
    after: &[u8],
) -> Result<(), AllocError>
    ensures { OnOk result (out.new.items ≡ out.old.items ++ (before.now ++ address_text segment offset ++ after.now)) }
{
    out.extend_from_slice(before)?;
    put_address(out, segment, offset)?;
    out.extend_from_slice(after)
}

/// Appends that an instruction reads or writes (`verb`) a byte of the free block at a segment.
fn put_free(
    out: &mut Vec<u8>,
    verb: &[u8],
    block: u16,
    segment: u16,
    offset: u16,
) -> Result<(), AllocError>
    ensures { OnOk result (out.new.items ≡ out.old.items ++ free_text verb.now block segment offset) }
{
    out.extend_from_slice(verb)?;
    put_address(out, segment, offset)?;
    out.extend_from_slice(b" in the free block at ")?;
    out.extend_from_slice(&word_digits(block))
}

/// Appends that an instruction writes a byte of a window that shows no page.
fn put_lost(out: &mut Vec<u8>, window: u8, segment: u16, offset: u16) -> Result<(), AllocError>
    ensures { OnOk result (out.new.items ≡ out.old.items
        ++ (codes "writes " ++ address_text segment offset ++ codes " in window " ++ decimal window
        ++ codes ", which shows no page")) }
{
    out.extend_from_slice(b"writes ")?;
    put_address(out, segment, offset)?;
    out.extend_from_slice(b" in window ")?;
    put_number(out, window as u64)?;
    out.extend_from_slice(b", which shows no page")
}

/// Appends that an instruction writes a byte, from 5 to 15, of the header at a segment.
fn put_tail(out: &mut Vec<u8>, at: u16, byte: u8) -> Result<(), AllocError>
    ensures { OnOk result (out.new.items ≡ out.old.items
        ++ (codes "byte " ++ decimal byte ++ codes " of the header at " ++ four_digits at ++ codes " written")) }
{
    out.extend_from_slice(b"byte ")?;
    put_number(out, byte as u64)?;
    out.extend_from_slice(b" of the header at ")?;
    out.extend_from_slice(&word_digits(at))?;
    out.extend_from_slice(b" written")
}

/// Appends that the block at a segment, which another process owned, was freed.
fn put_other_freed(out: &mut Vec<u8>, at: u16, owner: u16) -> Result<(), AllocError>
    ensures { OnOk result (out.new.items ≡ out.old.items
        ++ (codes "block at " ++ four_digits at ++ codes " of process " ++ four_digits owner ++ codes " freed")) }
{
    out.extend_from_slice(b"block at ")?;
    out.extend_from_slice(&word_digits(at))?;
    out.extend_from_slice(b" of process ")?;
    out.extend_from_slice(&word_digits(owner))?;
    out.extend_from_slice(b" freed")
}

/// Appends that a block was not resized: to how many paragraphs.
fn put_not_resized(out: &mut Vec<u8>, asked: u16) -> Result<(), AllocError>
    ensures { OnOk result (out.new.items ≡ out.old.items ++ (codes "block not resized to "
        ++ count_text asked (codes "paragraph"))) }
{
    out.extend_from_slice(b"block not resized to ")?;
    put_counted(out, asked as u64, b"paragraph")
}

/// Appends what was found in a step that performed `act`, in words.
fn put_finding(out: &mut Vec<u8>, act: &Act, finding: &Finding) -> Result<(), AllocError>
    ensures { OnOk result (out.new.items ≡ out.old.items ++ finding_text act.now finding.now) }
{
    match finding {
        Finding::Overwritten(at, old, new) => put_overwritten(out, *at, *old, *new),
        Finding::MappedAway(at) => put_segment(out, b"header at ", *at, b" mapped away"),
        Finding::Destroyed(at) => put_segment(out, b"block list destroyed at ", *at, b""),
        Finding::Whole => out.extend_from_slice(b"block list valid again"),
        Finding::FreedTwice(at) => put_segment(out, b"block at ", *at, b" freed twice"),
        Finding::Refused(code) | Finding::NotAllocated(code) => put_refused(out, act, *code),
        Finding::DivisionError => out.extend_from_slice(b"division error ended the process"),
        Finding::NotServed => out.extend_from_slice(b"not served"),
        Finding::Short(asked, largest) => put_short(out, *asked, *largest),
        Finding::NotFreed(kept) => put_kept(out, kept),
        Finding::Held(kept) => put_held(out, kept),
        Finding::FreeRead(block, segment, offset) => {
            put_free(out, b"reads ", *block, *segment, *offset)
        }
        Finding::FreeWritten(block, segment, offset) => {
            put_free(out, b"writes ", *block, *segment, *offset)
        }
        Finding::StackFreed(block) => {
            put_segment(out, b"the stack is in the free block at ", *block, b"")
        }
        Finding::WindowLost(window, segment, offset) => put_lost(out, *window, *segment, *offset),
        Finding::RomWritten(segment, offset) => {
            put_at(out, b"writes ", *segment, *offset, b" in the ROM")
        }
        Finding::NothingWritten(segment, offset) => {
            put_at(
                out,
                b"writes ",
                *segment,
                *offset,
                b", where there is no memory",
            )
        }
        Finding::TailWritten(at, byte) => put_tail(out, *at, *byte),
        Finding::OtherFreed(at, owner) => put_other_freed(out, *at, *owner),
        Finding::NotResized(asked) => put_not_resized(out, *asked),
    }
}

/// Appends an instruction's text. `next` is the offset after it, from which relative jumps and calls are counted.
///
/// # Errors
///
/// `AllocError` if an allocation fails.
pub fn put_instruction(out: &mut Vec<u8>, ins: &Ins, next: u16) -> Result<(), AllocError>
    ensures { OnOk result (out.new.items ≡ out.old.items ++ text_of ins.now next) }
{
    let mut line = Line::new();
    text(ins, next, &mut line);
    out.extend_from_slice(line.bytes())
}

/// Appends the text of what was performed in a step: a call, or an instruction.
fn put_act(out: &mut Vec<u8>, act: &Act) -> Result<(), AllocError>
    ensures { OnOk result (out.new.items ≡ out.old.items ++ act_text act.now) }
{
    match act {
        Act::Call(call) => put_call(out, *call),
        Act::Instruction(ins, next) => put_instruction(out, ins, *next),
    }
}

/// The first word of a finding's line: `error` or `note`.
pub fn severity_word(finding: &Finding) -> &'static [u8]
    ensures { result.now ≡ kind_text (is_error finding.now) }
{
    if finding.is_error() {
        b"error"
    } else {
        b"note"
    }
}

/// Appends where in its code the program performed the step: the address of the instruction or of the INT; with
/// `before`, the return address of a call that was made otherwise.
fn put_site(out: &mut Vec<u8>, site: Site) -> Result<(), AllocError>
    ensures { OnOk result (out.new.items ≡ out.old.items ++ site_text site) }
{
    match site {
        Site::At(segment, offset) => put_address(out, segment, offset),
        Site::Before(segment, offset) => {
            out.extend_from_slice(b"before ")?;
            put_address(out, segment, offset)
        }
    }
}

/// What a step did to what is left allocated: it turned A20 on, and allocated the rest.
fn kept_verb(kept: &Kept) -> &'static [u8]
    ensures { result.now ≡ kept_verb kept.now }
{
    match kept {
        Kept::Line => b"turned on",
        _ => b"allocated",
    }
}

/// What a step did to what a finding is about: it allocated what is left allocated, or turned it on, and freed memory.
fn verb_of(finding: &Finding) -> &'static [u8]
    ensures { result.now ≡ origin_verb finding.now }
{
    match finding {
        Finding::NotFreed(kept) | Finding::Held(kept) => kept_verb(kept),
        _ => b"freed",
    }
}

/// Appends which step allocated or freed what a finding is about, and where in its code the program performed that;
/// nothing if it is not known.
fn put_origin(
    out: &mut Vec<u8>,
    finding: &Finding,
    origin: Option<Origin>,
) -> Result<(), AllocError>
    ensures { OnOk result (out.new.items ≡ out.old.items ++ origin_text finding.now origin) }
{
    let Some(origin) = origin else {
        return Ok(());
    };
    out.extend_from_slice(b", ")?;
    out.extend_from_slice(verb_of(finding))?;
    out.extend_from_slice(b" by step ")?;
    put_number(out, origin.step)?;
    out.extend_from_slice(b", ")?;
    put_site(out, origin.site)
}

/// Appends what was found, in words, and which step allocated or freed what it is about.
///
/// # Errors
///
/// `AllocError` if an allocation fails.
pub fn put_told(out: &mut Vec<u8>, found: &Found) -> Result<(), AllocError>
    ensures { OnOk result (out.new.items ≡ out.old.items ++ told_text found.now) }
{
    put_finding(out, &found.act, &found.finding)?;
    put_origin(out, &found.finding, found.origin)
}

/// Appends what was found and where: the number of its step, where in its code the program performed it, the call or
/// instruction, what was found, and which step allocated or freed what it is about.
#[tactic(auto, unfolding(crate::specs::Texts::found_text))]
fn put_text(out: &mut Vec<u8>, found: &Found) -> Result<(), AllocError>
    ensures { OnOk result (out.new.items ≡ out.old.items ++ found_text found.now) }
{
    out.extend_from_slice(b"step ")?;
    put_number(out, found.step)?;
    out.extend_from_slice(b", ")?;
    put_site(out, found.site)?;
    out.extend_from_slice(b" ")?;
    put_act(out, &found.act)?;
    out.extend_from_slice(b": ")?;
    put_told(out, found)
}

/// Appends the line of a finding: error or note, the number of its step, where in its code the program performed it,
/// the call or instruction, and what was found.
///
/// # Errors
///
/// `AllocError` if an allocation fails.
#[tactic(auto, unfolding(crate::specs::Texts::found_line))]
pub fn put_found(out: &mut Vec<u8>, found: &Found) -> Result<(), AllocError>
    ensures { OnOk result (out.new.items ≡ out.old.items ++ found_line found.now) }
{
    out.extend_from_slice(severity_word(&found.finding))?;
    out.extend_from_slice(b": ")?;
    put_text(out, found)?;
    out.extend_from_slice(b"\n")
}

/// Appends the line about the further occurrences of a finding: how many they are, and the step of the last.
#[tactic(auto, unfolding(crate::specs::Texts::repeated_line))]
pub(crate) fn put_repeated(out: &mut Vec<u8>, listed: &Listed) -> Result<(), AllocError>
    ensures { OnOk result (out.new.items ≡ out.old.items ++ repeated_line listed.now) }
{
    out.extend_from_slice(b"again: ")?;
    put_text(out, &listed.found)?;
    out.extend_from_slice(b": ")?;
    put_number(out, listed.more)?;
    out.extend_from_slice(b" more, the last at step ")?;
    put_number(out, listed.last)?;
    out.extend_from_slice(b"\n")
}
