//! The lines of `dm check --json`: a line is one object of JSON (RFC 8259). Each function `put_..` appends its text to
//! `out`; an `Err` is a failed allocation.

ghost use Rattle.std.specs.Prelude.{◌≡◌, ◌++◌, OnOk, codes};
ghost use Rattle.std.specs.List.{flat_map};
ghost use Rattle.dm_decode.specs.Texts.{text_of};
ghost use Rattle.dm_reports.specs.Texts.{told_text};
ghost use Rattle.dm_json.specs.Objects.{act_members, again_object, bool_member, byte_members, object_end, code_member, contents_member, detail_members, end_object, found_members, found_object, kept_members, kept_name, kept_word, kind_word, left_out_object, next_members, number_member, opening, origin_member, origin_name, repeated_object, stopped_object, string_member, summary_objects, omitted_object, what_members};

use crate::members::{
    put_bool_member, put_byte_members, put_call_members, put_contents_member, put_name,
    put_number_member, put_site_members, put_string_member,
};
use dm_cpu::Cpu;
use dm_findings::{
    Act, Call, Contents, Finding, Found, Kept, Listed, Origin, Report, call_of, site_of,
};
use dm_ins::Ins;
use dm_reports::{put_instruction, put_number, put_told, reason_of, severity_word};
use dm_services::state::Stop;
use dm_space::Space;
use std::alloc::{AllocError, Global};

/// What a program has allocated at its end, in words with `_` between.
fn kept_word(kept: &Kept) -> &'static [u8]
    ensures { result.now ≡ kept_word kept.now }
{
    match kept {
        Kept::Handle(_, _, _) => b"handle_kept",
        Kept::Window(_) => b"window_kept",
        Kept::Block(_, _, _) => b"block_kept",
        Kept::Upper(_) => b"upper_kept",
        Kept::Area => b"area_kept",
        Kept::Line => b"line_kept",
    }
}

/// The kind of a finding, in a word or in words with `_` between.
fn word_of(finding: &Finding) -> &'static [u8]
    ensures { result.now ≡ kind_word finding.now }
{
    match finding {
        Finding::Overwritten(_, _, _) => b"overwritten",
        Finding::MappedAway(_) => b"mapped_away",
        Finding::Destroyed(_) => b"destroyed",
        Finding::Whole => b"valid",
        Finding::FreedTwice(_) => b"freed_twice",
        Finding::Refused(_) => b"refused",
        Finding::NotAllocated(_) => b"not_allocated",
        Finding::DivisionError => b"division_error",
        Finding::NotServed => b"not_served",
        Finding::Short(_, _) => b"not_enough_memory",
        Finding::NotFreed(kept) | Finding::Held(kept) => kept_word(kept),
        Finding::FreeRead(_, _, _) => b"free_read",
        Finding::FreeWritten(_, _, _) => b"free_written",
        Finding::StackFreed(_) => b"stack_freed",
        Finding::WindowLost(_, _, _) => b"window_lost",
        Finding::RomWritten(_, _) => b"rom_written",
        Finding::NothingWritten(_, _) => b"no_memory_written",
        Finding::TailWritten(_, _) => b"header_byte_written",
        Finding::OtherFreed(_, _) => b"other_freed",
        Finding::NotResized(_) => b"not_resized",
    }
}

/// Appends two members whose values are numbers.
fn put_two(out: &mut Vec<u8>, first: &[u8], m: u16, second: &[u8], n: u16) -> Result<(), AllocError>
    ensures { OnOk result (out.new.items ≡ out.old.items ++ (number_member first.now m ++ number_member second.now n)) }
{
    put_number_member(out, first, m as u64)?;
    put_number_member(out, second, n as u64)
}

/// Appends the segment of a header that was overwritten, and its contents before the step and after it.
fn put_overwritten_members(
    out: &mut Vec<u8>,
    at: u16,
    old: Contents,
    new: Contents,
) -> Result<(), AllocError>
    ensures { OnOk result (out.new.items ≡ out.old.items
        ++ (number_member (codes "header") at ++ contents_member (codes "old") old
        ++ contents_member (codes "new") new)) }
{
    put_number_member(out, b"header", at as u64)?;
    put_contents_member(out, b"old", old)?;
    put_contents_member(out, b"new", new)
}

/// Appends the code of a failed allocation, not enough memory, and the paragraphs that were asked for and are
/// available.
fn put_short_members(out: &mut Vec<u8>, asked: u16, largest: u16) -> Result<(), AllocError>
    ensures { OnOk result (out.new.items ≡ out.old.items
        ++ (number_member (codes "code") 8 ++ number_member (codes "wanted") asked
        ++ number_member (codes "available") largest)) }
{
    put_number_member(out, b"code", 8)?;
    put_two(out, b"wanted", asked, b"available", largest)
}

/// Appends a handle of extended memory, the KiB of its block, and whether that is locked.
fn put_block_members(
    out: &mut Vec<u8>,
    handle: u16,
    kib: u16,
    locked: bool,
) -> Result<(), AllocError>
    ensures { OnOk result (out.new.items ≡ out.old.items
        ++ (number_member (codes "handle") handle ++ number_member (codes "kib") kib
        ++ bool_member (codes "locked") locked)) }
{
    put_two(out, b"handle", handle, b"kib", kib)?;
    put_bool_member(out, b"locked", locked)
}

/// Appends a handle of expanded memory, its pages, and whether it has a saved map.
fn put_handle_members(
    out: &mut Vec<u8>,
    handle: u16,
    pages: u16,
    saved: bool,
) -> Result<(), AllocError>
    ensures { OnOk result (out.new.items ≡ out.old.items
        ++ (number_member (codes "handle") handle ++ number_member (codes "pages") pages
        ++ bool_member (codes "saved") saved)) }
{
    put_two(out, b"handle", handle, b"pages", pages)?;
    put_bool_member(out, b"saved", saved)
}

/// Appends what a program has allocated at its end.
fn put_kept_members(out: &mut Vec<u8>, kept: &Kept) -> Result<(), AllocError>
    ensures { OnOk result (out.new.items ≡ out.old.items ++ kept_members kept.now) }
{
    match kept {
        Kept::Handle(handle, pages, saved) => put_handle_members(out, *handle, *pages, *saved),
        Kept::Window(window) => put_number_member(out, b"window", *window as u64),
        Kept::Block(handle, kib, locked) => put_block_members(out, *handle, *kib, *locked),
        Kept::Upper(at) => put_number_member(out, b"block", *at as u64),
        Kept::Area | Kept::Line => Ok(()),
    }
}

/// Appends a number, the segment of a free block or the number of a window, and the address of a byte there.
fn put_byte_in(
    out: &mut Vec<u8>,
    alloc: Global,
    name: &[u8],
    n: u16,
    segment: u16,
    offset: u16,
) -> Result<(), AllocError>
    ensures { OnOk result (out.new.items ≡ out.old.items ++ (number_member name.now n ++ byte_members segment offset)) }
{
    put_number_member(out, name, n as u64)?;
    put_byte_members(out, alloc, segment, offset)
}

/// Appends what a finding is about.
fn put_details(out: &mut Vec<u8>, alloc: Global, finding: &Finding) -> Result<(), AllocError>
    ensures { OnOk result (out.new.items ≡ out.old.items ++ detail_members finding.now) }
{
    match finding {
        Finding::Overwritten(at, old, new) => put_overwritten_members(out, *at, *old, *new),
        Finding::MappedAway(at) | Finding::Destroyed(at) => {
            put_number_member(out, b"header", *at as u64)
        }
        Finding::FreedTwice(at) | Finding::StackFreed(at) => {
            put_number_member(out, b"block", *at as u64)
        }
        Finding::Refused(code) | Finding::NotAllocated(code) => {
            put_number_member(out, b"code", *code as u64)
        }
        Finding::Short(asked, largest) => put_short_members(out, *asked, *largest),
        Finding::NotFreed(kept) | Finding::Held(kept) => put_kept_members(out, kept),
        Finding::FreeRead(block, segment, offset) | Finding::FreeWritten(block, segment, offset) =>
            { put_byte_in(out, alloc, b"block", *block, *segment, *offset) }
        Finding::WindowLost(window, segment, offset) => {
            put_byte_in(out, alloc, b"window", *window as u16, *segment, *offset)
        }
        Finding::RomWritten(segment, offset) | Finding::NothingWritten(segment, offset) => {
            put_byte_members(out, alloc, *segment, *offset)
        }
        Finding::TailWritten(at, byte) => put_two(out, b"header", *at, b"byte", *byte as u16),
        Finding::OtherFreed(at, owner) => put_two(out, b"block", *at, b"owner", *owner),
        Finding::NotResized(asked) => put_number_member(out, b"wanted", *asked as u64),
        Finding::Whole | Finding::DivisionError | Finding::NotServed => Ok(()),
    }
}

/// Appends the text of an instruction, as a member.
fn put_instruction_member(
    out: &mut Vec<u8>,
    alloc: Global,
    ins: &Ins,
    next: u16,
) -> Result<(), AllocError>
    ensures { OnOk result (out.new.items ≡ out.old.items ++ string_member (codes "instruction")
        (text_of ins.now next)) }
{
    let mut text = Vec::new(alloc);
    put_instruction(&mut text, ins, next)?;
    put_string_member(out, b"instruction", &text)
}

/// Appends what was performed in a step: a call, or an instruction.
fn put_act_members(out: &mut Vec<u8>, alloc: Global, act: &Act) -> Result<(), AllocError>
    ensures { OnOk result (out.new.items ≡ out.old.items ++ act_members act.now) }
{
    match act {
        Act::Call(call) => put_call_members(out, alloc, *call),
        Act::Instruction(ins, next) => put_instruction_member(out, alloc, ins, *next),
    }
}

/// The name of the step that turned on or allocated what is left allocated.
fn kept_name(kept: &Kept) -> &'static [u8]
    ensures { result.now ≡ kept_name kept.now }
{
    match kept {
        Kept::Line => b"turned_on_by",
        _ => b"allocated_by",
    }
}

/// The name of the step that did something to what a finding is about: it allocated what is left allocated, or turned
/// it on, and freed memory.
fn origin_name(finding: &Finding) -> &'static [u8]
    ensures { result.now ≡ origin_name finding.now }
{
    match finding {
        Finding::NotFreed(kept) | Finding::Held(kept) => kept_name(kept),
        _ => b"freed_by",
    }
}

/// Appends which step allocated or freed what a finding is about, and where in its code the program performed that;
/// nothing if it is not known.
fn put_origin_member(
    out: &mut Vec<u8>,
    alloc: Global,
    finding: &Finding,
    origin: Option<Origin>,
) -> Result<(), AllocError>
    ensures { OnOk result (out.new.items ≡ out.old.items ++ origin_member finding.now origin) }
{
    let Some(origin) = origin else {
        return Ok(());
    };
    put_name(out, origin_name(finding))?;
    out.extend_from_slice(b"{\"step\":")?;
    put_number(out, origin.step)?;
    put_site_members(out, alloc, origin.site)?;
    out.extend_from_slice(b"}")
}

/// Appends the words of the report for a finding, as a member.
fn put_text_member(out: &mut Vec<u8>, alloc: Global, found: &Found) -> Result<(), AllocError>
    ensures { OnOk result (out.new.items ≡ out.old.items ++ string_member (codes "text") (told_text found.now)) }
{
    let mut text = Vec::new(alloc);
    put_told(&mut text, found)?;
    put_string_member(out, b"text", &text)
}

/// Appends what was found and where.
#[tactic(auto, unfolding(crate::specs::Objects::found_members))]
fn put_members(out: &mut Vec<u8>, alloc: Global, found: &Found) -> Result<(), AllocError>
    ensures { OnOk result (out.new.items ≡ out.old.items ++ found_members found.now) }
{
    put_string_member(out, b"kind", word_of(&found.finding))?;
    put_number_member(out, b"step", found.step)?;
    put_number_member(out, b"process", found.process as u64)?;
    put_site_members(out, alloc, found.site)?;
    put_act_members(out, alloc, &found.act)?;
    put_details(out, alloc, &found.finding)?;
    put_origin_member(out, alloc, &found.finding, found.origin)?;
    put_text_member(out, alloc, found)
}

/// Appends the beginning of a line, with the word that says what it is.
pub(crate) fn put_opening(out: &mut Vec<u8>, word: &[u8]) -> Result<(), AllocError>
    ensures { OnOk result (out.new.items ≡ out.old.items ++ opening word.now) }
{
    out.extend_from_slice(b"{\"type\":\"")?;
    out.extend_from_slice(word)?;
    out.extend_from_slice(b"\"")
}

/// Appends the line of a finding.
#[tactic(auto, unfolding(crate::specs::Objects::found_object))]
pub(crate) fn put_found_object(
    out: &mut Vec<u8>,
    alloc: Global,
    found: &Found,
) -> Result<(), AllocError>
    ensures { OnOk result (out.new.items ≡ out.old.items ++ found_object found.now) }
{
    put_opening(out, severity_word(&found.finding))?;
    put_members(out, alloc, found)?;
    out.extend_from_slice(b"}\n")
}

/// Appends the line about the further occurrences of a finding: how many they are, and the step of the last.
#[tactic(auto, unfolding(crate::specs::Objects::repeated_object))]
fn put_repeated_object(out: &mut Vec<u8>, alloc: Global, listed: &Listed) -> Result<(), AllocError>
    ensures { OnOk result (out.new.items ≡ out.old.items ++ repeated_object listed.now) }
{
    put_opening(out, b"again")?;
    put_members(out, alloc, &listed.found)?;
    put_number_member(out, b"more", listed.more)?;
    put_number_member(out, b"last", listed.last)?;
    out.extend_from_slice(b"}\n")
}

/// Appends the line about the further occurrences of a finding, if there are any.
fn put_again_object(out: &mut Vec<u8>, alloc: Global, listed: &Listed) -> Result<(), AllocError>
    ensures { OnOk result (out.new.items ≡ out.old.items ++ again_object listed.now) }
{
    if listed.more == 0 {
        return Ok(());
    }
    put_repeated_object(out, alloc, listed)
}

/// Appends a line about each finding that occurs again, in their order.
fn put_all_again_objects(
    out: &mut Vec<u8>,
    alloc: Global,
    lines: &[Listed],
) -> Result<(), AllocError>
    ensures { OnOk result (out.new.items ≡ out.old.items ++ flat_map again_object lines.now) }
{
    for line in lines {
        put_again_object(out, alloc, line)?;
    }
    Ok(())
}

/// Appends the line about findings that are left out: how many they are.
fn put_left_out_object(out: &mut Vec<u8>, omitted: u64) -> Result<(), AllocError>
    ensures { OnOk result (out.new.items ≡ out.old.items ++ left_out_object omitted) }
{
    put_opening(out, b"omitted")?;
    put_number_member(out, b"findings", omitted)?;
    out.extend_from_slice(b"}\n")
}

/// Appends the line about the findings that are left out, if there are any.
fn put_omitted_object(out: &mut Vec<u8>, omitted: u64) -> Result<(), AllocError>
    ensures { OnOk result (out.new.items ≡ out.old.items ++ omitted_object omitted) }
{
    if omitted == 0 {
        return Ok(());
    }
    put_left_out_object(out, omitted)
}

/// Appends what follows the lines of the findings that a report lists.
#[tactic(auto, unfolding(crate::specs::Objects::summary_objects))]
pub(crate) fn put_summary_objects(
    out: &mut Vec<u8>,
    alloc: Global,
    report: &Report,
) -> Result<(), AllocError>
    ensures { OnOk result (out.new.items ≡ out.old.items ++ summary_objects report.now) }
{
    put_all_again_objects(out, alloc, report.listed())?;
    put_omitted_object(out, report.omitted())?;
    put_opening(out, b"summary")?;
    put_number_member(out, b"errors", report.errors())?;
    put_number_member(out, b"notes", report.notes())?;
    out.extend_from_slice(b"}\n")
}

/// Appends the two bytes at CS:IP, as a member.
fn put_code_member(out: &mut Vec<u8>, cpu: &Cpu, space: &Space) -> Result<(), AllocError>
    ensures { OnOk result (out.new.items ≡ out.old.items ++ code_member space.now.memory cpu.now) }
{
    put_name(out, b"bytes")?;
    out.extend_from_slice(b"[")?;
    put_number(out, space.peek(cpu.cs, cpu.ip) as u64)?;
    out.extend_from_slice(b",")?;
    put_number(out, space.peek(cpu.cs, cpu.ip.wrapping_add(1)) as u64)?;
    out.extend_from_slice(b"]")
}

/// Appends the call that the next step would perform; nothing for an instruction.
fn put_next_members(out: &mut Vec<u8>, alloc: Global, call: Option<Call>) -> Result<(), AllocError>
    ensures { OnOk result (out.new.items ≡ out.old.items ++ next_members call) }
{
    match call {
        Some(call) => put_call_members(out, alloc, call),
        None => Ok(()),
    }
}

/// Appends what the next step would perform: the bytes at CS:IP that are no instruction, a call, or nothing for an
/// instruction.
fn put_what_members(
    out: &mut Vec<u8>,
    alloc: Global,
    stop: Stop,
    cpu: &Cpu,
    space: &Space,
) -> Result<(), AllocError>
    ensures { OnOk result (out.new.items ≡ out.old.items ++ what_members stop space.now.memory cpu.now) }
{
    match stop {
        Stop::Unlisted => put_code_member(out, cpu, space),
        _ => put_next_members(out, alloc, call_of(cpu)),
    }
}

/// Appends the line about a run that stopped before the program ended.
#[tactic(auto, unfolding(crate::specs::Objects::stopped_object))]
fn put_stopped_object(
    out: &mut Vec<u8>,
    alloc: Global,
    stop: Stop,
    cpu: &Cpu,
    space: &Space,
) -> Result<(), AllocError>
    ensures { OnOk result (out.new.items ≡ out.old.items ++ stopped_object stop space.now.memory cpu.now) }
{
    put_opening(out, b"stopped")?;
    put_string_member(out, b"reason", reason_of(stop))?;
    put_site_members(out, alloc, site_of(cpu, space, call_of(cpu)))?;
    put_what_members(out, alloc, stop, cpu, space)?;
    out.extend_from_slice(b"}\n")
}

/// Appends the line about the end of the program, with its exit code.
fn put_exited_object(out: &mut Vec<u8>, code: u8) -> Result<(), AllocError>
    ensures { OnOk result (out.new.items ≡ out.old.items ++ (opening (codes "exited")
        ++ number_member (codes "code") code ++ object_end)) }
{
    put_opening(out, b"exited")?;
    put_number_member(out, b"code", code as u64)?;
    out.extend_from_slice(b"}\n")
}

/// Appends the line about the end of a run: the program's exit code, or where and why the run stopped.
pub(crate) fn put_end_object(
    out: &mut Vec<u8>,
    alloc: Global,
    stop: Stop,
    cpu: &Cpu,
    space: &Space,
) -> Result<(), AllocError>
    ensures { OnOk result (out.new.items ≡ out.old.items ++ end_object stop space.now.memory cpu.now) }
{
    match stop {
        Stop::Exited(code) => put_exited_object(out, code),
        _ => put_stopped_object(out, alloc, stop, cpu, space),
    }
}
