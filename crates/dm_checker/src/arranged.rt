//! The findings about calls that free, resize or keep blocks of the arena (MS-DOS Programmer's Reference, functions
//! 31h, 49h and 4Ah). Each function `put_..` appends its findings to `out`; an `Err` is a failed allocation.

ghost use Rattle.std.specs.Prelude.{◌≡◌, ◌++◌, map, OnOk};
ghost use Rattle.std.specs.List.{flat_map};
ghost use Rattle.dm_space.specs.Memory.{linear};
ghost use Rattle.dm_checker.specs.Arranged.{other_block, other_freed, stack_in, stack_freed, has_size, not_resized, found_after_call, arranged_by};
ghost use Rattle.dm_checker.specs.ArenaCopy.{header_of};
ghost use Rattle.dm_checker.specs.inner.ArenaCopy.{shown_of};

use crate::acts::Before;
use crate::arena_copy::{ArenaCopy, HeaderCopy};
use dm_cpu::Cpu;
use dm_findings::{Call, Finding};
use dm_origins::outcomes::{append_finding, frees, resizes, stays_resident};
use dm_services::function_of;
use dm_touches::{FarAddress, is_in_free};
use std::alloc::AllocError;

/// Appends that the block at a segment was freed, if it is the one behind the header, and belonged to another process
/// than the present one.
fn put_other_block(
    out: &mut Vec<Finding>,
    present: u16,
    segment: u16,
    copy: &HeaderCopy,
) -> Result<(), AllocError>
    ensures { OnOk result (out.new.items ≡ out.old.items ++ other_block present segment (header_of copy.now)) }
{
    let header = &copy.header;
    if header.segment as u32 + 1 == segment as u32 && header.owner != 0 && header.owner != present {
        return append_finding(out, Finding::OtherFreed(segment, header.owner));
    }
    Ok(())
}

/// Appends that the block at a segment, which was freed, belonged to another process than the present one.
fn put_each_other(
    out: &mut Vec<Finding>,
    present: u16,
    segment: u16,
    headers: &[HeaderCopy],
) -> Result<(), AllocError>
    ensures { OnOk result (out.new.items ≡ out.old.items ++ flat_map (other_block present segment)
        (map header_of headers.now)) }
{
    for copy in headers {
        put_other_block(out, present, segment, copy)?;
    }
    Ok(())
}

/// Appends that a call of 49h freed a block of another process; `headers` is the arena before it.
fn put_other_freed(
    out: &mut Vec<Finding>,
    present: u16,
    before: &Cpu,
    after: &Cpu,
    number: u8,
    headers: &[HeaderCopy],
) -> Result<(), AllocError>
    ensures { OnOk result (out.new.items ≡ out.old.items ++ other_freed present before.now after.now number
        (map header_of headers.now)) }
{
    if frees(function_of(number)) && !after.flags.carry {
        return put_each_other(out, present, before.es, headers);
    }
    Ok(())
}

/// Appends that the linear address, that of a stack, is in the memory behind the header, if that block is free.
fn put_stack_in(out: &mut Vec<Finding>, at: u32, copy: &HeaderCopy) -> Result<(), AllocError>
    ensures { OnOk result (out.new.items ≡ out.old.items ++ stack_in at (header_of copy.now)) }
{
    if is_in_free(&copy.header, at) {
        return append_finding(
            out,
            Finding::StackFreed(copy.header.segment.wrapping_add(1)),
        );
    }
    Ok(())
}

/// Appends in which free block the linear address is, that of a stack.
fn put_each_stack(out: &mut Vec<Finding>, at: u32, headers: &[HeaderCopy]) -> Result<(), AllocError>
    ensures { OnOk result (out.new.items ≡ out.old.items ++ flat_map (stack_in at) (map header_of headers.now)) }
{
    for copy in headers {
        put_stack_in(out, at, copy)?;
    }
    Ok(())
}

/// Appends that after 49h or 4Ah, which succeeded, the stack of the call is in a free block; `headers` is the arena
/// after it.
fn put_stack_freed(
    out: &mut Vec<Finding>,
    a20: bool,
    before: &Cpu,
    after: &Cpu,
    number: u8,
    headers: &[HeaderCopy],
) -> Result<(), AllocError>
    ensures { OnOk result (out.new.items ≡ out.old.items ++ stack_freed a20 before.now after.now number
        (map header_of headers.now)) }
{
    if (frees(function_of(number)) || resizes(function_of(number))) && !after.flags.carry {
        let top = FarAddress {
            segment: before.ss,
            offset: before.sp,
        };
        return put_each_stack(out, top.linear(a20), headers);
    }
    Ok(())
}

/// Whether one of the headers is that of the block at the segment, with this size.
fn has_size(segment: u16, size: u16, headers: &[HeaderCopy]) -> bool
    ensures { result ≡ has_size segment size (map header_of headers.now) }
{
    for copy in headers {
        let header = &copy.header;
        if header.segment as u32 + 1 == segment as u32 && header.size == size {
            return true;
        }
    }
    false
}

/// Appends that a process stays resident by 31h, if its block has another size than DX asked for; `headers` is the
/// arena after the call.
fn put_not_resized(
    out: &mut Vec<Finding>,
    present: u16,
    before: &Cpu,
    number: u8,
    headers: &[HeaderCopy],
) -> Result<(), AllocError>
    ensures { OnOk result (out.new.items ≡ out.old.items ++ not_resized present before.now number
        (map header_of headers.now)) }
{
    if stays_resident(function_of(number)) && !has_size(present, before.dx, headers) {
        return append_finding(out, Finding::NotResized(before.dx));
    }
    Ok(())
}

/// Appends what is found of a call by the arena after it (`new`), if no list breaks.
fn put_after_call(
    out: &mut Vec<Finding>,
    before: &Before,
    after: &Cpu,
    number: u8,
    new: &ArenaCopy,
) -> Result<(), AllocError>
    ensures { OnOk result (out.new.items ≡ out.old.items
        ++ found_after_call before.now.a20 before.now.present before.now.cpu after.now number (shown_of new.now)) }
{
    if new.broken.is_some() {
        return Ok(());
    }
    put_stack_freed(out, before.a20, &before.cpu, after, number, &new.headers)?;
    put_not_resized(out, before.present, &before.cpu, number, &new.headers)
}

/// Appends what is found of a call: a block of another process that it freed, a stack that is in a free block since,
/// and a resident process's block that was not resized. `before` is what was kept of the state before the call, `after`
/// are the registers after it, `headers` and `new` the arena before and after it.
pub(crate) fn put_arranged(
    out: &mut Vec<Finding>,
    before: &Before,
    after: &Cpu,
    headers: &[HeaderCopy],
    new: &ArenaCopy,
) -> Result<(), AllocError>
    ensures { OnOk result (out.new.items ≡ out.old.items
        ++ arranged_by before.now.a20 before.now.present before.now.cpu after.now before.now.call
        (map header_of headers.now) (shown_of new.now)) }
{
    let Some(Call::Dos(number)) = before.call else {
        return Ok(());
    };
    put_other_freed(out, before.present, &before.cpu, after, number, headers)?;
    put_after_call(out, before, after, number, new)
}
