//! The finding about a block that is freed twice (MS-DOS Programmer's Reference, function 49h).

ghost use Rattle.std.specs.Prelude.{◌≡◌, ◌++◌, map, OnOk};
ghost use Rattle.dm_checker.specs.Freed.{is_free_at, freed_twice};
ghost use Rattle.dm_checker.specs.ArenaCopy.{header_of};

use crate::arena_copy::HeaderCopy;
use dm_cpu::Cpu;
use dm_findings::{Call, Finding};
use dm_origins::outcomes::{append_finding, frees};
use dm_services::function_of;
use std::alloc::AllocError;

/// Whether one of the headers is that of the block at `segment`, and the block is free.
fn is_free_at(headers: &[HeaderCopy], segment: u16) -> bool
    ensures { result ≡ is_free_at (map header_of headers.now) segment }
{
    for copy in headers {
        if copy.header.segment as u32 + 1 == segment as u32 && copy.header.owner == 0 {
            return true;
        }
    }
    false
}

/// Appends that a block was freed twice, if the call was 49h, succeeded, and the block at ES was free before. `before`
/// and `after` are the registers before and after the call, `headers` the arena before it.
pub(crate) fn put_freed_twice(
    out: &mut Vec<Finding>,
    before: &Cpu,
    after: &Cpu,
    call: Option<Call>,
    headers: &[HeaderCopy],
) -> Result<(), AllocError>
    ensures { OnOk result (out.new.items ≡ out.old.items ++ freed_twice before.now after.now call
        (map header_of headers.now)) }
{
    let Some(Call::Dos(number)) = call else {
        return Ok(());
    };
    if frees(function_of(number)) && !after.flags.carry && is_free_at(headers, before.es) {
        return append_finding(out, Finding::FreedTwice(before.es));
    }
    Ok(())
}
