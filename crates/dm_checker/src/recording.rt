//! Who allocated, who freed, and which processes ran, kept along a run.

ghost use Rattle.std.specs.Prelude.{◌≡◌, map, Some, IfOk, OnOk};
ghost use Rattle.dm_checker.specs.Courses.{with_course};
ghost use Rattle.dm_services.specs.state.State.{State};
ghost use Rattle.dm_origins.specs.Origins.{with_freed};
ghost use Rattle.dm_checker.specs.Origins.{if_both_whole, known_by};
ghost use Rattle.dm_checker.specs.ArenaCopy.{header_of, broken_at};
ghost use Rattle.dm_checker.specs.inner.ArenaCopy.{shown_of};
ghost use Rattle.dm_checker.specs.inner.Steps.{IsBefore};

use crate::acts::Before;
use crate::arena_copy::{ArenaCopy, HeaderCopy};
use dm_blocks::Header;
use dm_findings::processes::Process;
use dm_findings::{Call, Origin};
use dm_machine::Machine;
use dm_origins::Origins;
use dm_origins::outcomes::{arranges, ends_process, has_started};
use std::alloc::{AllocError, Global};

/// The headers without their bytes. An `Err` is a failed allocation.
fn headers_of(alloc: Global, headers: &[HeaderCopy]) -> Result<Vec<Header>, AllocError>
    ensures { IfOk result (λ list. list.items ≡ map header_of headers.now) }
{
    let mut list = Vec::new(alloc);
    for copy in headers {
        list.push(copy.header)?;
    }
    Ok(list)
}

/// Records which memory a step freed, by the arena before it (`old`) and after it (`new`), if no list breaks. An `Err`
/// is a failed allocation.
fn record_arena(
    alloc: Global,
    origins: &mut Origins,
    old: &ArenaCopy,
    new: &ArenaCopy,
    origin: Origin,
) -> Result<(), AllocError>
    ensures { OnOk result (origins.new ≡ if_both_whole (broken_at old.now.broken) (broken_at new.now.broken) origins.old
        (with_freed origins.old (map header_of old.now.headers.items) (map header_of new.now.headers.items) origin)) }
{
    if old.broken.is_some() || new.broken.is_some() {
        return Ok(());
    }
    let before = headers_of(alloc, &old.headers)?;
    let after = headers_of(alloc, &new.headers)?;
    origins.record_freed(&before, &after, origin);
    Ok(())
}

/// Records that a step started or ended a process, if it did. `before` is what was kept of the state before the step,
/// `machine` is in the state after it. An `Err` is a failed allocation.
fn record_course(
    origins: &mut Origins,
    before: &Before,
    machine: &Machine,
) -> Result<(), AllocError>
    ensures { OnOk result ((s : State) → IsBefore s before.now →
        origins.new ≡ with_course s machine.now before.now.call origins.old) }
{
    let step = machine.steps();
    if has_started(&before.cpu, &machine.cpu(), before.call) {
        let process = Process::of(machine.space(), machine.present(), step);
        return origins.record_start(process);
    }
    if ends_process(before.call) {
        origins.record_end(step);
    }
    Ok(())
}

/// Records what a step allocated, freed or turned on, and the process that it started or ended. `before` is what was
/// kept of the state before the step, `machine` is in the state after it, `old` and `new` are the arena before it and
/// after it. An `Err` is a failed allocation.
pub(crate) fn record_step(
    alloc: Global,
    origins: &mut Origins,
    before: &Before,
    old: &ArenaCopy,
    new: &ArenaCopy,
    machine: &Machine,
) -> Result<(), AllocError>
    ensures { OnOk result ((s : State) → IsBefore s before.now →
        origins.new ≡ known_by s machine.now (shown_of old.now) (shown_of new.now) before.now.call origins.old) }
{
    let origin = Origin {
        step: machine.steps(),
        site: before.site,
    };
    match before.call {
        Some(Call::ExpandedMemory(_)) => origins.record_handles(machine.ems(), origin),
        Some(Call::ExtendedMemory(_)) => {
            origins.record_blocks(machine.xms(), machine.space().a20(), origin)
        }
        call => {
            if arranges(&before.cpu, call) {
                record_arena(alloc, origins, old, new, origin)?;
                record_course(origins, before, machine)?;
            }
        }
    }
    Ok(())
}
