//! Steps that are made at once, since none but the last leads to an event.

ghost use Rattle.std.specs.Prelude.{◌≡◌, ◌≤◌, ◌<◌, ◌++◌, All, OnOk, IfSome, IsTrue, None, true};
ghost use Rattle.std.specs.List.{list_all};
ghost use Rattle.dm_space.specs.Memory.{Memory};
ghost use Rattle.dm_services.specs.state.State.{HasProgram};
ghost use Rattle.dm_machine.specs.Near.{GoesNear};
ghost use Rattle.dm_machine.specs.Unmarked.{GoesUnmarked};
ghost use Rattle.dm_debug.specs.stops.inner.Marking.{is_markable, AreStill, IsGuarded};
ghost use Rattle.dm_debug.specs.stops.inner.Nearby.{is_at_address, pair_at, pairs_at, pairs_for, pairs_of, RunsUpToEvent};

use crate::stops::events::Event;
use dm_machine::{Breakpoint, Machine};
use dm_touches::quiet::Marks;
use std::alloc::AllocError;

/// Appends the pair of the segment with this linear address, if the segment reaches it. An `Err` is a failed
/// allocation.
fn put_pair(pairs: &mut Vec<Breakpoint>, segment: u16, address: u64) -> Result<(), AllocError>
    ensures { OnOk result (pairs.new.items ≡ pairs.old.items ++ pair_at segment address) }
{
    let start = segment as u64 * 16;
    if start <= address && address <= start + 0xFFFF {
        let offset = (address - start) as u16;
        pairs.push(Breakpoint { segment, offset })?;
    }
    Ok(())
}

/// Appends the pairs of the segment whose linear address may be this one, by A20. An `Err` is a failed allocation.
fn put_pairs_at(pairs: &mut Vec<Breakpoint>, segment: u16, address: u32) -> Result<(), AllocError>
    ensures { OnOk result (pairs.new.items ≡ pairs.old.items ++ pairs_at segment address) }
{
    put_pair(pairs, segment, address as u64)?;
    put_pair(pairs, segment, address as u64 + 0x10_0000)
}

/// Appends the pairs at which an event at an address may come. An `Err` is a failed allocation.
fn put_pairs_for(pairs: &mut Vec<Breakpoint>, segment: u16, event: &Event) -> Result<(), AllocError>
    ensures { OnOk result (pairs.new.items ≡ pairs.old.items ++ pairs_for segment event.now) }
{
    match event {
        Event::At(point) => pairs.push(*point)?,
        Event::Address(address) => put_pairs_at(pairs, segment, *address)?,
        _ => (),
    }
    Ok(())
}

/// Replaces `pairs` by the pairs at which events at addresses may come, while CS is the segment. An `Err` is a
/// failed allocation.
fn put_pairs(pairs: &mut Vec<Breakpoint>, segment: u16, events: &[Event]) -> Result<(), AllocError>
    ensures pairs { OnOk result (pairs.new.items ≡ pairs_of segment events.now) }
    ensures small { segment < 65536 }
{
    pairs.clear();
    for event in events {
        put_pairs_for(pairs, segment, event)?;
    }
    Ok(())
}

/// Whether the event is about CS:IP alone: an address to which a step leads.
fn is_at_address(event: &Event) -> bool
    ensures { result ≡ is_at_address event.now }
{
    match event {
        Event::At(_) | Event::Address(_) => true,
        _ => false,
    }
}

/// Whether all events are about CS:IP alone.
pub(crate) fn are_at_addresses(events: &[Event]) -> bool
    ensures { result ≡ list_all is_at_address events.now }
{
    events.iter().all(|event| is_at_address(event))
}

/// Makes at most `most` steps with these marks, if there are any, and returns how many: steps of instructions in the
/// segment that CS has, that touch nothing that is marked, none but the last of which leads to one of the pairs.
fn run_marked(machine: &mut Machine, most: u64, pairs: &[Breakpoint], marks: &Option<Marks>) -> u64
    requires { HasProgram machine.old }
    ensures near { GoesNear pairs.now machine.old result machine.new }
    ensures unmarked { IfSome marks.now (λ m. GoesUnmarked m machine.old result machine.new) }
    ensures most { result ≤ most }
    ensures loaded { HasProgram machine.new }
{
    match marks {
        Some(marks) => machine.run_near(most, pairs, Some(marks)),
        None => machine.run_near(most, pairs, None),
    }
}

/// Makes at most `most` steps, none but the last of which leads to an event, and returns how many. It may make none.
/// `markable` says that marks tell whether events can come; where there are no marks all events are at addresses.
/// `pairs` is room for breakpoints.
pub(crate) fn run_up_to_event(
    machine: &mut Machine,
    most: u64,
    events: &[Event],
    markable: bool,
    marks: &Option<Marks>,
    pairs: &mut Vec<Breakpoint>,
) -> u64
    requires loaded { HasProgram machine.old }
    requires markable { IsTrue markable → list_all is_markable events.now ≡ true }
    requires addresses { marks.now ≡ None → list_all is_at_address events.now ≡ true }
    requires marked { IfSome marks.now (λ m. All (IsGuarded m) events.now) }
    ensures near { (start : Memory) → AreStill start machine.old.memory events.now →
        RunsUpToEvent start events.now machine.old result machine.new }
    ensures most { result ≤ most }
    ensures loaded { HasProgram machine.new }
{
    if !markable {
        return 0;
    }
    let segment = machine.cpu().cs;
    match put_pairs(pairs, segment, events) {
        Ok(()) => run_marked(machine, most, pairs.as_slice(), marks),
        Err(_) => 0,
    }
}
