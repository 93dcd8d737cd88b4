//! Runs up to an event, a stop, or a number of steps.

ghost use Rattle.std.specs.Prelude.{◌≡◌, ◌≢◌, ◌<◌, ◌≤◌, All, IfOk, IfErr, IfSome, OnErr, IsTrue, None, true, map};
ghost use Rattle.std.specs.List.{list_all};
ghost use Rattle.dm_space.specs.Memory.{Memory};
ghost use Rattle.dm_services.specs.declared.state.stop.Stop.TheVariants.{Steps as AllSteps};
ghost use Rattle.dm_services.specs.state.State.{HasProgram};
ghost use Rattle.dm_machine.specs.Run.{IsRun};
ghost use Rattle.dm_debug.specs.stops.Runs.{RunsTo};
ghost use Rattle.dm_debug.specs.stops.inner.Marking.{is_markable, AreStill, IsGuarded};
ghost use Rattle.dm_debug.specs.stops.inner.Nearby.{is_at_address, RunsUpToEvent};
ghost use Rattle.dm_debug.specs.stops.inner.Watching.{watch_of, GoesTo};

use crate::stops::events::{Event, Watch, first_come, watches_of};
use crate::stops::marking::{are_markable, marks_of};
use crate::stops::nearby::{are_at_addresses, run_up_to_event};
use dm_machine::{Breakpoint, Machine, Stop};
use dm_touches::quiet::Marks;
use std::alloc::{AllocError, Global};

/// Why a run up to events has ended.
#[derive(Clone, Copy, Debug, PartialEq, Eq)]
pub enum RunEnd {
    /// The machine stopped, or all steps were made.
    Stopped(Stop),
    /// The last step led to an event, the first in the list that came: its index, from 0.
    Came(usize),
}

/// Makes at least one step and at most `most`, none but the last of which leads to an event, and returns how many; an
/// `Err` is why the machine stopped instead. `markable` says that marks tell whether events can come, and `pairs` is
/// room for breakpoints.
fn advance(
    machine: &mut Machine,
    most: u64,
    events: &[Event],
    markable: bool,
    marks: &Option<Marks>,
    pairs: &mut Vec<Breakpoint>,
) -> Result<u64, Stop>
    requires loaded { HasProgram machine.old }
    requires some { 0 < most }
    requires markable { IsTrue markable → list_all is_markable events.now ≡ true }
    requires addresses { marks.now ≡ None → list_all is_at_address events.now ≡ true }
    requires marked { IfSome marks.now (λ m. All (IsGuarded m) events.now) }
    ensures near { IfOk result (λ n. (start : Memory) → AreStill start machine.old.memory events.now →
        RunsUpToEvent start events.now machine.old n machine.new) }
    ensures some { IfOk result (λ n. 0 < n) }
    ensures most { IfOk result (λ n. n ≤ most) }
    ensures stops { IfErr result (λ why. (why ≢ AllSteps) × IsRun machine.old 1 why machine.new) }
    ensures loaded { HasProgram machine.new }
{
    let made = run_up_to_event(machine, most, events, markable, marks, pairs);
    if made != 0 {
        return Ok(made);
    }
    match machine.run(1) {
        Stop::Steps => Ok(1),
        why => Err(why),
    }
}

/// Makes at most `most` steps, as `run_to` does. `watches` are the events with the bytes before the run, `markable`
/// says that marks tell whether events can come, and `pairs` is room for breakpoints.
fn go(
    machine: &mut Machine,
    most: u64,
    events: &[Event],
    watches: &[Watch],
    markable: bool,
    marks: &Option<Marks>,
    pairs: &mut Vec<Breakpoint>,
) -> RunEnd
    requires loaded { HasProgram machine.old }
    requires markable { IsTrue markable → list_all is_markable events.now ≡ true }
    requires addresses { marks.now ≡ None → list_all is_at_address events.now ≡ true }
    requires marked { IfSome marks.now (λ m. All (IsGuarded m) events.now) }
    ensures goes { (start : Memory) → watches.now ≡ map (watch_of start) events.now →
        AreStill start machine.old.memory events.now → GoesTo start machine.old most events.now result machine.new }
    ensures loaded { HasProgram machine.new }
{
    let mut left = most;
    for _ in 0..most {
        if left == 0 {
            return RunEnd::Stopped(Stop::Steps);
        }
        match advance(machine, left, events, markable, marks, pairs) {
            Ok(made) => left -= made,
            Err(stop) => return RunEnd::Stopped(stop),
        }
        if let Some(index) = first_come(watches, machine) {
            return RunEnd::Came(index);
        }
    }
    RunEnd::Stopped(Stop::Steps)
}

/// Marks on the memory that these events look at; None if all are at addresses. An `Err` is a failed allocation.
fn marks_if_any(alloc: Global, events: &[Event]) -> Result<Option<Marks>, AllocError>
    ensures addresses { IfOk result (λ marks. marks ≡ None → list_all is_at_address events.now ≡ true) }
    ensures marked { IfOk result (λ marks. IfSome marks (λ m. All (IsGuarded m) events.now)) }
{
    if are_at_addresses(events) {
        return Ok(None);
    }
    Ok(Some(marks_of(alloc, events)?))
}

/// Makes at most `most` steps, but none after the first one that leads to one of the events, and returns why the steps
/// ended. A program must be loaded.
///
/// # Errors
///
/// `AllocError` if an allocation fails, and nothing has changed.
pub fn run_to(
    alloc: Global,
    machine: &mut Machine,
    most: u64,
    events: &[Event],
) -> Result<RunEnd, AllocError>
    requires { HasProgram machine.old }
    ensures ok { IfOk result (λ ending. RunsTo machine.old most events.now ending machine.new) }
    ensures err { OnErr result (machine.new ≡ machine.old) }
    ensures loaded { HasProgram machine.new }
{
    if most == 0 || events.is_empty() {
        return Ok(RunEnd::Stopped(machine.run(most)));
    }
    let watches = watches_of(alloc, events, machine.space())?;
    let mut pairs = Vec::new(alloc);
    let marks = marks_if_any(alloc, events)?;
    let markable = are_markable(events);
    Ok(go(
        machine,
        most,
        events,
        watches.as_slice(),
        markable,
        &marks,
        &mut pairs,
    ))
}
