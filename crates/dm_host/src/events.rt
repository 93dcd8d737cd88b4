//! Runs of a host's machine up to events. The breakpoints of its debugging session do not count, and stay.
ghost use Rattle.std.specs.Prelude.{◌≡◌, IfOk, IfErr, OnErr};
ghost use Rattle.dm_debug.specs.stops.Runs.{RunsTo};
ghost use Rattle.dm_host.specs.Hosts.{Works};
ghost use Rattle.dm_host.specs.Events.{RunsSession, IsNotRun};

use crate::host::{Host, Stage};
use crate::refusal::Refusal;
use dm_debug::Session;
use dm_debug::stops::{Event, RunEnd, run_to};
use std::alloc::{AllocError, Global};

/// Makes at most `n` steps of the session's machine up to an event, and returns the session with why the steps ended.
/// If an allocation fails, the session is as before.
fn went(
    alloc: Global,
    session: Session,
    n: u64,
    events: &[Event],
) -> (Session, Result<RunEnd, AllocError>)
    ensures ok { IfOk result.1 (λ ending. RunsSession session n events.now ending result.0) }
    ensures err { OnErr result.1 (result.0 ≡ session) }
{
    let (mut machine, points) = session.into_parts();
    let ending = run_to(alloc, &mut machine, n, events);
    (Session::from_parts(machine, points), ending)
}

impl Host {
    /// Makes at most `n` steps, but none after the first one that leads to one of the events, and returns why the steps
    /// ended.
    ///
    /// # Errors
    ///
    /// `NotLoaded` exactly where no program is loaded; else `Memory` if an allocation failed. Nothing has changed then.
    pub fn run_to(&mut self, alloc: Global, n: u64, events: &[Event]) -> Result<RunEnd, Refusal>
        ensures ok { IfOk result (λ ending. Works self.old (λ s t. RunsSession s n events.now ending t) self.new) }
        ensures err { IfErr result (λ e. IsNotRun self.old e) }
        ensures kept { OnErr result (self.new ≡ self.old) }
    {
        let Stage::Loaded(_) = &self.stage else {
            return Err(Refusal::NotLoaded);
        };
        let Stage::Loaded(session) = std::mem::replace(&mut self.stage, Stage::Spent) else {
            unreachable!()
        };
        let (session, ended) = went(alloc, session, n, events);
        self.stage = Stage::Loaded(session);
        let Ok(ending) = ended else {
            return Err(Refusal::Memory);
        };
        Ok(ending)
    }
}
