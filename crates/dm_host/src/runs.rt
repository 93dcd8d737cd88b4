//! Runs of a host's machine. The breakpoints of its debugging session do not count, and stay.
ghost use Rattle.std.specs.Prelude.{◌≡◌, IfOk, IfErr, None};
ghost use Rattle.dm_machine.specs.Run.{IsRun};
ghost use Rattle.dm_machine.specs.Until.{RunsUntil};
ghost use Rattle.dm_host.specs.Hosts.{Works, IsNotLoaded};

use crate::host::{Host, Stage};
use crate::refusal::Refusal;
use dm_machine::{Breakpoint, Stop};

impl Host {
    /// Makes at most `n` steps, as `Machine::run`, and returns the stop.
    ///
    /// # Errors
    ///
    /// `NotLoaded` exactly where no program is loaded; then nothing has changed.
    pub fn run(&mut self, n: u64) -> Result<Stop, Refusal>
        ensures ok { IfOk result (λ stop. Works self.old (λ s t. IsRun s.machine n stop t.machine ×
            (t.points ≡ s.points)) self.new) }
        ensures err { IfErr result (λ e. IsNotLoaded self.old e × (self.new ≡ self.old)) }
    {
        let Stage::Loaded(session) = &mut self.stage else {
            return Err(Refusal::NotLoaded);
        };
        Ok(session.run(n))
    }

    /// Makes at most `n` steps, and stops after the first one that leads to one of these breakpoints, as
    /// `Machine::run_until`. Returns the stop; None if the last step led to a breakpoint.
    ///
    /// # Errors
    ///
    /// `NotLoaded` exactly where no program is loaded; then nothing has changed.
    pub fn run_until(&mut self, n: u64, breakpoints: &[Breakpoint]) -> Result<Option<Stop>, Refusal>
        ensures ok { IfOk result (λ stop. Works self.old (λ s t. RunsUntil s.machine n breakpoints.now stop t.machine ×
            (t.points ≡ s.points)) self.new) }
        ensures err { IfErr result (λ e. IsNotLoaded self.old e × (self.new ≡ self.old)) }
    {
        let Stage::Loaded(session) = &mut self.stage else {
            return Err(Refusal::NotLoaded);
        };
        Ok(session.run_until(n, breakpoints))
    }
}
