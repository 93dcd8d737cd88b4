//! Going back: a step, to the last hit, to any earlier step, and to the start.

ghost use Rattle.std.specs.Prelude.{◌≡◌, ◌<◌, ℕ, Some, IfOk, OnErr};
ghost use Rattle.dm_gdb.specs.Monitor.{step_asked};
ghost use Rattle.dm_gdb.specs.Servers.{Replies, undone_reply};
ghost use Rattle.dm_requests.specs.declared.request.Request.TheVariants as request;

use crate::replies::Reply;
use crate::server::Server;
use dm_machine::Machine;
use dm_target::{Undone, code_address, is_among, step_back, turn_back};
use std::alloc::AllocError;

/// The reply where going back ended.
fn undone_reply(breaks: &[u32], undone: Undone, machine: &Machine) -> Reply
    ensures { result ≡ undone_reply breaks.now undone machine.now }
{
    match undone {
        Undone::Begun => Reply::Begun,
        Undone::Hit(point) => Reply::Watch(point),
        Undone::Back => {
            if is_among(breaks, code_address(machine)) {
                Reply::Breakpoint
            } else {
                Reply::Signal(0x05)
            }
        }
    }
}

impl Server {
    /// `bs`: goes back a step, with what the user changed up to then, and returns the reply: a step that hit a
    /// watchpoint is replied as its hit. An `Err` is a failed allocation, and nothing has changed.
    pub(crate) fn step_back(&mut self) -> Result<Reply, AllocError>
        ensures ok { IfOk result (λ r. (most : ℕ) → Replies self.old most request.StepBack r self.new) }
        ensures err { OnErr result (self.new ≡ self.old) }
    {
        let undone = step_back(self.alloc, &mut self.history, self.points.watches())?;
        self.is_ended = false;
        let breaks = self.points.breaks();
        Ok(undone_reply(breaks, undone, self.history.machine()))
    }

    /// `bc`: goes back to the last state at a breakpoint, or before a step that hit a watchpoint, or to the start, with
    /// what the user changed up to then, and returns the reply. An `Err` is a failed allocation, and nothing has
    /// changed.
    pub(crate) fn continue_back(&mut self) -> Result<Reply, AllocError>
        ensures ok { IfOk result (λ r. (most : ℕ) → Replies self.old most request.ContinueBack r self.new) }
        ensures err { OnErr result (self.new ≡ self.old) }
    {
        let breaks = self.points.breaks();
        let undone = turn_back(self.alloc, &mut self.history, breaks, self.points.watches())?;
        self.is_ended = false;
        Ok(undone_reply(breaks, undone, self.history.machine()))
    }

    /// `monitor step N`, where the step lies before the present one: goes back to it, and returns the reply. An `Err`
    /// is a failed allocation, and nothing has changed.
    pub(crate) fn go_back(&mut self, line: &[u8], number: u32) -> Result<Reply, AllocError>
        requires line { step_asked line.now ≡ Some number }
        requires before { number < self.old.history.machine.steps }
        ensures ok { IfOk result (λ r. (most : ℕ) → Replies self.old most (request.Command line.now) r self.new) }
        ensures err { OnErr result (self.new ≡ self.old) }
    {
        let _line = line;
        if (number as u64) < self.history.steps_of_beginning() {
            return Ok(Reply::Passed);
        }
        if self.history.go_back_to(number as u64)? {
            self.is_ended = false;
            return Ok(Reply::Done);
        }
        Ok(Reply::Passed)
    }

    /// `vRun`: starts the program again, without what the user changed, and returns the reply. Its output is sent anew.
    /// An `Err` is a failed allocation, and nothing has changed.
    pub(crate) fn restart(&mut self) -> Result<Reply, AllocError>
        ensures ok { IfOk result (λ r. (most : ℕ) → Replies self.old most request.Restart r self.new) }
        ensures err { OnErr result (self.new ≡ self.old) }
    {
        self.history.restart()?;
        self.shown = 0;
        self.is_ended = false;
        Ok(Reply::Signal(0x05))
    }
}
