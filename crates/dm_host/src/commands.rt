//! Debugger commands on a host's machine.
ghost use Rattle.std.specs.Prelude.{◌≡◌, OnOk, IfErr};
ghost use Rattle.dm_host.specs.Commands.{IsCommanded, IsUncommanded};
ghost use Rattle.dm_host.specs.inner.Answers;

use crate::host::{Host, Stage};
use crate::refusal::Refusal;
use dm_debug::PrintedText;
use std::alloc::Global;

/// Why a session refused a line, as a host returns it. A failed write is a failed allocation, since the answer is
/// written to memory.
fn refusal_of(refusal: dm_debug::CommandRefusal) -> Refusal
    ensures { result ≡ Answers.refusal_of refusal }
{
    match refusal {
        dm_debug::CommandRefusal::Syntax => Refusal::Syntax,
        dm_debug::CommandRefusal::Full => Refusal::Full,
        dm_debug::CommandRefusal::Memory => Refusal::Memory,
        dm_debug::CommandRefusal::Write => Refusal::Memory,
    }
}

impl Host {
    /// Executes the debugger command that a line asks for, and keeps what the command prints as the answer. `line` has
    /// no line end.
    ///
    /// # Errors
    ///
    /// In this order: `NotLoaded` where no program is loaded; `Syntax` where the line is no command, or clears a
    /// breakpoint that is not set; `Full` where it sets a seventeenth breakpoint. Nothing has changed then, and the
    /// answer before stays. `Memory` if an allocation failed: the command, or some first part of it, may then have been
    /// executed, and the answer before stays.
    pub fn command(&mut self, alloc: Global, line: &[u8]) -> Result<(), Refusal>
        ensures ok { OnOk result (IsCommanded self.old line.now self.new) }
        ensures err { IfErr result (λ e. IsUncommanded self.old line.now e self.new) }
    {
        let Stage::Loaded(session) = &mut self.stage else {
            return Err(Refusal::NotLoaded);
        };
        let mut answer = PrintedText::new(alloc);
        match session.command(alloc, line, &mut answer) {
            Ok(()) => {
                self.answer = answer.into_bytes();
                Ok(())
            }
            Err(refusal) => Err(refusal_of(refusal)),
        }
    }
}
