//! The debugger's own commands, which `monitor` hands on.

ghost use Rattle.std.specs.Prelude.{◌≡◌, ℕ, Some, true, IfOk, OnErr};
ghost use Rattle.dm_requests.specs.commands.Commands.{command_of};
ghost use Rattle.dm_debug.specs.Sessions.{new_session};
ghost use Rattle.dm_gdb.specs.Monitor.{is_shown, is_shown_line, step_asked, stepped_reply, text_reply};
ghost use Rattle.dm_gdb.specs.Servers.{Replies};
ghost use Rattle.dm_gdb.specs.inner.Monitor.{ShowsLine};
ghost use Rattle.dm_requests.specs.declared.request.Request.TheVariants as request;

use crate::checking::is_check;
use crate::replies::Reply;
use crate::server::Server;
use dm_debug::{PrintedText, Session};
use dm_machine::Stop;
use dm_requests::commands::{Command, read_command, read_number};
use dm_requests::packets::Payload;
use std::alloc::{AllocError, Global};

/// Whether a command shows something and changes nothing: R, U, D, M, P, X and O.
fn is_shown(command: &Command) -> bool
    ensures { result ≡ is_shown command.now }
{
    match command {
        Command::Registers => true,
        Command::Unassemble(_, _) => true,
        Command::Dump(_, _) => true,
        Command::Arena => true,
        Command::Pages => true,
        Command::Extended => true,
        Command::Output => true,
        _ => false,
    }
}

/// Whether a line is such a command.
fn is_shown_line(line: &[u8]) -> bool
    ensures { result ≡ is_shown_line (command_of line.now) }
{
    match read_command(line) {
        Some(command) => is_shown(&command),
        None => false,
    }
}

/// The number of `step N`, in hexadecimal; None for any other line.
fn step_of(line: &[u8]) -> Option<u32>
    ensures { result ≡ step_asked line.now }
{
    read_number(line.strip_prefix(b"step ")?)
}

/// The reply that prints a text.
fn text_reply(text: Vec<u8>) -> Reply
    ensures { result ≡ text_reply text.items }
{
    if text.is_empty() {
        return Reply::Done;
    }
    Reply::Bytes(Payload::new(text))
}

/// The reply where the steps up to the one that is wanted ended for this reason.
fn stepped_reply(stop: Stop) -> Reply
    ensures { result ≡ stepped_reply stop }
{
    match stop {
        Stop::Steps => Reply::Done,
        _ => Reply::StoppedBefore,
    }
}

/// What a line prints that is a command which shows something. An `Err` is a failed allocation.
fn shown_by(alloc: Global, session: &mut Session, line: &[u8]) -> Result<Vec<u8>, AllocError>
    requires { is_shown_line (command_of line.now) ≡ true }
    ensures { IfOk result (λ text. ShowsLine session.old line.now text.items) }
{
    let mut text = PrintedText::new(alloc);
    match session.command(alloc, line, &mut text) {
        Ok(()) => Ok(text.into_bytes()),
        Err(_) => Err(AllocError),
    }
}

impl Server {
    /// What a line prints that is a command which shows something. An `Err` is a failed allocation.
    fn show(&self, line: &[u8]) -> Result<Vec<u8>, AllocError>
        requires { is_shown_line (command_of line.now) ≡ true }
        ensures { IfOk result (λ text. ShowsLine (new_session self.now.history.machine) line.now text.items) }
    {
        // (A session owns its machine, so it gets a copy.)
        let mut session = Session::new(self.history.copy_machine(self.alloc)?);
        shown_by(self.alloc, &mut session, line)
    }

    /// Makes steps up to the one with this number, or goes back to it, and returns the reply. An `Err` is a failed
    /// allocation, and nothing has changed.
    fn go_to(&mut self, line: &[u8], number: u32) -> Result<Reply, AllocError>
        requires { step_asked line.now ≡ Some number }
        ensures ok { IfOk result (λ r. (most : ℕ) → Replies self.old most (request.Command line.now) r self.new) }
        ensures err { OnErr result (self.new ≡ self.old) }
    {
        let here = self.history.machine().steps();
        if (number as u64) < here {
            return self.go_back(line, number);
        }
        let stop = self.history.run(number as u64 - here);
        Ok(stepped_reply(stop))
    }

    /// `qRcmd`: does what the line says, and returns what is printed. An `Err` is a failed allocation, and nothing has
    /// changed.
    pub(crate) fn monitor(&mut self, line: &[u8]) -> Result<Reply, AllocError>
        ensures ok { IfOk result (λ r. (most : ℕ) → Replies self.old most (request.Command line.now) r self.new) }
        ensures err { OnErr result (self.new ≡ self.old) }
    {
        if let Some(number) = step_of(line) {
            return self.go_to(line, number);
        }
        if is_check(line) {
            return self.check(line);
        }
        if !is_shown_line(line) {
            return Ok(Reply::Help);
        }
        let text = self.show(line)?;
        Ok(text_reply(text))
    }
}
