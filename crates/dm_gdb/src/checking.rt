//! `monitor check`: steps up to the first in which the checker finds something.

ghost use Rattle.std.specs.Prelude.{◌≡◌, ◌++◌, ◌↔◌, ℕ, true, IsTrue, IfOk, OnErr, OnOk};
ghost use Rattle.dm_gdb.specs.Checking.{checked_text, checked_end_line, findings_text, is_check, stopped_line};
ghost use Rattle.dm_gdb.specs.Servers.{Replies};
ghost use Rattle.dm_gdb.specs.inner.Checking.{LeadsAhead};
ghost use Rattle.dm_requests.specs.declared.request.Request.TheVariants as request;
ghost use Rattle.dm_services.specs.state.State.{HasProgram};
ghost use Rattle.dm_services.specs.declared.state.stop.Stop.TheVariants as stop;

use crate::replies::Reply;
use crate::server::Server;
use dm_checker::CheckedRun;
use dm_findings::{Listed, Report};
use dm_machine::{Machine, Stop};
use dm_reports::{put_lines, put_omitted, reason_of};
use dm_requests::packets::Payload;
use std::alloc::{AllocError, Global};

/// The most steps that one command makes.
const MOST: u64 = 100_000_000;

/// How many steps lead to where the command ends, and what it prints.
#[derive(Drop)]
pub(crate) struct Ahead {
    pub steps: u64,
    pub text: Vec<u8>,
}

/// Whether a line is this command.
pub(crate) fn is_check(line: &[u8]) -> bool
    ensures { result ≡ is_check line.now }
{
    line == b"check".as_slice()
}

/// Appends the lines of the findings, and how many are left out; or that there is none. An `Err` is a failed
/// allocation.
fn put_findings(out: &mut Vec<u8>, listed: &[Listed], omitted: u64) -> Result<(), AllocError>
    ensures { OnOk result (out.new.items ≡ out.old.items ++ findings_text listed.now omitted) }
{
    if listed.is_empty() {
        return out.extend_from_slice(b"nothing is found\n");
    }
    put_lines(out, listed)?;
    put_omitted(out, omitted)
}

/// Appends that the program has stopped, and why. An `Err` is a failed allocation.
fn put_stopped(out: &mut Vec<u8>, why: Stop) -> Result<(), AllocError>
    ensures { OnOk result (out.new.items ≡ out.old.items ++ stopped_line why) }
{
    out.extend_from_slice(b"the program has stopped: ")?;
    out.extend_from_slice(reason_of(why))?;
    out.extend_from_slice(b"\n")
}

/// Appends the line about the end of the steps; none where they led to a finding, and the program goes on. An `Err` is
/// a failed allocation.
fn put_end(out: &mut Vec<u8>, why: Option<Stop>) -> Result<(), AllocError>
    ensures { OnOk result (out.new.items ≡ out.old.items ++ checked_end_line why) }
{
    match why {
        None => Ok(()),
        Some(Stop::Steps) => out.extend_from_slice(b"100000000 steps were made\n"),
        Some(why) => put_stopped(out, why),
    }
}

/// What the command prints, by the report of the steps and why they ended. An `Err` is a failed allocation.
#[tactic(auto, unfolding(crate::specs::Checking::checked_text))]
fn checked_text(alloc: Global, report: &Report, why: Option<Stop>) -> Result<Vec<u8>, AllocError>
    ensures { IfOk result (λ text. text.items ≡ checked_text report.now why) }
{
    let mut text = Vec::new(alloc);
    put_findings(&mut text, report.listed(), report.omitted())?;
    put_end(&mut text, why)?;
    Ok(text)
}

/// Whether a run stopped for want of memory.
fn wants_memory(why: Stop) -> bool
    ensures { IsTrue result ↔ (why ≡ stop.Memory) }
{
    match why {
        Stop::Memory => true,
        _ => false,
    }
}

/// Where the command ends after so many steps, by their report and why they ended. An `Err` is a failed allocation.
fn told(alloc: Global, report: &Report, why: Option<Stop>, steps: u64) -> Result<Ahead, AllocError>
    ensures { IfOk result (λ ahead. (ahead.steps ≡ steps) × (ahead.text.items ≡ checked_text report.now why)) }
{
    let text = checked_text(alloc, report, why)?;
    Ok(Ahead { steps, text })
}

/// Makes the steps to where the command ends. An `Err` is a failed allocation, or one that the machine wants for the
/// console's output.
fn look_ahead(alloc: Global, machine: &mut Machine) -> Result<Ahead, AllocError>
    requires { HasProgram machine.old }
    ensures { IfOk result (λ ahead. LeadsAhead machine.old ahead.steps ahead.text.items) }
{
    let mut run = CheckedRun::new(alloc, machine, MOST, true)?;
    let Some(why) = run.go_on(alloc, machine)? else {
        let steps = MOST.saturating_sub(run.steps_remaining());
        return told(alloc, run.report(), None, steps);
    };
    if wants_memory(why) {
        return Err(AllocError);
    }
    told(alloc, run.report(), Some(why), MOST)
}

impl Server {
    /// `monitor check`: makes steps, at most 100,000,000, to the first in which the checker finds something, and
    /// returns the reply, which has the lines of what is found. The steps are looked at on a copy of the machine, and
    /// then made. An `Err` is a failed allocation, and nothing has changed.
    pub(crate) fn check(&mut self, line: &[u8]) -> Result<Reply, AllocError>
        requires { is_check line.now ≡ true }
        ensures ok { IfOk result (λ r. (most : ℕ) → Replies self.old most (request.Command line.now) r self.new) }
        ensures err { OnErr result (self.new ≡ self.old) }
    {
        let _line = line;
        let mut machine = self.history.copy_machine(self.alloc)?;
        let ahead = look_ahead(self.alloc, &mut machine)?;
        match self.history.run(ahead.steps) {
            Stop::Memory => Ok(Reply::StoppedBefore),
            _ => Ok(Reply::Bytes(Payload::new(ahead.text))),
        }
    }
}
