//! Runs of a host's machine under the memory checker.
ghost use Rattle.std.specs.Prelude.{◌≡◌, ◌++◌, [], IfOk, IfErr, OnOk, option_map};
ghost use Rattle.dm_reports.specs.Reports.{report_text};
ghost use Rattle.dm_reports.specs.Stops.{stopped_line};
ghost use Rattle.dm_host.specs.Checking.{Checks, IsUnchecked};
ghost use Rattle.dm_host.specs.inner.Checking.{ChecksTo};

use crate::host::{Host, Stage};
use crate::kept::KeptReport;
use crate::refusal::Refusal;
use dm_checker::check;
use dm_debug::Session;
use dm_findings::Report;
use dm_machine::{Machine, Stop};
use dm_reports::{put_report, put_stop};
use std::alloc::{AllocError, Global};

/// The text of a report and the line about the stop of a machine, as `dm check` prints them. An `Err` is a failed
/// allocation.
fn text_of(
    alloc: Global,
    report: &Report,
    stop: Stop,
    machine: &Machine,
) -> Result<Vec<u8>, AllocError>
    ensures { IfOk result (λ text. text.items ≡ report_text report.now
        ++ stopped_line stop machine.now.memory machine.now.cpu) }
{
    let mut text = Vec::new(alloc);
    put_report(&mut text, report)?;
    put_stop(&mut text, stop, &machine.cpu(), machine.space())?;
    Ok(text)
}

/// What a host keeps of a checked run: its report, and the text of that with the line about the stop of a machine. An
/// `Err` is a failed allocation.
fn kept_of(
    alloc: Global,
    report: &Report,
    stop: Stop,
    machine: &Machine,
) -> Result<(KeptReport, Vec<u8>), AllocError>
    ensures report { IfOk result (λ r. r.0 ≡ report.now) }
    ensures text { IfOk result (λ r. r.1.items ≡ report_text report.now
        ++ stopped_line stop machine.now.memory machine.now.cpu) }
{
    let text = text_of(alloc, report, stop, machine)?;
    Ok((KeptReport::of(alloc, report)?, text))
}

/// Makes at most `n` steps of the session's machine under the checker, and returns the session with the stop, the
/// report, and the text of the report with the line about the stop; None in their place if an allocation failed, after
/// none, some or all of the steps. The breakpoints of the session do not count, and stay.
fn checked(
    alloc: Global,
    session: Session,
    n: u64,
) -> (Session, Option<(Stop, KeptReport, Vec<u8>)>)
    ensures { ChecksTo session n (option_map (λ r. (r.0, r.1, r.2.items)) result.1) result.0 }
{
    let (mut machine, points) = session.into_parts();
    let Ok((stop, report)) = check(alloc, &mut machine, n, true) else {
        return (Session::from_parts(machine, points), None);
    };
    let told = kept_of(alloc, &report, stop, &machine);
    let session = Session::from_parts(machine, points);
    match told {
        Ok((report, text)) => (session, Some((stop, report, text))),
        Err(_) => (session, None),
    }
}

impl Host {
    /// Makes at most `n` steps under the memory checker, as `run` does without it, and keeps the report, and the text
    /// of it with the line about the stop as the answer. Returns the stop.
    ///
    /// # Errors
    ///
    /// `NotLoaded` exactly where no program is loaded; then nothing has changed. `Memory` if an allocation failed:
    /// none, some or all of the steps were made, and the answer and the report before stay.
    pub fn check(&mut self, alloc: Global, n: u64) -> Result<Stop, Refusal>
        ensures ok { IfOk result (λ stop. Checks self.old n stop self.new) }
        ensures err { IfErr result (λ e. IsUnchecked self.old n e self.new) }
    {
        let Stage::Loaded(_) = &self.stage else {
            return Err(Refusal::NotLoaded);
        };
        let Stage::Loaded(session) = std::mem::replace(&mut self.stage, Stage::Spent) else {
            unreachable!()
        };
        let (session, found) = checked(alloc, session, n);
        self.stage = Stage::Loaded(session);
        let Some((stop, report, text)) = found else {
            return Err(Refusal::Memory);
        };
        self.answer = text;
        self.report = report;
        Ok(stop)
    }
}
