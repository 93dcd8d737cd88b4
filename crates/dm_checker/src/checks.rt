//! Checked runs: a run of a machine, and the report of what was found in it.

ghost use Rattle.std.specs.Prelude.{◌≡◌, ◌≢◌, [], false, true, IfOk, OnErr, ℕ, None};
ghost use Rattle.dm_services.specs.state.State.{State, HasProgram};
ghost use Rattle.dm_machine.specs.Run.{IsRun};
ghost use Rattle.dm_findings.specs.Report.{report_of};
ghost use Rattle.dm_checker.specs.Checks.{IsReport, RunsPart};
ghost use Rattle.dm_checker.specs.Checking.{RunGoesOn, GoesToFirst, HasProcesses, IsLonger, IsUnderWay};

use crate::arena_copy::{ArenaCopy, read_arena};
use crate::steps::{look_at_step, run_unmarked};
use dm_findings::Report;
use dm_findings::processes::Process;
use dm_machine::{Machine, Stop};
use dm_origins::Origins;
use std::alloc::{AllocError, Global};
use std::marker::Model;

/// A checked run of a machine that is under way, with the report of what is found so far.
#[derive(Drop)]
pub struct CheckedRun {
    report: Report,
    left: u64,
    free: bool,
    over: Option<u8>,
    kept: ArenaCopy,
    origins: Origins,
}

impl Model for CheckedRun {
    ghost use Rattle.dm_checker.specs.Checking.{UnderWay};

    ghost Value = { UnderWay };

    ghost view = { λ c. record {
      report = c.report;
      left = c.left;
      free = c.free;
      over = c.over;
      arena = c.kept;
      origins = c.origins;
    } };
}

/// The exit code of the machine's first program, if it has ended. The machine stays.
fn exit_code(machine: &mut Machine) -> Option<u8>
    requires { HasProgram machine.old }
    ensures code { result ≡ machine.old.exited }
    ensures same { machine.new ≡ machine.old }
{
    // No step is made: it finds whether the program has ended.
    match machine.run(0) {
        Stop::Exited(code) => Some(code),
        _ => None,
    }
}

impl CheckedRun {
    /// A checked run of at most `n` steps of a machine, of which none is made yet. Unless `free`, findings about free
    /// memory are left out: reads of it, writes to it, and a stack in it. A program must be loaded. The machine stays.
    ///
    /// # Errors
    ///
    /// `AllocError` if an allocation fails.
    pub fn new(
        alloc: Global,
        machine: &mut Machine,
        n: u64,
        free: bool,
    ) -> Result<CheckedRun, AllocError>
        requires { HasProgram machine.old }
        ensures begins { IfOk result (λ c. IsUnderWay machine.old n machine.new c) }
        ensures free { IfOk result (λ c. c.free ≡ free) }
        ensures empty { IfOk result (λ c. c.report ≡ report_of []) }
        ensures same { machine.new ≡ machine.old }
    {
        let over = exit_code(machine);
        let kept = read_arena(alloc, machine)?;
        let present = Process::of(machine.space(), machine.present(), machine.steps());
        let origins = Origins::new(
            alloc,
            machine.ems(),
            machine.xms(),
            machine.space().a20(),
            present,
        )?;
        Ok(CheckedRun {
            report: Report::new(alloc),
            left: n,
            free,
            over,
            kept,
            origins,
        })
    }

    /// Makes steps until the run stops; with `pausing`, also until the report lists a finding more than before, and
    /// then returns None.
    fn advance(
        &mut self,
        alloc: Global,
        machine: &mut Machine,
        pausing: bool,
    ) -> Result<Option<Stop>, AllocError>
        requires program { HasProgram machine.old }
        requires way { (s : State) × (n : ℕ) × IsUnderWay s n machine.old self.old }
        ensures ok { IfOk result (λ stop. (s : State) (n : ℕ) → IsUnderWay s n machine.old self.old →
            RunGoesOn s n stop machine.new self.old self.new) }
        ensures lines { IfOk result (λ stop. IsLonger self.old.report self.new.report) }
        ensures processes { IfOk result (λ stop. (s : State) (n : ℕ) → IsUnderWay s n machine.old self.old →
            HasProcesses s n stop machine.new self.new) }
        ensures whole { IfOk result (λ stop. pausing ≡ false → stop ≢ None) }
        ensures first { IfOk result (λ stop. pausing ≡ true → (s : State) (n : ℕ) →
            IsUnderWay s n machine.old self.old → GoesToFirst s n self.old machine.new self.new stop) }
        ensures err { OnErr result ((s : State) (n : ℕ) → IsUnderWay s n machine.old self.old →
            RunsPart s n machine.new) }
        ensures loaded { HasProgram machine.new }
    {
        if let Some(code) = self.over {
            return Ok(Some(Stop::Exited(code)));
        }
        let free = self.free;
        let listed = self.report.listed().len();
        let most = self.left;
        let mut left = most;
        for _ in 0..most {
            self.kept.look_at_segments(machine);
            left -= run_unmarked(machine, &self.kept, left);
            if left == 0 {
                return Ok(Some(Stop::Steps));
            }
            if let Some(stop) = look_at_step(
                alloc,
                machine,
                free,
                &mut self.kept,
                &mut self.origins,
                &mut self.report,
            )? {
                return Ok(Some(stop));
            }
            left -= 1;
            if pausing && self.report.listed().len() > listed {
                self.left = left;
                return Ok(None);
            }
        }
        Ok(Some(Stop::Steps))
    }

    /// Makes steps until the report lists a finding more than before, or the run stops. Returns None in the first case,
    /// after a step at least; in the second why the run stopped, and then the report is that of the whole run. The
    /// findings that the report lists stay, and new ones stand behind them.
    ///
    /// # Errors
    ///
    /// `AllocError` if an allocation of the checker fails: the machine has made none, some or all steps that were left.
    pub fn go_on(
        &mut self,
        alloc: Global,
        machine: &mut Machine,
    ) -> Result<Option<Stop>, AllocError>
        requires program { HasProgram machine.old }
        requires way { (s : State) × (n : ℕ) × IsUnderWay s n machine.old self.old }
        ensures ok { IfOk result (λ stop. (s : State) (n : ℕ) → IsUnderWay s n machine.old self.old →
            RunGoesOn s n stop machine.new self.old self.new) }
        ensures lines { IfOk result (λ stop. IsLonger self.old.report self.new.report) }
        ensures processes { IfOk result (λ stop. (s : State) (n : ℕ) → IsUnderWay s n machine.old self.old →
            HasProcesses s n stop machine.new self.new) }
        ensures first { IfOk result (λ stop. (s : State) (n : ℕ) → IsUnderWay s n machine.old self.old →
            GoesToFirst s n self.old machine.new self.new stop) }
        ensures err { OnErr result ((s : State) (n : ℕ) → IsUnderWay s n machine.old self.old →
            RunsPart s n machine.new) }
        ensures loaded { HasProgram machine.new }
    {
        self.advance(alloc, machine, true)
    }

    /// The processes of the steps that were made, in the order of their starts: the one that was present where the run
    /// began, and those that it has started. Each has its last step if it has ended.
    pub fn processes(&self) -> &[Process]
        ensures { result.now ≡ self.now.origins.processes }
    {
        self.origins.processes()
    }

    /// How many steps the run may still make, where it goes on.
    pub fn steps_remaining(&self) -> u64
        ensures { result ≡ self.now.left }
    {
        self.left
    }

    /// The report of what is found so far.
    pub fn report(&self) -> &Report
        ensures { result.now ≡ self.now.report }
    {
        &self.report
    }
}

/// Makes at most `n` steps, as `Machine::run` does, and reports what they did to the headers of the arena and to free
/// memory, which calls failed, and, if the first program ended and does not stay resident, what it left allocated.
/// Unless `free`, findings about free memory are left out: reads of it, writes to it, and a stack in it. Returns why
/// the run stopped, and the report. A program must be loaded.
///
/// An `Err` says that an allocation of the checker failed: the machine has made none, some or all steps of the run, and
/// the report is lost.
pub fn check(
    alloc: Global,
    machine: &mut Machine,
    n: u64,
    free: bool,
) -> Result<(Stop, Report), AllocError>
    requires { HasProgram machine.old }
    ensures run { IfOk result (λ r. IsRun machine.old n r.0 machine.new) }
    ensures report { IfOk result (λ r. IsReport machine.old n free r.0 machine.new r.1) }
    ensures err { OnErr result (RunsPart machine.old n machine.new) }
    ensures loaded { HasProgram machine.new }
{
    let mut run = CheckedRun::new(alloc, machine, n, free)?;
    let Some(stop) = run.advance(alloc, machine, false)? else {
        unreachable!()
    };
    Ok((stop, run.report))
}
