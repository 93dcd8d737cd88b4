//! One checked step: the machine makes it, and what is found of it is added to the report. After an `Err`, a failed
//! allocation, `out` and the report may have a part of what is found. `free` is whether findings about free memory are
//! reported.

ghost use Rattle.std.specs.Prelude.{◌≡◌, ◌≤◌, ◌++◌, ◌∷◌, ◌&&◌, not, [], map, IfOk, OnOk, OnErr, Option, None, Some, List};
ghost use Rattle.dm_findings.specs.Calls.{call_of};
ghost use Rattle.dm_findings.specs.Findings.{is_of_free_memory};
ghost use Rattle.dm_findings.specs.declared.finding.Finding.{Finding};
ghost use Rattle.dm_findings.specs.declared.finding.Found.{Found};
ghost use Rattle.dm_services.specs.state.State.{HasProgram, State};
ghost use Rattle.dm_machine.specs.Run.{Answers};
ghost use Rattle.dm_checker.specs.Findings.{turn_found, IsFound, FindsTouched};
ghost use Rattle.dm_checker.specs.Origins.{IsKnownAfter};
ghost use Rattle.dm_checker.specs.Checks.{FindsAtEnd};
ghost use Rattle.dm_checker.specs.ArenaCopy.{IsArenaCopy, broken_at};
ghost use Rattle.dm_checker.specs.inner.ArenaCopy.{shown_of};
ghost use Rattle.dm_checker.specs.inner.Steps.{IsBefore, IsPart, Looks, ReportsMore, found_by, ChecksOne, GoesUnfound};

use crate::acts::Before;
use crate::arena_copy::{ArenaCopy, Broken, read_arena};
use crate::arranged::put_arranged;
use crate::freed::put_freed_twice;
use crate::headers::{put_all_mapped_away, put_all_overwritten};
use crate::recording::record_step;
use crate::touched::put_touched;
use dm_findings::{Act, Call, Finding, Found, Report};
use dm_machine::{Machine, Stop, tables_and_memory_are_consistent};
use dm_origins::Origins;
use dm_origins::leaks::put_leaks;
use dm_origins::outcomes::{append_call_findings, append_finding, arranges, call_stays_resident};
use std::alloc::{AllocError, Global};

/// Appends to `out` that the step destroyed the arena or made it whole again, if it did, by where the arena's list
/// broke before the step and after it (None: nowhere).
fn put_turned(
    out: &mut Vec<Finding>,
    before: &Option<Broken>,
    after: &Option<Broken>,
) -> Result<(), AllocError>
    ensures { OnOk result (out.new.items ≡ out.old.items ++ turn_found (broken_at before.now) (broken_at after.now)) }
{
    match (before, after) {
        (None, Some(broken)) => append_finding(out, Finding::Destroyed(broken.segment)),
        (Some(_), None) => append_finding(out, Finding::Whole),
        _ => Ok(()),
    }
}

/// Appends to `out` what is found of a step by what it changes, by the arena read before it (`old`) and after it
/// (`new`). `before` is what was kept of the state before the step, `machine` is in the state after it.
fn look_anew(
    out: &mut Vec<Finding>,
    before: &Before,
    old: &ArenaCopy,
    new: &ArenaCopy,
    machine: &Machine,
) -> Result<(), AllocError>
    requires before { (s : State) × IsBefore s before.now × IsArenaCopy s.upper s.memory old.now }
    requires after { IsArenaCopy machine.now.upper machine.now.memory new.now }
    ensures { OnOk result ((s : State) → IsBefore s before.now → IsArenaCopy s.upper s.memory old.now →
        Looks s machine.now old.now out.old.items out.new.items) }
{
    let space = machine.space();
    let after = machine.cpu();
    if !arranges(&before.cpu, before.call) {
        put_all_overwritten(out, space, &old.windows, &old.headers)?;
    }
    put_all_mapped_away(out, space, &old.windows, &old.headers)?;
    put_turned(out, &old.broken, &new.broken)?;
    put_freed_twice(out, &before.cpu, &after, before.call, &old.headers)?;
    append_call_findings(out, &before.cpu, &after, before.call)?;
    put_arranged(out, before, &after, &old.headers, new)
}

/// Appends to `out` what is found of a step by what it changes. `kept`, the arena as it was read before the step,
/// becomes the arena after it, which is read anew only if the step may have changed it. `origins` is what is known
/// before the step of who allocated and who freed, and becomes what is known after it. An `Err` is a failed allocation.
fn look(
    alloc: Global,
    out: &mut Vec<Finding>,
    before: &Before,
    kept: &mut ArenaCopy,
    origins: &mut Origins,
    machine: &Machine,
) -> Result<(), AllocError>
    requires { (s : State) × IsBefore s before.now × IsArenaCopy s.upper s.memory kept.old }
    ensures looks { OnOk result ((s : State) → IsBefore s before.now → IsArenaCopy s.upper s.memory kept.old →
        Looks s machine.now kept.old out.old.items out.new.items) }
    ensures arena { OnOk result (IsArenaCopy machine.now.upper machine.now.memory kept.new) }
    ensures knows { OnOk result ((s : State) → IsBefore s before.now → IsArenaCopy s.upper s.memory kept.old →
        IsKnownAfter s machine.now origins.old origins.new) }
{
    if !arranges(&before.cpu, before.call) && kept.is_seen(machine) {
        record_step(alloc, origins, before, kept, kept, machine)?;
        return append_call_findings(out, &before.cpu, &machine.cpu(), before.call);
    }
    let new = read_arena(alloc, machine)?;
    look_anew(out, before, kept, &new, machine)?;
    record_step(alloc, origins, before, kept, &new, machine)?;
    *kept = new;
    Ok(())
}

/// Whether a finding is left out: it is about free memory, and such findings are not reported.
fn is_left_out(free: bool, finding: &Finding) -> bool
    ensures { result ≡ (not free && is_of_free_memory finding.now) }
{
    !free && finding.is_of_free_memory()
}

/// Adds a finding of a step to the report, unless it is about free memory and such findings are not reported.
fn tell_one(report: &mut Report, free: bool, found: Found) -> Result<(), AllocError>
    ensures { OnOk result (ReportsMore free report.old report.new (found ∷ [])) }
{
    if is_left_out(free, &found.finding) {
        return Ok(());
    }
    report.add(found)
}

/// Adds the findings of a step to the report, each with the step's number, the process, where in its code the program
/// performed the step, what the step performed, and who allocated or freed. An `Err` is a failed allocation.
fn tell(
    report: &mut Report,
    free: bool,
    before: &Before,
    origins: &Origins,
    step: u64,
    act: Act,
    found: &[Finding],
) -> Result<(), AllocError>
    ensures { OnOk result (ReportsMore free report.old report.new (map (found_by before.now step origins.now act)
        found.now)) }
{
    for finding in found {
        let found = Found {
            step,
            process: before.present,
            site: before.site,
            act,
            finding: *finding,
            origin: origins.origin_of(before.a20, finding),
        };
        tell_one(report, free, found)?;
    }
    Ok(())
}

/// Adds to the report the findings of a step after which the machine goes on. An `Err` is a failed allocation.
fn tell_step(
    report: &mut Report,
    free: bool,
    before: &Before,
    origins: &Origins,
    machine: &Machine,
    found: &[Finding],
) -> Result<(), AllocError>
    requires { (s : State) × IsBefore s before.now × Answers s None machine.now }
    ensures { OnOk result ((s : State) → IsBefore s before.now → (more : List Found) ×
        IsFound s machine.now origins.now found.now more × ReportsMore free report.old report.new more) }
{
    if found.is_empty() {
        return Ok(());
    }
    let Some(act) = before.act() else {
        // The step was made.
        unreachable!()
    };
    tell(report, free, before, origins, machine.steps(), act, found)
}

/// Adds what is found of the step that ended the first program to the report: its findings, and what the program left
/// allocated, or holds if it stays resident. `found` has the findings of the bytes that the step touches. `kept`
/// becomes the arena after the step, and `origins` what is known after it. An `Err` is a failed allocation.
fn check_end(
    alloc: Global,
    found: &mut Vec<Finding>,
    before: &Before,
    call: Call,
    kept: &mut ArenaCopy,
    origins: &mut Origins,
    machine: &Machine,
    report: &mut Report,
    free: bool,
) -> Result<(), AllocError>
    requires before { (s : State) × IsBefore s before.now × IsArenaCopy s.upper s.memory kept.old }
    requires call { before.now.call ≡ Some call }
    ensures knows { OnOk result ((s : State) → IsBefore s before.now → IsArenaCopy s.upper s.memory kept.old →
        IsKnownAfter s machine.now origins.old origins.new) }
    ensures finds { OnOk result ((s : State) → IsBefore s before.now → IsArenaCopy s.upper s.memory kept.old →
        FindsTouched s (shown_of kept.old) found.old.items → (more : List Found) ×
        FindsAtEnd s machine.now origins.old more × ReportsMore free report.old report.new more) }
{
    look(alloc, found, before, kept, origins, machine)?;
    put_leaks(found, machine, call_stays_resident(call))?;
    tell(
        report,
        free,
        before,
        origins,
        machine.steps(),
        Act::Call(call),
        found,
    )
}

/// Makes one step of an instruction by `Machine::run`, which uses the decode cache. Returns the stop, or None if the
/// machine goes on.
fn run_once(machine: &mut Machine) -> Option<Stop>
    requires program { HasProgram machine.old }
    requires uncalled { call_of machine.old.cpu ≡ None }
    ensures answers { Answers machine.old result machine.new }
    ensures program { HasProgram machine.new }
{
    match machine.run(1) {
        Stop::Steps => None,
        stop => Some(stop),
    }
}

/// Makes one step, which performs `call` or, for None, an instruction. Returns the stop, or None if the machine goes
/// on.
fn make_step(machine: &mut Machine, call: Option<Call>) -> Option<Stop>
    requires program { HasProgram machine.old }
    requires call { call ≡ call_of machine.old.cpu }
    ensures answers { Answers machine.old result machine.new }
    ensures program { HasProgram machine.new }
{
    if call.is_some() {
        return machine.step();
    }
    run_once(machine)
}

/// Makes one step and adds what is found of it to the report; returns the stop, or None if the machine goes on. `kept`
/// is the arena before the step and becomes that after it if the machine goes on, and so `origins` is what is known of
/// who allocated and who freed. An `Err` is a failed allocation of the checker, before the step or after it.
#[inline(never)]
pub(crate) fn look_at_step(
    alloc: Global,
    machine: &mut Machine,
    free: bool,
    kept: &mut ArenaCopy,
    origins: &mut Origins,
    report: &mut Report,
) -> Result<Option<Stop>, AllocError>
    requires program { HasProgram machine.old }
    requires arena { IsArenaCopy machine.old.upper machine.old.memory kept.old }
    ensures ok { IfOk result (λ stop. ChecksOne free machine.old stop machine.new kept.new origins.old origins.new
        report.old report.new) }
    ensures err { OnErr result (IsPart machine.old machine.new) }
    ensures program { HasProgram machine.new }
{
    let before = Before::of(machine);
    let mut found = Vec::new(alloc);
    put_touched(&mut found, &before, kept, machine)?;
    let stop = make_step(machine, before.call);
    match stop {
        None => {
            look(alloc, &mut found, &before, kept, origins, machine)?;
            tell_step(report, free, &before, origins, machine, &found)?;
            Ok(None)
        }
        Some(Stop::Exited(_)) => {
            if let Some(call) = before.call {
                check_end(
                    alloc, &mut found, &before, call, kept, origins, machine, report, free,
                )?;
                return Ok(stop);
            }
            // The program had ended before. Nothing has changed, and each page that a window shows is there.
            tables_and_memory_are_consistent(machine);
            Ok(stop)
        }
        Some(_) => Ok(stop),
    }
}

/// The most steps that are made before DS, SS and ES are looked at again: the program may have set them.
const BEFORE_A_LOOK: u64 = 0x1_0000;

/// Makes at most `most` steps of instructions of which nothing is found, by the bytes that they touch, and that
/// allocate and free nothing, and returns how many. `kept` is the arena before them, and after them.
pub(crate) fn run_unmarked(machine: &mut Machine, kept: &ArenaCopy, most: u64) -> u64
    requires program { HasProgram machine.old }
    requires arena { IsArenaCopy machine.old.upper machine.old.memory kept.now }
    ensures unfound { GoesUnfound machine.old result machine.new }
    ensures most { result ≤ most }
    ensures arena { IsArenaCopy machine.new.upper machine.new.memory kept.now }
    ensures program { HasProgram machine.new }
{
    if kept.broken.is_some() {
        return 0;
    }
    // Each page that a window shows is there.
    tables_and_memory_are_consistent(machine);
    machine.run_unmarked(most.min(BEFORE_A_LOOK), &kept.marks)
}
