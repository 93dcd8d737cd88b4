//! Running again: from a copy of a machine to a later step, with the edits on the way.

ghost use Rattle.std.specs.Prelude.{◌≡◌, ◌-◌, ◌^◌, ◌<◌, ◌≤◌, ℕ, All, OnOk, length};
ghost use Rattle.dm_services.specs.state.State.{HasProgram};
ghost use Rattle.dm_history.specs.Edits.{edits_to};
ghost use Rattle.dm_history.specs.inner.Replays.{RunsUpTo, LeadsBeyond, IsReplayed};

use crate::change::{TimedChange, apply};
use dm_machine::{Machine, Stop};
use std::alloc::AllocError;

/// How many of the edits were made up to a step, and at it.
pub(crate) fn count_to(edits: &[TimedChange], step: u64) -> usize
    ensures { result ≡ length (edits_to step edits.now) }
{
    edits.iter().take_while(|edit| edit.step <= step).count()
}

/// The latest of a step and of those at which these edits were made.
pub(crate) fn latest(edits: &[TimedChange], step: u64) -> u64
    ensures since { step ≤ result }
    ensures all { All (λ e. e.step ≤ result) edits.now }
    ensures least { (n : ℕ) → step ≤ n → All (λ e. e.step ≤ n) edits.now → result ≤ n }
{
    let mut latest = step;
    for edit in edits {
        latest = latest.max(edit.step);
    }
    latest
}

/// Makes steps up to a count of steps, or fewer if the machine stops. An `Err` is a failed allocation; some of the
/// steps may have been made.
pub(crate) fn run_up_to(machine: &mut Machine, step: u64) -> Result<(), AllocError>
    requires loaded { HasProgram machine.old }
    requires before { machine.old.steps ≤ step }
    ensures ok { OnOk result (RunsUpTo machine.old step machine.new) }
    ensures loaded { HasProgram machine.new }
{
    match machine.run(step - machine.steps()) {
        Stop::Memory => Err(AllocError),
        _ => Ok(()),
    }
}

/// Does these edits again, each at its step, and goes on to a count of steps that they do not pass. They must be those
/// with which the machine has come beyond that step. An `Err` is a failed allocation; some steps and edits may have
/// been made.
pub(crate) fn replay(
    machine: &mut Machine,
    edits: &[TimedChange],
    step: u64,
) -> Result<(), AllocError>
    requires loaded { HasProgram machine.old }
    requires before { machine.old.steps ≤ step }
    requires below { step < 2 ^ 64 - 1 }
    requires known { LeadsBeyond machine.old edits.now step }
    ensures ok { OnOk result (IsReplayed machine.old edits.now step machine.new) }
    ensures loaded { HasProgram machine.new }
{
    for edit in edits {
        run_up_to(machine, edit.step)?;
        apply(machine, &edit.change);
    }
    run_up_to(machine, step)
}
