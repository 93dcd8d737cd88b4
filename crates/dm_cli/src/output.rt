//! Running a program and writing its output.
ghost use Rattle.std.specs.Prelude.{◌≡◌, IfOk, OnErr, OnOk};
ghost use Rattle.std.specs.Io.KnownBytes.{Appends};
ghost use Rattle.dm_console.specs.writers.Out.{AppendsPart, HasFailed};
ghost use Rattle.dm_machine.specs.Run.{IsRun};
ghost use Rattle.dm_services.specs.state.State.{HasProgram};
ghost use Rattle.dm_services.specs.declared.state.stop.Stop.{Stop};

use dm_console::writers::write_all;
use dm_machine::{Machine, Out, Stop};
use thiserror::Error;

/// The output was not written whole, because a write failed or took no byte.
#[derive(Clone, Copy, Debug, PartialEq, Eq, Error)]
#[error("a write failed")]
pub struct WriteFault;

/// Makes at most `steps` steps, and then writes all output that the machine has made so far to `out`, whatever the
/// stop. Returns the stop. A program must be loaded.
///
/// # Errors
///
/// `WriteFault` if a write failed or took no byte. The steps were made, and a first part of the output, or none of it,
/// was written.
pub fn run_program<W: Out>(
    machine: &mut Machine,
    steps: u64,
    out: &mut W,
) -> Result<Stop, WriteFault>
    requires { HasProgram machine.old }
    ensures run { IfOk result (λ stop. IsRun machine.old steps stop machine.new) }
    ensures ok { OnOk result (Appends (W.taken out.old) (W.taken out.new) machine.new.console.output) }
    ensures no_failure { OnOk result (W.failures out.new ≡ W.failures out.old) }
    ensures ran { OnErr result ((stop : Stop) × IsRun machine.old steps stop machine.new) }
    ensures err { OnErr result (HasFailed (W.failures out.old) (W.failures out.new)) }
    ensures part { OnErr result (AppendsPart (W.taken out.old) (W.taken out.new) machine.new.console.output) }
{
    let stop = machine.run(steps);
    match write_all(out, machine.output()) {
        Ok(()) => Ok(stop),
        Err(_) => Err(WriteFault),
    }
}
