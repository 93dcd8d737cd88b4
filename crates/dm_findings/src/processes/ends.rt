//! The end of a process.

ghost use Rattle.std.specs.Prelude.{◌≡◌};
ghost use Rattle.dm_findings.specs.processes.Processes.{with_end};

use crate::processes::process::Process;

/// Notes the step that ended a process: the last of the list that has not ended, since a process waits while its child
/// runs. Nothing changes if all have ended.
pub fn end_innermost(processes: &mut [Process], step: u64)
    ensures { processes.new ≡ with_end step processes.old }
{
    let mut left = processes.len();
    while left > 0 {
        if processes[left - 1].last.is_none() {
            processes[left - 1].last = Some(step);
            return;
        }
        left -= 1;
    }
}
