//! INT 21h, what the system reports of itself (MS-DOS Programmer's Reference, functions 30h, 51h and 62h). Each
//! function sets registers, returns by popping IP, CS and FLAGS, and counts the step; it never stops the machine.
ghost use Rattle.std.specs.Prelude.{◌≡◌};
ghost use Rattle.dm_services.specs.inner.Wanting.{OrMemory};
ghost use Rattle.dm_services.specs.System.{tell_version, tell_process};

use crate::state::{Parts, Stop};

/// 30h: version 5.0, and no serial number.
#[tactic(auto, unfolding(crate::specs::System::tell_version))]
pub(crate) fn tell_version(parts: &mut Parts) -> Option<Stop>
    ensures answer { OrMemory parts.old (tell_version parts.old) result parts.new }
    ensures program { parts.new.processes ≡ parts.old.processes }
{
    parts.cpu.ax = 5;
    parts.cpu.bx = 0;
    parts.cpu.cx = 0;
    parts.return_from_interrupt();
    parts.count();
    None
}

/// 51h and 62h: BX becomes the segment of the present process's prefix (PSP).
#[tactic(auto, unfolding(crate::specs::System::tell_process))]
pub(crate) fn tell_process(parts: &mut Parts) -> Option<Stop>
    ensures answer { OrMemory parts.old (tell_process parts.old) result parts.new }
    ensures program { parts.new.processes ≡ parts.old.processes }
{
    parts.cpu.bx = parts.procs.psp();
    parts.return_from_interrupt();
    parts.count();
    None
}
