//! INT 21h, the handles of the console (MS-DOS Programmer's Reference, functions 3Fh and 40h). Handles 0 to 2 are the
//! console, each in both directions. Unless it stops the machine, a function returns by popping IP, CS and FLAGS, then
//! sets or clears CF, and counts the step.
ghost use Rattle.std.specs.Prelude.{◌≡◌, None};
ghost use Rattle.dm_services.specs.inner.Wanting.{OrMemory};
ghost use Rattle.dm_services.specs.Handles.{bad_handle, read_handle, write_handle, waits};

use crate::buffers::send;
use crate::state::{Parts, Stop};

/// Returns from function 3Fh or 40h with error 6, invalid handle, in AX and CF set. Memory and console stay.
#[tactic(auto, unfolding(crate::specs::Handles::bad_handle))]
fn bad_handle(parts: &mut Parts)
    ensures answer { record { stop = None; state = parts.new } ≡ bad_handle parts.old }
    ensures program { parts.new.processes ≡ parts.old.processes }
{
    parts.cpu.ax = 6;
    parts.return_from_interrupt();
    parts.cpu.flags.carry = true;
    parts.count();
}

/// Whether 3Fh wants bytes that may still come: CX is above 0, no input is left, and more may come.
fn waits(parts: &Parts) -> bool
    ensures { result ≡ waits parts.now }
{
    parts.console.more() && parts.console.left() == 0 && parts.cpu.cx > 0
}

/// 3Fh: takes the next CX bytes of the console input, or all if fewer are left, and writes them from DS:DX up. AX
/// becomes their count, 0 if no input is left; CF is clear. A handle in BX above 2 is error 6. Returns `InputEnded`,
/// with nothing changed, if CX is above 0, no input is left, and more may come; otherwise it never stops the machine.
#[tactic(auto, unfolding(crate::specs::Handles::read_handle))]
pub(crate) fn read_handle(parts: &mut Parts) -> Option<Stop>
    ensures answer { OrMemory parts.old (read_handle parts.old) result parts.new }
    ensures program { parts.new.processes ≡ parts.old.processes }
{
    if parts.cpu.bx > 2 {
        bad_handle(parts);
        return None;
    }
    if waits(parts) {
        return Some(Stop::InputEnded);
    }
    let count = parts.console.left().min(parts.cpu.cx as usize);
    parts.space.write_bytes(parts.cpu.ds, parts.cpu.dx, &parts.console.input()[..count]);
    parts.console.consume(count);
    parts.cpu.ax = count as u16;
    parts.return_from_interrupt();
    parts.cpu.flags.carry = false;
    parts.count();
    None
}

/// 40h: writes the CX bytes at DS:DX to the console. AX becomes CX, and CF is clear. A handle in BX above 2 is error 6.
/// Returns `Memory`, with nothing changed, if the output's allocation fails.
#[tactic(auto, using(crate::proofs::Stores::lengths), unfolding(crate::specs::Handles::write_handle))]
pub(crate) fn write_handle(parts: &mut Parts) -> Option<Stop>
    ensures answer { OrMemory parts.old (write_handle parts.old) result parts.new }
    ensures program { parts.new.processes ≡ parts.old.processes }
{
    if parts.cpu.bx > 2 {
        bad_handle(parts);
        return None;
    }
    let count = parts.cpu.cx;
    if parts.console.reserve(count as usize).is_err() {
        return Some(Stop::Memory);
    }
    send(
        &mut parts.console,
        &parts.space,
        parts.cpu.ds,
        parts.cpu.dx,
        count,
    );
    parts.cpu.ax = count;
    parts.return_from_interrupt();
    parts.cpu.flags.carry = false;
    parts.count();
    None
}
