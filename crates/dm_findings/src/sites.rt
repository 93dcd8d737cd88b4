//! Where in its code a program performed a step (Intel 8086 Family User's Manual, sections 2.6 and 2.7, INT).

ghost use Rattle.std.specs.Prelude.{◌≡◌};
ghost use Rattle.dm_findings.specs.Sites.{interrupted_at, called_at, site_by};

use crate::calls::Call;
use dm_cpu::Cpu;
use dm_space::Space;

/// The first byte of INT, whose second is the number of the interrupt.
const INT: u8 = 0xCD;

/// Where in its code a program performed a step: a segment and an offset.
#[derive(Clone, Copy, Debug, PartialEq, Eq)]
pub enum Site {
    /// The address of an instruction: of the one that was performed, or of the INT that made the call.
    At(u16, u16),
    /// The return address of a call that was not made by INT: the instruction that made it ends there.
    Before(u16, u16),
}

/// Where a call with this return address was made, if it is no far call of a driver: at the INT that stands before it,
/// if one does. Offsets wrap.
fn interrupted_at(space: &Space, segment: u16, offset: u16) -> Site
    ensures { result ≡ interrupted_at space.now.memory segment offset }
{
    let int = offset.wrapping_sub(2);
    if space.peek(segment, int) == INT {
        Site::At(segment, int)
    } else {
        Site::Before(segment, offset)
    }
}

/// Where a call with this return address was made.
fn called_at(space: &Space, segment: u16, offset: u16, call: Call) -> Site
    ensures { result ≡ called_at space.now.memory segment offset call }
{
    match call {
        Call::ExtendedMemory(_) => Site::Before(segment, offset),
        _ => interrupted_at(space, segment, offset),
    }
}

/// Where in its code the program performs the next step, if that performs `call`, as `call_of` returns it: an
/// instruction (None) at CS:IP, and a call where it was made. Its return address is on the stack: IP at SS:SP, and CS
/// behind it.
pub fn site_of(cpu: &Cpu, space: &Space, call: Option<Call>) -> Site
    ensures { result ≡ site_by space.now.memory cpu.now call }
{
    match call {
        Some(call) => {
            let segment = space.peek16(cpu.ss, cpu.sp.wrapping_add(2));
            let offset = space.peek16(cpu.ss, cpu.sp);
            called_at(space, segment, offset, call)
        }
        None => Site::At(cpu.cs, cpu.ip),
    }
}
