//! INT 21h, interrupt vectors (MS-DOS Programmer's Reference, functions 25h and 35h). Each function returns by popping
//! IP, CS and FLAGS, and counts the step; it never stops the machine.
ghost use Rattle.std.specs.Prelude.{◌≡◌};
ghost use Rattle.dm_services.specs.inner.Wanting.{OrMemory};
ghost use Rattle.dm_services.specs.Vectors.{set_vector, get_vector};

use crate::state::{Parts, Stop};
use dm_ins::ByteRegister;

/// 25h: sets the vector of interrupt AL, the two words at 0000:4*AL (offset, then segment), to DS:DX. AX stays.
#[tactic(auto, unfolding(crate::specs::Vectors::set_vector))]
pub(crate) fn set_vector(parts: &mut Parts) -> Option<Stop>
    ensures answer { OrMemory parts.old (set_vector parts.old) result parts.new }
    ensures program { parts.new.processes ≡ parts.old.processes }
{
    let at = 4 * parts.cpu.byte(ByteRegister::Al) as u16;
    parts.space.poke16(0, at, parts.cpu.dx);
    parts.space.poke16(0, at + 2, parts.cpu.ds);
    parts.return_from_interrupt();
    parts.count();
    None
}

/// 35h: ES:BX becomes the vector of interrupt AL, the two words at 0000:4*AL. Memory stays.
#[tactic(auto, unfolding(crate::specs::Vectors::get_vector))]
pub(crate) fn get_vector(parts: &mut Parts) -> Option<Stop>
    ensures answer { OrMemory parts.old (get_vector parts.old) result parts.new }
    ensures program { parts.new.processes ≡ parts.old.processes }
{
    let at = 4 * parts.cpu.byte(ByteRegister::Al) as u16;
    parts.cpu.bx = parts.space.peek16(0, at);
    parts.cpu.es = parts.space.peek16(0, at + 2);
    parts.return_from_interrupt();
    parts.count();
    None
}
