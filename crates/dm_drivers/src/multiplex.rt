//! INT 2Fh, the multiplex interrupt, as far as it serves extended memory (XMS 3.0, section "Accessing the extended
//! memory manager").
ghost use Rattle.std.specs.Prelude.{◌≡◌};
ghost use Rattle.dm_drivers.specs.Multiplex.{multiplex_reply};

use dm_cpu::Cpu;
use dm_ins::ByteRegister;
use dm_space::entry_points::{ENTRY_SEGMENT, EXTENDED_MEMORY_OFFSET};

/// AX of the call of INT 2Fh that asks whether an extended memory driver is installed.
const INSTALLED: u16 = 0x4300;

/// AX of the call of INT 2Fh that asks for the extended memory driver's entry point.
const ENTRY: u16 = 0x4310;

/// AL as INT 2Fh returns it for AX = 4300h: the driver is installed.
const IS_INSTALLED: u8 = 0x80;

/// INT 2Fh: for AX = 4300h, AL becomes 80h (installed); for AX = 4310h, ES:BX becomes F000:0400, the extended memory
/// driver's entry point; for any other AX, no register changes.
#[tactic(auto, unfolding(crate::specs::Multiplex::multiplex_reply))]
pub(crate) fn multiplex_call(cpu: &mut Cpu)
    ensures { cpu.new ≡ multiplex_reply cpu.old }
{
    match cpu.ax {
        INSTALLED => cpu.set_byte(ByteRegister::Al, IS_INSTALLED),
        ENTRY => {
            cpu.es = ENTRY_SEGMENT;
            cpu.bx = EXTENDED_MEMORY_OFFSET;
        }
        _ => {}
    }
}
