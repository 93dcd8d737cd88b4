//! The driver's version and the page frame (LIM EMS 4.0, functions 2, 7 and 25; INT 67h functions 41h, 46h and 58h).
//! Other registers than those named stay.
ghost use Rattle.std.specs.Prelude.{◌≡◌};
ghost use Rattle.dm_ins.specs.declared.operand.ByteRegister.TheVariants.{Al};
ghost use Rattle.dm_cpu.specs.Cpu.{with_byte};
ghost use Rattle.dm_drivers.specs.declared.expanded.functions.Function.TheVariants.{Mappable};
ghost use Rattle.dm_drivers.specs.expanded.Caller.{caller, succeeded};
ghost use Rattle.dm_drivers.specs.expanded.Functions.{call, mappable};

use crate::expanded::answers::{refuse, succeed};
use dm_cpu::Cpu;
use dm_ems::{Ems, Status};
use dm_ins::ByteRegister;
use dm_space::Space;

/// The segment of the frame.
const FRAME: u16 = 0xE000;

/// The number of windows of the frame.
const WINDOWS: u16 = 4;

/// The version 4.0, a digit in each half of the byte.
const VERSION: u8 = 0x40;

/// 41h: sets BX to the frame's segment, and AH to 0.
pub(crate) fn tell_frame(cpu: &mut Cpu)
    ensures { cpu.new ≡ succeeded (record cpu.old { bx = 0xE000 }) }
{
    cpu.bx = FRAME;
    succeed(cpu);
}

/// 46h: sets AL to the version, 4.0, and AH to 0.
pub(crate) fn tell_version(cpu: &mut Cpu)
    ensures { cpu.new ≡ succeeded (with_byte cpu.old Al 0x40) }
{
    cpu.set_byte(ByteRegister::Al, VERSION);
    succeed(cpu);
}

/// 58h, AL = 0: writes the segments and numbers of the windows, 16 bytes, at ES:DI; sets CX to the number of windows,
/// and AH to 0.
#[tactic(auto, unfolding(crate::specs::expanded::Functions::mappable))]
fn list_frame(cpu: &mut Cpu, ems: &Ems, space: &mut Space)
    ensures { caller cpu.new ems.now space.new.memory ≡ mappable (caller cpu.old ems.now space.old.memory) 0 }
{
    ems.list_frame(space, cpu.es, cpu.di);
    cpu.cx = WINDOWS;
    succeed(cpu);
}

/// 58h, AL = 1: sets CX to the number of windows, and AH to 0.
fn count_windows(cpu: &mut Cpu)
    ensures { cpu.new ≡ succeeded (record cpu.old { cx = 4 }) }
{
    cpu.cx = WINDOWS;
    succeed(cpu);
}

/// 58h: AL selects whether the windows are listed (0) or counted (1); status 8Fh for another value.
#[tactic(auto, unfolding(crate::specs::expanded::Functions::call, crate::specs::expanded::Functions::mappable))]
pub(crate) fn mappable(cpu: &mut Cpu, ems: &Ems, space: &mut Space)
    ensures { caller cpu.new ems.now space.new.memory ≡ call (caller cpu.old ems.now space.old.memory) Mappable }
{
    match cpu.byte(ByteRegister::Al) {
        0 => list_frame(cpu, ems, space),
        1 => count_windows(cpu),
        _ => refuse(cpu, Status::NoSubfunction),
    }
}
