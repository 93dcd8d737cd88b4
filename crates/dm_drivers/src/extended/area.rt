//! The driver's version and the high memory area (XMS 3.0, functions 00h to 02h). Registers that are not named stay.
//! (`call false` in their contracts: `upper` matters to 10h to 12h alone.)
ghost use Rattle.std.specs.Prelude.{◌≡◌, false};
ghost use Rattle.dm_drivers.specs.declared.extended.functions.Function.TheVariants.{ReleaseArea, TakeArea};
ghost use Rattle.dm_drivers.specs.extended.Caller.{caller};
ghost use Rattle.dm_drivers.specs.extended.Functions.{call};

use crate::extended::answers::settle;
use dm_cpu::Cpu;
use dm_space::Space;
use dm_xms::Xms;

/// The version of the specification, 3.0: 3 in the high byte, 0 in the low byte.
const VERSION: u16 = 0x0300;

/// The driver's own revision.
const REVISION: u16 = 1;

/// 00h: sets AX to the version, 3.0, BX to the driver's revision, and DX to 1, as there is a high memory area.
pub(crate) fn tell_version(cpu: &mut Cpu)
    ensures { cpu.new ≡ record cpu.old { ax = 0x0300; bx = 1; dx = 1 } }
{
    cpu.ax = VERSION;
    cpu.bx = REVISION;
    cpu.dx = 1;
}

/// 01h: takes the high memory area, and sets AX to 1; if it is taken already, AX to 0 and BL to 91h.
#[tactic(auto, unfolding(crate::specs::extended::Functions::call))]
pub(crate) fn take_area(cpu: &mut Cpu, xms: &mut Xms, space: &Space)
    ensures { caller cpu.new xms.new space.now.memory ≡ call false (caller cpu.old xms.old space.now.memory) TakeArea }
{
    let res = xms.take_area();
    settle(cpu, res);
}

/// 02h: releases the high memory area, and sets AX to 1; if it is not taken, AX to 0 and BL to 93h.
#[tactic(auto, unfolding(crate::specs::extended::Functions::call))]
pub(crate) fn release_area(cpu: &mut Cpu, xms: &mut Xms, space: &Space)
    ensures { caller cpu.new xms.new space.now.memory ≡ call false (caller cpu.old xms.old
        space.now.memory) ReleaseArea }
{
    let res = xms.release_area();
    settle(cpu, res);
}
