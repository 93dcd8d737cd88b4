//! Address line A20 (XMS 3.0, functions 03h to 07h). Functions 03h to 06h set AX to 1, or after an error AX to 0 and BL
//! to its code. The other registers stay.
//! (`call false` in their contracts: `upper` matters to 10h to 12h alone.)
ghost use Rattle.std.specs.Prelude.{◌≡◌, false, if◌then◌else◌};
ghost use Rattle.dm_drivers.specs.declared.extended.functions.Function.TheVariants.{DisableGlobally, DisableLocally, EnableGlobally, EnableLocally};
ghost use Rattle.dm_drivers.specs.extended.Caller.{caller, succeeded, refused};
ghost use Rattle.dm_drivers.specs.extended.Functions.{call};

use crate::extended::answers::{refuse, settle, succeed};
use dm_cpu::Cpu;
use dm_space::Space;
use dm_xms::Xms;

/// 03h: turns the global switch on, and so A20.
#[tactic(auto, unfolding(crate::specs::extended::Functions::call))]
pub(crate) fn enable_globally(cpu: &mut Cpu, xms: &mut Xms, space: &mut Space)
    ensures { caller cpu.new xms.new space.new.memory ≡ call false (caller cpu.old xms.old
        space.old.memory) EnableGlobally }
{
    xms.enable_globally(space);
    succeed(cpu);
}

/// 04h: turns the global switch off, and A20 too where the local count is 0; else error 94h, though the switch is off.
#[tactic(auto, unfolding(crate::specs::extended::Functions::call))]
pub(crate) fn disable_globally(cpu: &mut Cpu, xms: &mut Xms, space: &mut Space)
    ensures { caller cpu.new xms.new space.new.memory ≡ call false (caller cpu.old xms.old
        space.old.memory) DisableGlobally }
{
    let res = xms.disable_globally(space);
    settle(cpu, res);
}

/// 05h: adds one to the local count, and turns A20 on; error 82h at FFFFh, and count and A20 stay.
#[tactic(auto, unfolding(crate::specs::extended::Functions::call))]
pub(crate) fn enable_locally(cpu: &mut Cpu, xms: &mut Xms, space: &mut Space)
    ensures { caller cpu.new xms.new space.new.memory ≡ call false (caller cpu.old xms.old
        space.old.memory) EnableLocally }
{
    let res = xms.enable_locally(space);
    settle(cpu, res);
}

/// 06h: takes one from the local count, and turns A20 off where the count is then 0 and the global switch is off; else
/// error 94h, though the count is one less. Error 82h if the count is 0 already, and nothing changes but AX and BL.
#[tactic(auto, unfolding(crate::specs::extended::Functions::call))]
pub(crate) fn disable_locally(cpu: &mut Cpu, xms: &mut Xms, space: &mut Space)
    ensures { caller cpu.new xms.new space.new.memory ≡ call false (caller cpu.old xms.old
        space.old.memory) DisableLocally }
{
    let res = xms.disable_locally(space);
    settle(cpu, res);
}

/// 07h: sets AX to 1 where A20 is on; where it is off, AX and BL to 0. It cannot fail.
pub(crate) fn tell_line(cpu: &mut Cpu, space: &Space)
    ensures { cpu.new ≡ (if space.now.memory.a20 then succeeded cpu.old else refused cpu.old 0) }
{
    if space.a20() {
        succeed(cpu);
    } else {
        refuse(cpu, 0);
    }
}
