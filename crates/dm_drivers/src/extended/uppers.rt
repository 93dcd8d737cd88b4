//! Upper memory blocks (XMS 3.0, functions 10h to 12h). Where upper memory belongs to the arena of DOS (`upper`), the
//! driver has none: 10h fails with B1h and sets DX to 0, 11h and 12h fail with B2h. Each function sets AX to 1, or
//! after an error AX to 0 and BL to its code, and then the tables stay. Memory, and registers that are not named, stay.
ghost use Rattle.std.specs.Prelude.{◌≡◌};
ghost use Rattle.dm_drivers.specs.declared.extended.functions.Function.TheVariants.{ReleaseUpper, RequestUpper, ResizeUpper};
ghost use Rattle.dm_drivers.specs.extended.Caller.{caller};
ghost use Rattle.dm_drivers.specs.extended.Functions.{call};

use crate::extended::answers::{settle_upper, settle_uppers};
use dm_cpu::Cpu;
use dm_space::Space;
use dm_xms::{UpperRefusal, Xms};

/// 10h: allocates a block of DX paragraphs, or of 1 if DX is 0; sets BX to its segment, DX to its size. After error
/// B0h DX is the number of paragraphs of the largest gap, after B1h 0.
#[tactic(auto, unfolding(crate::specs::extended::Functions::call))]
pub(crate) fn request(cpu: &mut Cpu, xms: &mut Xms, space: &Space, upper: bool)
    ensures { caller cpu.new xms.new space.now.memory ≡ call upper (caller cpu.old xms.old
        space.now.memory) RequestUpper }
{
    let res = if upper {
        Err(UpperRefusal::NoneFree)
    } else {
        xms.request_upper(cpu.dx)
    };
    settle_upper(cpu, res);
}

/// 11h: frees the block that begins at segment DX.
#[tactic(auto, unfolding(crate::specs::extended::Functions::call))]
pub(crate) fn release(cpu: &mut Cpu, xms: &mut Xms, space: &Space, upper: bool)
    ensures { caller cpu.new xms.new space.now.memory ≡ call upper (caller cpu.old xms.old
        space.now.memory) ReleaseUpper }
{
    let res = if upper {
        Err(UpperRefusal::Unknown)
    } else {
        xms.release_upper(cpu.dx)
    };
    settle_uppers(cpu, res);
}

/// 12h: resizes the block that begins at segment DX to BX paragraphs, or to 1 if BX is 0. If there is less room (error
/// B0h) the block stays, and DX is the number of paragraphs that it can have there.
#[tactic(auto, unfolding(crate::specs::extended::Functions::call))]
pub(crate) fn resize(cpu: &mut Cpu, xms: &mut Xms, space: &Space, upper: bool)
    ensures { caller cpu.new xms.new space.now.memory ≡ call upper (caller cpu.old xms.old
        space.now.memory) ResizeUpper }
{
    let res = if upper {
        Err(UpperRefusal::Unknown)
    } else {
        xms.resize_upper(cpu.dx, cpu.bx)
    };
    settle_uppers(cpu, res);
}
