//! Regions of memory that are moved or exchanged (LIM EMS 4.0, function 24; INT 67h function 57h); they overlap where
//! they share a byte of memory or ROM. Each function sets AH to the status, 0 for success; the other registers stay. An
//! error changes no byte of memory. The scratch part of the space may be overwritten.
ghost use Rattle.std.specs.Prelude.{◌≡◌};
ghost use Rattle.dm_ems.specs.Tables.{expanded};
ghost use Rattle.dm_ems.specs.Consistent.{IsConsistent};
ghost use Rattle.dm_drivers.specs.declared.expanded.functions.Function.TheVariants.{Regions};
ghost use Rattle.dm_drivers.specs.expanded.Caller.{caller};
ghost use Rattle.dm_drivers.specs.expanded.Functions.{call, regions};

use crate::expanded::answers::{refuse, settle, settle_move};
use dm_cpu::Cpu;
use dm_ems::{Ems, Status};
use dm_ins::ByteRegister;
use dm_space::Space;

/// 57h, AL = 0: copies the source to the destination, as the structure at DS:SI describes them; AH is 0, 92h where both
/// are of one type and overlap, or the error.
#[tactic(auto, unfolding(crate::specs::expanded::Functions::regions))]
fn move_region(cpu: &mut Cpu, ems: &Ems, space: &mut Space)
    requires { IsConsistent (expanded ems.now space.old.memory) }
    ensures { caller cpu.new ems.now space.new.memory ≡ regions (caller cpu.old ems.now space.old.memory) 0 }
{
    let res = dm_ems_move::move_region(ems, space, cpu.ds, cpu.si);
    settle_move(cpu, res);
}

/// 57h, AL = 1: exchanges the bytes of the two regions that the structure at DS:SI describes; AH is 0 or the error, and
/// regions that overlap are one.
#[tactic(auto, unfolding(crate::specs::expanded::Functions::regions))]
fn exchange_region(cpu: &mut Cpu, ems: &Ems, space: &mut Space)
    requires { IsConsistent (expanded ems.now space.old.memory) }
    ensures { caller cpu.new ems.now space.new.memory ≡ regions (caller cpu.old ems.now space.old.memory) 1 }
{
    let res = dm_ems_move::exchange_region(ems, space, cpu.ds, cpu.si);
    settle(cpu, res);
}

/// 57h: AL selects a move (0) or an exchange (1); status 8Fh for another value.
#[tactic(auto, unfolding(crate::specs::expanded::Functions::call, crate::specs::expanded::Functions::regions))]
pub(crate) fn move_or_exchange(cpu: &mut Cpu, ems: &Ems, space: &mut Space)
    requires { IsConsistent (expanded ems.now space.old.memory) }
    ensures { caller cpu.new ems.now space.new.memory ≡ call (caller cpu.old ems.now space.old.memory) Regions }
{
    match cpu.byte(ByteRegister::Al) {
        0 => move_region(cpu, ems, space),
        1 => exchange_region(cpu, ems, space),
        _ => refuse(cpu, Status::NoSubfunction),
    }
}
