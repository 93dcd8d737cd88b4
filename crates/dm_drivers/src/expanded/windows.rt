//! The windows of the frame (LIM EMS 4.0, functions 5, 8, 9, 15 and 17; INT 67h functions 44h, 47h, 48h, 4Eh and
//! 50h). Each function sets AH to the status, 0 for success; an error sets AH alone, and leaves tables and memory as
//! they are. Other registers than those named stay.
ghost use Rattle.std.specs.Prelude.{◌≡◌};
ghost use Rattle.dm_ems.specs.Tables.{expanded};
ghost use Rattle.dm_ems.specs.Consistent.{IsConsistent};
ghost use Rattle.dm_drivers.specs.declared.expanded.functions.Function.TheVariants.{MapMany, MapPage, RestoreMap, SaveMap, WholeMap};
ghost use Rattle.dm_drivers.specs.expanded.Caller.{caller};
ghost use Rattle.dm_drivers.specs.expanded.Functions.{call};

use crate::expanded::answers::{settle, settle_al};
use dm_cpu::Cpu;
use dm_ems::Ems;
use dm_ins::ByteRegister;
use dm_space::Space;

/// 44h: makes window AL show logical page BX of the handle in DX, or nothing for page FFFFh; the other windows stay.
#[tactic(auto, unfolding(crate::specs::expanded::Functions::call))]
pub(crate) fn map_page(cpu: &mut Cpu, ems: &Ems, space: &mut Space)
    requires { IsConsistent (expanded ems.now space.old.memory) }
    ensures { caller cpu.new ems.now space.new.memory ≡ call (caller cpu.old ems.now space.old.memory) MapPage }
{
    let res = ems.map_page(space, cpu.byte(ByteRegister::Al), cpu.bx, cpu.dx);
    settle(cpu, res);
}

/// 47h: saves, under the handle in DX, what the four windows show.
#[tactic(auto, unfolding(crate::specs::expanded::Functions::call))]
pub(crate) fn save_map(cpu: &mut Cpu, ems: &mut Ems, space: &Space)
    ensures { caller cpu.new ems.new space.now.memory ≡ call (caller cpu.old ems.old space.now.memory) SaveMap }
{
    let res = ems.save_map(space, cpu.dx);
    settle(cpu, res);
}

/// 48h: makes the four windows show what was saved under the handle in DX, which then has nothing saved.
#[tactic(auto, unfolding(crate::specs::expanded::Functions::call))]
pub(crate) fn restore_map(cpu: &mut Cpu, ems: &mut Ems, space: &mut Space)
    requires { IsConsistent (expanded ems.old space.old.memory) }
    ensures { caller cpu.new ems.new space.new.memory ≡ call (caller cpu.old ems.old space.old.memory) RestoreMap }
{
    let res = ems.restore_map(space, cpu.dx);
    settle(cpu, res);
}

/// 4Eh: with AL = 0 writes the map of the windows at ES:DI, with 1 sets them from the map at DS:SI, with 2 reads the
/// map at DS:SI, writes that of the windows at ES:DI and then sets them, and with 3 sets AL to the size of a map in
/// bytes; status 8Fh for another value.
#[tactic(auto, unfolding(crate::specs::expanded::Functions::call))]
pub(crate) fn whole_map(cpu: &mut Cpu, ems: &Ems, space: &mut Space)
    requires { IsConsistent (expanded ems.now space.old.memory) }
    ensures { caller cpu.new ems.now space.new.memory ≡ call (caller cpu.old ems.now space.old.memory) WholeMap }
{
    let mode = cpu.byte(ByteRegister::Al);
    let res = dm_ems_move::whole_map(ems, space, mode, cpu.es, cpu.di, cpu.ds, cpu.si);
    settle_al(cpu, res);
}

/// 50h: makes windows show pages of the handle in DX, or nothing, as CX pairs at DS:SI say, which name windows by
/// number (AL = 0) or by segment (AL = 1); the other windows stay. Status 8Fh for another value of AL.
#[tactic(auto, unfolding(crate::specs::expanded::Functions::call))]
pub(crate) fn map_many(cpu: &mut Cpu, ems: &Ems, space: &mut Space)
    requires { IsConsistent (expanded ems.now space.old.memory) }
    ensures { caller cpu.new ems.now space.new.memory ≡ call (caller cpu.old ems.now space.old.memory) MapMany }
{
    let mode = cpu.byte(ByteRegister::Al);
    let res = dm_ems_move::map_many(ems, space, mode, cpu.dx, cpu.cx, cpu.ds, cpu.si);
    settle(cpu, res);
}
