//! The names of handles (LIM EMS 4.0, functions 20 and 21; INT 67h functions 53h and 54h). AL selects the subfunction;
//! each sets AH to the status, 0 for success; an error sets AH alone, and leaves tables and memory as they are. Other
//! registers than those named stay.
ghost use Rattle.std.specs.Prelude.{◌≡◌};
ghost use Rattle.dm_drivers.specs.declared.expanded.functions.Function.TheVariants.{Directory, HandleName};
ghost use Rattle.dm_drivers.specs.expanded.Caller.{caller, succeeded};
ghost use Rattle.dm_drivers.specs.expanded.Functions.{call, directory, handle_name};

use crate::expanded::answers::{refuse, settle, settle_dx, succeed};
use dm_cpu::Cpu;
use dm_ems::{Ems, Status};
use dm_ins::ByteRegister;
use dm_space::Space;

/// The number of handles, handle 0 among them.
const HANDLES: u16 = 64;

/// 53h, AL = 0: writes the eight bytes of the name of the handle in DX at ES:DI.
#[tactic(auto, unfolding(crate::specs::expanded::Functions::handle_name))]
fn get_name(cpu: &mut Cpu, ems: &Ems, space: &mut Space)
    ensures { caller cpu.new ems.now space.new.memory ≡ handle_name (caller cpu.old ems.now space.old.memory) 0 }
{
    let res = ems.get_name(space, cpu.dx, cpu.es, cpu.di);
    settle(cpu, res);
}

/// 53h, AL = 1: sets the name of the handle in DX to the eight bytes at DS:SI.
#[tactic(auto, unfolding(crate::specs::expanded::Functions::handle_name))]
fn set_name(cpu: &mut Cpu, ems: &mut Ems, space: &Space)
    ensures { caller cpu.new ems.new space.now.memory ≡ handle_name (caller cpu.old ems.old space.now.memory) 1 }
{
    let res = ems.set_name(space, cpu.dx, cpu.ds, cpu.si);
    settle(cpu, res);
}

/// 53h: AL selects whether the name of the handle in DX is written at ES:DI (0) or set from DS:SI (1); status 8Fh for
/// another value.
#[tactic(auto, unfolding(crate::specs::expanded::Functions::call, crate::specs::expanded::Functions::handle_name))]
pub(crate) fn handle_name(cpu: &mut Cpu, ems: &mut Ems, space: &mut Space)
    ensures { caller cpu.new ems.new space.new.memory ≡ call (caller cpu.old ems.old space.old.memory) HandleName }
{
    match cpu.byte(ByteRegister::Al) {
        0 => get_name(cpu, ems, space),
        1 => set_name(cpu, ems, space),
        _ => refuse(cpu, Status::NoSubfunction),
    }
}

/// 54h, AL = 0: writes the handles in use and their names at ES:DI, a word and eight bytes each;
/// sets AL to the number of handles in use.
#[tactic(auto, unfolding(crate::specs::expanded::Functions::directory))]
fn list_names(cpu: &mut Cpu, ems: &Ems, space: &mut Space)
    ensures { caller cpu.new ems.now space.new.memory ≡ directory (caller cpu.old ems.now space.old.memory) 0 }
{
    let count = ems.list_names(space, cpu.es, cpu.di);
    cpu.set_byte(ByteRegister::Al, count as u8);
    succeed(cpu);
}

/// 54h, AL = 1: sets DX to the lowest handle with the name at DS:SI; where no handle has it, or it is eight zeros, DX
/// stays.
#[tactic(auto, unfolding(crate::specs::expanded::Functions::directory))]
fn find_name(cpu: &mut Cpu, ems: &Ems, space: &Space)
    ensures { caller cpu.new ems.now space.now.memory ≡ directory (caller cpu.old ems.now space.now.memory) 1 }
{
    let res = ems.find_name(space, cpu.ds, cpu.si);
    settle_dx(cpu, res);
}

/// 54h, AL = 2: sets BX to the number of all handles.
fn tell_handles(cpu: &mut Cpu)
    ensures { cpu.new ≡ succeeded (record cpu.old { bx = 64 }) }
{
    cpu.bx = HANDLES;
    succeed(cpu);
}

/// 54h: AL selects whether the names are written at ES:DI (0), one is searched for (1), or BX is set to the number of
/// all handles (2); status 8Fh for another value.
#[tactic(auto, unfolding(crate::specs::expanded::Functions::call, crate::specs::expanded::Functions::directory))]
pub(crate) fn directory(cpu: &mut Cpu, ems: &Ems, space: &mut Space)
    ensures { caller cpu.new ems.now space.new.memory ≡ call (caller cpu.old ems.now space.old.memory) Directory }
{
    match cpu.byte(ByteRegister::Al) {
        0 => list_names(cpu, ems, space),
        1 => find_name(cpu, ems, space),
        2 => tell_handles(cpu),
        _ => refuse(cpu, Status::NoSubfunction),
    }
}
