//! Handles and their pages (LIM EMS 4.0, functions 3, 4, 6, 12, 13, 14 and 18; INT 67h functions 42h, 43h, 45h, 4Bh
//! to 4Dh and 51h). Each function sets AH to the status, 0 for success; an error sets AH alone, except in 51h, and
//! leaves tables and memory as they are. Other registers than those named stay.
ghost use Rattle.std.specs.Prelude.{◌≡◌};
ghost use Rattle.dm_ems.specs.Tables.{expanded};
ghost use Rattle.dm_ems.specs.Consistent.{IsConsistent};
ghost use Rattle.dm_drivers.specs.declared.expanded.functions.Function.TheVariants.{Allocate, CountHandles, CountPages, Deallocate, ListPages, PageCounts, Reallocate};
ghost use Rattle.dm_drivers.specs.expanded.Caller.{caller};
ghost use Rattle.dm_drivers.specs.expanded.Functions.{call};

use crate::expanded::answers::{settle, settle_bx, settle_dx, settle_pages, succeed};
use dm_cpu::Cpu;
use dm_ems::Ems;
use dm_space::Space;

/// 42h: sets BX to the number of pages that can still be allocated, DX to that of all pages.
#[tactic(auto, unfolding(crate::specs::expanded::Functions::call))]
pub(crate) fn tell_pages(cpu: &mut Cpu, ems: &Ems, space: &Space)
    ensures { caller cpu.new ems.now space.now.memory ≡ call (caller cpu.old ems.now space.now.memory) PageCounts }
{
    cpu.bx = ems.unallocated(space);
    cpu.dx = ems.total();
    succeed(cpu);
}

/// 43h: allocates a new handle with BX pages of zeros, and sets DX to its number.
#[tactic(auto, unfolding(crate::specs::expanded::Functions::call))]
pub(crate) fn allocate(cpu: &mut Cpu, ems: &mut Ems, space: &mut Space)
    ensures { caller cpu.new ems.new space.new.memory ≡ call (caller cpu.old ems.old space.old.memory) Allocate }
{
    let res = ems.allocate(space, cpu.bx);
    settle_dx(cpu, res);
}

/// 45h: frees the handle in DX and its pages; handle 0 stays in use.
#[tactic(auto, unfolding(crate::specs::expanded::Functions::call))]
pub(crate) fn deallocate(cpu: &mut Cpu, ems: &mut Ems, space: &mut Space)
    requires { IsConsistent (expanded ems.old space.old.memory) }
    ensures { caller cpu.new ems.new space.new.memory ≡ call (caller cpu.old ems.old space.old.memory) Deallocate }
{
    let res = ems.deallocate(space, cpu.dx);
    settle(cpu, res);
}

/// 4Bh: sets BX to the number of handles in use, handle 0 among them.
#[tactic(auto, unfolding(crate::specs::expanded::Functions::call))]
pub(crate) fn count_handles(cpu: &mut Cpu, ems: &Ems, space: &Space)
    ensures { caller cpu.new ems.now space.now.memory ≡ call (caller cpu.old ems.now space.now.memory) CountHandles }
{
    cpu.bx = ems.in_use();
    succeed(cpu);
}

/// 4Ch: sets BX to the number of pages of the handle in DX.
#[tactic(auto, unfolding(crate::specs::expanded::Functions::call))]
pub(crate) fn count_pages(cpu: &mut Cpu, ems: &Ems, space: &Space)
    ensures { caller cpu.new ems.now space.now.memory ≡ call (caller cpu.old ems.now space.now.memory) CountPages }
{
    let res = ems.count_pages(space, cpu.dx);
    settle_bx(cpu, res);
}

/// 4Dh: writes two words at ES:DI for each handle in use, in ascending order: the handle and its number of pages.
/// Sets BX to the number of handles in use.
#[tactic(auto, unfolding(crate::specs::expanded::Functions::call))]
pub(crate) fn list_pages(cpu: &mut Cpu, ems: &Ems, space: &mut Space)
    ensures { caller cpu.new ems.now space.new.memory ≡ call (caller cpu.old ems.now space.old.memory) ListPages }
{
    cpu.bx = ems.list_pages(space, cpu.es, cpu.di);
    succeed(cpu);
}

/// 51h: changes the number of pages of the handle in DX to BX. Sets BX to the number that the handle has then, also
/// where there are not enough pages; if the handle is not in use, BX stays.
#[tactic(auto, unfolding(crate::specs::expanded::Functions::call))]
pub(crate) fn reallocate(cpu: &mut Cpu, ems: &mut Ems, space: &mut Space)
    requires { IsConsistent (expanded ems.old space.old.memory) }
    ensures { caller cpu.new ems.new space.new.memory ≡ call (caller cpu.old ems.old space.old.memory) Reallocate }
{
    let res = dm_ems_move::reallocate(ems, space, cpu.dx, cpu.bx);
    settle_pages(cpu, res);
}
