//! The registers that a call of INT 67h returns (LIM EMS 4.0, section 3): AH is the status, 0 for success. Each
//! function here changes `cpu` alone, and of it only the registers that it names.
ghost use Rattle.std.specs.Prelude.{◌≡◌};
ghost use Rattle.dm_ems_move.specs.RegionMoves.{moved_code};
ghost use Rattle.dm_drivers.specs.expanded.Caller.{with_status, succeeded, refused, settled, settled_with_status};
ghost use Rattle.dm_drivers.specs.expanded.Functions.{recounted, numbered};

use dm_cpu::Cpu;
use dm_ems::Status;
use dm_ems_move::{Moved, Reallocated};
use dm_ins::ByteRegister;

/// Sets AH to 0: success.
pub(crate) fn succeed(cpu: &mut Cpu)
    ensures { cpu.new ≡ succeeded cpu.old }
{
    cpu.set_byte(ByteRegister::Ah, 0);
}

/// Sets AH to the status of an error.
pub(crate) fn refuse(cpu: &mut Cpu, status: Status)
    ensures { cpu.new ≡ refused cpu.old status }
{
    cpu.set_byte(ByteRegister::Ah, status.code());
}

/// Sets AH after a call that returns nothing else: to 0, or to the status of its error.
pub(crate) fn settle(cpu: &mut Cpu, res: Result<(), Status>)
    ensures { cpu.new ≡ settled cpu.old res (λ done. cpu.old) }
{
    match res {
        Ok(()) => succeed(cpu),
        Err(status) => refuse(cpu, status),
    }
}

/// Sets AH after 4Ch, and BX to the number of pages that it returns if it succeeded.
pub(crate) fn settle_bx(cpu: &mut Cpu, res: Result<u16, Status>)
    ensures { cpu.new ≡ settled cpu.old res (λ number. record cpu.old { bx = number }) }
{
    match res {
        Ok(number) => {
            cpu.bx = number;
            succeed(cpu);
        }
        Err(status) => refuse(cpu, status),
    }
}

/// Sets AH after a call that returns a handle (43h, and 54h with AL = 1), and DX to that handle if it succeeded.
pub(crate) fn settle_dx(cpu: &mut Cpu, res: Result<u16, Status>)
    ensures { cpu.new ≡ settled cpu.old res (λ handle. record cpu.old { dx = handle }) }
{
    match res {
        Ok(handle) => {
            cpu.dx = handle;
            succeed(cpu);
        }
        Err(status) => refuse(cpu, status),
    }
}

/// Sets AH after 4Eh, and AL to the size of a map if the call returns it.
pub(crate) fn settle_al(cpu: &mut Cpu, res: Result<Option<u8>, Status>)
    ensures { cpu.new ≡ settled cpu.old res (numbered cpu.old) }
{
    match res {
        Ok(number) => {
            if let Some(number) = number {
                cpu.set_byte(ByteRegister::Al, number);
            }
            succeed(cpu);
        }
        Err(status) => refuse(cpu, status),
    }
}

/// Sets AH after a reallocation (51h), and BX to the handle's number of pages, also where that number could not be
/// changed. With an unknown handle BX stays.
pub(crate) fn settle_pages(cpu: &mut Cpu, res: Result<Reallocated, Status>)
    ensures { cpu.new ≡ settled_with_status cpu.old res (recounted cpu.old) }
{
    match res {
        Ok(reallocated) => {
            cpu.bx = reallocated.pages;
            match reallocated.refused {
                Some(status) => refuse(cpu, status),
                None => succeed(cpu),
            }
        }
        Err(status) => refuse(cpu, status),
    }
}

/// Sets AH after a move (57h, AL = 0): to 0, to 92h if it succeeded with regions that overlap, or to the status of its
/// error.
pub(crate) fn settle_move(cpu: &mut Cpu, res: Result<Moved, Status>)
    ensures { cpu.new ≡ settled_with_status cpu.old res (λ how. with_status cpu.old (moved_code how)) }
{
    match res {
        Ok(moved) => cpu.set_byte(ByteRegister::Ah, moved.code()),
        Err(status) => refuse(cpu, status),
    }
}
