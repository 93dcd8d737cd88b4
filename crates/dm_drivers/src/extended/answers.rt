//! The registers that a call of the extended memory driver returns (XMS 3.0): AX is 1 for success, except in 00h and
//! 08h; for an error AX is 0, and BL is its code. Each function here changes `cpu` alone, and of it only the registers
//! that it names.
ghost use Rattle.std.specs.Prelude.{◌≡◌};
ghost use Rattle.dm_xms.specs.Uppers.{code_of};
ghost use Rattle.dm_drivers.specs.extended.Caller.{succeeded, refused, settled};
ghost use Rattle.dm_drivers.specs.extended.Functions.{with_free, with_address, with_information};
ghost use Rattle.dm_drivers.specs.extended.Uppers as uppers;

use dm_cpu::Cpu;
use dm_ins::ByteRegister;
use dm_xms::{FreeMemory, HandleInformation, Status, Upper, UpperRefusal};

/// Sets AX to 1: success.
pub(crate) fn succeed(cpu: &mut Cpu)
    ensures { cpu.new ≡ succeeded cpu.old }
{
    cpu.ax = 1;
}

/// Sets AX to 0 and BL to `code`: an error's, or 0 where 07h returns that A20 is off.
pub(crate) fn refuse(cpu: &mut Cpu, code: u8)
    ensures { cpu.new ≡ refused cpu.old code }
{
    cpu.ax = 0;
    cpu.set_byte(ByteRegister::Bl, code);
}

/// Sets AX to 1 after a call that returns nothing else (01h, 02h, 04h to 06h, 0Ah, 0Bh, 0Dh and 0Fh); after an error AX
/// to 0 and BL to its code.
pub(crate) fn settle(cpu: &mut Cpu, res: Result<(), Status>)
    ensures { cpu.new ≡ settled cpu.old res (λ done. cpu.old) }
{
    match res {
        Ok(()) => succeed(cpu),
        Err(status) => refuse(cpu, status.code()),
    }
}

/// Sets the registers of 08h: AX to the largest gap, DX to all gaps, in KiB, and BL to 0; after an error AX and DX to
/// 0, and BL to its code.
pub(crate) fn settle_free(cpu: &mut Cpu, res: Result<FreeMemory, Status>)
    ensures { cpu.new ≡ with_free cpu.old res }
{
    match res {
        Ok(free) => {
            cpu.ax = free.largest;
            cpu.dx = free.total;
            cpu.set_byte(ByteRegister::Bl, 0);
        }
        Err(status) => {
            cpu.dx = 0;
            refuse(cpu, status.code());
        }
    }
}

/// Sets the registers of 09h: AX to 1 and DX to the new handle; after an error AX to 0 and BL to its code.
pub(crate) fn settle_dx(cpu: &mut Cpu, res: Result<u16, Status>)
    ensures { cpu.new ≡ settled cpu.old res (λ handle. record cpu.old { dx = handle }) }
{
    match res {
        Ok(handle) => {
            cpu.dx = handle;
            succeed(cpu);
        }
        Err(status) => refuse(cpu, status.code()),
    }
}

/// Sets the registers of 0Ch: AX to 1 and DX:BX to a linear address; after an error AX to 0 and BL to its code.
pub(crate) fn settle_address(cpu: &mut Cpu, res: Result<usize, Status>)
    ensures { cpu.new ≡ settled cpu.old res (with_address cpu.old) }
{
    match res {
        Ok(address) => {
            cpu.dx = (address / 0x1_0000 % 0x1_0000) as u16;
            cpu.bx = (address % 0x1_0000) as u16;
            succeed(cpu);
        }
        Err(status) => refuse(cpu, status.code()),
    }
}

/// Sets the registers of 0Eh: AX to 1, BH to the number of locks, BL to that of free handles and DX to the size in KiB;
/// after an error AX to 0 and BL to its code.
pub(crate) fn settle_information(cpu: &mut Cpu, res: Result<HandleInformation, Status>)
    ensures { cpu.new ≡ settled cpu.old res (with_information cpu.old) }
{
    match res {
        Ok(information) => {
            cpu.bx = information.locks as u16 * 0x100 + information.free as u16;
            cpu.dx = information.kib;
            succeed(cpu);
        }
        Err(status) => refuse(cpu, status.code()),
    }
}

/// Sets AX to 0 and BL to the code of an error on upper memory blocks. DX becomes the number of paragraphs of
/// `Smaller`, with `NoneFree` 0; with `Unknown` it stays.
#[tactic(auto, unfolding(dm_xms::specs::Uppers::code_of))]
fn refuse_upper(cpu: &mut Cpu, refusal: UpperRefusal)
    ensures { cpu.new ≡ refused (uppers.with_room cpu.old refusal) (code_of refusal) }
{
    match refusal {
        UpperRefusal::Smaller(paragraphs) => cpu.dx = paragraphs,
        UpperRefusal::NoneFree => cpu.dx = 0,
        UpperRefusal::Unknown => {}
    }
    refuse(cpu, refusal.code());
}

/// Sets the registers of 10h: AX to 1, BX to the segment of the new block and DX to its size in paragraphs; after an
/// error AX, BL and DX as `refuse_upper` does.
pub(crate) fn settle_upper(cpu: &mut Cpu, res: Result<Upper, UpperRefusal>)
    ensures { cpu.new ≡ uppers.settled cpu.old res (λ u. record cpu.old { bx = u.segment; dx = u.paragraphs }) }
{
    match res {
        Ok(upper) => {
            cpu.bx = upper.segment;
            cpu.dx = upper.paragraphs;
            succeed(cpu);
        }
        Err(refusal) => refuse_upper(cpu, refusal),
    }
}

/// Sets AX to 1 after 11h or 12h; after an error AX, BL and DX as `refuse_upper` does.
pub(crate) fn settle_uppers(cpu: &mut Cpu, res: Result<(), UpperRefusal>)
    ensures { cpu.new ≡ uppers.settled cpu.old res (λ done. cpu.old) }
{
    match res {
        Ok(()) => succeed(cpu),
        Err(refusal) => refuse_upper(cpu, refusal),
    }
}
