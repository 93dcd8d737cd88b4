//! INT 21h functions 48h, 49h and 4Ah: blocks of the arena, for the present process
//! (MS-DOS Programmer's Reference, "System Calls").
ghost use Rattle.std.specs.Prelude.{◌≡◌};
ghost use Rattle.dm_services.specs.Allocation.{answered, refused, Allocation, Freeing, Resizing};

use crate::state::Parts;
use dm_arena::ArenaRefusal;
use dm_cpu::Cpu;

/// Puts the error code of a failed call of 48h, 49h, 4Ah or 58h into AX: 7, 8 or 9. For 8, not enough memory, BX
/// becomes the largest size possible, in paragraphs; for 7 and 9, BX stays.
pub(crate) fn refuse(cpu: &mut Cpu, refusal: ArenaRefusal)
    ensures { cpu.new ≡ refused cpu.old refusal }
{
    match refusal {
        ArenaRefusal::Destroyed => cpu.ax = 7,
        ArenaRefusal::Short { largest } => {
            cpu.ax = 8;
            cpu.bx = largest;
        }
        ArenaRefusal::NoBlock => cpu.ax = 9,
    }
}

/// Returns from function 48h, 49h, 4Ah, 4Bh or 58h: pops IP, CS and FLAGS, sets CF to `carry`, and counts the step. AX,
/// BX and memory stay as the function has left them.
pub(crate) fn answer(parts: &mut Parts, carry: bool)
    ensures { parts.new ≡ (answered parts.old parts.old.cpu parts.old.memory carry).state }
{
    parts.return_from_interrupt();
    parts.cpu.flags.carry = carry;
    parts.count();
}

/// 48h: allocates BX paragraphs for the present process; AX becomes the segment of the block, and CF is clear. On an
/// error, 7 or 8, AX is the error code, CF is set and memory stays; for error 8, BX is the size of the largest free
/// block that the strategy allows, in paragraphs, where adjacent free blocks count as one.
pub(crate) fn allocate(parts: &mut Parts)
    ensures { Allocation parts.old (record { stop = None; state = parts.new }) }
{
    let owner = parts.procs.psp();
    match dm_arena::allocate(
        &mut parts.space,
        parts.strategy,
        parts.cpu.bx,
        owner,
        parts.upper,
    ) {
        Ok(segment) => {
            parts.cpu.ax = segment;
            answer(parts, false);
        }
        Err(refusal) => {
            refuse(&mut parts.cpu, refusal);
            answer(parts, true);
        }
    }
}

/// 49h: frees the block at segment ES; CF is clear and AX stays. On an error, 7 or 9, AX is the error code, CF is set
/// and memory stays.
pub(crate) fn free(parts: &mut Parts)
    ensures { Freeing parts.old (record { stop = None; state = parts.new }) }
{
    match dm_arena::free(&mut parts.space, parts.cpu.es, parts.upper) {
        Ok(()) => answer(parts, false),
        Err(refusal) => {
            refuse(&mut parts.cpu, refusal);
            answer(parts, true);
        }
    }
}

/// 4Ah: resizes the block at segment ES to BX paragraphs; CF is clear and AX stays. On an error, 7, 8 or 9, AX is the
/// error code, CF is set and memory stays; for error 8, BX is the largest size possible, in paragraphs.
pub(crate) fn resize(parts: &mut Parts)
    ensures { Resizing parts.old (record { stop = None; state = parts.new }) }
{
    match dm_arena::resize(&mut parts.space, parts.cpu.es, parts.cpu.bx, parts.upper) {
        Ok(()) => answer(parts, false),
        Err(refusal) => {
            refuse(&mut parts.cpu, refusal);
            answer(parts, true);
        }
    }
}
