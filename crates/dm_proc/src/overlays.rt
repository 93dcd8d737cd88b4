//! Overlays: images that a program loads into memory of its own (MS-DOS Programmer's Reference,
//! function 4Bh, "Load Overlay").
ghost use Rattle.dm_proc.specs.Processes.{Overlays};

use crate::launch::write_image;
use crate::programs::Programs;
use crate::refusal::ExecRefusal;
use crate::request::asked_program;
use dm_cpu::Cpu;
use dm_space::Space;

/// Loads an overlay (function 4Bh, AL = 3): writes the image of the program named at DS:DX from a
/// segment upwards, which wraps, relocated by a factor. The segment and the factor are the two
/// words at ES:BX. No block is allocated, no register changes; the scratch part may be overwritten.
///
/// # Errors
///
/// `Function` where AL is not 3, else `NotFound`, else `BadFormat`. A refusal changes nothing.
pub fn overlay(cpu: &Cpu, space: &mut Space, programs: &Programs) -> Result<(), ExecRefusal>
    ensures { Overlays cpu.now space.old.memory programs.now result space.new.memory }
{
    if cpu.ax % 256 != 3 {
        return Err(ExecRefusal::Function);
    }
    let program = asked_program(cpu, space, programs)?;
    let segment = space.peek16(cpu.es, cpu.bx);
    let factor = space.peek16(cpu.es, cpu.bx.wrapping_add(2));
    write_image(space, &program.image, segment, factor);
    Ok(())
}
