//! What a call of function 4Bh asks for, by the registers and in guest memory (MS-DOS Programmer's
//! Reference, function 4Bh "Load and Execute Program").
ghost use Rattle.std.specs.Prelude.{◌≡◌, ◌<◌, MatchOption, MatchResult};
ghost use Rattle.dm_proc.specs.Request.{NoNameAt, IsNameAt, NamesGood, NameRefused, passed, passed_of};

use crate::arguments::Arguments;
use crate::programs::Programs;
use crate::psp::push_guest;
use crate::refusal::ExecRefusal;
use arrayvec::ArrayVec;
use dm_cpu::Cpu;
use dm_load::{BadFormat, FarPointer, Image};
use dm_space::Space;

/// The name of a program, as the call gives it, without the zero.
pub(crate) type Name = ArrayVec<u8, 65>;

/// The size in bytes of the longest name with its zero.
const NAME_BYTES: u16 = 65;

/// A program of the store, and the name that the call gives for it.
#[derive(Drop)]
pub(crate) struct Asked<'a> {
    pub(crate) name: Name,
    pub(crate) image: Image<'a>,
}

/// The name at segment:offset, up to 64 bytes before a zero; None if the first 65 bytes have no
/// zero. Offsets wrap.
fn name_at(space: &Space, segment: u16, offset: u16) -> Option<Name>
    ensures { MatchOption result (NoNameAt space.now.memory segment offset) (λ name. IsNameAt space.now.memory segment
        offset name.items) }
{
    let mut name = Name::new();
    for at in 0..NAME_BYTES {
        let byte = space.peek(segment, offset.wrapping_add(at));
        if byte == 0 {
            return Some(name);
        }
        name.push(byte);
    }
    None
}

/// Looks up the program whose name stands at DS:DX.
///
/// # Errors
///
/// `NotFound` where there is no name or the store has no such program, else `BadFormat` where the
/// file can't be loaded.
pub(crate) fn asked_program<'a>(
    cpu: &Cpu,
    space: &Space,
    programs: &'a Programs,
) -> Result<Asked<'a>, ExecRefusal>
    ensures { MatchResult result (λ n. NamesGood cpu.now space.now.memory programs.now n.name.items n.image) (λ e.
        NameRefused cpu.now space.now.memory programs.now e) }
{
    let Some(name) = name_at(space, cpu.ds, cpu.dx) else {
        return Err(ExecRefusal::NotFound);
    };
    let Some(file) = programs.find(name.as_slice()) else {
        return Err(ExecRefusal::NotFound);
    };
    match Image::of(file) {
        Ok(image) => Ok(Asked { name, image }),
        Err(BadFormat) => Err(ExecRefusal::BadFormat),
    }
}

/// The far pointer to the command tail or a file control block, at byte `at` of the parameter block at ES:BX: its
/// offset word, then its segment word. Offsets wrap.
fn pointer_at(cpu: &Cpu, space: &Space, at: u16) -> FarPointer
    requires { at < 0x100 }
    ensures { result ≡ Rattle.dm_proc.specs.Request.pointer_at cpu.now space.now.memory at }
{
    FarPointer {
        segment: space.peek16(cpu.es, cpu.bx.wrapping_add(at + 2)),
        offset: space.peek16(cpu.es, cpu.bx.wrapping_add(at)),
    }
}

/// The command tail at a far pointer: the first byte is the tail's length (more than 126 counts as 126), and the tail
/// follows. Offsets wrap.
#[tactic(auto, unfolding(crate::specs::Request::tail_at))]
fn tail_at(space: &Space, pointer: FarPointer) -> ArrayVec<u8, 126>
    ensures { result.items ≡ Rattle.dm_proc.specs.Request.tail_at space.now.memory pointer }
{
    let count = space.peek(pointer.segment, pointer.offset).min(126);
    let mut tail = ArrayVec::new();
    push_guest(
        &mut tail,
        space,
        pointer.segment,
        pointer.offset.wrapping_add(1),
        count as usize,
    );
    tail
}

/// The first 16 bytes of the file control block at a far pointer; offsets wrap.
#[tactic(auto, unfolding(crate::specs::Request::control_block))]
fn control_block(space: &Space, pointer: FarPointer) -> [u8; 16]
    ensures { result ≡ Rattle.dm_proc.specs.Request.control_block space.now.memory pointer }
{
    let mut block = [0; 16];
    for at in 0..16 {
        block[at] = space.peek(pointer.segment, pointer.offset.wrapping_add(at as u16));
    }
    block
}

/// What the parameter block at ES:BX passes to a program: its tail and file control blocks.
pub(crate) fn arguments_at(cpu: &Cpu, space: &Space) -> Arguments
    ensures { passed_of result ≡ passed cpu.now space.now.memory }
{
    Arguments {
        tail: tail_at(space, pointer_at(cpu, space, 2)),
        first: control_block(space, pointer_at(cpu, space, 6)),
        second: control_block(space, pointer_at(cpu, space, 10)),
    }
}

/// The segment of the environment to be copied: the parameter block's first word, or, where that is
/// 0, the word at 2Ch in the prefix of the present process. 0 stands for no environment.
pub(crate) fn environment_segment(cpu: &Cpu, space: &Space, present: u16) -> u16
    ensures { result ≡ Rattle.dm_proc.specs.Request.environment_segment space.now.memory present cpu.now }
{
    let asked = space.peek16(cpu.es, cpu.bx);
    if asked == 0 {
        space.peek16(present, 0x2C)
    } else {
        asked
    }
}
