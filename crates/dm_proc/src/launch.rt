//! What the start of a process writes, and its registers (MS-DOS Programmer's Reference, "Load and
//! Execute Program"). The start segment of a program is 10h paragraphs after its prefix begins: its image is written
//! there. The scratch part of a space holds bytes that no guest address shows.
ghost use Rattle.std.specs.Prelude.{◌≡◌, ◌+◌, ◌<◌, ◌≤◌, length, min, take, true, false, MatchResult};
ghost use Rattle.dm_load.specs.Image.{is_mz, relocated};
ghost use Rattle.dm_blocks.specs.Chain.{first_header};
ghost use Rattle.dm_arena.specs.Pair.{IsPair, IsPlannedOn};
ghost use Rattle.dm_proc.specs.Writes.{apply, block};
ghost use Rattle.dm_proc.specs.Room.{paragraphs};
ghost use Rattle.dm_proc.specs.Room;
ghost use Rattle.dm_arena.specs.Pair.{placed_of};
ghost use Rattle.dm_proc.specs.inner.Placed.{as_placed};
ghost use Rattle.dm_proc.specs.Request.{passed_of};
ghost use Rattle.dm_proc.specs.Start.{start_writes, zero_word, stack_writes};
ghost use Rattle.dm_proc.specs.Processes.{PlanRefused};
ghost use Rattle.dm_proc.specs.inner.Processes.{IsWritten};

use crate::arguments::Arguments;
use crate::placed::Blocks;
use crate::psp::make_prefix;
use crate::refusal::ExecRefusal;
use crate::room::{least, most};
use crate::writes::{write_bytes, write_from, write_scratch};
use dm_arena::{Pair, Strategy, plan_pair, write_pair};
use dm_cpu::{Cpu, Flags};
use dm_load::{FarPointer, Image, Kind};
use dm_space::Space;

/// The length in bytes of the part of an image that relocations may change: they change no word
/// after it.
const RELOCATED: usize = 0x11_0000;

/// Writes the first 110000h bytes of an image, or all if it is shorter, relocated to the segment `start`, to the front
/// of the scratch part. Returns their number. Guest memory stays.
fn relocate(space: &mut Space, image: &Image, start: u16) -> usize
    ensures memory { space.new.memory ≡ space.old.memory }
    ensures scratch { take result space.new.scratch ≡ take 0x110000 (relocated image.now start) }
    ensures length { result ≡ min (length (Rattle.dm_load.specs.Image.image image.now)) 0x110000 }
{
    let count = image.bytes().len().min(RELOCATED);
    image.relocated(start, space.scratch_mut(count));
    count
}

/// Writes an image, a program's or an overlay's, relocated to the segment `start`, to guest memory from `segment`
/// upwards. The scratch part may be overwritten.
pub(crate) fn write_image(space: &mut Space, image: &Image, segment: u16, start: u16)
    ensures { space.new.memory ≡ apply (block space.old.memory.a20 segment
        (relocated image.now start)) space.old.memory }
{
    let count = relocate(space, image, start);
    write_scratch(space, segment, count);
    write_from(space, segment, count, image.rest());
}

/// Writes the zero word of a COM program's stack at segment:offset; the offset of the high byte wraps.
fn write_zero_word(space: &mut Space, segment: u16, offset: u16)
    ensures { space.new.memory ≡ apply (zero_word space.old.memory.a20 segment offset) space.old.memory }
{
    space.poke16(segment, offset, 0);
}

/// SP of a COM program at its start: the offset of the last word of its block, or FFFEh if the block is larger than 64
/// KiB.
fn com_stack(blocks: Blocks) -> u16
    requires { 0x11 ≤ blocks.size }
    ensures { result ≡ Rattle.dm_proc.specs.Start.com_stack (as_placed blocks) }
{
    (16 * blocks.size as u32 - 2).min(0xFFFE) as u16
}

/// The registers of a new process, with this CS:IP and SS:SP: DS and ES are the segment of its prefix, the general
/// registers are 0, and IF is the only flag that is set.
#[tactic(auto, unfolding(dm_alu::specs::Flags::flags_of))]
fn registers(segment: u16, code: FarPointer, stack: FarPointer) -> Cpu
    ensures { result ≡ Rattle.dm_proc.specs.Start.registers segment code stack }
{
    Cpu {
        ax: 0,
        cx: 0,
        dx: 0,
        bx: 0,
        sp: stack.offset,
        bp: 0,
        si: 0,
        di: 0,
        es: segment,
        cs: code.segment,
        ss: stack.segment,
        ds: segment,
        ip: code.offset,
        flags: Flags {
            interrupt: true,
            ..Flags::from_word(0)
        },
    }
}

/// Writes the zero word at SS:SP of a COM program, for its near return to offset 0; nothing for an MZ program.
fn write_stack(space: &mut Space, image: &Image, blocks: Blocks)
    requires { Room.least image.now ≤ blocks.size }
    ensures { space.new.memory ≡ apply (stack_writes space.old.memory.a20 (as_placed blocks)
        image.now) space.old.memory }
{
    match image.kind() {
        Kind::Com => write_zero_word(space, blocks.program, com_stack(blocks)),
        Kind::Mz => {}
    }
}

/// Makes all writes of a start after those of the arena's headers, in this order: the environment (the first
/// `environment_bytes` of the scratch part) to its block, the prefix to the program's block, the image from the start
/// segment on, the zero word on a COM program's stack. Writing the image overwrites the scratch part.
fn write_start(
    space: &mut Space,
    image: &Image,
    blocks: Blocks,
    environment_bytes: usize,
    prefix: &[u8],
)
    requires size { Room.least image.now ≤ blocks.size }
    requires environment { environment_bytes ≤ 0x200000 }
    requires prefix { length prefix.now ≤ 0x200000 }
    ensures { space.new.memory ≡ apply (start_writes space.old.memory.a20 (as_placed blocks)
        (take environment_bytes space.old.scratch) prefix.now image.now) space.old.memory }
{
    write_scratch(space, blocks.environment_segment, environment_bytes);
    write_bytes(space, blocks.program, prefix);
    let start = blocks.program.wrapping_add(0x10);
    write_image(space, image, start, start);
    write_stack(space, image, blocks);
}

/// CS:IP or SS:SP of an MZ header with the start segment `by` added to the pointer's segment, modulo 65,536.
fn relocated_pointer(pointer: FarPointer, by: u16) -> FarPointer
    ensures { result ≡ Rattle.dm_proc.specs.Start.relocated_pointer pointer by }
{
    FarPointer {
        segment: pointer.segment.wrapping_add(by),
        offset: pointer.offset,
    }
}

/// The registers of a new process: CS:IP and SS:SP are those of an MZ header with the start segment added; a COM
/// program begins at offset 0100h of its block, with SS its block's segment and SP as `com_stack` says.
fn start_registers(image: &Image, blocks: Blocks) -> Cpu
    requires { Room.least image.now ≤ blocks.size }
    ensures { result ≡ Rattle.dm_proc.specs.Start.start_registers (as_placed blocks) image.now }
{
    let segment = blocks.program;
    match image.kind() {
        Kind::Com => {
            let code = FarPointer {
                segment,
                offset: 0x100,
            };
            let stack = FarPointer {
                segment,
                offset: com_stack(blocks),
            };
            registers(segment, code, stack)
        }
        Kind::Mz => {
            let start = segment.wrapping_add(0x10);
            registers(
                segment,
                relocated_pointer(image.start_pointer(), start),
                relocated_pointer(image.stack(), start),
            )
        }
    }
}

/// Plans both blocks of a program, its own and that of its environment of `environment_bytes`. Nothing is written.
///
/// # Errors
///
/// `Destroyed` or `Short`, as for `Procs::load`.
pub(crate) fn plan(
    space: &Space,
    strategy: Strategy,
    image: &Image,
    environment_bytes: usize,
    upper: bool,
) -> Result<Pair, ExecRefusal>
    requires { environment_bytes < 0x8100 }
    ensures { MatchResult result (λ pair. IsPair upper space.now.memory first_header strategy
        (paragraphs environment_bytes) (Room.least image.now) (Room.most image.now) pair) (λ e. PlanRefused upper
        space.now.memory strategy environment_bytes image.now e) }
{
    let environment_paragraphs = environment_bytes.div_ceil(16) as u16;
    match plan_pair(
        space,
        strategy,
        environment_paragraphs,
        least(image),
        most(image),
        upper,
    ) {
        Ok(pair) => Ok(pair),
        Err(dm_arena::ArenaRefusal::Short { .. }) => Err(ExecRefusal::Short),
        Err(dm_arena::ArenaRefusal::Destroyed) => Err(ExecRefusal::Destroyed),
        Err(dm_arena::ArenaRefusal::NoBlock) => unreachable!(),
    }
}

/// A process that was started: the segment of its prefix, and its registers.
#[derive(Drop)]
pub(crate) struct Started {
    pub(crate) segment: u16,
    pub(crate) cpu: Cpu,
}

/// Writes all of a planned process: the arena's headers with its two blocks, and then what `write_start` writes:
/// environment (the first `environment_bytes` of the scratch part), prefix, image, and a COM program's zero word. The
/// prefix is made before anything is written. `parent` is the segment of the parent's prefix, 0 for
/// the first program. Writing the image overwrites the scratch part.
pub(crate) fn start(
    space: &mut Space,
    image: &Image,
    pair: Pair,
    environment_bytes: usize,
    parent: u16,
    arguments: &Arguments,
    upper: bool,
) -> Started
    requires planned { IsPlannedOn upper space.old.memory pair }
    requires size { Room.least image.now ≤ pair.size }
    requires environment { environment_bytes ≤ 0x200000 }
    ensures segment { result.segment ≡ pair.program }
    ensures registers { result.cpu ≡ Rattle.dm_proc.specs.Start.start_registers (placed_of pair) image.now }
    ensures written { (p : IsPlannedOn upper space.old.memory pair) → IsWritten upper space.old.memory pair p (take
        environment_bytes space.old.scratch) image.now parent (passed_of arguments.now) space.new.memory }
{
    let blocks = Blocks {
        environment_segment: pair.environment_block(),
        program: pair.program_block(),
        size: pair.size(),
    };
    let prefix = make_prefix(space, blocks, parent, arguments);
    write_pair(space, pair, upper);
    write_start(space, image, blocks, environment_bytes, prefix.as_slice());
    Started {
        segment: blocks.program,
        cpu: start_registers(image, blocks),
    }
}
