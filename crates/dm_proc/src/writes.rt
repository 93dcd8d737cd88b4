//! Writing bytes to guest memory from a segment upwards, at the start of a process, for an overlay, and for the vectors
//! that an end restores. A block here is the run of bytes that is written, which may be longer than 64 KiB; segments
//! wrap. What is written to ROM, or where there is no memory, is lost.
ghost use Rattle.std.specs.Prelude.{◌≡◌, ◌+◌, ◌<◌, ◌≤◌, get_or, length, take};
ghost use Rattle.dm_proc.specs.Writes.{apply, block, block_address, upwards};
ghost use Rattle.dm_space.specs.Memory.{poke};

use dm_space::Space;

/// Writes byte `at` of the block at a segment: `at` / 16 paragraphs up, which wraps, at offset `at`
/// modulo 16.
fn write_byte(space: &mut Space, segment: u16, at: usize, byte: u8)
    requires { at < 0x1000_0000 }
    ensures { space.new ≡ record space.old {
      memory = poke space.old.memory (block_address space.old.memory.a20 segment
          at) byte;
    } }
{
    space.poke(
        segment.wrapping_add((at / 16 % 65536) as u16),
        (at % 16) as u16,
        byte,
    );
}

/// Writes bytes to the block at a segment, from its byte `from` on.
pub(crate) fn write_from(space: &mut Space, segment: u16, from: usize, bytes: &[u8])
    requires { from + length bytes.now ≤ 0x1000_0000 }
    ensures { space.new ≡ record space.old {
      memory = apply (upwards space.old.memory.a20 segment from
          bytes.now) space.old.memory;
    } }
{
    for (at, byte) in bytes.iter().enumerate() {
        write_byte(space, segment, from + at, *byte);
    }
}

/// Writes bytes to the block at a segment, from its first byte on.
pub(crate) fn write_bytes(space: &mut Space, segment: u16, bytes: &[u8])
    requires { length bytes.now ≤ 0x200000 }
    ensures { space.new ≡ record space.old {
      memory = apply (block space.old.memory.a20 segment
          bytes.now) space.old.memory;
    } }
{
    write_from(space, segment, 0, bytes);
}

/// Byte `at` of the scratch part.
fn scratch_byte(space: &Space, at: usize) -> u8
    ensures byte { result ≡ get_or space.now.scratch at 0 }
    ensures length { length space.now.scratch ≡ 0x200000 }
{
    let bytes = space.scratch();
    if at < bytes.len() { bytes[at] } else { 0 }
}

/// Writes the first `count` bytes of the scratch part, which no guest address shows, to the block at a segment. The
/// scratch part stays.
pub(crate) fn write_scratch(space: &mut Space, segment: u16, count: usize)
    requires { count ≤ 0x200000 }
    ensures { space.new ≡ record space.old {
      memory = apply (block space.old.memory.a20 segment
          (take count space.old.scratch)) space.old.memory;
    } }
{
    for at in 0..count {
        let byte = scratch_byte(space, at);
        write_byte(space, segment, at, byte);
    }
}
