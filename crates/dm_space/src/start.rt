//! The bytes of RAM as a machine starts.
ghost use Rattle.std.specs.Prelude.{◌≡◌, ◌≤◌, length};
ghost use Rattle.dm_space.specs.Start.{start_byte, vector_offset, vector_segment, IsLaidOver};

use crate::entry_points::{ENTRY_SEGMENT, EXPANDED_MEMORY_OFFSET, EXPANDED_MEMORY_SEGMENT};

/// The linear address after the size in the first arena header: the bytes from here on stay as they are.
const END: usize = 0x1005;

/// The offset that the vector of an interrupt holds as the machine starts.
fn vector_offset(interrupt: u8) -> u16
    ensures { result ≡ vector_offset interrupt }
{
    if interrupt == 0x67 {
        EXPANDED_MEMORY_OFFSET
    } else {
        interrupt as u16 * 4
    }
}

/// The segment that the vector of an interrupt holds as the machine starts.
fn vector_segment(interrupt: u8) -> u16
    ensures { result ≡ vector_segment interrupt }
{
    if interrupt == 0x67 {
        EXPANDED_MEMORY_SEGMENT
    } else {
        ENTRY_SEGMENT
    }
}

/// The byte of RAM at a linear address as the machine starts.
#[tactic(auto, unfolding(crate::specs::Start::start_byte))]
fn start_byte(linear: usize) -> u8
    ensures { result ≡ start_byte linear }
{
    if linear < 0x400 {
        let interrupt = (linear / 4) as u8;
        let offset = vector_offset(interrupt);
        let segment = vector_segment(interrupt);
        match linear % 4 {
            0 => (offset % 256) as u8,
            1 => (offset / 256) as u8,
            2 => (segment % 256) as u8,
            _ => (segment / 256) as u8,
        }
    } else {
        match linear {
            0x1000 => b'Z',
            0x1003 => 0xFF,
            0x1004 => 0x9E,
            _ => 0,
        }
    }
}

/// Writes the bytes of the start over the first 1005h bytes of RAM: the interrupt vectors, the first arena header up to
/// the end of its size, and zeros between them. The other bytes stay.
pub fn lay_start(ram: &mut [u8])
    requires { 0x1005 ≤ length ram.old }
    ensures { IsLaidOver ram.old ram.new }
{
    for linear in 0..END {
        ram[linear] = start_byte(linear);
    }
}
