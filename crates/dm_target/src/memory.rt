//! Memory by linear addresses.

ghost use Rattle.std.specs.Prelude.{◌≡◌, ◌+◌, ◌≤◌, IfOk, length};
ghost use Rattle.dm_target.specs.Memory.{byte_at, segment_below, readable, bytes_from, linear_of, reads_as};

use dm_space::Space;
use std::alloc::{AllocError, Global};

/// The highest linear address: FFFF:FFFF.
pub const LAST: u32 = 0x10_FFEF;

/// The largest number of bytes that one reply holds, two digits each.
const MOST: u32 = 0x2000;

/// The linear address of segment:offset, as the machine reaches it: without bit 20 while A20 is off.
pub fn linear_of(space: &Space, segment: u16, offset: u16) -> u32
    ensures { result ≡ linear_of space.now.memory segment offset }
{
    let linear = segment as u32 * 16 + offset as u32;
    if space.a20() {
        linear
    } else {
        linear % 0x10_0000
    }
}

/// The segment through which the byte at a linear address is read: the highest whose first byte is not above it.
pub fn segment_below(address: u32) -> u16
    ensures { result ≡ segment_below address }
{
    (address / 16).min(0xFFFF) as u16
}

/// The byte at a linear address, as a program reads it through a segment below it.
pub fn byte_at(space: &Space, address: u32) -> u8
    requires { address ≤ 0x10FFEF }
    ensures { result ≡ byte_at space.now.memory address }
{
    let segment = segment_below(address);
    space.peek(segment, (address - segment as u32 * 16) as u16)
}

/// How many of `count` bytes from a linear address up can be read at once: those up to FFFF:FFFF, at most 2000h.
pub fn readable(address: u32, count: u32) -> u32
    ensures { result ≡ readable address count }
{
    if LAST < address {
        return 0;
    }
    count.min(MOST).min(LAST + 1 - address)
}

/// The bytes from a linear address up, of which there must be as many as `count`. An `Err` is a failed allocation.
pub fn bytes_from(
    alloc: Global,
    space: &Space,
    address: u32,
    count: u32,
) -> Result<Vec<u8>, AllocError>
    requires { address + count ≤ 0x10FFF0 }
    ensures { IfOk result (λ bytes. bytes.items ≡ bytes_from space.now.memory address count) }
{
    let mut bytes = Vec::new(alloc);
    for k in 0..count {
        bytes.push(byte_at(space, address + k))?;
    }
    Ok(bytes)
}

/// Whether memory has these bytes from an address up; they must end at FFFF:FFFF or before.
pub fn reads_as(space: &Space, address: u32, bytes: &[u8]) -> bool
    requires { address + length bytes.now ≤ 0x10FFF0 }
    ensures { result ≡ reads_as space.now.memory address bytes.now }
{
    for (k, byte) in bytes.iter().enumerate() {
        if byte_at(space, address + k as u32) != *byte {
            return false;
        }
    }
    true
}
