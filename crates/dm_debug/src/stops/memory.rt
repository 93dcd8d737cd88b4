//! Memory by linear addresses (Intel 8086 Family User's Manual, "Memory": segment * 16 + offset).

ghost use Rattle.std.specs.Prelude.{◌≡◌, ◌+◌, ◌≤◌, ◌<◌, IfOk, length};
ghost use Rattle.dm_debug.specs.stops.Events.{segment_below, byte_at, bytes_there, range_bytes, reads_as, code_address};

use crate::stops::events::Range;
use dm_machine::Machine;
use dm_space::Space;
use std::alloc::{AllocError, Global};

/// The highest linear address: FFFF:FFFF.
const LAST: u32 = 0x10_FFEF;

/// The segment through which the byte at a linear address is read: the highest whose first byte is not above it.
fn segment_below(address: u32) -> u16
    ensures { result ≡ segment_below address }
{
    (address / 16).min(0xFFFF) as u16
}

/// The byte at a linear address, as a program reads it through a segment below it.
fn byte_at(space: &Space, address: u32) -> u8
    requires { address ≤ 0x10FFEF }
    ensures { result ≡ byte_at space.now.memory address }
{
    let segment = segment_below(address);
    space.peek(segment, (address - segment as u32 * 16) as u16)
}

/// The linear address of CS:IP: without bit 20 while A20 is off.
pub(crate) fn code_address(machine: &Machine) -> u32
    ensures { result ≡ code_address machine.now }
{
    let cpu = machine.cpu();
    let linear = cpu.cs as u32 * 16 + cpu.ip as u32;
    if machine.space().a20() {
        linear
    } else {
        linear % 0x10_0000
    }
}

/// How many bytes of the range there are: those up to FFFF:FFFF.
fn bytes_there(range: &Range) -> u32
    ensures is { result ≡ bytes_there range.now }
    ensures most { result ≤ 0x10FFF0 }
    ensures ends { 0 < result → range.now.address + result ≤ 0x10FFF0 }
{
    if LAST < range.address {
        return 0;
    }
    range.length.min(LAST + 1 - range.address)
}

/// The bytes of the range. An `Err` is a failed allocation.
pub(crate) fn range_bytes(
    alloc: Global,
    space: &Space,
    range: &Range,
) -> Result<Vec<u8>, AllocError>
    ensures { IfOk result (λ bytes. bytes.items ≡ range_bytes space.now.memory range.now) }
{
    let mut bytes = Vec::new(alloc);
    for k in 0..bytes_there(range) {
        bytes.push(byte_at(space, range.address + k))?;
    }
    Ok(bytes)
}

/// Whether memory has these bytes from an address up; they must end at FFFF:FFFF or before.
fn reads_as(space: &Space, address: u32, bytes: &[u8]) -> bool
    requires { address + length bytes.now ≤ 0x10FFF0 }
    ensures { result ≡ reads_as space.now.memory address bytes.now }
{
    for (k, byte) in bytes.iter().enumerate() {
        if byte_at(space, address + k as u32) != *byte {
            return false;
        }
    }
    true
}

/// Whether the range reads as these bytes, of which there are as many as the range has.
pub(crate) fn range_reads_as(space: &Space, range: &Range, bytes: &[u8]) -> bool
    requires { length bytes.now ≡ bytes_there range.now }
    ensures { result ≡ reads_as space.now.memory range.now.address bytes.now }
{
    if bytes.is_empty() {
        return true;
    }
    reads_as(space, range.address, bytes)
}
