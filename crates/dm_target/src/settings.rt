//! Setting registers by their numbers.

ghost use Rattle.std.specs.Prelude.{◌≡◌, ◌≤◌, true};
ghost use Rattle.dm_target.specs.Settings.{register_value, is_reached, reaches, place_for, with_value, registers_with};

use crate::memory::{LAST, linear_of, segment_below};
use dm_alu::Flags;
use dm_machine::Cpu;
use dm_space::Space;

/// The number that the bytes of a register spell; None for other bytes, and for registers that cannot be set.
fn value_of(number: u32, bytes: &[u8]) -> Option<u32>
    ensures { result ≡ register_value number bytes.now }
{
    match bytes {
        [a, b, c, d] => {
            if number < 14 {
                let high = 65536 * (*c as u32) + 16777216 * (*d as u32);
                Some(*a as u32 + 256 * (*b as u32) + high)
            } else {
                None
            }
        }
        [a, b] => {
            if number == 32 || number == 33 {
                Some(*a as u32 + 256 * (*b as u32))
            } else {
                None
            }
        }
        _ => None,
    }
}

/// Whether a register can have this value: ESP and EIP are linear addresses up to FFFF:FFFF.
fn is_reached(number: u32, value: u32) -> bool
    ensures { result ≡ is_reached number value }
{
    !((number == 4 || number == 8) && LAST < value)
}

/// Whether a linear address can be reached through a segment.
fn reaches(segment: u16, address: u32) -> bool
    ensures { result ≡ reaches segment address }
{
    let start = segment as u32 * 16;
    start <= address && address <= start + 0xFFFF
}

/// Segment and offset of a linear address: those that there were, if the address is theirs; the same segment, if it
/// reaches the address; otherwise the highest segment below it.
fn place_for(space: &Space, segment: u16, offset: u16, address: u32) -> (u16, u16)
    requires { address ≤ 0x10FFEF }
    ensures { result ≡ place_for space.now.memory segment offset address }
{
    if linear_of(space, segment, offset) == address {
        return (segment, offset);
    }
    if reaches(segment, address) {
        return (segment, (address - segment as u32 * 16) as u16);
    }
    let segment = segment_below(address);
    (segment, (address - segment as u32 * 16) as u16)
}

/// The registers with a value in one of them, which can have it.
fn with_value(space: &Space, cpu: Cpu, number: u32, value: u32) -> Cpu
    requires { is_reached number value ≡ true }
    ensures { result ≡ with_value space.now.memory cpu number value }
{
    let mut cpu = cpu;
    let word = (value % 65536) as u16;
    match number {
        0 => cpu.ax = word,
        1 => cpu.cx = word,
        2 => cpu.dx = word,
        3 => cpu.bx = word,
        4 => (cpu.ss, cpu.sp) = place_for(space, cpu.ss, cpu.sp, value),
        5 => cpu.bp = word,
        6 => cpu.si = word,
        7 => cpu.di = word,
        8 => (cpu.cs, cpu.ip) = place_for(space, cpu.cs, cpu.ip, value),
        9 => cpu.flags = Flags::from_word(word),
        10 => cpu.cs = word,
        11 => cpu.ss = word,
        12 => cpu.ds = word,
        13 => cpu.es = word,
        32 => cpu.ip = word,
        33 => cpu.sp = word,
        _ => {}
    }
    cpu
}

/// The registers with one set to bytes, the lowest first; None if it cannot be set to them.
pub fn registers_with(space: &Space, cpu: Cpu, number: u32, bytes: &[u8]) -> Option<Cpu>
    ensures { result ≡ registers_with space.now.memory cpu number bytes.now }
{
    let value = value_of(number, bytes)?;
    if !is_reached(number, value) {
        return None;
    }
    Some(with_value(space, cpu, number, value))
}
