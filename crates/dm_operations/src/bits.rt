//! A value and the carry moved by bits, as ROL, ROR, RCL, RCR, SHL, SHR and SAR move them. What sets CF or OF is the
//! top bit of a number.
ghost use Rattle.std.specs.Prelude.{◌≡◌, ◌<◌, ◌≤◌, ◌+◌, ◌-◌, ◌*◌, ◌/◌, ◌%◌, ◌^◌, ◌==◌, nat_le, nat_lt};
ghost use Rattle.std.specs.Int.{from_bool};
ghost use Rattle.dm_alu.specs.declared.shifts.ShiftOperation.{ShiftOperation};
ghost use Rattle.dm_alu.specs.Shifts.{moves, overflow_after_shift, differ, second_bit, to_left, to_right};
ghost use Rattle.dm_alu.specs.Width.{size, is_negative};
ghost use Rattle.dm_alu.specs.inner.Rotations.{bits_of, rotated, with_carry_above, with_sign_above};

use dm_alu::{ShiftOperation, Shifted, Width, shifted_by};

/// A number whose top bit is a flag, from which CF and OF are set.
#[inline(always)]
pub(crate) fn top_bit(flag: bool) -> u32
    ensures { nat_le 2147483648 result ≡ flag }
{
    (flag as u32).wrapping_mul(0x8000_0000)
}

/// A number whose top bit is the top bit of a value of the width.
#[inline(always)]
fn with_top(width: Width, value: u16) -> u32
    requires { value < size width }
    ensures { nat_le 2147483648 result ≡ is_negative width value }
{
    match width {
        Width::Byte => (value as u32).wrapping_mul(0x100_0000),
        Width::Word => (value as u32).wrapping_mul(0x1_0000),
    }
}

/// A number whose top bit says whether the two top bits of a value of the width differ.
#[inline(always)]
#[tactic(auto, using(crate::proofs::Turns::word_turns, crate::proofs::Turns::byte_turns))]
fn with_turn(width: Width, value: u16) -> u32
    requires { value < size width }
    ensures { nat_le 2147483648 result ≡ differ (is_negative width value) (second_bit width value) }
{
    match width {
        Width::Byte => (value as u32 + 0x40).wrapping_mul(0x100_0000),
        Width::Word => (value as u32 + 0x4000).wrapping_mul(0x1_0000),
    }
}

/// A value moved by one bit to the left, with `bit` below; its top bit is the carry.
#[inline(always)]
fn to_left(width: Width, value: u16, bit: bool) -> Shifted
    requires { value < size width }
    ensures moved { result ≡ to_left width value bit }
    ensures in_range { result.value < size width }
{
    let moved = match width {
        Width::Byte => value * 2 % 0x100,
        Width::Word => (value as u32 * 2 % 0x1_0000) as u16,
    };
    Shifted {
        value: moved + bit as u16,
        carry: width.is_negative(value),
    }
}

/// A value moved by one bit to the right, with `bit` on top, its lowest bit as the carry, and a number whose top bit is
/// the carry. `number` has the bits of the value, and `bit` above them. (It is turned as a whole, so that the host
/// reads and writes a word of memory at once.)
#[inline(always)]
#[tactic(auto, using(crate::proofs::Rights::turned_value, crate::proofs::Rights::turned_carry))]
fn turned_right(width: Width, value: u16, bit: bool, number: u32) -> (Shifted, u32)
    requires value { value < size width }
    requires number { number % (2 * size width) ≡ value + from_bool bit * size width }
    ensures moved { result.0 ≡ to_right width value bit }
    ensures in_range { result.0.value < size width }
    ensures carry { nat_le 2147483648 result.1 ≡ result.0.carry }
{
    let _bit = bit;
    let turned = number / 2 + number.wrapping_mul(0x8000_0000);
    let moved = Shifted {
        value: (turned % width.size()) as u16,
        carry: value % 2 == 1,
    };
    (moved, turned)
}

/// A value with its carry above it.
#[inline(always)]
fn with_carry(width: Width, start: Shifted) -> u32
    requires { start.value < size width }
    ensures { result ≡ with_carry_above width start }
{
    let above = if start.carry { width.size() } else { 0 };
    start.value as u32 + above
}

/// A value extended by its sign to 32 bits.
#[inline(always)]
fn with_sign(width: Width, value: u16) -> u32
    requires { value < size width }
    ensures { result ≡ with_sign_above width value }
{
    match width {
        Width::Byte => (value.wrapping_add(0x80) as u32 % 0x100).wrapping_sub(0x80),
        Width::Word => (value.wrapping_add(0x8000) as u32).wrapping_sub(0x8000),
    }
}

/// A value and its carry after a single move, and a number whose top bit is that carry.
#[inline(always)]
#[tactic(auto, unfolding(dm_alu::specs::Shifts::moves))]
pub(crate) fn moved_once(operation: ShiftOperation, width: Width, start: Shifted) -> (Shifted, u32)
    requires { start.value < size width }
    ensures moved { result.0 ≡ moves operation width 1 start }
    ensures in_range { result.0.value < size width }
    ensures carry { nat_le 2147483648 result.1 ≡ result.0.carry }
{
    let value = start.value;
    let number = value as u32;
    match operation {
        ShiftOperation::RotateLeft => {
            let moved = shifted_by(operation, width, start, 1);
            (moved, with_top(width, value))
        }
        ShiftOperation::RotateThroughCarryLeft => {
            let moved = to_left(width, value, start.carry);
            (moved, with_top(width, value))
        }
        ShiftOperation::Left => (to_left(width, value, false), with_top(width, value)),
        ShiftOperation::RotateRight => {
            let copies = number * (width.size() + 1);
            turned_right(width, value, value % 2 == 1, copies)
        }
        ShiftOperation::RotateThroughCarryRight => {
            turned_right(width, value, start.carry, with_carry(width, start))
        }
        ShiftOperation::LogicalRight => turned_right(width, value, false, number),
        ShiftOperation::ArithmeticRight => {
            let negative = width.is_negative(value);
            turned_right(width, value, negative, with_sign(width, value))
        }
    }
}

/// A value that was moved, and a number whose top bit is its carry.
#[derive(Clone, Copy)]
pub(crate) struct Moved {
    pub(crate) value: u16,
    pub(crate) carry: u32,
}

/// The counts modulo 9, by which RCL and RCR turn a byte and the carry.
static MODULO_NINE: [u8; 256] = [
    0, 1, 2, 3, 4, 5, 6, 7, 8, 0, 1, 2, 3, 4, 5, 6, 7, 8, 0, 1, 2, 3, 4, 5, 6, 7, 8, 0, 1, 2, 3, 4,
    5, 6, 7, 8, 0, 1, 2, 3, 4, 5, 6, 7, 8, 0, 1, 2, 3, 4, 5, 6, 7, 8, 0, 1, 2, 3, 4, 5, 6, 7, 8, 0,
    1, 2, 3, 4, 5, 6, 7, 8, 0, 1, 2, 3, 4, 5, 6, 7, 8, 0, 1, 2, 3, 4, 5, 6, 7, 8, 0, 1, 2, 3, 4, 5,
    6, 7, 8, 0, 1, 2, 3, 4, 5, 6, 7, 8, 0, 1, 2, 3, 4, 5, 6, 7, 8, 0, 1, 2, 3, 4, 5, 6, 7, 8, 0, 1,
    2, 3, 4, 5, 6, 7, 8, 0, 1, 2, 3, 4, 5, 6, 7, 8, 0, 1, 2, 3, 4, 5, 6, 7, 8, 0, 1, 2, 3, 4, 5, 6,
    7, 8, 0, 1, 2, 3, 4, 5, 6, 7, 8, 0, 1, 2, 3, 4, 5, 6, 7, 8, 0, 1, 2, 3, 4, 5, 6, 7, 8, 0, 1, 2,
    3, 4, 5, 6, 7, 8, 0, 1, 2, 3, 4, 5, 6, 7, 8, 0, 1, 2, 3, 4, 5, 6, 7, 8, 0, 1, 2, 3, 4, 5, 6, 7,
    8, 0, 1, 2, 3, 4, 5, 6, 7, 8, 0, 1, 2, 3, 4, 5, 6, 7, 8, 0, 1, 2, 3, 4, 5, 6, 7, 8, 0, 1, 2, 3,
];

/// The counts modulo 17, by which RCL and RCR turn a word and the carry.
static MODULO_SEVENTEEN: [u8; 256] = [
    0, 1, 2, 3, 4, 5, 6, 7, 8, 9, 10, 11, 12, 13, 14, 15, 16, 0, 1, 2, 3, 4, 5, 6, 7, 8, 9, 10, 11,
    12, 13, 14, 15, 16, 0, 1, 2, 3, 4, 5, 6, 7, 8, 9, 10, 11, 12, 13, 14, 15, 16, 0, 1, 2, 3, 4, 5,
    6, 7, 8, 9, 10, 11, 12, 13, 14, 15, 16, 0, 1, 2, 3, 4, 5, 6, 7, 8, 9, 10, 11, 12, 13, 14, 15,
    16, 0, 1, 2, 3, 4, 5, 6, 7, 8, 9, 10, 11, 12, 13, 14, 15, 16, 0, 1, 2, 3, 4, 5, 6, 7, 8, 9, 10,
    11, 12, 13, 14, 15, 16, 0, 1, 2, 3, 4, 5, 6, 7, 8, 9, 10, 11, 12, 13, 14, 15, 16, 0, 1, 2, 3,
    4, 5, 6, 7, 8, 9, 10, 11, 12, 13, 14, 15, 16, 0, 1, 2, 3, 4, 5, 6, 7, 8, 9, 10, 11, 12, 13, 14,
    15, 16, 0, 1, 2, 3, 4, 5, 6, 7, 8, 9, 10, 11, 12, 13, 14, 15, 16, 0, 1, 2, 3, 4, 5, 6, 7, 8, 9,
    10, 11, 12, 13, 14, 15, 16, 0, 1, 2, 3, 4, 5, 6, 7, 8, 9, 10, 11, 12, 13, 14, 15, 16, 0, 1, 2,
    3, 4, 5, 6, 7, 8, 9, 10, 11, 12, 13, 14, 15, 16, 0, 1, 2, 3, 4, 5, 6, 7, 8, 9, 10, 11, 12, 13,
    14, 15, 16, 0,
];

/// A count modulo 9.
#[inline(always)]
#[tactic(auto)]
fn modulo_nine(count: u8) -> u8
    ensures { result ≡ count % 9 }
{
    MODULO_NINE[count as usize]
}

/// A count modulo 17.
#[inline(always)]
#[tactic(auto)]
fn modulo_seventeen(count: u8) -> u8
    ensures { result ≡ count % 17 }
{
    MODULO_SEVENTEEN[count as usize]
}

/// A value with its carry above it, turned to the left by a count of bits.
#[inline(always)]
fn turned_by(width: Width, number: u32, count: u8) -> u64
    requires { number < 2 * size width }
    ensures { result ≡ rotated (2 * size width) number (count % (bits_of width + 1)) }
{
    match width {
        Width::Byte => {
            let wide = number << modulo_nine(count);
            (wide % 0x200 + wide / 0x200) as u64
        }
        Width::Word => {
            let wide = (number as u64) << modulo_seventeen(count);
            wide % 0x2_0000 + wide / 0x2_0000
        }
    }
}

/// Two copies of a value with its carry above it, side by side, moved to the right by a count of bits: the upper one
/// brings in what goes out of the lower one.
#[inline(always)]
fn turned_back_by(width: Width, number: u32, count: u8) -> u64
    requires { number < 2 * size width }
    ensures { result ≡ number * (2 * size width + 1) / 2 ^ (count % (bits_of width + 1)) }
{
    match width {
        Width::Byte => (number * 0x201 >> modulo_nine(count)) as u64,
        Width::Word => number as u64 * 0x2_0001 >> modulo_seventeen(count),
    }
}

/// A value with its carry above it, as the low bits of a number. (The carry's number has the value below it.)
#[inline(always)]
#[tactic(auto, using(crate::proofs::Rights::byte_above, crate::proofs::Rights::word_above))]
fn out_of(width: Width, turned: u64) -> Moved
    ensures value { result.value ≡ turned % size width }
    ensures carry { nat_le 2147483648 result.carry ≡ (turned / size width % 2 == 1) }
    ensures in_range { result.value < size width }
{
    match width {
        Width::Byte => Moved {
            value: (turned % 0x100) as u16,
            carry: (turned % 0x200) as u32 * 0x80_0000,
        },
        Width::Word => Moved {
            value: (turned % 0x1_0000) as u16,
            carry: (turned % 0x2_0000) as u32 * 0x8000,
        },
    }
}

/// RCL of a value by some bits.
#[inline(always)]
fn turned_left_often(width: Width, start: Shifted, count: u8) -> Moved
    requires { start.value < size width }
    ensures value { result.value ≡ (moves ShiftOperation.RotateThroughCarryLeft width count start).value }
    ensures carry { nat_le 2147483648 result.carry ≡ (moves ShiftOperation.RotateThroughCarryLeft width count
        start).carry }
    ensures in_range { result.value < size width }
{
    out_of(width, turned_by(width, with_carry(width, start), count))
}

/// RCR of a value by some bits.
#[inline(always)]
fn turned_right_often(width: Width, start: Shifted, count: u8) -> Moved
    requires { start.value < size width }
    ensures value { result.value ≡ (moves ShiftOperation.RotateThroughCarryRight width count start).value }
    ensures carry { nat_le 2147483648 result.carry ≡ (moves ShiftOperation.RotateThroughCarryRight width count
        start).carry }
    ensures in_range { result.value < size width }
{
    out_of(
        width,
        turned_back_by(width, with_carry(width, start), count),
    )
}

/// Whether a count of moves is more than a value has bits.
#[inline(always)]
fn is_beyond(width: Width, count: u8) -> bool
    ensures { result ≡ nat_lt (bits_of width) count }
{
    match width {
        Width::Byte => count > 8,
        Width::Word => count > 16,
    }
}

/// A value and its carry after more moves than it has bits: of a shift nothing is left but the sign, by SAR.
#[inline(always)]
fn moved_beyond(operation: ShiftOperation, width: Width, start: Shifted, count: u8) -> Moved
    requires value { start.value < size width }
    requires most { bits_of width < count }
    ensures value { result.value ≡ (moves operation width count start).value }
    ensures carry { nat_le 2147483648 result.carry ≡ (moves operation width count start).carry }
    ensures in_range { result.value < size width }
{
    match operation {
        ShiftOperation::Left | ShiftOperation::LogicalRight => Moved { value: 0, carry: 0 },
        ShiftOperation::ArithmeticRight => {
            // All bits are the sign.
            let bits = 0u32.wrapping_sub(width.is_negative(start.value) as u32);
            Moved {
                value: (bits % width.size()) as u16,
                carry: bits,
            }
        }
        _ => with_carry_out(shifted_by(operation, width, start, count)),
    }
}

/// A number moved to the right by some bits, at least one and at most as many as a value has; its low bits are the
/// value's, and the last bit that goes out is the carry. (That of a byte goes out into the lower half of a number of 64
/// bits, as the top bit.)
#[inline(always)]
#[tactic(auto, using(crate::proofs::Rights::halved_value, crate::proofs::Rights::within_size, crate::proofs::Rights::lowest_above))]
fn moved_right_by(width: Width, number: u32, count: u8) -> Moved
    requires some { 0 < count }
    requires most { count ≤ bits_of width }
    ensures value { result.value ≡ number / 2 ^ count % size width }
    ensures carry { nat_le 2147483648 result.carry ≡ (number / 2 ^ (count - 1) % 2 == 1) }
    ensures in_range { result.value < size width }
{
    match width {
        Width::Byte => {
            let moved = number as u64 * 0x1_0000_0000 >> count;
            Moved {
                value: (moved / 0x1_0000_0000 % 0x100) as u16,
                carry: (moved % 0x1_0000_0000) as u32,
            }
        }
        Width::Word => Moved {
            value: ((number >> count) % 0x1_0000) as u16,
            carry: (number >> (count - 1)).wrapping_mul(0x8000_0000),
        },
    }
}

/// A value and its carry after some single moves by SHR or SAR, or what another operation makes of it.
#[inline(always)]
fn moved_right(operation: ShiftOperation, width: Width, start: Shifted, count: u8) -> Moved
    requires value { start.value < size width }
    requires some { 0 < count }
    requires most { count ≤ bits_of width }
    ensures value { result.value ≡ (moves operation width count start).value }
    ensures carry { nat_le 2147483648 result.carry ≡ (moves operation width count start).carry }
    ensures in_range { result.value < size width }
{
    match operation {
        ShiftOperation::LogicalRight => moved_right_by(width, start.value as u32, count),
        ShiftOperation::ArithmeticRight => {
            moved_right_by(width, with_sign(width, start.value), count)
        }
        _ => with_carry_out(shifted_by(operation, width, start, count)),
    }
}

/// A value and its carry as they are.
#[inline(always)]
fn with_carry_out(shifted: Shifted) -> Moved
    ensures value { result.value ≡ shifted.value }
    ensures carry { nat_le 2147483648 result.carry ≡ shifted.carry }
{
    Moved {
        value: shifted.value,
        carry: top_bit(shifted.carry),
    }
}

/// SHL of a value by some bits, at least one. By those the carry before them is lost.
#[inline(always)]
#[tactic(auto, using(crate::proofs::Rights::carry_above, crate::proofs::Rights::carry_fits))]
fn moved_left(width: Width, start: Shifted, count: u8) -> Moved
    requires value { start.value < size width }
    requires some { 0 < count }
    ensures value { result.value ≡ (moves ShiftOperation.Left width count start).value }
    ensures carry { nat_le 2147483648 result.carry ≡ (moves ShiftOperation.Left width count start).carry }
    ensures in_range { result.value < size width }
{
    let plain = Shifted {
        value: start.value,
        carry: false,
    };
    let moved = shifted_by(ShiftOperation::Left, width, plain, count);
    Moved {
        value: moved.value,
        carry: carry_above(width, moved),
    }
}

/// A number whose top bit is the carry, and has the value below it. (The host shifts them there together.)
#[inline(always)]
#[tactic(auto, using(crate::proofs::Rights::carry_above, crate::proofs::Rights::carry_fits))]
fn carry_above(width: Width, moved: Shifted) -> u32
    requires { moved.value < size width }
    ensures { nat_le 2147483648 result ≡ moved.carry }
{
    let top = moved.carry as u32 * 0x8000_0000;
    match width {
        Width::Byte => moved.value as u32 * 0x80_0000 + top,
        Width::Word => moved.value as u32 * 0x8000 + top,
    }
}

/// A value and its carry after some single moves, at least one.
#[inline(always)]
pub(crate) fn moved_often(
    operation: ShiftOperation,
    width: Width,
    start: Shifted,
    count: u8,
) -> Moved
    requires value { start.value < size width }
    requires some { 0 < count }
    ensures value { result.value ≡ (moves operation width count start).value }
    ensures carry { nat_le 2147483648 result.carry ≡ (moves operation width count start).carry }
    ensures in_range { result.value < size width }
{
    match operation {
        ShiftOperation::RotateLeft | ShiftOperation::RotateRight => {
            with_carry_out(shifted_by(operation, width, start, count))
        }
        ShiftOperation::RotateThroughCarryLeft => turned_left_often(width, start, count),
        ShiftOperation::RotateThroughCarryRight => turned_right_often(width, start, count),
        ShiftOperation::Left | ShiftOperation::LogicalRight | ShiftOperation::ArithmeticRight => {
            moved_by_shift(operation, width, start, count)
        }
    }
}

/// A value and its carry after some single moves by a shift, at least one, or what another operation makes of it.
#[inline(always)]
fn moved_by_shift(operation: ShiftOperation, width: Width, start: Shifted, count: u8) -> Moved
    requires value { start.value < size width }
    requires some { 0 < count }
    ensures value { result.value ≡ (moves operation width count start).value }
    ensures carry { nat_le 2147483648 result.carry ≡ (moves operation width count start).carry }
    ensures in_range { result.value < size width }
{
    if is_beyond(width, count) {
        return moved_beyond(operation, width, start, count);
    }
    match operation {
        ShiftOperation::Left => moved_left(width, start, count),
        _ => moved_right(operation, width, start, count),
    }
}

/// A number whose top bit is the overflow flag after a single move of `before` that gave `after`. To the left, the
/// carry and the new top bit are the two top bits of `before`.
#[inline(always)]
pub(crate) fn overflow_once(
    operation: ShiftOperation,
    width: Width,
    before: Shifted,
    after: Shifted,
) -> u32
    requires before { before.value < size width }
    requires after { after ≡ moves operation width 1 before }
    requires in_range { after.value < size width }
    ensures { nat_le 2147483648 result ≡ overflow_after_shift operation width before.value after }
{
    match operation {
        ShiftOperation::RotateLeft
        | ShiftOperation::RotateThroughCarryLeft
        | ShiftOperation::Left => with_turn(width, before.value),
        ShiftOperation::LogicalRight => with_top(width, before.value),
        ShiftOperation::ArithmeticRight => 0,
        ShiftOperation::RotateRight | ShiftOperation::RotateThroughCarryRight => {
            with_turn(width, after.value)
        }
    }
}
