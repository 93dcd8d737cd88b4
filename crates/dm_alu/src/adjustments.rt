//! The adjustments of the accumulator: AAA, AAS, DAA, DAS, AAM and AAD.
//!
//! Source: Intel 8086 Family User's Manual, section 2.7, Arithmetic Instructions, the ASCII and
//! decimal adjustments.
ghost use Rattle.std.specs.Prelude.{◌≡◌, ◌≤◌};
ghost use Rattle.dm_alu.specs.Adjustments.{low_digit_off, high_digit_off, decimal_change, word_of_halves, adjusted_value, after_accumulator, flags_after_adjustment};

use crate::flags::Flags;
use crate::width::Width;

/// An adjustment of the accumulator.
#[derive(Clone, Copy, Debug, PartialEq, Eq)]
pub enum Adjustment {
    /// AAA: one unpacked digit after a sum.
    AsciiAddition,
    /// AAS: one unpacked digit after a difference.
    AsciiSubtraction,
    /// DAA: two packed digits after a sum.
    DecimalAddition,
    /// DAS: two packed digits after a difference.
    DecimalSubtraction,
    /// AAM: the two unpacked digits of a product in AL.
    AsciiMultiplication,
    /// AAD: the number that two unpacked digits stand for, before a division.
    AsciiDivision,
}

/// The accumulator AX after an adjustment, and the flags after it.
///
/// AAA and AAS set adjust and carry if the low digit is adjusted, else clear them. DAA and DAS set adjust if the low
/// digit is adjusted and carry if the high digit is, else clear them, and set parity, zero and sign by the new AL, as
/// AAM and AAD do. The undefined status flags and trap, interrupt and direction stay. AAA and AAS change AH by 1 if the
/// low digit is adjusted, and by no carry out of AL. In DAA and DAS the old AL and the old carry say whether the high
/// digit is adjusted.
#[inline(always)]
#[tactic(auto, unfolding(crate::specs::Adjustments::flags_after_adjustment))]
pub fn adjust(adjustment: Adjustment, ax: u16, flags: Flags) -> (u16, Flags)
    ensures value { result.0 ≡ adjusted_value adjustment ax flags }
    ensures flags { result.1 ≡ flags_after_adjustment adjustment ax flags }
{
    let low = ax % 0x100;
    let low_off = low_digit_off(low, flags);
    let high_off = high_digit_off(low, flags);
    let value = adjusted_value(adjustment, ax, flags);
    let by_result = after_accumulator(value, flags);
    let flags = match adjustment {
        Adjustment::AsciiAddition | Adjustment::AsciiSubtraction => Flags {
            adjust: low_off,
            carry: low_off,
            ..flags
        },
        Adjustment::DecimalAddition | Adjustment::DecimalSubtraction => Flags {
            adjust: low_off,
            carry: high_off,
            ..by_result
        },
        Adjustment::AsciiMultiplication | Adjustment::AsciiDivision => by_result,
    };
    (value, flags)
}

/// AX after an adjustment, by AX and the flags before it. AL and AH are each taken modulo 256; a carry or borrow out of
/// AL is lost.
#[inline(always)]
#[tactic(auto, unfolding(crate::specs::Adjustments::adjusted_value))]
fn adjusted_value(adjustment: Adjustment, ax: u16, flags: Flags) -> u16
    ensures { result ≡ adjusted_value adjustment ax flags }
{
    let (high, low) = (ax / 0x100, ax % 0x100);
    let low_off = low_digit_off(low, flags);
    let change = decimal_change(low, flags);
    match adjustment {
        Adjustment::AsciiAddition if low_off => word_of_halves(high + 1, (low + 6) % 0x10),
        Adjustment::AsciiSubtraction if low_off => word_of_halves(
            high + 0x100 - 1,
            (low + 0x100 - 6) % 0x10,
        ),
        Adjustment::AsciiAddition | Adjustment::AsciiSubtraction => {
            word_of_halves(high, low % 0x10)
        }
        Adjustment::DecimalAddition => word_of_halves(high, low + change),
        Adjustment::DecimalSubtraction => word_of_halves(high, low + 0x100 - change),
        Adjustment::AsciiMultiplication => word_of_halves(low / 10, low % 10),
        Adjustment::AsciiDivision => word_of_halves(0, high * 10 + low),
    }
}

/// AX of its halves, each modulo 256.
#[inline(always)]
fn word_of_halves(high: u16, low: u16) -> u16
    ensures { result ≡ word_of_halves high low }
{
    high % 0x100 * 0x100 + low % 0x100
}

/// Whether AAA, AAS, DAA and DAS adjust the low digit of AL (`low`): it is over 9, or the adjust flag is set.
#[inline(always)]
fn low_digit_off(low: u16, flags: Flags) -> bool
    ensures { result ≡ low_digit_off low flags }
{
    low % 0x10 > 9 || flags.adjust
}

/// Whether DAA and DAS adjust the high digit of AL (`low`): AL is over 99h, or the carry flag is set.
#[inline(always)]
fn high_digit_off(low: u16, flags: Flags) -> bool
    ensures { result ≡ high_digit_off low flags }
{
    low > 0x99 || flags.carry
}

/// What DAA adds to AL (`low`) and DAS takes from it: 0, 6, 60h or 66h.
#[inline(always)]
fn decimal_change(low: u16, flags: Flags) -> u16
    ensures change { result ≡ decimal_change low flags }
    ensures at_most { result ≤ 0x66 }
{
    let units = if low_digit_off(low, flags) { 6 } else { 0 };
    let tens = if high_digit_off(low, flags) { 0x60 } else { 0 };
    units + tens
}

/// The flags with parity, zero and sign set by AL of `ax` (DAA, DAS, AAM, AAD); the others stay.
#[inline(always)]
fn after_accumulator(ax: u16, flags: Flags) -> Flags
    ensures { result ≡ after_accumulator ax flags }
{
    flags.after_result(Width::Byte, ax % 0x100)
}
