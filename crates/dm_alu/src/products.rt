//! Products and quotients: MUL, IMUL, DIV and IDIV.
//!
//! Source: Intel 8086 Family User's Manual, section 2.7, Arithmetic Instructions, Multiplication
//! and Division.
ghost use Rattle.std.specs.Prelude.{◌≡◌, ◌<◌, ◌*◌, ◌≤◌, ◌*ℤ◌, IfSome, unsigned_abs, int_div, int_rem};
ghost use Rattle.dm_alu.specs.Width.{size, half, signed};
ghost use Rattle.dm_alu.specs.Products.{product_value, twos_complement, upper_is_significant, flags_after_product, quotient_of, signed_double, signed_division};

use crate::flags::Flags;
use crate::width::Width;

/// Whether values stand for unsigned or for signed numbers.
#[derive(Clone, Copy, Debug, PartialEq, Eq)]
pub enum Sign {
    /// MUL and DIV.
    Unsigned,
    /// IMUL and IDIV: two's complement.
    Signed,
}

/// The results of a division, both values of the divisor's width.
#[derive(Clone, Copy, Debug, PartialEq, Eq)]
pub struct Division {
    /// The quotient, cut towards zero.
    pub quotient: u16,
    /// What is left, with the dividend's sign, or zero.
    pub remainder: u16,
}

/// The product of two values of the width, twice as wide, and the flags after it.
///
/// Carry and overflow say that the upper half is significant: for MUL that it is not zero, for IMUL
/// that it is not the lower half's sign in each bit. Parity, adjust, zero and sign, which are
/// undefined, stay, and so do trap, interrupt and direction.
#[inline(always)]
#[tactic(auto, unfolding(crate::specs::Products::flags_after_product))]
pub fn mul(sign: Sign, width: Width, a: u16, b: u16, flags: Flags) -> (u32, Flags)
    requires first { a < size width }
    requires second { b < size width }
    ensures value { result.0 ≡ product_value sign width a b }
    ensures in_range { result.0 < size width * size width }
    ensures flags { result.1 ≡ flags_after_product sign width a b flags }
{
    let product = product(sign, width, a, b);
    let significant = upper_is_significant(sign, width, product);
    let flags = Flags {
        carry: significant,
        overflow: significant,
        ..flags
    };
    (product, flags)
}

/// The product of two values of the width, unsigned (MUL) or signed (IMUL), twice as wide.
#[inline(always)]
#[tactic(auto, unfolding(crate::specs::Products::product_value))]
fn product(sign: Sign, width: Width, a: u16, b: u16) -> u32
    requires first { a < size width }
    requires second { b < size width }
    ensures value { result ≡ product_value sign width a b }
    ensures in_range { result < size width * size width }
{
    match sign {
        Sign::Unsigned => u32::from(a) * u32::from(b),
        Sign::Signed => double_complement(width, signed_product(width, a, b)),
    }
}

/// IMUL: the product of the signed numbers that two values stand for.
#[inline(always)]
fn signed_product(width: Width, a: u16, b: u16) -> i32
    requires first { a < size width }
    requires second { b < size width }
    ensures value { result ≡ signed width a *ℤ signed width b }
    ensures magnitude { unsigned_abs result ≤ half width * half width }
{
    width.signed(a) * width.signed(b)
}

/// The value of twice the width that stands for a signed number in two's complement, for the product of IMUL.
#[inline(always)]
fn double_complement(width: Width, number: i32) -> u32
    requires { unsigned_abs number ≤ half width * half width }
    ensures value { result ≡ twos_complement (size width * size width) number }
    ensures in_range { result < size width * size width }
{
    match width {
        Width::Byte => (if number < 0 {
            number + 0x1_0000
        } else {
            number
        }) as u32,
        Width::Word => number.cast_unsigned(),
    }
}

/// Whether the upper half of a product says more than the lower half: for MUL it is not zero, for IMUL not each of its
/// bits is the lower half's sign.
#[inline(always)]
fn upper_is_significant(sign: Sign, width: Width, product: u32) -> bool
    ensures { result ≡ upper_is_significant sign width product }
{
    let (upper, lower) = match width {
        Width::Byte => (product / 0x100, product % 0x100),
        Width::Word => (product / 0x1_0000, product % 0x1_0000),
    };
    match sign {
        Sign::Unsigned => upper != 0,
        Sign::Signed => upper
            != if width.is_negative(lower as u16) {
                width.size() - 1
            } else {
                0
            },
    }
}

/// A value of twice the width divided by one of the width, cut towards zero; the remainder is zero or
/// has the dividend's sign.
///
/// None exactly at a zero divisor, and where the quotient is out of range: for DIV past 255 or
/// 65,535, for IDIV outside -127 to 127 or -32,767 to 32,767. A division leaves each flag.
#[inline(always)]
#[tactic(auto, unfolding(crate::specs::Products::quotient_of))]
pub fn div(sign: Sign, width: Width, dividend: u32, divisor: u16) -> Option<Division>
    requires dividend { dividend < size width * size width }
    requires divisor { divisor < size width }
    ensures division { result ≡ quotient_of sign width dividend divisor }
    ensures quotient_in_range { IfSome result (λ d. d.quotient < size width) }
    ensures remainder_in_range { IfSome result (λ d. d.remainder < size width) }
{
    if divisor == 0 {
        return None;
    }
    match sign {
        Sign::Unsigned => unsigned_div(width, dividend, divisor),
        Sign::Signed => signed_div(width, dividend, divisor),
    }
}

/// DIV by a divisor that is not zero; None where the quotient is past 255 or 65,535.
#[inline(always)]
#[tactic(auto, unfolding(crate::specs::Products::quotient_of))]
fn unsigned_div(width: Width, dividend: u32, divisor: u16) -> Option<Division>
    requires divisor { 0 < divisor }
    requires in_range { divisor < size width }
    ensures division { result ≡ quotient_of Sign.Unsigned width dividend divisor }
    ensures quotient_in_range { IfSome result (λ d. d.quotient < size width) }
    ensures remainder_in_range { IfSome result (λ d. d.remainder < size width) }
{
    let divisor = u32::from(divisor);
    let quotient = dividend / divisor;
    if quotient >= width.size() {
        None
    } else {
        Some(Division {
            quotient: quotient as u16,
            remainder: (dividend % divisor) as u16,
        })
    }
}

/// IDIV by a divisor that is not zero; None where the quotient is outside -127 to 127 or -32,767 to 32,767.
#[inline(always)]
#[tactic(auto, unfolding(crate::specs::Products::quotient_of))]
fn signed_div(width: Width, dividend: u32, divisor: u16) -> Option<Division>
    requires dividend { dividend < size width * size width }
    requires divisor { 0 < divisor }
    requires in_range { divisor < size width }
    ensures division { result ≡ quotient_of Sign.Signed width dividend divisor }
    ensures quotient_in_range { IfSome result (λ d. d.quotient < size width) }
    ensures remainder_in_range { IfSome result (λ d. d.remainder < size width) }
{
    let dividend = signed_double(width, dividend);
    let divisor = i64::from(width.signed(divisor));
    let quotient = truncated_quotient(dividend, divisor);
    let remainder = truncated_remainder(dividend, divisor);
    signed_division(width, quotient, remainder)
}

/// A signed quotient and remainder as values of the width; None where the quotient is outside -127 to 127 or -32,767 to
/// 32,767.
#[inline(always)]
#[tactic(auto, unfolding(crate::specs::Products::signed_division))]
fn signed_division(width: Width, quotient: i64, remainder: i64) -> Option<Division>
    requires { unsigned_abs remainder < half width }
    ensures division { result ≡ signed_division width quotient remainder }
    ensures quotient_in_range { IfSome result (λ d. d.quotient < size width) }
    ensures remainder_in_range { IfSome result (λ d. d.remainder < size width) }
{
    if quotient.unsigned_abs() >= u64::from(width.half()) {
        None
    } else {
        Some(Division {
            quotient: single_complement(width, quotient as i32),
            remainder: single_complement(width, remainder as i32),
        })
    }
}

/// The quotient of IDIV, cut towards zero. (Thirty-two bits would not hold that of the least dividend by -1.)
#[inline(always)]
#[tactic(auto, using(crate::proofs::Quotients::quotient_smaller))]
fn truncated_quotient(dividend: i64, divisor: i64) -> i64
    requires dividend { unsigned_abs dividend ≤ 2147483648 }
    requires divisor { 0 < unsigned_abs divisor }
    ensures { result ≡ int_div dividend divisor }
{
    dividend / divisor
}

/// The remainder of IDIV, whose quotient is cut towards zero: it is zero or has the dividend's sign, and is nearer to
/// zero than the divisor.
#[inline(always)]
#[tactic(auto, using(crate::proofs::Quotients::remainder_smaller))]
fn truncated_remainder(dividend: i64, divisor: i64) -> i64
    requires dividend { unsigned_abs dividend ≤ 2147483648 }
    requires divisor { 0 < unsigned_abs divisor }
    ensures value { result ≡ int_rem dividend divisor }
    ensures below { unsigned_abs result < unsigned_abs divisor }
{
    dividend % divisor
}

/// The signed number that a value of twice the width, the dividend of IDIV, stands for in two's complement.
#[inline(always)]
#[tactic(auto, unfolding(crate::specs::Products::signed_double))]
fn signed_double(width: Width, value: u32) -> i64
    requires { value < size width * size width }
    ensures value { result ≡ signed_double width value }
    ensures magnitude { unsigned_abs result ≤ 2147483648 }
{
    match width {
        Width::Byte => i64::from(value.wrapping_add(0x8000) % 0x1_0000) - 0x8000,
        Width::Word => i64::from(value.wrapping_add(0x8000_0000)) - 0x8000_0000,
    }
}

/// A signed number, the quotient or remainder of IDIV, as a value of the width: below 0 with the width's size added.
#[inline(always)]
fn single_complement(width: Width, number: i32) -> u16
    requires { unsigned_abs number ≤ half width }
    ensures value { result ≡ twos_complement (size width) number }
    ensures in_range { result < size width }
{
    (if number < 0 {
        number + width.size() as i32
    } else {
        number
    }) as u16
}
