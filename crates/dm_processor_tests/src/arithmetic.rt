//! Worked rows, and checksums over whole tables of values, whose expected numbers come from other programs.
use crate::checks::same;
use dm_alu::{
    Adjustment, Division, Flags, LogicOperation, ShiftOperation, Sign, Width, add, adjust, div,
    logic, mul, shift, sub,
};

/// The stored word with all nine flags clear, and with all nine set.
const CLEAR: u16 = 0xF002;

const FULL: u16 = 0xFFD7;

/// Definitions: dm_alu Flags flags_word flags_of bit_is_one
#[test]
fn stored_and_loaded_words(rt: HostRuntime) {
    for (loaded, stored) in [(0, CLEAR), (0xFFFF, FULL), (0x0FD5, FULL), (0xF02A, CLEAR)] {
        same(&rt, "flags", Flags::from_word(loaded).to_word(), stored);
    }
}

/// Definitions: dm_alu Width size half is_negative signed
#[test]
fn widths_read_signed_values(rt: HostRuntime) {
    for (width, value, number) in [
        (Width::Byte, 0x7F, 127),
        (Width::Byte, 0x80, -128),
        (Width::Byte, 0xFF, -1),
        (Width::Word, 0x7FFF, 32767),
        (Width::Word, 0x8000, -32768),
    ] {
        same(&rt, "signed", width.signed(value), number);
        same(&rt, "negative", width.is_negative(value), number < 0);
    }
    same(
        &rt,
        "size, half",
        (Width::Byte.size(), Width::Byte.half()),
        (256, 128),
    );
    same(
        &rt,
        "size, half",
        (Width::Word.size(), Width::Word.half()),
        (65536, 32768),
    );
}

/// Definitions: dm_alu Width leaves_range; dm_alu Flags after_result even_parity
/// Definitions: dm_alu Sums sum_value flags_after_sum sum_overflows
#[test]
fn sum_past_the_largest_signed_value(rt: HostRuntime) {
    let clear = Flags::from_word(CLEAR);
    let (value, flags) = add(Width::Byte, 0x7F, 0x01, false, clear);
    same(
        &rt,
        "value, flags",
        (value, flags.to_word()),
        (0x80, 0xF892),
    );
    let (value, flags) = add(Width::Word, 0x7FFF, 0x0001, false, clear);
    same(
        &rt,
        "value, flags",
        (value, flags.to_word()),
        (0x8000, 0xF896),
    );
    let (value, flags) = add(Width::Word, 0xFFFF, 0x0000, true, clear);
    same(
        &rt,
        "value, flags",
        (value, flags.to_word()),
        (0x0000, 0xF057),
    );
}

/// Definitions: dm_alu Sums difference_value flags_after_difference difference_overflows
#[test]
fn negated_least_byte(rt: HostRuntime) {
    let (value, flags) = sub(Width::Byte, 0, 0x80, false, Flags::from_word(CLEAR));
    same(
        &rt,
        "value, flags",
        (value, flags.to_word()),
        (0x80, 0xF883),
    );
}

/// Definitions: dm_alu Bitwise logic_value flags_after_logic
#[test]
fn logic_keeps_adjust(rt: HostRuntime) {
    let full = Flags::from_word(FULL);
    for (operation, value, word) in [
        (LogicOperation::And, 0x00, 0xF756),
        (LogicOperation::Or, 0xFF, 0xF796),
        (LogicOperation::Xor, 0xFF, 0xF796),
    ] {
        let (joined, flags) = logic(operation, Width::Byte, 0x0F, 0xF0, full);
        same(
            &rt,
            "joined, flags",
            (joined, flags.to_word()),
            (value, word),
        );
    }
}

/// Definitions: dm_alu Shifts flags_after_shift flags_of_move
#[test]
fn shift_by_no_bits_changes_nothing(rt: HostRuntime) {
    let full = Flags::from_word(FULL);
    same(
        &rt,
        "shift",
        shift(ShiftOperation::Left, Width::Byte, 0x80, 0, full),
        (0x80, full),
    );
}

/// Definitions: dm_alu Shifts flags_after_shift flags_of_move
#[test]
fn rotate_through_carry_drops_the_top_bit(rt: HostRuntime) {
    let clear = Flags::from_word(CLEAR);
    let rotate = ShiftOperation::RotateThroughCarryLeft;
    let (value, flags) = shift(rotate, Width::Byte, 0x80, 1, clear);
    same(
        &rt,
        "value, flags",
        (value, flags.to_word()),
        (0x00, 0xF803),
    );
}

/// Definitions: dm_alu Shifts shift_value after_moves moves one_move to_left to_right
#[test]
fn shift_count_is_not_masked(rt: HostRuntime) {
    let clear = Flags::from_word(CLEAR);
    let (value, flags) = shift(
        ShiftOperation::ArithmeticRight,
        Width::Word,
        0x8001,
        255,
        clear,
    );
    same(
        &rt,
        "value, flags",
        (value, flags.to_word()),
        (0xFFFF, 0xF087),
    );
    let (value, flags) = shift(ShiftOperation::Left, Width::Byte, 0x01, 32, clear);
    same(
        &rt,
        "value, flags",
        (value, flags.to_word()),
        (0x00, 0xF046),
    );
}

/// Definitions: dm_alu Products product_value twos_complement flags_after_product upper_is_significant
#[test]
fn products_of_the_largest_byte(rt: HostRuntime) {
    let clear = Flags::from_word(CLEAR);
    let (value, flags) = mul(Sign::Unsigned, Width::Byte, 0xFF, 0xFF, clear);
    same(
        &rt,
        "value, flags",
        (value, flags.to_word()),
        (0xFE01, 0xF803),
    );
    let (value, flags) = mul(Sign::Signed, Width::Byte, 0xFF, 0xFF, clear);
    same(
        &rt,
        "value, flags",
        (value, flags.to_word()),
        (0x0001, 0xF002),
    );
    let (value, flags) = mul(Sign::Signed, Width::Word, 0x8000, 0x8000, clear);
    same(
        &rt,
        "value, flags",
        (value, flags.to_word()),
        (0x4000_0000, 0xF803),
    );
}

/// Definitions: dm_alu Products quotient_of signed_division signed_double
#[test]
fn quotients_at_the_ends_of_the_range(rt: HostRuntime) {
    use Sign::{Signed, Unsigned};
    use Width::{Byte, Word};
    for (sign, width, dividend, divisor, expected) in [
        (Signed, Byte, 0xFFF9, 0x02, Some((0xFD, 0xFF))),
        (Signed, Byte, 0xFF80, 0x01, None),
        (Signed, Byte, 0xFF81, 0x01, Some((0x81, 0x00))),
        (Signed, Byte, 0x0080, 0x01, None),
        (Signed, Byte, 0x0001, 0x00, None),
        (Unsigned, Byte, 0xFEFF, 0xFF, Some((0xFF, 0xFE))),
        (Unsigned, Byte, 0xFF00, 0xFF, None),
        (Unsigned, Byte, 0x0001, 0x00, None),
        (Signed, Word, 0xFFFF_8000, 0x0001, None),
        (Signed, Word, 0xFFFF_8001, 0x0001, Some((0x8001, 0x0000))),
        (Signed, Word, 0x8000_0000, 0xFFFF, None),
        (Unsigned, Word, 0xFFFE_FFFF, 0xFFFF, Some((0xFFFF, 0xFFFE))),
    ] {
        let expected = expected.map(|(quotient, remainder)| Division {
            quotient,
            remainder,
        });
        same(&rt, "div", div(sign, width, dividend, divisor), expected);
    }
}

/// Definitions: dm_alu Adjustments adjusted_value word_of_halves low_digit_off high_digit_off decimal_change
/// Definitions: dm_alu Adjustments flags_after_adjustment after_ascii after_decimal after_accumulator
#[test]
fn adjusted_accumulators(rt: HostRuntime) {
    for (adjustment, ax, word, expected, after) in [
        (Adjustment::AsciiAddition, 0x000F, 0xF002, 0x0105, 0xF013),
        (Adjustment::AsciiAddition, 0x00FF, 0xF002, 0x0105, 0xF013),
        (Adjustment::AsciiSubtraction, 0x0500, 0xF012, 0x040A, 0xF013),
        (Adjustment::DecimalAddition, 0x009A, 0xF002, 0x0000, 0xF057),
        (
            Adjustment::DecimalSubtraction,
            0x0005,
            0xF012,
            0x00FF,
            0xF096,
        ),
        (
            Adjustment::AsciiMultiplication,
            0x003F,
            0xF002,
            0x0603,
            0xF006,
        ),
        (Adjustment::AsciiDivision, 0x0603, 0xF002, 0x003F, 0xF006),
    ] {
        let (value, flags) = adjust(adjustment, ax, Flags::from_word(word));
        same(
            &rt,
            "value, flags",
            (value, flags.to_word()),
            (expected, after),
        );
    }
}

/// The checksum after one more result; its modulus is the largest prime below 2^32.
fn folded(checksum: u32, value: u16, word: u16) -> u32 {
    let item = u64::from(value) * 0x1_0000 + u64::from(word);
    ((u64::from(checksum) * 31 + item) % 0xFFFF_FFFB) as u32
}

/// The checksum of `a + b + carry` over all pairs of bytes, the second inside the first.
fn checksum_of_sums(carry: bool) -> u32 {
    let clear = Flags::from_word(CLEAR);
    let mut checksum = 0;
    for a in 0..256u16 {
        for b in 0..256u16 {
            let (value, flags) = add(Width::Byte, a, b, carry, clear);
            checksum = folded(checksum, value, flags.to_word());
        }
    }
    checksum
}

/// The checksum of `a - b - borrow` over all pairs of bytes.
fn checksum_of_differences(borrow: bool) -> u32 {
    let clear = Flags::from_word(CLEAR);
    let mut checksum = 0;
    for a in 0..256u16 {
        for b in 0..256u16 {
            let (value, flags) = sub(Width::Byte, a, b, borrow, clear);
            checksum = folded(checksum, value, flags.to_word());
        }
    }
    checksum
}

// The expected numbers of the next four tests were made by a C program that executed the processor's own instructions
// (ADD, ADC, SUB, SBB, the shifts and rotates by CL, MUL, IMUL, DIV, IDIV) on the same values, on an x86-64 processor,
// and read its flags after each; undefined flags were taken as clear, and IDIV's -128 as out of range.

/// Definitions: dm_alu Width leaves_range; dm_alu Flags after_result even_parity
/// Definitions: dm_alu Sums sum_value flags_after_sum sum_overflows difference_value flags_after_difference
/// Definitions: dm_alu Sums difference_overflows
#[test]
fn sums_of_all_bytes(rt: HostRuntime) {
    same(
        &rt,
        "checksum of sums",
        checksum_of_sums(false),
        0x60B3_CD5E,
    );
    same(&rt, "checksum of sums", checksum_of_sums(true), 0xA30C_2C18);
    same(
        &rt,
        "checksum of differences",
        checksum_of_differences(false),
        0x9ABE_9FED,
    );
    same(
        &rt,
        "checksum of differences",
        checksum_of_differences(true),
        0xB92E_1EFE,
    );
}

/// The checksum of the products of all pairs of bytes.
fn checksum_of_products(sign: Sign) -> u32 {
    let clear = Flags::from_word(CLEAR);
    let mut checksum = 0;
    for a in 0..256u16 {
        for b in 0..256u16 {
            let (value, flags) = mul(sign, Width::Byte, a, b, clear);
            checksum = folded(checksum, (value % 0x1_0000) as u16, flags.to_word());
        }
    }
    checksum
}

/// Definitions: dm_alu Products product_value twos_complement flags_after_product upper_is_significant
#[test]
fn products_of_all_bytes(rt: HostRuntime) {
    same(
        &rt,
        "checksum of products",
        checksum_of_products(Sign::Unsigned),
        0xE86E_0A08,
    );
    same(
        &rt,
        "checksum of products",
        checksum_of_products(Sign::Signed),
        0xC54B_3FA6,
    );
}

/// The checksum of 256 words spread over all words, divided by each byte.
fn checksum_of_quotients(sign: Sign) -> u32 {
    let mut checksum = 0;
    for divisor in 0..256u16 {
        for i in 0..256u32 {
            let dividend = i * 40503 % 0x1_0000;
            checksum = match div(sign, Width::Byte, dividend, divisor) {
                Some(division) => folded(checksum, division.quotient, division.remainder),
                None => folded(checksum, 0, 0xFFFF),
            };
        }
    }
    checksum
}

/// Definitions: dm_alu Products quotient_of signed_division signed_double
#[test]
fn quotients_by_all_bytes(rt: HostRuntime) {
    same(
        &rt,
        "checksum of quotients",
        checksum_of_quotients(Sign::Unsigned),
        0x3636_682A,
    );
    same(
        &rt,
        "checksum of quotients",
        checksum_of_quotients(Sign::Signed),
        0xCE92_93DC,
    );
}

/// The checksum with all bytes shifted by `count`.
fn folded_shifts(checksum: u32, operation: ShiftOperation, carry: bool, count: u8) -> u32 {
    let flags = Flags {
        carry,
        ..Flags::from_word(CLEAR)
    };
    let mut checksum = checksum;
    for value in 0..256u16 {
        let (value, flags) = shift(operation, Width::Byte, value, count, flags);
        checksum = folded(checksum, value, flags.to_word());
    }
    checksum
}

/// Definitions: dm_alu Shifts shift_value after_moves moves one_move to_left to_right flags_after_shift flags_of_move
/// Definitions: dm_alu Shifts overflow_after_shift second_bit differ
#[test]
fn shifts_of_all_bytes_by_0_to_31(rt: HostRuntime) {
    let mut checksum = 0;
    for operation in [
        ShiftOperation::RotateLeft,
        ShiftOperation::RotateRight,
        ShiftOperation::RotateThroughCarryLeft,
        ShiftOperation::RotateThroughCarryRight,
        ShiftOperation::Left,
        ShiftOperation::LogicalRight,
        ShiftOperation::ArithmeticRight,
    ] {
        for carry in [false, true] {
            for count in 0..32u8 {
                checksum = folded_shifts(checksum, operation, carry, count);
            }
        }
    }
    same(&rt, "checksum", checksum, 0xC640_D7D6);
}

/// The checksum of an adjustment at each AL, adjust and carry flag, and three values of AH.
fn checksum_of_adjustments(adjustment: Adjustment) -> u32 {
    let clear = Flags::from_word(CLEAR);
    let mut checksum = 0;
    for high in [0x00, 0x3F, 0xFF] {
        for (carry, adjust_flag) in [(false, false), (false, true), (true, false), (true, true)] {
            let flags = Flags {
                carry,
                adjust: adjust_flag,
                ..clear
            };
            for low in 0..256u16 {
                let (value, after) = adjust(adjustment, high * 0x100 + low, flags);
                checksum = folded(checksum, value, after.to_word());
            }
        }
    }
    checksum
}

// The expected numbers were made by a Python script, digit by digit from the manual's wording. A present-day x86
// processor in 32-bit mode gave the same for DAA, AAM and AAD, and for the others where it agrees with the 8086:
// without AL over F9h in AAA, under 6 in AAS, and under 6 with adjust set and carry clear in DAS.
/// Definitions: dm_alu Adjustments adjusted_value word_of_halves low_digit_off high_digit_off decimal_change
/// Definitions: dm_alu Adjustments flags_after_adjustment after_ascii after_decimal after_accumulator
#[test]
fn adjustments_of_all_accumulators(rt: HostRuntime) {
    for (adjustment, checksum) in [
        (Adjustment::AsciiAddition, 0xC63B_1593),
        (Adjustment::AsciiSubtraction, 0x65BD_0EDD),
        (Adjustment::DecimalAddition, 0xF76C_8E15),
        (Adjustment::DecimalSubtraction, 0x3D2E_FA14),
        (Adjustment::AsciiMultiplication, 0x1978_A899),
        (Adjustment::AsciiDivision, 0x72E4_4AED),
    ] {
        same(
            &rt,
            "checksum of adjustments",
            checksum_of_adjustments(adjustment),
            checksum,
        );
    }
}
