//! Laws of the adjustments for decimal digits: DAA, DAS, AAA, AAS, AAM and AAD. Each is the contract of a function that
//! does nothing.
ghost use Rattle.dm_laws.specs.arithmetic.Numbers.{NumbersAddAndSubtract};
ghost use Rattle.dm_laws.specs.arithmetic.Decimal.{PackedDigitsAdd, PackedDigitsSubtract, UnpackedDigitsAdd, UnpackedDigitsSubtract, UnpackedDigitsMultiply, UnpackedDigitsDivide};

/// ADD or ADC and then DAA add two packed digits in AL to two others, with a decimal carry in and out.
pub fn packed_digits_add()
    ensures { PackedDigitsAdd }
{}

/// SUB or SBB and then DAS subtract two packed digits from two others in AL, with a decimal borrow in and out.
pub fn packed_digits_subtract()
    ensures { PackedDigitsSubtract }
{}

/// ADD or ADC and then AAA add a digit in AL to another one, also in ASCII. The carry goes into CF and AH.
pub fn unpacked_digits_add()
    ensures { UnpackedDigitsAdd }
{}

/// SUB or SBB and then AAS subtract a digit from another one in AL, also in ASCII. The borrow goes into CF and comes
/// from AH.
pub fn unpacked_digits_subtract()
    ensures { UnpackedDigitsSubtract }
{}

/// MUL and then AAM leave the two digits of the product of two digits in AH and AL.
pub fn unpacked_digits_multiply()
    ensures { UnpackedDigitsMultiply }
{}

/// AAD makes AX the number that the digits in AH and AL spell; DIV by a digit then gives its quotient and remainder.
pub fn unpacked_digits_divide()
    ensures { UnpackedDigitsDivide }
{}

/// Packed decimal numbers of any length are added byte by byte, from the lowest on, by ADC and DAA, and subtracted by
/// SBB and DAS.
pub fn numbers_add_and_subtract()
    ensures { NumbersAddAndSubtract }
{}
