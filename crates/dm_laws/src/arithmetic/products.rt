//! Laws of products and quotients: MUL, IMUL, DIV and IDIV. Each is the contract of a function that does nothing.
ghost use Rattle.dm_laws.specs.arithmetic.Products.{DivisionUndoesMultiplication, SignedDivisionDivides, SignedDivisionUndoesMultiplication, UnsignedDivisionDivides};

/// The quotient of DIV times the divisor, and the remainder, which is less than the divisor, make the dividend. There
/// is a quotient wherever one fits.
pub fn unsigned_division_divides()
    ensures { UnsignedDivisionDivides }
{}

/// The same of IDIV, in signed numbers. A remainder has the dividend's sign.
pub fn signed_division_divides()
    ensures { SignedDivisionDivides }
{}

/// MUL and then DIV by the same number give the other factor, with no remainder.
pub fn division_undoes_multiplication()
    ensures { DivisionUndoesMultiplication }
{}

/// IMUL and then IDIV by the same number give the other factor, with no remainder, unless that is -128 or -32,768.
pub fn signed_division_undoes_multiplication()
    ensures { SignedDivisionUndoesMultiplication }
{}
