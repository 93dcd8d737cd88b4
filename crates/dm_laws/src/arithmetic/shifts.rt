//! Laws of shifts and rotates. Each is the contract of a function that does nothing.
ghost use Rattle.dm_laws.specs.arithmetic.Shifts.{RotatingComesBack, ShiftingDoublesOrHalves, ShiftsAddUp};

/// A shift or rotate by a + b bits does what one by a bits and then one by b bits do, the overflow flag apart.
pub fn shifts_add_up()
    ensures { ShiftsAddUp }
{}

/// SHL multiplies by a power of 2, SHR and SAR divide by one: SHR unsigned numbers, SAR signed ones, cut towards minus
/// infinity.
pub fn shifting_doubles_or_halves()
    ensures { ShiftingDoublesOrHalves }
{}

/// ROL and ROR undo each other, as RCL and RCR do with the carry flag. A whole turn changes nothing.
pub fn rotating_comes_back()
    ensures { RotatingComesBack }
{}
