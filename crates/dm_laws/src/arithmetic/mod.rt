//! Laws of arithmetic: what the definitions of `dm_alu` mean in the numbers that their users think of. They bind the
//! definitions by which the operations themselves are proved: no code runs here.

mod decimal;
mod products;
mod shifts;

pub use decimal::{
    numbers_add_and_subtract, packed_digits_add, packed_digits_subtract, unpacked_digits_add,
    unpacked_digits_divide, unpacked_digits_multiply, unpacked_digits_subtract,
};
pub use products::{
    division_undoes_multiplication, signed_division_divides, signed_division_undoes_multiplication,
    unsigned_division_divides,
};
pub use shifts::{rotating_comes_back, shifting_doubles_or_halves, shifts_add_up};
