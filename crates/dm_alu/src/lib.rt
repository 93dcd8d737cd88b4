//! Arithmetic and flags of the 8086: each operation gives a value and the nine flags after it.
//!
//! Values are whole numbers below 256 (a byte) or 65,536 (a word), and each definition is an
//! equation or an inequality between such numbers. A flag that the processor leaves undefined keeps
//! the value that it had.
//!
//! Source: Intel 8086 Family User's Manual, section 2.7, Arithmetic Instructions and Bit
//! Manipulation Instructions.
#![tactic(auto)]

mod adjustments;
mod bitwise;
mod flags;
mod products;
mod shifts;
mod sums;
mod width;

pub use adjustments::{Adjustment, adjust};
pub use bitwise::{LogicOperation, logic};
pub use flags::Flags;
pub use products::{Division, Sign, div, mul};
pub use shifts::{ShiftOperation, Shifted, overflow_after_shift, shift, shifted_by};
pub use sums::{add, sub};
pub use width::Width;
