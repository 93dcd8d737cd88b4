//! The listings of a debugger: the texts of registers, instructions, bytes, the arena, and expanded and extended
//! memory.
//!
//! Each function `put_..` appends a text to `out`. Digits are hexadecimal, in upper case, and each line ends with a
//! line feed (0Ah). An `Err` is a failed allocation; what `out` then holds is not known.
//!
//! Module `inventory` has what they show as records, for hosts.
#![tactic(auto)]

mod arena;
mod bytes;
mod code;
mod digits;
mod extended;
pub mod inventory;
mod laws;
mod pages;
mod registers;

pub use arena::put_arena;
pub use bytes::put_bytes;
pub use code::put_code;
pub use digits::{byte_digits, put_address, word_digits};
pub use extended::put_extended;
pub use laws::listings_have_one_text;
pub use pages::put_pages;
pub use registers::put_registers;
