//! The disassembler: the listing of a program's bytes, which an assembler can read.

mod laws;
mod listing;

pub use laws::bytes_have_one_listing;
pub use listing::disassemble;
