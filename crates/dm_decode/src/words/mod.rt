//! From the words of a line of assembly, a mnemonic and its operands, to an instruction of the
//! instruction table.

mod laws;
mod reading;
mod written;

pub use laws::{own_words_are_read, stand_ins_have_the_length, words_are_one_instruction};
pub use reading::{Encoded, read_encoded, read_words};
pub use written::{Numeral, Size, Words, Written};
