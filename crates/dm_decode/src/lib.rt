//! Instructions in bytes and in text: which one some bytes begin with, and the text of each, with the names that it is
//! made of.
//!
//! Module `words` reads written words as an instruction, and `disassembly` makes the listing of a program's bytes.
#![tactic(auto)]

mod decoding;
pub mod disassembly;
mod laws;
mod line;
mod names;
mod operands;
mod prefixing;
mod reading;
mod templates;
mod texts;
pub mod words;

pub use decoding::{decode, no_spelling_begins_another};
pub use laws::{names_are_read, texts_are_parted};
pub use line::{Line, byte_number};
pub use names::{byte_register_name, mnemonic_name, segment_register_name, word_register_name};
pub use texts::{size_is_given, text};
