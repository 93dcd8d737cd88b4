//! From a line of assembly to a statement: a label, and an instruction or data. Whether the
//! instruction table has the instruction is not looked up here.
#![tactic(auto)]

mod laws;
mod lexing;
mod lists;
mod operands;
mod placing;
mod statement;
mod statements;
mod term;
mod token;
mod words;

pub use laws::{
    data_is_read, numbers_fit, outlines_stand, own_terms_are_written, pieces_are_read,
    texts_are_plain, texts_are_read,
};
pub use lexing::Tokens;
pub use placing::{amount_byte, expression_word, outline, written_of};
pub use statement::{Bytes, Instruction, Item, Items, Statement, Words};
pub use statements::line_statement;
pub use term::{Amount, Expression, Term};
pub use token::{Name, Token};
