//! The command line of the program `dm`: its commands and arguments, and what the words of a line ask for.
#![tactic(auto)]

mod arguments;
pub mod command_line;
pub mod parse;

pub use parse::{not_unicode, options};
