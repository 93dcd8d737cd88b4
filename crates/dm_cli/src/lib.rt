//! The program `dm`, over the files, readers and writers that it is given.
#![tactic(auto)]

mod assembling;
mod checking;
mod commands;
mod debugging;
mod fault;
mod files;
mod loading;
mod messages;
mod names;
mod output;
mod serving;

pub use commands::{dm_main, refuse_words};
pub use dm_console::writers::Sink;
pub use dm_options::{command_line, options};
pub use files::{Storage, System};
pub use output::{WriteFault, run_program};
