//! Laws of the definitions, a module for each subject: each is the contract of a function that does nothing.
#![tactic(auto)]

pub mod arena;
pub mod arithmetic;
pub mod footprints;
pub mod instructions;
pub mod processes;
pub mod steps;
pub mod supplies;
