//! Worked rows of the processor: arithmetic, instructions to bytes and back, and the effects of instructions, each
//! executed by `dm_exec` and by its form.
//!
//! They are apart from the crates that they test, because a crate with tests is proved twice.
#![tactic(auto)]

#[cfg(test)]
mod arithmetic;
#[cfg(test)]
mod checks;
#[cfg(test)]
mod decoding;
#[cfg(test)]
mod edges;
#[cfg(test)]
mod effects;
#[cfg(test)]
mod encoding;
#[cfg(test)]
mod forms;
#[cfg(test)]
mod kinds;
#[cfg(test)]
mod memory;
#[cfg(test)]
mod operands;
#[cfg(test)]
mod registers;
#[cfg(test)]
mod rows;
