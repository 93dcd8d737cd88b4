//! Worked rows of the text of instructions, of the words that are instructions, and of programs in assembly.
//!
//! They are apart from the crates that they test, because a crate with tests is proved twice.
#![tactic(auto)]

#[cfg(test)]
mod assembly;
#[cfg(test)]
mod checks;
#[cfg(test)]
mod listings;
#[cfg(test)]
mod readings;
#[cfg(test)]
mod rows;
#[cfg(test)]
mod texts;
#[cfg(test)]
mod words;
