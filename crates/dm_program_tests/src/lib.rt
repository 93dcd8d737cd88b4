//! What only a call in Rattle shows of machines, of sessions and of the program `dm`: which machines are made and
//! loaded, that a stop changes nothing, room for output; readers and writers that fail, or take one byte at a time, and
//! paths that are rejected. What `dm` shows to everyone is tested by the rows of text, in `rows/` at the top.
//!
//! They are apart from the crates that they test, because a crate with tests is proved twice.
#![tactic(auto)]

#[cfg(test)]
mod checks;
#[cfg(test)]
mod commands;
#[cfg(test)]
mod copies;
#[cfg(test)]
mod files;
#[cfg(test)]
mod histories;
#[cfg(test)]
#[cfg(test)]
mod machines;
#[cfg(test)]
mod points;
#[cfg(test)]
mod runs;
#[cfg(test)]
mod servers;
#[cfg(test)]
mod sessions;
#[cfg(test)]
mod starts;
