//! Worked rows for what surrounds the processor: regions of bytes, blocks of a pool, memory as a program sees it,
//! the lists of the arena, room for output, the program's writers, the lines of the debugger, and the packets of
//! another one.
//!
//! They are apart from the crates that they test, because a crate with tests is proved twice.
#![tactic(auto)]

#[cfg(test)]
mod arena;
#[cfg(test)]
mod blocks;
#[cfg(test)]
mod checks;
#[cfg(test)]
mod console;
#[cfg(test)]
mod free_list;
#[cfg(test)]
mod lines;
#[cfg(test)]
mod memory;
#[cfg(test)]
mod packets;
#[cfg(test)]
mod regions;
#[cfg(test)]
mod requests;
#[cfg(test)]
mod rows;
#[cfg(test)]
mod space;
#[cfg(test)]
mod windows;
#[cfg(test)]
mod writers;
