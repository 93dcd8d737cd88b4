//! Which step of a run allocated what there is, and which freed what is free: handles of expanded and extended memory,
//! upper memory blocks, the high memory area, A20, and memory of the arena; and which processes ran.
//!
//! Module `outcomes` tells what a call does, and `leaks` what an ended program left allocated.
#![tactic(auto)]

mod chunks;
mod freed;
mod handles;
pub mod leaks;
mod origins;
pub mod outcomes;
mod uppers;

pub use origins::Origins;
