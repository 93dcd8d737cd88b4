//! Extended memory (XMS 3.0): blocks by their handles, the high memory area, address line A20, and upper memory blocks.
//!
//! A block of so many KiB is a block of as many units of the pool. The tables here hold no bytes: what a block holds
//! stands in the space, as does A20.
#![tactic(auto)]

mod area;
mod blocks;
mod line;
mod moves;
mod status;
mod tables;
mod uppers;

pub use blocks::{FreeMemory, HandleInformation};
pub use moves::Description;
pub use status::Status;
pub use tables::{Handle, Upper, Xms};
pub use uppers::UpperRefusal;
