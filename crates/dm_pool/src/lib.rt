//! The bytes of a machine in one store: low memory, scratch bytes, and a pool from which blocks of expanded and
//! extended memory are taken, in units of 1 KiB: one of 16 units for each page of expanded memory, one of so many KiB
//! for each handle of extended memory.
#![tactic(auto)]

mod block;
mod extent;
mod free_list;
mod laws;
mod part;
mod pool;
mod sizes;
mod store;
mod table;

pub use block::Block;
pub use extent::{Extent, UNIT};
pub use free_list::FreeList;
pub use laws::{blocks_come, lowest_gap_is_first_fit};
pub use part::Part;
pub use sizes::Sizes;
pub use store::{NewError, Store};
