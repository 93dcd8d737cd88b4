//! Moves and maps of expanded memory (LIM EMS 4.0): how a handle gets another number of pages (51h), many pages mapped
//! at once (50h), the whole map of the frame (4Eh), and regions of memory that are moved or exchanged (57h).
#![tactic(auto)]

mod description;
mod many;
mod maps;
mod reallocation;
mod region_moves;

pub use many::map_many;
pub use maps::whole_map;
pub use reallocation::{Reallocated, reallocate};
pub use region_moves::{Moved, exchange_region, move_region};
