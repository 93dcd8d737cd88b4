//! A block of bytes of fixed length in one allocation, whose parts are lent as slices. All code that follows raw
//! pointers into the machine's memory is in this crate; the crates that use it see a list of bytes with a hole.
#![tactic(auto)]

mod cells;
mod filling;
mod region;

pub use cells::ends_mut;
pub use region::Region;
