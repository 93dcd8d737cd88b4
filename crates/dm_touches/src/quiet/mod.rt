//! Marked memory, and which instructions touch none of it: a step of an instruction that reads and writes no marked
//! byte need not be looked at.

mod marks;
mod touch;
mod upward;

pub use marks::{Marks, home_number, is_unmarked};
pub use touch::{Touch, stays_home, touch_of};
pub use upward::unmarked_repetitions;
