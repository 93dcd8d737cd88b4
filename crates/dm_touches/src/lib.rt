//! What an instruction touches: the bytes of memory that it reads and writes, beside those that it is decoded from; and
//! what is found of them.
//!
//! Module `quiet` tells quickly of most instructions that they touch nothing in which something could be found.
#![tactic(auto)]

mod access;
mod elements;
mod found;
mod laws;
pub mod quiet;
mod touches;

pub use access::{Access, access_of};
pub use elements::{Element, Elements, FarAddress, Touched};
pub use found::{is_in_free, put_of_header, put_of_places};
pub use laws::writes_are_listed;
pub use touches::touched;
