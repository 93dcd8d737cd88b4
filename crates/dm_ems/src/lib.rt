//! Expanded memory (LIM EMS 4.0): handles, their pages, and the four windows of the frame.
//!
//! A page is a block of 16 units of the pool. The tables here hold no bytes: what a page holds, and which block each
//! window shows, stands in the space.
#![tactic(auto)]

mod frame;
mod handles;
mod maps;
mod names;
mod pages;
mod readers;
mod status;
mod tables;

pub use pages::set_windows;
pub use readers::Holding;
pub use status::Status;
pub use tables::{Ems, Handle, Page};
