//! Program files: COM files, which are their own image, and MZ files, whose header says how the
//! image is relocated and where it starts (MS-DOS Programmer's Reference, "EXE File Header"). They
//! are read where the first program is loaded and by function 4Bh.
#![tactic(auto)]

mod format;
mod header;
mod image;

pub use format::{BadFormat, FarPointer, Kind};
pub use header::kind;
pub use image::Image;
