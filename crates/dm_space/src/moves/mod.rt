//! Spans of memory that are moved (LIM EMS 4.0, function 24, which is INT 67h function 57h; XMS 3.0, function 0Bh). For
//! 57h alone two spans are also exchanged, or tested for an overlap.
//!
//! A span is read whole into the scratch bytes of the space before a byte of another is written; `move_blocks` does
//! without them. Bytes are copied by stretches, whose places lie side by side.

mod buffers;
mod copies;
mod laws;
mod overlaps;
mod spans;

pub use buffers::{byte_after, word_after};
pub use copies::{exchange_bytes, move_blocks, move_bytes};
pub use laws::moves_keep_the_map;
pub use overlaps::overlap;
pub use spans::{Span, SpanKind};
