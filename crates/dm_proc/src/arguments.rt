//! What a program is passed at its start.

use arrayvec::ArrayVec;

/// What a program is passed at its start: its command tail, and the first 16 bytes of its two file
/// control blocks.
#[derive(Drop)]
pub struct Arguments {
    pub tail: ArrayVec<u8, 126>,
    pub first: [u8; 16],
    pub second: [u8; 16],
}
