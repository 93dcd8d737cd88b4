//! The errors of the calls of the arena.
use thiserror::Error;

/// Why an arena call failed. It has changed no byte.
#[derive(Clone, Copy, Debug, PartialEq, Eq, Error)]
pub enum ArenaRefusal {
    /// Memory spells no list of blocks, or none that is clear, or the list that the call would
    /// leave is not clear (DOS error 7, "Memory control blocks destroyed").
    #[error("arena destroyed")]
    Destroyed,
    /// No free block is large enough (DOS error 8, "Not enough memory").
    #[error("not enough memory")]
    Short {
        /// In paragraphs: for an allocation, and for the first of two blocks that are planned together, the largest
        /// free block that the strategy looks at, 0 if there is none; for a resize the block with the free blocks after
        /// it.
        largest: u16,
    },
    /// No block of the list begins at the segment, or the link block does (DOS error 9, "Invalid memory
    /// block").
    #[error("no such block")]
    NoBlock,
}
