//! The parts of a store.

use crate::block::Block;

/// A part of a store, whose bytes are counted from 0.
#[derive(Clone, Copy)]
pub enum Part {
    /// The bytes of low memory.
    Low,
    /// The scratch bytes.
    Scratch,
    /// The bytes of a block.
    Block(Block),
}
