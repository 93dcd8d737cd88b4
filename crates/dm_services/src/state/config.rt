//! What a machine is made with: the sizes of its memories, the environment, and whether there is upper memory.

use dm_pool::Sizes;

/// What a machine is made with.
#[derive(Drop)]
pub struct Config {
    /// How much expanded and extended memory there is.
    pub sizes: Sizes,
    /// The variables of the first program's environment, each closed by a zero byte.
    pub variables: Vec<u8>,
    /// Whether upper memory, from segment 9FFFh on, belongs to the arena.
    pub upper: bool,
}
