//! The mod r/m byte.

use crate::operand::Address;

/// The fields of a mod r/m byte with its displacement.
#[derive(Clone, Copy, Debug, PartialEq, Eq)]
pub struct Fields {
    /// The reg field, 0 to 7.
    pub register: u8,
    /// The r/m field, 0 to 7.
    pub rm: u8,
    /// The memory operand, where the mod field is not 3.
    pub memory: Option<Address>,
}
