//! The place of a block in a pool.

/// How many bytes a unit has.
pub const UNIT: usize = 1024;

/// Where a block lies in a pool, in units of 1 KiB from the pool's first.
#[derive(Clone, Copy)]
pub struct Extent {
    /// Its first unit.
    pub base: usize,
    /// How many units it has.
    pub units: usize,
}
