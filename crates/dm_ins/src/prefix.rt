//! Prefixes of 8086 instructions (Intel 8086 Family User's Manual, section 2.7: segment override,
//! LOCK and the repeat prefixes).

use crate::operand::SegmentRegister;

/// A repeat prefix.
#[derive(Clone, Copy, Debug, PartialEq, Eq)]
pub enum Repeat {
    /// F2h, REPNE: repeat while not equal.
    NotEqual,
    /// F3h, REP or REPE: repeat, for comparisons while equal.
    Equal,
}

/// One prefix, of one of the three kinds.
#[derive(Clone, Copy, Debug, PartialEq, Eq)]
pub enum Prefix {
    /// Overrides the segment of the memory operand.
    Segment(SegmentRegister),
    /// Locks the bus.
    Lock,
    Repeat(Repeat),
}

/// The prefixes that an instruction keeps: of each kind the last one.
#[derive(Clone, Copy, Debug, PartialEq, Eq)]
pub struct Prefixes {
    pub segment: Option<SegmentRegister>,
    pub lock: bool,
    pub repeat: Option<Repeat>,
}

impl Prefixes {
    /// No prefix.
    pub const NONE: Self = Self {
        segment: None,
        lock: false,
        repeat: None,
    };
}
