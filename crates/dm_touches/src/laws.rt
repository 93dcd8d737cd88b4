//! Laws of what an instruction touches, each the contract of a function that does nothing.

ghost use Rattle.dm_touches.specs.Laws.{WritesAreListed};

/// The law that a byte which an instruction changes is among those that it writes, and that an instruction leaves the
/// map of memory as it is. Does nothing when called.
pub fn writes_are_listed()
    ensures { WritesAreListed }
{}
