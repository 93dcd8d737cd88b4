//! Laws of the definitions of lists: each is the contract of a function that does nothing.
ghost use Rattle.dm_blocks.specs.Laws.{ChainIsUnique, ChainIsShort, WalkIsShort};

/// Memory spells at most one list from a segment on.
pub fn chain_is_unique()
    ensures { ChainIsUnique }
{}

/// The first list has at most FF00h headers.
pub fn chain_is_short()
    ensures { ChainIsShort }
{}

/// A walk over either list passes fewer than FF00h headers before the one where it stands, also
/// where the list is broken.
pub fn walk_is_short()
    ensures { WalkIsShort }
{}
