//! The law that `move_bytes`, `move_blocks` and `exchange_bytes` keep the map of memory: the contract of a function
//! that does nothing.

ghost use Rattle.dm_space.specs.moves.Laws.{MovesKeepTheMap};

/// The law that moves and exchanges of spans keep the map: A20, the windows, and which blocks there are, where they lie
/// and how large they are.
pub fn moves_keep_the_map()
    ensures { MovesKeepTheMap }
{}
