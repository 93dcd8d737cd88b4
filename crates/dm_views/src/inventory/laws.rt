//! The law of the records of the arena, as the contract of a function that does nothing.
ghost use Rattle.dm_views.specs.inventory.Laws.{ArenaHasOneList};

/// The law that one memory has one list of records of the arena's headers, and one segment, if any, where that breaks:
/// their definition is a relation. It does nothing when called.
pub fn the_arena_has_one_list()
    ensures { ArenaHasOneList }
{}
