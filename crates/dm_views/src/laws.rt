//! Laws of the listings, as the contract of a function that does nothing.

ghost use Rattle.dm_views.specs.Laws.{ArenaHasOneText, CodeHasOneText, RegistersHaveOneText};

/// The listings of instructions, of the registers and of the arena, whose definitions are relations, have one text each
/// for one state.
pub fn listings_have_one_text()
    ensures code { CodeHasOneText }
    ensures registers { RegistersHaveOneText }
    ensures arena { ArenaHasOneText }
{}
