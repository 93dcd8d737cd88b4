//! Laws of taking blocks: which gap [`Store::take`](crate::Store::take) finds, and how many blocks it can take. Each is
//! the contract of a function that does nothing.
ghost use Rattle.dm_pool.specs.Laws.{BlocksCome, LowestIsFirstFit};

/// The law that the lowest gap which holds a block of at least one unit is the first that does so in the list of gaps.
/// It holds where each block of no unit has the base 0, as in every store.
pub fn lowest_gap_is_first_fit()
    ensures { LowestIsFirstFit }
{}

/// The law of how many blocks can be taken: `n` blocks of `u` units, `u` at least 1, can all be taken one after the
/// other exactly where at least `n` numbers have no block and the gaps hold at least `n` such blocks, each gap as many
/// as its units divided by `u`, rounded down.
pub fn blocks_come()
    ensures { BlocksCome }
{}
