//! Laws of `allocate`, `free`, `resize`, `free_all`, the pair of `plan_pair` and `write_pair`, `link` and `linked`:
//! each is the contract of a function that does nothing. The setting is whether upper memory belongs to the arena.
ghost use Rattle.dm_arena.specs.Laws.{AllocationHasOneAnswer, FreeingHasOneAnswer, ResizingHasOneAnswer, ReleasingHasOneAnswer, PairingHasOneAnswer, LinkingHasOneAnswer, IsConventional};

/// Memory, setting, strategy, size and owner determine what an allocation returns and every byte that it
/// leaves.
pub fn allocation_has_one_answer()
    ensures { AllocationHasOneAnswer }
{}

/// Memory, setting and segment determine what freeing a block returns and every byte that it leaves.
pub fn freeing_has_one_answer()
    ensures { FreeingHasOneAnswer }
{}

/// Memory, setting, segment and size determine what resizing a block returns and every byte that it leaves.
pub fn resizing_has_one_answer()
    ensures { ResizingHasOneAnswer }
{}

/// Memory, setting and owner determine what freeing an owner's blocks returns and every byte that it leaves.
pub fn releasing_has_one_answer()
    ensures { ReleasingHasOneAnswer }
{}

/// Memory, setting, strategy and sizes determine where a pair of blocks is placed, or the error, and every byte that
/// it leaves.
pub fn pairing_has_one_answer()
    ensures { PairingHasOneAnswer }
{}

/// Memory and the direction determine what linking or unlinking the lists returns and every byte that it leaves.
pub fn linking_has_one_answer()
    ensures { LinkingHasOneAnswer }
{}

/// Where upper memory doesn't belong to the arena, a block is free if its owner is 0, a strategy looks at all free
/// blocks and chooses by its fit alone, and there are no link block and no second list.
pub fn arena_is_conventional()
    ensures { IsConventional }
{}
