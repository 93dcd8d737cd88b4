//! Laws of `allocate`, `free` and `resize` of `dm_arena`: each is the contract of a function that does nothing.
ghost use Rattle.dm_laws.specs.arena.Contents.{CallsKeepContents};
ghost use Rattle.dm_laws.specs.arena.Pairs.{PairThenReleaseJoins};
ghost use Rattle.dm_laws.specs.arena.Conservation.{AllocateThenFreeJoins, AllocationConservesBlocks, FreeingConservesBlocks, ResizingConservesBlocks};

/// A successful allocation (48h) makes one block of the wanted size and owner out of paragraphs that were free. Each
/// used block stays, no other block gets an owner, and the list ends where it did.
pub fn allocation_conserves_blocks()
    ensures { AllocationConservesBlocks }
{}

/// Freeing a block (49h) clears its owner. Each other block stays, none is added, and the list ends where it did.
pub fn freeing_conserves_blocks()
    ensures { FreeingConservesBlocks }
{}

/// Resizing a block (4Ah) gives it the wanted size, out of its own paragraphs and free ones. Each other used block
/// stays, no other block gets an owner, and the list ends where it did.
pub fn resizing_conserves_blocks()
    ensures { ResizingConservesBlocks }
{}

/// A block that is allocated (48h) and freed (49h) leaves the list that there was, once free blocks side by side are
/// joined in both.
pub fn allocate_then_free_joins()
    ensures { AllocateThenFreeJoins }
{}

/// A successful call of 48h, 49h or 4Ah changes no byte of a block, used or free, of a list that lies in conventional
/// memory: it writes headers alone.
pub fn calls_keep_contents()
    ensures { CallsKeepContents }
{}

/// The two blocks of a program (4Bh) that are freed at its end leave the list that there was, once free blocks side by
/// side are joined in both.
pub fn pair_then_release_joins()
    ensures { PairThenReleaseJoins }
{}
