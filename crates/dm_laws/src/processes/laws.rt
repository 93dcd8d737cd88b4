//! Laws of a child's start (function 4Bh) and its end (4Ch and the like) together: each is the contract of a function
//! that does nothing.
ghost use Rattle.dm_laws.specs.processes.Lives.{ArenaIsBack, ParentGoesOn, VectorsAreBack};

/// After a child's end its parent goes on: the processes are as they were, with the exit code for 4Dh, and the
/// registers are those that a successful call of 4Bh returns, whatever the child has done.
pub fn parent_goes_on()
    ensures { ParentGoesOn }
{}

/// A child that leaves the list of blocks as it was at its start leaves, once it has ended, the list that there was
/// before the call, once free blocks side by side are joined in both.
pub fn arena_is_back()
    ensures { ArenaIsBack }
{}

/// A child that leaves the list of blocks and the vectors in its prefix as they were at its start leaves, once it has
/// ended, the vectors 22h to 24h that there were before the call, whatever it has made of them.
pub fn vectors_are_back()
    ensures { VectorsAreBack }
{}
