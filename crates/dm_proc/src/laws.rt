//! Laws of processes: each is the contract of a function that does nothing.
ghost use Rattle.dm_proc.specs.Laws.{StartingHasOneAnswer, LoadHasOneAnswer, OverlayHasOneAnswer, TerminatingHasOneAnswer, StayingResidentHasOneAnswer, CallsKeepLoaded, IgnoresUnseen};

/// Setting, processes, registers, memory, store and strategy determine what `Procs::exec` returns
/// and all that it leaves.
pub fn starting_has_one_answer()
    ensures { StartingHasOneAnswer }
{}

/// Setting, memory, strategy, the program's file, variables, name and arguments determine what
/// `Procs::load` returns and all that it leaves.
pub fn load_has_one_answer()
    ensures { LoadHasOneAnswer }
{}

/// Registers, memory and store determine what `overlay` returns and every byte that it leaves.
pub fn overlay_has_one_answer()
    ensures { OverlayHasOneAnswer }
{}

/// Setting, processes, registers, memory and code determine what `Procs::terminate` returns and all
/// that it leaves.
pub fn terminating_has_one_answer()
    ensures { TerminatingHasOneAnswer }
{}

/// Setting, processes, registers, memory, code and size determine what `Procs::keep` returns and
/// all that it leaves.
pub fn staying_resident_has_one_answer()
    ensures { StayingResidentHasOneAnswer }
{}

/// Once a program is loaded, `exec`, `terminate` and `keep` leave one loaded, and `load` does if it
/// succeeds: the present process, and each that waits, has a segment over 0.
pub fn programs_stay_loaded()
    ensures { CallsKeepLoaded }
{}

/// No call depends on memory that no program sees, or changes it: with such a change made before,
/// each call has the same result and leaves the same, with the same change made afterwards.
pub fn ignores_unseen()
    ensures { IgnoresUnseen }
{}
