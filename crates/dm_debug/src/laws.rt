//! Laws of the commands G and T of a session, as the contract of a function that does nothing.

ghost use Rattle.dm_debug.specs.Laws.{GoHasOneAnswer, TraceHasOneAnswer};

/// The law that G and T have one result: the state before the command, its limit of steps and, for G, the breakpoints
/// determine what it prints and the state after it, unless an allocation fails. Does nothing when called.
pub fn runs_have_one_answer()
    ensures go { GoHasOneAnswer }
    ensures trace { TraceHasOneAnswer }
{}
