//! Laws of checked runs (`check`), each the contract of a function that does nothing.

ghost use Rattle.dm_checker.specs.Laws.{ACheckedRunIsARun, CheckHasOneReport, UnservedCallsAreFound};

/// The law that a checked run is a run: checking changes no step, no stop and no state. Does nothing when called.
pub fn a_checked_run_is_a_run()
    ensures { ACheckedRunIsARun }
{}

/// The law that a run has one report: the state before a run and the limit of steps determine the stop, the state after
/// it and what is found, unless an allocation fails. Does nothing when called.
pub fn a_check_has_one_report()
    ensures { CheckHasOneReport }
{}

/// The law that a call of a function of INT 21h that is not served is always found: it fails with code 01h. Does
/// nothing when called.
pub fn unserved_calls_are_found()
    ensures { UnservedCallsAreFound }
{}
