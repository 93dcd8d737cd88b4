//! Laws of steps: each is the contract of a function that does nothing.
ghost use Rattle.dm_laws.specs.steps.Steps.{InstructionsKeepStatesWellFormed, StepIsPossible};

/// Where no service of DOS acts, a step has a result: it is not the case that none is one.
pub fn a_step_is_possible()
    ensures { StepIsPossible }
{}

/// Where neither a service nor a driver acts, a step from registers that are words and memory that keeps bytes leads to
/// the same.
pub fn instructions_keep_states_well_formed()
    ensures { InstructionsKeepStatesWellFormed }
{}
