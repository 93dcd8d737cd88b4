//! Laws of what the effect of an instruction depends on: each is the contract of a function that does nothing.
ghost use Rattle.dm_laws.specs.footprints.Footprints.{
  AgreementIsKept,
  EffectsDependOnReads,
  MapIsA20AndWindows,
};
ghost use Rattle.dm_laws.specs.footprints.Runs.{RunsDependOnInputs};
ghost use Rattle.dm_laws.specs.footprints.Steps.{StepsDependOnReads};

/// The effect of an instruction depends on registers, flags, the map of memory and the bytes that it reads, and on
/// nothing else: where two guests have the same of these, the instruction reads and writes at the same addresses in
/// both, leaves the same registers and flags, and stores the same bytes, in the same order, at the addresses that it
/// writes.
pub fn effects_depend_on_reads()
    ensures { EffectsDependOnReads }
{}

/// After an instruction two such guests show the same byte at each address where they did before, and at each address
/// that the instruction writes.
pub fn agreement_is_kept()
    ensures { AgreementIsKept }
{}

/// Two memories that fit the machine have one map where A20 and the four windows are the same.
pub fn map_is_a20_and_windows()
    ensures { MapIsA20AndWindows }
{}

/// A run of instructions depends on registers, flags, the map of memory and its inputs, and on nothing else: the inputs
/// are the bytes that are fetched or read before the run itself has written them. From a guest that has the same of
/// these a run with the same inputs leads, which leaves the same registers and flags and stores the same bytes at the
/// same addresses.
pub fn runs_depend_on_inputs()
    ensures { RunsDependOnInputs }
{}

/// A step of the machine where neither a service nor a driver acts depends on registers, flags, the map of memory, and
/// the bytes that are fetched and read, and on nothing else: a state that has the same of these makes a step by the
/// same instruction, which does the same there.
pub fn steps_depend_on_reads()
    ensures { StepsDependOnReads }
{}
