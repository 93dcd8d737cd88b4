//! Laws of the effect of an instruction, which [`exec`](crate::exec) has: contracts of functions that do nothing.
ghost use Rattle.dm_exec.specs.Effect.{HaltKeeps};
ghost use Rattle.dm_exec.specs.Map.{KeepsTheMap};
ghost use Rattle.dm_exec.specs.Unseen.{IgnoresUnseen};

/// HLT, at which the processor stops, changes neither registers, IP included, nor memory.
pub fn halt_changes_nothing()
    ensures { HaltKeeps }
{}

/// No instruction changes A20, what the windows show, or which blocks there are, where they lie and how large they are:
/// of memory it changes bytes alone.
pub fn keeps_the_map()
    ensures { KeepsTheMap }
{}

/// No instruction depends on memory that no address shows, or changes it: with such a change made
/// before, the effect is the effect with the same change made afterwards.
pub fn ignores_unseen()
    ensures { IgnoresUnseen }
{}
