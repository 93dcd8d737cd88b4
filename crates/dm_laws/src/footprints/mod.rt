//! Laws of what the effect of an instruction depends on. They bind the definitions of [`dm_exec`], [`dm_touches`] and
//! [`dm_machine`]: no code runs here.

mod laws;

pub use laws::{
    agreement_is_kept, effects_depend_on_reads, map_is_a20_and_windows, runs_depend_on_inputs,
    steps_depend_on_reads,
};
