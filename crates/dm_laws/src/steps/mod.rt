//! Laws of single steps. They bind the definition of [`dm_machine`], by which steps and runs are proved: no code runs
//! here.

mod laws;

pub use laws::{a_step_is_possible, instructions_keep_states_well_formed};
