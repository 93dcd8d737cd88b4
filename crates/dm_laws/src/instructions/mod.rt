//! Laws of what instructions do. They bind the definition of [`dm_exec`], by which instructions are proved: no code
//! runs here.

mod laws;

pub use laws::{
    instructions_compute_in_decimal, instructions_keep_well_formed, pop_takes_what_was_pushed,
    push_then_pop_keeps_registers, repetition_is_elements,
};
