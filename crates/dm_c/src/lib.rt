//! The exports of the library for hosts: each makes a call of module `calls` on the machine of a handle, or one of
//! `dm_asm`.
#![tactic(auto)]

pub mod calls;
mod copies;
mod exports;
mod handle;
mod inside;
mod lists;
mod loose;
mod texts;

pub use exports::{
    dm_c_add, dm_c_answer, dm_c_check, dm_c_close_input, dm_c_command, dm_c_copy, dm_c_free,
    dm_c_input_left, dm_c_load, dm_c_new, dm_c_open_input, dm_c_output, dm_c_output_count,
    dm_c_read, dm_c_read_linear, dm_c_registers, dm_c_run, dm_c_run_to, dm_c_run_until,
    dm_c_set_registers, dm_c_steps, dm_c_supply, dm_c_version, dm_c_write, dm_c_write_linear,
};
pub use handle::MachineHandle;
pub use inside::Inside;
pub use lists::{
    dm_c_blocks, dm_c_extended_blocks, dm_c_finding_counts, dm_c_finding_line, dm_c_findings,
    dm_c_high_memory, dm_c_page_handles, dm_c_read_block, dm_c_read_page, dm_c_upper_blocks,
    dm_c_windows,
};
pub use loose::Loose;
pub use texts::{dm_c_assemble, dm_c_disassemble};
