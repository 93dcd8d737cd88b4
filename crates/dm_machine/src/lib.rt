//! The machine: load, step and run, and their laws.
#![tactic(auto)]

mod bundle;
mod copy;
mod decode_cache;
mod decode_caches;
mod input;
mod laws;
mod loading;
mod machine;
mod near;
mod quick;
mod quick_unmarked;
mod steps;
mod unmarked;
mod until;

pub use dm_console::writers::{Failed, Out};
pub use dm_cpu::{Cpu, Flags};
pub use dm_pool::Sizes;
pub use dm_proc::{AddError, Programs};
pub use dm_services::state::{Config, Stop};
pub use dm_space::Space;
pub use laws::{
    a_step_has_one_answer, room_is_enough, tables_and_memory_are_consistent, there_is_one_run,
    there_is_one_run_until, unseen_bytes_change_nothing,
};
pub use loading::LoadError;
pub use machine::{Machine, NewError};
pub use until::{Breakpoint, a_run_until_is_a_run};
