//! A machine as a host program drives it: programs are added, one is loaded and run, and what the machine holds is
//! read. Each call that can fail returns why it did.
#![tactic(auto)]

mod by_handle;
mod checks;
mod commands;
mod copy;
mod events;
mod findings;
mod host;
mod input;
mod kept;
mod linear;
mod lists;
mod loading;
mod memory;
mod refusal;
mod runs;
mod setup;

pub use host::{Host, Stage};
pub use kept::KeptReport;
pub use memory::copy_all;
pub use refusal::Refusal;
pub use setup::Setup;
