//! What instructions and services act on: the parts of a machine, what a step returns, and what a
//! machine is made with.

mod config;
mod parts;
mod stop;

pub use config::Config;
pub use parts::Parts;
pub use stop::Stop;
