//! The memory drivers, beside the services of DOS: INT 67h is the expanded memory driver (LIM EMS 4.0), INT 2Fh returns
//! the entry point of the extended memory driver, and a far call of F000:0400 is that driver (XMS 3.0).
#![tactic(auto)]

mod at_once;
mod drivers;
pub mod expanded;
pub mod extended;
mod laws;
mod multiplex;

pub use at_once::drive_at_once;
pub use drivers::drive;
pub use laws::{block_comes, drivers_keep, pages_come};
