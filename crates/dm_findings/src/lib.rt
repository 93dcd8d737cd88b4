//! Findings about the memory of programs: what a step did to the headers of the arena, calls that failed, and what a
//! program left allocated; and the report that collects them.
#![tactic(auto)]

mod calls;
mod finding;
pub mod processes;
mod repeats;
mod report;
mod sites;

pub use calls::{Call, call_of};
pub use finding::{Act, Contents, Finding, Found, Kept, Origin};
pub use repeats::kind_of;
pub use report::{Listed, Report};
pub use sites::{Site, site_of};
