//! Processes: the store of programs; how a program is started, by blocks of the arena, environment,
//! program segment prefix, image and registers; and how it ends (MS-DOS Programmer's Reference,
//! functions 4Bh, 00h, 4Ch, 31h and 4Dh).
#![tactic(auto)]

mod arguments;
mod ending;
mod environment;
mod exec;
mod launch;
mod laws;
mod overlays;
mod parent;
mod placed;
mod procs;
mod programs;
mod psp;
mod refusal;
mod request;
mod room;
mod writes;

pub use arguments::Arguments;
pub use laws::{
    ignores_unseen, load_has_one_answer, overlay_has_one_answer, programs_stay_loaded,
    starting_has_one_answer, staying_resident_has_one_answer, terminating_has_one_answer,
};
pub use overlays::overlay;
pub use parent::{Ending, Parent};
pub use procs::Procs;
pub use programs::{AddError, Programs};
pub use refusal::{ArenaDestroyed, ExecRefusal};
