//! What a machine holds, as records with numbers alone: the headers of the arena, the handles of expanded and extended
//! memory, and the findings of a checked run. `include/mezguld.h` has the same records for C.

mod arena;
mod details;
mod extended;
mod findings;
mod laws;
mod pages;

pub use arena::{ArenaBlock, list_arena};
pub use details::{Contents, Details};
pub use extended::{ExtendedBlock, UpperBlock, list_extended, list_uppers};
pub use findings::{Act, CodePlace, FoundRecord, list_findings};
pub use laws::the_arena_has_one_list;
pub use pages::{PageHandle, Window, list_handles, list_windows};
