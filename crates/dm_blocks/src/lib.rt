//! The headers of the arena, as memory spells them: each is read where it stands, one after the
//! other (MS-DOS Programmer's Reference, "Arena header"), for functions 48h to 4Bh, 31h and 58h of
//! INT 21h, the end of a program, the debugger's listing of the arena, and `dm check`.
//!
//! A list begins with the header at segment 0100h. Where upper memory belongs to the arena, the
//! header of the link block at 9FFFh begins a second one, that of upper memory; the first list is
//! linked with it where it has that header too. Nothing is written here.
#![tactic(auto)]

mod frame;
mod header;
mod laws;
mod list;
mod listing;
mod low;

pub use header::{Header, ListedHeader, header_at, is_last};
pub use laws::{chain_is_short, chain_is_unique, walk_is_short};
pub use list::{FIRST, LINK, before_link, find, has_second, is_arena, is_linked, spelled_header};
pub use listing::{Headers, Met, walk};
pub use low::{find_low, low_header};
