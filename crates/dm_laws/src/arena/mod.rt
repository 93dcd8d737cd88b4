//! Laws of the arena's calls: what functions 48h, 49h and 4Ah (MS-DOS Programmer's Reference) keep of the blocks that a
//! list has. They bind the definitions of [`dm_arena`], by which the calls themselves are proved: no code runs here.

mod laws;

pub use laws::{
    allocate_then_free_joins, allocation_conserves_blocks, calls_keep_contents,
    freeing_conserves_blocks, pair_then_release_joins, resizing_conserves_blocks,
};
