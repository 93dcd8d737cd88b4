//! The memory that the tests start with.

use dm_pool::{Block, NewError, Sizes, Store};
use dm_space::Space;
use std::alloc::Global;

/// A memory as it is in a new machine, with a pool of two pages and 16 KiB.
pub(crate) fn new_space(alloc: Global) -> Result<Space, NewError> {
    let sizes = Sizes {
        ems_pages: 2,
        xms_kib: 16,
    };
    Ok(Space::new(Store::new(alloc, sizes)?))
}

/// Two blocks of the size of a page.
#[derive(Clone, Copy)]
pub(crate) struct Pages {
    pub(crate) first: Block,
    pub(crate) second: Block,
}

/// Allocates two pages.
pub(crate) fn two_pages(space: &mut Space) -> Option<Pages> {
    let first = space.take(16)?;
    let second = space.take(16)?;
    Some(Pages { first, second })
}

/// Maps a page in a window.
pub(crate) fn show(space: &mut Space, window: usize, page: Block) {
    if space.has(page) {
        if space.bytes(page).len() == 0x4000 {
            space.set_window(window % 4, Some(page));
        }
    }
}
