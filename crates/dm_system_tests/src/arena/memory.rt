//! The memory that the tests start with.

use dm_pool::{NewError, Sizes, Store};
use dm_space::Space;
use std::alloc::Global;

/// A memory as it is in a new machine, with a pool of four pages and 16 KiB.
pub(crate) fn new_space(alloc: Global) -> Result<Space, NewError> {
    let sizes = Sizes {
        ems_pages: 4,
        xms_kib: 16,
    };
    Ok(Space::new(Store::new(alloc, sizes)?))
}
