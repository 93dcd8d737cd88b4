//! How much memory a store is made for.

/// How much expanded and extended memory a machine has.
#[derive(Clone, Copy, Debug, PartialEq, Eq)]
pub struct Sizes {
    /// Pages of expanded memory, of 16 KiB; at most 512.
    pub ems_pages: u32,
    /// Extended memory in KiB; at most 15,360.
    pub xms_kib: u32,
}
