//! The two blocks of a process.

/// Where the two blocks of a process lie: the segment of its environment, the segment of its own
/// block, which owns both, and the size of that in paragraphs.
#[derive(Clone, Copy)]
pub(crate) struct Blocks {
    pub(crate) environment_segment: u16,
    pub(crate) program: u16,
    pub(crate) size: u16,
}
