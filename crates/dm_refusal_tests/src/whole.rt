//! A writer into room that was reserved before.
use std::io;
use std::io::Write;

/// Takes all bytes. It allocates memory if there is no room for them.
#[derive(Drop)]
pub(crate) struct Whole<'a> {
    pub(crate) taken: &'a mut Vec<u8>,
}

impl Write for Whole<'_> {
    fn write(&mut self, buf: &[u8]) -> io::Result<usize> {
        self.taken.extend_from_slice(buf)?;
        Ok(buf.len())
    }

    fn flush(&mut self) -> io::Result<()> {
        Ok(())
    }
}
