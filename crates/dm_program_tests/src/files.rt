//! Files, readers and writers in memory.
use dm_cli::Storage;
use std::alloc::Global;
use std::io;
use std::io::{ErrorKind, Read, Write};

/// How a reader ends, after all its bytes.
#[derive(Clone, Copy)]
pub(crate) enum Ending {
    End,
    Fault(ErrorKind),
}

/// Some bytes, a number of zeros after them, and the reader's end.
#[derive(Clone, Copy)]
pub(crate) struct Source<'a> {
    pub(crate) bytes: &'a [u8],
    pub(crate) zeros: usize,
    pub(crate) ending: Ending,
}

/// Just these bytes.
pub(crate) fn just(bytes: &[u8]) -> Source<'_> {
    filled(bytes, 0)
}

/// These bytes, and this many zeros after them.
pub(crate) fn filled(bytes: &[u8], zeros: usize) -> Source<'_> {
    let ending = Ending::End;
    Source {
        bytes,
        zeros,
        ending,
    }
}

/// These bytes, and then a read that fails.
pub(crate) fn failing(bytes: &[u8], kind: ErrorKind) -> Source<'_> {
    let ending = Ending::Fault(kind);
    Source {
        bytes,
        zeros: 0,
        ending,
    }
}

impl Read for Source<'_> {
    fn read(&mut self, buf: &mut [u8]) -> io::Result<usize> {
        if !self.bytes.is_empty() {
            return self.bytes.read(buf);
        }
        let count = self.zeros.min(buf.len());
        if count == 0 && !buf.is_empty() {
            return match self.ending {
                Ending::End => Ok(0),
                Ending::Fault(kind) => Err(io::Error::from(kind)),
            };
        }
        buf[..count].fill(0);
        self.zeros -= count;
        Ok(count)
    }
}

/// Files by their paths, and paths that are neither opened nor written, each for its reason.
#[derive(Drop)]
pub(crate) struct Files<'a> {
    pub(crate) known: &'a [(&'a str, Source<'a>)],
    pub(crate) refused: &'a [(&'a str, ErrorKind)],
    /// The path of the file that was written, a space, and its bytes.
    pub(crate) saved: Vec<u8>,
    /// The number of files that were not written.
    pub(crate) failures: u64,
    /// The number of files that were not opened, or not read to their end.
    pub(crate) unread: u64,
    /// How often two paths were found to lead to one file.
    pub(crate) found_same: u64,
}

/// Files, none of which has been written yet.
pub(crate) fn new_files<'a>(
    alloc: Global,
    known: &'a [(&'a str, Source<'a>)],
    refused: &'a [(&'a str, ErrorKind)],
) -> Files<'a> {
    Files {
        known,
        refused,
        saved: Vec::new(alloc),
        failures: 0,
        unread: 0,
        found_same: 0,
    }
}

/// Why a path is neither opened nor written.
fn refusal(refused: &[(&str, ErrorKind)], path: &str) -> Option<ErrorKind> {
    for (known, kind) in refused {
        if *known == path {
            return Some(*kind);
        }
    }
    None
}

/// Records a path, a space, and bytes.
fn note(saved: &mut Vec<u8>, path: &str, bytes: &[u8]) -> io::Result<()> {
    saved.extend_from_slice(path.as_bytes())?;
    saved.push(b' ')?;
    saved.extend_from_slice(bytes)?;
    Ok(())
}

/// The file at a path, or why it is not opened.
fn opened<'a>(
    known: &[(&str, Source<'a>)],
    refused: &[(&str, ErrorKind)],
    path: &str,
) -> io::Result<Source<'a>> {
    for (name, source) in known {
        if *name == path {
            return Ok(*source);
        }
    }
    let kind = refusal(refused, path).unwrap_or(ErrorKind::NotFound);
    Err(io::Error::from(kind))
}

/// A path without `./` before it, with which it leads to the same file.
fn in_folder(path: &str) -> &str {
    path.strip_prefix("./").unwrap_or(path)
}

/// The first `most` bytes of a file.
fn first_bytes(alloc: Global, file: io::Result<Source<'_>>, most: usize) -> io::Result<Vec<u8>> {
    let mut bytes = Vec::new(alloc);
    file?.take(most as u64).read_to_end(&mut bytes)?;
    Ok(bytes)
}

impl<'a> Storage for Files<'a> {
    ghost failures = { λ f. f.failures };

    ghost unread = { λ f. f.unread };

    ghost found_same = { λ f. f.found_same };

    fn save(&mut self, path: &str, bytes: &[u8]) -> io::Result<()> {
        let outcome = match refusal(self.refused, path) {
            Some(kind) => Err(io::Error::from(kind)),
            None => note(&mut self.saved, path, bytes),
        };
        if outcome.is_err() {
            self.failures = self.failures.saturating_add(1);
        }
        outcome
    }

    fn read(&mut self, alloc: Global, path: &str, most: usize) -> io::Result<Vec<u8>> {
        let outcome = first_bytes(alloc, opened(self.known, self.refused, path), most);
        if outcome.is_err() {
            self.unread = self.unread.saturating_add(1);
        }
        outcome
    }

    fn is_one_file(&mut self, path: &str, other: &str) -> bool {
        let same = in_folder(path) == in_folder(other);
        if same {
            self.found_same = self.found_same.saturating_add(1);
        }
        same
    }
}

/// Takes one byte per write, and fails or takes nothing after `left` writes.
#[derive(Drop)]
pub(crate) struct Slow<'a> {
    pub(crate) taken: &'a mut Vec<u8>,
    pub(crate) left: usize,
    pub(crate) refuses: bool,
}

impl Write for Slow<'_> {
    fn write(&mut self, buf: &[u8]) -> io::Result<usize> {
        if buf.is_empty() {
            return Ok(0);
        }
        if self.left == 0 {
            return match self.refuses {
                true => Ok(0),
                false => Err(io::Error::from(ErrorKind::BrokenPipe)),
            };
        }
        self.left -= 1;
        self.taken.push(buf[0])?;
        Ok(1)
    }

    fn flush(&mut self) -> io::Result<()> {
        Ok(())
    }
}
