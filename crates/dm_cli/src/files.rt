//! Reading whole files and standard input, and writing whole files.
ghost use Rattle.std.specs.Prelude.{◌≡◌, ◌≢◌, ◌⊎◌, ℕ, Bool, List, Option, Some, None, IfErr, IfOk, IfSome, OnErr, OnOk, take};
ghost use Rattle.std.specs.IoError.{error_kind};
ghost use Rattle.dm_console.specs.writers.Out.{count_after_call};
ghost use Rattle.dm_cli.specs.Saving.{IsToldOfPaths, Saves};
ghost use Rattle.dm_cli.specs.Reads.{IsKept, ReadsFiles, fault_if};
ghost use Rattle.dm_cli.specs.Faults.{IsUnread, IsUnwritten};
ghost use Rattle.dm_cli.specs.Stores.{IsInputFault, IsRead};

use crate::fault::Fault;
use std::alloc::Global;
use std::io::{ErrorKind, Read};
use std::marker::Model;
use std::os::unix::fs::MetadataExt;
use std::rt::Files;
use std::{fs, io};

/// The largest number of bytes that a file or standard input may have: 16 MiB.
pub(crate) const MOST_BYTES: usize = 16 * 1024 * 1024;

/// Where files are read and written by their paths.
///
/// It counts the saves that failed, and the reads, each with the opening of its file, and how often two paths were found
/// to lead to one file; at 2^64 - 1 a count stays.
pub trait Storage {
    // The bytes of the file at a path, where the storage knows them.
    ghost contents: { Self → List ℕ → Option (List ℕ) } = { λ _ _. None };

    // The files that were written, by their paths, in their order, where the storage knows them.
    ghost saved: { Self → Option (List (List ℕ × List ℕ)) } = { λ _. None };

    // How many saves failed.
    ghost failures: { Self → ℕ };

    // How many reads of files failed, the opening of a file among them.
    ghost unread: { Self → ℕ };

    // Whether two paths lead to one regular file, where the storage knows that.
    ghost same: { Self → List ℕ → List ℕ → Option Bool } = { λ _ _ _. None };

    // How often two paths were found to lead to one regular file.
    ghost found_same: { Self → ℕ };

    /// Writes a file whole, in place of what it held. What the file holds after an error is not said.
    fn save(&mut self, path: &str, bytes: &[u8]) -> io::Result<()>
        ensures saved { OnOk result (Saves (saved self.old) (saved self.new) path.now bytes.now) }
        ensures refused { OnErr result (saved self.new ≡ saved self.old) }
        ensures failures { failures self.new ≡ count_after_call (failures self.old) result }
        ensures unread { unread self.new ≡ unread self.old }
        ensures found_same { found_same self.new ≡ found_same self.old };

    /// Opens a file, and reads its bytes up to its end, but `most` of them at most.
    fn read(&mut self, alloc: Global, path: &str, most: usize) -> io::Result<Vec<u8>>
        ensures bytes { IfOk result (λ v. IfSome (contents self.old path.now) (λ xs. v.items ≡ take most xs)) }
        ensures unread { unread self.new ≡ count_after_call (unread self.old) result }
        ensures kept { IsKept (contents self.old) (contents self.new) (same self.old) (same self.new) (saved
            self.old) (saved self.new) (failures self.old) (failures self.new) (found_same self.old) (found_same
            self.new) };

    /// Whether two paths lead to one regular file; false where one of them leads to none.
    fn is_one_file(&mut self, path: &str, other: &str) -> bool
        ensures answer { IsToldOfPaths (same self.old path.now other.now) (found_same self.old) (found_same
            self.new) result }
        ensures contents { contents self.new ≡ contents self.old }
        ensures same { same self.new ≡ same self.old }
        ensures saved { saved self.new ≡ saved self.old }
        ensures failures { failures self.new ≡ failures self.old }
        ensures unread { unread self.new ≡ unread self.old };
}

/// The files of the operating system, together with the counts of the saves and the reads that failed, and of the paths
/// that were found to lead to one file.
///
/// A contract sees the counts, in this order.
#[derive(Drop)]
pub struct System<'a, R> {
    runtime: &'a R,
    failures: u64,
    unread: u64,
    found_same: u64,
}

impl<'a, R> Model for System<'a, R> {
    ghost use Rattle.std.specs.Prelude.{ℕ};

    ghost Value = { ℕ × ℕ × ℕ };

    ghost view = { λ s. (s.failures, s.unread, s.found_same) };
}

impl<'a, R> System<'a, R> {
    /// The files of the operating system, as `runtime` reaches them, with nothing counted.
    pub fn new(runtime: &'a R) -> System<'a, R>
        ensures { result ≡ (0, 0, 0) }
    {
        System {
            runtime,
            failures: 0,
            unread: 0,
            found_same: 0,
        }
    }
}

/// The first `most` bytes of the file at `path`, through `runtime`.
fn first_bytes<R: Files>(
    runtime: &R,
    alloc: Global,
    path: &str,
    most: usize,
) -> io::Result<Vec<u8>> {
    let file = fs::open(runtime, path)?;
    let mut bytes = Vec::new(alloc);
    file.take(most as u64).read_to_end(&mut bytes)?;
    Ok(bytes)
}

/// The device and the number of the regular file that `path` leads to, through `runtime`; none if it leads to none.
fn file_number<R: Files>(runtime: &R, path: &str) -> Option<(u64, u64)> {
    match fs::metadata(runtime, path) {
        Ok(found) if found.is_file() => Some((found.dev(), found.ino())),
        _ => None,
    }
}

impl<R: Files> Storage for System<'_, R> {
    ghost failures = { λ s. s.0 };

    ghost unread = { λ s. s.1 };

    ghost found_same = { λ s. s.2 };

    /// Writes the file at `path` whole, through `runtime`, and counts a failure.
    fn save(&mut self, path: &str, bytes: &[u8]) -> io::Result<()> {
        let outcome = fs::write(self.runtime, path, bytes);
        if outcome.is_err() {
            self.failures = self.failures.saturating_add(1);
        }
        outcome
    }

    /// Reads the file at `path`, through `runtime`, and counts a failure.
    fn read(&mut self, alloc: Global, path: &str, most: usize) -> io::Result<Vec<u8>> {
        let outcome = first_bytes(self.runtime, alloc, path, most);
        if outcome.is_err() {
            self.unread = self.unread.saturating_add(1);
        }
        outcome
    }

    /// Compares the files that the paths lead to by device and number, through `runtime`, and counts two that are one.
    fn is_one_file(&mut self, path: &str, other: &str) -> bool {
        let same = match file_number(self.runtime, path) {
            Some(file) => file_number(self.runtime, other) == Some(file),
            None => false,
        };
        if same {
            self.found_same = self.found_same.saturating_add(1);
        }
        same
    }
}

/// The fault for an input of this name that could not be opened or read: `OutOfMemory` if the error is of this kind,
/// otherwise `CannotRead`.
pub(crate) fn read_fault<'a>(error: &io::Error, name: &'a str) -> Fault<'a>
    ensures fault { IsUnread name.now result ⊎ (result ≡ Fault.OutOfMemory) }
    ensures memory { error_kind error.now ≡ ErrorKind.OutOfMemory → result ≡ Fault.OutOfMemory }
    ensures other { error_kind error.now ≢ ErrorKind.OutOfMemory → IsUnread name.now result }
{
    match error.kind() {
        ErrorKind::OutOfMemory => Fault::OutOfMemory,
        _ => Fault::CannotRead(name),
    }
}

/// The fault for a file of this name that could not be written: `OutOfMemory` if the error is of this kind, otherwise
/// `CannotWrite`.
pub(crate) fn write_fault<'a>(error: &io::Error, name: &'a str) -> Fault<'a>
    ensures fault { IsUnwritten name.now result ⊎ (result ≡ Fault.OutOfMemory) }
    ensures memory { error_kind error.now ≡ ErrorKind.OutOfMemory → result ≡ Fault.OutOfMemory }
    ensures other { error_kind error.now ≢ ErrorKind.OutOfMemory → IsUnwritten name.now result }
{
    match error.kind() {
        ErrorKind::OutOfMemory => Fault::OutOfMemory,
        _ => Fault::CannotWrite(name),
    }
}

/// All bytes of a reader up to its end, at most 16 MiB. It reads no more than one byte past those.
///
/// `CannotRead` with the input's name if a read failed, `InputTooLong` if there are more bytes, `OutOfMemory`.
pub(crate) fn read_whole<'a, R: Read + Drop>(
    alloc: Global,
    reader: R,
    name: &'a str,
) -> Result<Vec<u8>, Fault<'a>>
    ensures bytes { IfOk result (λ v. IsRead (R.remaining reader) v.items) }
    ensures fault { IfErr result (IsInputFault (R.remaining reader) name.now) }
{
    let mut bytes = Vec::new(alloc);
    let mut limited = reader.take(MOST_BYTES as u64 + 1);
    match limited.read_to_end(&mut bytes) {
        Ok(count) if count <= MOST_BYTES => Ok(bytes),
        Ok(_) => Err(Fault::InputTooLong),
        Err(error) => Err(read_fault(&error, name)),
    }
}

/// All bytes of the file at `path`, at most 16 MiB.
///
/// `CannotRead` if it could not be opened or read, `InputTooLong` if there are more bytes, `OutOfMemory`.
pub(crate) fn read_file<'a, F: Storage>(
    alloc: Global,
    storage: &mut F,
    path: &'a str,
) -> Result<Vec<u8>, Fault<'a>>
    ensures bytes { IfOk result (λ v. IsRead (F.contents storage.old path.now) v.items) }
    ensures fault { IfErr result (IsInputFault (F.contents storage.old path.now) path.now) }
    ensures reads { ReadsFiles (F.unread storage.old) (F.unread storage.new) (fault_if result) }
    ensures kept { IsKept (F.contents storage.old) (F.contents storage.new) (F.same storage.old) (F.same
        storage.new) (F.saved storage.old) (F.saved storage.new) (F.failures storage.old) (F.failures
        storage.new) (F.found_same storage.old) (F.found_same storage.new) }
{
    match storage.read(alloc, path, MOST_BYTES + 1) {
        Ok(bytes) => {
            if bytes.len() > MOST_BYTES {
                return Err(Fault::InputTooLong);
            }
            Ok(bytes)
        }
        Err(error) => Err(read_fault(&error, path)),
    }
}
