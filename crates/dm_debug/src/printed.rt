//! A writer into memory, which takes what a command prints.
ghost use Rattle.std.specs.Prelude.{◌≡◌, []};

use dm_machine::{Failed, Out};
use std::alloc::Global;
use std::marker::Model;

/// A writer that keeps the bytes that it takes, all of each write or, if an allocation fails, none.
///
/// A contract sees the bytes, and how many writes failed because an allocation did.
#[derive(Drop)]
pub struct PrintedText {
    bytes: Vec<u8>,
    failures: u64,
}

impl Model for PrintedText {
    ghost use Rattle.dm_debug.specs.Printed.{Collected};

    ghost Value = { Collected };

    ghost view = { λ a. record { bytes = a.bytes.items; failures = a.failures } };
}

impl PrintedText {
    /// A writer that has taken no bytes.
    pub fn new(alloc: Global) -> PrintedText
        ensures { result ≡ record { bytes = []; failures = 0 } }
    {
        PrintedText {
            bytes: Vec::new(alloc),
            failures: 0,
        }
    }

    /// The bytes that it has taken.
    pub fn into_bytes(self) -> Vec<u8>
        ensures { result.items ≡ self.bytes }
    {
        self.bytes
    }
}

impl Out for PrintedText {
    ghost use Rattle.std.specs.Prelude.{Some};

    ghost taken = { λ a. Some a.bytes };

    ghost failures = { λ a. a.failures };

    /// Keeps all of `bytes`, and returns how many they are. `Failed` if the allocation for them fails, which is counted
    /// if `bytes` is not empty.
    fn write(&mut self, bytes: &[u8]) -> Result<usize, Failed> {
        match self.bytes.extend_from_slice(bytes) {
            Ok(()) => Ok(bytes.len()),
            Err(_) => {
                if !bytes.is_empty() {
                    self.failures = self.failures.saturating_add(1);
                }
                Err(Failed)
            }
        }
    }

    /// Does nothing: no byte is buffered.
    fn flush(&mut self) -> Result<(), Failed> {
        Ok(())
    }
}
