//! A standard writer as an `Out`.
ghost use Rattle.std.specs.Prelude.{◌≡◌, ◌+◌, min};
ghost use Rattle.dm_console.specs.writers.Out.{WriterState, most_failures};

use crate::writers::writer::{Failed, Out};
use std::io;
use std::marker::Model;

/// A standard writer together with the count of its writes of at least one byte that failed or took nothing, and of its
/// flushes that failed.
///
/// A contract sees the bytes that the writer holds, where its type knows them, and the count.
#[derive(Drop)]
pub struct Sink<W: io::Write + Drop> {
    writer: W,
    count: u64,
}

impl<W: io::Write + Drop> Model for Sink<W> {
    ghost Value = { WriterState };

    ghost view = { λ s. record { bytes = W.contents s.writer; failures = s.count } };
}

impl<W: io::Write + Drop> Sink<W> {
    /// A sink over `writer`, with a count of 0 failures.
    pub fn new(writer: W) -> Sink<W>
        ensures { result ≡ record { bytes = W.contents writer; failures = 0 } }
    {
        Sink { writer, count: 0 }
    }

    /// Adds 1 to the count of failures, for a write or a flush; at 2^64 - 1 the count stays. The writer stays.
    fn fail(&mut self)
        ensures { self.new ≡ record self.old { failures = min (self.old.failures + 1) most_failures } }
    {
        self.count = self.count.saturating_add(1);
    }
}

impl<W: io::Write + Drop> Out for Sink<W> {
    ghost taken = { λ s. s.bytes };

    ghost failures = { λ s. s.failures };

    /// Makes one write of the standard writer, and returns how many bytes it took. Any of its errors is `Failed`. If
    /// `bytes` is not empty, an error or a write that took no byte is counted.
    fn write(&mut self, bytes: &[u8]) -> Result<usize, Failed> {
        match self.writer.write(bytes) {
            Ok(n) => {
                if n == 0 && !bytes.is_empty() {
                    self.fail();
                }
                Ok(n)
            }
            Err(_) => {
                if !bytes.is_empty() {
                    self.fail();
                }
                Err(Failed)
            }
        }
    }

    /// Makes one flush of the standard writer. Any of its errors is `Failed`, and is counted.
    fn flush(&mut self) -> Result<(), Failed> {
        match self.writer.flush() {
            Ok(()) => Ok(()),
            Err(_) => {
                self.fail();
                Err(Failed)
            }
        }
    }
}
