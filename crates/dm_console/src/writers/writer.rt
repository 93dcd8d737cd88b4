//! The trait for what output is written to: like the standard `Write`, with the bytes taken and the failures counted.
ghost use Rattle.std.specs.Prelude.{◌≡◌, ℕ, List, [], ◌≤◌, ◌<◌, Option, IsOk, IfOk, OnOk, OnErr, length, take};
ghost use Rattle.std.specs.Io.KnownBytes.{Appends, Keeps, WriteAppends};
ghost use Rattle.dm_console.specs.writers.Out.{AppendsPart, HasFailed, count_after, count_after_call};

use thiserror::Error;

/// A write or a flush failed, or a write took none of the bytes that it was offered.
#[derive(Clone, Copy, Debug, PartialEq, Eq, Error)]
#[error("a write failed")]
pub struct Failed;

/// A writer that takes some first part of the bytes that each write offers, as the standard `Write` does.
///
/// It counts the writes of at least one byte that failed or took nothing, and the flushes that failed; at 2^64 - 1 the
/// count stays.
pub trait Out {
    // The bytes taken so far, where the type knows them.
    ghost taken: { Self → Option (List ℕ) };

    // How many writes of at least one byte failed or took nothing, and how many flushes failed.
    ghost failures: { Self → ℕ };

    /// Offers `bytes`, and returns how many of them, from the first on, were taken. With an error, none were.
    fn write(&mut self, bytes: &[u8]) -> Result<usize, Failed>
        ensures bound { IfOk result (λ n. n ≤ length bytes.now) }
        ensures bytes { WriteAppends (taken self.old) (taken self.new) result bytes.now }
        ensures failures { failures self.new ≡ count_after (failures self.old) bytes.now result };

    /// Passes on what the writer has buffered. The bytes taken stay the same, also with an error.
    fn flush(&mut self) -> Result<(), Failed>
        ensures bytes { Keeps (taken self.old) (taken self.new) }
        ensures failures { failures self.new ≡ count_after_call (failures self.old) result };
}

/// Writes all of `bytes`, with as many writes as it takes. If `bytes` is empty, makes no write.
///
/// # Errors
///
/// `Failed` at the first write that fails or takes no byte; what the earlier writes took stays taken.
pub fn write_all<W: Out>(out: &mut W, bytes: &[u8]) -> Result<(), Failed>
    ensures ok { OnOk result (Appends (W.taken out.old) (W.taken out.new) bytes.now) }
    ensures no_failure { OnOk result (W.failures out.new ≡ W.failures out.old) }
    ensures err { OnErr result (HasFailed (W.failures out.old) (W.failures out.new)) }
    ensures part { OnErr result (AppendsPart (W.taken out.old) (W.taken out.new) bytes.now) }
    ensures empty { bytes.now ≡ [] → IsOk result × (out.new ≡ out.old) }
{
    let mut at = 0;
    while at < bytes.len() {
        match out.write(&bytes[at..]) {
            Ok(0) => return Err(Failed),
            Ok(n) => at += n,
            Err(error) => return Err(error),
        }
    }
    Ok(())
}
