//! Runs of a block's places filled and emptied, a place at a time.
ghost use Rattle.std.specs.Prelude.{◌≡◌, ℕ, ◌+◌, ◌^◌, ◌<◌, ◌≤◌, length, replicate};
ghost use Rattle.dm_region.specs.inner.Places.{IsEmptyRun, IsFilled, emptied};
ghost use Rattle.dm_region.specs.inner.Lends.{spliced};

use crate::cells::{Base, Cells};

/// Puts zeros into the `count` places from `first` on, which are empty. The other places stay.
pub(crate) fn put_zeros(cells: &mut Cells<u8>, base: Base<u8>, first: usize, count: usize)
    requires base { base.ptr ≡ cells.old.at }
    requires empty { IsEmptyRun cells.old.slots first count }
    requires small { first + count < 2 ^ 63 }
    ensures at { cells.new.at ≡ cells.old.at }
    ensures slots { cells.new.slots ≡ spliced cells.old.slots first count (replicate count 0) }
{
    for i in 0..count {
        cells.write(base, first + i, 0);
    }
}

/// Puts bytes into as many places from `first` on, which are empty. The other places stay.
pub(crate) fn put_bytes(cells: &mut Cells<u8>, base: Base<u8>, first: usize, bytes: &[u8])
    requires base { base.ptr ≡ cells.old.at }
    requires empty { IsEmptyRun cells.old.slots first (length bytes.now) }
    requires small { first + length bytes.now < 2 ^ 63 }
    ensures at { cells.new.at ≡ cells.old.at }
    ensures slots { cells.new.slots ≡ spliced cells.old.slots first (length bytes.now) bytes.now }
{
    for i in 0..bytes.len() {
        cells.write(base, first + i, bytes[i]);
    }
}

/// Takes the bytes out of the `count` places from `first` on, each of which holds one. The other places stay.
pub(crate) fn take_bytes(cells: &mut Cells<u8>, base: Base<u8>, first: usize, count: usize)
    requires base { base.ptr ≡ cells.old.at }
    requires within { first + count ≤ length cells.old.slots }
    requires filled { (i : ℕ) → first ≤ i → i < first + count → IsFilled cells.old.slots i }
    requires small { first + count < 2 ^ 63 }
    ensures at { cells.new.at ≡ cells.old.at }
    ensures slots { cells.new.slots ≡ emptied cells.old.slots first count }
{
    for i in 0..count {
        let _byte = cells.read(base, first + i);
    }
}
