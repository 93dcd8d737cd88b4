//! A region: bytes of fixed number in one allocation. Its hole is a run of bytes that were not written yet: they count
//! as zeros, and are written as zeros before they are lent.
ghost use Rattle.std.specs.Prelude.{◌≡◌, ◌+◌, ◌-◌, ◌^◌, ◌<◌, ◌≤◌, ◌⊎◌, ◌++◌, max, min, length, replicate, IfOk};
ghost use Rattle.std.specs.Borrow.{sem};
ghost use Rattle.dm_region.specs.Holes.{IsOutside};
ghost use Rattle.dm_region.specs.Parts.{part, with_part, LendsPart};

use crate::cells::{Base, Cells, Deed, allocate, deallocate};
use crate::filling::{put_bytes, put_zeros, take_bytes};
use std::alloc::{AllocError, Global};
use std::marker::Model;

/// The most bytes that one allocation may have: 2^63 - 1.
const MOST_BYTES: usize = 0x7FFF_FFFF_FFFF_FFFF;

/// How many bytes are copied at once from one side of the hole to the other.
const HOP: usize = 1024;

/// Bytes in one allocation of their own, which contracts see as a list with a hole. The allocation is given back when
/// the region is dropped, and its length never changes.
pub struct Region {
    base: Base<u8>,
    len: usize,
    /// Where the hole begins.
    from: usize,
    /// Where the hole ends.
    to: usize,
    cells: Cells<u8>,
    deed: Deed<u8, Global>,
    alloc: Global,
}

impl Model for Region {
    ghost use Rattle.dm_region.specs.Holes.{Holed};

    ghost Value = { Holed };

    ghost use Rattle.dm_region.specs.inner.Region.{IsRegion, holed_of};

    ghost view = { holed_of };

    ghost invariant = { IsRegion };
}

/// Allocates a region of `len` zeros, all of them its hole; `len` is `MOST_BYTES` or less. `AllocError` if `alloc` has
/// no memory.
fn hollow(alloc: Global, len: usize) -> Result<Region, AllocError>
    requires { len ≤ MOST_BYTES }
    ensures { IfOk result (λ region. region ≡ record { bytes = replicate len 0; from = 0; to = len }) }
{
    let (base, cells, deed) = allocate(&alloc, len)?;
    Ok(Region {
        base,
        len,
        from: 0,
        to: len,
        cells,
        deed,
        alloc,
    })
}

/// Allocates a region of `len` bytes that begins with `front` and ends with `back`; the bytes between are its hole.
/// `len` is `MOST_BYTES` or less. `AllocError` if `alloc` has no memory.
fn filled(alloc: Global, len: usize, front: &[u8], back: &[u8]) -> Result<Region, AllocError>
    requires most { len ≤ MOST_BYTES }
    requires fits { length front.now + length back.now ≤ len }
    ensures { IfOk result (λ region. region ≡ record {
      bytes = front.now ++ (replicate (len - length front.now
          - length back.now) 0 ++ back.now);
      from = length front.now;
      to = len - length back.now;
    }) }
{
    let (base, mut cells, deed) = allocate(&alloc, len)?;
    let from = front.len();
    let to = len - back.len();
    put_bytes(&mut cells, base, 0, front);
    put_bytes(&mut cells, base, to, back);
    Ok(Region {
        base,
        len,
        from,
        to,
        cells,
        deed,
        alloc,
    })
}

impl Region {
    /// A region of `len` bytes that count as zeros, all of them its hole; `len` may be 0.
    ///
    /// # Errors
    ///
    /// `AllocError` if the allocation fails, as it always does for a `len` of 2^63 or more: no allocation is so large.
    pub fn new(alloc: Global, len: usize) -> Result<Region, AllocError>
        ensures { IfOk result (λ region. region ≡ record { bytes = replicate len 0; from = 0; to = len }) }
    {
        if len > MOST_BYTES {
            return Err(AllocError);
        }
        hollow(alloc, len)
    }

    /// Another region with the same bytes and the same hole, in an allocation of its own.
    ///
    /// # Errors
    ///
    /// `AllocError` if the allocation fails.
    pub fn duplicate(&self, alloc: Global) -> Result<Region, AllocError>
        ensures { IfOk result (λ region. region ≡ self.now) }
    {
        let front = self.part(0, self.from);
        let back = self.part(self.to, self.len - self.to);
        filled(alloc, self.len, front, back)
    }

    /// How many bytes the region has.
    pub fn len(&self) -> usize
        ensures { result ≡ length self.now.bytes }
    {
        self.len
    }

    /// Writes zeros into the hole from its first byte up to the byte `end`, which is not behind it: the hole begins at
    /// `end` then, if it began below.
    pub fn fill_up(&mut self, end: usize)
        requires { end ≤ self.old.to }
        ensures { self.new ≡ record self.old { from = max self.old.from end } }
    {
        if self.from < end {
            let base = self.base;
            put_zeros(&mut self.cells, base, self.from, end - self.from);
            self.from = end;
        }
    }

    /// Writes zeros into the hole from the byte `start`, which is not before it, up to its last byte: the hole ends at
    /// `start` then, if it ended behind.
    pub fn fill_down(&mut self, start: usize)
        requires { self.old.from ≤ start }
        ensures { self.new ≡ record self.old { to = min self.old.to start } }
    {
        if start < self.to {
            let base = self.base;
            put_zeros(&mut self.cells, base, start, self.to - start);
            self.to = start;
        }
    }

    /// Where the hole begins, which is how many bytes lie before it.
    pub fn hole_start(&self) -> usize
        ensures value { result ≡ self.now.from }
        ensures within { result ≤ length self.now.bytes }
        ensures zeros { part self.now.bytes result (self.now.to - result) ≡ replicate (self.now.to - result) 0 }
    {
        self.from
    }

    /// Where the hole ends: the first byte behind it.
    pub fn hole_end(&self) -> usize
        ensures { result ≡ self.now.to }
    {
        self.to
    }

    /// The `len` bytes from byte `from` on.
    #[inline(always)]
    pub fn part(&self, from: usize, len: usize) -> &[u8]
        requires { IsOutside self.now from len }
        ensures { result.now ≡ part self.now.bytes from len }
    {
        self.cells.slice(self.base, from, len)
    }

    /// The `len` bytes from byte `from` on, lent to be written; the others stay.
    #[inline(always)]
    pub fn part_mut(&mut self, from: usize, len: usize) -> &mut [u8]
        requires { IsOutside self.old from len }
        ensures* writes_back { sem 𝓛 (LendsPart self.entry from len result) }
        ensures value { result.now ≡ part self.old.bytes from len }
    {
        let base = self.base;
        self.cells.slice_mut(base, from, len)
    }

    /// Copies the `len` bytes from byte `from` on to the place from byte `to` on, of which no byte is in the first.
    fn hop(&mut self, from: usize, to: usize, len: usize)
        requires source { IsOutside self.old from len }
        requires destination { IsOutside self.old to len }
        requires few { len ≤ HOP }
        ensures { self.new ≡ record self.old {
          bytes = with_part self.old.bytes to len (part self.old.bytes from
              len);
        } }
    {
        let mut bytes = [0; HOP];
        bytes[..len].copy_from_slice(self.part(from, len));
        self.part_mut(to, len).copy_from_slice(&bytes[..len]);
    }

    /// Copies the `len` bytes from byte `from` on to the place from byte `to` on. The two places do not overlap. The
    /// bytes outside the second place stay.
    fn copy_apart(&mut self, from: usize, to: usize, len: usize)
        requires source { IsOutside self.old from len }
        requires destination { IsOutside self.old to len }
        requires apart { (from + len ≤ to) ⊎ (to + len ≤ from) }
        requires small { (from + len < 2 ^ 63) × (to + len < 2 ^ 63) }
        ensures { self.new ≡ record self.old {
          bytes = with_part self.old.bytes to len (part self.old.bytes from
              len);
        } }
    {
        let mut done = 0;
        while done < len {
            let count = (len - done).min(HOP);
            self.hop(from + done, to + done, count);
            done += count;
        }
    }

    /// Copies the `len` bytes from byte `from` on to the place from byte `to` on. The two places may overlap: the bytes
    /// copied are those that stood in the first before the call. The bytes outside the second place stay.
    pub fn copy(&mut self, from: usize, to: usize, len: usize)
        requires source { IsOutside self.old from len }
        requires destination { IsOutside self.old to len }
        ensures { self.new ≡ record self.old {
          bytes = with_part self.old.bytes to len (part self.old.bytes from
              len);
        } }
    {
        let (hole, behind) = (self.from, self.to);
        let first = from.min(to);
        let span = from.max(to) - first + len;
        if first + span <= hole || behind <= first || behind <= hole {
            let (source, destination) = (from - first, to - first);
            self.part_mut(first, span)
                .copy_within(source..source + len, destination);
        } else {
            self.copy_apart(from, to, len);
        }
    }
}

impl Drop for Region {
    fn drop(self) {
        let Region {
            base,
            len,
            from,
            to,
            mut cells,
            deed,
            alloc,
        } = self;
        take_bytes(&mut cells, base, 0, from);
        take_bytes(&mut cells, base, to, len - to);
        deallocate(&alloc, base, len, cells, deed);
    }
}
