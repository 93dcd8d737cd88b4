//! Moves of extended memory (XMS 3.0, function 0Bh). A side is the source or the destination.

ghost use Rattle.std.specs.Prelude.{◌≡◌, ◌<◌, ◌≤◌, ◌+◌, ◌^◌, IfOk, OnErr};
ghost use Rattle.dm_xms.specs.Tables.{extended};
ghost use Rattle.dm_xms.specs.Calls.{result_of, state_after};
ghost use Rattle.dm_xms.specs.Consistent.{IsConsistent};
ghost use Rattle.dm_xms.specs.inner.Sides.{is_single, Reaches};
ghost use Rattle.dm_xms.specs.Moves.{double_after, described, side, move_between, move_memory};

use crate::status::Status;
use crate::tables::{Handle, Xms};
use dm_space::Space;
use dm_space::moves::{Span, SpanKind, move_blocks, move_bytes, word_after};

/// The linear address at which the memory of handle 0 ends: after the high memory area.
const END: usize = 0x10_FFF0;

/// The number of bytes of a KiB.
const KIB: usize = 0x400;

/// The offset of the source's description in the structure of a move.
const SOURCE: usize = 4;

/// The offset of the destination's description in the structure of a move.
const DESTINATION: usize = 10;

/// The description of one side of a move in its structure.
#[derive(Clone, Copy, Debug)]
pub struct Description {
    /// Its handle; 0 for memory below 10FFF0h.
    pub handle: u16,
    /// The offset in bytes in the block of the handle; for handle 0 an offset in the low word, a segment in the high.
    pub offset: u32,
}

/// One side of a move: its region, and the end of the memory in which it lies.
#[derive(Drop)]
pub struct Side<'a> {
    /// The region from its first byte on.
    pub region: Span<'a>,
    /// The end of the memory in which it lies, in bytes, counted like the start of the region.
    pub end: usize,
}

/// The double word of a move's structure that stands `places` bytes after segment:offset; offsets wrap.
fn double_after(space: &Space, segment: u16, offset: u16, places: usize) -> u32
    requires { places < 0x1000 }
    ensures { result ≡ double_after space.now.memory segment offset places }
{
    let low = word_after(space, segment, offset, places);
    let high = word_after(space, segment, offset, places + 2);
    low as u32 + 0x1_0000 * high as u32
}

/// The description of one side in the structure of a move, a handle (word) and an offset (double word), `places` bytes
/// after segment:offset; offsets wrap.
fn described(space: &Space, segment: u16, offset: u16, places: usize) -> Description
    requires { places < 0x100 }
    ensures { result ≡ described space.now.memory segment offset places }
{
    Description {
        handle: word_after(space, segment, offset, places),
        offset: double_after(space, segment, offset, places + 2),
    }
}

/// Whether a side lies in a block of the pool.
fn is_single(side: &Side<'_>) -> bool
    ensures { result ≡ is_single side.now.region.kind }
{
    match side.region.kind() {
        SpanKind::Linear => false,
        SpanKind::Pages => false,
        SpanKind::Single => true,
    }
}

/// Copies `len` bytes of `from` to `to`; all are read before the first is written. The scratch part may be
/// overwritten. `BadLength` where either side has fewer; then nothing has changed.
#[tactic(auto, unfolding(crate::specs::Moves::move_between), using(crate::proofs::Sides::single_kind))]
fn move_between(
    xms: &Xms,
    space: &mut Space,
    len: usize,
    from: &Side<'_>,
    to: &Side<'_>,
) -> Result<(), Status>
    requires len { len < 2 ^ 32 }
    requires from { Reaches space.old.memory from.now }
    requires to { Reaches space.old.memory to.now }
    ensures answer { result ≡ result_of (move_between (extended xms.now space.old.memory) len from.now to.now) }
    ensures left { extended xms.now space.new.memory ≡ state_after (extended xms.now space.old.memory) (move_between
        (extended xms.now space.old.memory) len from.now to.now) }
    ensures refused { OnErr result (space.new ≡ space.old) }
{
    if from.end < from.region.at(len) || to.end < to.region.at(len) {
        return Err(Status::BadLength);
    }
    if is_single(from) && is_single(to) {
        move_blocks(space, &from.region, &to.region, len);
    } else {
        move_bytes(space, &from.region, &to.region, len);
    }
    Ok(())
}

impl Xms {
    /// The side that is described: for handle 0 memory below 10FFF0h, which is never an error here, else a handle's
    /// block. The error `unknown` where that handle is not in use, `past` where the offset is over the block's size.
    #[tactic(auto, unfolding(crate::specs::Moves::side))]
    fn side(
        &self,
        space: &Space,
        described: Description,
        unknown: Status,
        past: Status,
    ) -> Result<Side<'_>, Status>
        requires { IsConsistent (extended self.now space.now.memory) }
        ensures side { result ≡ side (extended self.now space.now.memory) described unknown past }
        ensures reaches { IfOk result (Reaches space.now.memory) }
    {
        let offset = described.offset as usize;
        if described.handle == 0 {
            let start = offset / 0x1_0000 * 16 + offset % 0x1_0000;
            let region = Span::of_linear(start);
            return Ok(Side { region, end: END });
        }
        let Some(slot) = self.entry(described.handle) else {
            return Err(unknown);
        };
        let end = KIB * slot.kib as usize;
        if offset > end {
            return Err(past);
        }
        let region = Span::of_block(&slot.block, offset);
        Ok(Side { region, end })
    }

    /// 0Bh: copies an even number of bytes from a source to a destination, each a block of a handle or, for handle 0,
    /// memory below 10FFF0h. The structure at segment:offset has sixteen bytes: the length in bytes (a double word),
    /// and for the source and then the destination a handle (a word) and an offset (a double word). For handle 0 the
    /// double word is an offset and, in the high word, a segment; A20 counts as on. The source is read whole before
    /// anything is written. The scratch bytes of the space may be overwritten.
    ///
    /// # Errors
    ///
    /// In this order: `BadLength` for an odd length; `UnknownSource`, `PastSource`; `UnknownDestination`,
    /// `PastDestination`; `BadLength` where the source or the destination does not have so many bytes. Then neither
    /// memory nor the scratch bytes have changed.
    #[tactic(auto, unfolding(crate::specs::Moves::move_memory))]
    pub fn move_memory(&self, space: &mut Space, segment: u16, offset: u16) -> Result<(), Status>
        requires { IsConsistent (extended self.now space.old.memory) }
        ensures answer { result ≡ result_of (move_memory (extended self.now space.old.memory) segment offset) }
        ensures left { extended self.now space.new.memory ≡ state_after (extended self.now
            space.old.memory) (move_memory (extended self.now space.old.memory) segment offset) }
        ensures refused { OnErr result (space.new ≡ space.old) }
    {
        let len = double_after(space, segment, offset, 0) as usize;
        if len % 2 == 1 {
            return Err(Status::BadLength);
        }
        let source = described(space, segment, offset, SOURCE);
        match self.side(space, source, Status::UnknownSource, Status::PastSource) {
            Ok(from) => {
                let destination = described(space, segment, offset, DESTINATION);
                match self.side(
                    space,
                    destination,
                    Status::UnknownDestination,
                    Status::PastDestination,
                ) {
                    Ok(to) => move_between(self, space, len, &from, &to),
                    Err(status) => Err(status),
                }
            }
            Err(status) => Err(status),
        }
    }
}
