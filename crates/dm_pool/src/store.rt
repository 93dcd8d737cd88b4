//! The bytes of a machine, in one region: low memory by linear address, scratch bytes, and a pool of units of 1 KiB.
ghost use Rattle.std.specs.Prelude.{◌≡◌, ◌↔◌, IsTrue, ℕ, ◌+◌, ◌*◌, ◌/◌, ◌%◌, ◌^◌, ◌<◌, ◌≤◌, Some, None, [], ◌++◌, ◌-◌, true, take, drop, replicate, get_or, set, length, IfOk, IfSome, IsErrOf, MatchOption};
ghost use Rattle.std.specs.Borrow.{sem};
ghost use Rattle.std.specs.Bool.{MatchBool, OnFalse, OnTrue};
ghost use Rattle.dm_pool.specs.Blocks.{no_blocks, taken, resized, without, moved_bytes, contents_of, IsAt, IsLive, IsPool};
ghost use Rattle.dm_pool.specs.FreeList.{AreBased, Spells};
ghost use Rattle.dm_pool.specs.Gaps.{gaps, free_units, largest, count_fitting};
ghost use Rattle.dm_pool.specs.Stored.{zeros_of, units_of, IsTooLarge};
ghost use Rattle.dm_pool.specs.Lending.{LendsLow, LendsScratch, LendsBlock};
ghost use Rattle.dm_pool.specs.declared.part.Part.{Part};
ghost use Rattle.dm_pool.specs.declared.part.Part.TheVariants.{Block as OfBlock};
ghost use Rattle.dm_pool.specs.Parts.{HasPart, part_bytes, with_part_bytes, with_part_byte, part_copied, IsSpot};
ghost use Rattle.dm_pool.specs.inner.Parts.{IsLaidOut, IsSpan};
ghost use Rattle.dm_pool.specs.inner.Stored.{IsKept, stored};

use crate::block::Block;
use crate::extent::{Extent, UNIT};
use crate::free_list::FreeList;
use crate::part::Part;
use crate::sizes::Sizes;
use crate::table::Table;
use crate::{free_list, pool};
use dm_region::Region;
use std::alloc::{AllocError, Global};
use std::marker::Model;
use thiserror::Error;

/// How many bytes low memory has: linear addresses 0 to 10FFFFh, so that the high memory area is among them.
const LOW: usize = 0x11_0000;

/// How many scratch bytes there are: 2 MiB. They have no address, and no program sees them.
const SCRATCH: usize = 0x20_0000;

/// How many units a page of expanded memory has.
const PAGE_UNITS: usize = 16;

/// The byte of the region where the pool begins.
const POOL: usize = LOW + SCRATCH;

/// Low memory, scratch bytes and a pool of blocks, in one allocation that is given back when the store is dropped.
#[derive(Drop)]
pub struct Store {
    region: Region,
    table: Table,
    /// Whether the pool is in use: its bytes are written, the free ones with the free list. Before, it has no block.
    in_use: bool,
}

impl Model for Store {
    ghost use Rattle.dm_pool.specs.Stored.{Stored};
    ghost use Rattle.dm_pool.specs.inner.Stored.{IsKept, stored};

    ghost Value = { Stored };

    ghost view = { λ s. stored s.region.bytes s.table };

    ghost invariant = { λ s. IsKept s.region s.table s.in_use };
}

/// Why no store was made.
#[derive(Clone, Copy, Debug, PartialEq, Eq, Error)]
pub enum NewError {
    /// Over 512 pages of expanded memory, or over 15,360 KiB of extended memory.
    #[error("too large")]
    TooLarge,
    /// The allocation failed.
    #[error("out of memory")]
    Memory,
}

/// A region of `len` bytes that count as zeros; `AllocError` if the allocation fails. (It is a function of its own so
/// that no proof writes out the zeros of a large region.)
#[tactic(auto, unfolding(crate::specs::Stored::zeros_of))]
fn blank(alloc: Global, len: usize) -> Result<Region, AllocError>
    ensures { IfOk result (λ region. region ≡ record { bytes = zeros_of len; from = 0; to = len }) }
{
    Region::new(alloc, len)
}

/// A store whose low memory and scratch bytes are zeros, and whose pool has `units` units and no block. `AllocError` if
/// the allocation fails.
fn store_of(alloc: Global, units: usize) -> Result<Store, AllocError>
    requires { units < 2 ^ 31 }
    ensures low { IfOk result (λ store. store.low ≡ zeros_of 0x110000) }
    ensures scratch { IfOk result (λ store. store.scratch ≡ zeros_of 0x200000) }
    ensures blocks { IfOk result (λ store. store.blocks ≡ no_blocks units) }
{
    let mut region = blank(alloc, POOL + units * UNIT)?;
    region.fill_up(LOW);
    Ok(Store {
        region,
        table: Table::new(units),
        in_use: false,
    })
}

/// How many bytes the pool has.
fn pool_len(table: &Table) -> usize
    ensures { result ≡ table.now.units * 1024 }
{
    table.recall();
    table.units() * UNIT
}

/// Puts the pool of a store to use, if it is not yet: writes zeros into its bytes, and the free list into these. What
/// the store holds stays.
fn use_pool(region: &mut Region, table: &mut Table, in_use: &mut bool)
    requires { IsKept region.old table.old in_use.old }
    ensures in_use { in_use.new ≡ true }
    ensures kept { IsKept region.new table.new true }
    ensures stored { stored region.new.bytes table.new ≡ stored region.old.bytes table.old }
{
    if *in_use {
        return;
    }
    region.fill_down(POOL);
    let len = pool_len(table);
    let first = free_list::spell(table, region.part_mut(POOL, len));
    table.set_first(first);
    *in_use = true;
}

/// The byte `end` of the region, or 0 if it lies in the pool.
fn below_pool(end: usize) -> usize
    ensures below { result ≤ 0x310000 }
    ensures same { end ≤ 0x310000 → result ≡ end }
{
    if end <= POOL { end } else { 0 }
}

/// Where a block lies in the pool.
fn place_of(table: &Table, block: Block) -> Extent
    requires { (b : _) × (get_or table.now.places block None ≡ Some b) }
    ensures place { get_or table.now.places block None ≡ Some result }
    ensures within { result.base + result.units ≤ table.now.units }
    ensures small { table.now.units < 2 ^ 31 }
{
    table.recall();
    table.place(block.slot())
}

/// The byte of the region where a part begins.
fn start_of(table: &Table, part: Part) -> usize
    requires { IsLaidOut table.now part }
    ensures span { (n : _) × IsSpan table.now part result n }
    ensures small { result < 2 ^ 42 }
{
    match part {
        Part::Low => 0,
        Part::Scratch => LOW,
        Part::Block(block) => POOL + place_of(table, block).base * UNIT,
    }
}

impl Store {
    /// A store with 110000h bytes of low memory and 200000h scratch bytes, all zeros, and a pool with no block, of 16
    /// units of 1 KiB for each page and one for each KiB of extended memory.
    ///
    /// # Errors
    ///
    /// `TooLarge` for over 512 pages or over 15,360 KiB; otherwise `Memory` if the allocation fails.
    pub fn new(alloc: Global, sizes: Sizes) -> Result<Store, NewError>
        ensures low { IfOk result (λ store. store.low ≡ zeros_of 0x110000) }
        ensures scratch { IfOk result (λ store. store.scratch ≡ zeros_of 0x200000) }
        ensures blocks { IfOk result (λ store. store.blocks ≡ no_blocks (units_of sizes)) }
        ensures too_large { IsErrOf result NewError.TooLarge ↔ IsTooLarge sizes }
    {
        if sizes.ems_pages > 512 || sizes.xms_kib > 15_360 {
            return Err(NewError::TooLarge);
        }
        let units = PAGE_UNITS * sizes.ems_pages as usize + sizes.xms_kib as usize;
        match store_of(alloc, units) {
            Ok(store) => Ok(store),
            Err(_) => Err(NewError::Memory),
        }
    }

    /// Another store that holds the same, in an allocation of its own.
    ///
    /// # Errors
    ///
    /// `AllocError` if the allocation fails.
    pub fn duplicate(&self, alloc: Global) -> Result<Store, AllocError>
        ensures { IfOk result (λ store. store ≡ self.now) }
    {
        Ok(Store {
            region: self.region.duplicate(alloc)?,
            table: self.table.duplicate(),
            in_use: self.in_use,
        })
    }

    /// The 110000h bytes of low memory, by linear address.
    #[inline(always)]
    pub fn low(&self) -> &[u8]
        ensures value { result.now ≡ self.now.low }
        ensures length { length result.now ≡ 0x110000 }
    {
        self.region.part(0, LOW)
    }

    /// The 110000h bytes of low memory, by linear address, lent to be written. All other bytes stay.
    #[inline(always)]
    pub fn low_mut(&mut self) -> &mut [u8]
        ensures* writes_back { sem 𝓛 (LendsLow self.entry result) }
        ensures value { result.now ≡ self.old.low }
        ensures length { length result.now ≡ 0x110000 }
    {
        self.region.part_mut(0, LOW)
    }

    /// The scratch bytes up to the last that was asked for by `scratch_mut` or `copy`; the others of the 200000h are
    /// zeros.
    pub fn scratch(&self) -> &[u8]
        ensures value { self.now.scratch ≡ result.now ++ zeros_of (0x200000 - length result.now) }
        ensures length { length self.now.scratch ≡ 0x200000 }
        ensures within { length result.now ≤ 0x200000 }
    {
        self.region.part(LOW, self.region.hole_start() - LOW)
    }

    /// The first `len` of the 200000h scratch bytes, lent to be written. All other bytes stay.
    pub fn scratch_mut(&mut self, len: usize) -> &mut [u8]
        requires { len ≤ 0x200000 }
        ensures* writes_back { sem 𝓛 (LendsScratch self.entry len result) }
        ensures value { result.now ≡ take len self.old.scratch }
        ensures length { length result.now ≡ len }
    {
        self.region.fill_up(LOW + len);
        self.region.part_mut(LOW, len)
    }

    /// Takes a block of `units` units as [`Store::take`] does, and returns its number, or None where that does.
    fn take_slot(&mut self, units: usize) -> Option<usize>
        ensures taken { MatchOption result ((taken self.old.blocks units ≡ None) ×
            (self.new ≡ self.old)) (λ slot. (taken self.old.blocks units ≡ Some (slot, self.new.blocks)) ×
            (self.new ≡ record self.old { blocks = self.new.blocks })) }
        ensures small { IfSome result (λ slot. slot < 576) }
    {
        use_pool(&mut self.region, &mut self.table, &mut self.in_use);
        let len = pool_len(&self.table);
        pool::take(&mut self.table, self.region.part_mut(POOL, len), units)
    }

    /// Takes a block of `units` units of 1 KiB, all zeros, in the lowest gap that holds them; a block of no unit needs
    /// no gap, and lies at unit 0. None where no gap holds them, or there are 576 blocks; then nothing has changed.
    pub fn take(&mut self, units: usize) -> Option<Block>
        ensures { MatchOption result ((taken self.old.blocks units ≡ None) ×
            (self.new ≡ self.old)) (λ block. (taken self.old.blocks units ≡ Some (block, self.new.blocks)) ×
            (self.new ≡ record self.old { blocks = self.new.blocks })) }
    {
        match self.take_slot(units) {
            Some(slot) => Some(Block::new(slot)),
            None => None,
        }
    }

    /// Gives a block back. Its units are free then, in one gap with the free ones beside them; the other blocks stay as
    /// they are.
    pub fn give(&mut self, block: Block)
        requires { IsLive self.old.blocks block }
        ensures { self.new ≡ record self.old { blocks = without self.old.blocks block } }
    {
        let len = pool_len(&self.table);
        pool::give(
            &mut self.table,
            self.region.part_mut(POOL, len),
            block.slot(),
        );
    }

    /// Gives a block another size: bytes up to the smaller size stay, and new ones are zeros. The block stays where it
    /// is if it fits there, else it moves to the lowest gap that holds it, its old place counted as taken; a block of
    /// no unit needs no gap, and lies at unit 0. The other blocks stay as they are. False where neither its place nor a
    /// gap holds it, and then nothing has changed.
    pub fn resize(&mut self, block: Block, units: usize) -> bool
        requires { IsLive self.old.blocks block }
        ensures { MatchBool result ((resized self.old.blocks block units ≡ Some self.new.blocks) ×
            (self.new ≡ record self.old { blocks = self.new.blocks })) ((resized self.old.blocks block units ≡ None) ×
            (self.new ≡ self.old)) }
    {
        let len = pool_len(&self.table);
        pool::resize(
            &mut self.table,
            self.region.part_mut(POOL, len),
            block.slot(),
            units,
        )
    }

    /// Whether the store has a block with this number: one that was taken and has not been given back since.
    pub fn has(&self, block: Block) -> bool
        ensures { IsTrue result ↔ IsLive self.now.blocks block }
    {
        self.table.has(block.slot())
    }

    /// The first unit of a block, counted from the pool's first; 0 for a block of no unit.
    pub fn base(&self, block: Block) -> usize
        requires { IsLive self.now.blocks block }
        ensures place { (units : _) × IsAt self.now.blocks block (record { base = result; units = units }) }
        ensures small { result < 2 ^ 31 }
    {
        place_of(&self.table, block).base
    }

    /// The bytes of a block.
    pub fn bytes(&self, block: Block) -> &[u8]
        requires { IsLive self.now.blocks block }
        ensures { result.now ≡ get_or self.now.blocks.contents block [] }
    {
        let place = place_of(&self.table, block);
        self.region
            .part(POOL + place.base * UNIT, place.units * UNIT)
    }

    /// The bytes of a block, lent to be written. All other bytes stay.
    pub fn bytes_mut(&mut self, block: Block) -> &mut [u8]
        requires { IsLive self.old.blocks block }
        ensures* writes_back { sem 𝓛 (LendsBlock self.entry block result) }
        ensures value { result.now ≡ get_or self.old.blocks.contents block [] }
    {
        self.table.recall();
        let place = place_of(&self.table, block);
        self.region
            .part_mut(POOL + place.base * UNIT, place.units * UNIT)
    }

    /// The spot of byte `k` of a block, by which [`Store::byte`] and [`Store::set_byte`] find it. It stays the same
    /// while the block is neither given back nor resized.
    pub fn spot(&self, block: Block, k: usize) -> usize
        requires { IsLive self.now.blocks block × (k < length (get_or self.now.blocks.contents block [])) }
        ensures spot { IsSpot self.now (OfBlock block) k result }
        ensures small { result < 2 ^ 42 }
    {
        self.table.recall();
        POOL + place_of(&self.table, block).base * UNIT + k
    }

    /// The byte of low memory or of a block that lies at a spot.
    #[inline(always)]
    pub fn byte(&self, spot: usize) -> u8
        requires { (part : Part) × (k : ℕ) × IsSpot self.now part k spot }
        ensures value { (part : Part) (k : ℕ) → IsSpot self.now part k spot → result ≡ get_or (part_bytes self.now
            part) k 0 }
        ensures small { spot < 2 ^ 42 }
    {
        self.table.recall();
        self.region.part(spot, 1)[0]
    }

    /// Writes the byte of low memory or of a block that lies at a spot. All other bytes stay.
    #[inline(always)]
    pub fn set_byte(&mut self, spot: usize, value: u8)
        requires { (part : Part) × (k : ℕ) × IsSpot self.old part k spot }
        ensures written { (part : Part) (k : ℕ) → IsSpot self.old part k spot →
            self.new ≡ with_part_bytes self.old part (set (part_bytes self.old part) k value) }
        ensures small { spot < 2 ^ 42 }
    {
        self.table.recall();
        self.region.part_mut(spot, 1)[0] = value;
    }

    /// The word whose bytes, each of low memory or of a block, lie at a spot and the next one, low byte first.
    #[inline(always)]
    pub fn word(&self, spot: usize) -> u16
        requires low { (part : Part) × (k : ℕ) × IsSpot self.now part k spot }
        requires high { (part : Part) × (k : ℕ) × IsSpot self.now part k (spot + 1) }
        ensures { (low : Part) (j : ℕ) (high : Part) (k : ℕ) → IsSpot self.now low j spot → IsSpot self.now high k (spot
            + 1) → result ≡ get_or (part_bytes self.now low) j 0 + 256 * get_or (part_bytes self.now high) k 0 }
    {
        self.table.recall();
        let bytes = self.region.part(spot, 2);
        u16::from_le_bytes([bytes[0], bytes[1]])
    }

    /// Writes the word whose bytes, each of low memory or of a block, lie at a spot and the next one, low byte first.
    /// All other bytes stay.
    #[inline(always)]
    pub fn set_word(&mut self, spot: usize, value: u16)
        requires low { (part : Part) × (k : ℕ) × IsSpot self.old part k spot }
        requires high { (part : Part) × (k : ℕ) × IsSpot self.old part k (spot + 1) }
        ensures { (low : Part) (j : ℕ) (high : Part) (k : ℕ) → IsSpot self.old low j spot → IsSpot self.old high k (spot
            + 1) → self.new ≡ with_part_byte (with_part_byte self.old low j (value % 256)) high k (value / 256) }
    {
        self.table.recall();
        let bytes = self.region.part_mut(spot, 2);
        bytes[0] = (value % 0x100) as u8;
        bytes[1] = (value / 0x100) as u8;
    }

    /// Copies `len` bytes of a block, from its byte `from` on, to the place from byte `to` on of another block or the
    /// same one. The two places may overlap: the bytes copied are those that stood in the first before the call. All
    /// other bytes stay.
    pub fn move_bytes(
        &mut self,
        source: Block,
        from: usize,
        destination: Block,
        to: usize,
        len: usize,
    )
        requires source { IsLive self.old.blocks source × (from + len
            ≤ length (get_or self.old.blocks.contents source [])) }
        requires destination { IsLive self.old.blocks destination × (to + len
            ≤ length (get_or self.old.blocks.contents destination [])) }
        ensures { self.new ≡ record self.old { blocks = moved_bytes self.old.blocks source from destination to len } }
    {
        self.table.recall();
        let source = place_of(&self.table, source);
        let destination = place_of(&self.table, destination);
        let (from, to) = (source.base * UNIT + from, destination.base * UNIT + to);
        self.region.copy(POOL + from, POOL + to, len);
    }

    /// Copies `len` bytes of a part, from its byte `from` on, to the place from byte `to` on of another part or the
    /// same one. The two places may overlap: the bytes copied are those that stood in the first before the call. All
    /// other bytes stay.
    pub fn copy(&mut self, source: Part, from: usize, destination: Part, to: usize, len: usize)
        requires source { HasPart self.old source × (from + len ≤ length (part_bytes self.old source)) }
        requires destination { HasPart self.old destination × (to + len ≤ length (part_bytes self.old destination)) }
        ensures { self.new ≡ part_copied self.old source from destination to len }
    {
        self.table.recall();
        let from = start_of(&self.table, source) + from;
        let to = start_of(&self.table, destination) + to;
        self.region
            .fill_up(below_pool(from + len).max(below_pool(to + len)));
        self.region.copy(from, to, len);
    }

    /// The units of the largest gap, 0 if there is none.
    pub fn largest(&self) -> usize
        ensures { result ≡ largest (gaps self.now.blocks.places self.now.blocks.units) }
    {
        if self.in_use {
            let len = pool_len(&self.table);
            free_list::largest(&self.table, self.region.part(POOL, len))
        } else {
            // The whole pool is one gap.
            self.table.units()
        }
    }

    /// How many units of the pool are in no block.
    pub fn free_units(&self) -> usize
        ensures { result ≡ free_units (gaps self.now.blocks.places self.now.blocks.units) }
    {
        if self.in_use {
            let len = pool_len(&self.table);
            free_list::free_units(&self.table, self.region.part(POOL, len))
        } else {
            self.table.units()
        }
    }

    /// All bytes of the store, and where the free list of its pool begins, as a test of the free list reads them.
    /// Blocks do not overlap in the bytes of the pool. Once the pool is in use, the free ones of these can be read, and
    /// list the gaps, rising, from the first gap on; before, it has no block.
    pub fn free_list(&self) -> FreeList<'_>
        ensures region { result.region.now.bytes ≡ self.now.low ++ (self.now.scratch
            ++ drop 0x310000 result.region.now.bytes) }
        ensures sizes { (length self.now.low ≡ 0x110000) × (length self.now.scratch ≡ 0x200000) }
        ensures blocks { IsPool self.now.blocks.units self.now.blocks.places (drop 0x310000 result.region.now.bytes) }
        ensures based { AreBased self.now.blocks.places }
        ensures contents { contents_of self.now.blocks.places (drop 0x310000 result.region.now.bytes)
            ≡ self.now.blocks.contents }
        ensures unused { OnFalse result.in_use (self.now.blocks.places ≡ replicate 576 None) }
        ensures lent { OnTrue result.in_use (result.region.now.to ≤ 0x310000) }
        ensures free { OnTrue result.in_use (Spells (drop 0x310000 result.region.now.bytes) result.first
            (gaps self.now.blocks.places self.now.blocks.units)) }
    {
        self.table.recall();
        let (in_use, first) = (self.in_use, self.table.first());
        FreeList {
            region: &self.region,
            in_use,
            first,
        }
    }

    /// How many blocks of `units` units, at least 1, fit into the gaps, each whole in one gap.
    pub fn count_fitting(&self, units: usize) -> usize
        requires { 0 < units }
        ensures { result ≡ count_fitting units (gaps self.now.blocks.places self.now.blocks.units) }
    {
        if self.in_use {
            let len = pool_len(&self.table);
            free_list::count_fitting(&self.table, self.region.part(POOL, len), units)
        } else {
            self.table.units() / units
        }
    }
}
