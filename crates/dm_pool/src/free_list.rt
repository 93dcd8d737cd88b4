//! The free list: the gaps of the pool, kept in the free bytes themselves. A gap begins with its length in units and
//! the unit where the next gap begins, four bytes each, low byte first; FFFFFFFFh stands for no gap.
ghost use Rattle.std.specs.Prelude.{◌≡◌, ℕ, ◌+◌, ◌-◌, ◌*◌, ◌^◌, ◌<◌, ◌≤◌, length};
ghost use Rattle.dm_pool.specs.Blocks.{contents_of};
ghost use Rattle.dm_pool.specs.FreeList.{double_word};
ghost use Rattle.dm_pool.specs.inner.FreeList.{IsBelow, IsKeptOutside, Tells};
ghost use Rattle.dm_pool.specs.Gaps.{lowest, gaps, free_units, largest, count_fitting};
ghost use Rattle.dm_pool.specs.inner.Order.{IsCut, IsToldIn};

use crate::extent::{Extent, UNIT};
use crate::table::Table;
use byteorder::{ByteOrder, LittleEndian};
use dm_region::Region;

/// Stands for no gap, where else the first unit of a gap stands.
const NOWHERE: u32 = u32::MAX;

/// The gaps of a pool, as its bytes list them: the first four bytes of a gap are its length in units, the next four
/// the unit where the next gap begins, low byte first.
#[derive(Clone, Copy)]
pub struct FreeList<'a> {
    /// All bytes of a store: the low bytes, the scratch bytes, and from the byte 310000h on those of the pool, its
    /// blocks among them.
    pub region: &'a Region,
    /// Whether the pool is in use, as it is from the first call on that takes a block. Before, it has no block, and its
    /// bytes list nothing.
    pub in_use: bool,
    /// The unit of the pool where the first gap begins; FFFFFFFFh where there is none.
    pub first: u32,
}

/// The first eight bytes of a gap.
#[derive(Clone, Copy)]
pub(crate) struct GapStart {
    /// Its length in units.
    pub(crate) units: u32,
    /// The unit where the next gap begins, `NOWHERE` if there is none.
    pub(crate) next: u32,
}

/// The first eight bytes of the gap that begins at a unit of the pool.
pub(crate) fn gap_at(bytes: &[u8], unit: usize) -> GapStart
    requires { (unit * 1024 + 8 ≤ length bytes.now) × (unit < 2 ^ 31) }
    ensures { (result.units ≡ double_word bytes.now (unit * 1024)) × (result.next
        ≡ double_word bytes.now (unit * 1024 + 4)) }
{
    let at = unit * UNIT;
    GapStart {
        units: LittleEndian::read_u32(&bytes[at..at + 4]),
        next: LittleEndian::read_u32(&bytes[at + 4..at + 8]),
    }
}

/// Writes a number of a gap into the four bytes of the pool from `at` on, low byte first. The other bytes stay.
fn write_word(bytes: &mut [u8], at: usize, value: u32)
    requires { at + 4 ≤ length bytes.old }
    ensures value { double_word bytes.new at ≡ value }
    ensures kept { IsKeptOutside bytes.old at 4 bytes.new }
{
    LittleEndian::write_u32(&mut bytes[at..at + 4], value);
}

/// Writes the length of a gap and where the next one begins into the first eight bytes of a unit. The other bytes stay.
fn write_gap(bytes: &mut [u8], unit: usize, gap: GapStart)
    requires { (unit * 1024 + 8 ≤ length bytes.old) × (unit < 2 ^ 31) }
    ensures units { double_word bytes.new (unit * 1024) ≡ gap.units }
    ensures next { double_word bytes.new (unit * 1024 + 4) ≡ gap.next }
    ensures kept { IsKeptOutside bytes.old (unit * 1024) 8 bytes.new }
{
    let at = unit * UNIT;
    write_word(bytes, at, gap.units);
    write_word(bytes, at + 4, gap.next);
}

/// The place of the highest of the first `rest` blocks of the table's order; for a `rest` of 0, no unit at unit 0.
fn highest(table: &Table, rest: usize) -> Extent
    requires { rest ≤ length table.now.order }
    ensures below { (end : ℕ) → IsCut table.now.places table.now.order rest end → IsBelow table.now.places end result }
    ensures cut { (end : ℕ) → IsCut table.now.places table.now.order rest end →
        IsCut table.now.places table.now.order (rest - 1) result.base }
{
    table.recall();
    if rest == 0 {
        return Extent { base: 0, units: 0 };
    }
    table.nth(rest - 1)
}

/// Writes the beginnings of all gaps into the free bytes of the pool, from the highest down. Returns the unit
/// where the lowest one begins, `NOWHERE` if there is none. The bytes of the blocks stay.
pub(crate) fn spell(table: &Table, bytes: &mut [u8]) -> u32
    requires { length bytes.old ≡ table.now.units * 1024 }
    ensures contents { contents_of table.now.places bytes.new ≡ contents_of table.now.places bytes.old }
    ensures told { Tells table.now.places table.now.units 0 result bytes.new }
{
    table.recall();
    let mut end = table.units();
    let mut next = NOWHERE;
    let mut rest = table.count();
    while end > 0 {
        let top = highest(table, rest);
        rest = rest.saturating_sub(1);
        let edge = top.base + top.units;
        if edge < end {
            let units = (end - edge) as u32;
            write_gap(bytes, edge, GapStart { units, next });
            next = edge as u32;
        }
        end = top.base;
    }
    next
}

/// The unit where the lowest gap of at least `wanted` units begins, None if there is none. It follows the free list.
pub(crate) fn first_fit(table: &Table, bytes: &[u8], wanted: usize) -> Option<usize>
    requires told { IsToldIn table.now bytes.now }
    requires some { 0 < wanted }
    ensures { result ≡ lowest table.now.places table.now.units wanted }
{
    table.recall();
    let mut at = table.first();
    while at != NOWHERE {
        let gap = gap_at(bytes, at as usize);
        if wanted <= gap.units as usize {
            return Some(at as usize);
        }
        at = gap.next;
    }
    None
}

/// How many units are in no block. It follows the free list.
pub(crate) fn free_units(table: &Table, bytes: &[u8]) -> usize
    requires { IsToldIn table.now bytes.now }
    ensures { result ≡ free_units (gaps table.now.places table.now.units) }
{
    table.recall();
    let mut sum = 0usize;
    let mut at = table.first();
    while at != NOWHERE {
        let gap = gap_at(bytes, at as usize);
        sum += gap.units as usize;
        at = gap.next;
    }
    sum
}

/// The units of the largest gap, 0 if there is none. It follows the free list.
pub(crate) fn largest(table: &Table, bytes: &[u8]) -> usize
    requires { IsToldIn table.now bytes.now }
    ensures { result ≡ largest (gaps table.now.places table.now.units) }
{
    table.recall();
    let mut most = 0usize;
    let mut at = table.first();
    while at != NOWHERE {
        let gap = gap_at(bytes, at as usize);
        most = most.max(gap.units as usize);
        at = gap.next;
    }
    most
}

/// How many blocks of `units` units fit into the gaps, each whole in one gap. It follows the free list.
pub(crate) fn count_fitting(table: &Table, bytes: &[u8], units: usize) -> usize
    requires told { IsToldIn table.now bytes.now }
    requires some { 0 < units }
    ensures { result ≡ count_fitting units (gaps table.now.places table.now.units) }
{
    table.recall();
    let mut count = 0usize;
    let mut at = table.first();
    while at != NOWHERE {
        let gap = gap_at(bytes, at as usize);
        count += gap.units as usize / units;
        at = gap.next;
    }
    count
}
