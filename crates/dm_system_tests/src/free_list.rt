//! The free list of a pool, which is kept in its free bytes, and what else a store keeps in its region.

use crate::checks::same;
use dm_pool::{Block, Part, Sizes, Store, UNIT};
use dm_region::Region;
use std::process::Abort;
use std::test::Fail;

/// The byte of a store's region where the pool begins.
const POOL: usize = 0x31_0000;

/// The bytes of the pool; None before the pool is in use.
fn pool(store: &Store) -> Option<&[u8]> {
    let list = store.free_list();
    if list.in_use {
        Some(list.region.part(POOL, list.region.len() - POOL))
    } else {
        None
    }
}

/// The first eight bytes of a unit of the pool, where a gap keeps its length and the unit of the next one; zeros
/// before the pool is in use.
fn beginning(store: &Store, unit: usize) -> [u8; 8] {
    let mut bytes = [0; 8];
    if let Some(pool) = pool(store) {
        if unit < 4 && pool.len() == 4 * UNIT {
            bytes.copy_from_slice(&pool[unit * UNIT..unit * UNIT + 8]);
        }
    }
    bytes
}

fn give(store: &mut Store, block: Option<Block>) {
    if let Some(block) = block {
        if store.has(block) {
            store.give(block);
        }
    }
}

fn base_of(store: &Store, block: Option<Block>) -> Option<usize> {
    let block = block?;
    if store.has(block) {
        Some(store.base(block))
    } else {
        None
    }
}

/// What the last gap has in place of the next one's unit.
const NO_UNIT: [u8; 4] = [0xFF; 4];

/// Compares the gap at a unit with its length and the next one's unit.
fn has_gap(rt: &impl Abort, what: &str, store: &Store, unit: usize, len: u8, next: [u8; 4]) {
    let wanted = [len, 0, 0, 0, next[0], next[1], next[2], next[3]];
    same(rt, what, beginning(store, unit), wanted);
}

/// Definitions: dm_pool FreeList Spells double_word
#[test]
fn free_bytes_tell_the_gaps(rt: HostRuntime) -> Result<(), Fail> {
    let sizes = Sizes {
        ems_pages: 0,
        xms_kib: 4,
    };
    let mut store = Store::new(rt.alloc(), sizes)?;
    same(&rt, "a new pool", store.free_list().in_use, false);
    let first = store.take(1);
    has_gap(&rt, "one gap of three units", &store, 1, 3, NO_UNIT);
    same(&rt, "the first gap", store.free_list().first, 1);
    give(&mut store, first);
    has_gap(&rt, "one gap of four units", &store, 0, 4, NO_UNIT);
    let _first = store.take(1);
    let second = store.take(1);
    let third = store.take(1);
    let fourth = store.take(1);
    give(&mut store, second);
    has_gap(&rt, "a gap of one unit", &store, 1, 1, NO_UNIT);
    give(&mut store, fourth);
    has_gap(&rt, "the next gap is at unit 3", &store, 1, 1, [3, 0, 0, 0]);
    has_gap(&rt, "the last gap", &store, 3, 1, NO_UNIT);
    give(&mut store, third);
    has_gap(&rt, "three units are one gap", &store, 1, 3, NO_UNIT);
    let two = store.take(2);
    same(&rt, "units 1 and 2", base_of(&store, two), Some(1));
    has_gap(&rt, "zeros", &store, 1, 0, [0; 4]);
    has_gap(&rt, "the gap that is left", &store, 3, 1, NO_UNIT);
    same(&rt, "no more two units", store.take(2).is_none(), true);
    let one = store.take(1);
    same(&rt, "unit 3", base_of(&store, one), Some(3));
    Ok(())
}

fn byte(region: &Region, at: usize) -> Option<u8> {
    if at >= region.len() {
        return None;
    }
    if at < region.hole_start() || region.hole_end() <= at {
        region.part(at, 1).first().copied()
    } else {
        None
    }
}

fn put_first(bytes: &mut [u8], value: u8) {
    if let [first, ..] = bytes {
        *first = value;
    }
}

/// Definitions: dm_pool Stored Stored
#[test]
fn all_bytes_are_one_region(rt: HostRuntime) -> Result<(), Fail> {
    let sizes = Sizes {
        ems_pages: 0,
        xms_kib: 4,
    };
    let mut store = Store::new(rt.alloc(), sizes)?;
    put_first(store.low_mut(), 1);
    put_first(store.scratch_mut(1), 2);
    let list = store.free_list();
    same(&rt, "all bytes", list.region.len(), 0x31_1000);
    same(&rt, "low bytes first", byte(list.region, 0), Some(1));
    same(&rt, "then scratch", byte(list.region, 0x11_0000), Some(2));
    same(&rt, "no pool yet", byte(list.region, POOL), None);
    let _first = store.take(0);
    let list = store.free_list();
    same(&rt, "then 4 units", byte(list.region, POOL), Some(4));
    Ok(())
}

#[test]
fn scratch_is_filled_as_far_as_asked(rt: HostRuntime) -> Result<(), Fail> {
    let sizes = Sizes {
        ems_pages: 0,
        xms_kib: 0,
    };
    let mut store = Store::new(rt.alloc(), sizes)?;
    put_first(store.low_mut(), 7);
    same(&rt, "low bytes", store.low().len(), 0x11_0000);
    same(&rt, "no scratch bytes yet", store.scratch().len(), 0);
    store.copy(Part::Low, 0, Part::Scratch, 5, 3);
    let copied = store.scratch();
    same(&rt, "bytes", copied, [0, 0, 0, 0, 0, 7, 0, 0].as_slice());
    same(&rt, "low bytes", store.low().len(), 0x11_0000);
    same(&rt, "eight bytes", store.scratch().len(), 8);
    store.copy(Part::Low, 0, Part::Scratch, 2, 1);
    same(&rt, "no more", store.scratch().len(), 8);
    same(&rt, "a copy", store.scratch().get(2).copied(), Some(7));
    Ok(())
}
