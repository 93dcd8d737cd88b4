//! How blocks are taken, given back and resized, over the table of blocks and the bytes of the pool.
ghost use Rattle.std.specs.Prelude.{◌≡◌, ◌+◌, ◌*◌, ◌^◌, ◌<◌, ◌≤◌, true, set, length, IfSome, MatchOption};
ghost use Rattle.std.specs.Bool.{MatchBool};
ghost use Rattle.dm_region.specs.Parts.{with_part};
ghost use Rattle.dm_pool.specs.Gaps.{is_clear, lowest};
ghost use Rattle.dm_pool.specs.Blocks.{taken, without, new_base, resized, content, contents_of, fitted, zeros, IsAt, IsLive};
ghost use Rattle.dm_pool.specs.inner.Order.{blocks_in, IsToldIn};

use crate::extent::{Extent, UNIT};
use crate::free_list::{first_fit, spell};
use crate::table::Table;

/// The first unit of the lowest gap that holds `units` units, 0 for no unit; None if no gap holds them. `bytes` are
/// those of the pool.
fn lowest_gap(table: &Table, bytes: &[u8], units: usize) -> Option<usize>
    requires { IsToldIn table.now bytes.now }
    ensures lowest { result ≡ lowest table.now.places table.now.units units }
    ensures free { IfSome result (λ base. (base + units ≤ table.now.units) ×
        (is_clear table.now.places base units ≡ true) × (units ≡ 0 → base ≡ 0)) }
{
    if units == 0 {
        return Some(0);
    }
    first_fit(table, bytes, units)
}

/// Writes zeros into the `units` units of the pool from the unit `base` on. The other bytes stay.
fn clear(bytes: &mut [u8], base: usize, units: usize)
    requires { (base * 1024 + units * 1024 ≤ length bytes.old) × (base + units < 2 ^ 31) }
    ensures { bytes.new ≡ with_part bytes.old (base * 1024) (units * 1024) (zeros units) }
{
    let from = base * UNIT;
    bytes[from..from + units * UNIT].fill(0);
}

/// Writes the free list anew for the blocks that the table has now: the gaps into the free bytes of the pool, the first
/// unit of the first gap into the table. The blocks, their places and their bytes stay.
fn retell(table: &mut Table, bytes: &mut [u8])
    requires { length bytes.old ≡ table.old.units * 1024 }
    ensures told { IsToldIn table.new bytes.new }
    ensures units { table.new.units ≡ table.old.units }
    ensures places { table.new.places ≡ table.old.places }
    ensures contents { contents_of table.old.places bytes.new ≡ contents_of table.old.places bytes.old }
{
    let first = spell(table, bytes);
    table.set_first(first);
}

/// Takes a block of `units` units, all zeros, in the lowest gap that holds them, or at unit 0 for no unit: enters it
/// into the table, clears its bytes and writes the free list anew; the other blocks stay. Returns its number, the
/// lowest that was free. None where no gap holds its units, or where all 576 numbers are taken; then nothing has
/// changed.
pub(crate) fn take(table: &mut Table, bytes: &mut [u8], units: usize) -> Option<usize>
    requires { IsToldIn table.old bytes.old }
    ensures told { IsToldIn table.new bytes.new }
    ensures units { table.new.units ≡ table.old.units }
    ensures small { IfSome result (λ slot. slot < 576) }
    ensures taken { MatchOption result ((taken (blocks_in table.old bytes.old) units ≡ None) × (table.new ≡ table.old) ×
        (bytes.new ≡ bytes.old)) (λ slot. taken (blocks_in table.old bytes.old) units ≡ Some (
          slot,
          blocks_in table.new bytes.new,
        )) }
{
    table.recall();
    let slot = table.first_empty()?;
    let base = lowest_gap(table, bytes, units)?;
    clear(bytes, base, units);
    table.put(slot, Extent { base, units });
    retell(table, bytes);
    Some(slot)
}

/// Gives the block with the number `slot` back: removes it from the table and writes the free list anew. The other
/// blocks stay as they are.
pub(crate) fn give(table: &mut Table, bytes: &mut [u8], slot: usize)
    requires told { IsToldIn table.old bytes.old }
    requires live { IsLive (blocks_in table.old bytes.old) slot }
    ensures told { IsToldIn table.new bytes.new }
    ensures units { table.new.units ≡ table.old.units }
    ensures blocks { blocks_in table.new bytes.new ≡ without (blocks_in table.old bytes.old) slot }
{
    table.recall();
    table.remove(slot);
    retell(table, bytes);
}

/// The first unit that the block with the number `slot` gets if it is resized to `units` units: its own if the units
/// there are its own or free, else that of the lowest gap that holds them, its old place counted as taken. 0 for no
/// unit; None if there is no place for it.
fn new_base(table: &Table, bytes: &[u8], slot: usize, units: usize) -> Option<usize>
    requires told { IsToldIn table.now bytes.now }
    requires live { IsLive (blocks_in table.now bytes.now) slot }
    ensures base { (b : _) → IsAt (blocks_in table.now bytes.now) slot b → result ≡ new_base (blocks_in table.now
        bytes.now) slot b units }
    ensures free { IfSome result (λ base. (base + units ≤ table.now.units) ×
        (is_clear (set table.now.places slot None) base units ≡ true) × (units ≡ 0 → base ≡ 0)) }
{
    if units == 0 {
        return Some(0);
    }
    table.recall();
    let place = table.place(slot);
    if table.is_free_but(slot, place.base, units) {
        return Some(place.base);
    }
    first_fit(table, bytes, units)
}

/// Copies a block's bytes, up to the smaller size, from one place of the pool to another, which may overlap the first,
/// and fills the rest of the new place with zeros. All bytes outside the new place stay.
fn move_block(bytes: &mut [u8], from: Extent, to: Extent)
    requires source { from.base * 1024 + from.units * 1024 ≤ length bytes.old }
    requires destination { to.base * 1024 + to.units * 1024 ≤ length bytes.old }
    requires small { (from.base + from.units < 2 ^ 31) × (to.base + to.units < 2 ^ 31) }
    ensures { bytes.new ≡ with_part bytes.old (to.base * 1024) (to.units * 1024) (fitted
        (content bytes.old (Some from)) to.units) }
{
    let kept = from.units.min(to.units);
    let start = from.base * UNIT;
    bytes.copy_within(start..start + kept * UNIT, to.base * UNIT);
    clear(bytes, to.base + kept, to.units - kept);
}

/// Gives the block with the number `slot` another size, and another place where `new_base` says so: bytes up to the
/// smaller size stay, new ones are zeros. The free list is written anew; the other blocks stay as they are. False where
/// no place holds it, and then nothing has changed.
pub(crate) fn resize(table: &mut Table, bytes: &mut [u8], slot: usize, units: usize) -> bool
    requires told { IsToldIn table.old bytes.old }
    requires live { IsLive (blocks_in table.old bytes.old) slot }
    ensures told { IsToldIn table.new bytes.new }
    ensures units { table.new.units ≡ table.old.units }
    ensures resized { MatchBool result (resized (blocks_in table.old bytes.old) slot units
        ≡ Some (blocks_in table.new bytes.new)) ((resized (blocks_in table.old bytes.old) slot units ≡ None) ×
        (table.new ≡ table.old) × (bytes.new ≡ bytes.old)) }
{
    let Some(base) = new_base(table, bytes, slot, units) else {
        return false;
    };
    table.recall();
    let place = Extent { base, units };
    move_block(bytes, table.place(slot), place);
    table.remove(slot);
    table.put(slot, place);
    retell(table, bytes);
    true
}
