//! The table of a pool: where each block lies, by its number; the order in which the blocks lie; and where the free
//! list begins.
ghost use Rattle.std.specs.Prelude.{◌≡◌, ◌↔◌, IsTrue, ℕ, ◌+◌, ◌^◌, ◌<◌, ◌≤◌, true, false, Some, None, get_or, set, length, replicate, IfSome, MatchOption};
ghost use Rattle.dm_pool.specs.Gaps.{is_clear, are_free, first_empty};
ghost use Rattle.dm_pool.specs.inner.Order.{no_layout, IsNth, IsOrder, IsTable};

use crate::extent::Extent;
use arrayvec::ArrayVec;
use std::marker::Model;

/// The most blocks of a pool.
pub(crate) const SLOTS: usize = 576;

/// Where the blocks of a pool of `units` units lie; None for a number that has no block.
#[derive(Drop)]
pub(crate) struct Table {
    units: usize,
    places: [Option<Extent>; SLOTS],
    /// The numbers of the blocks that have units, rising by the place of the block.
    order: ArrayVec<u16, SLOTS>,
    /// The unit where the first gap begins, `u32::MAX` for none.
    first: u32,
}

impl Model for Table {
    ghost use Rattle.dm_pool.specs.inner.Order.{Layout, IsTable};

    ghost Value = { Layout };

    ghost view = { λ t. record { units = t.units; places = t.places; order = t.order.items; first = t.first } };

    ghost invariant = { λ t. IsTable (record {
      units = t.units;
      places = t.places;
      order = t.order.items;
      first = t.first;
    }) };
}

/// A table with no block for a pool of `units` units; where the first gap begins is not set yet.
#[tactic(auto, unfolding(crate::specs::inner::Order::no_layout))]
fn no_blocks(units: usize) -> Table
    requires { units < 2 ^ 31 }
    ensures { result ≡ no_layout units }
{
    Table {
        units,
        places: [None; SLOTS],
        order: ArrayVec::new(),
        first: u32::MAX,
    }
}

/// How many blocks of `order` begin below the unit `base`: as blocks are in rising order, the position where a block
/// with that base belongs.
fn rank(places: &[Option<Extent>], order: &[u16], base: usize) -> usize
    requires order { IsOrder places.now order.now }
    requires count { length places.now ≡ 576 }
    ensures within { result ≤ length order.now }
    ensures below { (p : ℕ) (b : Extent) → p < result → IsNth places.now order.now p b → b.base < base }
    ensures above { (p : ℕ) (b : Extent) → result ≤ p → p < length order.now → IsNth places.now order.now p b →
        base ≤ b.base }
{
    for i in 0..order.len() {
        let slot = order[i] as usize;
        let Some(place) = places[slot] else {
            return i;
        };
        if place.base >= base {
            return i;
        }
    }
    order.len()
}

/// The lowest number that has no block, None if each number has one.
fn first_empty(places: &[Option<Extent>]) -> Option<usize>
    ensures first { result ≡ first_empty places.now }
    ensures vacant { IfSome result (λ i. (i < length places.now) × (get_or places.now i None ≡ None)) }
{
    for i in 0..places.len() {
        match places[i] {
            None => return Some(i),
            Some(_) => {}
        }
    }
    None
}

/// Whether no block but that with the number `slot` overlaps the `units` units from `from` on.
fn is_clear_but(places: &[Option<Extent>], slot: usize, from: usize, units: usize) -> bool
    requires bounded { (i : ℕ) (b : _) → get_or places.now i None ≡ Some b → b.base + b.units < 2 ^ 31 }
    requires range { from + units < 2 ^ 31 }
    ensures { result ≡ is_clear (set places.now slot None) from units }
{
    for i in 0..places.len() {
        if i == slot {
            continue;
        }
        let Some(place) = places[i] else {
            continue;
        };
        if place.base < from + units && from < place.base + place.units {
            return false;
        }
    }
    true
}

/// Puts the number of a block that lies at `place` into the order, at its position, if the block has units.
fn order_in(order: &mut ArrayVec<u16, SLOTS>, places: &[Option<Extent>], slot: usize, place: Extent)
    requires order { IsOrder places.now order.old.items }
    requires count { length places.now ≡ 576 }
    requires vacant { (slot < 576) × (get_or places.now slot None ≡ None) }
    requires free { is_clear places.now place.base place.units ≡ true }
    ensures { IsOrder (set places.now slot (Some place)) order.new.items }
{
    if place.units > 0 {
        let position = rank(places, order, place.base);
        order.insert(position, slot as u16);
    }
}

/// Takes the number of a block that lies at `place` out of the order, if the block has units.
fn order_out(
    order: &mut ArrayVec<u16, SLOTS>,
    places: &[Option<Extent>],
    slot: usize,
    place: Extent,
)
    requires order { IsOrder places.now order.old.items }
    requires count { length places.now ≡ 576 }
    requires live { (slot < 576) × (get_or places.now slot None ≡ Some place) }
    ensures { IsOrder (set places.now slot None) order.new.items }
{
    if place.units > 0 {
        let position = rank(places, order, place.base);
        order.remove(position);
    }
}

/// The same numbers in the same order.
fn same_order(order: &ArrayVec<u16, SLOTS>) -> ArrayVec<u16, SLOTS>
    ensures { result.items ≡ order.now.items }
{
    let mut same = ArrayVec::new();
    let _ = same.try_extend_from_slice(order);
    same
}

impl Table {
    /// A table with no block for a pool of `units` units; where the first gap begins is not set yet.
    pub(crate) fn new(units: usize) -> Table
        requires { units < 2 ^ 31 }
        ensures { result ≡ no_layout units }
    {
        no_blocks(units)
    }

    /// Another table with the same blocks, the same order, and the same first gap.
    pub(crate) fn duplicate(&self) -> Table
        ensures { result ≡ self.now }
    {
        Table {
            units: self.units,
            places: self.places,
            order: same_order(&self.order),
            first: self.first,
        }
    }

    /// Does nothing; proofs take from its contract what holds of every table.
    #[inline(always)]
    pub(crate) fn recall(&self)
        ensures { IsTable self.now }
    {
        let _units = self.units;
    }

    /// How many units the pool has.
    pub(crate) fn units(&self) -> usize
        ensures { result ≡ self.now.units }
    {
        self.units
    }

    /// The unit where the first gap begins, `u32::MAX` for none.
    pub(crate) fn first(&self) -> u32
        ensures { result ≡ self.now.first }
    {
        self.first
    }

    /// Sets the unit where the first gap begins, `u32::MAX` for none.
    pub(crate) fn set_first(&mut self, first: u32)
        ensures { self.new ≡ record self.old { first = first } }
    {
        self.first = first;
    }

    /// Whether there is a block with the number `slot`.
    pub(crate) fn has(&self, slot: usize) -> bool
        requires { slot < 576 }
        ensures { IsTrue result ↔ ((b : _) × (get_or self.now.places slot None ≡ Some b)) }
    {
        match self.places[slot] {
            Some(_) => true,
            None => false,
        }
    }

    /// Where the block with the number `slot` lies.
    pub(crate) fn place(&self, slot: usize) -> Extent
        requires { (slot < 576) × ((b : _) × (get_or self.now.places slot None ≡ Some b)) }
        ensures { get_or self.now.places slot None ≡ Some result }
    {
        match self.places[slot] {
            Some(place) => place,
            None => unreachable!(),
        }
    }

    /// How many blocks have units.
    pub(crate) fn count(&self) -> usize
        ensures { result ≡ length self.now.order }
    {
        self.order.len()
    }

    /// Where the block at a position of the order lies.
    pub(crate) fn nth(&self, position: usize) -> Extent
        requires { position < length self.now.order }
        ensures { IsNth self.now.places self.now.order position result }
    {
        let slot = self.order[position] as usize;
        match self.places[slot] {
            Some(place) => place,
            None => Extent { base: 0, units: 0 },
        }
    }

    /// The lowest number that has no block, None if each of the 576 has one.
    pub(crate) fn first_empty(&self) -> Option<usize>
        ensures first { result ≡ first_empty self.now.places }
        ensures vacant { IfSome result (λ i. (i < 576) × (get_or self.now.places i None ≡ None)) }
    {
        first_empty(&self.places)
    }

    /// Whether the `units` units from `from` on are in the pool, and no block but that with the number `slot` overlaps
    /// them.
    pub(crate) fn is_free_but(&self, slot: usize, from: usize, units: usize) -> bool
        requires { from ≤ self.now.units }
        ensures { result ≡ are_free (set self.now.places slot None) self.now.units units from }
    {
        if units > self.units - from {
            return false;
        }
        is_clear_but(&self.places, slot, from, units)
    }

    /// Enters a block at `place` under `slot`, a number that has no block. Where the first gap begins is not changed.
    pub(crate) fn put(&mut self, slot: usize, place: Extent)
        requires vacant { (slot < 576) × (get_or self.old.places slot None ≡ None) }
        requires within { place.base + place.units ≤ self.old.units }
        requires free { is_clear self.old.places place.base place.units ≡ true }
        requires based { place.units ≡ 0 → place.base ≡ 0 }
        ensures places { self.new.places ≡ set self.old.places slot (Some place) }
        ensures units { self.new.units ≡ self.old.units }
        ensures first { self.new.first ≡ self.old.first }
    {
        order_in(&mut self.order, &self.places, slot, place);
        self.places[slot] = Some(place);
    }

    /// Removes the block with the number `slot`. Where the first gap begins is not changed.
    pub(crate) fn remove(&mut self, slot: usize)
        requires { (slot < 576) × ((b : _) × (get_or self.old.places slot None ≡ Some b)) }
        ensures places { self.new.places ≡ set self.old.places slot None }
        ensures units { self.new.units ≡ self.old.units }
        ensures first { self.new.first ≡ self.old.first }
    {
        let place = self.place(slot);
        order_out(&mut self.order, &self.places, slot, place);
        self.places[slot] = None;
    }
}
