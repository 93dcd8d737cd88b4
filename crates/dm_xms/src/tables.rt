//! The tables of extended memory (XMS 3.0): handles in use, the high memory area, the switches of A20, and upper
//! memory blocks.

ghost use Rattle.std.specs.Prelude.{◌≡◌, ◌<◌, ◌≤◌, ◌-◌, length, slice_set, position, is_none, count_by, nat_lt, IfSome};
ghost use Rattle.std.specs.Option.{option_map};
ghost use Rattle.dm_xms.specs.Tables.{new_tables};
ghost use Rattle.dm_xms.specs.Calls.{slot};

use arrayvec::ArrayVec;
use dm_pool::Block;
use std::marker::Model;

/// The number of handles, which are 1 to 64.
pub(crate) const HANDLES: usize = 64;

/// The entry of a handle in use.
#[derive(Clone, Copy, Debug)]
pub struct Handle {
    /// Its block of the pool.
    pub block: Block,
    /// The size of the block in KiB.
    pub kib: u16,
    /// The number of locks of the block.
    pub locks: u8,
}

impl Handle {
    /// Whether its block has a lock.
    pub(crate) fn is_locked(&self) -> bool
        ensures { result ≡ nat_lt 0 self.now.locks }
    {
        self.locks > 0
    }
}

/// An upper memory block, by its first segment and its size.
#[derive(Clone, Copy, Debug, Default)]
pub struct Upper {
    /// Its segment, D000h to DFFFh.
    pub segment: u16,
    /// Its size in paragraphs, at least 1.
    pub paragraphs: u16,
}

/// The tables of the extended memory driver: the handles, whether the high memory area is taken, the global switch
/// and the local count of A20, and the upper memory blocks by rising segment. Contracts see all of them.
#[derive(Drop)]
pub struct Xms {
    pub(crate) handles: [Option<Handle>; 64],
    pub(crate) area: bool,
    pub(crate) global: bool,
    pub(crate) local: u16,
    pub(crate) uppers: ArrayVec<Upper, 64>,
}

impl Model for Xms {
    ghost use Rattle.dm_xms.specs.Tables.{Tables};
    ghost use Rattle.dm_xms.specs.inner.Tables.{IsTables};

    ghost Value = { Tables };

    ghost view = { λ x. record {
      handles = x.handles;
      area = x.area;
      global = x.global;
      local = x.local;
      uppers = x.uppers.items;
    } };

    ghost invariant = { λ x. IsTables (record {
      handles = x.handles;
      area = x.area;
      global = x.global;
      local = x.local;
      uppers = x.uppers.items;
    }) };
}

/// The index of the first handle that is not in use; None if all are.
fn first_free(slots: &[Option<Handle>]) -> Option<usize>
    ensures first { result ≡ position is_none slots.now }
    ensures there { IfSome result (λ k. k < length slots.now) }
{
    slots.iter().position(|slot| slot.is_none())
}

/// The same upper memory blocks in the same order.
fn same_uppers(uppers: &ArrayVec<Upper, 64>) -> ArrayVec<Upper, 64>
    ensures { result.items ≡ uppers.now.items }
{
    let mut same = ArrayVec::new();
    let _ = same.try_extend_from_slice(uppers);
    same
}

impl Xms {
    /// The same tables once more.
    pub fn duplicate(&self) -> Xms
        ensures { result ≡ self.now }
    {
        let mut handles = [None; HANDLES];
        handles.copy_from_slice(&self.handles);
        Xms {
            handles,
            area: self.area,
            global: self.global,
            local: self.local,
            uppers: same_uppers(&self.uppers),
        }
    }

    /// The tables of a new machine: no handle is in use, the high memory area and upper memory are free, and A20 is
    /// off.
    pub fn new() -> Xms
        ensures { result ≡ new_tables }
    {
        Xms {
            handles: [None; HANDLES],
            area: false,
            global: false,
            local: 0,
            uppers: ArrayVec::new(),
        }
    }

    /// The entry of a handle: its block, size and locks; None where it is not in use, or is not one of 1 to 64.
    pub fn handle(&self, handle: u16) -> Option<Handle>
        ensures slot { result ≡ slot self.now handle }
        ensures inside { IfSome result (λ s. (0 < handle) × (handle - 1 < 64)) }
    {
        if handle == 0 {
            return None;
        }
        let at = handle as usize - 1;
        if at < HANDLES { self.handles[at] } else { None }
    }

    /// The entry of a handle, lent; None where it is not in use, or is not one of 1 to 64.
    pub(crate) fn entry(&self, handle: u16) -> Option<&Handle>
        ensures { option_map (λ s. s.now) result ≡ slot self.now handle }
    {
        if handle == 0 {
            return None;
        }
        let index = handle as usize - 1;
        if index < HANDLES {
            match &self.handles[index] {
                Some(entry) => Some(entry),
                None => None,
            }
        } else {
            None
        }
    }

    /// Sets the entry of a handle, 1 to 64; with None the handle is no longer in use. Other entries stay.
    pub(crate) fn set_handle(&mut self, handle: u16, slot: Option<Handle>)
        requires { (0 < handle) × (handle - 1 < 64) }
        ensures { self.new ≡ record self.old { handles = slice_set self.old.handles (handle - 1) slot } }
    {
        self.handles[handle as usize - 1] = slot;
    }

    /// The lowest handle that is not in use, less 1, which is its index in the table; None if all 64 are in use.
    pub(crate) fn free_slot(&self) -> Option<u16>
        ensures first { result ≡ position is_none self.now.handles }
        ensures low { IfSome result (λ at. at < 64) }
    {
        match first_free(&self.handles) {
            Some(at) => Some(at as u16),
            None => None,
        }
    }

    /// The number of handles that are not in use.
    pub(crate) fn free_handles(&self) -> u8
        ensures { result ≡ count_by is_none self.now.handles }
    {
        self.handles.iter().filter(|slot| slot.is_none()).count() as u8
    }

    /// Whether the high memory area is taken.
    pub fn hma(&self) -> bool
        ensures { result ≡ self.now.area }
    {
        self.area
    }
}
