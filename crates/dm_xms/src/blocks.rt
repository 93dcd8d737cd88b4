//! Extended memory blocks (XMS 3.0, functions 08h to 0Ah and 0Ch to 0Fh). No function here changes the scratch part of
//! the space.

ghost use Rattle.std.specs.Prelude.{◌≡◌};
ghost use Rattle.dm_xms.specs.Tables.{extended};
ghost use Rattle.dm_xms.specs.Calls.{result_of, state_after};
ghost use Rattle.dm_xms.specs.Consistent.{IsConsistent};
ghost use Rattle.dm_xms.specs.Blocks.{begin_address, free_memory, allocate, deallocate, lock, unlock, information, reallocate};

use crate::status::Status;
use crate::tables::{Handle, Xms};
use dm_pool::Block;
use dm_space::Space;

/// The linear address of the pool's first byte, after the high memory area.
const POOL: usize = 0x11_0000;

/// The size in bytes of a unit of the pool.
const UNIT: usize = 0x400;

/// What is free, in KiB; each number is at most FFFFh.
#[derive(Clone, Copy, Debug)]
pub struct FreeMemory {
    /// The largest gap of the pool.
    pub largest: u16,
    /// All gaps of the pool together.
    pub total: u16,
}

/// What function 0Eh returns about a handle in use.
#[derive(Clone, Copy, Debug)]
pub struct HandleInformation {
    /// The number of locks of its block.
    pub locks: u8,
    /// The number of handles that are not in use.
    pub free: u8,
    /// The size of its block in KiB.
    pub kib: u16,
}

/// The linear address of a block's first byte; 110000h for a block of 0 KiB, and if there is no such block.
fn address(space: &Space, block: Block) -> usize
    ensures { result ≡ begin_address space.now.memory block }
{
    if space.has(block) {
        POOL + UNIT * space.base(block)
    } else {
        POOL
    }
}

impl Handle {
    /// The linear address of the first byte of the handle's block; 110000h for a block of 0 KiB.
    pub fn begin_address(&self, space: &Space) -> usize
        ensures { result ≡ begin_address space.now.memory self.now.block }
    {
        address(space, self.block)
    }
}

impl Xms {
    /// 08h: what is free, in KiB: each number is at most FFFFh, as it is returned in a word register.
    ///
    /// # Errors
    ///
    /// `NoMemory` where the pool has no gap.
    #[tactic(auto, unfolding(crate::specs::Blocks::free_memory))]
    pub fn free_memory(&self, space: &Space) -> Result<FreeMemory, Status>
        ensures { result ≡ free_memory (extended self.now space.now.memory) }
    {
        let largest = space.largest();
        if largest == 0 {
            return Err(Status::NoMemory);
        }
        Ok(FreeMemory {
            largest: largest.min(0xFFFF) as u16,
            total: space.free_units().min(0xFFFF) as u16,
        })
    }

    /// 09h: allocates a block of `kib` KiB with the lowest handle that is not in use, and returns the handle. The
    /// block has zeros and lies in the lowest gap of the pool that holds it; one of 0 KiB needs none.
    ///
    /// # Errors
    ///
    /// In this order: `NoHandleLeft`; `NoMemory` where no gap holds the block, or the pool has no number left; in a
    /// machine it always has one (`block_comes` of `dm_drivers`). Then nothing has changed.
    #[tactic(auto, unfolding(crate::specs::Blocks::allocate))]
    pub fn allocate(&mut self, space: &mut Space, kib: u16) -> Result<u16, Status>
        ensures answer { result ≡ result_of (allocate (extended self.old space.old.memory) kib) }
        ensures left { extended self.new space.new.memory ≡ state_after (extended self.old space.old.memory) (allocate
            (extended self.old space.old.memory) kib) }
        ensures kept { space.new ≡ record space.old { memory = space.new.memory } }
    {
        let Some(at) = self.free_slot() else {
            return Err(Status::NoHandleLeft);
        };
        let Some(block) = space.take(kib as usize) else {
            return Err(Status::NoMemory);
        };
        let locks = 0;
        self.set_handle(at + 1, Some(Handle { block, kib, locks }));
        Ok(at + 1)
    }

    /// 0Ah: frees a handle and its block.
    ///
    /// # Errors
    ///
    /// In this order: `UnknownHandle`; `Locked`. Then nothing has changed.
    #[tactic(auto, unfolding(crate::specs::Blocks::deallocate))]
    pub fn deallocate(&mut self, space: &mut Space, handle: u16) -> Result<(), Status>
        requires { IsConsistent (extended self.old space.old.memory) }
        ensures answer { result ≡ result_of (deallocate (extended self.old space.old.memory) handle) }
        ensures left { extended self.new space.new.memory ≡ state_after (extended self.old space.old.memory) (deallocate
            (extended self.old space.old.memory) handle) }
        ensures kept { space.new ≡ record space.old { memory = space.new.memory } }
    {
        let Some(slot) = self.handle(handle) else {
            return Err(Status::UnknownHandle);
        };
        if slot.is_locked() {
            return Err(Status::Locked);
        }
        space.give(slot.block);
        self.set_handle(handle, None);
        Ok(())
    }

    /// 0Ch: adds one lock to the block of a handle, which is neither moved nor freed while it has one, and returns the
    /// block's linear address.
    ///
    /// # Errors
    ///
    /// In this order: `UnknownHandle`; `TooManyLocks` where it has 255 locks already. Then nothing has changed.
    #[tactic(auto, unfolding(crate::specs::Blocks::lock))]
    pub fn lock(&mut self, space: &Space, handle: u16) -> Result<usize, Status>
        ensures answer { result ≡ result_of (lock (extended self.old space.now.memory) handle) }
        ensures left { extended self.new space.now.memory ≡ state_after (extended self.old space.now.memory) (lock
            (extended self.old space.now.memory) handle) }
    {
        let Some(slot) = self.handle(handle) else {
            return Err(Status::UnknownHandle);
        };
        if slot.locks == 255 {
            return Err(Status::TooManyLocks);
        }
        let locks = slot.locks + 1;
        self.set_handle(handle, Some(Handle { locks, ..slot }));
        Ok(slot.begin_address(space))
    }

    /// 0Dh: removes one lock from the block of a handle.
    ///
    /// # Errors
    ///
    /// In this order: `UnknownHandle`; `NotLocked`. Then nothing has changed.
    #[tactic(auto, unfolding(crate::specs::Blocks::unlock))]
    pub fn unlock(&mut self, handle: u16) -> Result<(), Status>
        ensures answer { result ≡ result_of (unlock self.old handle) }
        ensures left { self.new ≡ state_after self.old (unlock self.old handle) }
    {
        let Some(slot) = self.handle(handle) else {
            return Err(Status::UnknownHandle);
        };
        if slot.locks == 0 {
            return Err(Status::NotLocked);
        }
        let locks = slot.locks - 1;
        self.set_handle(handle, Some(Handle { locks, ..slot }));
        Ok(())
    }

    /// 0Eh: the number of locks and the size of a handle's block, and the number of handles that are not in use.
    ///
    /// # Errors
    ///
    /// `UnknownHandle`.
    #[tactic(auto, unfolding(crate::specs::Blocks::information))]
    pub fn information(&self, handle: u16) -> Result<HandleInformation, Status>
        ensures { result ≡ information self.now handle }
    {
        let Some(slot) = self.handle(handle) else {
            return Err(Status::UnknownHandle);
        };
        Ok(HandleInformation {
            locks: slot.locks,
            free: self.free_handles(),
            kib: slot.kib,
        })
    }

    /// 0Fh: changes the size of the block of a handle to `kib` KiB. It stays where it is if it fits there, else it
    /// moves to the lowest gap that holds it, its old place counted as taken; one of 0 KiB lies at 110000h then. Its
    /// bytes up to the smaller size stay, new ones are zeros.
    ///
    /// # Errors
    ///
    /// In this order: `UnknownHandle`; `Locked`; `NoMemory` where it fits nowhere. Then nothing has changed.
    #[tactic(auto, unfolding(crate::specs::Blocks::reallocate))]
    pub fn reallocate(&mut self, space: &mut Space, handle: u16, kib: u16) -> Result<(), Status>
        requires { IsConsistent (extended self.old space.old.memory) }
        ensures answer { result ≡ result_of (reallocate (extended self.old space.old.memory) handle kib) }
        ensures left { extended self.new space.new.memory ≡ state_after (extended self.old space.old.memory) (reallocate
            (extended self.old space.old.memory) handle kib) }
        ensures kept { space.new ≡ record space.old { memory = space.new.memory } }
    {
        let Some(slot) = self.handle(handle) else {
            return Err(Status::UnknownHandle);
        };
        if slot.is_locked() {
            return Err(Status::Locked);
        }
        if !space.resize(slot.block, kib as usize) {
            return Err(Status::NoMemory);
        }
        self.set_handle(handle, Some(Handle { kib, ..slot }));
        Ok(())
    }
}
