//! Handles and their pages (LIM EMS 4.0, functions 3, 4, 6, 12 and 13; INT 67h functions 42h, 43h, 45h, 4Bh and 4Ch).

ghost use Rattle.std.specs.Prelude.{◌≡◌};
ghost use Rattle.dm_ems.specs.Tables.{expanded};
ghost use Rattle.dm_ems.specs.Consistent.{IsConsistent};
ghost use Rattle.dm_ems.specs.Calls.{result_of, state_after};
ghost use Rattle.dm_ems.specs.Handles.{allocate, deallocate, count_pages};

use crate::status::Status;
use crate::tables::{Ems, Handle, NO_NAME};
use dm_space::Space;

/// The entry of a handle with no name and no saved windows.
const BLANK: Handle = Handle {
    name: NO_NAME,
    saved: None,
};

impl Ems {
    /// 43h: allocates a new handle, the lowest that is not in use, with `pages` pages of zeros, and returns its
    /// number. The handle gets fewer only if the pool has no number left; in a machine it has one (`pages_come` of
    /// `dm_drivers`).
    ///
    /// # Errors
    ///
    /// In this order: `NoPages` for 0 pages, `NoHandleLeft`, `OverTotal`, `OverFree`. Then nothing has changed.
    #[tactic(auto, unfolding(crate::specs::Handles::allocate))]
    pub fn allocate(&mut self, space: &mut Space, pages: u16) -> Result<u16, Status>
        ensures answer { result ≡ result_of (allocate (expanded self.old space.old.memory) pages) }
        ensures left { expanded self.new space.new.memory ≡ state_after (expanded self.old space.old.memory) (allocate
            (expanded self.old space.old.memory) pages) }
        ensures kept { space.new ≡ record space.old { memory = space.new.memory } }
    {
        if pages == 0 {
            return Err(Status::NoPages);
        }
        let Some(handle) = self.free_handle() else {
            return Err(Status::NoHandleLeft);
        };
        if pages > self.total() {
            return Err(Status::OverTotal);
        }
        if pages > self.unallocated(space) {
            return Err(Status::OverFree);
        }
        self.set_slot(handle, Some(BLANK));
        for _ in 0..pages {
            self.append(space, handle);
        }
        Ok(handle)
    }

    /// 45h: frees a handle and its pages, which leave all windows and all saved windows. Handle 0 stays in use, with
    /// no page and no name.
    ///
    /// # Errors
    ///
    /// In this order: `UnknownHandle`; `ContextSaved` where the handle has saved windows. Then nothing has changed.
    #[tactic(auto, unfolding(crate::specs::Handles::deallocate))]
    pub fn deallocate(&mut self, space: &mut Space, handle: u16) -> Result<(), Status>
        requires { IsConsistent (expanded self.old space.old.memory) }
        ensures answer { result ≡ result_of (deallocate (expanded self.old space.old.memory) handle) }
        ensures left { expanded self.new space.new.memory ≡ state_after (expanded self.old space.old.memory) (deallocate
            (expanded self.old space.old.memory) handle) }
        ensures kept { space.new ≡ record space.old { memory = space.new.memory } }
    {
        let Some(slot) = self.slot(handle) else {
            return Err(Status::UnknownHandle);
        };
        if slot.saved.is_some() {
            return Err(Status::ContextSaved);
        }
        self.cut(space, handle, 0);
        let after = if handle == 0 { Some(BLANK) } else { None };
        self.set_slot(handle, after);
        Ok(())
    }

    /// 4Ch: the number of pages of a handle.
    ///
    /// # Errors
    ///
    /// `UnknownHandle`.
    #[tactic(auto, unfolding(crate::specs::Handles::count_pages))]
    pub fn count_pages(&self, space: &Space, handle: u16) -> Result<u16, Status>
        ensures { result ≡ count_pages (expanded self.now space.now.memory) handle }
    {
        if self.slot(handle).is_none() {
            return Err(Status::UnknownHandle);
        }
        Ok(self.page_count(handle))
    }
}
