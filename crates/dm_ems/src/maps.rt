//! The windows of the frame (LIM EMS 4.0, functions 5, 8 and 9; INT 67h functions 44h, 47h and 48h).

ghost use Rattle.std.specs.Prelude.{◌≡◌, ◌<◌, Option, IfSome};
ghost use Rattle.dm_space.specs.Memory.{IsPage, with_window};
ghost use Rattle.dm_ems.specs.Tables.{expanded};
ghost use Rattle.dm_ems.specs.Consistent.{IsConsistent};
ghost use Rattle.dm_ems.specs.Calls.{result_of, state_after};
ghost use Rattle.dm_ems.specs.Maps.{map_page, save_map, restore_map};

use crate::pages::set_windows;
use crate::status::Status;
use crate::tables::{Ems, Handle};
use dm_space::Space;

/// The number of windows of the frame.
const WINDOWS: u8 = 4;

/// The logical page number that unmaps a window.
const NO_PAGE: u16 = 0xFFFF;

impl Ems {
    /// 44h: makes a window, 0 to 3, show a logical page of a handle, or nothing with page FFFFh. The other windows, and
    /// the tables, stay.
    ///
    /// # Errors
    ///
    /// In this order: `UnknownHandle`, `NoSuchWindow`, `NoSuchPage`. Then nothing has changed.
    #[tactic(auto, unfolding(crate::specs::Maps::map_page))]
    pub fn map_page(
        &self,
        space: &mut Space,
        window: u8,
        page: u16,
        handle: u16,
    ) -> Result<(), Status>
        requires { IsConsistent (expanded self.now space.old.memory) }
        ensures answer { result ≡ result_of (map_page (expanded self.now space.old.memory) window page handle) }
        ensures left { expanded self.now space.new.memory ≡ state_after (expanded self.now space.old.memory) (map_page
            (expanded self.now space.old.memory) window page handle) }
        ensures kept { space.new ≡ record space.old { memory = space.new.memory } }
    {
        if self.slot(handle).is_none() {
            return Err(Status::UnknownHandle);
        }
        if window >= WINDOWS {
            return Err(Status::NoSuchWindow);
        }
        if page == NO_PAGE {
            space.set_window(window as usize, None);
            return Ok(());
        }
        match self.page(handle, page) {
            Some(block) => {
                space.set_window(window as usize, Some(block));
                Ok(())
            }
            None => Err(Status::NoSuchPage),
        }
    }

    /// 47h: saves, under a handle, what the four windows show. The windows stay.
    ///
    /// # Errors
    ///
    /// In this order: `UnknownHandle`; `SavedAlready` where the handle has saved windows. Then nothing has changed.
    #[tactic(auto, unfolding(crate::specs::Maps::save_map))]
    pub fn save_map(&mut self, space: &Space, handle: u16) -> Result<(), Status>
        ensures answer { result ≡ result_of (save_map (expanded self.old space.now.memory) handle) }
        ensures left { expanded self.new space.now.memory ≡ state_after (expanded self.old space.now.memory) (save_map
            (expanded self.old space.now.memory) handle) }
    {
        let Some(slot) = self.slot(handle) else {
            return Err(Status::UnknownHandle);
        };
        if slot.saved.is_some() {
            return Err(Status::SavedAlready);
        }
        let name = slot.name;
        let windows = space.windows();
        self.set_slot(
            handle,
            Some(Handle {
                name,
                saved: Some(windows),
            }),
        );
        Ok(())
    }

    /// 48h: makes the four windows show what was saved under a handle, which then has nothing saved.
    ///
    /// # Errors
    ///
    /// In this order: `UnknownHandle`; `NoneSaved` where the handle has nothing saved. Then nothing has changed.
    #[tactic(auto, unfolding(crate::specs::Maps::restore_map))]
    pub fn restore_map(&mut self, space: &mut Space, handle: u16) -> Result<(), Status>
        requires { IsConsistent (expanded self.old space.old.memory) }
        ensures answer { result ≡ result_of (restore_map (expanded self.old space.old.memory) handle) }
        ensures left { expanded self.new space.new.memory ≡ state_after (expanded self.old
            space.old.memory) (restore_map (expanded self.old space.old.memory) handle) }
        ensures kept { space.new ≡ record space.old { memory = space.new.memory } }
    {
        let Some(slot) = self.slot(handle) else {
            return Err(Status::UnknownHandle);
        };
        let name = slot.name;
        let Some(windows) = slot.saved else {
            return Err(Status::NoneSaved);
        };
        set_windows(space, windows);
        self.set_slot(handle, Some(Handle { name, saved: None }));
        Ok(())
    }
}
