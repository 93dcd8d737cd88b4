//! Address line A20 (XMS 3.0, functions 03h to 07h): it is on while the global switch is on or the local count is at
//! least 1.

ghost use Rattle.std.specs.Prelude.{◌≡◌};
ghost use Rattle.dm_xms.specs.Tables.{extended};
ghost use Rattle.dm_xms.specs.Calls.{result_of, state_after};
ghost use Rattle.dm_xms.specs.Line.{is_on, switched, enable_globally, disable_globally, enable_locally, disable_locally};

use crate::status::Status;
use crate::tables::Xms;
use dm_space::Space;

/// Whether A20 is on, with this global switch and local count.
fn is_on(global: bool, local: u16) -> bool
    ensures { result ≡ is_on global local }
{
    global || local != 0
}

impl Xms {
    /// Sets the global switch and the local count, and A20 as they say. Nothing else changes.
    fn switch(&mut self, space: &mut Space, global: bool, local: u16)
        ensures left { extended self.new space.new.memory ≡ switched (extended self.old space.old.memory) global local }
        ensures kept { space.new ≡ record space.old { memory = space.new.memory } }
    {
        self.global = global;
        self.local = local;
        space.set_a20(is_on(global, local));
    }

    /// 03h: turns the global switch on, and so A20.
    #[tactic(auto, unfolding(crate::specs::Line::enable_globally))]
    pub fn enable_globally(&mut self, space: &mut Space)
        ensures left { extended self.new space.new.memory ≡ enable_globally (extended self.old space.old.memory) }
        ensures kept { space.new ≡ record space.old { memory = space.new.memory } }
    {
        let local = self.local;
        self.switch(space, true, local);
    }

    /// 04h: turns the global switch off, and A20 too if the local count is 0.
    ///
    /// # Errors
    ///
    /// `LineStillOn` where the local count keeps A20 on; the global switch is off all the same.
    #[tactic(auto, unfolding(crate::specs::Line::disable_globally))]
    pub fn disable_globally(&mut self, space: &mut Space) -> Result<(), Status>
        ensures answer { result ≡ (disable_globally (extended self.old space.old.memory)).0 }
        ensures left { extended self.new space.new.memory ≡ (disable_globally (extended self.old space.old.memory)).1 }
        ensures kept { space.new ≡ record space.old { memory = space.new.memory } }
    {
        let local = self.local;
        self.switch(space, false, local);
        if local == 0 {
            Ok(())
        } else {
            Err(Status::LineStillOn)
        }
    }

    /// 05h: adds one to the local count; A20 is on.
    ///
    /// # Errors
    ///
    /// `LineError` where the count is FFFFh, and nothing has changed.
    #[tactic(auto, unfolding(crate::specs::Line::enable_locally))]
    pub fn enable_locally(&mut self, space: &mut Space) -> Result<(), Status>
        ensures answer { result ≡ result_of (enable_locally (extended self.old space.old.memory)) }
        ensures left { extended self.new space.new.memory ≡ state_after (extended self.old
            space.old.memory) (enable_locally (extended self.old space.old.memory)) }
        ensures kept { space.new ≡ record space.old { memory = space.new.memory } }
    {
        let global = self.global;
        let local = self.local;
        if local == 0xFFFF {
            return Err(Status::LineError);
        }
        self.switch(space, global, local + 1);
        Ok(())
    }

    /// 06h: takes one from the local count; A20 is off if the count is then 0 and the global switch is off.
    ///
    /// # Errors
    ///
    /// `LineError` where the count is 0, and nothing has changed; `LineStillOn` where A20 stays on, though the count
    /// is one less.
    #[tactic(auto, unfolding(crate::specs::Line::disable_locally))]
    pub fn disable_locally(&mut self, space: &mut Space) -> Result<(), Status>
        ensures answer { result ≡ (disable_locally (extended self.old space.old.memory)).0 }
        ensures left { extended self.new space.new.memory ≡ (disable_locally (extended self.old space.old.memory)).1 }
        ensures kept { space.new ≡ record space.old { memory = space.new.memory } }
    {
        let global = self.global;
        let local = self.local;
        if local == 0 {
            return Err(Status::LineError);
        }
        self.switch(space, global, local - 1);
        if is_on(global, local - 1) {
            Err(Status::LineStillOn)
        } else {
            Ok(())
        }
    }
}
