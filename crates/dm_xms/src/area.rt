//! The high memory area (XMS 3.0, functions 01h and 02h), which one program at a time can take.

ghost use Rattle.std.specs.Prelude.{◌≡◌};
ghost use Rattle.dm_xms.specs.Calls.{result_of, state_after};
ghost use Rattle.dm_xms.specs.Area.{take_area, release_area};

use crate::status::Status;
use crate::tables::Xms;

impl Xms {
    /// 01h: takes the high memory area.
    ///
    /// # Errors
    ///
    /// `AreaTaken`, and nothing has changed.
    #[tactic(auto, unfolding(crate::specs::Area::take_area))]
    pub fn take_area(&mut self) -> Result<(), Status>
        ensures answer { result ≡ result_of (take_area self.old) }
        ensures left { self.new ≡ state_after self.old (take_area self.old) }
    {
        if self.area {
            return Err(Status::AreaTaken);
        }
        self.area = true;
        Ok(())
    }

    /// 02h: releases the high memory area.
    ///
    /// # Errors
    ///
    /// `AreaNotTaken`, and nothing has changed.
    #[tactic(auto, unfolding(crate::specs::Area::release_area))]
    pub fn release_area(&mut self) -> Result<(), Status>
        ensures answer { result ≡ result_of (release_area self.old) }
        ensures left { self.new ≡ state_after self.old (release_area self.old) }
    {
        if !self.area {
            return Err(Status::AreaNotTaken);
        }
        self.area = false;
        Ok(())
    }
}
