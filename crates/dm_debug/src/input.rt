//! Console input that comes while a session's program runs.
ghost use Rattle.std.specs.Prelude.{◌≡◌, true, false, OnOk, OnErr, length};
ghost use Rattle.dm_debug.specs.Sessions.{with_machine};
ghost use Rattle.dm_debug.specs.Input.{with_more, with_supply};

use crate::session::Session;
use std::alloc::AllocError;

impl Session {
    /// Whether more console input may come after what is left; at the start it may not.
    pub fn input_is_open(&self) -> bool
        ensures { result ≡ self.now.machine.console.more }
    {
        self.machine.input_is_open()
    }

    /// How many bytes of console input are left.
    pub fn input_left(&self) -> usize
        ensures { result ≡ length self.now.machine.console.input }
    {
        self.machine.input_left()
    }

    /// Says that more console input may come, as `Machine::open_input`. From then on each call that wants a byte that
    /// is not there stops the run with `InputEnded`, and the run can go on once there is more. Nothing else changes.
    pub fn open_input(&mut self)
        ensures { self.new ≡ with_machine self.old (with_more self.old.machine true) }
    {
        self.machine.open_input();
    }

    /// Says that no more console input comes after what is left, as `Machine::close_input`. Nothing else changes.
    pub fn close_input(&mut self)
        ensures { self.new ≡ with_machine self.old (with_more self.old.machine false) }
    {
        self.machine.close_input();
    }

    /// Adds bytes to the end of the console input. Nothing else changes.
    ///
    /// # Errors
    ///
    /// `AllocError` if the allocation fails, and nothing has changed.
    pub fn supply(&mut self, bytes: &[u8]) -> Result<(), AllocError>
        ensures ok { OnOk result (self.new ≡ with_machine self.old (with_supply self.old.machine bytes.now)) }
        ensures err { OnErr result (self.new ≡ self.old) }
    {
        self.machine.supply(bytes)
    }
}
