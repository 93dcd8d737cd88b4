//! Console input that comes while a program runs.
ghost use Rattle.std.specs.Prelude.{◌≡◌, ◌++◌, true, false, OnOk, OnErr, length};

use crate::machine::Machine;
use std::alloc::AllocError;

impl Machine {
    /// Whether more console input may come after what is left; at the start it may not.
    pub fn input_is_open(&self) -> bool
        ensures { result ≡ self.now.console.more }
    {
        self.parts.console.more()
    }

    /// How many bytes of console input are left.
    pub fn input_left(&self) -> usize
        ensures { result ≡ length self.now.console.input }
    {
        self.parts.console.left()
    }

    /// Says that more console input may come. From then on a read by handle (INT 21h function 3Fh) that finds no byte
    /// stops the run with `InputEnded`, as other calls that read always do; it can go on once there is more.
    pub fn open_input(&mut self)
        ensures { self.new ≡ record self.old { console = record self.old.console { more = true } } }
    {
        self.parts.console.set_more(true);
    }

    /// Says that no more console input comes after what is left. A read by handle that finds no byte then returns a
    /// count of 0, the end of the input.
    pub fn close_input(&mut self)
        ensures { self.new ≡ record self.old { console = record self.old.console { more = false } } }
    {
        self.parts.console.set_more(false);
    }

    /// Adds bytes to the end of the console input.
    ///
    /// # Errors
    ///
    /// `AllocError` if the allocation fails, and nothing has changed.
    pub fn supply(&mut self, bytes: &[u8]) -> Result<(), AllocError>
        ensures ok { OnOk result (self.new ≡ record self.old
            { console = record self.old.console { input = self.old.console.input ++ bytes.now } }) }
        ensures err { OnErr result (self.new ≡ self.old) }
    {
        self.parts.console.supply(bytes)
    }
}
