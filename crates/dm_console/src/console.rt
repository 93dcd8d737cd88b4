//! The console: input that is read byte by byte, and output that is kept in memory.
ghost use Rattle.std.specs.Prelude.{◌≡◌, ◌+◌, ◌-◌, ◌≤◌, ◌<◌, ◌++◌, [], ◌∷◌, true, false, IfOk, IsOk, OnOk, OnErr, drop, length, max, slice_get, vec_len, vec_capacity};
ghost use Rattle.std.specs.Bool.{OnTrue, OnFalse};
ghost use Rattle.dm_console.specs.Streams.{Streams};

use std::alloc::{AllocError, Global};
use std::marker::Model;

/// The input that is left, whether more may come after it, and all output so far. The *room* is how many more bytes can
/// be written without an allocation.
#[derive(Drop)]
pub struct Console {
    input: Vec<u8>,
    taken: usize,
    more: bool,
    output: Vec<u8>,
    room: usize,
}

impl Model for Console {
    ghost Value = { Streams };

    ghost view = { λ c. record {
      input = drop c.taken c.input.items;
      more = c.more;
      output = c.output.items;
      room = c.room;
    } };

    ghost invariant = { λ c. (c.taken ≤ vec_len c.input) × (vec_len c.output + c.room ≤ vec_capacity c.output) };
}

impl Console {
    /// A console with this input, after which no more comes, no output and no room. It allocates no memory.
    pub fn new(alloc: Global, input: Vec<u8>) -> Console
        ensures { result ≡ record { input = input.items; more = false; output = []; room = 0 } }
    {
        Console {
            input,
            taken: 0,
            more: false,
            output: Vec::new(alloc),
            room: 0,
        }
    }

    /// Another console with the same input, output and room; more input may come if it may come here.
    ///
    /// # Errors
    ///
    /// `AllocError` if an allocation fails.
    pub fn duplicate(&self, alloc: Global) -> Result<Console, AllocError>
        ensures { IfOk result (λ console. console ≡ self.now) }
    {
        let input = Vec::from_slice(alloc, self.input())?;
        let mut output = Vec::from_slice(alloc, self.output())?;
        output.reserve(self.room)?;
        Ok(Console {
            input,
            taken: 0,
            more: self.more,
            output,
            room: self.room,
        })
    }

    /// Makes the room at least `bytes`; larger room stays, and so do input and output. It allocates nothing where the
    /// room is large enough already.
    ///
    /// # Errors
    ///
    /// `AllocError` if the allocation fails, and nothing has changed.
    pub fn reserve(&mut self, bytes: usize) -> Result<(), AllocError>
        ensures ok { OnOk result (self.new ≡ record self.old { room = max self.old.room bytes }) }
        ensures err { OnErr result (self.new ≡ self.old) }
        ensures has_room { bytes ≤ self.old.room → IsOk result }
    {
        if self.room < bytes {
            self.output.reserve(bytes)?;
            self.room = bytes;
        }
        Ok(())
    }

    /// Makes the room at least `bytes`, as [`Console::reserve`] does, if that takes no allocation; returns whether it
    /// has. Else nothing changes.
    #[inline(always)]
    pub fn reserve_within_capacity(&mut self, bytes: usize) -> bool
        ensures made { OnTrue result (self.new ≡ record self.old { room = max self.old.room bytes }) }
        ensures stays { OnFalse result (self.new ≡ self.old) }
        ensures has_room { bytes ≤ self.old.room → result ≡ true }
    {
        if self.room >= bytes {
            return true;
        }
        if self.output.capacity() - self.output.len() < bytes {
            return false;
        }
        self.room = bytes;
        true
    }

    /// How many more bytes can be written without an allocation.
    pub fn room(&self) -> usize
        ensures { result ≡ self.now.room }
    {
        self.room
    }

    /// Appends a byte to the output. It uses one byte of the room, and allocates nothing. The input stays.
    #[inline(always)]
    pub fn put(&mut self, byte: u8)
        requires { 0 < self.old.room }
        ensures { self.new ≡ record self.old { output = self.old.output ++ byte ∷ []; room = self.old.room - 1 } }
    {
        self.output.push_reserved(byte);
        self.room -= 1;
    }

    /// Reserves a byte of room and appends a byte to the output, as [`Console::reserve`] and [`Console::put`] do, if
    /// that takes no allocation; returns whether it has. Else nothing changes.
    #[inline(always)]
    pub fn put_within_capacity(&mut self, byte: u8) -> bool
        ensures put { OnTrue result (self.new ≡ record self.old {
          output = self.old.output ++ byte ∷ [];
          room = max self.old.room 1 - 1;
        }) }
        ensures stays { OnFalse result (self.new ≡ self.old) }
        ensures has_room { 0 < self.old.room → result ≡ true }
    {
        if self.output.len() == self.output.capacity() {
            return false;
        }
        self.output.push_reserved(byte);
        if self.room != 0 {
            self.room -= 1;
        }
        true
    }

    /// Takes the next byte from the input, and returns it; None at its end, where nothing changes. Output and room
    /// stay.
    pub fn next(&mut self) -> Option<u8>
        ensures byte { result ≡ slice_get self.old.input 0 }
        ensures after { self.new ≡ record self.old { input = drop 1 self.old.input } }
    {
        let byte = self.input.get(self.taken).copied()?;
        self.taken += 1;
        Some(byte)
    }

    /// The input that is left.
    pub fn input(&self) -> &[u8]
        ensures { result.now ≡ self.now.input }
    {
        &self.input.as_slice()[self.taken..]
    }

    /// Skips the next `count` bytes of the input, which has at least that many left. Output and room
    /// stay.
    pub fn consume(&mut self, count: usize)
        requires { count ≤ length self.old.input }
        ensures { self.new ≡ record self.old { input = drop count self.old.input } }
    {
        self.taken += count;
    }

    /// How many bytes of the input are left.
    pub fn left(&self) -> usize
        ensures { result ≡ length self.now.input }
    {
        self.input.len() - self.taken
    }

    /// Whether more input may come after what is left.
    pub fn more(&self) -> bool
        ensures { result ≡ self.now.more }
    {
        self.more
    }

    /// Says whether more input may come after what is left. Input, output and room stay.
    pub fn set_more(&mut self, more: bool)
        ensures { self.new ≡ record self.old { more = more } }
    {
        self.more = more;
    }

    /// Appends bytes to the input that is left. Output and room stay, and so does whether more may come.
    ///
    /// # Errors
    ///
    /// `AllocError` if the allocation fails, and nothing has changed.
    pub fn supply(&mut self, bytes: &[u8]) -> Result<(), AllocError>
        ensures ok { OnOk result (self.new ≡ record self.old { input = self.old.input ++ bytes.now }) }
        ensures err { OnErr result (self.new ≡ self.old) }
    {
        self.input.extend_from_slice(bytes)
    }

    /// All output so far.
    pub fn output(&self) -> &[u8]
        ensures { result.now ≡ self.now.output }
    {
        self.output.as_slice()
    }
}
