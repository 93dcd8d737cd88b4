//! Bytes copied between addresses, blocks and the scratch part, for moves of regions.
ghost use Rattle.std.specs.Prelude.{◌≡◌, ◌+◌, ◌%◌, ◌<◌, ◌≤◌, length};
ghost use Rattle.dm_pool.specs.Blocks.{IsLive};
ghost use Rattle.dm_space.specs.Copies.{copied_in, copied_out, block_copied_in, block_copied_out};
ghost use Rattle.dm_space.specs.Memory.{page_bytes};

use crate::place::Place;
use crate::rom::{read_nothing, read_rom};
use crate::space::{Space, WINDOW};
use dm_pool::{Block, Part};

/// How many of the `left` bytes from a linear address on come before the next multiple of 4000h, and so lie in one part
/// of the map.
fn stretch_len(linear: usize, left: usize) -> usize
    requires { 0 < left }
    ensures some { 0 < result }
    ensures left { result ≤ left }
    ensures stretch { linear % 0x4000 + result ≤ 0x4000 }
{
    (WINDOW - linear % WINDOW).min(left)
}

impl Space {
    /// Does what [`Space::copy_in`] does, for bytes that lie in one part of the map.
    fn copy_stretch_in(&mut self, linear: usize, at: usize, len: usize)
        requires some { 0 < len }
        requires stretch { linear % 0x4000 + len ≤ 0x4000 }
        requires addresses { linear + len ≤ 0x10FFF0 }
        requires scratch { at + len ≤ 0x200000 }
        ensures { self.new ≡ copied_in self.old linear at len }
    {
        let _sizes = self.a20();
        match self.place(linear) {
            Place::Low(from) => self.store.copy(Part::Low, from, Part::Scratch, at, len),
            Place::Page(block, from) => {
                self.store
                    .copy(Part::Block(block), from, Part::Scratch, at, len)
            }
            Place::Rom(from) => read_rom(self.store.scratch_mut(at + len), at, from, len),
            Place::Nothing => read_nothing(self.store.scratch_mut(at + len), at, len),
        }
    }

    /// Does what [`Space::copy_out`] does, for addresses that lie in one part of the map.
    fn copy_stretch_out(&mut self, at: usize, linear: usize, len: usize)
        requires some { 0 < len }
        requires stretch { linear % 0x4000 + len ≤ 0x4000 }
        requires addresses { linear + len ≤ 0x10FFF0 }
        requires scratch { at + len ≤ 0x200000 }
        ensures { self.new ≡ copied_out self.old at linear len }
    {
        let _sizes = self.a20();
        match self.place(linear) {
            Place::Low(to) => self.store.copy(Part::Scratch, at, Part::Low, to, len),
            Place::Page(block, to) => {
                self.store
                    .copy(Part::Scratch, at, Part::Block(block), to, len)
            }
            Place::Rom(_) | Place::Nothing => {}
        }
    }

    /// Reads `len` bytes from a linear address upwards, A20 taken as on, into the scratch bytes from `at` on. The
    /// memory and the other scratch bytes stay.
    pub fn copy_in(&mut self, linear: usize, at: usize, len: usize)
        requires addresses { linear + len ≤ 0x10FFF0 }
        requires scratch { at + len ≤ 0x200000 }
        ensures { self.new ≡ copied_in self.old linear at len }
    {
        let _sizes = self.a20();
        let mut done = 0;
        while done < len {
            let count = stretch_len(linear + done, len - done);
            self.copy_stretch_in(linear + done, at + done, count);
            done += count;
        }
    }

    /// Writes `len` scratch bytes from `at` on to a linear address upwards, A20 taken as on. What is written to ROM, or
    /// where there is no memory, is lost. The scratch bytes stay.
    pub fn copy_out(&mut self, at: usize, linear: usize, len: usize)
        requires addresses { linear + len ≤ 0x10FFF0 }
        requires scratch { at + len ≤ 0x200000 }
        ensures { self.new ≡ copied_out self.old at linear len }
    {
        let _sizes = self.a20();
        let mut done = 0;
        while done < len {
            let count = stretch_len(linear + done, len - done);
            self.copy_stretch_out(at + done, linear + done, count);
            done += count;
        }
    }

    /// Copies `len` bytes of a block, from its byte `from` on, into the scratch bytes from `at` on. The memory and the
    /// other scratch bytes stay.
    pub fn copy_block_in(&mut self, block: Block, from: usize, at: usize, len: usize)
        requires block { IsLive self.old.memory.blocks block × (from + len
            ≤ length (page_bytes self.old.memory block)) }
        requires scratch { at + len ≤ 0x200000 }
        ensures { self.new ≡ block_copied_in self.old block from at len }
    {
        let _sizes = self.a20();
        self.store
            .copy(Part::Block(block), from, Part::Scratch, at, len);
    }

    /// Copies `len` scratch bytes from `at` on to the place from byte `to` on of a block. The scratch bytes, the rest
    /// of the block and the other blocks stay.
    pub fn copy_block_out(&mut self, at: usize, block: Block, to: usize, len: usize)
        requires block { IsLive self.old.memory.blocks block × (to + len ≤ length (page_bytes self.old.memory block)) }
        requires scratch { at + len ≤ 0x200000 }
        ensures { self.new ≡ block_copied_out self.old at block to len }
    {
        let _sizes = self.a20();
        self.store
            .copy(Part::Scratch, at, Part::Block(block), to, len);
    }
}
