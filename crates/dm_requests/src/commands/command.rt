//! The commands of a debugger, with what follows their names.

ghost use Rattle.std.specs.Prelude.{◌≡◌, ◌≤◌, length};

use arrayvec::ArrayVec;
use std::marker::Model;

/// A segment and an offset.
#[derive(Clone, Copy, Debug, PartialEq, Eq)]
pub struct LogicalAddress {
    pub segment: u16,
    pub offset: u16,
}

/// The bytes that E writes: at most 64. Contracts see the list of them.
#[derive(Drop)]
pub struct Bytes {
    bytes: ArrayVec<u8, 64>,
}

impl Model for Bytes {
    ghost use Rattle.std.specs.Prelude.{ℕ, List};

    ghost Value = { List ℕ };

    ghost view = { λ b. b.bytes.items };
}

impl Bytes {
    /// A copy of `bytes`, of which there are at most 64.
    pub(crate) fn new(bytes: &[u8]) -> Bytes
        requires { length bytes.now ≤ 64 }
        ensures { result ≡ bytes.now }
    {
        let mut list = ArrayVec::new();
        // There is room for them.
        let _ = list.try_extend_from_slice(bytes);
        Bytes { bytes: list }
    }

    /// The bytes.
    pub fn as_slice(&self) -> &[u8]
        ensures value { result.now ≡ self.now }
        ensures few { length result.now ≤ 64 }
    {
        self.bytes.as_slice()
    }
}

/// A command of the debugger.
#[derive(Drop)]
pub enum Command {
    /// R: lists the registers, and the instruction at CS:IP.
    Registers,
    /// U: lists this number of instructions, at most 1000h, from an address on.
    Unassemble(LogicalAddress, u16),
    /// D: lists this number of bytes, at most 10000h, from an address on.
    Dump(LogicalAddress, u32),
    /// M: lists the headers of the arena.
    Arena,
    /// P: lists the handles of expanded memory, and what the windows show.
    Pages,
    /// X: lists the blocks of extended memory, the upper memory blocks, A20 and the high memory area.
    Extended,
    /// G: makes at most this number of steps, up to a breakpoint or a stop.
    Go(u32),
    /// T: makes this number of steps, at most 1000h, or those up to a stop, and lists the registers after each.
    Trace(u16),
    /// B: sets a breakpoint.
    Break(LogicalAddress),
    /// BC: clears a breakpoint.
    Clear(LogicalAddress),
    /// BL: lists the breakpoints.
    Breakpoints,
    /// E: writes 1 to 64 bytes from an address on.
    Enter(LogicalAddress, Bytes),
    /// O: shows all that was written to the console.
    Output,
}
