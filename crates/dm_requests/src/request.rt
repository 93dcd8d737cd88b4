//! The requests, with what follows their names.

use crate::packets::Payload;

/// What a breakpoint or watchpoint stops at.
#[derive(Clone, Copy, Debug, PartialEq, Eq)]
pub enum WatchedAccess {
    /// An instruction that begins at the address (types 0 and 1).
    Execute,
    /// A write to a byte (type 2).
    Write,
    /// A read of a byte (type 3).
    Read,
    /// A read or a write of a byte (type 4).
    Either,
}

/// A breakpoint or a watchpoint: linear addresses, from one up. A breakpoint is at the first of them.
#[derive(Clone, Copy, Debug, PartialEq, Eq)]
pub struct Point {
    pub access: WatchedAccess,
    /// A linear address.
    pub address: u32,
    /// How many bytes are watched.
    pub length: u32,
}

/// What a packet asks for. Numbers are hexadecimal, of one to eight digits.
#[derive(Drop)]
pub enum Request {
    /// `?`: why the program has stopped.
    Why,
    /// `g`: all registers.
    Registers,
    /// `p N`: the register with this number.
    Register(u32),
    /// `P N=BYTES`: sets the register with this number to the bytes, the lowest first.
    SetRegister(u32, Payload),
    /// `G BYTES`: sets all registers to the bytes, in the order of their numbers.
    SetRegisters(Payload),
    /// `m ADDRESS,COUNT`: this number of bytes from a linear address up.
    Memory(u32, u32),
    /// `M ADDRESS,COUNT:BYTES`: writes the bytes from a linear address up; the count is theirs.
    SetMemory(u32, Payload),
    /// `Z`: sets a breakpoint or a watchpoint.
    Insert(Point),
    /// `z`: removes a breakpoint or a watchpoint.
    Remove(Point),
    /// `s`, or `vCont` with `s` or `S` first: one step.
    Step,
    /// `c`, or `vCont` with `c` or `C` first: steps up to a stop.
    Continue,
    /// `vCont` with `r START,END` first: steps up to a stop, or as long as the linear address of CS:IP is START or
    /// above and below END.
    Range(u32, u32),
    /// `bs`: one step back.
    StepBack,
    /// `bc`: steps back up to a stop.
    ContinueBack,
    /// `qXfer:features:read:target.xml:OFFSET,COUNT`: this number of bytes of the description of the registers, from an
    /// offset on.
    Features(u32, u32),
    /// `qRcmd`: a command of the debugger, in text.
    Command(Payload),
    /// `qSupported`: what the server can do.
    Supported,
    /// `qOffsets`: where the program was loaded.
    Offsets,
    /// `qAttached`: whether the program ran before the debugger came.
    Attached,
    /// `qC`: the current thread.
    CurrentThread,
    /// `qfThreadInfo`: the first threads.
    FirstThreads,
    /// `qsThreadInfo`: more threads.
    MoreThreads,
    /// `qSymbol::`: whether the server wants symbols.
    Symbols,
    /// `vCont?`: which ways to go on there are.
    ContinueKinds,
    /// `QStartNoAckMode`: no acknowledgements from now on.
    StopAcknowledging,
    /// `H`: sets the thread of later requests.
    SetThread,
    /// `T`: whether a thread is alive.
    IsAlive,
    /// `!`: the connection outlives the program.
    Extended,
    /// `vRun`: starts the program again.
    Restart,
    /// `vKill`: ends the program, and the connection stays.
    EndProgram,
    /// `k`: ends the program and the connection.
    Kill,
    /// `D`: leaves the program.
    Detach,
    /// A request of these whose arguments are bad.
    Malformed,
    /// No request that is known.
    Unknown,
}
