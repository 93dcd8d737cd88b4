//! Reading and writing a host's guest memory by linear addresses (Intel 8086 Family User's Manual, "Memory").
ghost use Rattle.std.specs.Prelude.{◌≡◌, ◌+◌, ◌*◌, ◌≤◌, ◌<◌, OnOk, IfErr, MatchOption, length};
ghost use Rattle.dm_space.specs.Memory.{linear, poke};
ghost use Rattle.dm_debug.specs.Sessions.{with_machine};
ghost use Rattle.dm_host.specs.Hosts.{Works, Shows, IsNotLoaded};
ghost use Rattle.dm_host.specs.Linear.{byte_at_linear, bytes_at_linear, with_bytes_at_linear};

use crate::host::{Host, Stage};
use crate::refusal::Refusal;
use dm_debug::Session;
use dm_machine::Machine;

/// How many linear addresses there are: those up to FFFF:FFFF.
const ADDRESSES: u32 = 0x10_FFF0;

/// What a read returns where there is no memory.
const EMPTY: u8 = 0xFF;

/// A segment and an offset for a linear address; None if it is past FFFF:FFFF.
fn logical(address: u32) -> Option<(u16, u16)>
    ensures { MatchOption result (0x10FFF0 ≤ address) (λ it. (address < 0x10FFF0) × (it.0 * 16 + it.1 ≡ address)) }
{
    if address >= ADDRESSES {
        return None;
    }
    let segment = (address / 16).min(0xFFFF);
    Some((segment as u16, (address - segment * 16) as u16))
}

/// The byte at a linear address, as a program reads it; FFh past FFFF:FFFF.
fn byte_at(machine: &Machine, address: u32) -> u8
    ensures { result ≡ byte_at_linear machine.now.memory address }
{
    match logical(address) {
        Some((segment, offset)) => machine.peek(segment, offset),
        None => EMPTY,
    }
}

/// Fills the buffer with the bytes of memory from a linear address up.
fn read_up(machine: &Machine, address: u32, buffer: &mut [u8])
    ensures { buffer.new ≡ bytes_at_linear machine.now.memory address (length buffer.old) }
{
    let mut at = address;
    for place in 0..buffer.len() {
        buffer[place] = byte_at(machine, at);
        at = at.saturating_add(1);
    }
}

/// Writes a byte to memory.
#[tactic(auto, unfolding(dm_space::specs::Buffers::with_bytes))]
fn put(session: &mut Session, segment: u16, offset: u16, byte: u8)
    ensures { session.new ≡ with_machine session.old (record session.old.machine
        { memory = poke session.old.machine.memory (linear session.old.machine.memory.a20 segment offset) byte }) }
{
    session.write(segment, offset, &[byte]);
}

/// Writes the bytes to memory from a linear address up, as a program does; those past FFFF:FFFF are lost.
fn write_up(session: &mut Session, address: u32, bytes: &[u8])
    ensures { session.new ≡ with_machine session.old (record session.old.machine
        { memory = with_bytes_at_linear session.old.machine.memory address bytes.now }) }
{
    let mut at = address;
    for byte in bytes {
        let Some((segment, offset)) = logical(at) else {
            return;
        };
        put(session, segment, offset, *byte);
        at += 1;
    }
}

impl Host {
    /// Fills the buffer with the bytes of memory from a linear address up, as a program reads them: while the A20 line
    /// is off, bit 20 of an address is. Where there is no memory, and past FFFF:FFFF, bytes are FFh.
    ///
    /// # Errors
    ///
    /// `NotLoaded` exactly where no program is loaded. The buffer stays then.
    pub fn read_linear(&self, address: u32, buffer: &mut [u8]) -> Result<(), Refusal>
        ensures ok { OnOk result (Shows self.now (λ s. buffer.new ≡ bytes_at_linear s.memory address
            (length buffer.old))) }
        ensures err { IfErr result (λ e. IsNotLoaded self.now e × (buffer.new ≡ buffer.old)) }
    {
        let Some(machine) = self.machine() else {
            return Err(Refusal::NotLoaded);
        };
        read_up(machine, address, buffer);
        Ok(())
    }

    /// Writes the bytes to memory from a linear address up, as a program does: while the A20 line is off, bit 20 of an
    /// address is. Bytes for the ROM, where there is no memory, or past FFFF:FFFF, are lost. Nothing but memory
    /// changes.
    ///
    /// # Errors
    ///
    /// `NotLoaded` exactly where no program is loaded. Nothing has changed then.
    pub fn write_linear(&mut self, address: u32, bytes: &[u8]) -> Result<(), Refusal>
        ensures ok { OnOk result (Works self.old (λ s t. t ≡ with_machine s (record s.machine
            { memory = with_bytes_at_linear s.machine.memory address bytes.now })) self.new) }
        ensures err { IfErr result (λ e. IsNotLoaded self.old e × (self.new ≡ self.old)) }
    {
        let Stage::Loaded(session) = &mut self.stage else {
            return Err(Refusal::NotLoaded);
        };
        write_up(session, address, bytes);
        Ok(())
    }
}
