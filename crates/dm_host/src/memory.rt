//! Reading and writing a host's guest memory, and copying bytes to a buffer.
ghost use Rattle.std.specs.Prelude.{◌≡◌, ◌≤◌, ◌<◌, ◌++◌, OnOk, IfErr, MatchBool, Some, None, length, drop};
ghost use Rattle.dm_services.specs.state.State.{State};
ghost use Rattle.dm_host.specs.declared.refusal.Refusal.TheVariants.{NotLoaded};
ghost use Rattle.dm_space.specs.Buffers.{with_bytes};
ghost use Rattle.dm_debug.specs.Sessions.{with_machine};
ghost use Rattle.dm_host.specs.Memory.{bytes_at, Copies};
ghost use Rattle.dm_host.specs.Hosts.{Works, Shows, IsNotLoaded};

use crate::host::{Host, Stage};
use crate::refusal::Refusal;
use dm_machine::Machine;

/// Fills the buffer with the bytes of memory from segment:offset on; offsets wrap in the segment.
fn read_each(machine: &Machine, segment: u16, offset: u16, buffer: &mut [u8])
    ensures { buffer.new ≡ bytes_at machine.now.memory segment offset (length buffer.old) }
{
    let mut at = offset;
    for place in 0..buffer.len() {
        buffer[place] = machine.peek(segment, at);
        at = at.wrapping_add(1);
    }
}

/// Copies `items` to the front of a buffer that C passes and returns true, if they fit; otherwise returns false, and
/// the buffer stays.
pub fn copy_all<T: Copy>(items: &[T], buffer: &mut [T]) -> bool
    ensures { Copies items.now buffer.old buffer.new result }
{
    if items.len() > buffer.len() {
        return false;
    }
    buffer[..items.len()].copy_from_slice(items);
    true
}

impl Host {
    /// Fills the buffer with the bytes of memory from segment:offset on; offsets wrap in the segment. Where there is no
    /// memory, bytes are FFh.
    ///
    /// # Errors
    ///
    /// `NotLoaded` exactly where no program is loaded. The buffer stays then.
    pub fn read(&self, segment: u16, offset: u16, buffer: &mut [u8]) -> Result<(), Refusal>
        ensures ok { OnOk result (Shows self.now (λ s. buffer.new ≡ bytes_at s.memory segment offset
            (length buffer.old))) }
        ensures err { IfErr result (λ e. IsNotLoaded self.now e × (buffer.new ≡ buffer.old)) }
    {
        let Some(machine) = self.machine() else {
            return Err(Refusal::NotLoaded);
        };
        read_each(machine, segment, offset, buffer);
        Ok(())
    }

    /// Writes the bytes to memory from segment:offset on; offsets wrap in the segment. Bytes for the ROM, or where
    /// there is no memory, are lost. Nothing but memory changes.
    ///
    /// # Errors
    ///
    /// `NotLoaded` exactly where no program is loaded. Nothing has changed then.
    pub fn write(&mut self, segment: u16, offset: u16, bytes: &[u8]) -> Result<(), Refusal>
        ensures ok { OnOk result (Works self.old (λ s t. t ≡ with_machine s (record s.machine
            { memory = with_bytes s.machine.memory segment offset bytes.now })) self.new) }
        ensures err { IfErr result (λ e. IsNotLoaded self.old e × (self.new ≡ self.old)) }
    {
        let Stage::Loaded(session) = &mut self.stage else {
            return Err(Refusal::NotLoaded);
        };
        session.write(segment, offset, bytes);
        Ok(())
    }
}
