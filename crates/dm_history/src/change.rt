//! What a user changes in a machine between its steps, and when.

ghost use Rattle.std.specs.Prelude.{◌≡◌};
ghost use Rattle.dm_space.specs.Buffers.{with_bytes};
ghost use Rattle.dm_services.specs.state.State.{HasProgram};
ghost use Rattle.dm_history.specs.Edits.{changed};

use dm_machine::{Cpu, Machine};
use std::marker::Model;

/// Bytes that are written to memory. Contracts see the list.
#[derive(Drop)]
pub struct Bytes {
    bytes: Vec<u8>,
}

impl Model for Bytes {
    ghost use Rattle.std.specs.Prelude.{ℕ, List};

    ghost Value = { List ℕ };

    ghost view = { λ b. b.bytes.items };
}

impl Bytes {
    /// These bytes.
    pub fn new(bytes: Vec<u8>) -> Bytes
        ensures { result ≡ bytes.items }
    {
        Bytes { bytes }
    }

    /// The bytes.
    pub fn as_slice(&self) -> &[u8]
        ensures { result.now ≡ self.now }
    {
        self.bytes.as_slice()
    }
}

/// What a user changes in a machine.
#[derive(Drop)]
pub enum Change {
    /// All registers and flags are set to these.
    Registers(Cpu),
    /// Bytes are written from segment:offset up; offsets wrap.
    Written(u16, u16, Bytes),
}

/// A change, and after how many steps it was made.
#[derive(Drop)]
pub struct TimedChange {
    /// The machine's count of steps.
    pub step: u64,
    pub change: Change,
}

/// Writes the bytes to memory from segment:offset up; offsets wrap. Bytes for the ROM, or where there is no memory, are
/// lost. Nothing but memory changes.
pub(crate) fn write(machine: &mut Machine, segment: u16, offset: u16, bytes: &[u8])
    requires { HasProgram machine.old }
    ensures { machine.new ≡ record machine.old { memory = with_bytes machine.old.memory segment offset bytes.now } }
{
    let mut at = offset;
    for byte in bytes {
        machine.poke(segment, at, *byte);
        at = at.wrapping_add(1);
    }
}

/// Makes a change.
pub(crate) fn apply(machine: &mut Machine, change: &Change)
    requires { HasProgram machine.old }
    ensures { machine.new ≡ changed change.now machine.old }
{
    match change {
        Change::Registers(cpu) => machine.set_registers(*cpu),
        Change::Written(segment, offset, bytes) => {
            write(machine, *segment, *offset, bytes.as_slice())
        }
    }
}
