//! Console input that comes while a host's program runs, and setting its registers.
ghost use Rattle.std.specs.Prelude.{◌≡◌, true, false, OnOk, OnErr, IfOk, IfErr, length};
ghost use Rattle.dm_debug.specs.Sessions.{with_machine};
ghost use Rattle.dm_host.specs.Hosts.{Works, Shows, IsNotLoaded};
ghost use Rattle.dm_host.specs.Input.{SetsMore, Supplies, IsUnsupplied};

use crate::host::{Host, Stage};
use crate::refusal::Refusal;
use dm_machine::Cpu;

impl Host {
    /// Says that more console input may come, as `Machine::open_input`: from then on each call that wants a byte that
    /// is not there stops the run with `InputEnded`, and the run can go on once there is more.
    ///
    /// # Errors
    ///
    /// `NotLoaded` exactly where no program is loaded; then nothing has changed.
    pub fn open_input(&mut self) -> Result<(), Refusal>
        ensures ok { OnOk result (SetsMore self.old true self.new) }
        ensures err { IfErr result (λ e. IsNotLoaded self.old e × (self.new ≡ self.old)) }
    {
        let Stage::Loaded(session) = &mut self.stage else {
            return Err(Refusal::NotLoaded);
        };
        session.open_input();
        Ok(())
    }

    /// Says that no more console input comes after what is left, as `Machine::close_input`.
    ///
    /// # Errors
    ///
    /// `NotLoaded` exactly where no program is loaded; then nothing has changed.
    pub fn close_input(&mut self) -> Result<(), Refusal>
        ensures ok { OnOk result (SetsMore self.old false self.new) }
        ensures err { IfErr result (λ e. IsNotLoaded self.old e × (self.new ≡ self.old)) }
    {
        let Stage::Loaded(session) = &mut self.stage else {
            return Err(Refusal::NotLoaded);
        };
        session.close_input();
        Ok(())
    }

    /// Adds bytes to the end of the console input, which must be open.
    ///
    /// # Errors
    ///
    /// `NotLoaded` exactly where no program is loaded; else `InputClosed` exactly where its input is closed; else
    /// `Memory` if an allocation failed. Nothing has changed then.
    pub fn supply(&mut self, bytes: &[u8]) -> Result<(), Refusal>
        ensures ok { OnOk result (Supplies self.old bytes.now self.new) }
        ensures err { IfErr result (IsUnsupplied self.old) }
        ensures kept { OnErr result (self.new ≡ self.old) }
    {
        let Stage::Loaded(session) = &mut self.stage else {
            return Err(Refusal::NotLoaded);
        };
        if !session.input_is_open() {
            return Err(Refusal::InputClosed);
        }
        match session.supply(bytes) {
            Ok(()) => Ok(()),
            Err(_) => Err(Refusal::Memory),
        }
    }

    /// How many bytes of console input are left.
    ///
    /// # Errors
    ///
    /// `NotLoaded` exactly where no program is loaded.
    pub fn input_left(&self) -> Result<usize, Refusal>
        ensures ok { IfOk result (λ n. Shows self.now (λ s. n ≡ length s.console.input)) }
        ensures err { IfErr result (IsNotLoaded self.now) }
    {
        match self.machine() {
            Some(machine) => Ok(machine.input_left()),
            None => Err(Refusal::NotLoaded),
        }
    }

    /// Sets the registers and flags; nothing else changes.
    ///
    /// # Errors
    ///
    /// `NotLoaded` exactly where no program is loaded; then nothing has changed.
    pub fn set_registers(&mut self, registers: Cpu) -> Result<(), Refusal>
        ensures ok { OnOk result (Works self.old (λ s t. t ≡ with_machine s (record s.machine { cpu = registers }))
            self.new) }
        ensures err { IfErr result (λ e. IsNotLoaded self.old e × (self.new ≡ self.old)) }
    {
        let Stage::Loaded(session) = &mut self.stage else {
            return Err(Refusal::NotLoaded);
        };
        session.set_registers(registers);
        Ok(())
    }
}
