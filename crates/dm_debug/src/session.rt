//! A debugging session: a machine, its breakpoints, and the commands that are executed from lines of text.

ghost use Rattle.std.specs.Prelude.{◌≡◌, ◌++◌, ◌↔◌, ◌⊎◌, [], true, false, IfOk, OnOk, OnErr, IsErrOf};
ghost use Rattle.dm_space.specs.Buffers.{with_bytes};
ghost use Rattle.dm_services.specs.state.State.{HasProgram};
ghost use Rattle.dm_console.specs.writers.Out.{HasFailed};
ghost use Rattle.dm_requests.specs.declared.commands.command.Command.TheVariants.{Break};
ghost use Rattle.dm_requests.specs.commands.Commands.{command_of};
ghost use Rattle.dm_machine.specs.Run.{IsRun};
ghost use Rattle.dm_machine.specs.Until.{RunsUntil};
ghost use Rattle.dm_debug.specs.Points.{with_point, without_point};
ghost use Rattle.dm_debug.specs.Sessions.{new_session, done, with_machine, with_points, with_entered, Does, DoesPart, clears_none, sets_seventeenth, is_syntax, is_full, IsAnswered, IsCutOff, IsPartlyWritten};

use crate::listings::{arena, dump, extended, output, pages, put_machine, unassemble};
use crate::points::{Points, put_points};
use crate::refusal::CommandRefusal;
use crate::runs::{enter, go, trace};
use dm_console::writers::write_all;
use dm_machine::{Breakpoint, Cpu, Machine, Out, Stop};
use dm_requests::commands::{Bytes, Command, LogicalAddress, read_command};
use std::alloc::{AllocError, Global};
use std::marker::Model;

/// The line that B, BC and E print.
const DONE: &[u8] = b"ok\n";

/// A machine that is debugged, and its breakpoints: at most sixteen exact pairs of CS and IP, all different.
///
/// Contracts see the machine's state and the list of breakpoints, in the order of setting. A program is loaded.
#[derive(Drop)]
pub struct Session {
    pub(crate) machine: Machine,
    points: Points,
}

impl Model for Session {
    ghost use Rattle.dm_debug.specs.Debugged.{Debugged};
    ghost use Rattle.dm_debug.specs.inner.Debugged.{IsDebugged};

    ghost Value = { Debugged };

    ghost view = { λ s. record { machine = s.machine; points = s.points } };

    ghost invariant = { λ s. IsDebugged (record { machine = s.machine; points = s.points }) };
}

impl Session {
    /// A session with no breakpoints, over a machine on which a program is loaded.
    pub fn new(machine: Machine) -> Session
        requires { HasProgram machine }
        ensures { result ≡ new_session machine }
    {
        Session {
            machine,
            points: Points::new(),
        }
    }

    /// A session over a machine on which a program is loaded, with these breakpoints.
    pub fn from_parts(machine: Machine, points: Points) -> Session
        requires { HasProgram machine }
        ensures { result ≡ record { machine = machine; points = points } }
    {
        Session { machine, points }
    }

    /// Another session, over a copy of the machine and with the same breakpoints.
    ///
    /// # Errors
    ///
    /// `AllocError` if an allocation fails.
    pub fn duplicate(&self, alloc: Global) -> Result<Session, AllocError>
        ensures { IfOk result (λ session. session ≡ self.now) }
    {
        let machine = self.machine.duplicate(alloc)?;
        let points = self.points.duplicate();
        Ok(Session { machine, points })
    }

    /// The machine, on which a program is loaded, and the breakpoints.
    pub fn into_parts(self) -> (Machine, Points)
        ensures parts { self ≡ record { machine = result.0; points = result.1 } }
        ensures loaded { HasProgram result.0 }
    {
        (self.machine, self.points)
    }

    /// The machine that is debugged.
    pub fn machine(&self) -> &Machine
        ensures { result.now ≡ self.now.machine }
    {
        &self.machine
    }

    /// Makes at most `n` steps, but none after a step that led to one of `breakpoints`, and returns None there or why
    /// the run stopped, as `Machine::run_until`. The session's own breakpoints do not count, and stay.
    pub fn run_until(&mut self, n: u64, breakpoints: &[Breakpoint]) -> Option<Stop>
        ensures run { RunsUntil self.old.machine n breakpoints.now result self.new.machine }
        ensures points { self.new.points ≡ self.old.points }
    {
        self.machine.run_until(n, breakpoints)
    }

    /// Makes at most `n` steps, and returns why the run stopped, as `Machine::run`. The breakpoints of the session do
    /// not count, and stay.
    pub fn run(&mut self, n: u64) -> Stop
        ensures run { IsRun self.old.machine n result self.new.machine }
        ensures points { self.new.points ≡ self.old.points }
    {
        self.machine.run(n)
    }

    /// Writes the bytes to memory from segment:offset up; offsets wrap. Bytes for the ROM, or where there is no memory,
    /// are lost. Nothing but memory changes.
    pub fn write(&mut self, segment: u16, offset: u16, bytes: &[u8])
        ensures { self.new ≡ with_machine self.old (record self.old.machine
            { memory = with_bytes self.old.machine.memory segment offset bytes.now }) }
    {
        enter(&mut self.machine, segment, offset, bytes);
    }

    /// Sets the registers and flags of the machine; nothing else changes.
    pub fn set_registers(&mut self, registers: Cpu)
        ensures { self.new ≡ with_machine self.old (record self.old.machine { cpu = registers }) }
    {
        self.machine.set_registers(registers);
    }

    /// Whether the command is BC for a breakpoint that is not set.
    fn clears_none(&self, command: &Command) -> bool
        ensures { result ≡ clears_none self.now command.now }
    {
        match command {
            Command::Clear(address) => !self.points.is_set(*address),
            _ => false,
        }
    }

    /// Whether the command is B for a breakpoint that is not set, while sixteen others are.
    fn sets_seventeenth(&self, command: &Command) -> bool
        ensures { result ≡ sets_seventeenth self.now command.now }
    {
        match command {
            Command::Break(address) => self.points.is_seventeenth(*address),
            _ => false,
        }
    }

    /// Adds a breakpoint at the end of the session's list, where there must be room for it; if it is set already, the
    /// list stays. The machine stays.
    fn set(&mut self, address: LogicalAddress)
        requires { sets_seventeenth self.old (Break address) ≡ false }
        ensures { self.new ≡ with_points self.old (with_point self.old.points address) }
    {
        self.points.set(address);
    }

    /// Removes a breakpoint from the session's list; if it is not set, the list stays. The machine stays.
    fn clear(&mut self, address: LogicalAddress)
        ensures { self.new ≡ with_points self.old (without_point self.old.points address) }
    {
        self.points.clear(address);
    }

    /// B: sets a breakpoint, unless it is set already, and appends the line `ok` to `text`. An `Err` is a failed
    /// allocation, and the session stays as it was.
    fn set_point(&mut self, address: LogicalAddress, text: &mut Vec<u8>) -> Result<(), AllocError>
        requires over { sets_seventeenth self.old (Break address) ≡ false }
        ensures ok { OnOk result (self.new ≡ with_points self.old (with_point self.old.points address)) }
        ensures told { OnOk result (text.new.items ≡ text.old.items ++ done) }
        ensures err { OnErr result (self.new ≡ self.old) }
    {
        text.extend_from_slice(DONE)?;
        self.set(address);
        Ok(())
    }

    /// BC: clears a breakpoint, if it is set, and appends the line `ok` to `text`. An `Err` is a failed allocation, and
    /// the session stays as it was.
    fn clear_point(&mut self, address: LogicalAddress, text: &mut Vec<u8>) -> Result<(), AllocError>
        ensures ok { OnOk result (self.new ≡ with_points self.old (without_point self.old.points address)) }
        ensures told { OnOk result (text.new.items ≡ text.old.items ++ done) }
        ensures err { OnErr result (self.new ≡ self.old) }
    {
        text.extend_from_slice(DONE)?;
        self.clear(address);
        Ok(())
    }

    /// E: writes the bytes to memory from an address up, and appends the line `ok` to `text`. Offsets wrap. An `Err` is
    /// a failed allocation, and the session stays as it was.
    fn enter_bytes(
        &mut self,
        address: LogicalAddress,
        bytes: &Bytes,
        text: &mut Vec<u8>,
    ) -> Result<(), AllocError>
        ensures ok { OnOk result (self.new ≡ with_entered self.old address bytes.now) }
        ensures told { OnOk result (text.new.items ≡ text.old.items ++ done) }
        ensures err { OnErr result (self.new ≡ self.old) }
    {
        text.extend_from_slice(DONE)?;
        enter(
            &mut self.machine,
            address.segment,
            address.offset,
            bytes.as_slice(),
        );
        Ok(())
    }

    /// Executes a command, and appends what it prints to `text`. G, T and E change the machine, B and BC the
    /// breakpoints. An `Err` is a failed allocation: the run of a G, or some or all steps of a T, may then have been
    /// made; after any other command the session is unchanged.
    fn perform(&mut self, command: &Command, text: &mut Vec<u8>) -> Result<(), AllocError>
        requires over { sets_seventeenth self.old command.now ≡ false }
        requires empty { text.old.items ≡ [] }
        ensures ok { OnOk result (Does self.old command.now text.new.items self.new) }
        ensures err { OnErr result (DoesPart self.old command.now self.new) }
    {
        match command {
            Command::Registers => put_machine(text, &self.machine),
            Command::Unassemble(at, count) => unassemble(text, &self.machine, *at, *count),
            Command::Dump(at, count) => dump(text, &self.machine, *at, *count),
            Command::Arena => arena(text, &self.machine),
            Command::Pages => pages(text, &self.machine),
            Command::Extended => extended(text, &self.machine),
            Command::Go(n) => go(&mut self.machine, *n, self.points.as_slice(), text),
            Command::Trace(n) => trace(&mut self.machine, *n, text),
            Command::Break(at) => self.set_point(*at, text),
            Command::Clear(at) => self.clear_point(*at, text),
            Command::Breakpoints => put_points(text, self.points.as_slice()),
            Command::Enter(at, bytes) => self.enter_bytes(*at, bytes, text),
            Command::Output => output(text, &self.machine),
        }
    }

    /// Executes the command that a line asks for, and writes what the command prints to `out`, each line with a line
    /// feed (0Ah). `line` has no line end.
    ///
    /// # Errors
    ///
    /// In this order: `Syntax` exactly where the line is no command, or clears a breakpoint that is not set; `Full`
    /// exactly where it sets a seventeenth breakpoint: then nothing has changed, and nothing was written. `Memory` if
    /// an allocation for the answer failed: then nothing was written, and what the command changes may have changed, in
    /// part or whole. `Write` if a write failed or took no byte: then all that the command changes has changed, and a
    /// first part of the answer, or none of it, was written.
    pub fn command<O: Out>(
        &mut self,
        alloc: Global,
        line: &[u8],
        out: &mut O,
    ) -> Result<(), CommandRefusal>
        ensures ok { OnOk result (IsAnswered self.old line.now self.new (O.taken out.old) (O.taken out.new)) }
        ensures no_failure { OnOk result (O.failures out.new ≡ O.failures out.old) }
        ensures syntax { IsErrOf result CommandRefusal.Syntax ↔ (is_syntax self.old (command_of line.now) ≡ true) }
        ensures full { IsErrOf result CommandRefusal.Full ↔ (is_full self.old (command_of line.now) ≡ true) }
        ensures unchanged { IsErrOf result CommandRefusal.Syntax ⊎ IsErrOf result CommandRefusal.Full → (self.new
            ≡ self.old) × (out.new ≡ out.old) }
        ensures memory { IsErrOf result CommandRefusal.Memory → IsCutOff self.old line.now self.new × (out.new
            ≡ out.old) }
        ensures write { IsErrOf result CommandRefusal.Write → IsPartlyWritten self.old line.now self.new (O.taken
            out.old) (O.taken out.new) × HasFailed (O.failures out.old) (O.failures out.new) }
    {
        let Some(command) = read_command(line) else {
            return Err(CommandRefusal::Syntax);
        };
        if self.clears_none(&command) {
            return Err(CommandRefusal::Syntax);
        }
        if self.sets_seventeenth(&command) {
            return Err(CommandRefusal::Full);
        }
        let mut text = Vec::new(alloc);
        if let Err(_) = self.perform(&command, &mut text) {
            return Err(CommandRefusal::Memory);
        }
        match write_all(out, text.as_slice()) {
            Ok(()) => Ok(()),
            Err(_) => Err(CommandRefusal::Write),
        }
    }
}
