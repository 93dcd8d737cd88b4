//! A host: a machine, the stage that it is at, the answer of the last command, and the report of the last checked run.
ghost use Rattle.std.specs.Prelude.{◌≡◌, ◌≤◌, [], IfOk, IfErr, OnOk, length, option_map};
ghost use Rattle.dm_pool.specs.Stored.{IsTooLarge};
ghost use Rattle.dm_host.specs.Setups.{IsNewFault};
ghost use Rattle.dm_host.specs.Hosts.{new_host, machine_of, Shows, IsNotLoaded};

use crate::kept::KeptReport;
use crate::refusal::Refusal;
use crate::setup::Setup;
use dm_debug::Session;
use dm_machine::{Cpu, Machine, Sizes};
use std::alloc::Global;
use std::marker::Model;

/// The stage that a machine is at.
#[derive(Drop)]
pub enum Stage {
    /// The machine is not made yet: programs can be added, and one loaded.
    Fresh(Setup),
    /// A program is loaded. The machine is in a debugging session.
    Loaded(Session),
    /// The loading failed for good, and there is no machine: the setup is lost.
    Spent,
}

/// A machine at its stage, the answer of the last command or checked run that had one, and the report of the last
/// checked run that had one.
#[derive(Drop)]
pub struct Host {
    pub(crate) stage: Stage,
    pub(crate) answer: Vec<u8>,
    pub(crate) report: KeptReport,
}

impl Model for Host {
    ghost use Rattle.dm_host.specs.Hosts.{Hosted};

    ghost Value = { Hosted };

    ghost view = { λ h. record { stage = h.stage; answer = h.answer.items; report = h.report } };
}

impl Host {
    /// A host with no programs. `variables` are those of the first program's environment, each closed by a zero byte;
    /// with `upper`, upper memory, from segment 9FFFh on, belongs to the arena.
    ///
    /// # Errors
    ///
    /// `TooLarge` exactly where the sizes are over 512 pages or 15,360 KiB; else `VariablesTooLong` exactly where the
    /// variables have over 32,767 bytes; else `Memory` if an allocation failed.
    pub fn new(alloc: Global, sizes: Sizes, variables: &[u8], upper: bool) -> Result<Host, Refusal>
        ensures ok { IfOk result (λ h. h ≡ new_host (record {
          sizes = sizes;
          variables = variables.now;
          upper = upper;
          programs = [];
        })) }
        ensures fits { OnOk result ((IsTooLarge sizes → ⊥) × (length variables.now ≤ 0x7FFF)) }
        ensures err { IfErr result (IsNewFault sizes variables.now) }
    {
        let setup = Setup::new(alloc, sizes, variables, upper)?;
        Ok(Host {
            stage: Stage::Fresh(setup),
            answer: Vec::new(alloc),
            report: KeptReport::new(alloc),
        })
    }

    /// The machine, if a program is loaded; otherwise None.
    pub fn machine(&self) -> Option<&Machine>
        ensures { option_map (λ m. m.now) result ≡ machine_of self.now.stage }
    {
        match &self.stage {
            Stage::Loaded(session) => Some(session.machine()),
            _ => None,
        }
    }

    /// How many steps were made so far; at 2^64 - 1 the count stays.
    ///
    /// # Errors
    ///
    /// `NotLoaded` exactly where no program is loaded.
    pub fn steps(&self) -> Result<u64, Refusal>
        ensures ok { IfOk result (λ n. Shows self.now (λ s. n ≡ s.steps)) }
        ensures err { IfErr result (IsNotLoaded self.now) }
    {
        match self.machine() {
            Some(machine) => Ok(machine.steps()),
            None => Err(Refusal::NotLoaded),
        }
    }

    /// The registers and flags.
    ///
    /// # Errors
    ///
    /// `NotLoaded` exactly where no program is loaded.
    pub fn registers(&self) -> Result<Cpu, Refusal>
        ensures ok { IfOk result (λ cpu. Shows self.now (λ s. cpu ≡ s.cpu)) }
        ensures err { IfErr result (IsNotLoaded self.now) }
    {
        match self.machine() {
            Some(machine) => Ok(machine.cpu()),
            None => Err(Refusal::NotLoaded),
        }
    }

    /// All bytes that were written to the console since the machine was made.
    ///
    /// # Errors
    ///
    /// `NotLoaded` exactly where no program is loaded.
    pub fn output(&self) -> Result<&[u8], Refusal>
        ensures ok { IfOk result (λ bytes. Shows self.now (λ s. bytes.now ≡ s.console.output)) }
        ensures err { IfErr result (IsNotLoaded self.now) }
    {
        match self.machine() {
            Some(machine) => Ok(machine.output()),
            None => Err(Refusal::NotLoaded),
        }
    }

    /// The answer of the last command or checked run that had one; no bytes before the first.
    pub fn answer(&self) -> &[u8]
        ensures { result.now ≡ self.now.answer }
    {
        self.answer.as_slice()
    }
}
