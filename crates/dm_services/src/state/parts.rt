//! The parts of a machine: what instructions, services and drivers read and change.
ghost use Rattle.std.specs.Prelude.{◌≡◌, IfOk};
ghost use Rattle.dm_services.specs.state.State.{go, interrupt_returned, far_returned};

use dm_arena::Strategy;
use dm_console::Console;
use dm_cpu::{Cpu, far_return, interrupt_return};
use dm_ems::Ems;
use dm_pool::Sizes;
use dm_proc::{Procs, Programs};
use dm_space::Space;
use dm_xms::Xms;
use std::alloc::{AllocError, Global};
use std::marker::Model;

/// The parts of a machine, on which instructions and services act.
///
/// Contracts see its state: registers, memory, the tables of expanded and extended memory, console, processes, the
/// allocation strategy, the code with which the first program ended, the count of steps, and what no step changes.
#[derive(Drop)]
pub struct Parts {
    /// The registers and flags.
    pub cpu: Cpu,
    /// The memory.
    pub space: Space,
    /// Expanded memory: its handles and their pages.
    pub ems: Ems,
    /// Extended memory: its handles, what keeps A20 on, and upper memory blocks.
    pub xms: Xms,
    /// The input and the output.
    pub console: Console,
    /// The processes that are alive.
    pub procs: Procs,
    /// Which free block an allocation takes.
    pub strategy: Strategy,
    /// The code with which the first program ended.
    pub exited: Option<u8>,
    /// How many steps were made; at 2^64 - 1 the count stays.
    pub steps: u64,
    /// The programs that can be started.
    pub programs: Programs,
    /// The variables of the first program's environment, each closed by a zero byte: at most 32,767
    /// bytes.
    pub variables: Vec<u8>,
    /// How much expanded and extended memory there is.
    pub sizes: Sizes,
    /// Whether upper memory, from segment 9FFFh on, belongs to the arena.
    pub upper: bool,
}

impl Model for Parts {
    ghost use Rattle.std.specs.Prelude.{◌≤◌, length};
    ghost use Rattle.dm_services.specs.state.State.{State};
    ghost use Rattle.dm_services.specs.state.inner.State.{HaveSegments};

    ghost Value = { State };

    ghost view = { λ p. record {
      cpu = p.cpu;
      memory = p.space.memory;
      ems = p.ems;
      xms = p.xms;
      console = p.console;
      processes = p.procs;
      strategy = p.strategy;
      exited = p.exited;
      steps = p.steps;
      programs = p.programs;
      variables = p.variables.items;
      sizes = p.sizes;
      upper = p.upper;
    } };

    ghost invariant = { λ p. (length p.variables.items ≤ 0x7FFF) × HaveSegments p.procs.parents };
}

impl Parts {
    /// The parts of another machine in the same state, which share nothing with these.
    ///
    /// # Errors
    ///
    /// `AllocError` if an allocation fails.
    pub fn duplicate(&self, alloc: Global) -> Result<Parts, AllocError>
        ensures { IfOk result (λ parts. parts ≡ self.now) }
    {
        let space = self.space.duplicate(alloc)?;
        let console = self.console.duplicate(alloc)?;
        let programs = self.programs.duplicate(alloc)?;
        let variables = Vec::from_slice(alloc, self.variables.as_slice())?;
        Ok(Parts {
            cpu: self.cpu,
            space,
            ems: self.ems.duplicate(),
            xms: self.xms.duplicate(),
            console,
            procs: self.procs.duplicate(),
            strategy: self.strategy,
            exited: self.exited,
            steps: self.steps,
            programs,
            variables,
            sizes: self.sizes,
            upper: self.upper,
        })
    }

    /// Adds 1 to the count of steps; at 2^64 - 1 the count stays.
    pub fn count(&mut self)
        ensures { self.new ≡ (go self.old).state }
    {
        self.steps = self.steps.saturating_add(1);
    }

    /// Returns from a service or a driver that was called by INT as IRET does: pops IP, CS and FLAGS from the stack at
    /// SS:SP. Memory and the count of steps stay.
    pub fn return_from_interrupt(&mut self)
        ensures { self.new ≡ interrupt_returned self.old }
    {
        interrupt_return(&mut self.cpu, &self.space);
    }

    /// Returns from the far call of the extended memory driver as RETF does: pops IP and CS from the stack at SS:SP.
    /// FLAGS, memory and the count of steps stay.
    pub fn return_far(&mut self)
        ensures { self.new ≡ far_returned self.old }
    {
        far_return(&mut self.cpu, &self.space, 0);
    }
}
