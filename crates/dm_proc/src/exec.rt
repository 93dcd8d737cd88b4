//! How a program is started (MS-DOS Programmer's Reference, function 4Bh "Load and Execute
//! Program").
ghost use Rattle.std.specs.Prelude.{◌≡◌, ◌<◌, ◌≤◌, length, IfOk};
ghost use Rattle.dm_proc.specs.Request.{passed_of};
ghost use Rattle.dm_proc.specs.Processes.{Executes, Loads};

use crate::arguments::Arguments;
use crate::environment::{make_environment, put_environment};
use crate::launch::{plan, start};
use crate::procs::Procs;
use crate::programs::Programs;
use crate::refusal::ExecRefusal;
use crate::request::{arguments_at, asked_program, environment_segment};
use dm_arena::Strategy;
use dm_cpu::{Cpu, interrupt_return};
use dm_load::Image;
use dm_space::Space;

/// The registers after a call of function 4Bh that succeeds: IP, CS and FLAGS popped from the stack, CF clear.
#[tactic(auto, unfolding(crate::specs::Processes::return_registers))]
fn return_registers(cpu: &Cpu, space: &Space) -> Cpu
    ensures { result ≡ Rattle.dm_proc.specs.Processes.return_registers cpu.now space.now.memory }
{
    let mut cpu = *cpu;
    interrupt_return(&mut cpu, space);
    cpu.flags.carry = false;
    cpu
}

impl Procs {
    /// Starts the program that the registers and the parameter block ask for (function 4Bh, AL = 0): the name at
    /// DS:DX, the parameter block at ES:BX. The program becomes the present process, and `cpu` gets its registers. The
    /// process so far waits, with its registers as they are after the call: IP, CS and FLAGS popped, CF clear.
    ///
    /// All of guest memory that is read, the return address among it, is read before anything is written; the blocks of
    /// environment and program are planned before either is written. The scratch part may be overwritten, also where
    /// the call fails.
    ///
    /// # Errors
    ///
    /// In this order: `Function`; `NotFound`; `BadFormat`; `Environment`; `Destroyed` where memory spells no clear list
    /// of blocks; `Short` where there is no room for the blocks; `Destroyed` where the new list would not be clear;
    /// `Short` where sixteen processes are alive. An error changes neither memory nor registers nor processes.
    pub fn exec(
        &mut self,
        cpu: &mut Cpu,
        space: &mut Space,
        programs: &Programs,
        strategy: Strategy,
        upper: bool,
    ) -> Result<(), ExecRefusal>
        ensures { Executes upper self.old cpu.old space.old.memory programs.now strategy result self.new cpu.new
            space.new.memory }
    {
        if cpu.ax % 256 != 0 {
            return Err(ExecRefusal::Function);
        }
        let program = asked_program(cpu, space, programs)?;
        let segment = environment_segment(cpu, space, self.psp());
        let Some(environment_bytes) = make_environment(space, segment, program.name.as_slice())
        else {
            return Err(ExecRefusal::Environment);
        };
        let pair = plan(space, strategy, &program.image, environment_bytes, upper)?;
        if self.is_full() {
            return Err(ExecRefusal::Short);
        }
        let arguments = arguments_at(cpu, space);
        let after = return_registers(cpu, space);
        let parent = self.psp();
        let started = start(
            space,
            &program.image,
            pair,
            environment_bytes,
            parent,
            &arguments,
            upper,
        );
        self.begin(started.segment, after);
        *cpu = started.cpu;
        Ok(())
    }

    /// Starts the first program: it is the only process. Returns the processes, and the registers that the program
    /// starts with. Each of the variables is ended by a zero; together they have at most 32,767 bytes, the name at
    /// most 64.
    ///
    /// # Errors
    ///
    /// `Destroyed` where memory spells no clear list of blocks or the new list would not be clear, `Short` where there
    /// is no room for the blocks of environment and program. An error changes no byte of memory. The scratch part may
    /// be overwritten, also where the call fails.
    pub fn load(
        space: &mut Space,
        strategy: Strategy,
        image: &Image,
        variables: &[u8],
        name: &[u8],
        arguments: &Arguments,
        upper: bool,
    ) -> Result<(Procs, Cpu), ExecRefusal>
        requires variables { length variables.now ≤ 0x7FFF }
        requires name { length name.now ≤ 64 }
        ensures loads { Loads upper space.old.memory strategy image.now variables.now name.now (passed_of
            arguments.now) result space.new.memory }
        ensures present { IfOk result (λ r. 0 < r.0.present) }
    {
        let environment_bytes = put_environment(space, variables, name);
        let pair = plan(space, strategy, image, environment_bytes, upper)?;
        let started = start(space, image, pair, environment_bytes, 0, arguments, upper);
        Ok((Procs::of_first(started.segment), started.cpu))
    }
}
