//! The machine: how it is made, what it shows of its state, and how memory and room are changed from outside.
ghost use Rattle.std.specs.Prelude.{◌≡◌, ◌≤◌, ◌↔◌, IsTrue, IfOk, IsOk, IsErrOf, OnOk, OnErr, length, max};
ghost use Rattle.dm_space.specs.Memory.{linear, peek, poke};
ghost use Rattle.dm_pool.specs.Stored.{IsTooLarge};
ghost use Rattle.dm_machine.specs.Start.{IsNew, IsStartWith, with_headers};
ghost use Rattle.dm_services.specs.state.State.{HasProgram};

use crate::decode_caches::DecodeCaches;
use dm_alu::Flags;
use dm_arena::{Area, Fit, Strategy};
use dm_console::Console;
use dm_cpu::Cpu;
use dm_ems::Ems;
use dm_pool::{Sizes, Store};
use dm_proc::{Procs, Programs};
use dm_services::state::{Config, Parts};
use dm_space::Space;
use dm_xms::Xms;
use std::alloc::{AllocError, Global};
use std::marker::Model;
use thiserror::Error;

/// Why no machine was made.
#[derive(Clone, Copy, Debug, PartialEq, Eq, Error)]
pub enum NewError {
    /// Over 512 pages of expanded memory, or over 15,360 KiB of extended memory.
    #[error("too large")]
    TooLarge,
    /// An allocation failed.
    #[error("out of memory")]
    Memory,
}

/// A machine that runs one program, and those that it starts.
///
/// Contracts see its state: registers, memory, the tables of expanded and extended memory, console, processes, the
/// allocation strategy, the code with which the first program ended, the count of steps, and what no step changes.
#[derive(Drop)]
pub struct Machine {
    pub(crate) parts: Parts,
    pub(crate) decode_caches: DecodeCaches,
}

impl Model for Machine {
    ghost use Rattle.dm_services.specs.state.State.{State, AreConsistent};

    ghost Value = { State };

    ghost view = { λ m. m.parts };

    ghost invariant = { λ m. AreConsistent m.parts };
}

/// The registers before a program is loaded: all 0, and all flags clear.
#[tactic(auto, unfolding(dm_alu::specs::Flags::flags_of))]
fn clear_registers() -> Cpu
    ensures { result ≡ Rattle.dm_machine.specs.Start.clear_registers }
{
    Cpu {
        ax: 0,
        cx: 0,
        dx: 0,
        bx: 0,
        sp: 0,
        bp: 0,
        si: 0,
        di: 0,
        es: 0,
        cs: 0,
        ss: 0,
        ds: 0,
        ip: 0,
        flags: Flags::from_word(0),
    }
}

/// If `upper`, writes the three headers of an arena that goes on in upper memory: below 9FFFh one free block, at 9FFFh
/// the link block, and from D000h to DFFFh one free block. Otherwise memory stays, with its one header at 0100h.
#[tactic(auto, unfolding(crate::specs::Start::with_upper_headers))]
fn write_headers(space: &mut Space, upper: bool)
    ensures { space.new.memory ≡ with_headers upper space.old.memory }
{
    if upper {
        space.write_bytes(0x0100, 0, &[b'Z', 0, 0, 0xFE, 0x9E]);
        space.write_bytes(0x9FFF, 0, &[b'M', 0x08, 0, 0x00, 0x30]);
        space.write_bytes(0xD000, 0, &[b'Z', 0, 0, 0xFF, 0x0F]);
    }
}

/// The memory of a machine with these sizes of expanded and extended memory as it starts; `upper` is whether upper
/// memory belongs to the arena.
/// `TooLarge` exactly where the sizes are over 512 pages or 15,360 KiB, otherwise `Memory` if an allocation failed.
fn start_space(alloc: Global, sizes: Sizes, upper: bool) -> Result<Space, NewError>
    ensures start { IfOk result (λ space. IsStartWith upper sizes space.memory) }
    ensures few { IfOk result (λ space. sizes.ems_pages ≤ 512) }
    ensures too_large { IsErrOf result NewError.TooLarge ↔ IsTooLarge sizes }
{
    match Store::new(alloc, sizes) {
        Ok(store) => {
            let mut space = Space::new(store);
            write_headers(&mut space, upper);
            Ok(space)
        }
        Err(dm_pool::NewError::TooLarge) => Err(NewError::TooLarge),
        Err(dm_pool::NewError::Memory) => Err(NewError::Memory),
    }
}

impl Machine {
    /// A machine as it starts: RAM of zeros but for the interrupt vectors and the first arena header, or the three
    /// arena headers if the arena continues in upper memory, A20 off, a pool of the configuration's sizes with no
    /// block, no handle of expanded memory but handle 0, none of extended memory, no output, no program loaded.
    ///
    /// The variables of the configuration must have at most 32,767 bytes with their zeros.
    ///
    /// # Errors
    ///
    /// `TooLarge` exactly where the sizes are over 512 pages or 15,360 KiB; otherwise `Memory` if an
    /// allocation failed. The arguments are then dropped.
    pub fn new(
        alloc: Global,
        config: Config,
        programs: Programs,
        input: Vec<u8>,
    ) -> Result<Machine, NewError>
        requires { length config.variables.items ≤ 0x7FFF }
        ensures ok { IfOk result (IsNew config.sizes config.variables.items config.upper programs input.items) }
        ensures too_large { IsErrOf result NewError.TooLarge ↔ IsTooLarge config.sizes }
    {
        let Config {
            sizes,
            variables,
            upper,
        } = config;
        let space = start_space(alloc, sizes, upper)?;
        let Ok(decode_caches) = DecodeCaches::new(alloc) else {
            return Err(NewError::Memory);
        };
        let parts = Parts {
            cpu: clear_registers(),
            space,
            ems: Ems::new(sizes.ems_pages as u16),
            xms: Xms::new(),
            console: Console::new(alloc, input),
            procs: Procs::new(),
            strategy: Strategy {
                fit: Fit::First,
                area: Area::All,
            },
            exited: None,
            steps: 0,
            programs,
            variables,
            sizes,
            upper,
        };
        Ok(Machine {
            parts,
            decode_caches,
        })
    }

    /// Whether a program is loaded, also after it has ended.
    pub fn is_loaded(&self) -> bool
        ensures { IsTrue result ↔ HasProgram self.now }
    {
        self.parts.procs.psp() > 0
    }

    /// Whether upper memory, from segment 9FFFh on, belongs to the arena, as the configuration said.
    pub fn upper(&self) -> bool
        ensures { result ≡ self.now.upper }
    {
        self.parts.upper
    }

    /// How many steps were made so far; at 2^64 - 1 the count stays.
    pub fn steps(&self) -> u64
        ensures { result ≡ self.now.steps }
    {
        self.parts.steps
    }

    /// The segment of the present process's prefix; 0 while no program is loaded.
    pub fn present(&self) -> u16
        ensures { result ≡ self.now.processes.present }
    {
        self.parts.procs.psp()
    }

    /// The registers and flags.
    pub fn cpu(&self) -> Cpu
        ensures { result ≡ self.now.cpu }
    {
        self.parts.cpu
    }

    /// The memory.
    pub fn space(&self) -> &Space
        ensures { result.now.memory ≡ self.now.memory }
    {
        &self.parts.space
    }

    /// The handles and pages of expanded memory.
    pub fn ems(&self) -> &Ems
        ensures { result.now ≡ self.now.ems }
    {
        &self.parts.ems
    }

    /// The handles of extended memory, what keeps A20 on, and the upper memory blocks.
    pub fn xms(&self) -> &Xms
        ensures { result.now ≡ self.now.xms }
    {
        &self.parts.xms
    }

    /// The byte at segment:offset; FFh where there is no memory.
    pub fn peek(&self, segment: u16, offset: u16) -> u8
        ensures { result ≡ peek self.now.memory (linear self.now.memory.a20 segment offset) }
    {
        self.parts.space.peek(segment, offset)
    }

    /// Writes the byte at segment:offset; nothing else changes. A write to ROM, or where there is no memory, is lost. A
    /// program must be loaded.
    pub fn poke(&mut self, segment: u16, offset: u16, value: u8)
        requires { HasProgram self.old }
        ensures { self.new ≡ record self.old {
          memory = poke self.old.memory (linear self.old.memory.a20 segment
              offset) value;
        } }
    {
        self.parts.space.poke(segment, offset, value);
    }

    /// Sets the registers and flags; nothing else changes. A program must be loaded.
    pub fn set_registers(&mut self, registers: Cpu)
        requires { HasProgram self.old }
        ensures { self.new ≡ record self.old { cpu = registers } }
    {
        self.parts.cpu = registers;
    }

    /// Makes the room, how many more bytes of output can be written without an allocation, at least `bytes`. It
    /// allocates nothing if the room is large enough already.
    ///
    /// An `Err` says that the allocation failed, and that nothing has changed.
    pub fn reserve_output(&mut self, bytes: usize) -> Result<(), AllocError>
        ensures ok { OnOk result (self.new ≡ record self.old
            { console = record self.old.console { room = max self.old.console.room bytes } }) }
        ensures err { OnErr result (self.new ≡ self.old) }
        ensures has_room { bytes ≤ self.old.console.room → IsOk result }
    {
        self.parts.console.reserve(bytes)
    }

    /// How many more bytes of output can be written without an allocation; 0 at the start.
    pub fn room(&self) -> usize
        ensures { result ≡ self.now.console.room }
    {
        self.parts.console.room()
    }

    /// All bytes that the program has written to the console.
    pub fn output(&self) -> &[u8]
        ensures { result.now ≡ self.now.console.output }
    {
        self.parts.console.output()
    }
}
