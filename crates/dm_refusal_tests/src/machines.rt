//! Machines on which calls are made, and whether two are alike.
ghost use Rattle.std.specs.Prelude.{◌≡◌, IfOk};
ghost use Rattle.dm_services.specs.state.State.{HasProgram};

use anyhow::Result;
use dm_machine::{Config, Machine, NewError, Programs, Sizes, Stop};
use std::alloc::{AllocError, Global};

/// Where a call is made: a COM program, the console's input, and the number of steps before it.
#[derive(Clone, Copy)]
pub(crate) struct Scene<'a> {
    pub(crate) program: &'a [u8],
    pub(crate) input: &'a [u8],
    pub(crate) steps: u64,
}

/// A machine of the smallest sizes, with a store of programs and this input.
pub(crate) fn new_machine(
    alloc: Global,
    programs: Programs,
    input: Vec<u8>,
) -> Result<Machine, NewError>
    ensures { IfOk result (λ m. m.processes.present ≡ 0) }
{
    let config = Config {
        sizes: Sizes {
            ems_pages: 0,
            xms_kib: 0,
        },
        variables: Vec::new(alloc),
        upper: false,
    };
    Machine::new(alloc, config, programs, input)
}

/// A store with the one program `HI.COM`.
pub(crate) fn store_of(alloc: Global, program: &[u8]) -> Result<Programs> {
    let mut programs = Programs::new(alloc);
    programs.add(alloc, b"HI.COM", Vec::from_slice(alloc, program)?)?;
    Ok(programs)
}

/// A machine that has executed a scene's steps.
pub(crate) fn machine_at(alloc: Global, scene: Scene) -> Result<Machine>
    ensures { IfOk result (λ m. HasProgram m) }
{
    let programs = store_of(alloc, scene.program)?;
    let input = Vec::from_slice(alloc, scene.input)?;
    let mut machine = new_machine(alloc, programs, input)?;
    machine.load(b"HI.COM", b"")?;
    if machine.run(scene.steps) == Stop::Memory {
        return Err(AllocError.into());
    }
    Ok(machine)
}

/// Whether two machines have the same byte at each address.
fn have_same_bytes(one: &Machine, other: &Machine) -> bool {
    for segment in 0..=0xFFFFu16 {
        for offset in 0..16u16 {
            if one.peek(segment, offset) != other.peek(segment, offset) {
                return false;
            }
        }
    }
    true
}

/// Whether two machines are alike: registers, steps, output, room, and each byte below 100000h.
pub(crate) fn are_alike(one: &Machine, other: &Machine) -> bool {
    one.cpu() == other.cpu()
        && one.steps() == other.steps()
        && one.output() == other.output()
        && one.room() == other.room()
        && have_same_bytes(one, other)
}
