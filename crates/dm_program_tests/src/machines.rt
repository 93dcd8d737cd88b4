//! Machines for tests.
ghost use Rattle.std.specs.Prelude.{◌≡◌, ◌≤◌, IfOk, length};
ghost use Rattle.dm_proc.specs.Programs.{IsName};
ghost use Rattle.dm_services.specs.state.State.{HasProgram};

use dm_machine::{Config, Machine, NewError, Programs, Sizes};
use std::alloc::Global;
use std::test::Fail;

/// The segment of the first program's prefix, and of a COM program's code, data and stack.
pub(crate) const SEGMENT: u16 = 0x0103;

/// A store with one program.
pub(crate) fn store(alloc: Global, name: &[u8], file: &[u8]) -> Result<Programs, Fail>
    requires { IsName name.now }
{
    let mut programs = Programs::new(alloc);
    programs.add(alloc, name, Vec::from_slice(alloc, file)?)?;
    Ok(programs)
}

/// A machine with this many pages and KiB, with a store of programs and no input.
pub(crate) fn sized(alloc: Global, sizes: Sizes, programs: Programs) -> Result<Machine, NewError>
    ensures { IfOk result (λ m. m.processes.present ≡ 0) }
{
    let config = Config {
        sizes,
        variables: Vec::new(alloc),
        upper: false,
    };
    Machine::new(alloc, config, programs, Vec::new(alloc))
}

/// A machine of 64 pages and 1,024 KiB with a store of programs, these variables in the first
/// program's environment, and this input.
pub(crate) fn machine_with(
    alloc: Global,
    programs: Programs,
    variables: &[u8],
    input: &[u8],
) -> Result<Machine, Fail>
    requires { length variables.now ≤ 0x7FFF }
    ensures { IfOk result (λ m. m.processes.present ≡ 0) }
{
    let sizes = Sizes {
        ems_pages: 64,
        xms_kib: 1024,
    };
    let config = Config {
        sizes,
        variables: Vec::from_slice(alloc, variables)?,
        upper: false,
    };
    let input = Vec::from_slice(alloc, input)?;
    Ok(Machine::new(alloc, config, programs, input)?)
}

/// A machine with the one program of this name loaded, and this input.
pub(crate) fn loaded_as(
    alloc: Global,
    name: &[u8],
    program: &[u8],
    input: &[u8],
) -> Result<Machine, Fail>
    requires { IsName name.now }
    ensures { IfOk result (λ m. HasProgram m) }
{
    let mut machine = machine_with(alloc, store(alloc, name, program)?, b"", input)?;
    machine.load(name, b"")?;
    Ok(machine)
}

/// A machine with the one COM program loaded, and this input.
pub(crate) fn loaded(alloc: Global, program: &[u8], input: &[u8]) -> Result<Machine, Fail>
    ensures { IfOk result (λ m. HasProgram m) }
{
    loaded_as(alloc, b"HI.COM", program, input)
}

/// A checksum of the memory below 100000h, which differs if one byte differs.
pub(crate) fn sum_of_memory(machine: &Machine) -> u64 {
    let mut sum = 0u64;
    for segment in 0..=0xFFFF {
        for offset in 0..16 {
            let byte = machine.peek(segment, offset) as u64;
            sum = sum.wrapping_mul(0x0100_0000_01B3).wrapping_add(byte);
        }
    }
    sum
}
