//! The calls on a host: each function calls that of the same name of `Host` (`add_program` calls `add`), and returns a
//! status, 0 or that of the refusal. What C passes by reference is set with status 0 alone, but `wanted` of `output`
//! with status 4 too.
ghost use Rattle.std.specs.Prelude.{◌≡◌, true, false};
ghost use Rattle.dm_c.specs.calls.Events.{EventsTo};
ghost use Rattle.dm_c.specs.calls.Machines.{AddsTo, LoadsTo, RunsBy, RunsUntilTo, StepsTo, RegistersTo, SetsRegistersTo, ReadsTo, WritesTo, ReadsLinearTo, WritesLinearTo, OutputTo, OutputCountTo, SetsMoreTo, SuppliesTo, InputLeftTo, CommandsTo, ChecksTo};

use crate::calls::events::{Awaited, BAD_EVENT, are_known, ended_of, events_of, place_in};
use crate::calls::values::{
    OK, OUT_OF_MEMORY, Point, Registers, Stopped, cpu_of, give_items, points_of, registers_of,
    rest_of, status_by, stopped_of,
};
use dm_host::Host;
use std::alloc::Global;

/// Adds a program under a name; nothing changes unless the status is 0.
pub fn add_program(alloc: Global, host: &mut Host, name: &[u8], program: &[u8]) -> u32
    ensures { AddsTo host.old name.now program.now result host.new }
{
    status_by!(host.add(alloc, name, program))
}

/// Loads the program of a name, with a command tail and the console input. With status 13 or 3 the host is spent; with
/// any other but 0 nothing changes.
pub fn load(alloc: Global, host: &mut Host, name: &[u8], tail: &[u8], input: &[u8]) -> u32
    ensures { LoadsTo host.old name.now tail.now input.now result host.new }
{
    status_by!(host.load(alloc, name, tail, input))
}

/// Makes at most `steps` steps, and sets `stopped` to why the run stopped. Status 14, and no change, if no program is
/// loaded.
pub fn run(host: &mut Host, steps: u64, stopped: &mut Stopped) -> u32
    ensures { RunsBy host.old steps stopped.old stopped.new result host.new }
{
    status_by!(host.run(steps), stop => {
        *stopped = stopped_of(Some(stop));
        OK
    })
}

/// Makes at most `steps` steps, up to the first one that leads to one of `points`, and sets `stopped` to why the run
/// stopped. Status 3 if the allocation of the list of breakpoints failed, else 14 if no program is loaded; then nothing
/// changes. An allocation that fails during the run is a stop (6), with status 0.
pub fn run_until(
    alloc: Global,
    host: &mut Host,
    steps: u64,
    points: &[Point],
    stopped: &mut Stopped,
) -> u32
    ensures { RunsUntilTo host.old steps points.now stopped.old stopped.new result host.new }
{
    let Ok(breakpoints) = points_of(alloc, points) else {
        return OUT_OF_MEMORY;
    };
    status_by!(host.run_until(steps, breakpoints.as_slice()), stop => {
        *stopped = stopped_of(stop);
        OK
    })
}

/// Makes at most `steps` steps, up to the first one that leads to one of the events, sets `stopped` to why the run
/// stopped and, if an event came, `place` to its index in the list. Status 23 if the kind of an event is none, else 3
/// if an allocation failed, or 14 if no program is loaded; then nothing changes. An allocation that fails during the
/// run is a stop (6), with status 0.
pub fn run_to(
    alloc: Global,
    host: &mut Host,
    steps: u64,
    events: &[Awaited],
    stopped: &mut Stopped,
    place: &mut usize,
) -> u32
    ensures { EventsTo host.old steps events.now stopped.old stopped.new place.old place.new result host.new }
{
    if !are_known(events) {
        return BAD_EVENT;
    }
    let Ok(wanted) = events_of(alloc, events) else {
        return OUT_OF_MEMORY;
    };
    status_by!(host.run_to(alloc, steps, wanted.as_slice()), ending => {
        *stopped = ended_of(ending);
        *place = place_in(ending, *place);
        OK
    })
}

/// Sets `steps` to how many steps were made so far. Status 14, and no change, if no program is loaded.
pub fn steps(host: &Host, steps: &mut u64) -> u32
    ensures { StepsTo host.now steps.old steps.new result host.now }
{
    status_by!(host.steps(), made => {
        *steps = made;
        OK
    })
}

/// Sets `registers` to the machine's registers. Status 14, and no change, if no program is loaded.
pub fn registers(host: &Host, registers: &mut Registers) -> u32
    ensures { RegistersTo host.now registers.old registers.new result host.now }
{
    status_by!(host.registers(), cpu => {
        *registers = registers_of(cpu);
        OK
    })
}

/// Sets the machine's registers and flags. Status 14, and no change, if no program is loaded.
pub fn set_registers(host: &mut Host, registers: Registers) -> u32
    ensures { SetsRegistersTo host.old registers result host.new }
{
    status_by!(host.set_registers(cpu_of(registers)))
}

/// Fills the buffer with the bytes of memory from segment:offset on; offsets wrap. Status 14, and no change, if no
/// program is loaded.
pub fn read(host: &Host, segment: u16, offset: u16, buffer: &mut [u8]) -> u32
    ensures { ReadsTo host.now segment offset buffer.old buffer.new result host.now }
{
    status_by!(host.read(segment, offset, buffer))
}

/// Writes the bytes to memory from segment:offset on; offsets wrap, and bytes for the ROM, or where there is no memory,
/// are lost. Status 14, and no change, if no program is loaded.
pub fn write(host: &mut Host, segment: u16, offset: u16, bytes: &[u8]) -> u32
    ensures { WritesTo host.old segment offset bytes.now result host.new }
{
    status_by!(host.write(segment, offset, bytes))
}

/// Fills the buffer with the bytes of memory from a linear address up, as a program reads them; they are FFh past
/// FFFF:FFFF. Status 14, and no change, if no program is loaded.
pub fn read_linear(host: &Host, address: u32, buffer: &mut [u8]) -> u32
    ensures { ReadsLinearTo host.now address buffer.old buffer.new result host.now }
{
    status_by!(host.read_linear(address, buffer))
}

/// Writes the bytes to memory from a linear address up, as a program does; those for the ROM, where there is no memory,
/// or past FFFF:FFFF, are lost. Status 14, and no change, if no program is loaded.
pub fn write_linear(host: &mut Host, address: u32, bytes: &[u8]) -> u32
    ensures { WritesLinearTo host.old address bytes.now result host.new }
{
    status_by!(host.write_linear(address, bytes))
}

/// Sets `wanted` to how many bytes were written to the console from the offset `from` on, 0 past the end, and copies
/// them to the front of the buffer if they fit; otherwise the buffer stays, with status 4. Status 14, and no change, if
/// no program is loaded.
pub fn output(host: &Host, from: usize, buffer: &mut [u8], wanted: &mut usize) -> u32
    ensures { OutputTo host.now from buffer.old buffer.new wanted.old wanted.new result host.now }
{
    status_by!(host.output(), bytes => give_items(rest_of(bytes, from), buffer, wanted))
}

/// Sets `count` to how many bytes were written to the console. Status 14, and no change, if no program is loaded.
pub fn output_count(host: &Host, count: &mut usize) -> u32
    ensures { OutputCountTo host.now count.old count.new result host.now }
{
    status_by!(host.output(), bytes => {
        *count = bytes.len();
        OK
    })
}

/// Says that more console input may come. Status 14, and no change, if no program is loaded.
pub fn open_input(host: &mut Host) -> u32
    ensures { SetsMoreTo host.old true result host.new }
{
    status_by!(host.open_input())
}

/// Says that no more console input comes. Status 14, and no change, if no program is loaded.
pub fn close_input(host: &mut Host) -> u32
    ensures { SetsMoreTo host.old false result host.new }
{
    status_by!(host.close_input())
}

/// Adds bytes to the end of the console input. Status 14 if no program is loaded, 22 if its input is closed, 3 if an
/// allocation failed; then nothing changes.
pub fn supply(host: &mut Host, bytes: &[u8]) -> u32
    ensures { SuppliesTo host.old bytes.now result host.new }
{
    status_by!(host.supply(bytes))
}

/// Sets `left` to how many bytes of console input are left. Status 14, and no change, if no program is loaded.
pub fn input_left(host: &Host, left: &mut usize) -> u32
    ensures { InputLeftTo host.now left.old left.new result host.now }
{
    status_by!(host.input_left(), count => {
        *left = count;
        OK
    })
}

/// Executes the debugger command of a line, keeps what it prints as the answer, and sets `wanted` to the answer's
/// length. At a refusal nothing changes, but with status 3 the command, or some first part of it, may have been
/// executed.
pub fn command(alloc: Global, host: &mut Host, line: &[u8], wanted: &mut usize) -> u32
    ensures { CommandsTo host.old line.now wanted.old wanted.new result host.new }
{
    status_by!(host.command(alloc, line), () => {
        *wanted = host.answer().len();
        OK
    })
}

/// Makes at most `steps` steps under the memory checker, and sets `stopped` to why the run stopped and `wanted` to the
/// length of the report, which becomes the answer. At a refusal nothing changes, but with status 3 none, some or all of
/// the run's steps were made.
pub fn check(
    alloc: Global,
    host: &mut Host,
    steps: u64,
    stopped: &mut Stopped,
    wanted: &mut usize,
) -> u32
    ensures { ChecksTo host.old steps stopped.old stopped.new wanted.old wanted.new result host.new }
{
    status_by!(host.check(alloc, steps), stop => {
        *stopped = stopped_of(Some(stop));
        *wanted = host.answer().len();
        OK
    })
}
