//! The exports on the handle of a machine, which `include/mezguld.h` declares for C. Each returns a status: 0 for
//! success, otherwise why not, as module `calls` numbers it. But for `dm_c_new` and `dm_c_free`, the status is 1 if
//! the handle holds no machine, and nothing changes then. For all that need a loaded program, it is 14 if there is
//! none (3 if an allocation for the points of `dm_c_run_until` fails before), and nothing changes then.
ghost use Rattle.std.specs.Prelude.{◌≡◌, ◌<◌, true, false, nat_lt};
ghost use Rattle.dm_c.specs.Statuses.{version_number};
ghost use Rattle.dm_c.specs.Endings.{IsCall, IsNone};
ghost use Rattle.dm_c.specs.Handles.{Makes, CopiesTo};
ghost use Rattle.dm_c.specs.calls.Events.{EventsTo};
ghost use Rattle.dm_c.specs.calls.Machines.{AddsTo, LoadsTo, RunsBy, RunsUntilTo, StepsTo, RegistersTo, SetsRegistersTo, ReadsTo, WritesTo, ReadsLinearTo, WritesLinearTo, OutputTo, OutputCountTo, SetsMoreTo, SuppliesTo, InputLeftTo, CommandsTo, ChecksTo, AnswersTo};

use crate::calls::{
    Awaited, IN_USE, OK, OUT_OF_MEMORY, Point, Registers, Stopped, give_items, status_of,
};
use crate::handle::{MachineHandle, on_machine};
use crate::{calls, copies};
use dm_host::Host;
use dm_machine::Sizes;
use std::alloc::Global;

/// The version of the library, 2.0.0, as one number.
const VERSION: u32 = 20_000;

/// The version of the library, as one number: 10,000 for each whole version, 100 for each smaller one, and the
/// corrections.
#[unsafe(no_mangle)]
pub extern "C" fn dm_c_version() -> u32
    ensures { result ≡ version_number }
{
    VERSION
}

/// Makes a machine with no programs in a handle that holds no machine. Any `upper` but 0 adds upper memory to the
/// arena. Nothing changes unless the status is 0; the status is 2 if the handle holds a machine.
#[unsafe(no_mangle)]
pub extern "C" fn dm_c_new(
    alloc: Global,
    machine: &mut MachineHandle,
    ems_pages: u32,
    xms_kib: u32,
    variables: &[u8],
    upper: u32,
) -> u32
    ensures { Makes machine.old.inside.value machine.new.inside.value (record {
      ems_pages = ems_pages;
      xms_kib = xms_kib;
    }) variables.now (nat_lt 0 upper) result }
{
    if machine.is_held() {
        return IN_USE;
    }
    let sizes = Sizes { ems_pages, xms_kib };
    let host = match Host::new(alloc, sizes, variables, 0 < upper) {
        Ok(host) => host,
        Err(refusal) => return status_of(refusal),
    };
    match Box::new(alloc, host) {
        Ok(host) => {
            machine.put(host);
            OK
        }
        Err(_) => OUT_OF_MEMORY,
    }
}

/// Makes a second machine in the state of the first one, in a handle that holds no machine: with the same programs,
/// breakpoints and answer. Nothing changes unless the status is 0; the status is 2 if the handle of the copy holds a
/// machine.
#[unsafe(no_mangle)]
pub extern "C" fn dm_c_copy(
    alloc: Global,
    machine: &mut MachineHandle,
    copy: &mut MachineHandle,
) -> u32
    ensures { IsCall machine.old.inside.value machine.new.inside.value ((result ≡ 1) ×
        (copy.new ≡ copy.old)) (λ h g. CopiesTo h copy.old.inside.value copy.new.inside.value result × (g ≡ h)) }
{
    on_machine!(machine, alloc, host => copies::copy(alloc, &host, copy))
}

/// Frees the machine of a handle, if it holds one. The handle is as `MEZGULD_NONE` then, and the status is 0.
#[unsafe(no_mangle)]
pub extern "C" fn dm_c_free(alloc: Global, machine: &mut MachineHandle) -> u32
    ensures { (result ≡ 0) × IsNone machine.new }
{
    drop(machine.take(alloc));
    *machine = MachineHandle::none();
    OK
}

/// Adds a program under a name to the machine. Nothing changes unless the status is 0.
#[unsafe(no_mangle)]
pub extern "C" fn dm_c_add(
    alloc: Global,
    machine: &mut MachineHandle,
    name: &[u8],
    program: &[u8],
) -> u32
    ensures { IsCall machine.old.inside.value machine.new.inside.value (result
        ≡ 1) (λ h g. AddsTo h name.now program.now result g) }
{
    on_machine!(machine, alloc, host => calls::add_program(alloc, &mut host, name, program))
}

/// Loads the program of a name, with a command tail and the console input. With status 13 (short) or 3 (out of memory)
/// no program can be added or loaded any more; with any other but 0 nothing changes.
#[unsafe(no_mangle)]
pub extern "C" fn dm_c_load(
    alloc: Global,
    machine: &mut MachineHandle,
    name: &[u8],
    tail: &[u8],
    input: &[u8],
) -> u32
    ensures { IsCall machine.old.inside.value machine.new.inside.value (result
        ≡ 1) (λ h g. LoadsTo h name.now tail.now input.now result g) }
{
    on_machine!(machine, alloc, host => calls::load(alloc, &mut host, name, tail, input))
}

/// Makes at most `steps` steps, and sets `stopped` to why the run stopped. Nothing changes unless the status is 0.
#[unsafe(no_mangle)]
pub extern "C" fn dm_c_run(
    alloc: Global,
    machine: &mut MachineHandle,
    steps: u64,
    stopped: &mut Stopped,
) -> u32
    ensures { IsCall machine.old.inside.value machine.new.inside.value ((result ≡ 1) ×
        (stopped.new ≡ stopped.old)) (λ h g. RunsBy h steps stopped.old stopped.new result g) }
{
    on_machine!(machine, alloc, host => calls::run(&mut host, steps, stopped))
}

/// Makes at most `steps` steps, up to the first one that leads to one of `points`, and sets `stopped` to why the run
/// stopped. Nothing changes unless the status is 0.
#[unsafe(no_mangle)]
pub extern "C" fn dm_c_run_until(
    alloc: Global,
    machine: &mut MachineHandle,
    steps: u64,
    points: &[Point],
    stopped: &mut Stopped,
) -> u32
    ensures { IsCall machine.old.inside.value machine.new.inside.value ((result ≡ 1) ×
        (stopped.new ≡ stopped.old)) (λ h g. RunsUntilTo h steps points.now stopped.old stopped.new result g) }
{
    on_machine!(machine, alloc, host => calls::run_until(alloc, &mut host, steps, points, stopped))
}

/// Makes at most `steps` steps, up to the first one that leads to one of the events, sets `stopped` to why the run
/// stopped and, if an event came, `index` to its place in the list. Nothing changes unless the status is 0; it is 23 if
/// the kind of an event is none.
#[unsafe(no_mangle)]
pub extern "C" fn dm_c_run_to(
    alloc: Global,
    machine: &mut MachineHandle,
    steps: u64,
    events: &[Awaited],
    stopped: &mut Stopped,
    index: &mut usize,
) -> u32
    ensures { IsCall machine.old.inside.value machine.new.inside.value ((result ≡ 1) × (stopped.new ≡ stopped.old) ×
        (index.new ≡ index.old)) (λ h g. EventsTo h steps events.now stopped.old stopped.new index.old index.new result
        g) }
{
    on_machine!(machine, alloc, host => calls::run_to(alloc, &mut host, steps, events, stopped, index))
}

/// Sets `steps` to how many steps the machine has made so far; at 2^64 - 1 the count stays. `steps` stays unless the
/// status is 0.
#[unsafe(no_mangle)]
pub extern "C" fn dm_c_steps(alloc: Global, machine: &mut MachineHandle, steps: &mut u64) -> u32
    ensures { IsCall machine.old.inside.value machine.new.inside.value ((result ≡ 1) ×
        (steps.new ≡ steps.old)) (λ h g. StepsTo h steps.old steps.new result g) }
{
    on_machine!(machine, alloc, host => calls::steps(&host, steps))
}

/// Sets `registers` to the machine's registers. They stay unless the status is 0.
#[unsafe(no_mangle)]
pub extern "C" fn dm_c_registers(
    alloc: Global,
    machine: &mut MachineHandle,
    registers: &mut Registers,
) -> u32
    ensures { IsCall machine.old.inside.value machine.new.inside.value ((result ≡ 1) ×
        (registers.new ≡ registers.old)) (λ h g. RegistersTo h registers.old registers.new result g) }
{
    on_machine!(machine, alloc, host => calls::registers(&host, registers))
}

/// Sets the machine's registers and flags. Of the flags' word only the bits of the nine flags count. Nothing changes
/// unless the status is 0.
#[unsafe(no_mangle)]
pub extern "C" fn dm_c_set_registers(
    alloc: Global,
    machine: &mut MachineHandle,
    registers: &Registers,
) -> u32
    ensures { IsCall machine.old.inside.value machine.new.inside.value (result
        ≡ 1) (λ h g. SetsRegistersTo h registers.now result g) }
{
    on_machine!(machine, alloc, host => calls::set_registers(&mut host, *registers))
}

/// Fills the buffer with the bytes of memory from segment:offset on; offsets wrap, and bytes where there is no memory
/// are FFh. The buffer stays unless the status is 0.
#[unsafe(no_mangle)]
pub extern "C" fn dm_c_read(
    alloc: Global,
    machine: &mut MachineHandle,
    segment: u16,
    offset: u16,
    buffer: &mut [u8],
) -> u32
    ensures { IsCall machine.old.inside.value machine.new.inside.value ((result ≡ 1) ×
        (buffer.new ≡ buffer.old)) (λ h g. ReadsTo h segment offset buffer.old buffer.new result g) }
{
    on_machine!(machine, alloc, host => calls::read(&host, segment, offset, buffer))
}

/// Writes the bytes to memory from segment:offset on; offsets wrap, and bytes for the ROM, or where there is no memory,
/// are lost. Nothing changes unless the status is 0.
#[unsafe(no_mangle)]
pub extern "C" fn dm_c_write(
    alloc: Global,
    machine: &mut MachineHandle,
    segment: u16,
    offset: u16,
    bytes: &[u8],
) -> u32
    ensures { IsCall machine.old.inside.value machine.new.inside.value (result
        ≡ 1) (λ h g. WritesTo h segment offset bytes.now result g) }
{
    on_machine!(machine, alloc, host => calls::write(&mut host, segment, offset, bytes))
}

/// Fills the buffer with the bytes of memory from a linear address up, as a program reads them: while the A20 line is
/// off, bit 20 of an address is. Bytes where there is no memory, and past FFFF:FFFF, are FFh. The buffer stays unless
/// the status is 0.
#[unsafe(no_mangle)]
pub extern "C" fn dm_c_read_linear(
    alloc: Global,
    machine: &mut MachineHandle,
    address: u32,
    buffer: &mut [u8],
) -> u32
    ensures { IsCall machine.old.inside.value machine.new.inside.value ((result ≡ 1) ×
        (buffer.new ≡ buffer.old)) (λ h g. ReadsLinearTo h address buffer.old buffer.new result g) }
{
    on_machine!(machine, alloc, host => calls::read_linear(&host, address, buffer))
}

/// Writes the bytes to memory from a linear address up, as a program does: while the A20 line is off, bit 20 of an
/// address is. Bytes for the ROM, where there is no memory, or past FFFF:FFFF, are lost. Nothing changes unless the
/// status is 0.
#[unsafe(no_mangle)]
pub extern "C" fn dm_c_write_linear(
    alloc: Global,
    machine: &mut MachineHandle,
    address: u32,
    bytes: &[u8],
) -> u32
    ensures { IsCall machine.old.inside.value machine.new.inside.value (result
        ≡ 1) (λ h g. WritesLinearTo h address bytes.now result g) }
{
    on_machine!(machine, alloc, host => calls::write_linear(&mut host, address, bytes))
}

/// Copies the bytes that were written to the console, from the offset `from` on, to the front of the buffer, and sets
/// `wanted` to how many they are; past the end of the output there are none. If they do not fit, the status is 4, and
/// only `wanted` changes; with any other but 0 nothing changes.
#[unsafe(no_mangle)]
pub extern "C" fn dm_c_output(
    alloc: Global,
    machine: &mut MachineHandle,
    from: usize,
    buffer: &mut [u8],
    wanted: &mut usize,
) -> u32
    ensures { IsCall machine.old.inside.value machine.new.inside.value ((result ≡ 1) × (buffer.new ≡ buffer.old) ×
        (wanted.new ≡ wanted.old)) (λ h g. OutputTo h from buffer.old buffer.new wanted.old wanted.new result g) }
{
    on_machine!(machine, alloc, host => calls::output(&host, from, buffer, wanted))
}

/// Sets `count` to how many bytes were written to the console. It stays unless the status is 0.
#[unsafe(no_mangle)]
pub extern "C" fn dm_c_output_count(
    alloc: Global,
    machine: &mut MachineHandle,
    count: &mut usize,
) -> u32
    ensures { IsCall machine.old.inside.value machine.new.inside.value ((result ≡ 1) ×
        (count.new ≡ count.old)) (λ h g. OutputCountTo h count.old count.new result g) }
{
    on_machine!(machine, alloc, host => calls::output_count(&host, count))
}

/// Says that more console input may come after what is left: from then on each call that wants a byte that is not there
/// stops the run (4), and the run can go on once there is more. Nothing changes unless the status is 0.
#[unsafe(no_mangle)]
pub extern "C" fn dm_c_open_input(alloc: Global, machine: &mut MachineHandle) -> u32
    ensures { IsCall machine.old.inside.value machine.new.inside.value (result
        ≡ 1) (λ h g. SetsMoreTo h true result g) }
{
    on_machine!(machine, alloc, host => calls::open_input(&mut host))
}

/// Says that no more console input comes after what is left. Nothing changes unless the status is 0.
#[unsafe(no_mangle)]
pub extern "C" fn dm_c_close_input(alloc: Global, machine: &mut MachineHandle) -> u32
    ensures { IsCall machine.old.inside.value machine.new.inside.value (result
        ≡ 1) (λ h g. SetsMoreTo h false result g) }
{
    on_machine!(machine, alloc, host => calls::close_input(&mut host))
}

/// Adds bytes to the end of the console input, which must be open; the status is 22 if it is not. Nothing changes
/// unless the status is 0.
#[unsafe(no_mangle)]
pub extern "C" fn dm_c_supply(alloc: Global, machine: &mut MachineHandle, bytes: &[u8]) -> u32
    ensures { IsCall machine.old.inside.value machine.new.inside.value (result
        ≡ 1) (λ h g. SuppliesTo h bytes.now result g) }
{
    on_machine!(machine, alloc, host => calls::supply(&mut host, bytes))
}

/// Sets `left` to how many bytes of console input are left. It stays unless the status is 0.
#[unsafe(no_mangle)]
pub extern "C" fn dm_c_input_left(
    alloc: Global,
    machine: &mut MachineHandle,
    left: &mut usize,
) -> u32
    ensures { IsCall machine.old.inside.value machine.new.inside.value ((result ≡ 1) ×
        (left.new ≡ left.old)) (λ h g. InputLeftTo h left.old left.new result g) }
{
    on_machine!(machine, alloc, host => calls::input_left(&host, left))
}

/// Executes the debugger command of a line, keeps what it prints as the answer, and sets `wanted` to how many bytes
/// that is. With status 3 (out of memory) the command, or some first part of it, may have been executed, and `wanted`
/// and the answer before stay; with any other but 0 nothing changes.
#[unsafe(no_mangle)]
pub extern "C" fn dm_c_command(
    alloc: Global,
    machine: &mut MachineHandle,
    line: &[u8],
    wanted: &mut usize,
) -> u32
    ensures { IsCall machine.old.inside.value machine.new.inside.value ((result ≡ 1) ×
        (wanted.new ≡ wanted.old)) (λ h g. CommandsTo h line.now wanted.old wanted.new result g) }
{
    on_machine!(machine, alloc, host => calls::command(alloc, &mut host, line, wanted))
}

/// Makes at most `steps` steps under the memory checker, keeps its report as the answer, and sets `stopped` to why the
/// run stopped and `wanted` to how many bytes the report has. All three stay unless the status is 0; with status 3 (out
/// of memory) none, some or all of the run's steps were made.
#[unsafe(no_mangle)]
pub extern "C" fn dm_c_check(
    alloc: Global,
    machine: &mut MachineHandle,
    steps: u64,
    stopped: &mut Stopped,
    wanted: &mut usize,
) -> u32
    ensures { IsCall machine.old.inside.value machine.new.inside.value ((result ≡ 1) × (stopped.new ≡ stopped.old) ×
        (wanted.new ≡ wanted.old)) (λ h g. ChecksTo h steps stopped.old stopped.new wanted.old wanted.new result g) }
{
    on_machine!(machine, alloc, host => calls::check(alloc, &mut host, steps, stopped, wanted))
}

/// Copies the answer of the last command or checked run that had one (no bytes before the first) to the front of the
/// buffer, and sets `wanted` to how many bytes it has. If they do not fit, the status is 4, and only `wanted` changes.
/// No program need be loaded.
#[unsafe(no_mangle)]
pub extern "C" fn dm_c_answer(
    alloc: Global,
    machine: &mut MachineHandle,
    buffer: &mut [u8],
    wanted: &mut usize,
) -> u32
    ensures { IsCall machine.old.inside.value machine.new.inside.value ((result ≡ 1) × (buffer.new ≡ buffer.old) ×
        (wanted.new ≡ wanted.old)) (λ h g. AnswersTo h buffer.old buffer.new wanted.new result g) }
{
    on_machine!(machine, alloc, host => give_items(host.answer(), buffer, wanted))
}
