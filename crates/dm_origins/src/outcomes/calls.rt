//! Which calls may change the arena, and the findings about calls: calls that failed, and division errors (MS-DOS
//! Programmer's Reference, "System Calls"; LIM EMS 4.0, section 3; XMS 3.0). Each function `put_..` appends
//! its findings to `out`; an `Err` is a failed allocation.

ghost use Rattle.std.specs.Prelude.{◌≡◌, ◌++◌, OnOk};
ghost use Rattle.dm_origins.specs.outcomes.Calls.{allocates, frees, resizes, arranges_lists, is_arena_function, ends_for_good, stays_resident, is_ending, is_starting, arranges, call_stays_resident, refusal, refused_by_dos, refused_by_status, refused_by_error, may_be_refused, call_findings, is_stray_handle, is_stray_extended};

use crate::outcomes::appending::append_finding;
use dm_cpu::Cpu;
use dm_drivers::{expanded, extended};
use dm_findings::{Call, Finding};
use dm_ins::ByteRegister;
use dm_services::{Function, function_of};
use dm_xms::UpperRefusal;
use std::alloc::AllocError;

/// Whether a function of INT 21h allocates a block.
fn allocates(function: Function) -> bool
    ensures { result ≡ allocates function }
{
    match function {
        Function::Allocate => true,
        _ => false,
    }
}

/// Whether a function of INT 21h frees a block.
pub fn frees(function: Function) -> bool
    ensures { result ≡ frees function }
{
    match function {
        Function::Free => true,
        _ => false,
    }
}

/// Whether a function of INT 21h resizes a block.
pub fn resizes(function: Function) -> bool
    ensures { result ≡ resizes function }
{
    match function {
        Function::Resize => true,
        _ => false,
    }
}

/// Whether a function of INT 21h sets how blocks are chosen, or links the lists.
fn arranges_lists(function: Function) -> bool
    ensures { result ≡ arranges_lists function }
{
    match function {
        Function::AllocationStrategy => true,
        _ => false,
    }
}

/// Whether a function of INT 21h is one of the arena.
fn is_arena(function: Function) -> bool
    ensures { result ≡ is_arena_function function }
{
    allocates(function) || frees(function) || resizes(function) || arranges_lists(function)
}

/// Whether a function of INT 21h ends a process, which does not stay.
fn ends(function: Function) -> bool
    ensures { result ≡ ends_for_good function }
{
    match function {
        Function::Terminate | Function::Exit => true,
        _ => false,
    }
}

/// Whether a function of INT 21h ends a process, which stays resident.
pub fn stays_resident(function: Function) -> bool
    ensures { result ≡ stays_resident function }
{
    match function {
        Function::Keep => true,
        _ => false,
    }
}

/// Whether a function of INT 21h ends a process.
pub(crate) fn is_ending(function: Function) -> bool
    ensures { result ≡ is_ending function }
{
    ends(function) || stays_resident(function)
}

/// Whether a call of a function of INT 21h with these registers may start a process: 4Bh, but not with AL = 3. (With
/// any other AL but 0 it fails.)
pub(crate) fn is_starting(cpu: &Cpu, function: Function) -> bool
    ensures { result ≡ is_starting cpu.now function }
{
    match function {
        Function::LoadProgram => cpu.byte(ByteRegister::Al) != 3,
        _ => false,
    }
}

/// Whether a call is one that may write headers: a call of the arena, or a start or an end of a process.
pub fn arranges(cpu: &Cpu, call: Option<Call>) -> bool
    ensures { result ≡ arranges cpu.now call }
{
    match call {
        Some(Call::DivideError) | Some(Call::Terminate) => true,
        Some(Call::Dos(number)) => {
            let function = function_of(number);
            is_arena(function) || is_ending(function) || is_starting(cpu, function)
        }
        _ => false,
    }
}

/// Whether a call is function 31h of INT 21h, by which a process ends and stays resident.
pub fn call_stays_resident(call: Call) -> bool
    ensures { result ≡ call_stays_resident call }
{
    match call {
        Call::Dos(number) => stays_resident(function_of(number)),
        _ => false,
    }
}

/// The finding that a call failed with this code: an error if the call frees or resizes what is not allocated
/// (`stray`), otherwise a note.
fn refusal(stray: bool, code: u8) -> Finding
    ensures { result ≡ refusal stray code }
{
    if stray {
        Finding::NotAllocated(code)
    } else {
        Finding::Refused(code)
    }
}

/// Appends that a call of INT 21h failed, if CF is set after it: with the error code (AL after it), or, for code 8 of
/// 48h and 4Ah, with the paragraphs asked for and available (BX before and after it). A segment that is no block's is
/// an error for 49h and 4Ah.
fn put_refused_by_dos(
    out: &mut Vec<Finding>,
    before: &Cpu,
    after: &Cpu,
    function: Function,
) -> Result<(), AllocError>
    ensures { OnOk result (out.new.items ≡ out.old.items ++ refused_by_dos before.now after.now function) }
{
    if !after.flags.carry {
        return Ok(());
    }
    let code = after.byte(ByteRegister::Al);
    if code == 8 && (allocates(function) || resizes(function)) {
        return append_finding(out, Finding::Short(before.bx, after.bx));
    }
    let stray = (frees(function) || resizes(function)) && code == 0x09;
    append_finding(out, refusal(stray, code))
}

/// Whether the status of a failed function of INT 67h says that the handle whose pages are to be freed is not in use.
fn is_stray_handle(function: expanded::Function, status: u8) -> bool
    ensures { result ≡ is_stray_handle function status }
{
    match function {
        expanded::Function::Deallocate => status == dm_ems::Status::UnknownHandle.code(),
        _ => false,
    }
}

/// Appends that a call of INT 67h failed, if its status (AH) says so: 00h is success, and with 92h a move of
/// overlapping regions was done. A handle that is not in use is an error where it is to be freed.
fn put_refused_by_status(
    out: &mut Vec<Finding>,
    function: expanded::Function,
    status: u8,
) -> Result<(), AllocError>
    ensures { OnOk result (out.new.items ≡ out.old.items ++ refused_by_status function status) }
{
    if status == 0 || status == 0x92 {
        return Ok(());
    }
    append_finding(out, refusal(is_stray_handle(function, status), status))
}

/// Whether the code of a failed function of the extended memory driver says that there is no block to be freed: no
/// handle with this number, or no upper memory block at this segment.
fn is_stray_extended(function: extended::Function, code: u8) -> bool
    ensures { result ≡ is_stray_extended function code }
{
    match function {
        extended::Function::Deallocate => code == dm_xms::Status::UnknownHandle.code(),
        extended::Function::ReleaseUpper => code == UpperRefusal::Unknown.code(),
        _ => false,
    }
}

/// Appends that a call of the extended memory driver failed, if AX is 0 after it and BL, the error code, is not. A
/// handle that is not in use, or a segment that is no upper memory block's, is an error where the block is to be freed.
fn put_refused_by_error(
    out: &mut Vec<Finding>,
    function: extended::Function,
    after: &Cpu,
) -> Result<(), AllocError>
    ensures { OnOk result (out.new.items ≡ out.old.items ++ refused_by_error function after.now) }
{
    let code = after.byte(ByteRegister::Bl);
    if after.ax == 0 && code != 0 {
        return append_finding(out, refusal(is_stray_extended(function, code), code));
    }
    Ok(())
}

/// Whether a call of a function of INT 21h is looked at for failure.
fn may_be_refused(function: Function) -> bool
    ensures { result ≡ may_be_refused function }
{
    match function {
        Function::LoadProgram | Function::Unknown => true,
        _ => is_arena(function),
    }
}

/// Appends what is found of a call, by the registers before and after it: that it failed, that it is interrupt 0, by
/// which a division error ends the process, or an interrupt that is not served. Of INT 21h, only functions 48h, 49h,
/// 4Ah, 4Bh and 58h are looked at, and those that are not served.
pub fn append_call_findings(
    out: &mut Vec<Finding>,
    before: &Cpu,
    after: &Cpu,
    call: Option<Call>,
) -> Result<(), AllocError>
    ensures { OnOk result (out.new.items ≡ out.old.items ++ call_findings before.now after.now call) }
{
    match call {
        Some(Call::DivideError) => append_finding(out, Finding::DivisionError),
        Some(Call::Dos(number)) => {
            let function = function_of(number);
            if may_be_refused(function) {
                put_refused_by_dos(out, before, after, function)
            } else {
                Ok(())
            }
        }
        Some(Call::ExpandedMemory(number)) => {
            let function = expanded::function_of(number);
            put_refused_by_status(out, function, after.byte(ByteRegister::Ah))
        }
        Some(Call::ExtendedMemory(number)) => {
            put_refused_by_error(out, extended::function_of(number), after)
        }
        Some(Call::Interrupt(_)) => append_finding(out, Finding::NotServed),
        _ => Ok(()),
    }
}
