//! The names of calls in the report of `dm check` (MS-DOS Programmer's Reference, "System Calls"; LIM EMS 4.0, section
//! 3; XMS 3.0).

ghost use Rattle.std.specs.Prelude.{◌≡◌, ◌++◌, OnOk, codes};
ghost use Rattle.dm_views.specs.Digits.{two_digits};
ghost use Rattle.dm_reports.specs.Names.{call_text, dos_name, expanded_name, extended_name};

use dm_drivers::{expanded, extended};
use dm_findings::Call;
use dm_services::{Function, function_of};
use dm_views::byte_digits;
use std::alloc::AllocError;

/// The name of a function of INT 21h in parentheses, after a space; empty for `Unknown`.
fn dos_name(function: Function) -> &'static [u8]
    ensures { result.now ≡ dos_name function }
{
    match function {
        Function::Terminate => b" (Terminate Program)",
        Function::EchoCharacter => b" (Read Keyboard with Echo)",
        Function::WriteCharacter => b" (Display Character)",
        Function::DirectCharacter => b" (Direct Console I/O)",
        Function::DirectInput => b" (Direct Console Input)",
        Function::ReadCharacter => b" (Read Keyboard Without Echo)",
        Function::WriteText => b" (Display String)",
        Function::ReadLine => b" (Buffered Keyboard Input)",
        Function::CheckInput => b" (Check Keyboard Status)",
        Function::FlushAndRead => b" (Flush Buffer, Read Keyboard)",
        Function::SetVector => b" (Set Interrupt Vector)",
        Function::Version => b" (Get Version Number)",
        Function::Keep => b" (Keep Program)",
        Function::GetVector => b" (Get Interrupt Vector)",
        Function::ReadHandle => b" (Read File or Device)",
        Function::WriteHandle => b" (Write File or Device)",
        Function::Allocate => b" (Allocate Memory)",
        Function::Free => b" (Free Allocated Memory)",
        Function::Resize => b" (Set Memory Block Size)",
        Function::LoadProgram => b" (Load Program)",
        Function::Exit => b" (End Program)",
        Function::ExitCode => b" (Get Child-Program Return Value)",
        Function::Process => b" (Get Program Segment Prefix Address)",
        Function::AllocationStrategy => b" (Allocation Strategy, Upper-Memory Link)",
        Function::Unknown => b"",
    }
}

/// The name of a function of INT 67h in parentheses, after a space; empty for `Unknown`.
fn expanded_name(function: expanded::Function) -> &'static [u8]
    ensures { result.now ≡ expanded_name function }
{
    match function {
        expanded::Function::Status => b" (Get Status)",
        expanded::Function::Frame => b" (Get Page Frame Address)",
        expanded::Function::PageCounts => b" (Get Unallocated Page Count)",
        expanded::Function::Allocate => b" (Allocate Pages)",
        expanded::Function::MapPage => b" (Map/Unmap Handle Page)",
        expanded::Function::Deallocate => b" (Deallocate Pages)",
        expanded::Function::Version => b" (Get Version)",
        expanded::Function::SaveMap => b" (Save Page Map)",
        expanded::Function::RestoreMap => b" (Restore Page Map)",
        expanded::Function::CountHandles => b" (Get Handle Count)",
        expanded::Function::CountPages => b" (Get Handle Pages)",
        expanded::Function::ListPages => b" (Get All Handle Pages)",
        expanded::Function::WholeMap => b" (Get/Set Page Map)",
        expanded::Function::MapMany => b" (Map/Unmap Multiple Handle Pages)",
        expanded::Function::Reallocate => b" (Reallocate Pages)",
        expanded::Function::HandleName => b" (Get/Set Handle Name)",
        expanded::Function::Directory => b" (Get Handle Directory)",
        expanded::Function::Regions => b" (Move/Exchange Memory Region)",
        expanded::Function::Mappable => b" (Get Mappable Physical Address Array)",
        expanded::Function::Unknown => b"",
    }
}

/// The name of a function of the extended memory driver in parentheses, after a space; empty for `Unknown`.
fn extended_name(function: extended::Function) -> &'static [u8]
    ensures { result.now ≡ extended_name function }
{
    match function {
        extended::Function::Version => b" (Get XMS Version Number)",
        extended::Function::TakeArea => b" (Request High Memory Area)",
        extended::Function::ReleaseArea => b" (Release High Memory Area)",
        extended::Function::EnableGlobally => b" (Global Enable A20)",
        extended::Function::DisableGlobally => b" (Global Disable A20)",
        extended::Function::EnableLocally => b" (Local Enable A20)",
        extended::Function::DisableLocally => b" (Local Disable A20)",
        extended::Function::Line => b" (Query A20)",
        extended::Function::FreeSize => b" (Query Free Extended Memory)",
        extended::Function::Allocate => b" (Allocate Extended Memory Block)",
        extended::Function::Deallocate => b" (Free Extended Memory Block)",
        extended::Function::MoveMemory => b" (Move Extended Memory Block)",
        extended::Function::Lock => b" (Lock Extended Memory Block)",
        extended::Function::Unlock => b" (Unlock Extended Memory Block)",
        extended::Function::Information => b" (Get Handle Information)",
        extended::Function::Reallocate => b" (Reallocate Extended Memory Block)",
        extended::Function::RequestUpper => b" (Request Upper Memory Block)",
        extended::Function::ReleaseUpper => b" (Release Upper Memory Block)",
        extended::Function::ResizeUpper => b" (Reallocate Upper Memory Block)",
        extended::Function::Unknown => b"",
    }
}

/// Appends the number of a function in two hexadecimal digits, an `h`, and `name`.
fn put_function(out: &mut Vec<u8>, number: u8, name: &[u8]) -> Result<(), AllocError>
    ensures { OnOk result (out.new.items ≡ out.old.items ++ (two_digits number ++ codes "h" ++ name.now)) }
{
    out.extend_from_slice(&byte_digits(number))?;
    out.extend_from_slice(b"h")?;
    out.extend_from_slice(name)
}

/// Appends the text of a call: its interrupt, or `XMS` for the extended memory driver, and the number and name of the
/// function if it has one.
///
/// # Errors
///
/// `AllocError` if an allocation fails.
pub fn put_call(out: &mut Vec<u8>, call: Call) -> Result<(), AllocError>
    ensures { OnOk result (out.new.items ≡ out.old.items ++ call_text call) }
{
    match call {
        Call::DivideError => out.extend_from_slice(b"interrupt 0"),
        Call::Terminate => out.extend_from_slice(b"INT 20h"),
        Call::Dos(number) => {
            out.extend_from_slice(b"INT 21h function ")?;
            put_function(out, number, dos_name(function_of(number)))
        }
        Call::ExpandedMemory(number) => {
            out.extend_from_slice(b"INT 67h function ")?;
            put_function(out, number, expanded_name(expanded::function_of(number)))
        }
        Call::Multiplex => out.extend_from_slice(b"INT 2Fh"),
        Call::ExtendedMemory(number) => {
            out.extend_from_slice(b"XMS function ")?;
            put_function(out, number, extended_name(extended::function_of(number)))
        }
        Call::Interrupt(number) => {
            out.extend_from_slice(b"INT ")?;
            out.extend_from_slice(&byte_digits(number))?;
            out.extend_from_slice(b"h")
        }
    }
}
