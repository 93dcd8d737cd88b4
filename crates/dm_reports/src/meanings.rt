//! The meanings of the error codes of calls, in words (MS-DOS Programmer's Reference, "Error Codes"; LIM EMS 4.0,
//! appendix A; XMS 3.0, error code index).

ghost use Rattle.std.specs.Prelude.{◌≡◌};
ghost use Rattle.dm_reports.specs.Meanings.{dos_meaning, expanded_meaning, extended_meaning, invalid_function_meaning, meaning_text};

use dm_findings::{Act, Call};
use dm_services::{Function, function_of};

/// The meaning of error code 01h of a function of INT 21h, behind a comma: a function that is served does not take what
/// AL or BX has.
fn invalid_function_meaning(function: Function) -> &'static [u8]
    ensures { result.now ≡ invalid_function_meaning function }
{
    match function {
        Function::Unknown => b", no such function",
        _ => b", no such subfunction or value",
    }
}

/// The meaning of an error code of the function of INT 21h with this number, behind a comma; empty for another code.
fn dos_meaning(number: u8, code: u8) -> &'static [u8]
    ensures { result.now ≡ dos_meaning number code }
{
    match code {
        0x01 => invalid_function_meaning(function_of(number)),
        0x02 => b", no such program",
        0x07 => b", no valid block list",
        0x08 => b", not enough memory",
        0x09 => b", no such block",
        0x0A => b", environment without end",
        0x0B => b", bad program file",
        _ => b"",
    }
}

/// The meaning of a status of INT 67h, behind a comma; empty for another status.
fn expanded_meaning(code: u8) -> &'static [u8]
    ensures { result.now ≡ expanded_meaning code }
{
    match code {
        0x83 => b", no such handle",
        0x84 => b", no such function",
        0x85 => b", no handle left",
        0x86 => b", map still saved",
        0x87 => b", more pages than there are",
        0x88 => b", more pages than are free",
        0x89 => b", no page wanted",
        0x8A => b", no such logical page",
        0x8B => b", no such physical page",
        0x8D => b", map saved already",
        0x8E => b", no map saved",
        0x8F => b", no such subfunction",
        0x93 => b", region past the last page",
        0x94 => b", regions overlap",
        0x95 => b", offset past the page",
        0x96 => b", region too long",
        0x97 => b", regions overlap",
        0x98 => b", no such kind of memory",
        0xA0 => b", no such name",
        0xA1 => b", name taken, or none",
        0xA2 => b", region past 1 MiB",
        0xA3 => b", bad map",
        _ => b"",
    }
}

/// The meaning of an error code of the extended memory driver, behind a comma; empty for another code.
fn extended_meaning(code: u8) -> &'static [u8]
    ensures { result.now ≡ extended_meaning code }
{
    match code {
        0x80 => b", no such function",
        0x82 => b", A20 error",
        0x91 => b", HMA taken",
        0x93 => b", HMA not taken",
        0x94 => b", A20 still on",
        0xA0 => b", not enough memory",
        0xA1 => b", no handle left",
        0xA2 => b", no such handle",
        0xA3 => b", no such source handle",
        0xA4 => b", source offset past the block",
        0xA5 => b", no such destination handle",
        0xA6 => b", destination offset past the block",
        0xA7 => b", bad length",
        0xAA => b", block not locked",
        0xAB => b", block locked",
        0xAC => b", too many locks",
        0xB0 => b", only a smaller block free",
        0xB1 => b", no block free",
        0xB2 => b", no such block",
        _ => b"",
    }
}

/// The meaning of the code with which a call failed, behind a comma; empty if it has none.
pub(crate) fn meaning_of(act: &Act, code: u8) -> &'static [u8]
    ensures { result.now ≡ meaning_text act.now code }
{
    match act {
        Act::Call(Call::Dos(number)) => dos_meaning(*number, code),
        Act::Call(Call::ExpandedMemory(_)) => expanded_meaning(code),
        Act::Call(Call::ExtendedMemory(_)) => extended_meaning(code),
        _ => b"",
    }
}
