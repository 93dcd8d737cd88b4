//! Members of objects of JSON (RFC 8259), as `dm check --json` has them. Each function `put_..` appends its text to
//! `out`; an `Err` is a failed allocation. A member is written behind another one, after a comma.

ghost use Rattle.std.specs.Prelude.{◌≡◌, ◌<◌, ◌++◌, OnOk, codes};
ghost use Rattle.std.specs.Char.{digit_char};
ghost use Rattle.json.specs.Print.{escape, escape_byte, escape_letter, quoted};
ghost use Rattle.dm_json.specs.Objects.{address_members, bool_member, bool_text, byte_members, call_members, contents_member, member_text, number_member, number_members, site_members, string_member};

use dm_findings::{Call, Contents, Site};
use dm_reports::{put_call, put_number};
use dm_views::put_address;
use std::alloc::{AllocError, Global};

/// The letter of a byte's short escape; 0 for a byte that has none.
fn letter_of(byte: u8) -> u8
    ensures { result ≡ escape_letter byte }
{
    match byte {
        b'"' | b'\\' => byte,
        8 => b'b',
        12 => b'f',
        b'\n' => b'n',
        b'\r' => b'r',
        b'\t' => b't',
        _ => 0,
    }
}

/// A digit in hexadecimal, in lower case.
fn hex_digit(digit: u8) -> u8
    requires { digit < 16 }
    ensures { result ≡ digit_char digit }
{
    if digit < 10 {
        b'0' + digit
    } else {
        b'a' - 10 + digit
    }
}

/// Appends a byte of a string, or its escape.
#[tactic(auto, unfolding(json::specs::Print::escape_byte))]
fn put_byte(out: &mut Vec<u8>, byte: u8) -> Result<(), AllocError>
    ensures { OnOk result (out.new.items ≡ out.old.items ++ escape_byte byte) }
{
    let letter = letter_of(byte);
    if letter > 0 {
        return out.extend_from_slice(&[b'\\', letter]);
    }
    if byte < 0x20 {
        let high = hex_digit(byte / 16);
        let low = hex_digit(byte % 16);
        return out.extend_from_slice(&[b'\\', b'u', b'0', b'0', high, low]);
    }
    out.extend_from_slice(&[byte])
}

/// Appends the bytes of a string with their escapes.
fn put_escaped(out: &mut Vec<u8>, text: &[u8]) -> Result<(), AllocError>
    ensures { OnOk result (out.new.items ≡ out.old.items ++ escape text.now) }
{
    for byte in text {
        put_byte(out, *byte)?;
    }
    Ok(())
}

/// Appends a string of JSON: the bytes of `text` with their escapes, in quotes.
fn put_quoted(out: &mut Vec<u8>, text: &[u8]) -> Result<(), AllocError>
    ensures { OnOk result (out.new.items ≡ out.old.items ++ quoted text.now) }
{
    out.extend_from_slice(b"\"")?;
    put_escaped(out, text)?;
    out.extend_from_slice(b"\"")
}

/// Appends a comma and the name of a member, in quotes and with its colon.
pub(crate) fn put_name(out: &mut Vec<u8>, name: &[u8]) -> Result<(), AllocError>
    ensures { OnOk result (out.new.items ≡ out.old.items ++ member_text name.now) }
{
    out.extend_from_slice(b",\"")?;
    out.extend_from_slice(name)?;
    out.extend_from_slice(b"\":")
}

/// Appends a member whose value is a string.
pub(crate) fn put_string_member(
    out: &mut Vec<u8>,
    name: &[u8],
    text: &[u8],
) -> Result<(), AllocError>
    ensures { OnOk result (out.new.items ≡ out.old.items ++ string_member name.now text.now) }
{
    put_name(out, name)?;
    put_quoted(out, text)
}

/// Appends a member whose value is a number.
pub(crate) fn put_number_member(out: &mut Vec<u8>, name: &[u8], n: u64) -> Result<(), AllocError>
    ensures { OnOk result (out.new.items ≡ out.old.items ++ number_member name.now n) }
{
    put_name(out, name)?;
    put_number(out, n)
}

/// A truth value of JSON.
fn bool_of(b: bool) -> &'static [u8]
    ensures { result.now ≡ bool_text b }
{
    if b { b"true" } else { b"false" }
}

/// Appends a member whose value is a truth value.
pub(crate) fn put_bool_member(out: &mut Vec<u8>, name: &[u8], b: bool) -> Result<(), AllocError>
    ensures { OnOk result (out.new.items ≡ out.old.items ++ bool_member name.now b) }
{
    put_name(out, name)?;
    out.extend_from_slice(bool_of(b))
}

/// Appends an address: as a string, and as two numbers, each with its name.
fn put_address_members(
    out: &mut Vec<u8>,
    alloc: Global,
    name: &[u8],
    first: &[u8],
    second: &[u8],
    segment: u16,
    offset: u16,
) -> Result<(), AllocError>
    ensures { OnOk result (out.new.items ≡ out.old.items
        ++ address_members name.now first.now second.now segment offset) }
{
    let mut text = Vec::new(alloc);
    put_address(&mut text, segment, offset)?;
    put_string_member(out, name, &text)?;
    put_number_member(out, first, segment as u64)?;
    put_number_member(out, second, offset as u64)
}

/// Appends an address in the code of the program, and whether it is the return address of a call (`before`).
fn put_place_members(
    out: &mut Vec<u8>,
    alloc: Global,
    segment: u16,
    offset: u16,
    before: bool,
) -> Result<(), AllocError>
    ensures { OnOk result (out.new.items ≡ out.old.items
        ++ (address_members (codes "at") (codes "cs") (codes "ip") segment offset
        ++ bool_member (codes "before") before)) }
{
    put_address_members(out, alloc, b"at", b"cs", b"ip", segment, offset)?;
    put_bool_member(out, b"before", before)
}

/// Appends where in its code the program performed a step.
pub(crate) fn put_site_members(
    out: &mut Vec<u8>,
    alloc: Global,
    site: Site,
) -> Result<(), AllocError>
    ensures { OnOk result (out.new.items ≡ out.old.items ++ site_members site) }
{
    match site {
        Site::At(segment, offset) => put_place_members(out, alloc, segment, offset, false),
        Site::Before(segment, offset) => put_place_members(out, alloc, segment, offset, true),
    }
}

/// Appends the address of a byte that an instruction touches.
pub(crate) fn put_byte_members(
    out: &mut Vec<u8>,
    alloc: Global,
    segment: u16,
    offset: u16,
) -> Result<(), AllocError>
    ensures { OnOk result (out.new.items ≡ out.old.items ++ byte_members segment offset) }
{
    put_address_members(
        out, alloc, b"address", b"segment", b"offset", segment, offset,
    )
}

/// Appends the number of an interrupt, and that of the function which is called by it.
fn put_function_members(out: &mut Vec<u8>, interrupt: u8, function: u8) -> Result<(), AllocError>
    ensures { OnOk result (out.new.items ≡ out.old.items
        ++ (number_member (codes "interrupt") interrupt ++ number_member (codes "function") function)) }
{
    put_number_member(out, b"interrupt", interrupt as u64)?;
    put_number_member(out, b"function", function as u64)
}

/// Appends the numbers of a call: those of the interrupt and of the function that it has.
fn put_number_members(out: &mut Vec<u8>, call: Call) -> Result<(), AllocError>
    ensures { OnOk result (out.new.items ≡ out.old.items ++ number_members call) }
{
    match call {
        Call::DivideError => put_number_member(out, b"interrupt", 0),
        Call::Terminate => put_number_member(out, b"interrupt", 0x20),
        Call::Dos(number) => put_function_members(out, 0x21, number),
        Call::ExpandedMemory(number) => put_function_members(out, 0x67, number),
        Call::Multiplex => put_number_member(out, b"interrupt", 0x2F),
        Call::ExtendedMemory(number) => put_number_member(out, b"function", number as u64),
        Call::Interrupt(number) => put_number_member(out, b"interrupt", number as u64),
    }
}

/// Appends the text and the numbers of a call.
pub(crate) fn put_call_members(
    out: &mut Vec<u8>,
    alloc: Global,
    call: Call,
) -> Result<(), AllocError>
    ensures { OnOk result (out.new.items ≡ out.old.items ++ call_members call) }
{
    let mut text = Vec::new(alloc);
    put_call(&mut text, call)?;
    put_string_member(out, b"call", &text)?;
    put_number_members(out, call)
}

/// Appends the contents of an arena header, an object, as the member of this name.
pub(crate) fn put_contents_member(
    out: &mut Vec<u8>,
    name: &[u8],
    contents: Contents,
) -> Result<(), AllocError>
    ensures { OnOk result (out.new.items ≡ out.old.items ++ contents_member name.now contents) }
{
    put_name(out, name)?;
    out.extend_from_slice(b"{\"signature\":")?;
    put_number(out, contents.signature as u64)?;
    put_number_member(out, b"owner", contents.owner as u64)?;
    put_number_member(out, b"size", contents.size as u64)?;
    out.extend_from_slice(b"}")
}
