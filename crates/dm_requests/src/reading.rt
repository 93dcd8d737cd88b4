//! Reading what a packet carries as a request.

ghost use Rattle.std.specs.Prelude.{◌≡◌, IfOk};
ghost use Rattle.dm_requests.specs.Requests.{set_bytes, memory_request, set_memory_of, register_of, set_register_with, set_register_of, set_registers_of, insertion, removal, feature_of, command_of, query_of, request_of};

use crate::arguments::{after_prefix, cut_at, point_of, two_numbers, unhex};
use crate::commands::read_number;
use crate::names::{named_query, named_verb, single};
use crate::packets::Payload;
use crate::request::Request;
use std::alloc::{AllocError, Global};

/// `m ADDRESS,COUNT`.
fn memory(bytes: &[u8]) -> Request
    ensures { result ≡ memory_request bytes.now }
{
    match two_numbers(bytes) {
        Some((address, count)) => Request::Memory(address, count),
        None => Request::Malformed,
    }
}

/// The request to write bytes at an address, of which there must be as many as `count`; malformed if there are others,
/// or none were spelled.
fn set_bytes(address: u32, count: u32, bytes: Option<Payload>) -> Request
    ensures { result ≡ set_bytes address count bytes }
{
    let Some(bytes) = bytes else {
        return Request::Malformed;
    };
    if bytes.as_slice().len() == count as usize {
        Request::SetMemory(address, bytes)
    } else {
        Request::Malformed
    }
}

/// `M ADDRESS,COUNT:BYTES`. An `Err` is a failed allocation.
fn set_memory(alloc: Global, bytes: &[u8]) -> Result<Request, AllocError>
    ensures { IfOk result (λ r. r ≡ set_memory_of bytes.now) }
{
    let Some((numbers, digits)) = cut_at(b':', bytes) else {
        return Ok(Request::Malformed);
    };
    let Some((address, count)) = two_numbers(numbers) else {
        return Ok(Request::Malformed);
    };
    let bytes = unhex(alloc, digits)?;
    Ok(set_bytes(address, count, bytes))
}

/// `p N`.
fn register(bytes: &[u8]) -> Request
    ensures { result ≡ register_of bytes.now }
{
    match read_number(bytes) {
        Some(number) => Request::Register(number),
        None => Request::Malformed,
    }
}

/// The request to set a register; malformed if its number or its bytes were not spelled.
fn register_to(number: Option<u32>, bytes: Option<Payload>) -> Request
    ensures { result ≡ set_register_with number bytes }
{
    let Some(number) = number else {
        return Request::Malformed;
    };
    match bytes {
        Some(bytes) => Request::SetRegister(number, bytes),
        None => Request::Malformed,
    }
}

/// `P N=BYTES`. An `Err` is a failed allocation.
fn set_register(alloc: Global, bytes: &[u8]) -> Result<Request, AllocError>
    ensures { IfOk result (λ r. r ≡ set_register_of bytes.now) }
{
    let Some((number, digits)) = cut_at(b'=', bytes) else {
        return Ok(Request::Malformed);
    };
    let value = unhex(alloc, digits)?;
    Ok(register_to(read_number(number), value))
}

/// `G BYTES`. An `Err` is a failed allocation.
fn set_registers(alloc: Global, digits: &[u8]) -> Result<Request, AllocError>
    ensures { IfOk result (λ r. r ≡ set_registers_of digits.now) }
{
    match unhex(alloc, digits)? {
        Some(bytes) => Ok(Request::SetRegisters(bytes)),
        None => Ok(Request::Malformed),
    }
}

/// `Z TYPE,ADDRESS,LENGTH`.
fn insertion(bytes: &[u8]) -> Request
    ensures { result ≡ insertion bytes.now }
{
    match point_of(bytes) {
        Some(point) => Request::Insert(point),
        None => Request::Malformed,
    }
}

/// `z TYPE,ADDRESS,LENGTH`.
fn removal(bytes: &[u8]) -> Request
    ensures { result ≡ removal bytes.now }
{
    match point_of(bytes) {
        Some(point) => Request::Remove(point),
        None => Request::Malformed,
    }
}

/// The part of the description of the registers that `OFFSET,COUNT` asks for.
fn feature(bytes: &[u8]) -> Request
    ensures { result ≡ feature_of bytes.now }
{
    match two_numbers(bytes) {
        Some((offset, count)) => Request::Features(offset, count),
        None => Request::Malformed,
    }
}

/// The command that pairs of hexadecimal digits spell. An `Err` is a failed allocation.
fn command(alloc: Global, digits: &[u8]) -> Result<Request, AllocError>
    ensures { IfOk result (λ r. r ≡ command_of digits.now) }
{
    match unhex(alloc, digits)? {
        Some(text) => Ok(Request::Command(text)),
        None => Ok(Request::Malformed),
    }
}

/// The request of a packet that begins with `q`, by the bytes after it. An `Err` is a failed allocation.
fn query(alloc: Global, bytes: &[u8]) -> Result<Request, AllocError>
    ensures { IfOk result (λ r. r ≡ query_of bytes.now) }
{
    if let Some(digits) = after_prefix(b"Rcmd,", bytes) {
        return command(alloc, digits);
    }
    if let Some(numbers) = after_prefix(b"Xfer:features:read:target.xml:", bytes) {
        return Ok(feature(numbers));
    }
    Ok(named_query(bytes))
}

/// The request that a packet carries. What is no request of this server is `Unknown`, and a request whose arguments are
/// bad `Malformed`. Of a `vCont` with several actions the first counts, since there is one thread; signals are passed
/// over.
///
/// # Errors
///
/// `AllocError` if there is no memory for the bytes of `M`, `P` or `G`, or the text of `qRcmd`.
pub fn read_request(alloc: Global, payload: &[u8]) -> Result<Request, AllocError>
    ensures { IfOk result (λ r. r ≡ request_of payload.now) }
{
    match payload {
        [] => Ok(Request::Unknown),
        [b'm', rest @ ..] => Ok(memory(rest)),
        [b'M', rest @ ..] => set_memory(alloc, rest),
        [b'p', rest @ ..] => Ok(register(rest)),
        [b'P', rest @ ..] => set_register(alloc, rest),
        [b'G', rest @ ..] => set_registers(alloc, rest),
        [b'Z', rest @ ..] => Ok(insertion(rest)),
        [b'z', rest @ ..] => Ok(removal(rest)),
        [b'q', rest @ ..] => query(alloc, rest),
        [b'v', rest @ ..] => Ok(named_verb(rest)),
        [letter, rest @ ..] => Ok(single(*letter, rest)),
    }
}
