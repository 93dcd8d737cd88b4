//! Requests that are known by their names alone, or by a name and an action.

ghost use Rattle.std.specs.Prelude.{◌≡◌};
ghost use Rattle.dm_requests.specs.Names.{front_of, query_named, named_query, range_of, resumption_of, verb_with, named_verb, backwards, lone, single};

use crate::arguments::{cut_at, two_numbers};
use crate::request::Request;

/// The bytes before the first `separator`; all of them if it is not among them.
fn front_of(separator: u8, bytes: &[u8]) -> &[u8]
    ensures { result.now ≡ front_of separator bytes.now }
{
    match cut_at(separator, bytes) {
        Some((front, _)) => front,
        None => bytes,
    }
}

/// The query with this name, without its `q`.
fn query_named(name: &[u8]) -> Request
    ensures { result ≡ query_named name.now }
{
    if name == b"Supported".as_slice() {
        Request::Supported
    } else if name == b"Offsets".as_slice() {
        Request::Offsets
    } else if name == b"Attached".as_slice() {
        Request::Attached
    } else if name == b"C".as_slice() {
        Request::CurrentThread
    } else if name == b"fThreadInfo".as_slice() {
        Request::FirstThreads
    } else if name == b"sThreadInfo".as_slice() {
        Request::MoreThreads
    } else if name == b"Symbol".as_slice() {
        Request::Symbols
    } else {
        Request::Unknown
    }
}

/// The query whose name stands before the first colon, if there is one, without its `q`.
pub(crate) fn named_query(bytes: &[u8]) -> Request
    ensures { result ≡ named_query bytes.now }
{
    query_named(front_of(b':', bytes))
}

/// The action `r START,END`, without its `r`.
fn range(bytes: &[u8]) -> Request
    ensures { result ≡ range_of bytes.now }
{
    match two_numbers(bytes) {
        Some((start, end)) => Request::Range(start, end),
        None => Request::Malformed,
    }
}

/// An action of `vCont`, without its thread.
fn action(bytes: &[u8]) -> Request
    ensures { result ≡ resumption_of bytes.now }
{
    match bytes {
        [b's' | b'S', ..] => Request::Step,
        [b'c' | b'C', ..] => Request::Continue,
        [b'r', rest @ ..] => range(rest),
        _ => Request::Malformed,
    }
}

/// The request of this name, without its `v`, and these bytes after a semicolon.
fn verb_with(name: &[u8], bytes: &[u8]) -> Request
    ensures { result ≡ verb_with name.now bytes.now }
{
    if name == b"Cont".as_slice() {
        action(front_of(b':', front_of(b';', bytes)))
    } else if name == b"Run".as_slice() {
        Request::Restart
    } else if name == b"Kill".as_slice() {
        Request::EndProgram
    } else {
        Request::Unknown
    }
}

/// The request of a packet that begins with `v`, by the bytes after it.
pub(crate) fn named_verb(bytes: &[u8]) -> Request
    ensures { result ≡ named_verb bytes.now }
{
    match cut_at(b';', bytes) {
        Some((name, rest)) => verb_with(name, rest),
        None => {
            if bytes == b"Cont?".as_slice() {
                Request::ContinueKinds
            } else {
                Request::Unknown
            }
        }
    }
}

/// `bs` and `bc`, without their `b`.
fn backwards(bytes: &[u8]) -> Request
    ensures { result ≡ backwards bytes.now }
{
    match bytes {
        [b's'] => Request::StepBack,
        [b'c'] => Request::ContinueBack,
        _ => Request::Unknown,
    }
}

/// The request of one byte that is known by it alone; unknown for any other.
fn lone(letter: u8) -> Request
    ensures { result ≡ lone letter }
{
    match letter {
        b'?' => Request::Why,
        b'!' => Request::Extended,
        b'g' => Request::Registers,
        b's' => Request::Step,
        b'c' => Request::Continue,
        _ => Request::Unknown,
    }
}

/// The request with this first letter, and these bytes after it.
pub(crate) fn single(letter: u8, bytes: &[u8]) -> Request
    ensures { result ≡ single letter bytes.now }
{
    match letter {
        b'H' => Request::SetThread,
        b'T' => Request::IsAlive,
        b'D' => Request::Detach,
        b'k' => Request::Kill,
        b'b' => backwards(bytes),
        b'Q' => {
            if bytes == b"StartNoAckMode".as_slice() {
                Request::StopAcknowledging
            } else {
                Request::Unknown
            }
        }
        _ => {
            if bytes.is_empty() {
                lone(letter)
            } else {
                Request::Unknown
            }
        }
    }
}
