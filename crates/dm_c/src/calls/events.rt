//! Events that end a run, as C passes them, and how such a run has ended.
ghost use Rattle.std.specs.Prelude.{◌≡◌, IfOk, map};
ghost use Rattle.std.specs.List.{list_all};
ghost use Rattle.dm_c.specs.calls.Events.{is_known, event_of, ended_of, event_index};

use crate::calls::values::{Stopped, stopped_of};
use dm_debug::stops::{Event, Range, RunEnd};
use dm_machine::Breakpoint;
use std::alloc::{AllocError, Global};

/// The status if the kind of an event is none.
pub const BAD_EVENT: u32 = 23;

/// The greatest number of a kind.
const LAST_KIND: u32 = 4;

/// An event as C passes it. By its kind it is the pair `segment`:`offset` (0), the linear address (1), a change of the
/// `length` bytes from the linear address up (2), the call of the interrupt `number` (3), or that call with `ah` in AH
/// (4); the other fields do not count.
#[repr(C)]
#[derive(Clone, Copy, Debug, PartialEq, Eq)]
pub struct Awaited {
    pub kind: u32,
    pub address: u32,
    pub length: u32,
    pub segment: u16,
    pub offset: u16,
    pub number: u8,
    pub ah: u8,
}

/// Whether the kind is one.
fn is_known(event: &Awaited) -> bool
    ensures { result ≡ is_known event.now }
{
    event.kind <= LAST_KIND
}

/// Whether the kinds of all events are ones.
pub fn are_known(events: &[Awaited]) -> bool
    ensures { result ≡ list_all is_known events.now }
{
    events.iter().all(|event| is_known(event))
}

/// The event that C passes; one of no kind is taken as one of the last.
fn event_of(event: Awaited) -> Event
    ensures { result ≡ event_of event }
{
    if event.kind == 0 {
        Event::At(Breakpoint {
            segment: event.segment,
            offset: event.offset,
        })
    } else if event.kind == 1 {
        Event::Address(event.address)
    } else if event.kind == 2 {
        Event::Change(Range {
            address: event.address,
            length: event.length,
        })
    } else if event.kind == 3 {
        Event::Call(event.number)
    } else {
        Event::Function(event.number, event.ah)
    }
}

/// The events that C passes, in their order. An `Err` is a failed allocation.
pub fn events_of(alloc: Global, events: &[Awaited]) -> Result<Vec<Event>, AllocError>
    ensures { IfOk result (λ v. v.items ≡ map event_of events.now) }
{
    let mut wanted = Vec::new(alloc);
    for event in events {
        wanted.push(event_of(*event))?;
    }
    Ok(wanted)
}

/// How a run up to events has ended, as C sees it.
pub fn ended_of(ending: RunEnd) -> Stopped
    ensures { result ≡ ended_of ending }
{
    match ending {
        RunEnd::Stopped(stop) => stopped_of(Some(stop)),
        RunEnd::Came(_) => Stopped { why: 8, code: 0 },
    }
}

/// The index in the list of the event that came; `before` if none did.
pub fn place_in(ending: RunEnd, before: usize) -> usize
    ensures { result ≡ event_index ending before }
{
    match ending {
        RunEnd::Stopped(_) => before,
        RunEnd::Came(place) => place,
    }
}
