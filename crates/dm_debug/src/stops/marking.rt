//! Marks on the memory that events look at, so that steps which touch none of it are made at once.

ghost use Rattle.std.specs.Prelude.{◌≡◌, ◌≤◌, ◌<◌, ℕ, All, IfOk};
ghost use Rattle.std.specs.List.{list_all};
ghost use Rattle.dm_debug.specs.stops.inner.Marking.{level_of, first_of, end_of, is_markable, HasLevel, IsGuarded, IsGuardedAt, Keeps};

use crate::stops::events::Event;
use dm_touches::quiet::Marks;
use std::alloc::{AllocError, Global};

/// How many paragraphs there are: those of all linear addresses.
const PARAGRAPHS: u64 = 0x1_1000;

/// Where conventional and video memory end. An address below it is its own place, which no other address is.
const LIMIT: u64 = 0xC_0000;

/// What the paragraphs of an event are marked with: 1 where writes count, 2 where reads do, 0 where neither does.
fn level_of(event: &Event) -> u8
    ensures is { result ≡ level_of event.now }
    ensures most { result ≤ 2 }
{
    match event {
        Event::At(_) | Event::Address(_) => 0,
        Event::Change(_) => 1,
        Event::Call(_) | Event::Function(_, _) => 2,
    }
}

/// The first paragraph of an event: of its range, or of the vector of its interrupt.
fn first_of(event: &Event) -> u64
    ensures { result ≡ first_of event.now }
{
    match event {
        Event::At(_) | Event::Address(_) => 0,
        Event::Change(range) => range.address as u64 / 16,
        Event::Call(number) => *number as u64 / 4,
        Event::Function(number, _) => *number as u64 / 4,
    }
}

/// The paragraph behind the last one of an event.
fn end_of(event: &Event) -> u64
    ensures is { result ≡ end_of event.now }
    ensures order { first_of event.now ≤ result }
{
    match event {
        Event::At(_) | Event::Address(_) => 0,
        Event::Change(range) => (range.address as u64 + range.length as u64 + 15) / 16,
        Event::Call(number) => *number as u64 / 4 + 1,
        Event::Function(number, _) => *number as u64 / 4 + 1,
    }
}

/// Gives the paragraphs of an event a level.
fn mark_event(marks: &mut Marks, event: &Event, level: u8)
    requires { level ≤ 2 }
    ensures keeps { (n : ℕ) → n ≤ level → Keeps n marks.old marks.new }
    ensures marked { HasLevel level marks.new event.now }
{
    let first = first_of(event).min(PARAGRAPHS);
    let end = end_of(event).min(PARAGRAPHS);
    marks.mark(first as usize, end as usize, level);
}

/// Gives the paragraphs of an event this level, if it is the event's.
fn mark_if(marks: &mut Marks, event: &Event, level: u8)
    requires { level ≤ 2 }
    ensures keeps { (n : ℕ) → n ≤ level → Keeps n marks.old marks.new }
    ensures marked { IsGuardedAt level marks.new event.now }
{
    if level_of(event) == level {
        mark_event(marks, event, level);
    }
}

/// Gives the paragraphs of all events of this level that level.
fn mark_all(marks: &mut Marks, events: &[Event], level: u8)
    requires { level ≤ 2 }
    ensures keeps { (n : ℕ) → n ≤ level → Keeps n marks.old marks.new }
    ensures marked { All (IsGuardedAt level marks.new) events.now }
{
    for event in events {
        mark_if(marks, event, level);
    }
}

/// Marks on the memory that these events look at. An `Err` is a failed allocation.
pub(crate) fn marks_of(alloc: Global, events: &[Event]) -> Result<Marks, AllocError>
    ensures { IfOk result (λ marks. All (IsGuarded marks) events.now) }
{
    let mut marks = Marks::new(alloc)?;
    mark_all(&mut marks, events, 1);
    mark_all(&mut marks, events, 2);
    Ok(marks)
}

/// Whether marks tell whether the event can come: a range must end below C0000h.
fn is_markable(event: &Event) -> bool
    ensures { result ≡ is_markable event.now }
{
    match event {
        Event::Change(range) => range.address as u64 + range.length as u64 <= LIMIT,
        _ => true,
    }
}

/// Whether marks tell of all events whether they can come.
pub(crate) fn are_markable(events: &[Event]) -> bool
    ensures { result ≡ list_all is_markable events.now }
{
    events.iter().all(|event| is_markable(event))
}
