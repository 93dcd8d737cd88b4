//! Events that end a run, and the bytes that are kept to see them.

ghost use Rattle.std.specs.Prelude.{◌≡◌, IfOk, map};
ghost use Rattle.dm_debug.specs.stops.Events.{bytes_for, calls, comes, first_from};
ghost use Rattle.dm_debug.specs.stops.inner.Watching.{watch_of};

use crate::stops::memory::{code_address, range_bytes, range_reads_as};
use dm_machine::{Breakpoint, Machine};
use dm_space::Space;
use std::alloc::{AllocError, Global};
use std::marker::Model;

/// The first byte of `INT` with a number.
const INT: u8 = 0xCD;

/// Linear addresses: `length` of them, from `address` up. Those above FFFF:FFFF are not there.
#[derive(Clone, Copy, Debug, PartialEq, Eq)]
pub struct Range {
    pub address: u32,
    pub length: u32,
}

/// What ends a run after a step.
#[derive(Clone, Copy, Debug, PartialEq, Eq)]
pub enum Event {
    /// CS:IP is exactly this pair.
    At(Breakpoint),
    /// CS:IP has this linear address, whatever the pair.
    Address(u32),
    /// A byte of the range reads otherwise than before the run.
    Change(Range),
    /// The bytes at CS:IP are CDh and this number: the call of this interrupt is next.
    Call(u8),
    /// The call of the interrupt with the first number is next, and AH is the second.
    Function(u8, u8),
}

/// An event, and the bytes of its range before the run.
#[derive(Drop)]
pub(crate) struct Watch {
    event: Event,
    before: Vec<u8>,
}

impl Model for Watch {
    ghost use Rattle.std.specs.Prelude.{◌≡◌, length};
    ghost use Rattle.dm_debug.specs.stops.inner.Watching.{Watched, count_for};

    ghost Value = { Watched };

    ghost view = { λ w. record { event = w.event; before = w.before.items } };

    ghost invariant = { λ w. length w.before.items ≡ count_for w.event };
}

/// Whether the call of an interrupt is next: the bytes at CS:IP are CDh and its number.
fn calls(machine: &Machine, number: u8) -> bool
    ensures { result ≡ calls machine.now number }
{
    let cpu = machine.cpu();
    let at = |k: u16| machine.peek(cpu.cs, cpu.ip.wrapping_add(k));
    at(0) == INT && at(1) == number
}

/// The bytes that are kept for an event: those of its range, if it has one. An `Err` is a failed allocation.
fn bytes_for(alloc: Global, event: &Event, space: &Space) -> Result<Vec<u8>, AllocError>
    ensures { IfOk result (λ bytes. bytes.items ≡ bytes_for space.now.memory event.now) }
{
    match event {
        Event::Change(range) => range_bytes(alloc, space, range),
        _ => Ok(Vec::new(alloc)),
    }
}

impl Watch {
    /// An event, with the bytes that its range has now. An `Err` is a failed allocation.
    fn new(alloc: Global, event: Event, space: &Space) -> Result<Watch, AllocError>
        ensures { IfOk result (λ watch. watch ≡ watch_of space.now.memory event) }
    {
        let before = bytes_for(alloc, &event, space)?;
        Ok(Watch { event, before })
    }

    /// Whether the event has come.
    fn has_come(&self, machine: &Machine) -> bool
        ensures { result ≡ comes machine.now self.now.event self.now.before }
    {
        match &self.event {
            Event::At(point) => {
                let cpu = machine.cpu();
                point.offset == cpu.ip && point.segment == cpu.cs
            }
            Event::Address(address) => *address == code_address(machine),
            Event::Change(range) => !range_reads_as(machine.space(), range, self.before.as_slice()),
            Event::Call(number) => calls(machine, *number),
            Event::Function(number, ah) => {
                calls(machine, *number) && (machine.cpu().ax / 256) as u8 == *ah
            }
        }
    }
}

/// The events, with the bytes that their ranges have now. An `Err` is a failed allocation.
pub(crate) fn watches_of(
    alloc: Global,
    events: &[Event],
    space: &Space,
) -> Result<Vec<Watch>, AllocError>
    ensures { IfOk result (λ watches. watches.items ≡ map (watch_of space.now.memory) events.now) }
{
    let mut watches = Vec::new(alloc);
    for event in events {
        watches.push(Watch::new(alloc, *event, space)?)?;
    }
    Ok(watches)
}

/// The index of the first event that has come; None if none has.
pub(crate) fn first_come(watches: &[Watch], machine: &Machine) -> Option<usize>
    ensures { result ≡ first_from (λ w. comes machine.now w.event w.before) 0 watches.now }
{
    for (k, watch) in watches.iter().enumerate() {
        if watch.has_come(machine) {
            return Some(k);
        }
    }
    None
}
