//! Watchpoints: which steps hit a range of linear addresses.

ghost use Rattle.std.specs.Prelude.{◌≡◌, ◌≢◌, ◌<◌, ◌≤◌, ◌+◌, ◌++◌, ℕ, not, None, Some, [], IfOk, OnOk, length};
ghost use Rattle.std.specs.List.{find};
ghost use Rattle.dm_space.specs.EntryPoints.{entry_point_at};
ghost use Rattle.dm_ins.specs.declared.ins.Ins.{Ins};
ghost use Rattle.dm_ins.specs.Ins.{BeginsWith};
ghost use Rattle.dm_cpu.specs.Guest.{guest};
ghost use Rattle.dm_touches.specs.Touches.{reads, writes};
ghost use Rattle.dm_touches.specs.quiet.Marks.{satisfies};
ghost use Rattle.dm_space.specs.declared.entry_points.EntryPoint.{EntryPoint};
ghost use Rattle.dm_space.specs.Memory.{Memory, linear};
ghost use Rattle.dm_machine.specs.Step.{fetched};
ghost use Rattle.dm_target.specs.Watching.{by_access, bytes_there, is_changed, is_in_range, is_met, is_touched, watched_bytes};
ghost use Rattle.dm_target.specs.inner.Looking.{Looks, all_bytes, pause_at};

use crate::going::Pause;
use crate::memory::{LAST, byte_at, reads_as};
use dm_decode::decode;
use dm_history::History;
use dm_machine::{Machine, Stop};
use dm_requests::{Point, WatchedAccess};
use dm_space::Space;
use dm_space::entry_points::entry_point_at;
use dm_touches::{Element, Elements, FarAddress, Touched, touched};
use std::alloc::{AllocError, Global};

/// Whether a linear address is in the range of a watchpoint.
fn is_in_range(point: &Point, address: u32) -> bool
    ensures { result ≡ is_in_range point.now address }
{
    point.address <= address && (address as u64) < point.address as u64 + point.length as u64
}

/// Whether a watchpoint counts what is read or written.
fn by_access(access: WatchedAccess, read: bool, written: bool) -> bool
    ensures { result ≡ by_access access read written }
{
    match access {
        WatchedAccess::Execute => false,
        WatchedAccess::Write => written,
        WatchedAccess::Read => read,
        WatchedAccess::Either => read || written,
    }
}

/// Whether the byte at segment:offset is outside the range of a watchpoint.
fn misses(a20: bool, segment: u16, offset: u16, point: &Point) -> bool
    ensures { result ≡ not (is_in_range point.now (linear a20 segment offset)) }
{
    let byte = FarAddress { segment, offset };
    !is_in_range(point, byte.linear(a20))
}

/// Whether all bytes of an element are outside the range of a watchpoint.
fn element_misses(a20: bool, element: Option<Element>, point: &Point) -> bool
    ensures { result ≡ satisfies (λ a. not (is_in_range point.now a)) a20 element }
{
    match element {
        None => true,
        Some(Element::Byte(segment, offset)) => misses(a20, segment, offset, point),
        Some(Element::Word(segment, offset)) => {
            misses(a20, segment, offset, point)
                && misses(a20, segment, offset.wrapping_add(1), point)
        }
    }
}

/// Whether a byte of these elements is in the range of a watchpoint.
fn is_met(a20: bool, elements: &Elements, point: &Point) -> bool
    ensures { result ≡ is_met a20 elements.now point.now }
{
    !(element_misses(a20, elements.first, point)
        && element_misses(a20, elements.second, point)
        && element_misses(a20, elements.third, point))
}

/// Whether an instruction that touches these bytes hits the watchpoint.
fn is_touched(a20: bool, touched: &Touched, point: &Point) -> bool
    ensures { result ≡ is_touched a20 touched.now.reads touched.now.writes point.now }
{
    let read = is_met(a20, &touched.reads, point);
    let written = is_met(a20, &touched.writes, point);
    by_access(point.access, read, written)
}

/// The first of these watchpoints that an instruction hits which touches these bytes.
fn first_touched(a20: bool, touched: &Touched, watches: &[Point]) -> Option<Point>
    ensures { result ≡ find (is_touched a20 touched.now.reads touched.now.writes) watches.now }
{
    for point in watches {
        if is_touched(a20, touched, point) {
            return Some(*point);
        }
    }
    None
}

/// The first of these watchpoints that the instruction at CS:IP hits; None also if the bytes there are no instruction.
pub(crate) fn first_hit(machine: &Machine, watches: &[Point]) -> Option<Point>
    ensures { (i : Ins) (length : ℕ) → BeginsWith (fetched machine.now.memory machine.now.cpu) i length →
        result ≡ find (is_touched machine.now.memory.a20 (reads (guest machine.now.cpu machine.now.memory) i length)
        (writes (guest machine.now.cpu machine.now.memory) i length)) watches.now }
{
    let cpu = machine.cpu();
    let space = machine.space();
    match decode(&space.sixteen_bytes(cpu.cs, cpu.ip)) {
        Some((ins, length)) => {
            let touched = touched(&ins, length, &cpu, space);
            first_touched(space.a20(), &touched, watches)
        }
        None => None,
    }
}

/// How many bytes of the range of a watchpoint there are: those up to FFFF:FFFF.
fn bytes_there(point: &Point) -> u32
    ensures is { result ≡ bytes_there point.now }
    ensures most { result ≤ 0x10FFF0 }
    ensures ends { 0 < result → point.now.address + result ≤ 0x10FFF0 }
{
    if LAST < point.address {
        return 0;
    }
    point.length.min(LAST + 1 - point.address)
}

/// Appends the bytes of the range of a watchpoint. An `Err` is a failed allocation.
fn keep_bytes(kept: &mut Vec<u8>, space: &Space, point: &Point) -> Result<(), AllocError>
    ensures { OnOk result (kept.new.items ≡ kept.old.items ++ watched_bytes space.now.memory point.now) }
{
    for k in 0..bytes_there(point) {
        kept.push(byte_at(space, point.address + k))?;
    }
    Ok(())
}

/// The bytes of the ranges of all watchpoints, one behind the other. An `Err` is a failed allocation.
pub(crate) fn keep_all(
    alloc: Global,
    space: &Space,
    watches: &[Point],
) -> Result<Vec<u8>, AllocError>
    ensures { IfOk result (λ kept. kept.items ≡ all_bytes space.now.memory watches.now) }
{
    let mut kept = Vec::new(alloc);
    for point in watches {
        keep_bytes(&mut kept, space, point)?;
    }
    Ok(kept)
}

/// Whether a service or driver hits the watchpoint, by the bytes of its range before and those that memory has now.
fn is_changed(space: &Space, point: &Point, before: &[u8]) -> bool
    requires { length before.now ≡ bytes_there point.now }
    ensures { (m : Memory) → before.now ≡ watched_bytes m point.now → result ≡ is_changed m space.now.memory point.now }
{
    if before.is_empty() {
        return false;
    }
    by_access(point.access, false, !reads_as(space, point.address, before))
}

/// The first of these watchpoints that a service or driver hits, by the bytes that were kept before.
pub(crate) fn first_changed(space: &Space, watches: &[Point], before: &[u8]) -> Option<Point>
    requires { (m : Memory) × (before.now ≡ all_bytes m watches.now) }
    ensures { (m : Memory) → before.now ≡ all_bytes m watches.now → result ≡ find (is_changed m
        space.now.memory) watches.now }
{
    let mut rest = before;
    for point in watches {
        let (mine, others) = rest.split_at(bytes_there(point) as usize);
        if is_changed(space, point, mine) {
            return Some(*point);
        }
        rest = others;
    }
    None
}

/// Whether a step was made, and the watchpoint that it hit, as why going on pauses; None if it hit none.
fn pause_at(stop: Stop, hit: Option<Point>) -> Option<Pause>
    ensures { result ≡ pause_at stop hit }
{
    match stop {
        Stop::Steps => match hit {
            Some(point) => Some(Pause::Hit(point)),
            None => None,
        },
        _ => Some(Pause::Stopped(stop)),
    }
}

/// Makes the step of an instruction, and looks at what it touches.
fn look_at_instruction(history: &mut History, watches: &[Point]) -> Option<Pause>
    requires { entry_point_at history.old.machine.cpu.cs history.old.machine.cpu.ip ≡ None }
    ensures looks { Looks watches.now history.old.machine result history.new.machine }
    ensures beginning { history.new.beginning ≡ history.old.beginning }
    ensures edits { history.new.edits ≡ history.old.edits }
{
    let hit = first_hit(history.machine(), watches);
    let stop = history.run(1);
    pause_at(stop, hit)
}

/// Makes the step of a service or driver, and looks at what it changes; makes none if the watched bytes cannot be kept.
fn look_at_call(alloc: Global, history: &mut History, watches: &[Point]) -> Option<Pause>
    requires there { (what : EntryPoint) × (entry_point_at history.old.machine.cpu.cs history.old.machine.cpu.ip
        ≡ Some what) }
    requires watched { watches.now ≢ [] }
    ensures looks { Looks watches.now history.old.machine result history.new.machine }
    ensures beginning { history.new.beginning ≡ history.old.beginning }
    ensures edits { history.new.edits ≡ history.old.edits }
{
    let Ok(before) = keep_all(alloc, history.machine().space(), watches) else {
        return Some(Pause::Stopped(Stop::Memory));
    };
    let stop = history.run(1);
    let hit = first_changed(history.machine().space(), watches, before.as_slice());
    pause_at(stop, hit)
}

/// Makes one step, and looks whether it hits a watchpoint: None if it hits none, else why going on pauses. Nothing but
/// the machine changes.
pub(crate) fn look(alloc: Global, history: &mut History, watches: &[Point]) -> Option<Pause>
    ensures looks { Looks watches.now history.old.machine result history.new.machine }
    ensures beginning { history.new.beginning ≡ history.old.beginning }
    ensures edits { history.new.edits ≡ history.old.edits }
{
    if watches.is_empty() {
        let stop = history.run(1);
        return pause_at(stop, None);
    }
    let cpu = history.machine().cpu();
    match entry_point_at(cpu.cs, cpu.ip) {
        Some(_) => look_at_call(alloc, history, watches),
        None => look_at_instruction(history, watches),
    }
}
