//! Going on: steps up to a breakpoint, the end of a range of addresses, a hit of a watchpoint, a stop, or a number of
//! steps.

ghost use Rattle.std.specs.Prelude.{◌≡◌, All, IfSome};
ghost use Rattle.dm_target.specs.Going.{is_among, is_outside, code_address, has_arrived, Continues};
ghost use Rattle.dm_target.specs.inner.Looking.{Ends, IsGuarded};

use crate::memory::linear_of;
use crate::nearby::{marks_if_any, run_unhit};
use crate::watching::look;
use dm_history::History;
use dm_machine::{Breakpoint, Machine, Stop};
use dm_requests::Point;
use dm_touches::quiet::Marks;
use std::alloc::Global;

/// The linear addresses of a range that is stepped through: `start` and those above it, below `end`.
#[derive(Clone, Copy, Debug, PartialEq, Eq)]
pub struct StepRange {
    pub start: u32,
    pub end: u32,
}

/// Why going on has ended.
#[derive(Clone, Copy, Debug, PartialEq, Eq)]
pub enum Pause {
    /// The machine stopped, or all steps were made.
    Stopped(Stop),
    /// The last step led to a breakpoint, or out of the range.
    Arrived,
    /// The last step hit this watchpoint.
    Hit(Point),
}

/// The linear address of CS:IP.
pub fn code_address(machine: &Machine) -> u32
    ensures { result ≡ code_address machine.now }
{
    let cpu = machine.cpu();
    linear_of(machine.space(), cpu.cs, cpu.ip)
}

/// Whether an address is one of these.
pub fn is_among(points: &[u32], address: u32) -> bool
    ensures { result ≡ is_among points.now address }
{
    points.iter().any(|point| *point == address)
}

/// Whether an address is outside the range; if there is none, it is not.
fn is_outside(span: Option<StepRange>, address: u32) -> bool
    ensures { result ≡ is_outside span address }
{
    match span {
        None => false,
        Some(span) => address < span.start || span.end <= address,
    }
}

/// Whether the machine stands at a breakpoint, or outside the range.
fn has_arrived(points: &[u32], span: Option<StepRange>, machine: &Machine) -> bool
    ensures { result ≡ has_arrived points.now span machine.now }
{
    let address = code_address(machine);
    is_among(points, address) || is_outside(span, address)
}

/// Makes one step: None if it hit no watchpoint and led to no breakpoint and not out of the range, else why going on
/// pauses. Nothing but the machine changes.
fn look_on(
    alloc: Global,
    history: &mut History,
    span: Option<StepRange>,
    points: &[u32],
    watches: &[Point],
) -> Option<Pause>
    ensures ends { Ends points.now watches.now span history.old.machine result history.new.machine }
    ensures beginning { history.new.beginning ≡ history.old.beginning }
    ensures edits { history.new.edits ≡ history.old.edits }
{
    if let Some(pause) = look(alloc, history, watches) {
        return Some(pause);
    }
    if has_arrived(points, span, history.machine()) {
        return Some(Pause::Arrived);
    }
    None
}

/// Makes at most `most` steps, as `go_on` does. `marks` are those of the watchpoints, if there are any, and `pairs` is
/// room for breakpoints.
fn go_marked(
    alloc: Global,
    history: &mut History,
    most: u64,
    span: Option<StepRange>,
    points: &[u32],
    watches: &[Point],
    marks: &Option<Marks>,
    pairs: &mut Vec<Breakpoint>,
) -> Pause
    requires { IfSome marks.now (λ m. All (IsGuarded m) watches.now) }
    ensures goes { Continues points.now watches.now span history.old.machine most result history.new.machine }
    ensures beginning { history.new.beginning ≡ history.old.beginning }
    ensures edits { history.new.edits ≡ history.old.edits }
{
    let mut left = most;
    for _ in 0..most {
        if left == 0 {
            return Pause::Stopped(Stop::Steps);
        }
        let made = run_unhit(history, left, span, points, watches, marks, pairs);
        if made == 0 {
            if let Some(pause) = look_on(alloc, history, span, points, watches) {
                return pause;
            }
            left -= 1;
        } else {
            left -= made;
            if has_arrived(points, span, history.machine()) {
                return Pause::Arrived;
            }
        }
    }
    Pause::Stopped(Stop::Steps)
}

/// Makes at most `most` steps, but none after one that led to a breakpoint or out of the range, or hit a watchpoint,
/// and returns why the steps ended. Nothing but the machine changes. Allocations for speed may fail; where the watched
/// bytes cannot be kept before a service or driver, the steps end as if the machine wanted memory.
pub fn go_on(
    alloc: Global,
    history: &mut History,
    most: u64,
    span: Option<StepRange>,
    points: &[u32],
    watches: &[Point],
) -> Pause
    ensures goes { Continues points.now watches.now span history.old.machine most result history.new.machine }
    ensures beginning { history.new.beginning ≡ history.old.beginning }
    ensures edits { history.new.edits ≡ history.old.edits }
{
    if points.is_empty() && watches.is_empty() && span.is_none() {
        return Pause::Stopped(history.run(most));
    }
    let marks = marks_if_any(alloc, watches);
    let mut pairs = Vec::new(alloc);
    go_marked(
        alloc, history, most, span, points, watches, &marks, &mut pairs,
    )
}
