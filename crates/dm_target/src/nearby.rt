//! Steps that are made at once, since they hit no watchpoint and lead to no breakpoint.

ghost use Rattle.std.specs.Prelude.{◌≡◌, ◌≤◌, ◌<◌, ◌++◌, [], ℕ, All, IfOk, OnOk, IfSome, IsTrue, None};
ghost use Rattle.dm_machine.specs.Unmarked.{GoesUnmarked};
ghost use Rattle.dm_machine.specs.Near.{GoesNear};
ghost use Rattle.dm_target.specs.inner.Looking.{HasLevel, IsGuarded, IsGuardedAt, Keeps, RunsUnhit, level_of, pair_at, pairs_at, pairs_of};

use crate::going::StepRange;
use dm_history::History;
use dm_machine::Breakpoint;
use dm_requests::{Point, WatchedAccess};
use dm_touches::quiet::Marks;
use std::alloc::{AllocError, Global};

/// How many paragraphs there are: those of all linear addresses.
const PARAGRAPHS: u64 = 0x1_1000;

/// What the range of a watchpoint is marked with: 1 where writes count, 2 where reads do.
fn level_of(access: WatchedAccess) -> u8
    ensures is { result ≡ level_of access }
    ensures most { result ≤ 2 }
{
    match access {
        WatchedAccess::Execute => 0,
        WatchedAccess::Write => 1,
        WatchedAccess::Read => 2,
        WatchedAccess::Either => 2,
    }
}

/// Gives the paragraphs of the range of a watchpoint a level.
fn mark_range(marks: &mut Marks, point: &Point, level: u8)
    requires { level ≤ 2 }
    ensures keeps { (n : ℕ) → n ≤ level → Keeps n marks.old marks.new }
    ensures marked { HasLevel level marks.new point.now }
{
    let first = (point.address as u64 / 16).min(PARAGRAPHS);
    let end = ((point.address as u64 + point.length as u64 + 15) / 16).min(PARAGRAPHS);
    marks.mark(first as usize, end as usize, level);
}

/// Gives the paragraphs of the range of a watchpoint this level, if the watchpoint is one of this level.
fn mark_if(marks: &mut Marks, point: &Point, level: u8)
    requires { level ≤ 2 }
    ensures keeps { (n : ℕ) → n ≤ level → Keeps n marks.old marks.new }
    ensures marked { IsGuardedAt level marks.new point.now }
{
    if level_of(point.access) == level {
        mark_range(marks, point, level);
    }
}

/// Gives the paragraphs of the ranges of all watchpoints of this level that level.
fn mark_all(marks: &mut Marks, watches: &[Point], level: u8)
    requires { level ≤ 2 }
    ensures keeps { (n : ℕ) → n ≤ level → Keeps n marks.old marks.new }
    ensures marked { All (IsGuardedAt level marks.new) watches.now }
{
    for point in watches {
        mark_if(marks, point, level);
    }
}

/// Marks on the ranges of these watchpoints. An `Err` is a failed allocation.
fn marks_of(alloc: Global, watches: &[Point]) -> Result<Marks, AllocError>
    ensures { IfOk result (λ marks. All (IsGuarded marks) watches.now) }
{
    let mut marks = Marks::new(alloc)?;
    mark_all(&mut marks, watches, 1);
    mark_all(&mut marks, watches, 2);
    Ok(marks)
}

/// Appends the pair of the segment with this linear address, if the segment reaches it. An `Err` is a failed
/// allocation.
fn put_pair(pairs: &mut Vec<Breakpoint>, segment: u16, address: u64) -> Result<(), AllocError>
    ensures { OnOk result (pairs.new.items ≡ pairs.old.items ++ pair_at segment address) }
{
    let start = segment as u64 * 16;
    if start <= address && address <= start + 0xFFFF {
        let offset = (address - start) as u16;
        pairs.push(Breakpoint { segment, offset })?;
    }
    Ok(())
}

/// Appends the pairs of the segment whose linear address may be this one, by A20. An `Err` is a failed allocation.
fn put_pairs_at(pairs: &mut Vec<Breakpoint>, segment: u16, address: u32) -> Result<(), AllocError>
    ensures { OnOk result (pairs.new.items ≡ pairs.old.items ++ pairs_at segment address) }
{
    put_pair(pairs, segment, address as u64)?;
    put_pair(pairs, segment, address as u64 + 0x10_0000)
}

/// Replaces `pairs` by the pairs of the segment whose linear address may be one of these. An `Err` is a failed
/// allocation.
fn put_pairs(pairs: &mut Vec<Breakpoint>, segment: u16, points: &[u32]) -> Result<(), AllocError>
    ensures pairs { OnOk result (pairs.new.items ≡ pairs_of segment points.now) }
    ensures small { segment < 65536 }
{
    pairs.clear();
    for point in points {
        put_pairs_at(pairs, segment, *point)?;
    }
    Ok(())
}

/// Marks on the ranges of these watchpoints; None if there are none, or if an allocation fails.
pub(crate) fn marks_if_any(alloc: Global, watches: &[Point]) -> Option<Marks>
    ensures { IfSome result (λ marks. All (IsGuarded marks) watches.now) }
{
    if watches.is_empty() {
        return None;
    }
    match marks_of(alloc, watches) {
        Ok(marks) => Some(marks),
        Err(_) => None,
    }
}

/// Makes at most `most` steps with these marks, if there are any, and returns how many: steps of instructions in the
/// segment that CS has, that touch nothing that is marked, none but the last of which leads to one of the pairs.
fn run_marked(history: &mut History, most: u64, pairs: &[Breakpoint], marks: &Option<Marks>) -> u64
    ensures near { GoesNear pairs.now history.old.machine result history.new.machine }
    ensures unmarked { IfSome marks.now (λ m. GoesUnmarked m history.old.machine result history.new.machine) }
    ensures most { result ≤ most }
    ensures beginning { history.new.beginning ≡ history.old.beginning }
    ensures edits { history.new.edits ≡ history.old.edits }
{
    match marks {
        Some(marks) => history.run_near(most, pairs, Some(marks)),
        None => history.run_near(most, pairs, None),
    }
}

/// Whether steps can be made at once: they do not end outside a range, and there are marks if there are watchpoints.
fn may_run_unhit(span: Option<StepRange>, watches: &[Point], marks: &Option<Marks>) -> bool
    ensures span { IsTrue result → span ≡ None }
    ensures marks { IsTrue result → marks.now ≡ None → watches.now ≡ [] }
{
    match marks {
        Some(_) => span.is_none(),
        None => watches.is_empty() && span.is_none(),
    }
}

/// Makes at most `most` steps that hit no watchpoint, none but the last of which leads to a breakpoint, and returns how
/// many. It may make none: it makes none where steps end outside a range, nor where there are watchpoints and no marks.
/// `pairs` is room for breakpoints. Nothing but the machine changes.
pub(crate) fn run_unhit(
    history: &mut History,
    most: u64,
    span: Option<StepRange>,
    points: &[u32],
    watches: &[Point],
    marks: &Option<Marks>,
    pairs: &mut Vec<Breakpoint>,
) -> u64
    requires { IfSome marks.now (λ m. All (IsGuarded m) watches.now) }
    ensures near { RunsUnhit points.now watches.now span history.old.machine result history.new.machine }
    ensures most { result ≤ most }
    ensures beginning { history.new.beginning ≡ history.old.beginning }
    ensures edits { history.new.edits ≡ history.old.edits }
{
    if !may_run_unhit(span, watches, marks) {
        return 0;
    }
    let segment = history.machine().cpu().cs;
    match put_pairs(pairs, segment, points) {
        Ok(()) => run_marked(history, most, pairs.as_slice(), marks),
        Err(_) => 0,
    }
}
