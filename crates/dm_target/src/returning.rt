//! Going back to the last hit: a state at a breakpoint, or one from which a step hits a watchpoint.

ghost use Rattle.std.specs.Prelude.{◌≡◌, ◌<◌, ◌≤◌, ℕ, false, List, [], IfOk, OnOk, OnErr};
ghost use Rattle.dm_services.specs.state.State.{State};
ghost use Rattle.dm_history.specs.Becomes.{BecomesBy};
ghost use Rattle.dm_history.specs.Branches.{Reaches};
ghost use Rattle.dm_history.specs.Timelines.{GoesBack, Was};
ghost use Rattle.dm_target.specs.Returning.{Meets, Returns};
ghost use Rattle.dm_target.specs.inner.Surveying.{IsLast, IsLookedAt, IsMet, IsPart, IsStand, IsSurvey, Stands, found_with};

use crate::going::{Pause, code_address, go_on, is_among};
use crate::undoing::Undone;
use dm_history::History;
use dm_machine::Stop;
use dm_requests::Point;
use std::alloc::{AllocError, Global};

/// How many steps before the present state are looked at first.
const FIRST: u64 = 1_000;

/// How many times as many steps are looked at next, where there was no hit.
const MORE: u64 = 60;

/// The largest number of steps that are looked at from another state than that of a copy.
const LARGEST: u64 = 1_000_000;

/// After how many hits a part is left, since later ones are nearer.
const HITS: u32 = 30_000;

/// A hit, by its count of steps, and whether it is known to be the last one before the end of what was looked at.
#[derive(Clone, Copy)]
pub(crate) struct Found {
    pub step: u64,
    pub is_last: bool,
}

/// The last hit with the machine's present state among those that were looked at, and whether `end` is reached.
fn stand(branch: &History, end: u64, points: &[u32], last: Option<u64>) -> (Option<u64>, bool)
    ensures { IsStand points.now branch.now.machine end last result.0 result.1 }
{
    let machine = branch.machine();
    let steps = machine.steps();
    if end <= steps {
        return (last, true);
    }
    if is_among(points, code_address(machine)) {
        return (Some(steps), false);
    }
    (last, false)
}

/// Goes on to the next hit, or to `end`. `last` is the last hit so far. Returns the last one then, and whether it is
/// the last one before `end`. Nothing but the machine changes. An `Err` is a failed allocation.
fn look_further(
    alloc: Global,
    branch: &mut History,
    end: u64,
    points: &[u32],
    watches: &[Point],
    last: Option<u64>,
) -> Result<(Option<u64>, bool), AllocError>
    requires { branch.old.machine.steps < end }
    ensures more { IfOk result (λ r. r.1 ≡ false → branch.new.machine.steps < end) }
    ensures looked { IfOk result (λ r. (o : State) → BecomesBy o [] branch.old.machine → Reaches o end →
        Stands points.now watches.now o branch.old.machine last →
        IsLookedAt points.now watches.now o end branch.new.machine r.0 r.1) }
{
    let at = branch.machine().steps();
    match go_on(alloc, branch, end - at, None, points, watches) {
        Pause::Stopped(stop) => match stop {
            Stop::Memory => Err(AllocError),
            _ => Ok((last, true)),
        },
        Pause::Arrived => Ok(stand(branch, end, points, last)),
        Pause::Hit(_) => {
            let step = branch.machine().steps().saturating_sub(1);
            Ok(stand(branch, end, points, Some(step)))
        }
    }
}

/// A hit, if there is one.
fn found_with(last: Option<u64>, is_last: bool) -> Option<Found>
    ensures { result ≡ found_with last is_last }
{
    match last {
        None => None,
        Some(step) => Some(Found { step, is_last }),
    }
}

/// Looks for hits from the branch's state on up to `end`: None if there is none, else the last one, or one after which
/// there may be others. An `Err` is a failed allocation.
fn survey(
    alloc: Global,
    branch: &mut History,
    end: u64,
    points: &[u32],
    watches: &[Point],
) -> Result<Option<Found>, AllocError>
    requires { branch.old.machine.steps < end }
    ensures { IfOk result (λ found. Reaches branch.old.machine end →
        IsSurvey points.now watches.now branch.old.machine end found) }
{
    let mut last = stand(branch, end, points, None).0;
    for _ in 0..HITS {
        let (found, is_whole) = look_further(alloc, branch, end, points, watches, last)?;
        if is_whole {
            return Ok(found_with(found, true));
        }
        last = found;
    }
    Ok(found_with(last, false))
}

/// Where the next part to be looked at begins, whose end this is: at `low` or later. Where a hit is known, it is the
/// later half of what is left; otherwise `part` steps, or those from a copy on.
fn begin(history: &History, low: u64, end: u64, part: u64, last: Option<u64>) -> u64
    requires since { history.now.beginning.steps ≤ low }
    requires before { low < end }
    ensures since { low ≤ result }
    ensures before { result < end }
{
    let wish = match last {
        Some(_) => low + (end - low) / 2,
        None => {
            if part <= LARGEST {
                end.saturating_sub(part)
            } else {
                history.nearest(end - 1)
            }
        }
    };
    wish.max(low).min(end - 1)
}

/// Looks at the part of the history from the step `wish`, or from the last edits after it, up to `end`: returns where
/// it begins, and what was found. An `Err` is a failed allocation.
fn look_at(
    alloc: Global,
    history: &History,
    wish: u64,
    end: u64,
    points: &[u32],
    watches: &[Point],
) -> Result<(u64, Option<Found>), AllocError>
    requires since { history.now.beginning.steps ≤ wish }
    requires before { wish < end }
    requires within { end ≤ history.now.machine.steps }
    ensures { IfOk result (λ r. IsPart points.now watches.now history.now wish end r.0 r.1) }
{
    let mut branch = history.branch(wish, end)?;
    let from = branch.machine().steps();
    let found = survey(alloc, &mut branch, end, points, watches)?;
    Ok((from, found))
}

/// The last hit before the present state, by its count of steps; None if there is none. An `Err` is a failed
/// allocation.
fn seek(
    alloc: Global,
    history: &History,
    points: &[u32],
    watches: &[Point],
) -> Result<Option<u64>, AllocError>
    ensures { IfOk result (λ last. IsLast points.now watches.now history.now last) }
{
    let mut low = history.steps_of_beginning();
    let mut end = history.machine().steps();
    let mut last = None;
    let mut part = FIRST;
    while low < end {
        let wish = begin(history, low, end, part, last);
        let (from, found) = look_at(alloc, history, wish, end, points, watches)?;
        match found {
            None => {
                end = from;
                part = part.saturating_mul(MORE);
            }
            Some(found) => {
                last = Some(found.step);
                low = found.step + 1;
                if found.is_last {
                    end = low;
                }
            }
        }
    }
    Ok(last)
}

/// The last hit before the present state, as `seek`; nothing is looked at if nothing is set.
fn find_last(
    alloc: Global,
    history: &History,
    points: &[u32],
    watches: &[Point],
) -> Result<Option<u64>, AllocError>
    ensures { IfOk result (λ last. IsLast points.now watches.now history.now last) }
{
    if points.is_empty() && watches.is_empty() {
        return Ok(None);
    }
    seek(alloc, history, points, watches)
}

/// What the branch's state is told as, which is a hit. An `Err` is a failed allocation; a step may have been made.
fn told(alloc: Global, branch: &mut History, watches: &[Point]) -> Result<Undone, AllocError>
    ensures { IfOk result (λ what. (points : List ℕ) → IsMet points watches.now branch.old.machine →
        Meets points watches.now branch.old.machine what) }
{
    match go_on(alloc, branch, 1, None, &[], watches) {
        Pause::Hit(point) => Ok(Undone::Hit(point)),
        Pause::Arrived => Ok(Undone::Back),
        Pause::Stopped(stop) => match stop {
            Stop::Memory => Err(AllocError),
            _ => Ok(Undone::Back),
        },
    }
}

/// What a hit at a step of the history is told as. An `Err` is a failed allocation.
fn told_at(
    alloc: Global,
    history: &History,
    step: u64,
    watches: &[Point],
) -> Result<Undone, AllocError>
    requires since { history.now.beginning.steps ≤ step }
    requires before { step < history.now.machine.steps }
    ensures { IfOk result (λ what. (points : List ℕ) (s : State) → Was history.now step s → IsMet points watches.now s →
        Meets points watches.now s what) }
{
    let _now = history.machine().steps();
    let mut branch = history.branch(step, step + 1)?;
    told(alloc, &mut branch, watches)
}

/// Goes back to an earlier step of the history. An `Err` is a failed allocation, and nothing has changed.
fn go_back(history: &mut History, step: u64) -> Result<(), AllocError>
    requires since { history.old.beginning.steps ≤ step }
    requires before { step < history.old.machine.steps }
    ensures ok { OnOk result (GoesBack history.old step history.new) }
    ensures err { OnErr result (history.new ≡ history.old) }
{
    let _back = history.go_back_to(step)?;
    Ok(())
}

/// Goes back to the last state before the present one at which the machine stands at one of these breakpoints, or from
/// which a step hits one of these watchpoints, and tells which; where there is none, to the state where the history
/// begins. A step that ends the program hits nothing. Later edits are dropped; nothing but the history changes.
///
/// # Errors
///
/// `AllocError` if an allocation fails; nothing has changed.
pub fn turn_back(
    alloc: Global,
    history: &mut History,
    points: &[u32],
    watches: &[Point],
) -> Result<Undone, AllocError>
    ensures ok { IfOk result (λ what. Returns points.now watches.now history.old what history.new) }
    ensures err { OnErr result (history.new ≡ history.old) }
{
    let beginning = history.steps_of_beginning();
    if history.machine().steps() <= beginning {
        return Ok(Undone::Begun);
    }
    match find_last(alloc, history, points, watches)? {
        None => {
            go_back(history, beginning)?;
            Ok(Undone::Begun)
        }
        Some(step) => {
            history.approach(step);
            let what = told_at(alloc, history, step, watches)?;
            go_back(history, step)?;
            Ok(what)
        }
    }
}
