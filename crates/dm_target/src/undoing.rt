//! Going back a step, and which watchpoint the step hit.

ghost use Rattle.std.specs.Prelude.{◌≡◌, IfOk, OnErr};
ghost use Rattle.dm_space.specs.Memory.{Memory};
ghost use Rattle.dm_services.specs.state.State.{State};
ghost use Rattle.dm_target.specs.Undoing.{HitBy, Undoes, undone_by};
ghost use Rattle.dm_target.specs.inner.Looking.{all_bytes};

use crate::watching::{first_changed, first_hit, keep_all};
use dm_history::History;
use dm_machine::Machine;
use dm_requests::Point;
use dm_space::entry_points::entry_point_at;
use std::alloc::{AllocError, Global};

/// What became of going back a step.
#[derive(Clone, Copy, Debug, PartialEq, Eq)]
pub enum Undone {
    /// Nothing: the history begins here.
    Begun,
    /// The step is undone.
    Back,
    /// The step is undone, and it hit this watchpoint.
    Hit(Point),
}

/// What a step that hit this, or nothing, is told as.
fn undone_by(hit: Option<Point>) -> Undone
    ensures { result ≡ undone_by hit }
{
    match hit {
        Some(point) => Undone::Hit(point),
        None => Undone::Back,
    }
}

/// The first of these watchpoints that the step from the machine's state hits, by the bytes of their ranges after it.
fn hit_by(machine: &Machine, watches: &[Point], after: &[u8]) -> Option<Point>
    requires { (m : Memory) × (after.now ≡ all_bytes m watches.now) }
    ensures { (t : State) → after.now ≡ all_bytes t.memory watches.now → HitBy watches.now machine.now t result }
{
    let cpu = machine.cpu();
    match entry_point_at(cpu.cs, cpu.ip) {
        Some(_) => first_changed(machine.space(), watches, after),
        None => first_hit(machine, watches),
    }
}

/// Goes back a step, and tells the first of these watchpoints that it hit. Nothing but the history changes.
///
/// # Errors
///
/// `AllocError` if an allocation fails; nothing has changed.
pub fn step_back(
    alloc: Global,
    history: &mut History,
    watches: &[Point],
) -> Result<Undone, AllocError>
    ensures ok { IfOk result (λ what. Undoes watches.now history.old what history.new) }
    ensures err { OnErr result (history.new ≡ history.old) }
{
    let now = history.machine().steps();
    if now <= history.steps_of_beginning() {
        return Ok(Undone::Begun);
    }
    let after = keep_all(alloc, history.machine().space(), watches)?;
    if !history.go_back_to(now - 1)? {
        // (It always goes back: the history began before.)
        return Ok(Undone::Begun);
    }
    let hit = hit_by(history.machine(), watches, after.as_slice());
    Ok(undone_by(hit))
}
