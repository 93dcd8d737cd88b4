//! What is found of the bytes that the instruction at CS:IP touches, before it is performed. Each function `put_..`
//! appends its findings to `out`; an `Err` is a failed allocation.

ghost use Rattle.std.specs.Prelude.{◌≡◌, ◌++◌, map, OnOk};
ghost use Rattle.std.specs.List.{flat_map};
ghost use Rattle.dm_services.specs.state.State.{State};
ghost use Rattle.dm_touches.specs.Elements.{bytes_of};
ghost use Rattle.dm_touches.specs.Found.{of_header, of_headers};
ghost use Rattle.dm_checker.specs.ArenaCopy.{IsArenaCopy, header_of, broken_at};
ghost use Rattle.dm_checker.specs.inner.Steps.{IsBefore, IsNextAct, Touches};

use crate::acts::Before;
use crate::arena_copy::{ArenaCopy, HeaderCopy};
use dm_decode::decode;
use dm_findings::Finding;
use dm_ins::Ins;
use dm_machine::Machine;
use dm_touches::{Touched, put_of_header, put_of_places, touched};
use std::alloc::AllocError;

impl Before {
    /// The instruction that the step performs, and its length; None if it performs a call, or if the bytes at CS:IP are
    /// no instruction.
    fn instruction(&self) -> Option<(Ins, u8)>
        ensures { (s : State) → IsBefore s self.now → IsNextAct s result }
    {
        if let Some(_call) = self.call {
            return None;
        }
        decode(&self.bytes)
    }
}

/// Appends what is found at the blocks of a list that is valid, in its order.
fn put_of_each(
    out: &mut Vec<Finding>,
    a20: bool,
    touched: &Touched,
    headers: &[HeaderCopy],
) -> Result<(), AllocError>
    ensures { OnOk result (out.new.items ≡ out.old.items
        ++ flat_map (of_header a20 (bytes_of touched.now.reads) (bytes_of touched.now.writes))
        (map header_of headers.now)) }
{
    for copy in headers {
        put_of_header(out, a20, touched, &copy.header)?;
    }
    Ok(())
}

/// Appends what is found at the blocks, if no list breaks.
fn put_of_headers(
    out: &mut Vec<Finding>,
    a20: bool,
    touched: &Touched,
    kept: &ArenaCopy,
) -> Result<(), AllocError>
    ensures { OnOk result (out.new.items ≡ out.old.items ++ of_headers a20 (bytes_of touched.now.reads)
        (bytes_of touched.now.writes) (broken_at kept.now.broken) (map header_of kept.now.headers.items)) }
{
    if kept.broken.is_some() {
        return Ok(());
    }
    put_of_each(out, a20, touched, &kept.headers)
}

/// Appends what is found of the bytes that the machine's next step touches; `before` is what was kept of its state, and
/// `kept` the arena in it.
pub(crate) fn put_touched(
    out: &mut Vec<Finding>,
    before: &Before,
    kept: &ArenaCopy,
    machine: &Machine,
) -> Result<(), AllocError>
    requires { IsBefore machine.now before.now }
    ensures { OnOk result (Touches machine.now kept.now out.old.items out.new.items) }
{
    let Some((ins, len)) = before.instruction() else {
        return Ok(());
    };
    let space = machine.space();
    let touched = touched(&ins, len, &before.cpu, space);
    put_of_headers(out, space.a20(), &touched, kept)?;
    put_of_places(out, space, &touched.writes)
}
