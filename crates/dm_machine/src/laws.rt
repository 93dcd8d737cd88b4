//! Laws of steps and runs, each the contract of a function that does nothing.
ghost use Rattle.dm_machine.specs.Laws.{StepHasOneAnswer, ThereIsOneRun, RunHasOneStop, UnseenBytesChangeNoStep, UnseenBytesChangeNoRun, UnseenBlocksChangeNoRun, RunLeavesUnseen, ExtendedBlocksChangeNoRun, RunLeavesExtended, RoomIsEnoughForRuns, RoomIsEnoughForSteps};
ghost use Rattle.dm_machine.specs.Until.{UntilHasOneStop};
ghost use Rattle.dm_services.specs.state.State.{AreConsistent};

use crate::machine::Machine;

/// In every machine the tables of expanded and extended memory are consistent with memory. Each page is a block of its
/// own and belongs to a handle in use; each handle of extended memory has a block of its own, of the size in its entry,
/// that no window shows; there is no other block; and windows, saved ones too, show pages alone. So the law
/// `dm_drivers::pages_come` holds in every machine.
pub fn tables_and_memory_are_consistent(machine: &Machine)
    ensures { AreConsistent machine.now }
{
    let _steps = machine.parts.steps;
}

/// The state before a step determines its result, its stop and the state after it, unless an allocation fails.
pub fn a_step_has_one_answer()
    ensures { StepHasOneAnswer }
{}

/// The same number of steps from one state, where they can be made, leads to one state; and runs from one state with
/// the same limit of steps stop for the same reason in the same state, unless an allocation fails in one of them.
pub fn there_is_one_run()
    ensures steps { ThereIsOneRun }
    ensures stops { RunHasOneStop }
{}

/// Runs up to breakpoints (`run_until`) from one state, with the same limit of steps and the same breakpoints, end for
/// the same reason in the same state, unless an allocation fails in one of them. That a run ends at the first
/// breakpoint to which a step leads is the law `a_run_until_is_a_run`.
pub fn there_is_one_run_until()
    ensures { UntilHasOneStop }
{}

/// Bytes that no address shows neither matter nor change in a run in which neither INT 67h nor the extended memory
/// driver is called: with other such bytes, the run makes the same steps, stops for the same reason, and leaves the
/// same state, with those other bytes kept.
///
/// In particular this holds for the pages of expanded memory that no window shows (LIM EMS 4.0, section 2) and for all
/// blocks of extended memory (XMS 3.0). Such a run keeps the windows, the place of each block, and the bytes of each
/// block that no window shows. If tables and memory are consistent, as in every machine
/// (`tables_and_memory_are_consistent`), it keeps the tables of both drivers and the bytes of all blocks of extended
/// memory, and with other bytes in all of these it is the same run. The two drivers may map, move, allocate or free
/// such bytes.
pub fn unseen_bytes_change_nothing()
    ensures steps { UnseenBytesChangeNoStep }
    ensures runs { UnseenBytesChangeNoRun }
    ensures blocks { UnseenBlocksChangeNoRun }
    ensures kept { RunLeavesUnseen }
    ensures extended { ExtendedBlocksChangeNoRun }
    ensures extended_kept { RunLeavesExtended }
{}

/// Room that was reserved beforehand is enough: over any sequence of steps and runs, with changes of memory and more
/// room between them, no allocation fails in steps that together write no more bytes than the room.
///
/// It is stated from the other side: where a run, or a step, stops with `Memory`, the next step would bring the output
/// above the room that was reserved.
pub fn room_is_enough()
    ensures runs { RoomIsEnoughForRuns }
    ensures steps { RoomIsEnoughForSteps }
{}
