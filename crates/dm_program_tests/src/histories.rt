//! Histories: going back leads to the state that was there, with the edits made up to then.

use crate::checks::same;
use crate::machines::{SEGMENT, loaded};
use dm_history::History;
use dm_machine::{Cpu, Stop};
use std::alloc::Global;
use std::process::Abort;
use std::test::Fail;

/// MOV AX,5, and INC AX fifteen times. After n steps, 1 to 16, AX is 4 + n.
const RISE: [u8; 18] = [
    0xB8, 0x05, 0x00, 0x40, 0x40, 0x40, 0x40, 0x40, 0x40, 0x40, 0x40, 0x40, 0x40, 0x40, 0x40, 0x40,
    0x40, 0x40,
];

/// MOV AX,0; then INC AX and JMP back to it. After n steps AX is n / 2, modulo 65,536.
const LOOP: [u8; 6] = [0xB8, 0x00, 0x00, 0x40, 0xEB, 0xFD];

/// MOV AH,9; MOV DX,10Ch; INT 21h; MOV AX,4C00h; INT 21h; `hi$`. It prints with step 4, and ends with step 7.
const HELLO: [u8; 15] = [
    0xB4, 0x09, 0xBA, 0x0C, 0x01, 0xCD, 0x21, 0xB8, 0x00, 0x4C, 0xCD, 0x21, 0x68, 0x69, 0x24,
];

/// The history of a machine with a COM program, with at most `most` copies.
fn begun(alloc: Global, program: &[u8], most: usize) -> Result<History, Fail> {
    let machine = loaded(alloc, program, b"")?;
    Ok(History::new(alloc, machine, most)?)
}

/// Makes so many steps, and compares the count of steps and AX then.
fn steps_to(rt: &impl Abort, history: &mut History, most: u64, steps: u64, ax: u16) {
    same(rt, "stop", history.run(most), Stop::Steps);
    same(rt, "steps", history.machine().steps(), steps);
    same(rt, "AX", history.machine().cpu().ax, ax);
}

/// Goes back to a step, and compares whether it has, and AX then.
fn goes_back(
    rt: &impl Abort,
    history: &mut History,
    step: u64,
    wanted: bool,
    ax: u16,
) -> Result<(), Fail> {
    same(rt, "back", history.go_back_to(step)?, wanted);
    same(rt, "AX", history.machine().cpu().ax, ax);
    Ok(())
}

/// Goes back to a step of HELLO, and compares what was printed then.
fn prints_back(
    rt: &impl Abort,
    history: &mut History,
    step: u64,
    output: &[u8],
) -> Result<(), Fail> {
    same(rt, "back", history.go_back_to(step)?, true);
    same(rt, "output", history.machine().output(), output);
    Ok(())
}

/// Runs to the end of HELLO, and compares what it printed.
fn ends(rt: &impl Abort, history: &mut History, output: &[u8]) {
    same(rt, "stop", history.run(100), Stop::Exited(0));
    same(rt, "steps", history.machine().steps(), 7);
    same(rt, "output", history.machine().output(), output);
}

/// Sets AX to 100 after five steps of RISE, and goes back over it.
fn edits_again(rt: &impl Abort, history: &mut History) -> Result<(), Fail> {
    steps_to(rt, history, 5, 5, 9);
    let cpu = history.machine().cpu();
    history.set_registers(Cpu { ax: 100, ..cpu })?;
    steps_to(rt, history, 5, 10, 105);
    goes_back(rt, history, 7, true, 102)?;
    goes_back(rt, history, 5, true, 100)?;
    goes_back(rt, history, 4, true, 8)?;
    steps_to(rt, history, 3, 7, 11);
    Ok(())
}

#[test]
fn an_edit_is_done_again_or_dropped(rt: HostRuntime) -> Result<(), Fail> {
    let mut history = begun(rt.alloc(), &RISE, 8)?;
    edits_again(&rt, &mut history)
}

/// Asks for steps to which there is no way back from the fourth of RISE, and for the beginning.
fn stays(rt: &impl Abort, history: &mut History) -> Result<(), Fail> {
    steps_to(rt, history, 4, 4, 8);
    goes_back(rt, history, 4, false, 8)?;
    goes_back(rt, history, 5, false, 8)?;
    goes_back(rt, history, 1, true, 5)?;
    goes_back(rt, history, 3, false, 5)
}

#[test]
fn nothing_changes_where_there_is_no_way_back(rt: HostRuntime) -> Result<(), Fail> {
    let mut history = begun(rt.alloc(), &RISE, 0)?;
    stays(&rt, &mut history)
}

/// Goes back from the end of HELLO, over an edit of its text too.
fn ends_again(rt: &impl Abort, history: &mut History) -> Result<(), Fail> {
    ends(rt, history, b"hi");
    prints_back(rt, history, 4, b"hi")?;
    prints_back(rt, history, 1, b"")?;
    history.write(SEGMENT, 0x010C, b"HO")?;
    ends(rt, history, b"HO");
    prints_back(rt, history, 1, b"")?;
    ends(rt, history, b"HO");
    prints_back(rt, history, 0, b"")?;
    ends(rt, history, b"hi");
    history.restart()?;
    ends(rt, history, b"hi");
    Ok(())
}

#[test]
fn an_ended_program_goes_on_from_before_its_end(rt: HostRuntime) -> Result<(), Fail> {
    let mut history = begun(rt.alloc(), &HELLO, 8)?;
    ends_again(&rt, &mut history)
}

/// Goes back near and far, past the step after which a copy is kept.
fn loops_again(rt: &impl Abort, history: &mut History) -> Result<(), Fail> {
    // 2,250,000 is 34 * 65,536 + 21,776.
    steps_to(rt, history, 4_500_001, 4_500_001, 21_776);
    goes_back(rt, history, 4_500_000, true, 21_776)?;
    // 1,499,999 is 22 * 65,536 + 58,207.
    goes_back(rt, history, 2_999_999, true, 58_207)?;
    // 2,499,999 is 38 * 65,536 + 9,631.
    steps_to(rt, history, 2_000_000, 4_999_999, 9_631);
    Ok(())
}

#[test]
fn copies_on_the_way_change_nothing(rt: HostRuntime) -> Result<(), Fail> {
    let mut history = begun(rt.alloc(), &LOOP, 3)?;
    loops_again(&rt, &mut history)
}
