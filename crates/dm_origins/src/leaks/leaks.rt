//! The findings about what a program has allocated at its end (LIM EMS 4.0, section 2; XMS 3.0): it left that, or, if
//! it stays `resident`, holds it. Each function `put_..` appends its findings to `out`; an `Err` is a failed
//! allocation.

ghost use Rattle.std.specs.Prelude.{◌≡◌, ◌++◌, ◌<◌, ◌+◌, None, OnOk, slice_index_or};
ghost use Rattle.dm_origins.specs.leaks.Leaks.{told, pages_kept, handle_kept, window_kept, block_kept, upper_kept, switches_kept, of_each, leaks};

use dm_ems::Ems;
use dm_findings::{Finding, Kept};
use dm_machine::Machine;
use dm_space::Space;
use dm_xms::Xms;
use std::alloc::AllocError;

/// The number of handles of expanded memory (0 to 63), that of handles of extended memory (1 to 64), and the largest
/// number of upper memory blocks.
const MOST: u16 = 64;

/// Appends the finding about what a program has: it holds it if it stays resident, otherwise it left it.
fn append_kept(out: &mut Vec<Finding>, resident: bool, kept: Kept) -> Result<(), AllocError>
    ensures { OnOk result (out.new.items ≡ out.old.items ++ told resident kept) }
{
    if resident {
        out.push(Finding::Held(kept))?;
    } else {
        out.push(Finding::NotFreed(kept))?;
    }
    Ok(())
}

/// Appends that a program has a handle of expanded memory, with the number of its pages, and whether it has a saved
/// map; handle 0 only if it has either.
fn put_pages(
    out: &mut Vec<Finding>,
    resident: bool,
    handle: u16,
    pages: u16,
    saved: bool,
) -> Result<(), AllocError>
    ensures { OnOk result (out.new.items ≡ out.old.items ++ pages_kept resident handle pages saved) }
{
    if handle == 0 && pages == 0 && !saved {
        return Ok(());
    }
    append_kept(out, resident, Kept::Handle(handle, pages, saved))
}

/// Appends what a handle of expanded memory keeps, its pages and its saved map, if it is in use.
fn put_handle(
    out: &mut Vec<Finding>,
    resident: bool,
    ems: &Ems,
    handle: u16,
) -> Result<(), AllocError>
    ensures { OnOk result (out.new.items ≡ out.old.items ++ handle_kept resident ems.now handle) }
{
    match ems.slot(handle) {
        Some(slot) => put_pages(
            out,
            resident,
            handle,
            ems.page_count(handle),
            slot.saved.is_some(),
        ),
        None => Ok(()),
    }
}

/// Appends that this window of the frame, from 0, shows a page, if it does.
fn put_window(
    out: &mut Vec<Finding>,
    resident: bool,
    space: &Space,
    window: u8,
) -> Result<(), AllocError>
    requires { window < 4 }
    ensures { OnOk result (out.new.items ≡ out.old.items ++ window_kept resident space.now.memory window) }
{
    let windows = space.windows();
    if windows[window as usize].is_some() {
        return append_kept(out, resident, Kept::Window(window));
    }
    Ok(())
}

/// Appends the block of handle `before + 1` of extended memory, if the handle is in use.
fn put_block(
    out: &mut Vec<Finding>,
    resident: bool,
    xms: &Xms,
    before: u16,
) -> Result<(), AllocError>
    requires { before < 64 }
    ensures { OnOk result (out.new.items ≡ out.old.items ++ block_kept resident xms.now before) }
{
    let handle = before + 1;
    match xms.handle(handle) {
        Some(slot) => append_kept(out, resident, Kept::Block(handle, slot.kib, slot.locks > 0)),
        None => Ok(()),
    }
}

/// Appends upper memory block `number`, from 0, if there is one.
fn put_upper(
    out: &mut Vec<Finding>,
    resident: bool,
    xms: &Xms,
    number: u16,
) -> Result<(), AllocError>
    ensures { OnOk result (out.new.items ≡ out.old.items ++ upper_kept resident xms.now number) }
{
    match xms.upper_block(number as usize) {
        Some(upper) => append_kept(out, resident, Kept::Upper(upper.segment)),
        None => Ok(()),
    }
}

/// Appends the high memory area, if the program has it (`area`), and A20, if it is on (`on`).
fn put_switches(
    out: &mut Vec<Finding>,
    resident: bool,
    area: bool,
    on: bool,
) -> Result<(), AllocError>
    ensures { OnOk result (out.new.items ≡ out.old.items ++ switches_kept resident area on) }
{
    if area {
        append_kept(out, resident, Kept::Area)?;
    }
    if on {
        append_kept(out, resident, Kept::Line)?;
    }
    Ok(())
}

/// Appends what each handle of expanded memory that is in use keeps, in rising order.
fn put_handles(out: &mut Vec<Finding>, resident: bool, ems: &Ems) -> Result<(), AllocError>
    ensures { OnOk result (out.new.items ≡ out.old.items ++ of_each (handle_kept resident ems.now) 64) }
{
    for handle in 0..MOST {
        put_handle(out, resident, ems, handle)?;
    }
    Ok(())
}

/// Appends which windows of the frame show a page, in rising order.
fn put_windows(out: &mut Vec<Finding>, resident: bool, space: &Space) -> Result<(), AllocError>
    ensures { OnOk result (out.new.items ≡ out.old.items ++ of_each (window_kept resident space.now.memory) 4) }
{
    for window in 0..4u8 {
        put_window(out, resident, space, window)?;
    }
    Ok(())
}

/// Appends which handles of extended memory have a block, in rising order.
fn put_blocks(out: &mut Vec<Finding>, resident: bool, xms: &Xms) -> Result<(), AllocError>
    ensures { OnOk result (out.new.items ≡ out.old.items ++ of_each (block_kept resident xms.now) 64) }
{
    for before in 0..MOST {
        put_block(out, resident, xms, before)?;
    }
    Ok(())
}

/// Appends which upper memory blocks the program has, in rising order.
fn put_uppers(out: &mut Vec<Finding>, resident: bool, xms: &Xms) -> Result<(), AllocError>
    ensures { OnOk result (out.new.items ≡ out.old.items ++ of_each (upper_kept resident xms.now) 64) }
{
    for number in 0..MOST {
        put_upper(out, resident, xms, number)?;
    }
    Ok(())
}

/// Appends all that the machine's program left, or, if it stays `resident`, holds: expanded memory and windows,
/// extended memory, upper memory blocks, the high memory area and A20.
#[tactic(auto, unfolding(crate::specs::leaks::Leaks::leaks))]
pub fn put_leaks(
    out: &mut Vec<Finding>,
    machine: &Machine,
    resident: bool,
) -> Result<(), AllocError>
    ensures { OnOk result (out.new.items ≡ out.old.items ++ leaks resident machine.now) }
{
    put_handles(out, resident, machine.ems())?;
    put_windows(out, resident, machine.space())?;
    put_blocks(out, resident, machine.xms())?;
    put_uppers(out, resident, machine.xms())?;
    put_switches(out, resident, machine.xms().hma(), machine.space().a20())
}
