//! The listing of extended memory (XMS 3.0: blocks, upper memory blocks, A20 and the high memory area). Each function
//! `put_..` appends its text to `out`; an `Err` is a failed allocation.

ghost use Rattle.std.specs.Prelude.{◌≡◌, ◌<◌, ◌++◌, OnOk};
ghost use Rattle.dm_views.specs.Extended.{block_line, block_text, upper_line, upper_text, switches_text, extended_text};

use crate::digits::{byte_digits, put_double, word_digits};
use dm_space::Space;
use dm_xms::{Upper, Xms};
use std::alloc::AllocError;

/// The number of handles of extended memory (1 to 64), and the largest number of upper memory blocks.
const MOST: u16 = 64;

/// Appends the line of an extended memory block: its handle, its linear address, its size in KiB and how often it is
/// locked.
fn put_block_line(
    out: &mut Vec<u8>,
    number: u16,
    base: usize,
    kib: u16,
    locks: u8,
) -> Result<(), AllocError>
    ensures { OnOk result (out.new.items ≡ out.old.items ++ block_line number base kib locks) }
{
    out.extend_from_slice(&word_digits(number))?;
    out.extend_from_slice(b" ")?;
    put_double(out, base)?;
    out.extend_from_slice(b" ")?;
    out.extend_from_slice(&word_digits(kib))?;
    out.extend_from_slice(b" ")?;
    out.extend_from_slice(&byte_digits(locks))?;
    out.extend_from_slice(b"\n")
}

/// Appends the line of handle `before + 1`'s block if the handle is in use, otherwise nothing.
fn put_block(out: &mut Vec<u8>, xms: &Xms, space: &Space, before: u16) -> Result<(), AllocError>
    requires { before < 64 }
    ensures { OnOk result (out.new.items ≡ out.old.items ++ block_text xms.now space.now.memory before) }
{
    let number = before + 1;
    match xms.handle(number) {
        Some(slot) => put_block_line(out, number, slot.begin_address(space), slot.kib, slot.locks),
        None => Ok(()),
    }
}

/// Appends the line of an upper memory block, its segment and its size in paragraphs; nothing for None.
fn put_upper(out: &mut Vec<u8>, upper: Option<Upper>) -> Result<(), AllocError>
    ensures { OnOk result (out.new.items ≡ out.old.items ++ upper_line upper) }
{
    let Some(upper) = upper else {
        return Ok(());
    };
    out.extend_from_slice(b"upper ")?;
    out.extend_from_slice(&word_digits(upper.segment))?;
    out.extend_from_slice(b" ")?;
    out.extend_from_slice(&word_digits(upper.paragraphs))?;
    out.extend_from_slice(b"\n")
}

/// Appends the line that says whether A20 is on (`on`) and whether the high memory area is used (`taken`).
fn put_switches(out: &mut Vec<u8>, on: bool, taken: bool) -> Result<(), AllocError>
    ensures { OnOk result (out.new.items ≡ out.old.items ++ switches_text on taken) }
{
    out.extend_from_slice(if on { b"A20 on" } else { b"A20 off" })?;
    out.extend_from_slice(if taken {
        b" HMA used\n"
    } else {
        b" HMA free\n"
    })
}

/// Appends the listing of extended memory: for each handle in use, in rising order, a line with the handle, the linear
/// address, the size in KiB and the lock count of its block; for each upper memory block a line with its segment and
/// its size in paragraphs; then whether A20 is on and whether the high memory area is used.
///
/// # Errors
///
/// A failed allocation.
pub fn put_extended(out: &mut Vec<u8>, xms: &Xms, space: &Space) -> Result<(), AllocError>
    ensures { OnOk result (out.new.items ≡ out.old.items ++ extended_text xms.now space.now.memory) }
{
    for before in 0..MOST {
        put_block(out, xms, space, before)?;
    }
    for number in 0..MOST {
        put_upper(out, xms.upper_block(number as usize))?;
    }
    put_switches(out, space.a20(), xms.hma())
}
