//! The listing of expanded memory (LIM EMS 4.0, section 2: handles, logical pages, the page frame). Each function
//! `put_..` appends its text to `out`; an `Err` is a failed allocation.

ghost use Rattle.std.specs.Prelude.{◌≡◌, ◌<◌, ◌++◌, OnOk};
ghost use Rattle.dm_views.specs.Pages.{holding_text, handle_text, window_line, pages_text};

use crate::code::put_pairs;
use crate::digits::{digit_of, word_digits};
use dm_ems::{Ems, Holding};
use dm_space::Space;
use std::alloc::AllocError;

/// The number of handles of expanded memory (0 to 63).
const HANDLES: u16 = 64;

/// Appends the line of a handle of expanded memory in use: its number, how many pages it has, and the eight bytes of
/// its name, all in hexadecimal.
fn put_holding(out: &mut Vec<u8>, number: u16, holding: &Holding) -> Result<(), AllocError>
    ensures { OnOk result (out.new.items ≡ out.old.items ++ holding_text number holding.now) }
{
    out.extend_from_slice(&word_digits(number))?;
    out.extend_from_slice(b" ")?;
    out.extend_from_slice(&word_digits(holding.pages))?;
    out.extend_from_slice(b" ")?;
    put_pairs(out, &holding.name)?;
    out.extend_from_slice(b"\n")
}

/// Appends the line of a handle if it is in use, otherwise nothing.
fn put_handle(out: &mut Vec<u8>, ems: &Ems, number: u16) -> Result<(), AllocError>
    ensures { OnOk result (out.new.items ≡ out.old.items ++ handle_text ems.now number) }
{
    match ems.handle(number) {
        Some(holding) => put_holding(out, number, &holding),
        None => Ok(()),
    }
}

/// Appends the line of a window of the page frame: its number, and the handle and the logical page that it shows
/// (`page`), or `none`.
fn put_window(out: &mut Vec<u8>, number: u16, page: Option<(u16, u16)>) -> Result<(), AllocError>
    requires { number < 4 }
    ensures { OnOk result (out.new.items ≡ out.old.items ++ window_line number page) }
{
    out.extend_from_slice(b"window ")?;
    out.extend_from_slice(&[digit_of(number), b' '])?;
    match page {
        Some((handle, page)) => {
            out.extend_from_slice(&word_digits(handle))?;
            out.extend_from_slice(b" ")?;
            out.extend_from_slice(&word_digits(page))?;
            out.extend_from_slice(b"\n")
        }
        None => out.extend_from_slice(b"none\n"),
    }
}

/// Appends the listing of expanded memory: for each handle in use, in rising order, a line with its number, how many
/// pages it has, and the eight bytes of its name; then for each of the four windows the handle and the logical page
/// that it shows, or `none`.
///
/// # Errors
///
/// A failed allocation.
pub fn put_pages(out: &mut Vec<u8>, ems: &Ems, space: &Space) -> Result<(), AllocError>
    ensures { OnOk result (out.new.items ≡ out.old.items ++ pages_text ems.now space.now.memory) }
{
    for handle in 0..HANDLES {
        put_handle(out, ems, handle)?;
    }
    for window in 0..4 {
        put_window(out, window as u16, ems.window(space, window))?;
    }
    Ok(())
}
