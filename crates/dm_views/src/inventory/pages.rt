//! The handles of expanded memory as records, and what the windows of the frame show (LIM EMS 4.0, section 2). An `Err`
//! is a failed allocation.
ghost use Rattle.std.specs.Prelude.{◌≡◌, ◌<◌, ◌++◌, OnOk};
ghost use Rattle.dm_views.specs.inventory.Records.{record_list};
ghost use Rattle.dm_views.specs.inventory.Pages.{truth_number, handle_record, handle_records, window_record, window_records};
ghost use Rattle.dm_ems.specs.Readers.{page_shown};

use dm_ems::Ems;
use dm_space::Space;
use std::alloc::AllocError;

/// The number of handles of expanded memory (0 to 63).
const HANDLES: u16 = 64;

/// A handle of expanded memory in use: its number, how many pages of 16 KiB it has, whether the windows are saved under
/// it (1, otherwise 0), and its name, eight zeros if it has none. Its pages are 0, 1, 2 and so on.
#[repr(C)]
#[derive(Clone, Copy, Debug, PartialEq, Eq)]
pub struct PageHandle {
    pub number: u16,
    pub pages: u16,
    pub saved: u32,
    pub name: [u8; 8],
}

/// What a window of the frame shows: whether it shows a page (1, otherwise 0), and the handle and the logical number of
/// the page, 0 if it shows none.
#[repr(C)]
#[derive(Clone, Copy, Debug, PartialEq, Eq)]
pub struct Window {
    pub shows: u16,
    pub handle: u16,
    pub page: u16,
}

/// A truth value as a number.
pub(crate) fn number_of(b: bool) -> u16
    ensures { result ≡ truth_number b }
{
    if b { 1 } else { 0 }
}

/// Appends the record of a handle if it is in use, otherwise nothing.
fn put_handle(out: &mut Vec<PageHandle>, ems: &Ems, number: u16) -> Result<(), AllocError>
    ensures { OnOk result (out.new.items ≡ out.old.items ++ record_list (handle_record ems.now number)) }
{
    let Some(slot) = ems.slot(number) else {
        return Ok(());
    };
    let name = slot.name;
    let saved = number_of(slot.saved.is_some()) as u32;
    let pages = ems.page_count(number);
    out.push(PageHandle {
        number,
        pages,
        saved,
        name,
    })?;
    Ok(())
}

/// Appends the records of the handles in use, in rising order.
///
/// # Errors
///
/// A failed allocation.
pub fn list_handles(out: &mut Vec<PageHandle>, ems: &Ems) -> Result<(), AllocError>
    ensures { OnOk result (out.new.items ≡ out.old.items ++ handle_records ems.now) }
{
    for number in 0..HANDLES {
        put_handle(out, ems, number)?;
    }
    Ok(())
}

/// What a window, 0 to 3, shows.
fn window_of(ems: &Ems, space: &Space, window: usize) -> Window
    requires { window < 4 }
    ensures { result ≡ window_record (page_shown ems.now space.now.memory window) }
{
    match ems.window(space, window) {
        Some((handle, page)) => Window {
            shows: 1,
            handle,
            page,
        },
        None => Window {
            shows: 0,
            handle: 0,
            page: 0,
        },
    }
}

/// What the four windows show, in their order.
pub fn list_windows(ems: &Ems, space: &Space) -> [Window; 4]
    ensures { result ≡ window_records ems.now space.now.memory }
{
    [
        window_of(ems, space, 0),
        window_of(ems, space, 1),
        window_of(ems, space, 2),
        window_of(ems, space, 3),
    ]
}
