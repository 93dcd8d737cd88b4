//! The number of pages of a handle is changed (LIM EMS 4.0, function 18; INT 67h function 51h).

ghost use Rattle.std.specs.Prelude.{◌≡◌, ◌+◌, ◌≤◌, length, Some};
ghost use Rattle.dm_ems.specs.Tables.{expanded, appended};
ghost use Rattle.dm_ems.specs.Consistent.{IsConsistent};
ghost use Rattle.dm_ems.specs.Calls.{result_of, state_after};
ghost use Rattle.dm_ems_move.specs.Reallocation.{reallocate, reallocated};

use dm_ems::{Ems, Status};
use dm_space::Space;

/// The result of a reallocation of a handle that is in use.
#[derive(Clone, Copy, Debug, PartialEq, Eq)]
pub struct Reallocated {
    /// The number of pages that the handle has now.
    pub pages: u16,
    /// The error, if the number of pages has not changed as asked: `OverTotal` or `OverFree`.
    pub refused: Option<Status>,
}

/// The result of a reallocation that fails: the handle keeps its pages.
fn refused(pages: u16, status: Status) -> Reallocated
    ensures { result ≡ reallocated pages (Some status) }
{
    Reallocated {
        pages,
        refused: Some(status),
    }
}

/// Adds `count` pages of zeros after those of a handle, each as `Ems::append` does.
fn append_pages(ems: &mut Ems, space: &mut Space, handle: u16, count: u16)
    requires { length ems.old.pages + count ≤ ems.old.total }
    ensures left { expanded ems.new space.new.memory ≡ appended (expanded ems.old space.old.memory) handle count }
    ensures kept { space.new ≡ record space.old { memory = space.new.memory } }
{
    for _ in 0..count {
        ems.append(space, handle);
    }
}

/// 51h: gives a handle `count` pages in all, 0 included. Its first pages stay; those after `count` are freed and leave
/// all windows and all saved windows; new pages follow those that it has, and are zeros. Only if the pool has no number
/// left the handle gets fewer, and the result says `count` all the same; in a machine the pool has one (`pages_come`).
/// Where there are not enough pages (`OverTotal`, `OverFree`, in this order), nothing has changed, and the result has
/// the number of pages as it is, and the error.
///
/// # Errors
///
/// `UnknownHandle`. Then nothing has changed.
#[tactic(auto, unfolding(crate::specs::Reallocation::reallocate))]
pub fn reallocate(
    ems: &mut Ems,
    space: &mut Space,
    handle: u16,
    count: u16,
) -> Result<Reallocated, Status>
    requires { IsConsistent (expanded ems.old space.old.memory) }
    ensures answer { result ≡ result_of (reallocate (expanded ems.old space.old.memory) handle count) }
    ensures left { expanded ems.new space.new.memory ≡ state_after (expanded ems.old space.old.memory) (reallocate
        (expanded ems.old space.old.memory) handle count) }
    ensures kept { space.new ≡ record space.old { memory = space.new.memory } }
{
    if ems.slot(handle).is_none() {
        return Err(Status::UnknownHandle);
    }
    let pages = ems.page_count(handle);
    if count > ems.total() {
        return Ok(refused(pages, Status::OverTotal));
    }
    if count.saturating_sub(pages) > ems.unallocated(space) {
        return Ok(refused(pages, Status::OverFree));
    }
    if count < pages {
        ems.cut(space, handle, count as usize);
    } else {
        append_pages(ems, space, handle, count - pages);
    }
    Ok(Reallocated {
        pages: count,
        refused: None,
    })
}
