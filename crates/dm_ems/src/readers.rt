//! What the listings of the expanded memory driver's tables read (LIM EMS 4.0, section 2: handles, logical pages, the
//! page frame).

ghost use Rattle.std.specs.Prelude.{◌≡◌, ◌<◌, ◌≤◌, length, count_by};
ghost use Rattle.dm_ems.specs.Tables.{is_of};
ghost use Rattle.dm_ems.specs.Readers.{holding, page_shown};

use crate::tables::{Ems, Page};
use dm_space::Space;

/// The number of pages and the name of a handle in use.
#[derive(Clone, Copy, Debug, PartialEq, Eq)]
pub struct Holding {
    /// The number of its pages.
    pub pages: u16,
    /// Its name; eight zeros if it has none.
    pub name: [u8; 8],
}

/// How many of these pages belong to a handle: the logical number of its next page.
fn count_of(pages: &[Page], handle: u16) -> usize
    ensures count { result ≡ count_by (is_of handle) pages.now }
    ensures few { result ≤ length pages.now }
{
    pages.iter().filter(|page| page.handle == handle).count()
}

impl Ems {
    /// The number of pages and the name of a handle; None where it is not in use.
    pub fn handle(&self, handle: u16) -> Option<Holding>
        ensures { result ≡ holding self.now handle }
    {
        match self.slot(handle) {
            Some(slot) => {
                let pages = self.page_count(handle);
                let name = slot.name;
                Some(Holding { pages, name })
            }
            None => None,
        }
    }

    /// The handle and the logical number of the page that a window, 0 to 3, shows; None where it shows no page.
    pub fn window(&self, space: &Space, window: usize) -> Option<(u16, u16)>
        requires { window < 4 }
        ensures { result ≡ page_shown self.now space.now.memory window }
    {
        let windows = space.windows();
        let block = windows[window]?;
        let at = self.index_of(block)?;
        let pages = self.pages();
        let handle = pages[at].handle;
        Some((handle, count_of(&pages[..at], handle) as u16))
    }
}
