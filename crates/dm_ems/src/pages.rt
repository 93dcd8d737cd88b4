//! How pages are added to a handle (INT 67h functions 43h and 51h) and removed (45h and 51h), and windows are set (48h,
//! 4Eh and 50h, and where a page is removed): LIM EMS 4.0, sections 2 and 3. No function here changes the scratch part
//! of the space.

ghost use Rattle.std.specs.Prelude.{◌≡◌, ◌<◌, ◌+◌, length, map, drop, slice_index_or, IfSome, None, ℕ};
ghost use Rattle.dm_space.specs.Memory.{IsPage};
ghost use Rattle.dm_ems.specs.Tables.{expanded, appended_page, forgotten, forgotten_all, cut, unmapped, unallocated, with_windows};
ghost use Rattle.dm_ems.specs.Consistent.{IsConsistent};

use crate::tables::{Ems, Page, unmapped_windows};
use dm_pool::Block;
use dm_space::Space;

/// The number of units of 1 KiB of the pool that a page has.
const PAGE_UNITS: usize = 16;

/// Makes the four windows show these blocks of 16 KiB, or nothing. Nothing else changes.
pub fn set_windows(space: &mut Space, windows: [Option<Block>; 4])
    requires { (k : ℕ) → IfSome (slice_index_or windows k None) (IsPage space.old.memory) }
    ensures { space.new ≡ record space.old { memory = with_windows space.old.memory windows } }
{
    let before = space.windows();
    for window in 0..before.len() {
        space.set_window(window, windows[window]);
    }
}

/// Makes each window that shows this block show nothing. Nothing else changes.
fn unmap(space: &mut Space, block: Block)
    ensures { space.new ≡ record space.old {
      memory = with_windows space.old.memory (map
          (unmapped block) space.old.memory.windows);
    } }
{
    let windows = unmapped_windows(space.windows(), block);
    set_windows(space, windows);
}

/// A handle's blocks after the first `count`, which `cut` removes; none if there are not more.
fn behind(blocks: &[Block], count: usize) -> &[Block]
    ensures { result.now ≡ drop count blocks.now }
{
    if count < blocks.len() {
        &blocks[count..]
    } else {
        &blocks[..0]
    }
}

impl Ems {
    /// 42h: the number of pages that can still be allocated, by 43h and 51h too: those that fit the gaps of the pool,
    /// but not more than are left of the total.
    pub fn unallocated(&self, space: &Space) -> u16
        ensures { result ≡ unallocated (expanded self.now space.now.memory) }
    {
        let fitting = space.count_fitting(PAGE_UNITS);
        let left = self.total() - self.pages_in_use();
        if fitting < left as usize {
            fitting as u16
        } else {
            left
        }
    }

    /// Adds a page of zeros after those of a handle, where a gap of the pool holds one and the pool's table has a
    /// free number; otherwise nothing changes. The handle is not checked: the caller knows that it is in use.
    #[tactic(auto, unfolding(crate::specs::Tables::appended_page))]
    pub fn append(&mut self, space: &mut Space, handle: u16)
        requires { length self.old.pages < self.old.total }
        ensures left { expanded self.new space.new.memory ≡ appended_page (expanded self.old space.old.memory) handle }
        ensures kept { space.new ≡ record space.old { memory = space.new.memory } }
    {
        if let Some(block) = space.take(PAGE_UNITS) {
            self.push(Page { handle, block });
        }
    }

    /// Removes the page with this block from its handle, all windows and all saved windows, and gives the block back
    /// to the pool. If no page has the block, nothing changes.
    #[tactic(auto, unfolding(crate::specs::Tables::forgotten))]
    pub(crate) fn forget(&mut self, space: &mut Space, block: Block)
        requires { IsConsistent (expanded self.old space.old.memory) }
        ensures left { expanded self.new space.new.memory ≡ forgotten (expanded self.old space.old.memory) block }
        ensures kept { space.new ≡ record space.old { memory = space.new.memory } }
    {
        if let Some(at) = self.index_of(block) {
            unmap(space, block);
            self.unmap_saved(block);
            self.remove(at);
            space.give(block);
        }
    }

    /// Removes the pages of a handle after its first `count`: from all windows and all saved windows too, and their
    /// blocks from the pool. The handle stays in use, even with no page.
    #[tactic(auto, unfolding(crate::specs::Tables::cut))]
    pub fn cut(&mut self, space: &mut Space, handle: u16, count: usize)
        requires { IsConsistent (expanded self.old space.old.memory) }
        ensures left { expanded self.new space.new.memory ≡ cut (expanded self.old space.old.memory) handle count }
        ensures kept { space.new ≡ record space.old { memory = space.new.memory } }
    {
        let blocks = self.page_blocks(handle);
        for block in behind(blocks.as_slice(), count) {
            self.forget(space, *block);
        }
    }
}
