//! The tables of expanded memory: handles in use, and their pages (LIM EMS 4.0, section 2). A page is a block of the
//! pool; functions 45h and 51h remove it, and then no window shows it, not even a saved one.

ghost use Rattle.std.specs.Prelude.{◌≡◌, ◌<◌, ◌≤◌, ◌+◌, ◌^◌, map, slice_index_or, slice_set, slice_get, is_some, count_by, position, is_none, remove, length, IfSome, None, ◌++◌, ◌∷◌, []};
ghost use Rattle.dm_ems.specs.Tables.{new_tables, blocks_of, page_count, unmapped_slot, unmapped, unmapped_saved, is_block};

use arrayvec::ArrayVec;
use dm_pool::Block;
use std::marker::Model;

/// The number of handles, handle 0 among them.
pub(crate) const HANDLES: usize = 64;

/// The name of a handle that has none: eight zeros.
pub(crate) const NO_NAME: [u8; 8] = [0; 8];

/// The entry of a handle in use.
#[derive(Clone, Copy, Debug)]
pub struct Handle {
    /// Its name; eight zeros if it has none.
    pub name: [u8; 8],
    /// What the four windows showed when they were saved under the handle (47h), but for pages freed since, in whose
    /// place is nothing; None if nothing is saved.
    pub saved: Option<[Option<Block>; 4]>,
}

/// A page of a handle.
#[derive(Clone, Copy, Debug, Default)]
pub struct Page {
    /// The handle that it belongs to.
    pub handle: u16,
    /// The block of the pool, 16 KiB, with its bytes.
    pub block: Block,
}

/// The tables of the expanded memory driver: the handles, and the pages of all of them; those of one handle are in
/// the order of their logical numbers. Contracts see them and the total number of pages.
#[derive(Drop)]
pub struct Ems {
    total: u16,
    handles: [Option<Handle>; 64],
    pages: ArrayVec<Page, 512>,
}

impl Model for Ems {
    ghost use Rattle.dm_ems.specs.Tables.{Tables};
    ghost use Rattle.dm_ems.specs.inner.Tables.{IsTables};

    ghost Value = { Tables };

    ghost view = { λ e. record { total = e.total; handles = e.handles; pages = e.pages.items } };

    ghost invariant = { λ e. IsTables (record { total = e.total; handles = e.handles; pages = e.pages.items }) };
}

/// The same pages in the same order.
fn same_pages(pages: &ArrayVec<Page, 512>) -> ArrayVec<Page, 512>
    ensures { result.items ≡ pages.now.items }
{
    let mut same = ArrayVec::new();
    let _ = same.try_extend_from_slice(pages);
    same
}

/// What a window shows once a block is removed: nothing, if it showed that block.
fn unmapped(shown: Option<Block>, block: Block) -> Option<Block>
    ensures { result ≡ unmapped block shown }
{
    match shown {
        Some(page) => { if page == block { None } else { Some(page) } }
        None => None,
    }
}

/// What the four windows show once a block is removed.
pub(crate) fn unmapped_windows(shown: [Option<Block>; 4], block: Block) -> [Option<Block>; 4]
    ensures { result ≡ map (unmapped block) shown }
{
    shown.map(|page| unmapped(page, block))
}

/// What saved windows show once a block is removed.
fn unmapped_saved(saved: Option<[Option<Block>; 4]>, block: Block) -> Option<[Option<Block>; 4]>
    ensures { result ≡ unmapped_saved block saved }
{
    match saved {
        Some(windows) => Some(unmapped_windows(windows, block)),
        None => None,
    }
}

/// The entry of a handle once a block is removed: its saved windows no longer show it. The name stays.
fn unmapped_slot(slot: Option<Handle>, block: Block) -> Option<Handle>
    ensures { result ≡ unmapped_slot block slot }
{
    match slot {
        Some(handle) => {
            let name = handle.name;
            let saved = unmapped_saved(handle.saved, block);
            Some(Handle { name, saved })
        }
        None => None,
    }
}

/// Makes the saved windows of all handles no longer show a block.
fn unmap_slots(slots: &mut [Option<Handle>], block: Block)
    ensures { slots.new ≡ map (unmapped_slot block) slots.old }
{
    for at in 0..slots.len() {
        slots[at] = unmapped_slot(slots[at], block);
    }
}

/// The index of the first handle that is not in use; None if all are.
fn first_free(slots: &[Option<Handle>]) -> Option<usize>
    ensures first { result ≡ position is_none slots.now }
    ensures there { IfSome result (λ k. k < length slots.now) }
{
    slots.iter().position(|slot| slot.is_none())
}

/// The index of the page with this block; None if there is none.
fn first_of(pages: &[Page], block: Block) -> Option<usize>
    ensures first { result ≡ position (is_block block) pages.now }
    ensures there { IfSome result (λ k. k < length pages.now) }
{
    pages.iter().position(|page| page.block == block)
}

impl Ems {
    /// The tables as a machine starts: handle 0 is in use, with no page and no name. There are `total` pages, of 16 KiB
    /// each, for all handles together.
    pub fn new(total: u16) -> Ems
        requires { total ≤ 512 }
        ensures { result ≡ new_tables total }
    {
        let mut handles = [None; HANDLES];
        handles[0] = Some(Handle {
            name: NO_NAME,
            saved: None,
        });
        Ems {
            total,
            handles,
            pages: ArrayVec::new(),
        }
    }

    /// The same tables once more.
    pub fn duplicate(&self) -> Ems
        ensures { result ≡ self.now }
    {
        let mut handles = [None; HANDLES];
        handles.copy_from_slice(&self.handles);
        Ems {
            total: self.total,
            handles,
            pages: same_pages(&self.pages),
        }
    }

    /// The number of pages of the machine, free ones included; at most 512.
    pub fn total(&self) -> u16
        ensures total { result ≡ self.now.total }
        ensures few { result ≤ 512 }
        ensures pages { length self.now.pages ≤ result }
    {
        self.total
    }

    /// A handle's name and saved windows; None where it is not in use.
    pub fn slot(&self, handle: u16) -> Option<Handle>
        ensures slot { result ≡ slice_index_or self.now.handles handle None }
        ensures inside { IfSome result (λ s. handle < 64) }
    {
        if (handle as usize) < HANDLES {
            self.handles[handle as usize]
        } else {
            None
        }
    }

    /// The entries of all 64 handles, by number; None for one that is not in use.
    pub(crate) fn slots(&self) -> &[Option<Handle>; 64]
        ensures { result.now ≡ self.now.handles }
    {
        &self.handles
    }

    /// Sets the entry of a handle, below 64; with None the handle is no longer in use. Other entries, and all pages,
    /// stay.
    pub(crate) fn set_slot(&mut self, handle: u16, slot: Option<Handle>)
        requires { handle < 64 }
        ensures { self.new ≡ record self.old { handles = slice_set self.old.handles handle slot } }
    {
        self.handles[handle as usize] = slot;
    }

    /// The number of handles in use, handle 0 among them.
    pub fn in_use(&self) -> u16
        ensures count { result ≡ count_by is_some self.now.handles }
        ensures few { result ≤ 64 }
    {
        self.handles.iter().filter(|slot| slot.is_some()).count() as u16
    }

    /// The lowest handle that is not in use; None if all 64 are.
    pub(crate) fn free_handle(&self) -> Option<u16>
        ensures first { result ≡ position is_none self.now.handles }
        ensures low { IfSome result (λ handle. handle < 64) }
    {
        match first_free(&self.handles) {
            Some(handle) => Some(handle as u16),
            None => None,
        }
    }

    /// The blocks of a handle's pages, in the order of their logical numbers.
    pub fn page_blocks(&self, handle: u16) -> ArrayVec<Block, 512>
        ensures { result.items ≡ blocks_of self.now handle }
    {
        let mut blocks = ArrayVec::new();
        for page in self.pages.as_slice() {
            if page.handle == handle {
                blocks.push(page.block);
            }
        }
        blocks
    }

    /// The block of a logical page of a handle; None where the handle has no such page.
    pub fn page(&self, handle: u16, page: u16) -> Option<Block>
        ensures { result ≡ slice_get (blocks_of self.now handle) page }
    {
        let found = self
            .pages
            .iter()
            .filter(|it| it.handle == handle)
            .nth(page as usize);
        match found {
            Some(it) => Some(it.block),
            None => None,
        }
    }

    /// The number of pages of a handle.
    pub fn page_count(&self, handle: u16) -> u16
        ensures count { result ≡ page_count self.now handle }
        ensures few { result ≤ 512 }
    {
        self.pages
            .iter()
            .filter(|page| page.handle == handle)
            .count() as u16
    }

    /// The number of pages of all handles together.
    pub fn pages_in_use(&self) -> u16
        ensures { result ≡ length self.now.pages }
    {
        self.pages.len() as u16
    }

    /// The pages of all handles; those of one handle are in the order of their logical numbers.
    pub fn pages(&self) -> &[Page]
        ensures pages { result.now ≡ self.now.pages }
        ensures few { length result.now ≤ 512 }
    {
        self.pages.as_slice()
    }

    /// Adds a page after all others. No block is allocated.
    pub(crate) fn push(&mut self, page: Page)
        requires { length self.old.pages < self.old.total }
        ensures { self.new ≡ record self.old { pages = self.old.pages ++ page ∷ [] } }
    {
        self.pages.push(page);
    }

    /// The index of the page with this block among all pages; None if there is none.
    pub(crate) fn index_of(&self, block: Block) -> Option<usize>
        ensures first { result ≡ position (is_block block) self.now.pages }
        ensures there { IfSome result (λ k. k < length self.now.pages) }
    {
        first_of(self.pages.as_slice(), block)
    }

    /// Removes the page at an index from the list of all pages. Windows, saved ones too, and the page's block stay.
    pub(crate) fn remove(&mut self, at: usize)
        requires { at < length self.old.pages }
        ensures { self.new ≡ record self.old { pages = remove self.old.pages at } }
    {
        self.pages.remove(at);
    }

    /// Makes the saved windows of all handles no longer show a block. Names and pages stay.
    pub(crate) fn unmap_saved(&mut self, block: Block)
        ensures { self.new ≡ record self.old { handles = map (unmapped_slot block) self.old.handles } }
    {
        unmap_slots(&mut self.handles, block);
    }
}
