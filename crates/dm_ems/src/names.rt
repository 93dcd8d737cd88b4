//! Lists of handles, and their names (LIM EMS 4.0, functions 14, 20 and 21; INT 67h functions 4Dh, 53h and 54h).

ghost use Rattle.std.specs.Prelude.{◌≡◌, ◌+◌, ◌≤◌, ◌<◌, ◌++◌, position, length, slice_set, slice_index_or, IfSome, None};
ghost use Rattle.std.specs.List.{list_any};
ghost use Rattle.arrayvec.specs.ArrayVec.{array_vec_len};
ghost use Rattle.dm_space.specs.EightBytes.{eight_after};
ghost use Rattle.dm_ems.specs.Tables.{expanded};
ghost use Rattle.dm_ems.specs.Calls.{result_of, state_after};
ghost use Rattle.dm_ems.specs.Names.{word_bytes, in_turn, page_entry, name_entry, list_pages, list_names, get_name, set_name, find_name, is_no_name, has_name, is_name_of_other};

use crate::status::Status;
use crate::tables::{Ems, HANDLES, Handle, NO_NAME};
use arrayvec::ArrayVec;
use dm_space::Space;

/// The entries of all 64 handles in a list of handles, as bytes: at most ten for each.
type Entries = ArrayVec<u8, 640>;

/// Appends a word to an entry of the list, low byte first.
fn put_word(entries: &mut Entries, value: u16)
    requires { array_vec_len entries.old + 2 ≤ 640 }
    ensures items { entries.new.items ≡ entries.old.items ++ word_bytes value }
    ensures len { array_vec_len entries.new ≡ array_vec_len entries.old + 2 }
{
    let [low, high] = value.to_le_bytes();
    entries.push(low);
    entries.push(high);
}

/// Appends the eight bytes of a name to an entry of the list.
fn put_name(entries: &mut Entries, name: &[u8; 8])
    requires { array_vec_len entries.old + 8 ≤ 640 }
    ensures items { entries.new.items ≡ entries.old.items ++ name.now }
    ensures len { array_vec_len entries.new ≡ array_vec_len entries.old + 8 }
{
    // There is room for it.
    let _ = entries.try_extend_from_slice(name);
}

/// The name that a call gives: the eight bytes at segment:offset; offsets wrap.
fn name_at(space: &Space, segment: u16, offset: u16) -> [u8; 8]
    ensures { result ≡ eight_after space.now.memory segment offset }
{
    let at = |k: u16| space.peek(segment, offset.wrapping_add(k));
    [at(0), at(1), at(2), at(3), at(4), at(5), at(6), at(7)]
}

/// Whether the name is eight zeros, which stand for no name.
fn is_no_name(name: &[u8; 8]) -> bool
    ensures { result ≡ is_no_name name.now }
{
    *name == NO_NAME
}

/// Whether the entry is one of a handle in use with this name.
fn has_name(slot: &Option<Handle>, name: &[u8; 8]) -> bool
    ensures { result ≡ has_name name.now slot.now }
{
    match slot {
        Some(handle) => handle.name == *name,
        None => false,
    }
}

/// Whether one of the handles is in use and has this name.
fn any_has_name(slots: &[Option<Handle>], name: &[u8; 8]) -> bool
    ensures { result ≡ list_any (has_name name.now) slots.now }
{
    slots.iter().any(|slot| has_name(slot, name))
}

/// Whether a handle in use other than `handle` has this name.
#[tactic(auto, using(crate::proofs::Others::any_other))]
fn any_other_has_name(slots: &[Option<Handle>], handle: usize, name: &[u8; 8]) -> bool
    requires { handle < length slots.now }
    ensures { result ≡ list_any (has_name name.now) (slice_set slots.now handle None) }
{
    let below = any_has_name(&slots[..handle], name);
    let above = any_has_name(&slots[handle + 1..], name);
    below || above
}

/// The index of the first handle in use with this name; None if there is none.
fn first_with_name(slots: &[Option<Handle>], name: &[u8; 8]) -> Option<usize>
    ensures first { result ≡ position (has_name name.now) slots.now }
    ensures there { IfSome result (λ k. k < length slots.now) }
{
    slots.iter().position(|slot| has_name(slot, name))
}

impl Ems {
    /// Appends the entry of a handle in the list of 4Dh: its number and its number of pages, two words. A handle that
    /// is not in use has none.
    fn put_pages(&self, entries: &mut Entries, handle: u16)
        requires { array_vec_len entries.old + 4 ≤ 640 }
        ensures items { entries.new.items ≡ entries.old.items ++ page_entry self.now handle (slice_index_or
            self.now.handles handle None) }
        ensures few { array_vec_len entries.new ≤ array_vec_len entries.old + 4 }
    {
        if self.slot(handle).is_some() {
            put_word(entries, handle);
            put_word(entries, self.page_count(handle));
        }
    }

    /// The entries of all handles in use for the list of 4Dh, in ascending order.
    #[tactic(auto, using(crate::proofs::Turns::in_turn_more))]
    fn page_entries(&self) -> Entries
        ensures items { result.items ≡ in_turn (λ handle. page_entry self.now handle
            (slice_index_or self.now.handles handle None)) 64 }
    {
        let mut entries = ArrayVec::new();
        for handle in 0..HANDLES as u16 {
            self.put_pages(&mut entries, handle);
        }
        entries
    }

    /// 4Dh: writes two words at segment:offset for each handle in use, in ascending order: the handle and its number
    /// of pages. Returns the number of handles in use.
    #[tactic(auto, unfolding(crate::specs::Names::list_pages))]
    pub fn list_pages(&self, space: &mut Space, segment: u16, offset: u16) -> u16
        ensures answer { result ≡ (list_pages (expanded self.now space.old.memory) segment offset).0 }
        ensures left { expanded self.now space.new.memory ≡ (list_pages (expanded self.now space.old.memory) segment
            offset).1 }
        ensures kept { space.new ≡ record space.old { memory = space.new.memory } }
    {
        space.write_bytes(segment, offset, self.page_entries().as_slice());
        self.in_use()
    }

    /// Appends the entry of a handle in the list of 54h: its number, a word, and its name, eight bytes. A handle that
    /// is not in use has none.
    fn put_handle(&self, entries: &mut Entries, handle: u16)
        requires { array_vec_len entries.old + 10 ≤ 640 }
        ensures items { entries.new.items ≡ entries.old.items ++ name_entry handle (slice_index_or self.now.handles
            handle None) }
        ensures few { array_vec_len entries.new ≤ array_vec_len entries.old + 10 }
    {
        if let Some(slot) = self.slot(handle) {
            put_word(entries, handle);
            put_name(entries, &slot.name);
        }
    }

    /// The entries of all handles in use for the list of 54h, in ascending order.
    #[tactic(auto, using(crate::proofs::Turns::in_turn_more))]
    fn name_entries(&self) -> Entries
        ensures items { result.items ≡ in_turn (λ handle. name_entry handle
            (slice_index_or self.now.handles handle None)) 64 }
    {
        let mut entries = ArrayVec::new();
        for handle in 0..HANDLES as u16 {
            self.put_handle(&mut entries, handle);
        }
        entries
    }

    /// 54h, AL = 0: writes the number and the name of each handle in use, a word and eight bytes each, in ascending
    /// order at segment:offset. Returns the number of handles in use.
    #[tactic(auto, unfolding(crate::specs::Names::list_names))]
    pub fn list_names(&self, space: &mut Space, segment: u16, offset: u16) -> u16
        ensures answer { result ≡ (list_names (expanded self.now space.old.memory) segment offset).0 }
        ensures few { result ≤ 64 }
        ensures left { expanded self.now space.new.memory ≡ (list_names (expanded self.now space.old.memory) segment
            offset).1 }
        ensures kept { space.new ≡ record space.old { memory = space.new.memory } }
    {
        space.write_bytes(segment, offset, self.name_entries().as_slice());
        self.in_use()
    }

    /// Whether a handle in use other than this one has the name; false for eight zeros.
    #[tactic(auto, unfolding(crate::specs::Names::is_name_of_other))]
    fn is_name_of_other(&self, handle: u16, name: &[u8; 8]) -> bool
        requires { handle < 64 }
        ensures { result ≡ is_name_of_other self.now handle name.now }
    {
        if is_no_name(name) {
            return false;
        }
        any_other_has_name(self.slots(), handle as usize, name)
    }

    /// 53h, AL = 0: writes the eight bytes of a handle's name at segment:offset.
    ///
    /// # Errors
    ///
    /// `UnknownHandle`, and nothing is written.
    #[tactic(auto, unfolding(crate::specs::Names::get_name))]
    pub fn get_name(
        &self,
        space: &mut Space,
        handle: u16,
        segment: u16,
        offset: u16,
    ) -> Result<(), Status>
        ensures answer { result ≡ result_of (get_name (expanded self.now space.old.memory) handle segment offset) }
        ensures left { expanded self.now space.new.memory ≡ state_after (expanded self.now space.old.memory) (get_name
            (expanded self.now space.old.memory) handle segment offset) }
        ensures kept { space.new ≡ record space.old { memory = space.new.memory } }
    {
        let Some(slot) = self.slot(handle) else {
            return Err(Status::UnknownHandle);
        };
        space.write_bytes(segment, offset, &slot.name);
        Ok(())
    }

    /// 53h, AL = 1: gives a handle the name that stands at segment:offset; eight zeros remove its name. Its pages and
    /// saved windows stay.
    ///
    /// # Errors
    ///
    /// In this order: `UnknownHandle`; `NameTaken` where another handle has the name. Then nothing has changed.
    #[tactic(auto, unfolding(crate::specs::Names::set_name))]
    pub fn set_name(
        &mut self,
        space: &Space,
        handle: u16,
        segment: u16,
        offset: u16,
    ) -> Result<(), Status>
        ensures answer { result ≡ result_of (set_name (expanded self.old space.now.memory) handle segment offset) }
        ensures left { expanded self.new space.now.memory ≡ state_after (expanded self.old space.now.memory) (set_name
            (expanded self.old space.now.memory) handle segment offset) }
    {
        let Some(slot) = self.slot(handle) else {
            return Err(Status::UnknownHandle);
        };
        let saved = slot.saved;
        let name = name_at(space, segment, offset);
        if self.is_name_of_other(handle, &name) {
            return Err(Status::NameTaken);
        }
        self.set_slot(handle, Some(Handle { name, saved }));
        Ok(())
    }

    /// 54h, AL = 1: the lowest handle with the name that stands at segment:offset.
    ///
    /// # Errors
    ///
    /// `NameTaken` for eight zeros, which are no name; else `NameNotFound` where no handle has it.
    #[tactic(auto, unfolding(crate::specs::Names::find_name))]
    pub fn find_name(&self, space: &Space, segment: u16, offset: u16) -> Result<u16, Status>
        ensures { result ≡ find_name (expanded self.now space.now.memory) segment offset }
    {
        let name = name_at(space, segment, offset);
        if is_no_name(&name) {
            return Err(Status::NameTaken);
        }
        match self.named(&name) {
            Some(handle) => Ok(handle),
            None => Err(Status::NameNotFound),
        }
    }

    /// The lowest handle with a name; None if no handle has it.
    fn named(&self, name: &[u8; 8]) -> Option<u16>
        ensures { result ≡ position (has_name name.now) self.now.handles }
    {
        match first_with_name(self.slots(), name) {
            Some(handle) => Some(handle as u16),
            None => None,
        }
    }
}
