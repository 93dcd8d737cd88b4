//! The map of the frame as bytes (LIM EMS 4.0, function 15; INT 67h function 4Eh): for each window a handle and a
//! logical page, two words.

ghost use Rattle.std.specs.Prelude.{◌≡◌, ◌<◌, ◌≤◌, ◌+◌, ◌++◌, IfSome, length, count_by, position};
ghost use Rattle.arrayvec.specs.ArrayVec.{array_vec_len};
ghost use Rattle.dm_space.specs.Buffers.{with_bytes};
ghost use Rattle.dm_ems.specs.Tables.{expanded, is_block, is_of};
ghost use Rattle.dm_ems.specs.Consistent.{IsConsistent};
ghost use Rattle.dm_ems.specs.Calls.{result_of, state_after};
ghost use Rattle.dm_ems_move.specs.Maps.{whole_map, map_entries, meant, meant_at, map_at};
ghost use Rattle.dm_ems_move.specs.inner.Maps.{numbers, map_entry};

use arrayvec::ArrayVec;
use dm_ems::{Ems, Page, Status, set_windows};
use dm_pool::Block;
use dm_space::Space;
use dm_space::moves::word_after;

/// The size of a map in bytes.
const SIZE: u8 = 16;

/// The handle and the logical page in a map of a window that shows nothing.
const NONE: (u16, u16) = (0xFFFF, 0xFFFF);

/// The bytes of a map.
type Bytes = ArrayVec<u8, 16>;

/// The index of the page with this block in the list of all pages; None if no page has it.
fn index_of(pages: &[Page], block: Block) -> Option<usize>
    ensures first { result ≡ position (is_block block) pages.now }
    ensures there { IfSome result (λ k. k < length pages.now) }
{
    pages.iter().position(|page| page.block == block)
}

/// How many of these pages belong to a handle: the logical number of its next page.
fn count_of(pages: &[Page], handle: u16) -> usize
    ensures count { result ≡ count_by (is_of handle) pages.now }
    ensures few { result ≤ length pages.now }
{
    pages.iter().filter(|page| page.handle == handle).count()
}

/// The handle and the logical number of the page that a window shows; FFFFh twice if it shows no page. `pages` are
/// those of all handles.
fn numbers(pages: &[Page], window: Option<Block>) -> (u16, u16)
    requires { length pages.now ≤ 512 }
    ensures { result ≡ numbers pages.now window }
{
    let Some(block) = window else {
        return NONE;
    };
    match index_of(pages, block) {
        Some(at) => {
            let handle = pages[at].handle;
            (handle, count_of(&pages[..at], handle) as u16)
        }
        None => NONE,
    }
}

/// Appends the four bytes of a window: its handle and its logical page, low bytes first.
fn put_entry(bytes: &mut Bytes, numbers: (u16, u16))
    requires { array_vec_len bytes.old + 4 ≤ 16 }
    ensures items { bytes.new.items ≡ bytes.old.items ++ map_entry numbers }
    ensures len { array_vec_len bytes.new ≡ array_vec_len bytes.old + 4 }
{
    let [low, high] = numbers.0.to_le_bytes();
    bytes.push(low);
    bytes.push(high);
    let [low, high] = numbers.1.to_le_bytes();
    bytes.push(low);
    bytes.push(high);
}

/// The 16 bytes of the map of these four windows.
fn map_entries(pages: &[Page], windows: [Option<Block>; 4]) -> Bytes
    requires { length pages.now ≤ 512 }
    ensures { result.items ≡ map_entries pages.now windows }
{
    let [first, second, third, fourth] = windows;
    let mut bytes = ArrayVec::new();
    put_entry(&mut bytes, numbers(pages, first));
    put_entry(&mut bytes, numbers(pages, second));
    put_entry(&mut bytes, numbers(pages, third));
    put_entry(&mut bytes, numbers(pages, fourth));
    bytes
}

/// What a window is to show by the handle and the logical page of a map: Some(None) for nothing; None if the handle
/// is not in use or has no such page.
fn meant(ems: &Ems, handle: u16, page: u16) -> Option<Option<Block>>
    ensures { result ≡ meant ems.now handle page }
{
    if handle == 0xFFFF && page == 0xFFFF {
        return Some(None);
    }
    if ems.slot(handle).is_none() {
        return None;
    }
    match ems.page(handle, page) {
        Some(block) => Some(Some(block)),
        None => None,
    }
}

/// What window `k`, 0 to 3, is to show by the map at segment:offset, where offsets wrap: Some(None) for nothing; None
/// if its entry is bad.
fn meant_at(ems: &Ems, space: &Space, segment: u16, offset: u16, k: usize) -> Option<Option<Block>>
    requires { k < 4 }
    ensures { result ≡ meant_at ems.now space.now.memory segment offset k }
{
    let handle = word_after(space, segment, offset, 4 * k);
    let page = word_after(space, segment, offset, 4 * k + 2);
    meant(ems, handle, page)
}

/// What the four windows are to show by the map at segment:offset; None if an entry is bad.
#[tactic(auto, unfolding(crate::specs::Maps::map_at))]
fn map_at(ems: &Ems, space: &Space, segment: u16, offset: u16) -> Option<[Option<Block>; 4]>
    ensures { result ≡ map_at ems.now space.now.memory segment offset }
{
    let first = meant_at(ems, space, segment, offset, 0)?;
    let second = meant_at(ems, space, segment, offset, 1)?;
    let third = meant_at(ems, space, segment, offset, 2)?;
    let fourth = meant_at(ems, space, segment, offset, 3)?;
    Some([first, second, third, fourth])
}

/// Writes the map of what the windows show, 16 bytes, at segment:offset. The windows and the scratch part stay.
fn write_map(ems: &Ems, space: &mut Space, segment: u16, offset: u16)
    ensures { space.new ≡ record space.old {
      memory = with_bytes space.old.memory segment offset (map_entries
          ems.now.pages space.old.memory.windows);
    } }
{
    let bytes = map_entries(ems.pages(), space.windows());
    space.write_bytes(segment, offset, bytes.as_slice());
}

/// 4Eh: the map of the frame, sixteen bytes: for each window the handle and the logical page that it shows, two
/// words, or FFFFh twice where it shows nothing. Mode 0 writes the map at the first address, mode 1 makes the windows
/// show what the map at the second address says, mode 2 reads the map at the second address, writes that of what the
/// windows show so far at the first, and then sets them as the one read says, and mode 3 only returns the size of a map
/// in bytes and changes nothing.
///
/// # Errors
///
/// `NoSubfunction` for another mode. `BadMap` where the map that is read names a handle that is not in use or a page
/// that the handle does not have. Then nothing has changed.
#[tactic(auto, unfolding(crate::specs::Maps::whole_map))]
pub fn whole_map(
    ems: &Ems,
    space: &mut Space,
    mode: u8,
    to_segment: u16,
    to_offset: u16,
    from_segment: u16,
    from_offset: u16,
) -> Result<Option<u8>, Status>
    requires { IsConsistent (expanded ems.now space.old.memory) }
    ensures answer { result ≡ result_of (whole_map (expanded ems.now space.old.memory) mode to_segment to_offset
        from_segment from_offset) }
    ensures left { expanded ems.now space.new.memory ≡ state_after (expanded ems.now space.old.memory) (whole_map
        (expanded ems.now space.old.memory) mode to_segment to_offset from_segment from_offset) }
    ensures kept { space.new ≡ record space.old { memory = space.new.memory } }
{
    if mode == 0 {
        write_map(ems, space, to_segment, to_offset);
        return Ok(None);
    }
    if mode == 3 {
        return Ok(Some(SIZE));
    }
    if mode > 3 {
        return Err(Status::NoSubfunction);
    }
    let Some(windows) = map_at(ems, space, from_segment, from_offset) else {
        return Err(Status::BadMap);
    };
    if mode == 1 {
        set_windows(space, windows);
        return Ok(None);
    }
    write_map(ems, space, to_segment, to_offset);
    set_windows(space, windows);
    Ok(None)
}
