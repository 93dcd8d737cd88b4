//! Many pages mapped by one call (LIM EMS 4.0, function 17; INT 67h function 50h).

ghost use Rattle.std.specs.Prelude.{◌≡◌, ◌<◌, ◌==◌, IfOk, IfSome, ℕ, None, slice_index_or};
ghost use Rattle.dm_space.specs.Memory.{IsPage};
ghost use Rattle.dm_ems.specs.Tables.{expanded, blocks_of};
ghost use Rattle.dm_ems.specs.Consistent.{IsConsistent};
ghost use Rattle.dm_ems.specs.Calls.{result_of, state_after};
ghost use Rattle.dm_ems_move.specs.Many.{map_many, window_of, paired, after_pairs};

use dm_ems::{Ems, Status, set_windows};
use dm_pool::Block;
use dm_space::Space;
use dm_space::moves::word_after;

/// The logical page number that unmaps a window.
const NO_PAGE: u16 = 0xFFFF;

/// The window, 0 to 3, that a value names, by its segment or by its number; None if there is no such window.
fn window_of(by_segment: bool, value: u16) -> Option<usize>
    ensures window { result ≡ window_of by_segment value }
    ensures below { IfSome result (λ window. window < 4) }
{
    if by_segment {
        if value >= 0xE000 && value < 0xF000 && value % 0x400 == 0 {
            Some((value as usize - 0xE000) / 0x400)
        } else {
            None
        }
    } else if value < 4 {
        Some(value as usize)
    } else {
        None
    }
}

/// What the four windows show after one pair: the window that `value` names shows a logical page of the handle with
/// these blocks, or nothing for FFFFh. `NoSuchWindow` or else `NoSuchPage` for a bad pair.
#[tactic(auto, unfolding(crate::specs::Many::paired))]
fn paired(
    blocks: &[Block],
    by_segment: bool,
    page: u16,
    value: u16,
    windows: [Option<Block>; 4],
) -> Result<[Option<Block>; 4], Status>
    ensures { result ≡ paired blocks.now by_segment page value windows }
{
    let Some(window) = window_of(by_segment, value) else {
        return Err(Status::NoSuchWindow);
    };
    let mut after = windows;
    if page == NO_PAGE {
        after[window] = None;
        return Ok(after);
    }
    let Some(block) = blocks.get(page as usize) else {
        return Err(Status::NoSuchPage);
    };
    after[window] = Some(*block);
    Ok(after)
}

/// What the four windows show after `count` pairs at segment:offset, two words each, a logical page and a window; or
/// the error of the first bad pair. Nothing is changed.
#[tactic(auto, using(crate::proofs::Pairs::after_more))]
fn after_pairs(
    space: &Space,
    blocks: &[Block],
    by_segment: bool,
    segment: u16,
    offset: u16,
    count: u16,
) -> Result<[Option<Block>; 4], Status>
    ensures { result ≡ after_pairs space.now.memory blocks.now by_segment segment offset count }
{
    let mut windows = space.windows();
    for pair in 0..count as usize {
        let page = word_after(space, segment, offset, 4 * pair);
        let value = word_after(space, segment, offset, 4 * pair + 2);
        match paired(blocks, by_segment, page, value, windows) {
            Ok(after) => windows = after,
            Err(status) => return Err(status),
        }
    }
    Ok(windows)
}

/// 50h: makes windows show logical pages of a handle: `count` pairs of two words stand at segment:offset, a logical
/// page (FFFFh for none) and a window, which mode 0 names by its number and mode 1 by its segment. Where pairs name
/// one window, the last of them counts; a window that none names stays.
///
/// # Errors
///
/// In this order: `NoSubfunction` for another mode, `UnknownHandle`, and what is wrong with the first bad pair,
/// `NoSuchWindow` or else `NoSuchPage`. Then nothing has changed.
#[tactic(auto, unfolding(crate::specs::Many::map_many))]
pub fn map_many(
    ems: &Ems,
    space: &mut Space,
    mode: u8,
    handle: u16,
    count: u16,
    segment: u16,
    offset: u16,
) -> Result<(), Status>
    requires { IsConsistent (expanded ems.now space.old.memory) }
    ensures answer { result ≡ result_of (map_many (expanded ems.now space.old.memory) mode handle count segment
        offset) }
    ensures left { expanded ems.now space.new.memory ≡ state_after (expanded ems.now space.old.memory) (map_many
        (expanded ems.now space.old.memory) mode handle count segment offset) }
    ensures kept { space.new ≡ record space.old { memory = space.new.memory } }
{
    if mode > 1 {
        return Err(Status::NoSubfunction);
    }
    if ems.slot(handle).is_none() {
        return Err(Status::UnknownHandle);
    }
    let blocks = ems.page_blocks(handle);
    match after_pairs(space, blocks.as_slice(), mode == 1, segment, offset, count) {
        Ok(windows) => {
            set_windows(space, windows);
            Ok(())
        }
        Err(status) => Err(status),
    }
}
