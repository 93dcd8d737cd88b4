//! Blocks of a pool that are allocated, freed and resized.

use crate::checks::same;
use dm_pool::{Block, NewError, Sizes, Store, UNIT};
use std::alloc::Global;
use std::process::Abort;
use std::test::Fail;

/// The most blocks that a row may name.
const NAMES: usize = 8;

/// What is done with a block, by its name, and where it lies then: None if the call fails.
#[derive(Clone, Copy)]
enum Step {
    /// Allocates a block of this many units.
    Take(usize, usize, Option<usize>),
    /// Frees it.
    Give(usize),
    /// Resizes it.
    Resize(usize, usize, Option<usize>),
    /// The units of the largest gap, all free units, and the number of blocks of two units that fit.
    Tells(usize, usize, usize),
}

/// A store with this many KiB of extended memory, and the blocks allocated in it.
#[derive(Drop)]
struct Taken {
    store: Store,
    blocks: [Option<Block>; NAMES],
}

fn made(alloc: Global, pages: u32, kib: u32) -> Result<Store, NewError> {
    Store::new(
        alloc,
        Sizes {
            ems_pages: pages,
            xms_kib: kib,
        },
    )
}

/// The place of a block and its number of bytes.
fn place_of(store: &Store, block: Block) -> (Option<usize>, usize) {
    if store.has(block) {
        (Some(store.base(block)), store.bytes(block).len())
    } else {
        (None, 0)
    }
}

/// Whether a block's first bytes are its own, and those after them zeros.
fn is_sound(store: &Store, block: Block, kept: usize, own: u8) -> bool {
    if !store.has(block) {
        return false;
    }
    for (i, byte) in store.bytes(block).iter().enumerate() {
        let wanted = if i < kept { own } else { 0 };
        if *byte != wanted {
            return false;
        }
    }
    true
}

/// The byte that a block is filled with.
fn own_byte(name: usize) -> u8 {
    (name % NAMES) as u8 + 1
}

fn fill(store: &mut Store, block: Block, own: u8) {
    if store.has(block) {
        store.bytes_mut(block).fill(own);
    }
}

/// Allocates a block; its bytes must be zeros.
fn take(rt: &impl Abort, taken: &mut Taken, name: usize, units: usize, base: Option<usize>) {
    let Some(block) = taken.store.take(units) else {
        same(rt, "base of a block that is refused", None, base);
        return;
    };
    taken.blocks[name % NAMES] = Some(block);
    let (found, bytes) = place_of(&taken.store, block);
    same(rt, "base of a new block", found, base);
    same(
        rt,
        "bytes of a new block",
        Some(bytes),
        units.checked_mul(UNIT),
    );
    same(rt, "zeros", is_sound(&taken.store, block, 0, 0), true);
    fill(&mut taken.store, block, own_byte(name));
}

/// Resizes a block; the bytes that it keeps must be its own, and new bytes zeros.
fn resize(rt: &impl Abort, taken: &mut Taken, name: usize, units: usize, base: Option<usize>) {
    let Some(block) = taken.blocks[name % NAMES] else {
        return;
    };
    let (_, kept) = place_of(&taken.store, block);
    if !taken.store.has(block) {
        return;
    }
    let done = taken.store.resize(block, units);
    let (found, _) = place_of(&taken.store, block);
    same(
        rt,
        "base of a resized block",
        if done { found } else { None },
        base,
    );
    same(
        rt,
        "what it keeps",
        is_sound(&taken.store, block, kept, own_byte(name)),
        true,
    );
    fill(&mut taken.store, block, own_byte(name));
}

fn give(taken: &mut Taken, name: usize) {
    if let Some(block) = taken.blocks[name % NAMES] {
        if taken.store.has(block) {
            taken.store.give(block);
        }
    }
    taken.blocks[name % NAMES] = None;
}

/// Checks that all blocks have their own bytes.
fn keep(rt: &impl Abort, taken: &Taken) {
    for name in 0..NAMES {
        if let Some(block) = taken.blocks[name] {
            let own = is_sound(&taken.store, block, usize::MAX, own_byte(name));
            same(rt, "bytes of a block", own, true);
        }
    }
}

fn play(rt: &impl Abort, taken: &mut Taken, step: Step) {
    match step {
        Step::Take(name, units, base) => take(rt, taken, name, units, base),
        Step::Give(name) => give(taken, name),
        Step::Resize(name, units, base) => resize(rt, taken, name, units, base),
        Step::Tells(largest, free, fitting) => {
            same(rt, "largest gap", taken.store.largest(), largest);
            same(rt, "free units", taken.store.free_units(), free);
            same(
                rt,
                "blocks of two units",
                taken.store.count_fitting(2),
                fitting,
            );
        }
    }
    keep(rt, taken);
}

/// Frees a block, if it is there.
fn give_back(store: &mut Store, block: Block) {
    if store.has(block) {
        store.give(block);
    }
}

/// Four units, of which the block was freed, lie below a block of two; both stores then go on apart.
#[test]
fn a_duplicate_has_blocks_of_its_own(rt: HostRuntime) -> Result<(), Fail> {
    let mut store = made(rt.alloc(), 0, 16)?;
    let first = store.take(4).ok_or("no room")?;
    let second = store.take(2).ok_or("no room")?;
    fill(&mut store, second, 7);
    give_back(&mut store, first);
    let mut twin = store.duplicate(rt.alloc())?;
    same(&rt, "free", (twin.free_units(), twin.largest()), (14, 10));
    same(&rt, "bytes", is_sound(&twin, second, 2048, 7), true);
    let third = twin.take(3).ok_or("no room")?;
    same(&rt, "place", place_of(&twin, third), (Some(0), 3072));
    fill(&mut twin, second, 9);
    same(&rt, "free in the duplicate", twin.free_units(), 11);
    same(&rt, "free in the original", store.free_units(), 14);
    same(
        &rt,
        "bytes of the original",
        is_sound(&store, second, 2048, 7),
        true,
    );
    Ok(())
}

/// The scratch bytes are lent from the first on; behind those that were asked for they are zeros, in a duplicate too.
#[test]
fn scratch_bytes_come_as_asked_for(rt: HostRuntime) -> Result<(), Fail> {
    let mut store = made(rt.alloc(), 0, 16)?;
    store.scratch_mut(2).copy_from_slice(b"ab");
    same(&rt, "two", store.scratch(), b"ab".as_slice());
    let mut twin = store.duplicate(rt.alloc())?;
    let first = store.take(4).ok_or("no room")?;
    fill(&mut store, first, 7);
    same(&rt, "still two", store.scratch(), b"ab".as_slice());
    store.scratch_mut(4)[3] = b'd';
    same(&rt, "four", store.scratch(), b"ab\0d".as_slice());
    same(&rt, "the block", is_sound(&store, first, 4096, 7), true);
    same(
        &rt,
        "two in the duplicate",
        twin.scratch(),
        b"ab".as_slice(),
    );
    same(&rt, "free in the duplicate", twin.free_units(), 16);
    let second = twin.take(4).ok_or("no room")?;
    same(&rt, "zeros", is_sound(&twin, second, 4096, 0), true);
    same(
        &rt,
        "free then",
        (twin.free_units(), store.free_units()),
        (12, 12),
    );
    Ok(())
}

/// Definitions: dm_pool Blocks Blocks IsAt IsLive no_blocks taken placed zeros without resized new_base at_base fitted
/// Definitions: dm_pool Gaps is_clear are_free lowest first_empty gaps Gap largest free_units count_fitting
/// Definitions: dm_pool FreeList AreBased
#[test]
fn blocks_take_the_lowest_gap(rt: HostRuntime) -> Result<(), Fail> {
    let mut taken = Taken {
        store: made(rt.alloc(), 0, 8)?,
        blocks: [None; NAMES],
    };
    let steps = [
        Step::Tells(8, 8, 4),
        Step::Take(0, 3, Some(0)),
        Step::Take(1, 2, Some(3)),
        Step::Take(2, 3, Some(5)),
        Step::Tells(0, 0, 0),
        Step::Take(3, 1, None),
        Step::Take(4, 0, Some(0)),
        Step::Give(1),
        Step::Tells(2, 2, 1),
        Step::Take(3, 3, None),
        // it stays if the units after it are free
        Step::Resize(0, 5, Some(0)),
        Step::Tells(0, 0, 0),
        Step::Resize(0, 1, Some(0)),
        Step::Tells(4, 4, 2),
        // its place reaches the end, so it moves to the lowest gap
        Step::Resize(2, 4, Some(1)),
        Step::Tells(3, 3, 1),
        // it does not move to a gap that its own units would make larger
        Step::Take(3, 1, Some(5)),
        Step::Give(0),
        Step::Tells(2, 3, 1),
        Step::Resize(2, 5, None),
        Step::Tells(2, 3, 1),
        Step::Give(3),
        Step::Resize(2, 7, Some(1)),
        Step::Resize(2, 8, None),
        Step::Resize(2, usize::MAX, None),
        Step::Resize(2, 0, Some(0)),
        Step::Tells(8, 8, 4),
        Step::Resize(2, 2, Some(0)),
        Step::Take(5, usize::MAX, None),
    ];
    for step in steps {
        play(&rt, &mut taken, step);
    }
    Ok(())
}

#[test]
fn gaps_are_counted_one_by_one(rt: HostRuntime) -> Result<(), Fail> {
    let mut taken = Taken {
        store: made(rt.alloc(), 0, 8)?,
        blocks: [None; NAMES],
    };
    let steps = [
        Step::Take(0, 1, Some(0)),
        Step::Take(1, 1, Some(1)),
        Step::Take(2, 3, Some(2)),
        Step::Take(3, 1, Some(5)),
        Step::Give(0),
        Step::Give(2),
        // gaps of one, three and two units hold two blocks of two units, but six units together would hold three
        Step::Tells(3, 6, 2),
    ];
    for step in steps {
        play(&rt, &mut taken, step);
    }
    Ok(())
}

/// Definitions: dm_pool Stored Stored zeros_of units_of IsTooLarge
#[test]
fn sizes_have_bounds(rt: HostRuntime) {
    let alloc = rt.alloc();
    same(
        &rt,
        "513 pages",
        made(alloc, 513, 0).err(),
        Some(NewError::TooLarge),
    );
    same(
        &rt,
        "15,361 KiB",
        made(alloc, 0, 15_361).err(),
        Some(NewError::TooLarge),
    );
    same(&rt, "nothing", made(alloc, 0, 0).is_ok(), true);
    match made(alloc, 512, 15_360) {
        Ok(mut store) => {
            same(&rt, "free units", store.free_units(), 23_552);
            same(&rt, "largest gap", store.largest(), 23_552);
            same(&rt, "pages", store.count_fitting(16), 1472);
            same(&rt, "low bytes", store.low().len(), 0x11_0000);
            same(&rt, "scratch bytes", store.scratch().len(), 0);
            let scratch = store.scratch_mut(0x20_0000).len();
            same(&rt, "scratch bytes lent", scratch, 0x20_0000);
        }
        Err(_) => same(&rt, "the largest sizes", false, true),
    }
}

/// Definitions: dm_pool Blocks taken placed zeros
#[test]
fn a_table_has_576_blocks(rt: HostRuntime) -> Result<(), Fail> {
    let mut store = made(rt.alloc(), 0, 1)?;
    for _ in 0..576 {
        same(&rt, "a block of no unit", store.take(0).is_some(), true);
    }
    same(&rt, "one more", store.take(0).is_none(), true);
    same(&rt, "free units", store.free_units(), 1);
    Ok(())
}

/// Whether no block except one has a unit among this many from a unit on.
fn is_free(
    places: &[Option<(usize, usize)>; NAMES],
    but: usize,
    base: usize,
    units: usize,
) -> bool {
    for name in 0..NAMES {
        if let Some((low, count)) = places[name] {
            if name != but && low < base.saturating_add(units) && base < low.saturating_add(count) {
                return false;
            }
        }
    }
    true
}

/// The lowest gap of a pool of 64 units that holds this many.
fn lowest(places: &[Option<(usize, usize)>; NAMES], units: usize) -> Option<usize> {
    for base in 0..65usize {
        if base.saturating_add(units) <= 64 && is_free(places, NAMES, base, units) {
            return Some(base);
        }
    }
    None
}

/// The place of a block that is resized to this many units.
fn new_base(
    places: &[Option<(usize, usize)>; NAMES],
    name: usize,
    low: usize,
    units: usize,
) -> Option<usize> {
    if units == 0 {
        Some(0)
    } else if low.saturating_add(units) <= 64 && is_free(places, name, low, units) {
        Some(low)
    } else {
        lowest(places, units)
    }
}

/// 400 calls, each compared with a plain list of places.
/// Definitions: dm_pool Blocks taken placed zeros without resized new_base at_base fitted IsLaid IsPool Apart
/// Definitions: dm_pool Blocks content contents_of
#[test]
fn blocks_lie_where_a_plain_list_has_them(rt: HostRuntime) -> Result<(), Fail> {
    let mut taken = Taken {
        store: made(rt.alloc(), 0, 64)?,
        blocks: [None; NAMES],
    };
    let mut places = [None; NAMES];
    let mut number = 1u32;
    for _ in 0..400 {
        number = number.wrapping_mul(1_664_525).wrapping_add(1_013_904_223);
        let name = (number >> 8) as usize % NAMES;
        let units = (number >> 16) as usize % 24;
        let place = places[name];
        match place {
            None => {
                let base = lowest(&places, units);
                play(&rt, &mut taken, Step::Take(name, units, base));
                places[name] = base.map(|base| (base, units));
            }
            Some(_) if number >> 30 == 0 => {
                play(&rt, &mut taken, Step::Give(name));
                places[name] = None;
            }
            Some((low, _)) => {
                let base = new_base(&places, name, low, units);
                play(&rt, &mut taken, Step::Resize(name, units, base));
                if let Some(base) = base {
                    places[name] = Some((base, units));
                }
            }
        }
    }
    Ok(())
}

/// Copies bytes from a place in one block to a place in another one, if both have this many bytes there.
fn move_bytes(
    store: &mut Store,
    source: (Block, usize),
    destination: (Block, usize),
    len: usize,
) -> bool {
    if !store.has(source.0) || !store.has(destination.0) {
        return false;
    }
    let (last, end) = (
        store.bytes(source.0).len(),
        store.bytes(destination.0).len(),
    );
    if source.1 > last
        || len > last - source.1
        || destination.1 > end
        || len > end - destination.1
    {
        return false;
    }
    store.move_bytes(source.0, source.1, destination.0, destination.1, len);
    true
}

fn write(store: &mut Store, block: Block, letters: [u8; 6]) {
    if store.has(block) {
        for (byte, letter) in store.bytes_mut(block).iter_mut().zip(letters.iter()) {
            *byte = *letter;
        }
    }
}

/// The first six bytes of a block.
fn beginning(store: &Store, block: Block) -> [u8; 6] {
    let mut letters = [0; 6];
    if store.has(block) {
        for (letter, byte) in letters.iter_mut().zip(store.bytes(block).iter()) {
            *letter = *byte;
        }
    }
    letters
}

/// The copied bytes are the old bytes of the source, even if the two places overlap.
/// Definitions: dm_pool Blocks moved_bytes with_content
#[test]
fn bytes_move_within_and_between_blocks(rt: HostRuntime) -> Result<(), Fail> {
    let mut store = made(rt.alloc(), 0, 2)?;
    let (Some(one), Some(two)) = (store.take(1), store.take(1)) else {
        same(&rt, "two blocks", false, true);
        return Ok(());
    };
    write(&mut store, one, *b"ABCDEF");
    write(&mut store, two, *b"uvwxyz");
    same(
        &rt,
        "upwards",
        move_bytes(&mut store, (one, 0), (one, 2), 3),
        true,
    );
    same(&rt, "upwards", beginning(&store, one), *b"ABABCF");
    same(
        &rt,
        "downwards",
        move_bytes(&mut store, (one, 2), (one, 0), 4),
        true,
    );
    same(&rt, "downwards", beginning(&store, one), *b"ABCFCF");
    same(
        &rt,
        "to another block",
        move_bytes(&mut store, (one, 1), (two, 3), 2),
        true,
    );
    same(&rt, "to another block", beginning(&store, two), *b"uvwBCz");
    same(
        &rt,
        "from another block",
        beginning(&store, one),
        *b"ABCFCF",
    );
    same(
        &rt,
        "the last byte",
        move_bytes(&mut store, (two, 1023), (one, 5), 1),
        true,
    );
    same(&rt, "the last byte", beginning(&store, one), *b"ABCFC\0");
    same(
        &rt,
        "no byte",
        move_bytes(&mut store, (one, 0), (one, 1024), 0),
        true,
    );
    same(&rt, "no byte", beginning(&store, one), *b"ABCFC\0");
    Ok(())
}
