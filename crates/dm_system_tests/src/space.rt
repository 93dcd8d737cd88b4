//! The map of memory as a program sees it.

use crate::checks::same;
use crate::memory::new_space;
use dm_pool::{Block, Sizes, Store};
use dm_space::Space;
use std::test::Fail;

/// Marks the first byte of a block, and below 110000h vector 33, the first arena header, a byte after it, and one in
/// the segment of ROM.
fn mark(store: &mut Store, block: Block) {
    if store.has(block) {
        let bytes = store.bytes_mut(block);
        if bytes.len() > 0 {
            bytes[0] = 0x77;
        }
    }
    let low = store.low_mut();
    if low.len() == 0x11_0000 {
        for at in [0x84, 0x1000, 0x1005, 0xF_0000] {
            low[at] = 0x99;
        }
    }
}

/// The first byte of a block.
fn first_byte(space: &Space, block: Block) -> Option<u8> {
    if space.has(block) {
        space.bytes(block).first().copied()
    } else {
        None
    }
}

#[test]
fn a_duplicate_has_bytes_and_a20_of_its_own(rt: HostRuntime) -> Result<(), Fail> {
    let mut space = new_space(rt.alloc())?;
    space.set_a20(true);
    space.poke(0x2000, 5, 0x11);
    let mut twin = space.duplicate(rt.alloc())?;
    same(&rt, "A20", twin.a20(), true);
    same(&rt, "byte", twin.peek(0x2000, 5), 0x11);
    twin.set_a20(false);
    twin.poke(0x2000, 5, 0x22);
    same(&rt, "A20 of the original", space.a20(), true);
    same(&rt, "byte of the original", space.peek(0x2000, 5), 0x11);
    same(&rt, "byte of the duplicate", twin.peek(0x2000, 5), 0x22);
    Ok(())
}

#[test]
fn memory_starts_over_a_used_store(rt: HostRuntime) -> Result<(), Fail> {
    let sizes = Sizes {
        ems_pages: 2,
        xms_kib: 16,
    };
    let mut store = Store::new(rt.alloc(), sizes)?;
    let block = store.take(16).ok_or("no room")?;
    mark(&mut store, block);
    let space = Space::new(store);
    // vectors, arena header and ROM are written, all else is unchanged, and no window shows the block
    let bytes = [
        (0x0000, 0x0084, 0x84),
        (0x0100, 0x0000, 0x5A),
        (0x0100, 0x0005, 0x99),
        (0xE000, 0x0000, 0xFF),
        (0xF000, 0x0000, 0xCF),
    ];
    for (segment, offset, byte) in bytes {
        same(
            &rt,
            "byte",
            (segment, offset, space.peek(segment, offset)),
            (segment, offset, byte),
        );
    }
    same(&rt, "A20", space.a20(), false);
    same(
        &rt,
        "byte of the block",
        first_byte(&space, block),
        Some(0x77),
    );
    Ok(())
}

/// Definitions: dm_space Memory linear place shown byte_at with_byte peek poke with_a20; dm_space Rom rom rom_offset
/// Definitions: dm_space Start IsStart IsStartOfRam start_byte IsStartOver IsLaidOver vector_offset vector_segment
/// Definitions: dm_space Start vector_byte
#[test]
fn each_part_of_the_map_reads_as_it_starts(rt: HostRuntime) -> Result<(), Fail> {
    let mut space = new_space(rt.alloc())?;
    // segment, offset, byte: vectors 0, 21h and 67h, the arena header, the hole, upper RAM, the
    // frame, ROM, and the start of memory as it shows above FFFF:000F while A20 is off
    let bytes = [
        (0x0000, 0x0003, 0xF0),
        (0x0000, 0x0084, 0x84),
        (0x0000, 0x019C, 0x20),
        (0x0000, 0x019F, 0xF1),
        (0x0100, 0x0000, 0x5A),
        (0x0100, 0x0003, 0xFF),
        (0x0100, 0x0004, 0x9E),
        (0xC000, 0x0000, 0xFF),
        (0xD000, 0x0000, 0x00),
        (0xE000, 0x0000, 0xFF),
        (0xF000, 0x0084, 0xCF),
        (0xF000, 0x0085, 0xFF),
        (0xF000, 0x03FC, 0xCF),
        (0xF000, 0x0400, 0xCB),
        (0xF000, 0x0404, 0xFF),
        (0xF100, 0x0009, 0xFF),
        (0xF100, 0x000A, b'E'),
        (0xF100, 0x0011, b'0'),
        (0xF100, 0x0012, 0xFF),
        (0xF100, 0x0020, 0xCF),
        (0xF100, 0x0021, 0xFF),
        (0xFFFF, 0x0013, 0xF0),
    ];
    for (segment, offset, byte) in bytes {
        assert_eq!(rt;
            space.peek(segment, offset),
            byte,
            "at {segment:04X}:{offset:04X}"
        );
    }
    space.set_a20(true);
    same(&rt, "byte", space.peek(0xFFFF, 0x0013), 0x00);
    Ok(())
}

/// Definitions: dm_space Memory place shown byte_at with_byte peek poke
#[test]
fn each_part_of_the_map_keeps_or_loses_a_write(rt: HostRuntime) -> Result<(), Fail> {
    let mut space = new_space(rt.alloc())?;
    // segment, offset, what is read there after 5Ah was written: at both ends of conventional and plain
    // RAM, of the hole, of upper RAM, of the frame with no page in its windows, and of ROM
    let bytes = [
        (0x9FFF, 0x000F, 0x5A),
        (0xA000, 0x0000, 0x5A),
        (0xBFFF, 0x000F, 0x5A),
        (0xC000, 0x0000, 0xFF),
        (0xCFFF, 0x000F, 0xFF),
        (0xD000, 0x0000, 0x5A),
        (0xDFFF, 0x000F, 0x5A),
        (0xE000, 0x0000, 0xFF),
        (0xEFFF, 0x000F, 0xFF),
        (0xF000, 0x0000, 0xCF),
        (0xFFFF, 0x000F, 0xFF),
    ];
    for (segment, offset, byte) in bytes {
        space.poke(segment, offset, 0x5A);
        let found = space.peek(segment, offset);
        same(
            &rt,
            "byte",
            (segment, offset, found),
            (segment, offset, byte),
        );
    }
    Ok(())
}

/// Definitions: dm_space Memory linear peek poke
#[test]
fn the_high_area_goes_round_while_a20_is_off(rt: HostRuntime) -> Result<(), Fail> {
    let mut space = new_space(rt.alloc())?;
    // A20, an offset in segment FFFFh, the byte written there
    let written = [
        (false, 0x0010, 0x51),
        (false, 0xFFFF, 0x52),
        (true, 0x0010, 0x53),
        (true, 0xFFFF, 0x54),
    ];
    for (on, offset, byte) in written {
        space.set_a20(on);
        space.poke(0xFFFF, offset, byte);
    }
    // A20, segment, offset, the byte read: the ends of the high area, 100000h and 10FFEFh,
    // and the places 100000h below them
    let read = [
        (true, 0xFFFF, 0x0010, 0x53),
        (true, 0xFFFF, 0xFFFF, 0x54),
        (true, 0x0000, 0x0000, 0x51),
        (true, 0x0000, 0xFFEF, 0x52),
        (false, 0xFFFF, 0x0010, 0x51),
        (false, 0xFFFF, 0xFFFF, 0x52),
    ];
    for (on, segment, offset, byte) in read {
        space.set_a20(on);
        let found = space.peek(segment, offset);
        let asked = (on, segment, offset);
        same(&rt, "byte", (asked, found), (asked, byte));
    }
    Ok(())
}

/// Definitions: dm_space Memory linear peek16 poke16; dm_cpu Guest up down at_ip on_cpu with_flags
/// Definitions: dm_cpu Operands value_of with_operand with_result address_of far_segment_of
/// Definitions: dm_cpu Stack push top popped; dm_operations Stack stack_effect pushed_value popped_into flags_popped
#[test]
fn word_wraps_at_segment_end(rt: HostRuntime) -> Result<(), Fail> {
    let mut space = new_space(rt.alloc())?;
    space.poke16(0x2000, 0xFFFF, 0x1234);
    same(&rt, "byte", space.peek(0x2000, 0xFFFF), 0x34);
    same(&rt, "byte", space.peek(0x2000, 0x0000), 0x12);
    same(&rt, "word", space.peek16(0x2000, 0xFFFF), 0x1234);
    same(&rt, "byte", space.peek(0x3000, 0x0000), 0x00);
    Ok(())
}

#[test]
fn words_stand_across_the_borders_of_the_hole(rt: HostRuntime) -> Result<(), Fail> {
    let mut space = new_space(rt.alloc())?;
    space.poke(0xBFFF, 0x000F, 0x12);
    same(&rt, "word", space.peek16(0xBFFF, 0x000F), 0xFF12);
    space.poke16(0xBFFF, 0x000F, 0x5634);
    same(&rt, "word", space.peek16(0xBFFF, 0x000F), 0xFF34);
    space.poke16(0xCFFF, 0x000F, 0x5634);
    same(&rt, "word", space.peek16(0xCFFF, 0x000F), 0x56FF);
    Ok(())
}

/// The eight bytes from segment:offset on, read one by one.
fn peeked(space: &Space, segment: u16, offset: u16) -> [u8; 8] {
    let mut bytes = [0; 8];
    for index in 0..8 {
        bytes[index] = space.peek(segment, offset.wrapping_add(index as u16));
    }
    bytes
}

#[test]
fn eight_bytes_are_those_read_one_by_one(rt: HostRuntime) -> Result<(), Fail> {
    let mut space = new_space(rt.alloc())?;
    space.poke(0x2000, 0xFFFF, 0x21);
    space.poke(0x2000, 0x0000, 0x22);
    space.poke(0x3000, 0x0000, 0x23);
    space.poke(0xBFFF, 0x000F, 0x24);
    // Below the hole, next to it and in it; at the end of a segment; above FFFF:000F, while A20 is off.
    let places = [
        (0x0000, 0x0000),
        (0x2000, 0xFFF8),
        (0x2000, 0xFFF9),
        (0x2000, 0xFFFF),
        (0xB000, 0xFFF8),
        (0xB000, 0xFFF9),
        (0xB001, 0xFFE8),
        (0xB001, 0xFFE9),
        (0xB001, 0xFFF8),
        (0xBFFF, 0x0008),
        (0xBFFF, 0x0009),
        (0xC000, 0x0000),
        (0xE000, 0x0000),
        (0xF000, 0x0000),
        (0xFFFF, 0x0010),
    ];
    for (segment, offset) in places {
        if let Some(found) = space.eight_bytes(segment, offset) {
            same(
                &rt,
                "bytes",
                (segment, offset, found.to_le_bytes()),
                (segment, offset, peeked(&space, segment, offset)),
            );
        }
    }
    Ok(())
}
