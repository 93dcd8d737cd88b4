//! The breakpoints of a session, no two of which are at one address.
use crate::checks::same;
use dm_debug::Points;
use dm_requests::commands::LogicalAddress;
use std::test::Fail;

/// Sets a breakpoint where there is room for it.
fn set(points: &mut Points, offset: u16) {
    let segment = 0x0103;
    let address = LogicalAddress { segment, offset };
    if !points.is_seventeenth(address) {
        points.set(address);
    }
}

/// Definitions: dm_debug Points AreDistinct with_point without_point is_seventeenth
#[test]
fn a_breakpoint_is_set_once(rt: HostRuntime) -> Result<(), Fail> {
    let first = LogicalAddress {
        segment: 0x0103,
        offset: 0x0100,
    };
    let alias = LogicalAddress {
        segment: 0x0104,
        offset: 0x00F0,
    };
    let mut points = Points::new();
    set(&mut points, 0x0100);
    set(&mut points, 0x0100);
    same(&rt, "one", points.as_slice().len(), 1);
    for offset in 0x0101..0x0110 {
        set(&mut points, offset);
    }
    same(&rt, "sixteen", points.as_slice().len(), 16);
    same(&rt, "one more", points.is_seventeenth(alias), true);
    same(&rt, "one of them", points.is_seventeenth(first), false);
    points.clear(alias);
    same(&rt, "another pair", points.as_slice().len(), 16);
    points.clear(first);
    same(&rt, "cleared", points.is_set(first), false);
    same(&rt, "fifteen", points.as_slice().len(), 15);
    Ok(())
}
