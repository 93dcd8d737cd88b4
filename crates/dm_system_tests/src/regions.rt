//! Regions of bytes: parts that are written, copies that overlap, two parts at once, and lengths that fail.
ghost use Rattle.std.specs.Prelude.{◌≡◌, ◌≤◌, IfOk, length};

use crate::checks::same;
use dm_region::{Region, ends_mut};
use std::alloc::{AllocError, Global};
use std::test::Fail;

/// A region of the ten letters from `a` to `j`.
fn letters(alloc: Global) -> Result<Region, AllocError>
    ensures { IfOk result (λ region. (length region.bytes ≡ 10) × (region.from ≡ 10) × (region.to ≡ 10)) }
{
    let mut region = Region::new(alloc, 10)?;
    region.fill_up(10);
    region.part_mut(0, 10).copy_from_slice(b"abcdefghij");
    Ok(region)
}

/// All bytes of a region that has no hole.
fn all(region: &Region) -> &[u8]
    requires { region.now.to ≤ region.now.from }
    ensures { result.now ≡ region.now.bytes }
{
    region.part(0, region.len())
}

#[test]
fn regions_begin_as_zeros(rt: HostRuntime) -> Result<(), Fail> {
    let empty = Region::new(rt.alloc(), 0)?;
    same(&rt, "length", empty.len(), 0);
    same(&rt, "bytes", empty.part(0, 0), b"".as_slice());
    let mut region = Region::new(rt.alloc(), 10)?;
    same(&rt, "length", region.len(), 10);
    same(&rt, "hole", region.hole_start(), 0);
    region.fill_up(10);
    same(&rt, "filled", region.hole_start(), 10);
    same(&rt, "bytes", all(&region), [0; 10].as_slice());
    Ok(())
}

/// Definitions: dm_region Holes Holed IsOutside
#[test]
fn a_hole_counts_as_zeros(rt: HostRuntime) -> Result<(), Fail> {
    let mut region = Region::new(rt.alloc(), 10)?;
    region.fill_up(3);
    region.fill_up(2);
    region.fill_down(7);
    region.fill_down(8);
    same(&rt, "hole", region.hole_start(), 3);
    same(&rt, "its end", region.hole_end(), 7);
    region.part_mut(0, 3).copy_from_slice(b"abc");
    region.part_mut(7, 3).copy_from_slice(b"xyz");
    region.copy(0, 8, 2);
    region.copy(7, 1, 2);
    same(&rt, "before the hole", region.part(0, 3), b"axa".as_slice());
    same(&rt, "behind it", region.part(7, 3), b"xab".as_slice());
    let mut twin = region.duplicate(rt.alloc())?;
    same(&rt, "hole of the duplicate", twin.hole_start(), 3);
    twin.fill_up(7);
    same(&rt, "no hole", all(&twin), b"axa\0\0\0\0xab".as_slice());
    region.fill_down(3);
    same(
        &rt,
        "no hole",
        region.part(2, 8),
        b"a\0\0\0\0xab".as_slice(),
    );
    Ok(())
}

#[test]
fn a_duplicate_has_bytes_of_its_own(rt: HostRuntime) -> Result<(), Fail> {
    let mut region = letters(rt.alloc())?;
    let mut twin = region.duplicate(rt.alloc())?;
    same(&rt, "length", twin.len(), 10);
    same(&rt, "bytes", all(&twin), b"abcdefghij".as_slice());
    twin.part_mut(0, 1).fill(b'x');
    region.part_mut(9, 1).fill(b'y');
    same(&rt, "twin", all(&twin), b"xbcdefghij".as_slice());
    same(&rt, "region", all(&region), b"abcdefghiy".as_slice());
    let empty = Region::new(rt.alloc(), 0)?.duplicate(rt.alloc())?;
    same(&rt, "length of an empty one", empty.len(), 0);
    Ok(())
}

#[test]
fn an_empty_region_lends_empty_parts(rt: HostRuntime) -> Result<(), Fail> {
    let mut region = Region::new(rt.alloc(), 0)?;
    region.part_mut(0, 0).fill(b'x');
    region.copy(0, 0, 0);
    same(&rt, "length", region.len(), 0);
    Ok(())
}

/// Definitions: dm_region Parts part with_part LendsPart
#[test]
fn parts_are_read_and_written(rt: HostRuntime) -> Result<(), Fail> {
    // first byte, length; the part's bytes; all bytes after the part is filled with `x`
    let rows = [
        (0, 3, b"abc".as_slice(), b"xxxdefghij".as_slice()),
        (3, 4, b"defg".as_slice(), b"abcxxxxhij".as_slice()),
        (9, 1, b"j".as_slice(), b"abcdefghix".as_slice()),
        (0, 10, b"abcdefghij".as_slice(), b"xxxxxxxxxx".as_slice()),
        (5, 0, b"".as_slice(), b"abcdefghij".as_slice()),
        (10, 0, b"".as_slice(), b"abcdefghij".as_slice()),
    ];
    for (from, len, part, filled) in rows {
        let mut region = letters(rt.alloc())?;
        same(&rt, "part", region.part(from, len), part);
        region.part_mut(from, len).fill(b'x');
        same(&rt, "filled", all(&region), filled);
    }
    Ok(())
}

/// Definitions: dm_region Parts part with_part
#[test]
fn copies_read_before_they_write(rt: HostRuntime) -> Result<(), Fail> {
    // first byte, first byte of the copy, length; all bytes then. Apart, adjacent, upwards and downwards over each
    // other, in place, and empty
    let rows = [
        (0, 5, 3, b"abcdeabcij"),
        (6, 1, 3, b"aghiefghij"),
        (0, 5, 5, b"abcdeabcde"),
        (0, 1, 9, b"aabcdefghi"),
        (1, 0, 9, b"bcdefghijj"),
        (2, 4, 5, b"abcdcdefgj"),
        (4, 2, 5, b"abefghihij"),
        (0, 0, 10, b"abcdefghij"),
        (10, 0, 0, b"abcdefghij"),
        (0, 10, 0, b"abcdefghij"),
    ];
    for (from, to, len, copied) in rows {
        let mut region = letters(rt.alloc())?;
        region.copy(from, to, len);
        same(&rt, "copied", all(&region), copied.as_slice());
    }
    Ok(())
}

/// Definitions: dm_region Ends with_ends lends_ends
#[test]
fn two_parts_are_written_at_once(rt: HostRuntime) -> Result<(), Fail> {
    // first byte and length of the whole, length of the first, start of the second; all bytes after the first
    // is filled with `x` and the second with `y`. Adjacent, with a gap, and empty
    let rows = [
        (0, 10, 5, 5, b"xxxxxyyyyy"),
        (2, 4, 3, 3, b"abxxxyghij"),
        (1, 8, 2, 5, b"axxdefyyyj"),
        (0, 10, 1, 9, b"xbcdefghiy"),
        (3, 2, 0, 0, b"abcyyfghij"),
        (3, 2, 2, 2, b"abcxxfghij"),
        (10, 0, 0, 0, b"abcdefghij"),
    ];
    for (from, span, len, other, filled) in rows {
        let mut region = letters(rt.alloc())?;
        let (first, second) = ends_mut(region.part_mut(from, span), len, other);
        first.fill(b'x');
        second.fill(b'y');
        same(&rt, "filled", all(&region), filled.as_slice());
    }
    Ok(())
}

/// Definitions: dm_region Ends with_ends lends_ends
#[test]
fn bytes_move_upwards(rt: HostRuntime) -> Result<(), Fail> {
    let mut region = letters(rt.alloc())?;
    let (first, second) = ends_mut(region.part_mut(1, 8), 3, 5);
    second.copy_from_slice(first);
    same(&rt, "bytes", all(&region), b"abcdefbcdj".as_slice());
    Ok(())
}

/// Definitions: dm_region Ends with_ends lends_ends
#[test]
fn bytes_move_downwards(rt: HostRuntime) -> Result<(), Fail> {
    let mut region = letters(rt.alloc())?;
    let (first, second) = ends_mut(region.part_mut(1, 6), 3, 3);
    first.copy_from_slice(second);
    same(&rt, "bytes", all(&region), b"aefgefghij".as_slice());
    Ok(())
}

#[test]
fn lengths_beyond_one_allocation_are_refused(rt: HostRuntime) {
    for len in [1 << 63, (1 << 63) + 1, usize::MAX] {
        same(&rt, "made", Region::new(rt.alloc(), len).is_ok(), false);
    }
}
