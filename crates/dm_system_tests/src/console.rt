//! Room, output and input in turn.
use crate::checks::same;
use dm_console::Console;
use std::test::Fail;

/// Definitions: dm_console Streams Streams
#[test]
fn room_is_taken_byte_by_byte(rt: HostRuntime) -> Result<(), Fail> {
    let mut input = Vec::new(rt.alloc());
    input.push(b'x')?;
    let mut console = Console::new(rt.alloc(), input);
    console.reserve(0)?;
    same(&rt, "room", console.room(), 0);
    console.reserve(2)?;
    console.reserve(1)?;
    same(&rt, "room", console.room(), 2);
    console.put(b'h');
    same(&rt, "room", console.room(), 1);
    same(&rt, "output", console.output(), b"h".as_slice());
    same(&rt, "input left", console.left(), 1);
    same(&rt, "reserved", console.reserve_within_capacity(1), true);
    same(
        &rt,
        "reserved",
        console.reserve_within_capacity(1 << 40),
        false,
    );
    same(&rt, "put", console.put_within_capacity(b'i'), true);
    same(&rt, "room", console.room(), 0);
    same(&rt, "output", console.output(), b"hi".as_slice());
    same(&rt, "next", console.next(), Some(b'x'));
    same(&rt, "next", console.next(), None);
    same(&rt, "input left", console.left(), 0);
    Ok(())
}
