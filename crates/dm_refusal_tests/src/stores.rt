//! Regions, stores of bytes, stores of programs, and consoles.
ghost use Rattle.dm_proc.specs.Programs.{IsName};

use crate::telling::{tell, tell_refused};
use anyhow::Result;
use dm_console::Console;
use dm_pool::{NewError, Sizes, Store};
use dm_proc::{AddError, Programs};
use dm_region::Region;
use std::alloc::{AllocError, Global};

/// Whether a region of three bytes is three zeros; `AllocError` if no region is made.
fn are_zeros(alloc: Global) -> Result<bool, AllocError> {
    let mut region = Region::new(alloc, 3)?;
    region.fill_up(3);
    Ok(region.part(0, 3) == [0, 0, 0].as_slice())
}

/// A region of some zeros.
pub(crate) fn make_region(rt: &impl Print, alloc: Global) -> Result<()> {
    let call = "Region::new";
    let zeros = match are_zeros(alloc) {
        Ok(zeros) => zeros,
        Err(_) => {
            tell_refused(rt, call, true)?;
            are_zeros(alloc)?
        }
    };
    tell(rt, call, if zeros { "three zeros" } else { "others" })
}

/// A store with a page, and a KiB more.
pub(crate) fn make_store(rt: &impl Print, alloc: Global) -> Result<()> {
    let call = "Store::new";
    let sizes = Sizes {
        ems_pages: 1,
        xms_kib: 1,
    };
    let store = match Store::new(alloc, sizes) {
        Ok(store) => store,
        Err(error) => {
            tell_refused(rt, call, error == NewError::Memory)?;
            Store::new(alloc, sizes)?
        }
    };
    println!(rt; "{call}: {} KiB free", store.free_units())?;
    Ok(())
}

/// The names of programs. The bytes of each are its name.
const NAMES: [&[u8]; 5] = [b"A.COM", b"B.COM", b"C.COM", b"D.COM", b"E.COM"];

/// Whether the store has the first `count` of the programs, and none of the others.
fn has_first(programs: &Programs, count: usize) -> bool {
    for (index, name) in NAMES.iter().enumerate() {
        let wanted = if index < count { Some(*name) } else { None };
        if programs.find(name) != wanted {
            return false;
        }
    }
    true
}

/// Adds a program to a store that has this many.
fn add(
    rt: &impl Print,
    alloc: Global,
    programs: &mut Programs,
    count: u8,
    name: &[u8],
) -> Result<()>
    requires { IsName name.now }
{
    let call = "Programs::add";
    let file = Vec::from_slice(alloc, name)?;
    if let Err(error) = programs.add(alloc, name, file) {
        let unchanged = has_first(programs, count as usize);
        tell_refused(rt, call, unchanged && error == AddError::Memory)?;
        programs.add(alloc, name, Vec::from_slice(alloc, name)?)?;
    }
    let added = has_first(programs, count as usize + 1);
    tell(rt, call, if added { "added" } else { "others" })
}

/// A store of programs, which grows as one after the other is added.
pub(crate) fn add_programs(rt: &impl Print, alloc: Global) -> Result<()> {
    let mut programs = Programs::new(alloc);
    add(rt, alloc, &mut programs, 0, b"A.COM")?;
    add(rt, alloc, &mut programs, 1, b"B.COM")?;
    add(rt, alloc, &mut programs, 2, b"C.COM")?;
    add(rt, alloc, &mut programs, 3, b"D.COM")?;
    add(rt, alloc, &mut programs, 4, b"E.COM")
}

/// Whether a console has this room, this output and this input.
fn has(console: &Console, room: usize, output: &[u8], input: &[u8]) -> bool {
    console.room() == room && console.output() == output && console.input() == input
}

/// Reserves room in a console that has some room left, some output and some input.
fn reserve(
    rt: &impl Print,
    console: &mut Console,
    room: usize,
    output: &[u8],
    input: &[u8],
    bytes: usize,
) -> Result<()> {
    let call = "Console::reserve";
    if let Err(_) = console.reserve(bytes) {
        tell_refused(rt, call, has(console, room, output, input))?;
        console.reserve(bytes)?;
    }
    let made = has(console, bytes, output, input);
    tell(rt, call, if made { "made" } else { "others" })
}

/// A console with room for two bytes, and, when one is written and one is read, for a hundred.
pub(crate) fn make_room(rt: &impl Print, alloc: Global) -> Result<()> {
    let input = Vec::from_slice(alloc, b"in")?;
    let mut console = Console::new(alloc, input);
    reserve(rt, &mut console, 0, b"", b"in", 2)?;
    if console.room() > 0 {
        console.put(b'a');
    }
    console.next();
    reserve(rt, &mut console, 1, b"a", b"n", 100)
}
