//! What is found of the bytes that an instruction touches (MS-DOS Programmer's Reference, "Arena header"; LIM EMS 4.0,
//! section 2). Each function `put_..` appends its findings to `out`; an `Err` is a failed allocation.

ghost use Rattle.std.specs.Prelude.{◌≡◌, ◌++◌, ◌+◌, ◌*◌, ◌≤◌, ◌<◌, OnOk, ℕ};
ghost use Rattle.dm_touches.specs.Elements.{linear_of, bytes_in, bytes_if, bytes_of};
ghost use Rattle.dm_touches.specs.Found.{is_between, first_that, if_some, is_in_free, is_in_tail, free_read, free_written, tail_written, of_header, window_lost, rom_written, nothing_written, of_places};

use crate::elements::{Element, Elements, FarAddress, Touched};
use dm_blocks::Header;
use dm_findings::Finding;
use dm_space::Space;
use std::alloc::AllocError;

/// Linear addresses from `first` up to but not including `end`.
#[derive(Clone, Copy)]
struct Range {
    first: u32,
    end: u32,
}

impl FarAddress {
    /// The linear address, by A20.
    pub fn linear(self, a20: bool) -> u32
        ensures { result ≡ linear_of a20 self }
    {
        let linear = self.segment as u32 * 16 + self.offset as u32;
        if a20 { linear } else { linear % 0x10_0000 }
    }
}

impl Range {
    /// Whether the linear address is in the range.
    fn has(self, at: u32) -> bool
        ensures { result ≡ is_between self.first self.end at }
    {
        at >= self.first && at < self.end
    }

    /// The first byte of an element that is in the range; None if there is none.
    fn first_in(self, a20: bool, element: Option<Element>) -> Option<FarAddress>
        ensures { result ≡ first_that a20 (is_between self.first self.end) (bytes_if element) }
    {
        let (byte, second) = match element {
            None => return None,
            Some(Element::Byte(segment, offset)) => (FarAddress { segment, offset }, None),
            Some(Element::Word(segment, offset)) => (
                FarAddress { segment, offset },
                Some(FarAddress {
                    segment,
                    offset: offset.wrapping_add(1),
                }),
            ),
        };
        if self.has(byte.linear(a20)) {
            return Some(byte);
        }
        match second {
            Some(byte) if self.has(byte.linear(a20)) => Some(byte),
            _ => None,
        }
    }

    /// The first byte of elements that is in the range; None if there is none.
    fn first_of(self, a20: bool, elements: &Elements) -> Option<FarAddress>
        ensures { result ≡ first_that a20 (is_between self.first self.end) (bytes_of elements.now) }
    {
        if let Some(byte) = self.first_in(a20, elements.first) {
            return Some(byte);
        }
        if let Some(byte) = self.first_in(a20, elements.second) {
            return Some(byte);
        }
        self.first_in(a20, elements.third)
    }
}

/// Whether the linear address is in the memory of the block behind the header, and the block is free.
pub fn is_in_free(header: &Header, at: u32) -> bool
    ensures { result ≡ is_in_free header.now at }
{
    let first = 16 * (header.segment as u32 + 1);
    header.owner == 0 && at >= first && at < first + 16 * header.size as u32
}

/// The first byte of elements that is in the memory of the block behind the header, if the block is free; None if there
/// is none.
fn first_in_free(a20: bool, elements: &Elements, header: &Header) -> Option<FarAddress>
    ensures { result ≡ first_that a20 (is_in_free header.now) (bytes_of elements.now) }
{
    if header.owner != 0 {
        return None;
    }
    let first = 16 * (header.segment as u32 + 1);
    let memory = Range {
        first,
        end: first + 16 * header.size as u32,
    };
    memory.first_of(a20, elements)
}

/// The first byte of elements that is one of bytes 5 to 15 of the header; None if there is none.
fn first_in_tail(a20: bool, elements: &Elements, header: &Header) -> Option<FarAddress>
    ensures { result ≡ first_that a20 (is_in_tail header.now) (bytes_of elements.now) }
{
    let first = 16 * header.segment as u32;
    let tail = Range {
        first: first + 5,
        end: first + 16,
    };
    tail.first_of(a20, elements)
}

/// Appends what is found of the bytes that an instruction touches at the block behind a header of a list that is valid:
/// that free memory is read, that free memory is written to, and that bytes 5 to 15 of the header are written to.
pub fn put_of_header(
    out: &mut Vec<Finding>,
    a20: bool,
    touched: &Touched,
    header: &Header,
) -> Result<(), AllocError>
    ensures { OnOk result (out.new.items ≡ out.old.items ++ of_header a20 (bytes_of touched.now.reads)
        (bytes_of touched.now.writes) header.now) }
{
    let block = header.segment.wrapping_add(1);
    if let Some(byte) = first_in_free(a20, &touched.reads, header) {
        out.push(Finding::FreeRead(block, byte.segment, byte.offset))?;
    }
    if let Some(byte) = first_in_free(a20, &touched.writes, header) {
        out.push(Finding::FreeWritten(block, byte.segment, byte.offset))?;
    }
    if let Some(byte) = first_in_tail(a20, &touched.writes, header) {
        out.push(Finding::TailWritten(header.segment, (byte.linear(a20) % 16) as u8))?;
    }
    Ok(())
}

/// Appends that a window of the frame, from 0, is written to, if it shows no page.
fn put_lost(
    out: &mut Vec<Finding>,
    space: &Space,
    writes: &Elements,
    window: u8,
) -> Result<(), AllocError>
    requires { window < 4 }
    ensures { OnOk result (out.new.items ≡ out.old.items ++ window_lost space.now.memory (bytes_of writes.now) window) }
{
    let windows = space.windows();
    if windows[window as usize].is_some() {
        return Ok(());
    }
    let first = 0xE_0000 + 0x4000 * window as u32;
    let frame = Range {
        first,
        end: first + 0x4000,
    };
    if let Some(byte) = frame.first_of(space.a20(), writes) {
        out.push(Finding::WindowLost(window, byte.segment, byte.offset))?;
    }
    Ok(())
}

/// Appends that the ROM is written to, if it is.
fn put_rom(out: &mut Vec<Finding>, a20: bool, writes: &Elements) -> Result<(), AllocError>
    ensures { OnOk result (out.new.items ≡ out.old.items ++ rom_written a20 (bytes_of writes.now)) }
{
    let rom = Range {
        first: 0xF_0000,
        end: 0x10_0000,
    };
    if let Some(byte) = rom.first_of(a20, writes) {
        out.push(Finding::RomWritten(byte.segment, byte.offset))?;
    }
    Ok(())
}

/// Appends that bytes are written to where there is no memory, if they are.
fn put_nothing(out: &mut Vec<Finding>, a20: bool, writes: &Elements) -> Result<(), AllocError>
    ensures { OnOk result (out.new.items ≡ out.old.items ++ nothing_written a20 (bytes_of writes.now)) }
{
    let nothing = Range {
        first: 0xC_0000,
        end: 0xD_0000,
    };
    if let Some(byte) = nothing.first_of(a20, writes) {
        out.push(Finding::NothingWritten(byte.segment, byte.offset))?;
    }
    Ok(())
}

/// Appends what is found of the bytes that an instruction writes by the map of memory alone: windows that show no page,
/// the ROM, and no memory.
pub fn put_of_places(
    out: &mut Vec<Finding>,
    space: &Space,
    writes: &Elements,
) -> Result<(), AllocError>
    ensures { OnOk result (out.new.items ≡ out.old.items ++ of_places space.now.memory (bytes_of writes.now)) }
{
    put_lost(out, space, writes, 0)?;
    put_lost(out, space, writes, 1)?;
    put_lost(out, space, writes, 2)?;
    put_lost(out, space, writes, 3)?;
    put_rom(out, space.a20(), writes)?;
    put_nothing(out, space.a20(), writes)
}
