//! The calls that give what a host's machine holds, or the findings of its last checked run. Each returns a status, 0
//! or that of the refusal, or 4 if the buffer is too small for all; then `wanted` alone is set, beside `end` of
//! `blocks`.
ghost use Rattle.std.specs.Prelude.{◌≡◌};
ghost use Rattle.dm_c.specs.calls.Lists.{end_of, BlocksTo, PageHandlesTo, WindowsTo, ExtendedBlocksTo, UpperBlocksTo, HighMemoryTo, ReadsPageTo, ReadsBlockTo, FindingsTo, FindingCountsTo, FindingLineTo};
ghost use Rattle.dm_views.specs.inventory.Pages.{truth_number};

use crate::calls::values::{OK, give_items, status_by};
use dm_host::Host;
use dm_views::inventory::{ArenaBlock, ExtendedBlock, FoundRecord, PageHandle, UpperBlock, Window};
use std::alloc::Global;

/// How the lists of the arena's headers end: whether one is destroyed (1, otherwise 0), and the segment where that
/// breaks, as no header can follow there.
#[repr(C)]
#[derive(Clone, Copy, Debug, PartialEq, Eq)]
pub struct ListEnd {
    pub destroyed: u16,
    pub at: u16,
}

/// How the lists end, by the segment where one breaks.
fn end_of(broken: Option<u16>) -> ListEnd
    ensures { result ≡ end_of broken }
{
    match broken {
        Some(at) => ListEnd { destroyed: 1, at },
        None => ListEnd {
            destroyed: 0,
            at: 0,
        },
    }
}

/// A truth value as a number.
fn number_of(b: bool) -> u32
    ensures { result ≡ truth_number b }
{
    if b { 1 } else { 0 }
}

/// Copies the headers of the arena to the front of the buffer if they fit, sets `wanted` to how many they are, and
/// `end` to how their lists end. Status 14 if no program is loaded, 3 if an allocation failed; then nothing changes.
pub fn blocks(
    alloc: Global,
    host: &Host,
    buffer: &mut [ArenaBlock],
    wanted: &mut usize,
    end: &mut ListEnd,
) -> u32
    ensures { BlocksTo host.now buffer.old buffer.new wanted.old wanted.new end.old end.new result host.now }
{
    status_by!(host.blocks(alloc), (blocks, broken) => {
        *end = end_of(broken);
        give_items(blocks.as_slice(), buffer, wanted)
    })
}

/// Copies the handles of expanded memory in use to the front of the buffer if they fit, and sets `wanted` to how many
/// they are. Status 14 if no program is loaded, 3 if an allocation failed; then nothing changes.
pub fn page_handles(
    alloc: Global,
    host: &Host,
    buffer: &mut [PageHandle],
    wanted: &mut usize,
) -> u32
    ensures { PageHandlesTo host.now buffer.old buffer.new wanted.old wanted.new result host.now }
{
    status_by!(host.page_handles(alloc), handles => give_items(handles.as_slice(), buffer, wanted))
}

/// Copies what the four windows of the page frame show to the front of the buffer if they fit, and sets `wanted` to 4.
/// Status 14, and no change, if no program is loaded.
pub fn windows(host: &Host, buffer: &mut [Window], wanted: &mut usize) -> u32
    ensures { WindowsTo host.now buffer.old buffer.new wanted.old wanted.new result host.now }
{
    status_by!(host.windows(), windows => give_items(&windows, buffer, wanted))
}

/// Copies the blocks of the handles of extended memory in use to the front of the buffer if they fit, and sets `wanted`
/// to how many they are. Status 14 if no program is loaded, 3 if an allocation failed; then nothing changes.
pub fn extended_blocks(
    alloc: Global,
    host: &Host,
    buffer: &mut [ExtendedBlock],
    wanted: &mut usize,
) -> u32
    ensures { ExtendedBlocksTo host.now buffer.old buffer.new wanted.old wanted.new result host.now }
{
    status_by!(host.extended_blocks(alloc), blocks => give_items(blocks.as_slice(), buffer, wanted))
}

/// Copies the upper memory blocks of the extended memory driver to the front of the buffer if they fit, and sets
/// `wanted` to how many they are. Status 14 if no program is loaded, 3 if an allocation failed; then nothing changes.
pub fn upper_blocks(
    alloc: Global,
    host: &Host,
    buffer: &mut [UpperBlock],
    wanted: &mut usize,
) -> u32
    ensures { UpperBlocksTo host.now buffer.old buffer.new wanted.old wanted.new result host.now }
{
    status_by!(host.upper_blocks(alloc), blocks => give_items(blocks.as_slice(), buffer, wanted))
}

/// Sets `a20` to whether address line A20 is on, and `used` to whether the high memory area is taken. Status 14, and no
/// change, if no program is loaded.
pub fn high_memory(host: &Host, a20: &mut u32, used: &mut u32) -> u32
    ensures { HighMemoryTo host.now a20.old a20.new used.old used.new result host.now }
{
    status_by!(host.high_memory(), (on, taken) => {
        *a20 = number_of(on);
        *used = number_of(taken);
        OK
    })
}

/// Fills the buffer with bytes of a logical page of a handle of expanded memory, from an offset in the page on. Status
/// 14 if no program is loaded, 26 if the handle is not in use, 27 if it has no such page, 28 if not all of the bytes
/// are in the page; then nothing changes.
pub fn read_page(host: &Host, handle: u16, page: u16, offset: usize, buffer: &mut [u8]) -> u32
    ensures { ReadsPageTo host.now handle page offset buffer.old buffer.new result host.now }
{
    status_by!(host.read_page(handle, page, offset, buffer))
}

/// Fills the buffer with bytes of the block of a handle of extended memory, from an offset in the block on. Status 14
/// if no program is loaded, 26 if the handle is not in use, 28 if not all of the bytes are in its block; then nothing
/// changes.
pub fn read_block(host: &Host, handle: u16, offset: usize, buffer: &mut [u8]) -> u32
    ensures { ReadsBlockTo host.now handle offset buffer.old buffer.new result host.now }
{
    status_by!(host.read_block(handle, offset, buffer))
}

/// Copies the findings that the report of the last checked run lists to the front of the buffer if they fit, and sets
/// `wanted` to how many they are. Status 3, and no change, if an allocation failed.
pub fn findings(alloc: Global, host: &Host, buffer: &mut [FoundRecord], wanted: &mut usize) -> u32
    ensures { FindingsTo host.now buffer.old buffer.new wanted.old wanted.new result host.now }
{
    status_by!(host.findings(alloc), records => give_items(records.as_slice(), buffer, wanted))
}

/// Sets `errors` and `notes` to how many of each the last checked run had, and `omitted` to how many findings its
/// report neither lists nor counts as further occurrences of one that it lists.
pub fn finding_counts(host: &Host, errors: &mut u64, notes: &mut u64, omitted: &mut u64) -> u32
    ensures { FindingCountsTo host.now errors.new notes.new omitted.new result host.now }
{
    let report = host.report();
    *errors = report.errors();
    *notes = report.notes();
    *omitted = report.omitted();
    OK
}

/// Copies the line of finding `k`, from 0, of that report to the front of the buffer if it fits, and sets `wanted` to
/// how many bytes it has. Status 29 if the report lists no finding `k`, 3 if an allocation failed; then nothing
/// changes.
pub fn finding_line(
    alloc: Global,
    host: &Host,
    k: usize,
    buffer: &mut [u8],
    wanted: &mut usize,
) -> u32
    ensures { FindingLineTo host.now k buffer.old buffer.new wanted.old wanted.new result host.now }
{
    status_by!(host.finding_line(alloc, k), text => give_items(text.as_slice(), buffer, wanted))
}
