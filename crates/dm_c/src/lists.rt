//! The exports that give what the machine of a handle holds, and the findings of its last checked run. As in
//! `exports.rt`, the status is 1 if the handle holds no machine, and 14 if no program is loaded, unless the export says
//! that none need be; nothing changes then.
ghost use Rattle.std.specs.Prelude.{◌≡◌};
ghost use Rattle.dm_c.specs.Endings.{IsCall};
ghost use Rattle.dm_c.specs.calls.Lists.{BlocksTo, PageHandlesTo, WindowsTo, ExtendedBlocksTo, UpperBlocksTo, HighMemoryTo, ReadsPageTo, ReadsBlockTo, FindingsTo, FindingCountsTo, FindingLineTo};

use crate::calls;
use crate::calls::ListEnd;
use crate::handle::{MachineHandle, on_machine};
use dm_views::inventory::{ArenaBlock, ExtendedBlock, FoundRecord, PageHandle, UpperBlock, Window};
use std::alloc::Global;

/// Copies the headers of the arena, those of the first list and then those of upper memory where the first does not
/// lead to them, to the front of the buffer, and sets `wanted` to how many they are and `end` to how their lists end.
/// If they do not fit, the status is 4, and the buffer stays; with any other but 0 nothing changes.
#[unsafe(no_mangle)]
pub extern "C" fn dm_c_blocks(
    alloc: Global,
    machine: &mut MachineHandle,
    buffer: &mut [ArenaBlock],
    wanted: &mut usize,
    end: &mut ListEnd,
) -> u32
    ensures { IsCall machine.old.inside.value machine.new.inside.value ((result ≡ 1) × (buffer.new ≡ buffer.old) ×
        (wanted.new ≡ wanted.old) × (end.new ≡ end.old)) (λ h g. BlocksTo h buffer.old buffer.new wanted.old wanted.new
        end.old end.new result g) }
{
    on_machine!(machine, alloc, host => calls::blocks(alloc, &host, buffer, wanted, end))
}

/// Copies the handles of expanded memory in use, by rising number, to the front of the buffer, and sets `wanted` to how
/// many they are. If they do not fit, the status is 4, and the buffer stays; with any other but 0 nothing changes.
#[unsafe(no_mangle)]
pub extern "C" fn dm_c_page_handles(
    alloc: Global,
    machine: &mut MachineHandle,
    buffer: &mut [PageHandle],
    wanted: &mut usize,
) -> u32
    ensures { IsCall machine.old.inside.value machine.new.inside.value ((result ≡ 1) × (buffer.new ≡ buffer.old) ×
        (wanted.new ≡ wanted.old)) (λ h g. PageHandlesTo h buffer.old buffer.new wanted.old wanted.new result g) }
{
    on_machine!(machine, alloc, host => calls::page_handles(alloc, &host, buffer, wanted))
}

/// Copies what the four windows of the page frame show to the front of the buffer, and sets `wanted` to 4. If they do
/// not fit, the status is 4, and the buffer stays; with any other but 0 nothing changes.
#[unsafe(no_mangle)]
pub extern "C" fn dm_c_windows(
    alloc: Global,
    machine: &mut MachineHandle,
    buffer: &mut [Window],
    wanted: &mut usize,
) -> u32
    ensures { IsCall machine.old.inside.value machine.new.inside.value ((result ≡ 1) × (buffer.new ≡ buffer.old) ×
        (wanted.new ≡ wanted.old)) (λ h g. WindowsTo h buffer.old buffer.new wanted.old wanted.new result g) }
{
    on_machine!(machine, alloc, host => calls::windows(&host, buffer, wanted))
}

/// Copies the blocks of the handles of extended memory in use, by rising handle, to the front of the buffer, and sets
/// `wanted` to how many they are. If they do not fit, the status is 4, and the buffer stays; with any other but 0
/// nothing changes.
#[unsafe(no_mangle)]
pub extern "C" fn dm_c_extended_blocks(
    alloc: Global,
    machine: &mut MachineHandle,
    buffer: &mut [ExtendedBlock],
    wanted: &mut usize,
) -> u32
    ensures { IsCall machine.old.inside.value machine.new.inside.value ((result ≡ 1) × (buffer.new ≡ buffer.old) ×
        (wanted.new ≡ wanted.old)) (λ h g. ExtendedBlocksTo h buffer.old buffer.new wanted.old wanted.new result g) }
{
    on_machine!(machine, alloc, host => calls::extended_blocks(alloc, &host, buffer, wanted))
}

/// Copies the upper memory blocks of the extended memory driver, by rising segment, to the front of the buffer, and
/// sets `wanted` to how many they are. If they do not fit, the status is 4, and the buffer stays; with any other but 0
/// nothing changes.
#[unsafe(no_mangle)]
pub extern "C" fn dm_c_upper_blocks(
    alloc: Global,
    machine: &mut MachineHandle,
    buffer: &mut [UpperBlock],
    wanted: &mut usize,
) -> u32
    ensures { IsCall machine.old.inside.value machine.new.inside.value ((result ≡ 1) × (buffer.new ≡ buffer.old) ×
        (wanted.new ≡ wanted.old)) (λ h g. UpperBlocksTo h buffer.old buffer.new wanted.old wanted.new result g) }
{
    on_machine!(machine, alloc, host => calls::upper_blocks(alloc, &host, buffer, wanted))
}

/// Sets `a20` to whether address line A20 is on, and `used` to whether the high memory area is taken (1 or 0). They
/// stay unless the status is 0.
#[unsafe(no_mangle)]
pub extern "C" fn dm_c_high_memory(
    alloc: Global,
    machine: &mut MachineHandle,
    a20: &mut u32,
    used: &mut u32,
) -> u32
    ensures { IsCall machine.old.inside.value machine.new.inside.value ((result ≡ 1) × (a20.new ≡ a20.old) ×
        (used.new ≡ used.old)) (λ h g. HighMemoryTo h a20.old a20.new used.old used.new result g) }
{
    on_machine!(machine, alloc, host => calls::high_memory(&host, a20, used))
}

/// Fills the buffer with bytes of a logical page of a handle of expanded memory, from an offset in the page on, whether
/// a window shows the page or not. The status is 26 if the handle is not in use, 27 if it has no such page, 28 if not
/// all of the bytes are in the page. The buffer stays unless the status is 0.
#[unsafe(no_mangle)]
pub extern "C" fn dm_c_read_page(
    alloc: Global,
    machine: &mut MachineHandle,
    handle: u16,
    page: u16,
    offset: usize,
    buffer: &mut [u8],
) -> u32
    ensures { IsCall machine.old.inside.value machine.new.inside.value ((result ≡ 1) ×
        (buffer.new ≡ buffer.old)) (λ h g. ReadsPageTo h handle page offset buffer.old buffer.new result g) }
{
    on_machine!(machine, alloc, host => calls::read_page(&host, handle, page, offset, buffer))
}

/// Fills the buffer with bytes of the block of a handle of extended memory, from an offset in the block on. The status
/// is 26 if the handle is not in use, 28 if not all of the bytes are in its block. The buffer stays unless the status
/// is 0.
#[unsafe(no_mangle)]
pub extern "C" fn dm_c_read_block(
    alloc: Global,
    machine: &mut MachineHandle,
    handle: u16,
    offset: usize,
    buffer: &mut [u8],
) -> u32
    ensures { IsCall machine.old.inside.value machine.new.inside.value ((result ≡ 1) ×
        (buffer.new ≡ buffer.old)) (λ h g. ReadsBlockTo h handle offset buffer.old buffer.new result g) }
{
    on_machine!(machine, alloc, host => calls::read_block(&host, handle, offset, buffer))
}

/// Copies the findings that the report of the last checked run lists (none before the first run) to the front of the
/// buffer, and sets `wanted` to how many they are. If they do not fit, the status is 4, and the buffer stays; with any
/// other but 0 nothing changes. No program need be loaded.
#[unsafe(no_mangle)]
pub extern "C" fn dm_c_findings(
    alloc: Global,
    machine: &mut MachineHandle,
    buffer: &mut [FoundRecord],
    wanted: &mut usize,
) -> u32
    ensures { IsCall machine.old.inside.value machine.new.inside.value ((result ≡ 1) × (buffer.new ≡ buffer.old) ×
        (wanted.new ≡ wanted.old)) (λ h g. FindingsTo h buffer.old buffer.new wanted.old wanted.new result g) }
{
    on_machine!(machine, alloc, host => calls::findings(alloc, &host, buffer, wanted))
}

/// Sets `errors` and `notes` to how many of each the last checked run had, and `omitted` to how many findings its
/// report neither lists nor counts as further occurrences of one that it lists. No program need be loaded.
#[unsafe(no_mangle)]
pub extern "C" fn dm_c_finding_counts(
    alloc: Global,
    machine: &mut MachineHandle,
    errors: &mut u64,
    notes: &mut u64,
    omitted: &mut u64,
) -> u32
    ensures { IsCall machine.old.inside.value machine.new.inside.value ((result ≡ 1) × (errors.new ≡ errors.old) ×
        (notes.new ≡ notes.old) × (omitted.new ≡ omitted.old)) (λ h g. FindingCountsTo h errors.new notes.new
        omitted.new result g) }
{
    on_machine!(machine, alloc, host => calls::finding_counts(&host, errors, notes, omitted))
}

/// Copies the line of finding `k`, from 0, of that report to the front of the buffer, and sets `wanted` to how many
/// bytes it has. If they do not fit, the status is 4, and only `wanted` changes; it is 29 if the report lists no
/// finding `k`, and then nothing changes. No program need be loaded.
#[unsafe(no_mangle)]
pub extern "C" fn dm_c_finding_line(
    alloc: Global,
    machine: &mut MachineHandle,
    k: usize,
    buffer: &mut [u8],
    wanted: &mut usize,
) -> u32
    ensures { IsCall machine.old.inside.value machine.new.inside.value ((result ≡ 1) × (buffer.new ≡ buffer.old) ×
        (wanted.new ≡ wanted.old)) (λ h g. FindingLineTo h k buffer.old buffer.new wanted.old wanted.new result g) }
{
    on_machine!(machine, alloc, host => calls::finding_line(alloc, &host, k, buffer, wanted))
}
