//! The handles of extended memory and the upper memory blocks as records (XMS 3.0). An `Err` is a failed allocation.
ghost use Rattle.std.specs.Prelude.{◌≡◌, ◌<◌, ◌++◌, OnOk};
ghost use Rattle.dm_views.specs.inventory.Records.{record_list};
ghost use Rattle.dm_views.specs.inventory.Extended.{extended_record, extended_records, upper_of, upper_records};

use dm_space::Space;
use dm_xms::{Upper, Xms};
use std::alloc::AllocError;

/// The number of handles of extended memory (1 to 64), and the largest number of upper memory blocks.
const MOST: u16 = 64;

/// A block of extended memory: the linear address of its first byte (110000h for a block of 0 KiB), how often it is
/// locked, its handle, and its size in KiB.
#[repr(C)]
#[derive(Clone, Copy, Debug, PartialEq, Eq)]
pub struct ExtendedBlock {
    pub address: u64,
    pub locks: u32,
    pub handle: u16,
    pub kib: u16,
}

/// An upper memory block of the extended memory driver: its segment, and its size in paragraphs.
#[repr(C)]
#[derive(Clone, Copy, Debug, PartialEq, Eq)]
pub struct UpperBlock {
    pub segment: u16,
    pub size: u16,
}

/// Appends the record of the block of handle `before + 1`, if the handle is in use, otherwise nothing.
fn put_block(
    out: &mut Vec<ExtendedBlock>,
    xms: &Xms,
    space: &Space,
    before: u16,
) -> Result<(), AllocError>
    requires { before < 64 }
    ensures { OnOk result (out.new.items ≡ out.old.items
        ++ record_list (extended_record xms.now space.now.memory before)) }
{
    let handle = before + 1;
    let Some(slot) = xms.handle(handle) else {
        return Ok(());
    };
    out.push(ExtendedBlock {
        address: slot.begin_address(space) as u64,
        locks: slot.locks as u32,
        handle,
        kib: slot.kib,
    })?;
    Ok(())
}

/// Appends the records of the blocks of the handles in use, in rising order.
///
/// # Errors
///
/// A failed allocation.
pub fn list_extended(
    out: &mut Vec<ExtendedBlock>,
    xms: &Xms,
    space: &Space,
) -> Result<(), AllocError>
    ensures { OnOk result (out.new.items ≡ out.old.items ++ extended_records xms.now space.now.memory) }
{
    for before in 0..MOST {
        put_block(out, xms, space, before)?;
    }
    Ok(())
}

/// Appends the record of an upper memory block; nothing for None.
fn put_upper(out: &mut Vec<UpperBlock>, upper: Option<Upper>) -> Result<(), AllocError>
    ensures { OnOk result (out.new.items ≡ out.old.items ++ record_list (upper_of upper)) }
{
    let Some(upper) = upper else {
        return Ok(());
    };
    out.push(UpperBlock {
        segment: upper.segment,
        size: upper.paragraphs,
    })?;
    Ok(())
}

/// Appends the records of the upper memory blocks, by rising segment.
///
/// # Errors
///
/// A failed allocation.
pub fn list_uppers(out: &mut Vec<UpperBlock>, xms: &Xms) -> Result<(), AllocError>
    ensures { OnOk result (out.new.items ≡ out.old.items ++ upper_records xms.now) }
{
    for number in 0..MOST {
        put_upper(out, xms.upper_block(number as usize))?;
    }
    Ok(())
}
