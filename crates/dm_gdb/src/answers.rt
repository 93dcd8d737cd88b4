//! What is replied to requests for registers and memory.

ghost use Rattle.std.specs.Prelude.{◌≡◌, IfOk};
ghost use Rattle.dm_gdb.specs.Servers.{memory_reply, register_reply};

use crate::replies::{BAD, NO_MEMORY, Reply};
use dm_machine::Machine;
use dm_requests::packets::Payload;
use dm_space::Space;
use dm_target::{LAST, bytes_from, has_register, put_register, readable};
use std::alloc::{AllocError, Global};

/// `p`: the bytes of a register. An `Err` is a failed allocation.
pub(crate) fn register_reply(
    alloc: Global,
    machine: &Machine,
    number: u32,
) -> Result<Reply, AllocError>
    ensures { IfOk result (λ r. r ≡ register_reply machine.now number) }
{
    if !has_register(number) {
        return Ok(Reply::Refused(BAD));
    }
    let mut bytes = Vec::new(alloc);
    put_register(&mut bytes, machine, number)?;
    Ok(Reply::Bytes(Payload::new(bytes)))
}

/// `m`: bytes of memory. An `Err` is a failed allocation.
pub(crate) fn memory_reply(
    alloc: Global,
    space: &Space,
    address: u32,
    count: u32,
) -> Result<Reply, AllocError>
    ensures { IfOk result (λ r. r ≡ memory_reply space.now.memory address count) }
{
    if LAST < address {
        return Ok(Reply::Refused(NO_MEMORY));
    }
    let bytes = bytes_from(alloc, space, address, readable(address, count))?;
    Ok(Reply::Bytes(Payload::new(bytes)))
}
