//! A copy of a machine, put into a handle.
ghost use Rattle.std.specs.Prelude.{◌≡◌};
ghost use Rattle.dm_c.specs.Handles.{CopiesTo};

use crate::calls::{IN_USE, OK, OUT_OF_MEMORY, status_of};
use crate::handle::MachineHandle;
use dm_host::Host;
use std::alloc::Global;

/// Puts a copy of the host into a handle, which must hold no machine: the status is 2 if it holds one, 3 if an
/// allocation failed, and then the handle stays.
pub(crate) fn copy(alloc: Global, host: &Host, copy: &mut MachineHandle) -> u32
    ensures { CopiesTo host.now copy.old.inside.value copy.new.inside.value result }
{
    if copy.is_held() {
        return IN_USE;
    }
    let host = match host.duplicate(alloc) {
        Ok(host) => host,
        Err(refusal) => return status_of(refusal),
    };
    match Box::new(alloc, host) {
        Ok(host) => {
            copy.put(host);
            OK
        }
        Err(_) => OUT_OF_MEMORY,
    }
}
