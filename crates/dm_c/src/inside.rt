//! The pointer by which a handle holds a boxed machine.
ghost use Rattle.std.specs.Prelude.{◌≡◌, Option, Some, None, is_some, true};
ghost use Rattle.dm_host.specs.Hosts.{Hosted};
ghost use denote.RawPtr.{null_ptr};
ghost use Rattle.dm_c.specs.Held.{held_coded};
ghost use Rattle.dm_c.specs.inner.Held.{held};

use crate::loose::Loose;
use dm_host::Host;
use std::alloc::Global;
use std::marker::Model;
use std::ptr;

/// The pointer to a boxed machine, or null.
///
/// Contracts see the machine, if there is one.
#[repr(C)]
#[derive(Drop)]
pub struct Inside {
    at: *mut u8,
    pub ghost value: { Option Hosted } by { held_coded },
}

impl Model for Inside {
    ghost also_owns = { λ l. held l.at l.value };
}

impl Inside {
    /// A null pointer: no machine.
    pub(crate) fn none() -> Inside
        ensures { (result.value ≡ None) × (result.at ≡ null_ptr) }
    {
        Inside {
            at: ptr::null_mut(),
        }
    }

    /// The pointer of a box that was taken apart.
    pub(crate) fn of(value: Loose<Host, Global>) -> Inside
        ensures { result.value ≡ Some value.value }
    {
        let Loose { at, alloc: _ } = value;
        Inside { at: at as *mut u8 }
    }

    /// The parts of the box, its pointer and allocator. There must be a machine.
    pub(crate) fn into_loose(self, alloc: Global) -> Loose<Host, Global>
        requires { is_some self.value ≡ true }
        ensures { Some result.value ≡ self.value }
    {
        let Inside { at } = self;
        Loose {
            at: at as *mut Host,
            alloc,
        }
    }
}
