//! The handle by which C holds a machine.
ghost use Rattle.std.specs.Prelude.{◌≡◌, Some, None, is_some, option_map};
ghost use denote.RawPtr.{null_ptr};
ghost use Rattle.dm_c.specs.Held.{HasItsTag};

use crate::inside::Inside;
use crate::loose::Loose;
use dm_host::Host;
use std::alloc::Global;

/// The tag of a handle that holds a machine; a handle with any other tag holds none.
const HELD: u64 = 0x6D65_7A67_756C_6431;

/// The status of a call on the machine of a handle, which holds the machine again afterwards; the function returns
/// `NO_MACHINE` if the handle holds none.
macro_rules! on_machine {
    ($handle:ident, $alloc:ident, $host:ident => $call:expr) => {{
        let Some(mut $host) = $handle.take($alloc) else {
            return $crate::calls::NO_MACHINE;
        };
        let status = $call;
        $handle.put($host);
        status
    }};
}

pub(crate) use on_machine;

/// A machine, or none, as C holds it. The tag says which.
#[repr(C)]
#[derive(Drop)]
pub struct MachineHandle {
    pub(crate) inside: Inside,
    tag: u64,
    ghost tagged: { HasItsTag inside.value tag },
}

impl MachineHandle {
    /// A handle that holds no machine, with a null pointer and a tag of 0, as `MEZGULD_NONE` of C.
    pub(crate) fn none() -> MachineHandle
        ensures { (result.inside.value ≡ None) × (result.inside.at ≡ null_ptr) × (result.tag ≡ 0) }
    {
        MachineHandle {
            inside: Inside::none(),
            tag: 0,
        }
    }

    /// A handle that holds this machine.
    fn of(host: Box<Host>) -> MachineHandle
        ensures { result.inside.value ≡ Some host.value }
    {
        MachineHandle {
            inside: Inside::of(Loose::of(host)),
            tag: HELD,
        }
    }

    /// Whether the handle holds a machine.
    pub(crate) fn is_held(&self) -> bool
        ensures { result ≡ is_some self.now.inside.value }
    {
        self.tag == HELD
    }

    /// Takes the machine out of the handle, which holds none then. None if there was none.
    pub(crate) fn take(&mut self, alloc: Global) -> Option<Box<Host>>
        ensures machine { option_map (λ b. b.value) result ≡ self.old.inside.value }
        ensures left { self.new.inside.value ≡ None }
    {
        if !self.is_held() {
            return None;
        }
        let MachineHandle { inside, tag: _ } = std::mem::replace(self, MachineHandle::none());
        Some(inside.into_loose(alloc).into_box())
    }

    /// Puts a machine into a handle that holds none.
    pub(crate) fn put(&mut self, host: Box<Host>)
        requires { self.old.inside.value ≡ None }
        ensures { self.new.inside.value ≡ Some host.value }
    {
        *self = MachineHandle::of(host);
    }
}
