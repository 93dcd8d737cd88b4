//! Since when handles are in use (LIM EMS 4.0; XMS 3.0).

ghost use Rattle.std.specs.Prelude.{◌≡◌, length};
ghost use Rattle.dm_origins.specs.Origins.{each_from, taken_handle, seen_handle, origin_since, has_handle, has_block};

use dm_ems::Ems;
use dm_findings::Origin;
use dm_xms::Xms;

/// Whether a handle is in use, and since when.
#[derive(Clone, Copy, Debug)]
pub enum Since {
    /// It is not in use.
    Unused,
    /// It is in use, since this step, or since before the run (None).
    Used(Option<Origin>),
}

/// How many handles there are of expanded memory, and of extended memory.
const HANDLES: usize = 64;

/// What is known of a handle that is in use: what was known, or, if it was not in use, that it is since this step.
fn taken(origin: Option<Origin>, known: Since) -> Since
    ensures { result ≡ taken_handle origin known }
{
    match known {
        Since::Unused => Since::Used(origin),
        Since::Used(earlier) => Since::Used(earlier),
    }
}

/// What is known of a handle, by whether it is in use, after a step, or before the run (None).
pub(crate) fn seen(used: bool, origin: Option<Origin>, known: Since) -> Since
    ensures { result ≡ seen_handle used origin known }
{
    if used {
        taken(origin, known)
    } else {
        Since::Unused
    }
}

impl Since {
    /// The step since which a handle is in use. None if it is since before the run, or not in use.
    pub(crate) fn origin(&self) -> Option<Origin>
        ensures { result ≡ origin_since self.now }
    {
        match *self {
            Since::Unused => None,
            Since::Used(origin) => origin,
        }
    }
}

/// Looks at the handles of expanded memory, after a step, or before the run (None).
pub(crate) fn look_at_handles(known: &mut [Since; 64], ems: &Ems, origin: Option<Origin>)
    ensures { known.new ≡ each_from (λ h x. seen_handle (has_handle ems.now h) origin x) 0 known.old }
{
    for handle in 0..HANDLES {
        known[handle] = seen(ems.slot(handle as u16).is_some(), origin, known[handle]);
    }
}

/// Looks at the handles of extended memory, from handle 1 on, after a step, or before the run (None).
pub(crate) fn look_at_blocks(known: &mut [Since; 64], xms: &Xms, origin: Option<Origin>)
    ensures { known.new ≡ each_from (λ h x. seen_handle (has_block xms.now h) origin x) 0 known.old }
{
    for before in 0..HANDLES {
        known[before] = seen(
            xms.handle(before as u16 + 1).is_some(),
            origin,
            known[before],
        );
    }
}
