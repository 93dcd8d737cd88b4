//! Whether the arena continues in upper memory (function 58h, AL = 2 and 3).
ghost use Rattle.std.specs.Prelude.{◌≡◌};
ghost use Rattle.dm_arena.specs.Linking.{Links, TellsLinked};

use crate::refusal::ArenaRefusal;
use crate::writing::write_header;
use dm_blocks::{ListedHeader, before_link, has_second, is_arena, is_linked};
use dm_space::Space;

/// Whether the list is linked with that of upper memory: it has the link block's header (MS-DOS
/// Programmer's Reference, function 5802h).
///
/// # Errors
///
/// `Destroyed` where memory spells no clear list.
pub fn linked(space: &Space) -> Result<bool, ArenaRefusal>
    ensures { TellsLinked space.now.memory result }
{
    if !is_arena(space) {
        return Err(ArenaRefusal::Destroyed);
    }
    Ok(is_linked(space))
}

/// Links the list with that of upper memory (`on`), or unlinks the two (MS-DOS Programmer's Reference,
/// function 5803h). Where they are linked, or unlinked, as asked already, nothing changes.
///
/// Byte 0 of the header before the link block's is all that changes: `M` if linked, `Z` if not.
///
/// # Errors
///
/// `Destroyed` where memory spells no clear list; or, to link, where the list's last block doesn't end at
/// the link block's header, or memory spells no second list there, or the first followed by the
/// second isn't clear. Then no byte changes.
pub fn link(space: &mut Space, on: bool) -> Result<(), ArenaRefusal>
    ensures memory { Links space.old.memory on result space.new.memory }
    ensures scratch { space.new.scratch ≡ space.old.scratch }
{
    if !is_arena(space) {
        return Err(ArenaRefusal::Destroyed);
    }
    if is_linked(space) == on {
        return Ok(());
    }
    let Some(listed) = before_link(space) else {
        return Err(ArenaRefusal::Destroyed);
    };
    if on && !has_second(space) {
        return Err(ArenaRefusal::Destroyed);
    }
    write_header(
        space,
        ListedHeader {
            last: !on,
            ..listed
        },
    );
    Ok(())
}
