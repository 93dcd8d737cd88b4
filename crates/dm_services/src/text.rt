//! Texts in memory that end at a `$` (MS-DOS Programmer's Reference, "Display String").
ghost use Rattle.std.specs.Prelude.{◌≡◌, ◌≤◌, ◌-◌, ◌++◌, length};
ghost use Rattle.dm_services.specs.Text.{print, text_at};
ghost use Rattle.dm_services.specs.inner.Wanting.{OrMemory};

use crate::state::{Parts, Stop};
use dm_console::Console;
use dm_space::Space;

/// How many bytes stand before the first `$` from segment:offset on; 65,536 where the segment has no `$`. Offsets wrap.
pub(crate) fn text_length(space: &Space, segment: u16, offset: u16) -> usize
    ensures { result ≡ length (text_at space.now.memory segment offset) }
{
    for index in 0..0x1_0000u32 {
        if space.peek(segment, offset.wrapping_add(index as u16)) == b'$' {
            return index as usize;
        }
    }
    0x1_0000
}

/// 09h: appends the text at segment:offset, without its `$`, to the console's output; the text has `length` bytes. The
/// console's room must be at least `length`, and decreases by `length`; the input stays.
pub(crate) fn write_text(
    console: &mut Console,
    space: &Space,
    segment: u16,
    offset: u16,
    length: usize,
)
    requires whole { length ≡ Rattle.std.specs.Prelude.length (text_at space.now.memory segment offset) }
    requires room { length ≤ console.old.room }
    ensures { console.new ≡ record console.old {
      output = console.old.output ++ text_at space.now.memory segment offset;
      room = console.old.room - length;
    } }
{
    for index in 0..length {
        console.put(space.peek(segment, offset.wrapping_add(index as u16)));
    }
}

/// 09h: writes the text at DS:DX, without its `$`, to the console; without a `$`, all 65,536 bytes of the segment. AX
/// stays. Returns `Memory`, with nothing changed, if the output's allocation fails.
#[tactic(auto, using(crate::proofs::Stores::lengths), unfolding(crate::specs::Text::print))]
pub(crate) fn print(parts: &mut Parts) -> Option<Stop>
    ensures answer { OrMemory parts.old (print parts.old) result parts.new }
    ensures program { parts.new.processes ≡ parts.old.processes }
{
    let segment = parts.cpu.ds;
    let offset = parts.cpu.dx;
    let length = text_length(&parts.space, segment, offset);
    if parts.console.reserve(length).is_err() {
        return Some(Stop::Memory);
    }
    write_text(&mut parts.console, &parts.space, segment, offset, length);
    parts.return_from_interrupt();
    parts.count();
    None
}
