//! Writing bytes of guest memory to the console, as INT 21h function 40h does.
ghost use Rattle.std.specs.Prelude.{◌≡◌, ◌≤◌, ◌-◌, ◌++◌};
ghost use Rattle.dm_proc.specs.Writes.{bytes_from};

use dm_console::Console;
use dm_space::Space;

/// Appends the `count` bytes at segment:offset to the console's output; offsets wrap at 65,536. The console's room must
/// be at least `count`, and decreases by `count`.
pub(crate) fn send(console: &mut Console, space: &Space, segment: u16, offset: u16, count: u16)
    requires { count ≤ console.old.room }
    ensures { console.new ≡ record console.old {
      output = console.old.output ++ bytes_from space.now.memory segment offset count;
      room = console.old.room - count;
    } }
{
    for index in 0..count {
        console.put(space.peek(segment, offset.wrapping_add(index)));
    }
}
