//! Bytes and words in a program's buffer (INT 67h functions 4Eh, 50h and 57h; XMS 3.0, function 0Bh); offsets wrap in
//! their segment.

ghost use Rattle.std.specs.Prelude.{◌≡◌, ◌<◌, ◌+◌, ◌%◌};
ghost use Rattle.dm_space.specs.EightBytes.{byte_after};
ghost use Rattle.dm_space.specs.moves.Buffers.{word_after};

use crate::Space;

/// The offset `places` bytes after `offset`, modulo 65,536.
fn onward(offset: u16, places: usize) -> u16
    requires { places < 0x100000 }
    ensures { result ≡ (offset + places) % 65536 }
{
    ((offset as usize + places) % 0x1_0000) as u16
}

/// The byte `places` bytes after segment:offset.
pub fn byte_after(space: &Space, segment: u16, offset: u16, places: usize) -> u8
    requires { places < 0x100000 }
    ensures { result ≡ byte_after space.now.memory segment offset places }
{
    space.peek(segment, onward(offset, places))
}

/// The word `places` bytes after segment:offset.
pub fn word_after(space: &Space, segment: u16, offset: u16, places: usize) -> u16
    requires { places < 0x100000 }
    ensures { result ≡ word_after space.now.memory segment offset places }
{
    space.peek16(segment, onward(offset, places))
}
