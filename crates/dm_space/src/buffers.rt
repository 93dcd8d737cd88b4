//! Bytes written to the buffers of programs by functions of INT 21h and INT 67h, and to headers of a new arena.
ghost use Rattle.std.specs.Prelude.{◌≡◌, ◌<◌, length};
ghost use Rattle.dm_space.specs.Buffers.{with_bytes};

use crate::space::Space;

impl Space {
    /// Writes the bytes one by one, upwards from segment:offset on; offsets wrap. What is written to ROM, or where
    /// there is no memory, is lost.
    pub fn write_bytes(&mut self, segment: u16, offset: u16, bytes: &[u8])
        requires { length bytes.now < 65536 }
        ensures { self.new ≡ record self.old { memory = with_bytes self.old.memory segment offset bytes.now } }
    {
        for (index, byte) in bytes.iter().enumerate() {
            self.poke(segment, offset.wrapping_add(index as u16), *byte);
        }
    }
}
