//! The page frame (LIM EMS 4.0, function 25; INT 67h function 58h).

ghost use Rattle.std.specs.Prelude.{◌≡◌};
ghost use Rattle.dm_ems.specs.Tables.{expanded};
ghost use Rattle.dm_ems.specs.Frame.{list_frame};

use crate::tables::Ems;
use dm_space::Space;

/// The segment and the number of each window, two words each, low byte first.
const FRAME: [u8; 16] = [
    0x00, 0xE0, 0, 0, 0x00, 0xE4, 1, 0, 0x00, 0xE8, 2, 0, 0x00, 0xEC, 3, 0,
];

impl Ems {
    /// 58h, AL = 0: writes the segment and the number of each window, 16 bytes, at segment:offset. The scratch part
    /// stays.
    pub fn list_frame(&self, space: &mut Space, segment: u16, offset: u16)
        ensures left { expanded self.now space.new.memory ≡ list_frame (expanded self.now
            space.old.memory) segment offset }
        ensures kept { space.new ≡ record space.old { memory = space.new.memory } }
    {
        space.write_bytes(segment, offset, &FRAME);
    }
}
