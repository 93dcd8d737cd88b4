//! How large the block of a program is, in paragraphs (MS-DOS Programmer's Reference, "EXE File
//! Header" and function 4Bh).
ghost use Rattle.std.specs.Prelude.{◌≡◌, ◌≤◌, ◌<◌};
ghost use Rattle.dm_proc.specs.Room;

use dm_load::{Image, Kind};

/// The size of the program segment prefix in paragraphs.
const PREFIX: u32 = 0x10;

/// A size in paragraphs that no block reaches, for a program that takes the largest free block.
const ALL: u32 = 0xFFFF;

/// The number of paragraphs that hold `bytes` bytes.
fn paragraphs(bytes: usize) -> u32
    requires { bytes ≤ 0x200_0002 }
    ensures value { result ≡ Room.paragraphs bytes }
    ensures few { result ≤ 0x20_0001 }
{
    bytes.div_ceil(16) as u32
}

/// The least size of a program's block in paragraphs: the prefix, the image, and after it a COM
/// program's first word of stack, or the minimum of an MZ header.
#[tactic(auto, unfolding(crate::specs::Room::least))]
pub(crate) fn least(image: &Image) -> u32
    ensures value { result ≡ Room.least image.now }
    ensures few { result ≤ 0x30_0000 }
{
    let length = image.bytes().len();
    match image.kind() {
        Kind::Com => PREFIX + paragraphs(length + 2),
        Kind::Mz => PREFIX + paragraphs(length) + image.minimum() as u32,
    }
}

/// The size of a program's block in paragraphs where there is enough memory: all there is for a COM
/// program and for an MZ header with minimum and maximum 0, else prefix, image and maximum, but at
/// least `least`.
#[tactic(auto, unfolding(crate::specs::Room::most))]
pub(crate) fn most(image: &Image) -> u32
    ensures { result ≡ Room.most image.now }
{
    match image.kind() {
        Kind::Com => ALL,
        Kind::Mz => {
            if image.minimum() == 0 && image.maximum() == 0 {
                return ALL;
            }
            let asked = PREFIX + paragraphs(image.bytes().len()) + image.maximum() as u32;
            asked.max(least(image))
        }
    }
}
