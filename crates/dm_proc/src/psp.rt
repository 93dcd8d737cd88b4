//! The program segment prefix (MS-DOS Programmer's Reference, "Program Segment Prefix"), built in a buffer from its
//! first byte on.
ghost use Rattle.std.specs.Prelude.{◌≡◌, ◌+◌, ◌≤◌, ◌++◌, length};
ghost use Rattle.dm_proc.specs.Writes.{bytes_from};
ghost use Rattle.dm_proc.specs.Start.{word_bytes, zeros, prefix};
ghost use Rattle.dm_proc.specs.inner.Placed.{as_placed};
ghost use Rattle.dm_proc.specs.Request.{passed_of};

use crate::arguments::Arguments;
use crate::placed::Blocks;
use arrayvec::ArrayVec;
use dm_space::Space;

/// The bytes of a program segment prefix, from offset 0 on, as far as they are built.
pub(crate) type Prefix = ArrayVec<u8, 256>;

/// Appends a word, low byte first.
fn push_word(prefix: &mut Prefix, word: u16)
    requires { length prefix.old.items + 2 ≤ 256 }
    ensures items { prefix.new.items ≡ prefix.old.items ++ word_bytes word }
    ensures count { length prefix.new.items ≡ length prefix.old.items + 2 }
{
    let [low, high] = word.to_le_bytes();
    prefix.push(low);
    prefix.push(high);
}

/// Appends bytes.
fn push_bytes(prefix: &mut Prefix, bytes: &[u8])
    requires { length prefix.old.items + length bytes.now ≤ 256 }
    ensures items { prefix.new.items ≡ prefix.old.items ++ bytes.now }
    ensures count { length prefix.new.items ≡ length prefix.old.items + length bytes.now }
{
    for byte in bytes {
        prefix.push(*byte);
    }
}

/// Appends `count` zeros.
fn push_zeros(prefix: &mut Prefix, count: usize)
    requires { length prefix.old.items + count ≤ 256 }
    ensures items { prefix.new.items ≡ prefix.old.items ++ zeros count }
    ensures count { length prefix.new.items ≡ length prefix.old.items + count }
{
    for _ in 0..count {
        prefix.push(0);
    }
}

/// Appends `count` bytes of guest memory from segment:offset on; offsets wrap. For the prefix, the command tail of 4Bh,
/// and the vectors that the end of a process restores.
pub(crate) fn push_guest<const N: usize>(
    bytes: &mut ArrayVec<u8, N>,
    space: &Space,
    segment: u16,
    offset: u16,
    count: usize,
)
    requires room { length bytes.old.items + count ≤ N }
    requires few { count ≤ 256 }
    ensures items { bytes.new.items ≡ bytes.old.items ++ bytes_from space.now.memory segment offset count }
    ensures count { length bytes.new.items ≡ length bytes.old.items + count }
{
    for index in 0..count {
        bytes.push(space.peek(segment, offset.wrapping_add(index as u16)));
    }
}

/// Builds the 256 bytes of the program segment prefix of a new process; the caller writes them. `parent` is the
/// segment of the parent's prefix. Of guest memory only the vectors 22h to 24h are read, so it is called before the
/// start writes anything.
#[tactic(auto, unfolding(crate::specs::Start::prefix))]
pub(crate) fn make_prefix(
    space: &Space,
    blocks: Blocks,
    parent: u16,
    arguments: &Arguments,
) -> Prefix
    ensures items { result.items ≡ prefix space.now.memory (as_placed blocks) parent (passed_of arguments.now) }
    ensures count { length result.items ≡ 256 }
{
    let tail = arguments.tail.as_slice();
    let mut prefix = Prefix::new();
    push_bytes(&mut prefix, &[0xCD, 0x20]);
    push_word(&mut prefix, blocks.program.wrapping_add(blocks.size));
    push_zeros(&mut prefix, 6);
    push_guest(&mut prefix, space, 0, 0x88, 12);
    push_word(&mut prefix, parent);
    push_zeros(&mut prefix, 20);
    push_word(&mut prefix, blocks.environment_segment);
    push_zeros(&mut prefix, 34);
    push_bytes(&mut prefix, &[0xCD, 0x21, 0xCB]);
    push_zeros(&mut prefix, 9);
    push_bytes(&mut prefix, &arguments.first);
    push_bytes(&mut prefix, &arguments.second);
    push_zeros(&mut prefix, 4);
    prefix.push(tail.len() as u8);
    push_bytes(&mut prefix, tail);
    prefix.push(0x0D);
    push_zeros(&mut prefix, 126 - tail.len());
    prefix
}
