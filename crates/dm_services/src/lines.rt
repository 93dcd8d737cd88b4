//! INT 21h function 0Ah, a line of the console (MS-DOS Programmer's Reference, "Buffered Keyboard Input"). Byte 0 of
//! the buffer is its size; the bytes kept of the line and a 0Dh are written from byte 2 on, and the count of those
//! bytes, without the 0Dh, to byte 1.
ghost use Rattle.std.specs.Prelude.{◌≡◌, ◌<◌, ◌≤◌, IfSome, length};
ghost use Rattle.dm_services.specs.inner.Wanting.{OrMemory};
ghost use Rattle.dm_services.specs.Lines.{line_length, kept_bytes, read_line};

use crate::state::{Parts, Stop};
use arrayvec::ArrayVec;

/// How many bytes of the input stand before the first 0Dh; None where there is no 0Dh.
#[tactic(auto, unfolding(crate::specs::Lines::line_length))]
fn line_length(input: &[u8]) -> Option<usize>
    ensures length { result ≡ line_length input.now }
    ensures within { IfSome result (λ n. n < length input.now) }
{
    input.iter().position(|byte| *byte == b'\r')
}

/// What a buffer for `size` bytes keeps of a line without its 0Dh: each 0Ah is dropped, and of the rest the first
/// `size` - 1 bytes are kept, none for a size of 0 or 1.
#[tactic(auto, unfolding(crate::specs::Lines::kept_bytes))]
fn kept_bytes(size: u8, line: &[u8]) -> ArrayVec<u8, 255>
    ensures items { result.items ≡ kept_bytes size line.now }
    ensures fits { length result.items ≤ 254 }
{
    let most = size.saturating_sub(1) as usize;
    let mut bytes = ArrayVec::new();
    for byte in line {
        if *byte != b'\n' && bytes.len() < most {
            bytes.push(*byte);
        }
    }
    bytes
}

/// 0Ah: takes a line and its 0Dh from the input and writes what `kept_bytes` keeps, a 0Dh and the count to the buffer
/// at DS:DX; the rest of the line is dropped. With a buffer of size 0, the call returns, no input is taken and memory
/// stays. With any other size, returns `InputEnded`, with nothing changed, if no 0Dh is left.
#[tactic(auto, unfolding(crate::specs::Lines::read_line))]
pub(crate) fn read_line(parts: &mut Parts) -> Option<Stop>
    ensures answer { OrMemory parts.old (read_line parts.old) result parts.new }
    ensures program { parts.new.processes ≡ parts.old.processes }
{
    let segment = parts.cpu.ds;
    let offset = parts.cpu.dx;
    let size = parts.space.peek(segment, offset);
    if size > 0 {
        let Some(length) = line_length(parts.console.input()) else {
            return Some(Stop::InputEnded);
        };
        let mut bytes = kept_bytes(size, &parts.console.input()[..length]);
        let count = bytes.len() as u8;
        bytes.push(b'\r');
        parts
            .space
            .write_bytes(segment, offset.wrapping_add(2), bytes.as_slice());
        parts
            .space
            .write_bytes(segment, offset.wrapping_add(1), &[count]);
        parts.console.consume(length + 1);
    }
    parts.return_from_interrupt();
    parts.count();
    None
}
