//! Moves and exchanges of the bytes of spans, through the scratch bytes; `move_blocks` alone does without them.

ghost use Rattle.std.specs.Prelude.{◌≡◌, ◌+◌, ◌%◌, ◌<◌, ◌≤◌};
ghost use Rattle.dm_space.specs.moves.inner.Copying.{read_in, written_out};
ghost use Rattle.dm_space.specs.moves.Spans.{span_moved, spans_exchanged, IsInside};

use crate::Space;
use crate::moves::spans::{PAGE, Span, SpanKind};

/// How many of the next `left` bytes of a span come before the next multiple of 4000h: their places lie side by side.
/// `at` is where the first of them stands, as [`Span::at`] counts.
pub(crate) fn stretch_len(at: usize, left: usize) -> usize
    requires { 0 < left }
    ensures some { 0 < result }
    ensures left { result ≤ left }
    ensures stretch { at % 0x4000 + result ≤ 0x4000 }
{
    (PAGE - at % PAGE).min(left)
}

/// Copies `len` bytes of a span, from its byte `k` on, into the scratch bytes from `at` on. The bytes lie between two
/// multiples of 4000h. The memory and the other scratch bytes stay.
fn read_stretch(space: &mut Space, span: &Span<'_>, k: usize, at: usize, len: usize)
    requires inside { IsInside space.old.memory span.now (k + len) }
    requires some { 0 < len }
    requires stretch { (span.now.start + k) % 0x4000 + len ≤ 0x4000 }
    requires scratch { at + len ≤ 0x200000 }
    ensures { space.new ≡ read_in space.old span.now k at len }
{
    let _sizes = space.a20();
    let from = span.at(k);
    match span.kind() {
        SpanKind::Linear => space.copy_in(from, at, len),
        SpanKind::Pages => space.copy_block_in(span.blocks()[from / PAGE], from % PAGE, at, len),
        SpanKind::Single => space.copy_block_in(span.blocks()[0], from, at, len),
    }
}

/// Writes `len` scratch bytes from `at` on to a span, from its byte `k` on, upwards. The bytes written lie between two
/// multiples of 4000h. The scratch bytes stay.
fn write_stretch(space: &mut Space, span: &Span<'_>, k: usize, at: usize, len: usize)
    requires inside { IsInside space.old.memory span.now (k + len) }
    requires some { 0 < len }
    requires stretch { (span.now.start + k) % 0x4000 + len ≤ 0x4000 }
    requires scratch { at + len ≤ 0x200000 }
    ensures { space.new ≡ written_out space.old span.now k at len }
{
    let _sizes = space.a20();
    let to = span.at(k);
    match span.kind() {
        SpanKind::Linear => space.copy_out(at, to, len),
        SpanKind::Pages => space.copy_block_out(at, span.blocks()[to / PAGE], to % PAGE, len),
        SpanKind::Single => space.copy_block_out(at, span.blocks()[0], to, len),
    }
}

/// Copies the first `len` bytes of a span into the scratch bytes from `at` on. The memory and the other scratch bytes
/// stay.
fn read(space: &mut Space, span: &Span<'_>, at: usize, len: usize)
    requires inside { IsInside space.old.memory span.now len }
    requires scratch { at + len ≤ 0x200000 }
    ensures { space.new ≡ read_in space.old span.now 0 at len }
{
    let _sizes = space.a20();
    let mut done = 0;
    while done < len {
        let count = stretch_len(span.at(done), len - done);
        read_stretch(space, span, done, at + done, count);
        done += count;
    }
}

/// Writes `len` scratch bytes from `at` on to the first bytes of a span, upwards. The scratch bytes stay.
fn write(space: &mut Space, at: usize, span: &Span<'_>, len: usize)
    requires inside { IsInside space.old.memory span.now len }
    requires scratch { at + len ≤ 0x200000 }
    ensures { space.new ≡ written_out space.old span.now 0 at len }
{
    let _sizes = space.a20();
    let mut done = 0;
    while done < len {
        let count = stretch_len(span.at(done), len - done);
        write_stretch(space, span, done, at + done, count);
        done += count;
    }
}

/// Copies the first `len` bytes of one span to another (INT 67h function 57h, AL = 0; XMS 3.0, function 0Bh with memory
/// of handle 0): all are read into the scratch bytes, and then written upwards.
/// What is written to ROM, or where there is no memory, is lost. Nothing is promised of the scratch bytes afterwards.
pub fn move_bytes(space: &mut Space, from: &Span<'_>, to: &Span<'_>, len: usize)
    requires from { IsInside space.old.memory from.now len }
    requires to { IsInside space.old.memory to.now len }
    requires scratch { len ≤ 0x200000 }
    ensures { space.new.memory ≡ span_moved space.old.memory from.now to.now len }
{
    let _sizes = space.a20();
    read(space, from, 0, len);
    write(space, 0, to, len);
}

/// Copies the first `len` bytes of one span to another, each of them in one block, which may be the same (XMS 3.0,
/// function 0Bh between handles): the result is as if all were read before the first is written. The scratch bytes are
/// not used and stay as they are, so `len` may exceed their number.
pub fn move_blocks(space: &mut Space, from: &Span<'_>, to: &Span<'_>, len: usize)
    requires blocks { (from.now.kind ≡ SpanKind.Single) × (to.now.kind ≡ SpanKind.Single) }
    requires from { IsInside space.old.memory from.now len }
    requires to { IsInside space.old.memory to.now len }
    ensures memory { space.new.memory ≡ span_moved space.old.memory from.now to.now len }
    ensures scratch { space.new.scratch ≡ space.old.scratch }
{
    if len == 0 {
        return;
    }
    let source = from.blocks()[0];
    let destination = to.blocks()[0];
    space.move_bytes(source, from.at(0), destination, to.at(0), len);
}

/// Exchanges the first `len` bytes of two spans (INT 67h function 57h, AL = 1): the bytes of both are read into the
/// scratch bytes, and then written upwards to the other span, to `to` first. What is written to ROM, or where there
/// is no memory, is lost. Nothing is promised of the scratch bytes afterwards.
pub fn exchange_bytes(space: &mut Space, from: &Span<'_>, to: &Span<'_>, len: usize)
    requires from { IsInside space.old.memory from.now len }
    requires to { IsInside space.old.memory to.now len }
    requires scratch { len ≤ 0x100000 }
    ensures { space.new.memory ≡ spans_exchanged space.old.memory from.now to.now len }
{
    let _sizes = space.a20();
    let (first, second) = (0, len);
    read(space, from, first, len);
    read(space, to, second, len);
    write(space, first, to, len);
    write(space, second, from, len);
}
