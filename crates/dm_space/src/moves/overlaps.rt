//! Whether spans overlap: whether they share a place that is memory or ROM (LIM EMS 4.0, function 24; INT 67h function
//! 57h).

ghost use Rattle.std.specs.Prelude.{◌≡◌, ◌==◌, ◌+◌, ◌<◌};
ghost use Rattle.dm_space.specs.inner.SideBySide.{shift};
ghost use Rattle.dm_space.specs.moves.Overlaps.{is_shared, any_two, overlap};
ghost use Rattle.dm_space.specs.moves.Spans.{place_in, IsInside};

use crate::moves::copies::stretch_len;
use crate::moves::spans::Span;
use crate::{Place, Space};

/// Whether the `n` numbers from `a` on and the `l` numbers from `b` on have one in common.
fn meet(a: usize, n: usize, b: usize, l: usize) -> bool
    requires n { 0 < n }
    requires l { 0 < l }
    ensures { result ≡ any_two n l (λ i j. a + i == b + j) }
{
    if a <= b { b - a < n } else { a - b < l }
}

/// Whether the `n` places side by side from `p` on and the `l` places from `q` on have one in common that is memory or
/// ROM.
fn stretches_meet(p: Place, n: usize, q: Place, l: usize) -> bool
    requires n { 0 < n }
    requires l { 0 < l }
    ensures { result ≡ any_two n l (λ i j. is_shared (shift p i) (shift q j)) }
{
    match p {
        Place::Low(a) => {
            match q {
                Place::Low(b) => meet(a, n, b, l),
                Place::Page(_, _) => false,
                Place::Rom(_) => false,
                Place::Nothing => false,
            }
        }
        Place::Page(page, a) => {
            match q {
                Place::Low(_) => false,
                Place::Page(other, b) => {
                    if page == other {
                        meet(a, n, b, l)
                    } else {
                        false
                    }
                }
                Place::Rom(_) => false,
                Place::Nothing => false,
            }
        }
        Place::Rom(a) => {
            match q {
                Place::Low(_) => false,
                Place::Page(_, _) => false,
                Place::Rom(b) => meet(a, n, b, l),
                Place::Nothing => false,
            }
        }
        Place::Nothing => false,
    }
}

/// Whether the `n` places side by side from `p` on and the first `len` bytes of a span share a place that is memory or
/// ROM.
fn stretch_meets(space: &Space, p: &Place, n: usize, span: &Span<'_>, len: usize) -> bool
    requires n { 0 < n }
    requires inside { IsInside space.now.memory span.now len }
    ensures { result ≡ any_two n len (λ i j. is_shared (shift p.now i) (place_in space.now.memory span.now j)) }
{
    let mut done = 0;
    while done < len {
        let count = stretch_len(span.at(done), len - done);
        if stretches_meet(*p, n, span.place(space, done), count) {
            return true;
        }
        done += count;
    }
    false
}

/// Whether the first `len` bytes of two spans share a place that is memory or ROM.
#[tactic(auto, unfolding(crate::specs::moves::Overlaps::overlap))]
pub fn overlap(space: &Space, from: &Span<'_>, to: &Span<'_>, len: usize) -> bool
    requires from { IsInside space.now.memory from.now len }
    requires to { IsInside space.now.memory to.now len }
    ensures { result ≡ overlap space.now.memory from.now to.now len }
{
    let mut done = 0;
    while done < len {
        let count = stretch_len(from.at(done), len - done);
        if stretch_meets(space, &from.place(space, done), count, to, len) {
            return true;
        }
        done += count;
    }
    false
}
