//! Since when upper memory blocks are in use (XMS 3.0, functions 10h to 12h).

ghost use Rattle.std.specs.Prelude.{◌≡◌, slice_get};
ghost use Rattle.dm_origins.specs.Origins.{each_from, upper_origin, upper_since};

use dm_findings::Origin;
use dm_xms::{Upper, Xms};

/// An upper memory block that is in use, and since when.
#[derive(Clone, Copy, Debug)]
pub struct UpperSince {
    /// Its segment.
    pub segment: u16,
    /// The step since which it is in use; None if it is since before the run.
    pub origin: Option<Origin>,
}

/// How many upper memory blocks there are at most.
const UPPERS: usize = 64;

/// The step since which the upper memory block at a segment is in use; `origin` if none is known there.
#[tactic(auto, unfolding(crate::specs::Origins::upper_origin))]
pub(crate) fn upper_origin(
    known: &[Option<UpperSince>],
    origin: Option<Origin>,
    segment: u16,
) -> Option<Origin>
    ensures { result ≡ upper_origin known.now origin segment }
{
    for upper in known {
        if let Some(upper) = upper {
            if upper.segment == segment {
                return upper.origin;
            }
        }
    }
    origin
}

/// What is known of an upper memory block, if there is one, by what was known of all.
fn upper_since(
    known: &[Option<UpperSince>],
    origin: Option<Origin>,
    upper: Option<Upper>,
) -> Option<UpperSince>
    ensures { result ≡ upper_since known.now origin upper }
{
    match upper {
        None => None,
        Some(upper) => Some(UpperSince {
            segment: upper.segment,
            origin: upper_origin(known, origin, upper.segment),
        }),
    }
}

/// Looks at the upper memory blocks, after a step, or before the run (None).
pub(crate) fn look_at_uppers(
    known: &mut [Option<UpperSince>; 64],
    xms: &Xms,
    origin: Option<Origin>,
)
    ensures { known.new ≡ each_from (λ n x. upper_since known.old origin (slice_get xms.now.uppers n)) 0 known.old }
{
    let before = *known;
    for number in 0..UPPERS {
        known[number] = upper_since(&before, origin, xms.upper_block(number));
    }
}
