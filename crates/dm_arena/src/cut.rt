//! A block cut in two (48h, 4Ah, 4Bh and 31h): the part that is taken, and the rest, which is free. 49h and the end of
//! a program write a cut of one header.
ghost use Rattle.std.specs.Prelude.{◌≡◌, ℕ, ◌+◌, ◌<◌, ◌≤◌, List, MatchOption};
ghost use Rattle.dm_blocks.specs.declared.header.Header.{Header};
ghost use Rattle.dm_blocks.specs.Chain.{next};
ghost use Rattle.dm_arena.specs.Blocks.{cut_block, taken_segment};
ghost use Rattle.dm_arena.specs.inner.Blocks.{cut_list};
ghost use Rattle.dm_arena.specs.inner.Walks.{IsReplaceable, IsReplaced};

use crate::fit::Fit;
use crate::writing::write_header;
use dm_blocks::{Header, ListedHeader};
use dm_space::Space;

/// The one or two headers that replace the header of a block: the lower one first.
#[derive(Clone, Copy)]
pub(crate) struct Cut {
    pub(crate) first: Header,
    pub(crate) second: Option<Header>,
}

/// The headers of a block with n of its paragraphs given to the owner and the rest free: at the low
/// end with first and best fit, at the high end with last fit. One header if n is the block's size.
pub(crate) fn cut_of(fit: Fit, n: u16, owner: u16, block: Header) -> Cut
    requires within { n ≤ block.size }
    requires fits { next block ≤ 0xFFFF }
    ensures cut { cut_list result ≡ cut_block fit n owner block }
    ensures first { next result.first ≤ 0xFFFF }
    ensures second { MatchOption result.second (Unit {0}) (λ c. next c ≤ 0xFFFF) }
{
    if block.size == n {
        return Cut {
            first: Header { owner, ..block },
            second: None,
        };
    }
    let rest = block.size - n - 1;
    let (low, high) = match fit {
        Fit::First | Fit::Best => ((owner, n), (0, rest)),
        Fit::Last => ((0, rest), (owner, n)),
    };
    let first = Header {
        segment: block.segment,
        owner: low.0,
        size: low.1,
    };
    let second = Header {
        segment: first.segment + 1 + first.size,
        owner: high.0,
        size: high.1,
    };
    Cut {
        first,
        second: Some(second),
    }
}

/// The segment of the header of the n paragraphs that are taken from a block: the block's own with first and best fit,
/// as the low end is taken; with last fit that before the high end.
pub(crate) fn taken_of(fit: Fit, n: u16, block: Header) -> u16
    requires within { n ≤ block.size }
    requires fits { next block ≤ 0xFFFF }
    ensures value { result ≡ taken_segment fit n block }
    ensures small { result < 0xFFFF }
{
    match fit {
        Fit::First | Fit::Best => block.segment,
        Fit::Last => block.segment + block.size - n,
    }
}

/// Writes the headers of a cut, the upper one first. `last` says that no header of the list follows the block: then the
/// upper one, or the only one, gets the signature of a last header. Nothing else changes.
pub(crate) fn write_cut(space: &mut Space, cut: Cut, last: bool)
    requires first { next cut.first ≤ 0xFFFF }
    requires second { MatchOption cut.second (Unit {0}) (λ c. next c ≤ 0xFFFF) }
    ensures memory { (start : ℕ) (P B Q : List Header) (h t : ℕ) → IsReplaceable space.old.memory start P B Q (cut_list
        cut) last h t → IsReplaced space.old.memory start P Q (cut_list cut) space.new.memory }
    ensures scratch { space.new.scratch ≡ space.old.scratch }
{
    match cut.second {
        None => write_header(
            space,
            ListedHeader {
                header: cut.first,
                last,
            },
        ),
        Some(second) => {
            write_header(
                space,
                ListedHeader {
                    header: second,
                    last,
                },
            );
            write_header(
                space,
                ListedHeader {
                    header: cut.first,
                    last: false,
                },
            );
        }
    }
}
