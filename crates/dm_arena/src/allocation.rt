//! Allocation (function 48h).
ghost use Rattle.std.specs.Prelude.{◌≡◌, ◌≤◌, ◌++◌, List, MatchOption, MatchResult, IfOk};
ghost use Rattle.dm_blocks.specs.declared.header.Header.{Header};
ghost use Rattle.dm_blocks.specs.Chain.{first_header, next, Becomes, IsArena};
ghost use Rattle.dm_arena.specs.inner.Blocks.{cut_list};
ghost use Rattle.dm_arena.specs.Allocation.{AllocateRefused, Allocates};
ghost use Rattle.dm_arena.specs.inner.Walks.{IsPlan, Placing};
ghost use Rattle.dm_arena.specs.inner.Survey.{IsJoinedTo};

use crate::cut::{Cut, cut_of, taken_of, write_cut};
use crate::fit::Strategy;
use crate::joined::join_from;
use crate::refusal::ArenaRefusal;
use crate::standing::may_split;
use crate::survey::{Survey, survey_arena};
use dm_blocks::{FIRST, is_last};
use dm_space::Space;

/// What an allocation (48h) writes and returns: the headers of the block that is cut, and the segment of the new block.
#[derive(Clone, Copy)]
struct Plan {
    cut: Cut,
    segment: u16,
    /// The segment of a header up to which no free block is followed by another one.
    from: u16,
}

/// Plans an allocation (48h) without writing anything. The errors are those of `allocate`.
fn plan_allocation(
    space: &Space,
    strategy: Strategy,
    n: u16,
    owner: u16,
    upper: bool,
) -> Result<Plan, ArenaRefusal>
    ensures plan { MatchResult result (λ plan. IsPlan upper space.now.memory first_header strategy n owner plan) (λ e.
        AllocateRefused upper space.now.memory first_header strategy n owner e) }
    ensures first { IfOk result (λ plan. next plan.cut.first ≤ 0xFFFF) }
    ensures second { IfOk result (λ plan. MatchOption plan.cut.second (Unit {0}) (λ c. next c ≤ 0xFFFF)) }
    ensures joined { IfOk result (λ plan. (L : List Header) → IsArena space.now.memory first_header L →
        IsJoinedTo upper space.now.memory L plan.from) }
{
    let Some(Survey { choice, from }) = survey_arena(space, strategy, n, upper) else {
        return Err(ArenaRefusal::Destroyed);
    };
    let Some(block) = choice.block else {
        return Err(ArenaRefusal::Short {
            largest: choice.largest,
        });
    };
    let cut = cut_of(strategy.fit, n, owner, block);
    if !may_split(space, FIRST, None, cut.second, upper) {
        return Err(ArenaRefusal::Destroyed);
    }
    Ok(Plan {
        cut,
        segment: taken_of(strategy.fit, n, block) + 1,
        from,
    })
}

/// Writes the first list with adjacent free blocks joined, of which there are none before segment `from`, and the
/// headers of a cut in place of that of the block of the joined list that the cut was made from. Bytes 0 to 4 of the
/// headers of the new list are all that changes.
fn write_joined(space: &mut Space, cut: Cut, from: u16, upper: bool)
    requires joined { (L : List Header) → IsArena space.old.memory first_header L →
        IsJoinedTo upper space.old.memory L from }
    requires placing { Placing upper space.old.memory first_header (cut_list cut) }
    requires first { next cut.first ≤ 0xFFFF }
    requires second { MatchOption cut.second (Unit {0}) (λ c. next c ≤ 0xFFFF) }
    ensures memory { (p : Placing upper space.old.memory first_header (cut_list cut)) →
        Becomes space.old.memory first_header (p.before ++ (cut_list cut ++ p.after)) space.new.memory }
    ensures scratch { space.new.scratch ≡ space.old.scratch }
{
    join_from(space, from, upper);
    let last = is_last(space, cut.first.segment);
    write_cut(space, cut, last);
}

/// Allocates a block of n paragraphs to an owner, and returns the block's segment (MS-DOS Programmer's Reference,
/// function 48h).
///
/// Adjacent free blocks are joined first. Of the free blocks that the strategy looks at, it takes one with at least n
/// paragraphs. If that block is larger, first and best fit take its low end, last fit its high end; the rest stays
/// free, with a header of its own. n may be 0.
///
/// `upper` says whether upper memory belongs to the arena: then the link block counts as taken, and where the list is
/// linked the strategy's area counts; else the strategy looks at all blocks.
///
/// Bytes 0 to 4 of the headers of the new list are all that changes.
///
/// # Errors
///
/// `Destroyed` where memory spells no clear list; else `Short` where no free block that the strategy looks at is large
/// enough, with the size of the largest of them once adjacent free blocks are joined, 0 if there is none; else
/// `Destroyed` where the new list would not be clear. A call that fails changes no byte.
pub fn allocate(
    space: &mut Space,
    strategy: Strategy,
    n: u16,
    owner: u16,
    upper: bool,
) -> Result<u16, ArenaRefusal>
    ensures memory { Allocates upper space.old.memory strategy n owner result space.new.memory }
    ensures scratch { space.new.scratch ≡ space.old.scratch }
{
    let plan = plan_allocation(space, strategy, n, owner, upper)?;
    write_joined(space, plan.cut, plan.from, upper);
    Ok(plan.segment)
}
