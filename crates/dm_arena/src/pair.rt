//! Two blocks planned and written together for function 4Bh: the environment of a program, and the program's own.
ghost use Rattle.std.specs.Prelude.{◌≡◌, ◌≤◌, ◌++◌, ◌⊎◌, min, List, MatchBool, MatchResult, option_to_list};
ghost use Rattle.dm_blocks.specs.declared.header.Header.{Header};
ghost use Rattle.dm_blocks.specs.Chain.{first_header, next, Becomes};
ghost use Rattle.dm_arena.specs.Blocks.{join};
ghost use Rattle.dm_blocks.specs.Reading.{IsSpelledFrom};
ghost use Rattle.dm_arena.specs.inner.Walks.{rest_of};
ghost use Rattle.dm_arena.specs.inner.Standing.{IsNew, MaySplit};
ghost use Rattle.dm_arena.specs.Pair.{with_pair, IsPair, IsPlannedOn, PairRefused};

use crate::cut::{Cut, cut_of, taken_of, write_cut};
use crate::fit::{Fit, Spoken, Strategy, choose, in_effect, in_effect_beside};
use crate::joined::join_all;
use crate::refusal::ArenaRefusal;
use crate::standing::may_split;
use dm_blocks::{FIRST, Header, is_arena, is_last};
use dm_space::Space;
use std::marker::Model;

/// Two blocks that were planned together on a memory; nothing is written yet.
///
/// Contracts see the segments of both, the size of the second, and the headers that are to be written.
#[derive(Drop)]
pub struct Pair {
    environment: u16,
    program: u16,
    size: u16,
    first: Cut,
    second: Cut,
}

impl Model for Pair {
    ghost use Rattle.dm_arena.specs.inner.Blocks.{cut_list};
    ghost use Rattle.dm_arena.specs.Pair.{Planned};
    ghost use Rattle.dm_arena.specs.inner.Pair.{IsCutFitting};

    ghost Value = { Planned };

    ghost view = { λ p. record {
      environment = p.environment;
      program = p.program;
      size = p.size;
      first = cut_list p.first;
      second = cut_list p.second;
    } };

    ghost invariant = { λ p. IsCutFitting p.first × IsCutFitting p.second };
}

impl Pair {
    /// The segment of the first block, the environment's.
    pub fn environment_block(&self) -> u16
        ensures { result ≡ self.now.environment }
    {
        self.environment
    }

    /// The segment of the second block, the program's own, which owns both.
    pub fn program_block(&self) -> u16
        ensures { result ≡ self.now.program }
    {
        self.program
    }

    /// The size of the program's block in paragraphs.
    pub fn size(&self) -> u16
        ensures { result ≡ self.now.size }
    {
        self.size
    }
}

/// The block from which the first block of a pair takes n paragraphs, and its rest, which the second may take.
fn spoken_of(fit: Fit, n: u16, block: Header) -> Spoken
    requires within { n ≤ block.size }
    requires fits { next block ≤ 0xFFFF }
    ensures segment { result.segment ≡ block.segment }
    ensures rest { result.rest ≡ rest_of fit n block }
{
    if block.size == n {
        return Spoken {
            segment: block.segment,
            rest: None,
        };
    }
    let segment = match fit {
        Fit::First | Fit::Best => block.segment + 1 + n,
        Fit::Last => block.segment,
    };
    let rest = Header {
        segment,
        owner: 0,
        size: block.size - n - 1,
    };
    Spoken {
        segment: block.segment,
        rest: Some(rest),
    }
}

/// The size in paragraphs of the second block of a pair: the smaller of what is asked for and what is left.
fn smaller(most: u32, left: u16) -> u16
    ensures { result ≡ min most left }
{
    if most < left as u32 {
        most as u16
    } else {
        left
    }
}

/// Whether the new headers of a pair's two cuts, if they make any, may stand beside the headers of the joined list and
/// beside each other: writes there are kept, and no two share a place.
fn are_clear(space: &Space, first: Cut, second: Cut, upper: bool) -> bool
    requires { (L : List Header) × IsSpelledFrom space.now.memory first_header L }
    ensures { (L : List Header) → IsSpelledFrom space.now.memory first_header L → IsNew (join upper L) first.second →
        IsNew (option_to_list first.second ++ join upper L) second.second → MatchBool result (MaySplit space.now.memory
        (join upper L) first.second × MaySplit space.now.memory (option_to_list first.second
        ++ join upper L) second.second) ((MaySplit space.now.memory (join upper L) first.second → ⊥) ⊎
        (MaySplit space.now.memory (option_to_list first.second ++ join upper L) second.second → ⊥)) }
{
    if !may_split(space, FIRST, None, first.second, upper) {
        return false;
    }
    may_split(space, FIRST, first.second, second.second, upper)
}

/// Plans two blocks: the first with `environment_paragraphs`, then, of what is left, the second with the smaller of
/// `most` paragraphs and the largest free block. Nothing is written.
///
/// Both blocks are chosen by the strategy, as by an allocation of each in turn, once adjacent free blocks are joined.
/// `upper` says whether upper memory belongs to the arena: then the strategy's area counts where the list is linked,
/// for the second block also where the first one makes the link block's header.
///
/// # Errors
///
/// `Destroyed` where memory spells no clear list; else `Short` where the first block has no room, no free block is left
/// for the second, or the second would have less than `least` paragraphs, with the size of the largest free block that
/// the strategy looks at for the first one once free blocks are joined; else `Destroyed` where the list with both
/// blocks would not be clear.
pub fn plan_pair(
    space: &Space,
    strategy: Strategy,
    environment_paragraphs: u16,
    least: u32,
    most: u32,
    upper: bool,
) -> Result<Pair, ArenaRefusal>
    ensures { MatchResult result (λ pair. IsPair upper space.now.memory first_header strategy environment_paragraphs
        least most pair) (λ e. PairRefused upper space.now.memory first_header strategy environment_paragraphs least
        most e) }
{
    if !is_arena(space) {
        return Err(ArenaRefusal::Destroyed);
    }
    let searched = in_effect(space, strategy, upper);
    let choice = choose(space, searched, environment_paragraphs, None, upper);
    let short = ArenaRefusal::Short {
        largest: choice.largest,
    };
    let Some(block) = choice.block else {
        return Err(short);
    };
    let spoken = spoken_of(strategy.fit, environment_paragraphs, block);
    let taken = cut_of(strategy.fit, environment_paragraphs, 0, block);
    let searched_then = in_effect_beside(space, strategy, taken.second, upper);
    let left = choose(space, searched_then, 0, Some(spoken), upper).largest;
    let size = smaller(most, left);
    if (size as u32) < least {
        return Err(short);
    }
    let Some(whole) = choose(space, searched_then, size, Some(spoken), upper).block else {
        return Err(short);
    };
    let environment_segment = taken_of(strategy.fit, environment_paragraphs, block) + 1;
    let program = taken_of(strategy.fit, size, whole) + 1;
    let first = cut_of(strategy.fit, environment_paragraphs, program, block);
    let second = cut_of(strategy.fit, size, program, whole);
    if !are_clear(space, first, second, upper) {
        return Err(ArenaRefusal::Destroyed);
    }
    Ok(Pair {
        environment: environment_segment,
        program,
        size,
        first,
        second,
    })
}

/// Writes a planned pair to the first list: joins its adjacent free blocks, and writes the headers of the two blocks
/// that are cut, the parts taken owned by the segment of the program's block, the parts left free.
///
/// Memory and setting are as the pair was planned on. Bytes 0 to 4 of the headers of the new list are all that changes.
pub fn write_pair(space: &mut Space, pair: Pair, upper: bool)
    requires { IsPlannedOn upper space.old.memory pair }
    ensures memory { (p : IsPlannedOn upper space.old.memory pair) → Becomes space.old.memory first_header (with_pair
        p.planned.pairing) space.new.memory }
    ensures scratch { space.new.scratch ≡ space.old.scratch }
{
    let Pair { first, second, .. } = pair;
    join_all(space, upper);
    let last = is_last(space, first.first.segment);
    write_cut(space, first, last);
    let last = is_last(space, second.first.segment);
    write_cut(space, second, last);
}
